//! What a graph of stages means: which state follows a call, and what a question is told.
//!
//! Each stage of a graph is pending, ready with its arguments, claimed, linked to a lower stage, or settled. The graph
//! doesn't run a stage's function: the stage becomes ready, a caller claims it and is handed the arguments, and later
//! finishes it with the function's answer. In between any other call may settle the stage; the late finish then closes
//! the claim and changes nothing. Once settled, a stage keeps its outcome. A `Call` that a caller makes is an `Event`,
//! and its answer is a `Reply`; a question is an `Ask`, and its answer is a `Told`. The forms and their rules are those
//! of Java SE 17's `CompletableFuture` and `CompletionStage`.
//!
//! The definitions stand in `specs/`, to be read in this order:
//!
//! - `States`: the state of a graph, in which all consequences have come to pass. `start` is the state at the opening;
//!   `after` is the state once a stage has settled and each stage, in rising number, has taken what its sources then
//!   give.
//! - `Events`: `answered` gives the reply to an event and the state after it; `told` gives the answer to a question.
//! - `Ranges`: which events a graph takes.
//! - `Calls` and `Claims`: which events a caller's calls are, and which stages may be claimed.
//! - `Laws` and `Growth`: what is true of every run of events.
//! - `Graphs`: what a contract sees of a graph that is kept.
//! - `Calling`: which functions work calls: that of each stage that it works on, once.
//! - `Working`: what work leads to where functions remember nothing.
//!
//! The definitions have no marks, no list of work and no loop. `cf_core` keeps a graph so that it answers by them. The
//! laws are proved here, by the functions of `laws`.
#![tactic(auto)]

mod asks;
mod calls;
mod events;
pub mod laws;
mod replies;
mod stage;

pub use asks::{Ask, Told};
pub use calls::{Call, event_by};
pub use events::{Event, Failure, Reply};
pub use replies::{Attached, Claimed, Finished, Ticked};
pub use stage::Stage;
