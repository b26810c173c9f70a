//! Workers over a desk, and races: who runs which function, and how does a race end?
//!
//! A worker looks for the lowest ready stage of what its pass has seen, and claims it. If the claim is granted, it calls the
//! stage's function and finishes the stage with the answer. So each function runs on the thread of the one worker that was
//! granted its stage. Workers tell each other nothing: the desk's log decides. A stage that is attached while they work is
//! found like any other, and its function is the one with which it was attached. `work` is one worker, on the thread of its
//! caller. `run` starts a thread for each worker, joins them all, and closes the desk.
//!
//! In a `race` caller 0 first settles sources and attaches stages, and then workers do all the work that there is. A race's
//! desk has a caller for each worker beside caller 0. Its log has a word for each step, for a claim of each stage by each
//! caller, attached stages included, and for one finish of each stage, and one word more. So neither the log nor a pass is
//! ever full, and a race fails only for want of memory or for its size. The workers' events come in any order, but in a
//! plain plan each stage ends as its expression, whatever the order and however many workers there are.
#![tactic(auto)]

mod faults;
mod gate;
mod pool;
mod races;
mod worker;
mod workers;

pub use faults::PoolFault;
pub use gate::{Gate, NoGate};
pub use pool::{Left, Unbegun, run, runs_end_plainly};
pub use races::{RaceFault, RaceTerms, race, races_end_alike, races_end_as_expressions};
pub use worker::{Done, work};
pub use workers::{Shared, Worker, share};
