//! The flight recorder of one request: a graph, with the words of all that was done to it.
//!
//! A `Ledger` keeps one graph and the words of the events that were done to it, in order. It is opened with a plan and
//! with room for attached stages, or made again from its words. Each word that is done is appended to the others, with
//! the stages that it changed (`Ledger::news`), so that whoever waits for them can be woken. What is written never
//! changes. A call finds the memory that it needs before it changes anything. `reserve` finds it for words to come, so
//! that these can't fail for want of memory. Callers that share a ledger keep it under one lock.
//!
//! Its words are those of a desk's history. So `of_words` makes a ledger from a history, unless an attach in it found
//! the room full.
#![tactic(auto)]

mod faults;
mod ledger;
mod news;
mod places;
mod rows;
mod step;
mod writing;

pub use cf_model::{Event, Reply, Stage};
pub use faults::{LedgerFault, Misfit, StepFault};
pub use ledger::Ledger;
pub use step::{Finish, Held, Step, Taken};
