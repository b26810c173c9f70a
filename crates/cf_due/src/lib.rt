//! Which words a process puts next in one request's row, and whether any is due.
//!
//! A process sees a row by its session's view, and what stands there beside words by notes. From the two, what its
//! functions came to, the sessions that are gone and the store's clock it follows what is due: the finish of a stage
//! whose function has ended, with the claim of the next one; the failure of a stage whose session is gone; what settles a
//! promise as the stage is that it was given, or cancels one that was given none; what a timer does; and the claim of a
//! stage whose function the process knows. Each decider gives a word that the graph takes behind all that was seen, or
//! tells that nothing of its kind is due. `next_due` asks them in turn.
#![tactic(auto)]

mod abandoning;
mod acts;
mod attaching;
mod claiming;
mod due;
mod finishing;
pub mod laws;
mod promises;
mod settling;
mod ticking;
mod timers;

pub use acts::{Act, Acting, NoAct, act_on};
pub use due::{Due, next_due};
pub use finishing::Finishing;
