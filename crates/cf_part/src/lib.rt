//! One process's part in one request of a store: a machine without I/O, clock or threads.
//!
//! A `Part` is a session's view of the request's row and of its notes, with what the process has to do there. It tells
//! which functions are to be called, which may end, and which outcomes somebody waits for (`next`). It has one question
//! about the row open at most (`question`), and is told the answer. A put is made of the words that are due (`plan`), and
//! is asked for as it is until an answer comes, or it is refused. What a function came to (`ended`) is owed until the row
//! has it.
//!
//! Its laws say that no function is called twice, by whichever processes, and that nothing that is owed is lost.
#![tactic(auto)]

mod finding;
mod growing;
pub mod laws;
mod part;
mod progress;
mod putting;
mod question;
mod seeing;
mod step;

pub use cf_ledger::{LedgerFault, Misfit};
pub use cf_notes::{EndsWith, Note, Noted, Owed, Source, Want};
pub use cf_row::{Entry, PutFault, Replica};
pub use part::{MOST_WANTS, Part};
pub use progress::Progress;
pub use question::{Fault, PutOf, Question};
pub use step::{Shown, Step};
