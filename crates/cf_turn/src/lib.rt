//! The turn of one request: what a process does next there, and whom it tells what. A machine without I/O, clock or threads.
//!
//! A `Work` is a session's part in a request (`cf_part`) with the acts that users wait for. `turn` asks a few deciders,
//! one after another: an act that has its answer is told; what the part tells is done; what is to stand next is planned, an
//! act before all else that is due (`cf_due`); the question about the row is asked; and a request in which nothing is left
//! to do is closed. The answers of the store are those of the part, and also answer the act whose put is under way. An act
//! that lost its place is decided again. A refusal behind a missing answer isn't one, since the act may stand: its put is
//! asked for again, and who waits for it is told by a moment that it may.
#![tactic(auto)]

mod acting;
mod busy;
mod closing;
pub mod laws;
mod planning;
mod quiet;
mod timers;
mod turn;
mod users;
mod wish;
mod work;

pub use cf_due::{Act, NoAct};
pub use cf_part::{EndsWith, Entry, Fault, LedgerFault, Misfit, Part, Question, Replica, Shown};
pub use turn::Turn;
pub use wish::{End, Told, Wish};
pub use work::Work;
