//! What one process does with all requests of a store that it works on: a machine without I/O, clock or threads.
//!
//! A `Host` has the work of each request (`cf_turn`), the sessions that beat (`cf_watch`), and what it has asked for. It is
//! led by a loop: `turn` tells what is to be done next, until it tells to sleep. Each question and each call of a function
//! has a ticket, by which its answer comes; an answer to no open ticket is refused. A stage is claimed only while a thread
//! is free. Beats and looks for what is new come first, then requests that are to be opened, then the first request whose
//! work has anything to do.
//!
//! Payloads aren't the machine's: a call names places and functions by numbers, and who leads the machine fetches them.
#![tactic(auto)]

mod answering;
mod answers;
mod asking;
mod busy;
mod clock;
mod host;
pub mod laws;
mod lost;
mod news;
mod order;
mod pulse;
mod request;
mod requests;
mod ticket;
mod tickets;
mod timers;
mod turning;

pub use cf_notes::Note;
pub use cf_turn::{Act, EndsWith, Entry, Fault, NoAct, Part, Question, Shown, Told};
pub use cf_watch::Beat;
pub use clock::Reading;
pub use host::Host;
pub use news::{Look, News};
pub use order::{NoAnswer, NoCall, Order};
pub use pulse::Pulse;
pub use request::Request;
pub use requests::Length;
pub use ticket::{Asked, Ticket};
pub use tickets::Tickets;
