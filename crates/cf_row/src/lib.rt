//! One session's view of one request's row in a store: a machine without I/O, clock or threads.
//!
//! A row is a list of entries, each a word with a token that names who put it. An engine keeps it: it puts a group of
//! entries where none stands yet, all or none. A `Row` is what one session knows of it. It replays what its host read
//! there, plans puts for the end of what it has seen, and is told what became of each. What it replays is what stands,
//! never its own copy of a put. An entry is its own if the entry's token is its session's: so nothing has to be
//! remembered of a put whose answer was lost, and what is read later tells. It also says which words a session puts
//! next: the finish of a stage that it has, with the claim of another one, and what fails the stages of one that is gone.
//!
//! A contract speaks of any row of which all is true that the session was told. So the row itself is a value of the
//! proof alone, and the laws say of all sessions together what follows.
#![tactic(auto)]

mod entry;
mod faults;
mod grants;
pub mod laws;
mod next;
mod numbers;
mod places;
mod plans;
mod replica;
mod row;
mod words;

pub use cf_ledger::{Held, Ledger, LedgerFault, Misfit, Reply};
pub use entry::{Entry, SESSIONS, TOKENS};
pub use faults::PutFault;
pub use grants::Claim;
pub use replica::Replica;
pub use row::Row;
