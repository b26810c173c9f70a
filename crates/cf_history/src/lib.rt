//! Whether what callers were told is one history.
//!
//! A history is a plan, a list of 64-bit words, and for each caller the records of its calls: what it asked or called, at
//! which place in the history, and what it was answered. `check` decodes the words to events, and applies them one after
//! another to a new graph. Then, for each caller, it applies them again to another new graph, and reads the caller's records
//! in order. Each record has to tell what the graph answers at its place, no place may come before that of the record before
//! it, and each event of the caller has to be in one of its records. So the records fit exactly if one sequential graph,
//! asked in the order of the history, would have answered all callers as they were answered.
//!
//! Nothing in a history is trusted. A word may be no event's, or that of an event which the graph doesn't take; a record may
//! be wrong; and so may the outcomes that the history says its stages had in the end. If the history doesn't fit, `check`
//! names the first event that doesn't; if all events do, the first record of the first caller; and if all records do, the
//! first outcome. It also says what the sequential graph answers there.
//!
//! Several sessions may have had one caller's number, and a caller may have been gone before it was answered. Then `fill_in`
//! makes a history of what the sessions tell: it puts their records together, by their places, and takes the graph's own
//! reply where none is known. This history fits exactly if some replies make one that fits, so `check_shared` judges it.
//!
//! `IsOneHistory` of `cf_event` says when records fit; a closed desk promises the same. `specs/Histories` says what a
//! history holds beside its records, and `specs/Shared` says it for sessions. `specs/Records` goes through the records one
//! after another, as `check` reads them. `specs/Verdicts` says what each verdict tells. A law says that a history has one
//! verdict, and `check` gives `Fits` exactly if everything fits.
#![tactic(auto)]

mod caller;
mod checking;
mod events;
mod filling;
mod history;
pub mod laws;
mod merging;
mod outcomes;
mod shared;
mod verdict;

pub use cf_event::Record;
pub use checking::check;
pub use filling::{check_shared, fill_in};
pub use history::{Caller, History};
pub use shared::{Entry, Session, SharedCaller, SharedHistory};
pub use verdict::{Misfit, Unfit, Verdict};
