//! Texts: how replies, answers to questions and a caller's records are written, the line that tells a fault, and
//! which characters of a name are shown.
//!
//! `specs/Texts.antt` has the words of replies, of outcomes and of what a question is told, `specs/Records.antt` the
//! records of an account, `specs/Faults.antt` the line of each fault of a script, and `specs/Names.antt` which
//! characters stand in a line as they are. What is printed of a whole script belongs to `cf_script`.
//!
//! Reading a script gives a `ReadingFault`. `From` makes a `ScriptFault` of it, which adds the two faults that come
//! after reading.
#![tactic(auto)]

mod fault;
mod names;
mod records;
mod texts;

pub use fault::{ScriptFault, line_of};
pub use names::is_shown;
pub use records::{write_did, write_saw};
pub use texts::{write_reply, write_settled, write_told};
