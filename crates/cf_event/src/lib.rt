//! Events as 64-bit words. A word is `kind * 2^56 + who * 2^48 + stage * 2^36 + tag * 2^32 + low`; each event has one
//! word, no two events share one, no word is 0, and a word that is no event's decodes to nothing.
//!
//! In the word of an event that attaches a stage, the stage is its first source, the tag is how many sources it has, and
//! `low` is `form * 2^24 + second * 2^12 + function`. What it doesn't have is 0.
//!
//! A `Record` is what a caller keeps of one call. `IsOneHistory` in `specs/Histories` says when events, and the records of
//! callers, are one history: a closed desk of `cf_desk` promises it, and `cf_history` judges anybody's account by it.
#![tactic(auto)]

mod applying;
mod attaching;
mod codec;
pub mod laws;
mod record;

pub use applying::{apply, replay};
pub use attaching::{LAST_FUNCTION, is_function};
pub use cf_model::{Event, Reply};
pub use codec::{LAST_CALLER, claim_of, completing_of, decode, encode, giving_of, is_event};
pub use record::Record;
