//! What the notes of a row say of its stages.
//!
//! A row's words say what happened in a request's graph. What the graph doesn't know stands beside a word as a note, in
//! numbers: which function a stage has, which stage it tries again, which promise it composes, and what that was given,
//! when a stage times out, and that a stage was failed since its session was gone. A process keeps what the notes say
//! of each stage in a table, and follows the row entry by entry.
//!
//! A note that stands beside a word of another kind, or beside one that changed nothing, says nothing. Nor does one
//! that names a stage that isn't there. So whatever stands in a row, the table names only stages that are there.
#![tactic(auto)]

mod entry;
pub mod laws;
mod lookups;
mod note;
mod noted;
mod notes;
mod stage;
mod wants;
mod words;

pub use lookups::{function_of, given_of, promise_of, timer_of};
pub use note::Note;
pub use noted::{Noted, Timer};
pub use notes::Notes;
pub use wants::{EndsWith, Owed, Source, Want};
pub use words::{NoteWords, decode, encode};
