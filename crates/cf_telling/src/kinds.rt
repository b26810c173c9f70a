//! Everything as which a tale can be told.
use crate::account::account_of;
use crate::lines::{line_of, lines_of};
use crate::people::People;
use crate::script::{report_of, script_of};
use crate::tale::Tale;
use std::alloc::{AllocError, Global};

/// As what a tale is told.
#[derive(Clone, Copy, Debug, PartialEq, Eq)]
pub enum Kind {
    /// A line for each event, for people.
    Lines,
    /// One line, for a log.
    Line,
    /// What `cf_look check` judges and `cf_look page` shows.
    Account,
    /// What `cf run` does again.
    Script,
    /// What `cf run` prints of the script.
    Report,
}

/// The tale as a text of a kind. It fails only where there is no memory.
pub fn tell(alloc: Global, tale: &Tale, people: &People, kind: Kind) -> Result<String, AllocError> {
    match kind {
        Kind::Lines => lines_of(alloc, tale, people),
        Kind::Line => line_of(alloc, tale, people),
        Kind::Account => account_of(alloc, tale, people),
        Kind::Script => script_of(alloc, tale),
        Kind::Report => report_of(alloc, tale),
    }
}
