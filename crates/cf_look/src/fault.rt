//! Why what is on standard input can't be shown or judged, and where that stands in it.
use cf_text::ScriptFault;
use thiserror::Error;

/// Where bytes stop being JSON: the line and the column, counted from 1.
#[derive(Clone, Copy, Debug, Error)]
#[error("invalid JSON at line {line} column {column}")]
pub(crate) struct NotJson {
    pub(crate) line: usize,
    pub(crate) column: usize,
}

/// What is wrong with an account, or with what a script says for people. Each names the member that it is about, by its path.
#[derive(Clone, Copy, Debug, Error)]
pub(crate) enum Unreadable {
    #[error("{0}")]
    Json(NotJson),
    #[error("plan: {0}")]
    NoPlan(ScriptFault),
    #[error("plan: room")]
    Room,
    /// A member that isn't there or isn't right. Of some it says behind the path what it has to be.
    #[error("{0}")]
    Member(&'static str),
    #[error("{0}: has to be an array")]
    List(&'static str),
    /// A name of an element of a list, and the path to it behind the element's number.
    #[error("{0}[{1}]{2}: has to be a text of at most 64 characters")]
    Name(&'static str, usize, &'static str),
    /// An element of a list, and what stands behind its number: the rest of the path, and what has to be there.
    #[error("{0}[{1}]{2}")]
    Element(&'static str, usize, &'static str),
    #[error("callers[{0}][{1}]")]
    Record(usize, usize),
    #[error("callers[{0}].sessions[{1}]")]
    Session(usize, usize),
    #[error("callers[{0}].sessions[{1}][{2}]")]
    SessionRecord(usize, usize, usize),
}
