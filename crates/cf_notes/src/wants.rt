//! What a process puts, and what its functions came to.
use crate::note::Note;

/// A word that a process puts, with its note.
#[derive(Clone, Copy, Debug, PartialEq, Eq)]
pub struct Want {
    pub word: u64,
    pub note: Note,
    pub source: Source,
}

/// Whose payload stands at the place of an entry.
#[derive(Clone, Copy, Debug, PartialEq, Eq)]
pub enum Source {
    /// None stands there.
    Nothing,
    /// What a user gave with the act.
    Given,
    /// What the function of this stage came to.
    Ended { stage: u16 },
    /// An error that stands for what the function of this stage came to, since the store refused that.
    Error { stage: u16 },
    /// An error that says that the session that has this stage is gone.
    Gone { stage: u16 },
}

/// What the function of a stage came to, until the row has it.
#[derive(Clone, Copy, Debug, PartialEq, Eq)]
pub struct Owed {
    pub answer: EndsWith,
    /// Whether an error stands for it, since the store refused it.
    pub is_error: bool,
}

/// What a function came to.
#[derive(Clone, Copy, Debug, PartialEq, Eq)]
pub enum EndsWith {
    /// It gave a value.
    Gives,
    /// It came to no value.
    NoValue,
    /// It threw an error.
    Throws,
    /// It passes on the error whose payload stands at this place.
    Passes { code: u32 },
    /// It gave this stage, as which its promise is settled.
    Links { stage: u16 },
}
