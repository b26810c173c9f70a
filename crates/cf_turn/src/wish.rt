//! What users wait for, and what they are told.
use cf_due::{Act, NoAct};
use cf_part::Fault;

/// An act that a user waits for.
#[derive(Clone, Copy)]
pub struct Wish {
    pub number: u64,
    pub act: Act,
    /// From this moment on its user waits no longer, in milliseconds on this process's clock.
    pub until: u64,
    /// What its user is to be told, once that is known.
    pub answer: Option<Told>,
}

/// The end of the request, for which a user waits.
#[derive(Clone, Copy)]
pub struct End {
    pub number: u64,
    /// From this moment on its user waits no longer.
    pub until: u64,
}

/// What the user of an act is told.
#[derive(Clone, Copy, Debug, PartialEq, Eq)]
pub enum Told {
    /// What was asked stands. Of an attach this is the new stage, else the one that the act names.
    Stands { stage: u16 },
    /// Nothing was put, for this reason.
    Not(NoAct),
    /// The store refused it, and nothing stands.
    Refused,
    /// No answer came in time. It may stand, or come to stand.
    Unknown,
    /// The request is closed, as was asked.
    Closed,
    /// Nothing goes on in the request any more.
    Ended(Fault),
}
