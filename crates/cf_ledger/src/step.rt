//! What a caller holds, and what a step gives it.
use cf_forms::{Answer, Args};

/// A stage that a caller has claimed, and what the stage's function answered.
#[derive(Clone, Copy, Debug, PartialEq, Eq)]
pub struct Held {
    pub stage: u16,
    pub answer: Answer,
}

/// How a step has finished what was held.
#[derive(Clone, Copy, Debug, PartialEq, Eq)]
pub struct Finish {
    /// Whether the stage had been settled after its claim.
    pub late: bool,
    /// The word of it, which is written.
    pub word: u64,
}

/// A stage that a step has claimed, with its function and what that is to be called with.
#[derive(Clone, Copy, Debug, PartialEq, Eq)]
pub struct Taken {
    pub stage: u16,
    pub function: Option<u16>,
    pub args: Args,
    /// The word of the claim, which is written.
    pub word: u64,
}

/// What a step did.
#[derive(Clone, Copy, Debug, PartialEq, Eq)]
pub struct Step {
    /// How it has finished what was held, if a stage was.
    pub finish: Option<Finish>,
    /// What it has claimed, if a stage was ready.
    pub taken: Option<Taken>,
}
