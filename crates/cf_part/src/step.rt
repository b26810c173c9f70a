//! What a process has to do.
use crate::question::Fault;
use cf_forms::Args;
use cf_outcome::Outcome;

/// What a process has to do next in a request, besides questions.
#[derive(Clone, Copy, Debug, PartialEq, Eq)]
pub enum Step {
    /// Tell those who wait for this stage.
    Show { stage: u16, shown: Shown },
    /// The stage was settled otherwise: its function may end.
    Stop { stage: u16 },
    /// Call the stage's function with these arguments.
    Call { stage: u16, args: Args },
}

/// What those are told who wait for a stage.
#[derive(Clone, Copy, Debug, PartialEq, Eq)]
pub enum Shown {
    Outcome(Outcome),
    Fault(Fault),
}
