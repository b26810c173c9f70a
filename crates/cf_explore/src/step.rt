//! What a caller does, and in which moves.

use cf_forms::{Answer, Args};
use cf_model::{Ask, Call};

/// One step of a caller.
#[derive(Clone, Copy, Drop)]
pub enum Step {
    /// A changing call. If the graph doesn't take it, because it names a stage that isn't there, it changes nothing.
    Do(Call),
    /// A question, which changes nothing.
    Look(Ask),
    /// Looks at a stage until it is settled, but at most this many times. It looks at least once.
    Join(u16, u16),
}

/// How far a caller has come: the number of its next step, and how often that step has looked already.
#[derive(Clone, Copy, Drop, PartialEq, Eq)]
pub struct Place {
    pub at: u16,
    pub looks: u16,
}

/// What a worker has in hand.
#[derive(Clone, Copy, Drop, PartialEq, Eq)]
pub enum Hand {
    Idle,
    /// A claim of this stage was granted with these arguments; its function is to be called.
    Granted(u16, Args),
    /// The function of this stage was called and gave this answer; the stage is to be finished.
    Called(u16, Answer),
}

/// One move: who takes a step, and which.
#[derive(Clone, Copy, Drop)]
pub enum Move {
    /// This caller takes its next step, or looks once more where that is a join.
    Step(u8),
    /// This worker claims this stage.
    Claim(u8, u16),
    /// This worker calls the function of the stage that it was granted.
    Call(u8),
    /// This worker finishes that stage with what the function answered.
    Finish(u8),
    /// It is the moment of the next unused limit.
    Tick,
}
