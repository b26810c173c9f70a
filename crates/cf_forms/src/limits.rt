//! Limits of stages.
use cf_outcome::Value;

/// What a limit does to its stage, if that isn't settled by then.
#[derive(Clone, Copy, Debug, PartialEq, Eq)]
pub enum LimitKind {
    /// The stage fails as timed out, with this code, as by `orTimeout`.
    Timeout(u32),
    /// The stage gets this value, as by `completeOnTimeout`.
    Give(Value),
}

/// A moment at which a stage is settled, if it isn't settled by then.
#[derive(Clone, Copy, Debug, PartialEq, Eq)]
pub struct Limit {
    /// The number of the stage.
    pub stage: u16,
    /// The moment, in milliseconds on the clock that `tick` is handed moments of.
    pub at: u32,
    /// What the stage is settled with.
    pub kind: LimitKind,
}
