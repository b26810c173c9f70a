//! What must hold of the orders.
use cf_outcome::{Cause, Value};

/// What is asked of a stage in a fact.
#[derive(Clone, Copy, Drop)]
pub enum Is {
    /// Settled with this value.
    Value(Value),
    /// Settled with any value.
    AnyValue,
    /// Settled with a fault of this cause and its code, raw or wrapped.
    Fault(Cause),
    /// Settled with any fault.
    AnyFault,
    /// It was cancelled itself: settled with the raw cause `Cancelled` (as `CompletableFuture.isCancelled` tells).
    Cancelled,
    Settled,
    /// Not settled. A stage that isn't there counts as not settled.
    Pending,
}

/// A fact about one situation.
#[derive(Clone, Copy, Drop)]
pub enum Fact {
    /// The stage is as asked.
    Stage(u16, Is),
    /// The stage's function was called.
    Called(u16),
    /// The stage's function wasn't called.
    NotCalled(u16),
    /// This function was called for exactly this many of the stages that have it.
    Exactly(u16, u16),
    /// This function was called for at least this many of the stages that have it.
    AtLeast(u16, u16),
}

/// When a condition is looked at.
#[derive(Clone, Copy, Drop)]
pub enum When {
    /// At each end.
    End,
    /// Whenever this step of this caller is its next one.
    Before(u8, u16),
}

/// How often it must hold.
#[derive(Clone, Copy, Drop)]
pub enum How {
    Never,
    Always,
    Possible,
}

/// A condition: these facts hold together never, always or possibly, wherever it is looked at.
#[derive(Drop)]
pub struct Condition {
    pub how: How,
    pub when: When,
    pub facts: Vec<Fact>,
}
