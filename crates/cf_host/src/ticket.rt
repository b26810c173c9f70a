//! What a ticket is for.

/// What was asked for, called or acted.
#[derive(Clone, Copy, Debug, PartialEq, Eq)]
pub enum Asked {
    /// All sessions' beats, and the store's clock.
    Beats,
    /// What is new of requests.
    News,
    /// A request's plan.
    Open { request: u64 },
    /// The row of a request.
    Row { request: u64 },
    /// The function of a stage was called.
    Call { request: u64, stage: u16 },
    /// A user waits for what becomes of an act.
    Act { request: u64 },
}

/// A question, a call or an act whose answer isn't there yet.
#[derive(Clone, Copy, Debug, PartialEq, Eq)]
pub struct Ticket {
    pub number: u64,
    pub of: Asked,
    /// When it was opened.
    pub asked: u64,
}
