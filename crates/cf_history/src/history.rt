//! A history as it is handed in.
use cf_event::Record;
use cf_outcome::Outcome;

/// What happened by somebody's account. Nothing of it is trusted.
#[derive(Drop)]
pub struct History {
    /// How many functions there are: an attached stage has one of a lower number, where its form calls one.
    pub functions: u32,
    /// The words of all events, in their one order.
    pub words: Vec<u64>,
    /// The callers by their numbers, each with its records.
    pub callers: Vec<Caller>,
    /// What each stage is settled with in the end, if that is said: its outcome, or none.
    pub outcomes: Option<Vec<Option<Outcome>>>,
}

/// One caller: its records, in its order.
#[derive(Drop)]
pub struct Caller {
    pub records: Vec<Record>,
}
