//! What callers ask of a graph, and what they are told.
use cf_outcome::{Now, Outcome, Value};

/// One question about one stage, which changes nothing.
#[derive(Clone, Copy, Debug, PartialEq, Eq)]
pub enum Ask {
    /// What the stage gives at present, or this value where it isn't settled.
    Now(u16, Value),
    /// What the stage is settled with, if it is.
    Outcome(u16),
}

/// What a question is told.
#[derive(Clone, Copy, Debug, PartialEq, Eq)]
pub enum Told {
    Now(Now),
    Outcome(Option<Outcome>),
}
