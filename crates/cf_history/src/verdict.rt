//! What is found of a history.
use cf_model::{Reply, Told};
use cf_outcome::Outcome;

/// Whether a history fits, or the first thing in it that doesn't.
#[derive(Clone, Copy, Debug, PartialEq, Eq)]
pub enum Verdict {
    /// All records are those of one history.
    Fits,
    /// The word at this place, counted from 1, can't stand there.
    Event {
        place: usize,
        why: Unfit,
    },
    /// Record `record` of this caller, both counted from 0, doesn't fit. All callers before it fit, and so do its own earlier
    /// records.
    Record {
        caller: usize,
        record: usize,
        why: Misfit,
    },
    /// The event at this place is the caller's, but is in none of its records. All callers before it fit, and so do all its
    /// records.
    Missing {
        caller: usize,
        place: usize,
    },
    /// All records fit. The sequential graph leaves stage `stage` with this outcome, or none, but the history says
    /// otherwise.
    Outcome {
        stage: usize,
        outcome: Option<Outcome>,
    },
    /// All records fit. The sequential graph has `count` stages in the end, but the history has another number of outcomes.
    Stages {
        count: usize,
    },
}

/// Why a word can't stand at its place in a history.
#[derive(Clone, Copy, Debug, PartialEq, Eq)]
pub enum Unfit {
    /// It is no event's.
    NoEvent,
    /// There is no such caller.
    NoCaller,
    /// A stage that it names isn't there by then, or what it attaches doesn't fit its form.
    NoStage,
    /// There is no function of that number.
    NoFunction,
}

/// Why a record doesn't fit the history, where all before it do.
#[derive(Clone, Copy, Debug, PartialEq, Eq)]
pub enum Misfit {
    /// Its place comes before what the caller had been told of: before the place of the record before it, or, for a changing
    /// call, at or before that place.
    Before,
    /// Its place is behind the history.
    Behind,
    /// The event at this place, between the record before it and its own place, is the caller's too.
    Skips(usize),
    /// Another event stands at its place, or one of another caller.
    Other,
    /// The sequential graph replies this to the event.
    Reply(Reply),
    /// The stage that it asks about isn't there by then.
    NoStage,
    /// The sequential graph tells this.
    Told(Told),
}
