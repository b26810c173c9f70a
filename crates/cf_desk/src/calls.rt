//! What callers ask of a desk, and what they are answered.
ghost use Rattle.std.specs.Prelude.{◌≡◌, false};
ghost use Rattle.cf_desk.specs.Calls.{joined};
ghost use Rattle.cf_desk.specs.Records.{record_by};

use cf_core::Graph;
use cf_event::Record;
use cf_model::{Ask, Call, Event, Reply, Told, event_by};
use cf_outcome::{Cause, Outcome, Value};

/// What a join of a stage is answered (`CompletableFuture.join`).
#[derive(Clone, Copy, Debug, Drop, PartialEq, Eq)]
pub enum Joined {
    /// The stage's value.
    Value(Value),
    /// The stage failed by this cause.
    Completion(Cause),
    /// The stage was cancelled itself.
    Cancellation,
    /// The stage isn't settled yet.
    NotYet,
}

/// What a pass keeps of one call: a `Record` without its caller, which is the pass's, and with its place in 16 bits. It is
/// kept small, since each call writes one.
#[derive(Clone, Copy, Debug, Drop, PartialEq, Eq)]
pub enum Rec {
    /// A changing call with its reply. The place counts the events up to and with its own.
    Did {
        place: u16,
        call: Call,
        reply: Reply,
    },
    /// A question with what it was told. The place counts the events that the pass had seen.
    Saw {
        place: u16,
        ask: Ask,
        told: Told,
    },
}

impl Rec {
    /// The same as a record of this caller.
    pub fn record(&self, who: u8) -> Record
        ensures { result ≡ record_by who self.now }
    {
        match *self {
            Rec::Did { place, call, reply } => Record::Did {
                place: place as usize,
                event: event_by(who, call),
                reply,
            },
            Rec::Saw { place, ask, told } => Record::Saw {
                place: place as usize,
                ask,
                told,
            },
        }
    }
}

/// A closed pass: its caller and its records.
#[derive(Drop)]
pub struct Kept {
    pub caller: u8,
    pub records: Vec<Rec>,
}

/// A closed desk: all events in their one order, the passes in the order in which they were handed in, and the graph as
/// all events leave it.
#[derive(Drop)]
pub struct Closed {
    pub history: Vec<Event>,
    pub passes: Vec<Kept>,
    pub graph: Graph,
}

/// What a join of a stage with this outcome, or none, is answered.
pub(crate) fn joined_as(outcome: Option<Outcome>) -> Joined
    ensures { result ≡ joined outcome }
{
    match outcome {
        None => Joined::NotYet,
        Some(Outcome::Value(v)) => Joined::Value(v),
        Some(
            Outcome::Fault {
                cause: Cause::Cancelled,
                wrapped: false,
            },
        ) => Joined::Cancellation,
        Some(Outcome::Fault { cause, .. }) => Joined::Completion(cause),
    }
}
