//! What a caller keeps of its calls.
ghost use Rattle.std.specs.Prelude.{◌≡◌};
ghost use Rattle.cf_event.specs.Histories.{place_of};

use cf_model::{Ask, Event, Reply, Told};

/// One call of a caller, and what it was answered.
#[derive(Clone, Copy, Debug, Drop, PartialEq, Eq)]
pub enum Record {
    /// A changing call, as an event. The place counts the events up to it and itself.
    Did {
        place: usize,
        event: Event,
        reply: Reply,
    },
    /// A question. The place counts the events that were there when it was told.
    Saw {
        place: usize,
        ask: Ask,
        told: Told,
    },
}

impl Record {
    /// How many events were there once it was answered.
    pub fn place(&self) -> usize
        ensures { result ≡ place_of self.now }
    {
        match *self {
            Record::Did { place, .. } | Record::Saw { place, .. } => place,
        }
    }
}
