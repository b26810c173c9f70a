//! When a process beats.
ghost use Rattle.std.specs.Prelude.{◌≡◌, None, false, min};
ghost use Rattle.cf_host.specs.Pulses.{beats_answered, beats_asked, beats_at, beats_silent, clock_of};

use crate::clock::Reading;

/// How long nothing is asked behind a question that stayed without an answer, in milliseconds.
const PAUSE: u64 = 20;

/// When a process beats, which it does with a look at all beats and at the store's clock.
#[derive(Clone, Copy, Debug, PartialEq, Eq)]
pub struct Pulse {
    /// Whether the question is open.
    pub is_asked: bool,
    /// When the next one is due.
    pub next: u64,
    /// What the last answer told of the store's clock.
    pub reading: Option<Reading>,
}

impl Pulse {
    /// The first question is due at once.
    pub fn new() -> Pulse
        ensures { result ≡ record { is_asked = false; next = 0; reading = None } }
    {
        Pulse {
            is_asked: false,
            next: 0,
            reading: None,
        }
    }

    /// What the store's clock has come to at least.
    pub fn clock(self) -> u64
        ensures { result ≡ clock_of self.reading }
    {
        match self.reading {
            Some(reading) => reading.shown,
            None => 0,
        }
    }

    /// When the next question is due, if this is the first moment of a timer that hasn't come: once the store's clock
    /// surely shows that.
    pub fn due_at(self, timer: u64) -> u64
        ensures { result ≡ beats_at self timer }
    {
        let Some(reading) = self.reading else {
            return self.next;
        };
        let shows = reading.due_at(timer).max(reading.now.saturating_add(PAUSE));
        self.next.min(shows)
    }

    /// The question is asked. The next one is due in a fifth of a lease.
    pub fn asked(self, now: u64, lease: u64) -> Pulse
        ensures { result ≡ beats_asked now lease self }
    {
        Pulse {
            is_asked: true,
            next: now.saturating_add(lease / 5),
            reading: self.reading,
        }
    }

    /// The next one is due by now.
    pub fn sooner(self, now: u64) -> Pulse
        ensures { result ≡ record self { next = min self.next now } }
    {
        Pulse {
            is_asked: self.is_asked,
            next: self.next.min(now),
            reading: self.reading,
        }
    }

    /// It is answered.
    pub fn answered(self, reading: Reading) -> Pulse
        ensures { result ≡ beats_answered reading self }
    {
        Pulse {
            is_asked: false,
            next: self.next,
            reading: Some(reading),
        }
    }

    /// It stayed without an answer.
    pub fn silent(self, now: u64) -> Pulse
        ensures { result ≡ beats_silent now self }
    {
        Pulse {
            is_asked: false,
            next: now.saturating_add(PAUSE),
            reading: self.reading,
        }
    }
}
