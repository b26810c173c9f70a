//! The store's clock, as answers tell it.
ghost use Rattle.std.specs.Prelude.{◌≡◌, ◌^◌, ◌<◌, ◌≤◌, ◌↔◌, IsTrue, SomeIff, min};
ghost use Rattle.cf_host.specs.Clocks.{due_at, moment_after};

/// What an answer tells of the store's clock: it showed this between the moment of the question and that of the answer, which
/// are this process's own. All are milliseconds.
#[derive(Clone, Copy, Debug, PartialEq, Eq)]
pub struct Reading {
    pub shown: u64,
    pub asked: u64,
    pub now: u64,
}

impl Reading {
    /// Whether a moment of the store's clock has come. A timer is due only then.
    pub fn has_come(self, moment: u64) -> bool
        ensures { IsTrue result ↔ (moment ≤ self.shown) }
    {
        moment <= self.shown
    }

    /// The moment of a timer that is set by now, and comes no earlier than in so many milliseconds. `None` if the store's
    /// clock never shows it.
    pub fn moment_after(self, now: u64, span: u64) -> Option<u64>
        ensures { SomeIff result (moment_after self now span < 2 ^ 64) (moment_after self now span) }
    {
        let gone = now.saturating_sub(self.asked);
        self.shown.checked_add(gone)?.checked_add(span)
    }

    /// When to look at the store's clock for a moment: it surely shows it then.
    pub fn due_at(self, moment: u64) -> u64
        ensures { result ≡ min (due_at self moment) u64.MAX }
    {
        self.now.saturating_add(moment.saturating_sub(self.shown))
    }
}
