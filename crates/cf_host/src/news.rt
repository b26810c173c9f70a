//! When a process looks at what is new, and at what.
ghost use Rattle.std.specs.Prelude.{◌≡◌, ◌≢◌, ◌⊎◌, ◌+◌, ◌<◌, ◌≤◌, IfNone, IfSome, None, Some, is_some, min, true};
ghost use Rattle.cf_host.specs.News.{answered_by, asked_by, is_whole, look_of, no_news, unanswered_by};

use std::marker::Model;

/// How long nothing is asked behind an answer, and behind a look that stayed without one, in milliseconds.
const ROUND: u64 = 200;

const PAUSE: u64 = 20;

/// A look at the requests of a store.
#[derive(Clone, Copy, Debug, PartialEq, Eq)]
pub enum Look {
    /// At all that are open.
    Whole,
    /// At those that changed since an answer that had this mark.
    Since(u64),
}

/// Which looks a process has had.
#[derive(Drop)]
pub struct News {
    mark: Option<u64>,
    is_whole_due: bool,
    asked: Option<Look>,
    due: u64,
}

impl Model for News {
    ghost use Rattle.cf_host.specs.News.{News};

    ghost Value = { News };

    ghost view = { λ w. record { mark = w.mark; is_whole_due = w.is_whole_due; asked = w.asked; due = w.due } };
}

impl News {
    /// The first look is at all.
    pub fn new() -> News
        ensures { result ≡ no_news }
    {
        News {
            mark: None,
            is_whole_due: true,
            asked: None,
            due: 0,
        }
    }

    /// Whether a look is open.
    pub fn is_asked(&self) -> bool
        ensures { result ≡ is_some self.now.asked }
    {
        self.asked.is_some()
    }

    /// Whether a look at all is open.
    pub fn is_whole(&self) -> bool
        ensures { result ≡ is_whole self.now.asked }
    {
        match self.asked {
            Some(Look::Whole) => true,
            _ => false,
        }
    }

    /// When the next look is due, unless one is open.
    pub fn due(&self) -> u64
        ensures { result ≡ self.now.due }
    {
        self.due
    }

    /// The look that is to be asked for by now, which is open from then on. There is none while one is open, or before the
    /// next one is due.
    pub fn question(&mut self, now: u64) -> Option<Look>
        ensures look { IfSome result (λ look. look ≡ look_of self.old.is_whole_due self.old.mark) }
        ensures free { IfSome result (λ _. self.old.asked ≡ None) }
        ensures due { IfSome result (λ _. self.old.due ≤ now) }
        ensures asked { IfSome result (λ _. self.new ≡ asked_by self.old) }
        ensures none { IfNone result ((self.old.asked ≢ None) ⊎ (now < self.old.due)) }
        ensures unchanged { IfNone result (self.new ≡ self.old) }
    {
        if self.asked.is_some() || now < self.due {
            return None;
        }
        let look = match self.mark {
            Some(mark) if !self.is_whole_due => Look::Since(mark),
            _ => Look::Whole,
        };
        self.is_whole_due = false;
        self.asked = Some(look);
        Some(look)
    }

    /// The look is answered: all that changed up to this mark is told.
    pub fn take_answer(&mut self, now: u64, mark: u64)
        requires { self.old.asked ≢ None }
        ensures { self.new ≡ answered_by mark (min (now + 200) u64.MAX) self.old }
    {
        self.mark = Some(mark);
        self.asked = None;
        self.due = now.saturating_add(ROUND);
    }

    /// The look stayed without an answer, or was refused. The next one begins where this one did.
    pub fn take_silence(&mut self, now: u64)
        ensures { self.new ≡ unanswered_by (min (now + 20) u64.MAX) self.old }
    {
        if self.is_whole() {
            self.is_whole_due = true;
        }
        self.asked = None;
        self.due = now.saturating_add(PAUSE);
    }

    /// The next look is to be at all.
    pub fn want_all(&mut self)
        ensures { self.new ≡ record self.old { is_whole_due = true } }
    {
        self.is_whole_due = true;
    }

    /// Something is new, as an engine notified: the next look is due by now.
    pub fn stir(&mut self, now: u64)
        ensures { self.new ≡ record self.old { due = min self.old.due now } }
    {
        self.due = self.due.min(now);
    }
}
