//! A request that a process works on.
ghost use Rattle.std.specs.Prelude.{◌≡◌, IfNone, IfSome, None};
ghost use Rattle.cf_host.specs.Requests.{Begins, IsPartOf, asked_in, fresh, hears};

use cf_part::{Part, Question};
use cf_turn::Work;

/// A request that a process works on.
#[derive(Drop)]
pub struct Request {
    /// Its number.
    pub number: u64,
    /// How many words stand in its row, as the store told.
    pub words: usize,
    /// Whether the store is asked for its plan.
    pub is_asked: bool,
    /// Whether the store has it no more.
    pub is_dropped: bool,
    /// Before this moment the store isn't asked for its plan.
    pub retry: u64,
    /// What is to be done in it, once it is opened.
    pub work: Option<Work>,
}

impl Request {
    /// One that isn't opened yet.
    pub(crate) fn new(number: u64, words: usize) -> Request
        ensures { result ≡ fresh number words }
    {
        Request {
            number,
            words,
            is_asked: false,
            is_dropped: false,
            retry: 0,
            work: None,
        }
    }

    /// The session's part in it, once it is opened.
    pub(crate) fn part(&self) -> Option<&Part>
        ensures some { IfSome result (λ part. IsPartOf self.now part.now) }
        ensures none { IfNone result (self.now.work ≡ None) }
    {
        match &self.work {
            Some(work) => Some(work.part()),
            None => None,
        }
    }

    /// The question about its row that is open.
    pub(crate) fn asked(&self) -> Option<Question>
        ensures { result ≡ asked_in self.now.work }
    {
        self.part()?.asked()
    }

    /// The store tells that so many words stand in its row.
    pub(crate) fn hears(&mut self, words: usize)
        ensures { self.new ≡ hears words self.old }
    {
        self.words = self.words.max(words);
        if let Some(work) = &mut self.work {
            work.told_length(words);
        }
    }

    /// It is opened: this is to be done in it.
    pub(crate) fn begin(&mut self, mut work: Work)
        ensures { Begins work self.old self.new }
    {
        work.told_length(self.words);
        self.is_asked = false;
        self.work = Some(work);
    }
}
