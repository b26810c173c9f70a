//! What callers do to a graph, and what it replies.
ghost use Rattle.std.specs.Prelude.{◌≡◌, ◌↔◌, IsTrue};
ghost use Rattle.cf_model.specs.Calls.{who_of};
ghost use Rattle.cf_model.specs.Events.{cause_of};
ghost use Rattle.cf_model.specs.Ranges.{EventFits, fits};

use crate::replies::{Attached, Claimed, Finished, Ticked};
use cf_forms::{Answer, Form, Of, fits_form};
use cf_outcome::{Cause, Value};

/// A cause, other than a thrown code and a cancellation, with which a caller fails a stage, and its code: 0, or a
/// number by which the caller finds the error.
#[derive(Clone, Copy, Debug, PartialEq, Eq)]
pub enum Failure {
    /// Time ran out for the stage (`CompletableFuture.orTimeout` fails it with a `TimeoutException`).
    TimedOut(u32),
    /// The stage stands in for another, whose function answered what its form can't take.
    BadAnswer(u32),
}

impl Failure {
    /// The cause that the failed stage has then.
    pub fn cause(self) -> Cause
        ensures { result ≡ cause_of self }
    {
        match self {
            Failure::TimedOut(code) => Cause::TimedOut(code),
            Failure::BadAnswer(code) => Cause::BadAnswer(code),
        }
    }
}

/// One changing call of one caller.
#[derive(Clone, Copy, Debug, PartialEq, Eq)]
pub enum Event {
    Complete {
        who: u8,
        stage: u16,
        value: Value,
    },
    Fail {
        who: u8,
        stage: u16,
        code: u32,
    },
    FailAs {
        who: u8,
        stage: u16,
        failure: Failure,
    },
    Cancel {
        who: u8,
        stage: u16,
    },
    Claim {
        who: u8,
        stage: u16,
    },
    Finish {
        who: u8,
        stage: u16,
        answer: Answer,
    },
    Tick {
        who: u8,
        moment: u32,
    },
    Attach {
        who: u8,
        form: Form,
        of: Of,
        function: Option<u16>,
    },
}

impl Event {
    /// Whose call it is.
    pub fn who(&self) -> u8
        ensures { result ≡ who_of self.now }
    {
        match *self {
            Event::Complete { who, .. } => who,
            Event::Fail { who, .. } => who,
            Event::FailAs { who, .. } => who,
            Event::Cancel { who, .. } => who,
            Event::Claim { who, .. } => who,
            Event::Finish { who, .. } => who,
            Event::Tick { who, .. } => who,
            Event::Attach { who, .. } => who,
        }
    }

    /// Whether a graph of so many stages takes the event: the stages that it names are there, and a stage that it
    /// attaches fits its form.
    pub fn fits(&self, stages: u16) -> bool
        ensures told { result ≡ fits stages self.now }
        ensures fitting { IsTrue result ↔ EventFits stages self.now }
    {
        match *self {
            Event::Complete { stage, .. } => stage < stages,
            Event::Fail { stage, .. } => stage < stages,
            Event::FailAs { stage, .. } => stage < stages,
            Event::Cancel { stage, .. } => stage < stages,
            Event::Claim { stage, .. } => stage < stages,
            Event::Finish { stage, .. } => stage < stages,
            Event::Tick { .. } => true,
            Event::Attach {
                form,
                of,
                function,
                ..
            } => fits_form(form, of.count(), function.is_some()) && of.are_below(stages),
        }
    }
}

/// The answer to an event.
#[derive(Clone, Copy, Debug, PartialEq, Eq)]
pub enum Reply {
    /// To complete, fail and fail as: whether the stage was settled by it. To cancel: whether the stage is cancelled then.
    Flag(bool),
    Claim(Claimed),
    Finish(Finished),
    Tick(Ticked),
    Attach(Attached),
}
