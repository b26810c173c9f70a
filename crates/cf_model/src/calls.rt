//! What a caller asks to be changed.
ghost use Rattle.std.specs.Prelude.{◌≡◌};
ghost use Rattle.cf_model.specs.Calls.{as_call, event_by};

use crate::events::{Event, Failure};
use cf_forms::{Answer, Form, Of};
use cf_outcome::Value;

/// One changing call of a caller.
#[derive(Clone, Copy, Debug, Drop, PartialEq, Eq)]
pub enum Call {
    /// Completes a stage with a value.
    Complete(u16, Value),
    /// Fails a stage with a thrown code.
    Fail(u16, u32),
    /// Fails a stage with another cause: as timed out, or, where it stands in for another, with a bad answer.
    FailAs(u16, Failure),
    /// Cancels a stage.
    Cancel(u16),
    /// Claims a ready stage, so that the caller runs its function.
    Claim(u16),
    /// Finishes a stage that the caller has claimed, with what its function answered.
    Finish(u16, Answer),
    /// Lets time pass up to this moment, in milliseconds.
    Tick(u32),
    /// Attaches a stage of this form to these sources, with this function's number where the form calls one.
    Attach(Form, Of, Option<u16>),
}

impl Call {
    /// The call that an event is, whoever's it is.
    pub fn of(event: &Event) -> Call
        ensures { result ≡ as_call event.now }
    {
        match *event {
            Event::Complete { stage, value, .. } => Call::Complete(stage, value),
            Event::Fail { stage, code, .. } => Call::Fail(stage, code),
            Event::FailAs { stage, failure, .. } => Call::FailAs(stage, failure),
            Event::Cancel { stage, .. } => Call::Cancel(stage),
            Event::Claim { stage, .. } => Call::Claim(stage),
            Event::Finish { stage, answer, .. } => Call::Finish(stage, answer),
            Event::Tick { moment, .. } => Call::Tick(moment),
            Event::Attach {
                form,
                of,
                function,
                ..
            } => Call::Attach(form, of, function),
        }
    }
}

/// A caller's call as an event.
#[inline(always)]
pub fn event_by(who: u8, call: Call) -> Event
    ensures { result ≡ event_by who call }
{
    match call {
        Call::Complete(stage, value) => Event::Complete { who, stage, value },
        Call::Fail(stage, code) => Event::Fail { who, stage, code },
        Call::FailAs(stage, failure) => Event::FailAs {
            who,
            stage,
            failure,
        },
        Call::Cancel(stage) => Event::Cancel { who, stage },
        Call::Claim(stage) => Event::Claim { who, stage },
        Call::Finish(stage, answer) => Event::Finish { who, stage, answer },
        Call::Tick(moment) => Event::Tick { who, moment },
        Call::Attach(form, of, function) => Event::Attach {
            who,
            form,
            of,
            function,
        },
    }
}
