//! Changing calls as C has them, as events, and the words of events.
ghost use Rattle.std.specs.Prelude.{◌≡◌, IfOk, Ok};
ghost use Rattle.cf_c_handles.specs.EventWords.{HasWord, IsWordOf, as_event, attaching, bare, event_at, event_of, failing, failing_call, failure_of, told_event, with_failure};

use crate::code::Code;
use crate::values::attaching::{as_function, event_with, parts_with, sources_with};
use crate::values::{CfAnswer, CfValue, answer_of, as_answer, as_value, value_of};
use cf_event::{decode, encode, is_event};
use cf_forms::{Answer, Form, Of};
use cf_model::{Call, Event, Failure};
use cf_outcome::Value;

/// A changing call of a caller: complete (0), fail (1), cancel (2), claim (3), finish (4), tick (5), attach (6), fail as (7).
///
/// | Call | Besides `who` |
/// |---|---|
/// | complete | `stage`, `value` |
/// | fail | `stage`, `code` |
/// | cancel, claim | `stage` |
/// | finish | `stage`, `answer` |
/// | tick | `now` |
/// | fail as | `stage`, the `kind` of the outcome, 4 for timed out or 5 for a bad answer, and its `code` |
/// | attach | `form`, how many `sources`, the `first` and the `second` of them, `function` |
///
/// What a call doesn't have isn't looked at, and is 0 where an event is told.
#[repr(C)]
#[derive(Clone, Copy)]
pub struct CfEvent {
    pub call: u32,
    pub kind: u32,
    pub who: u8,
    pub stage: u16,
    pub value: CfValue,
    pub code: u32,
    pub answer: CfAnswer,
    pub now: u32,
    pub form: u32,
    pub sources: u32,
    pub first: u16,
    pub second: u16,
    pub function: u32,
}

/// The event that C means, or why there is none: no call or no form has the number, or there are more than two sources.
pub fn event_of(e: CfEvent) -> Result<Event, Code>
    ensures { result ≡ event_of e }
{
    let who = e.who;
    let stage = e.stage;
    match e.call {
        0 => {
            let value = value_of(e.value);
            Ok(Event::Complete { who, stage, value })
        }
        1 => {
            let code = e.code;
            Ok(Event::Fail { who, stage, code })
        }
        2 => Ok(Event::Cancel { who, stage }),
        3 => Ok(Event::Claim { who, stage }),
        4 => {
            let answer = answer_of(e.answer);
            Ok(Event::Finish { who, stage, answer })
        }
        5 => Ok(Event::Tick { who, moment: e.now }),
        6 => {
            let of = sources_with(e.sources, e.first, e.second);
            event_with(who, parts_with(Form::numbered(e.form), of, e.function))
        }
        7 => failing(who, stage, failure_of(e.kind, e.code)),
        _ => Err(Code::NoSuchNumber),
    }
}

/// The failure with this code that C means by the kind of an outcome, if there is one.
fn failure_of(kind: u32, code: u32) -> Option<Failure>
    ensures { result ≡ failure_of kind code }
{
    match kind {
        4 => Some(Failure::TimedOut(code)),
        5 => Some(Failure::BadAnswer(code)),
        _ => None,
    }
}

/// The event by which a caller fails a stage so, or that no failure has the number.
fn failing(who: u8, stage: u16, failure: Option<Failure>) -> Result<Event, Code>
    ensures { result ≡ failing who stage failure }
{
    match failure {
        Some(failure) => Ok(Event::FailAs {
            who,
            stage,
            failure,
        }),
        None => Err(Code::NoSuchNumber),
    }
}

/// The event by which the caller of a graph fails a stage with an outcome of this kind and code, or that no failure has the
/// kind.
pub fn failing_event(stage: u16, kind: u32, code: u32) -> Result<Event, Code>
    ensures { result ≡ failing 0 stage (failure_of kind code) }
{
    failing(0, stage, failure_of(kind, code))
}

/// The call that fails a stage with an outcome of this kind and code, or that no failure has the kind.
pub fn failing_call(stage: u16, kind: u32, code: u32) -> Result<Call, Code>
    ensures { result ≡ failing_call stage (failure_of kind code) }
{
    match failure_of(kind, code) {
        Some(failure) => Ok(Call::FailAs(stage, failure)),
        None => Err(Code::NoSuchNumber),
    }
}

/// An event for C.
pub(crate) fn as_event(e: Event) -> CfEvent
    ensures { result ≡ as_event e }
{
    match e {
        Event::Complete { who, stage, value } => CfEvent {
            value: as_value(value),
            ..bare(0, who, stage)
        },
        Event::Fail { who, stage, code } => CfEvent {
            code,
            ..bare(1, who, stage)
        },
        Event::FailAs {
            who,
            stage,
            failure,
        } => with_failure(failure, bare(7, who, stage)),
        Event::Cancel { who, stage } => bare(2, who, stage),
        Event::Claim { who, stage } => bare(3, who, stage),
        Event::Finish { who, stage, answer } => CfEvent {
            answer: as_answer(answer),
            ..bare(4, who, stage)
        },
        Event::Tick { who, moment } => CfEvent {
            now: moment,
            ..bare(5, who, 0)
        },
        Event::Attach {
            who,
            form,
            of,
            function,
        } => attaching(
            u32::from(form.number()),
            of,
            as_function(function),
            bare(6, who, 0),
        ),
    }
}

/// The failing of a stage so: the kind of its outcome, and the code.
fn with_failure(failure: Failure, bare: CfEvent) -> CfEvent
    ensures { result ≡ with_failure failure bare }
{
    let (kind, code) = match failure {
        Failure::TimedOut(code) => (4, code),
        Failure::BadAnswer(code) => (5, code),
    };
    CfEvent { kind, code, ..bare }
}

/// The attaching of a stage of this form to these sources.
fn attaching(form: u32, of: Of, function: u32, bare: CfEvent) -> CfEvent
    ensures { result ≡ attaching form of function bare }
{
    let (sources, first, second) = match of {
        Of::None => (0, 0, 0),
        Of::One(a) => (1, a, 0),
        Of::Two(a, b) => (2, a, b),
    };
    CfEvent {
        form,
        sources,
        first,
        second,
        function,
        ..bare
    }
}

/// An event of this call by this caller, on this stage, with nothing else.
fn bare(call: u32, who: u8, stage: u16) -> CfEvent
    ensures { result ≡ bare call who stage }
{
    CfEvent {
        call,
        kind: 0,
        who,
        stage,
        value: as_value(Value::Nil),
        code: 0,
        answer: as_answer(Answer::Give(Value::Nil)),
        now: 0,
        form: 0,
        sources: 0,
        first: 0,
        second: 0,
        function: 0,
    }
}

/// The word of an event, if it has one: its caller is at most 63, each stage and function that it names at most 4,095,
/// and a stage that it attaches fits its form.
pub fn word_of(event: Result<Event, Code>) -> Result<u64, Code>
    ensures { IsWordOf event result }
{
    match event {
        Ok(event) => {
            if is_event(&event) {
                Ok(encode(&event))
            } else {
                Err(Code::NoWord)
            }
        }
        Err(code) => Err(code),
    }
}

/// The event of a word, or that it is no event's.
#[inline(always)]
pub fn event_at(word: u64) -> Result<Event, Code>
    ensures event { result ≡ event_at word }
    ensures has_word { IfOk result (λ e. HasWord e word) }
{
    decode(word).ok_or(Code::NoWord)
}

/// The event for C.
pub fn told_event(event: Result<Event, Code>) -> Result<CfEvent, Code>
    ensures { result ≡ told_event event }
{
    match event {
        Ok(event) => Ok(as_event(event)),
        Err(code) => Err(code),
    }
}
