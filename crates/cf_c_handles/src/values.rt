//! Values, outcomes, arguments, answers and replies as C has them. An unknown `kind` is read as the last one.
ghost use Rattle.std.specs.Prelude.{◌≡◌, None, Some};
ghost use Rattle.cf_forms.specs.declared.forms.Args.TheVariants.{None as NoArgs};
ghost use Rattle.cf_model.specs.declared.events.Reply.TheVariants.{Claim, Finish};
ghost use Rattle.cf_c_handles.specs.Replies.{as_reply, finish_number, reply_with};
ghost use Rattle.cf_c_handles.specs.Values.{answer_of, answer_with, args_with, as_answer, as_args, as_fault, as_now, as_outcome, as_value, cause_of, no_fault, outcome_of, value_of};

pub mod attaching;
pub mod call;
pub mod event;
pub mod host;
pub mod request;
pub mod row;
pub mod stage;
pub mod task;

use cf_forms::{Answer, Args};
use cf_model::{Attached, Claimed, Finished, Reply, Ticked};
use cf_outcome::{Cause, Now, Outcome, Value};

/// A value: nothing (kind 0), or a number.
#[repr(C)]
#[derive(Clone, Copy)]
pub struct CfValue {
    pub kind: u32,
    pub number: i32,
}

/// A stage, and the value that it is completed with.
#[repr(C)]
#[derive(Clone, Copy)]
pub struct CfGiven {
    pub stage: u16,
    pub value: CfValue,
}

/// What a stage's function answered: it gives a value (kind 0), throws a code (1), or names a stage (any other).
#[repr(C)]
#[derive(Clone, Copy)]
pub struct CfAnswer {
    pub kind: u32,
    pub code: u32,
    pub value: CfValue,
    pub stage: u16,
}

/// An outcome: none yet (kind 0), a value (1), or a fault: thrown (2), cancelled (3), timed out (4), a bad answer (5). All faults
/// but a cancellation have a code.
#[repr(C)]
#[derive(Clone, Copy)]
pub struct CfOutcome {
    pub kind: u32,
    pub wrapped: u32,
    pub code: u32,
    pub value: CfValue,
}

/// What a function is called with: nothing (kind 0), a value (1), two values (2), or an outcome (3).
#[repr(C)]
#[derive(Clone, Copy)]
pub struct CfArgs {
    pub kind: u32,
    pub first: CfValue,
    pub second: CfValue,
    pub outcome: CfOutcome,
}

/// What a stage gives at present: the value that was handed in where it isn't settled (kind 0), its value (1), its fault (2), or
/// that it is cancelled (3).
#[repr(C)]
#[derive(Clone, Copy)]
pub struct CfNow {
    pub kind: u32,
    pub outcome: CfOutcome,
}

/// What a changing call is answered.
///
/// | Call | `answer` | `number` | `args` |
/// |---|---|---|---|
/// | complete, fail, cancel | 1 for yes, 0 for no | | |
/// | claim | granted (0), settled (1), taken (2), not ready (3) | | of the function, if granted |
/// | finish | won (0), late (1), not yours (2) | | |
/// | tick | fired (0), past (1) | how many limits fired | |
/// | attach | attached (0), no room (1) | the new stage | |
///
/// What a call's answer doesn't have is 0.
#[repr(C)]
#[derive(Clone, Copy)]
pub struct CfReply {
    pub answer: u32,
    pub number: u32,
    pub args: CfArgs,
}

const NIL: CfValue = CfValue { kind: 0, number: 0 };

/// The value that C means.
#[inline(always)]
pub fn value_of(v: CfValue) -> Value
    ensures { result ≡ value_of v }
{
    if v.kind == 0 {
        Value::Nil
    } else {
        Value::Int(v.number)
    }
}

/// The answer that C means.
#[inline(always)]
pub fn answer_of(a: CfAnswer) -> Answer
    ensures { result ≡ answer_of a }
{
    match a.kind {
        0 => Answer::Give(value_of(a.value)),
        1 => Answer::Throw(a.code),
        _ => Answer::Link(a.stage),
    }
}

/// An answer for C.
#[inline(always)]
pub(crate) fn as_answer(a: Answer) -> CfAnswer
    ensures { result ≡ as_answer a }
{
    match a {
        Answer::Give(v) => answer_with(0, 0, v, 0),
        Answer::Throw(code) => answer_with(1, code, Value::Nil, 0),
        Answer::Link(stage) => answer_with(2, 0, Value::Nil, stage),
    }
}

/// An answer with these parts.
#[inline(always)]
fn answer_with(kind: u32, code: u32, value: Value, stage: u16) -> CfAnswer
    ensures { result ≡ answer_with kind code value stage }
{
    CfAnswer {
        kind,
        code,
        value: as_value(value),
        stage,
    }
}

/// A value for C.
#[inline(always)]
pub(crate) fn as_value(v: Value) -> CfValue
    ensures { result ≡ as_value v }
{
    match v {
        Value::Nil => NIL,
        Value::Int(number) => CfValue { kind: 1, number },
    }
}

/// A cause for C: its kind and its code.
#[inline(always)]
fn fault(cause: Cause, wrapped: bool) -> CfOutcome
    ensures { result ≡ as_fault cause wrapped }
{
    let (kind, code) = match cause {
        Cause::Thrown(code) => (2, code),
        Cause::Cancelled => (3, 0),
        Cause::TimedOut(code) => (4, code),
        Cause::BadAnswer(code) => (5, code),
    };
    CfOutcome {
        kind,
        wrapped: u32::from(wrapped),
        code,
        value: NIL,
    }
}

/// An outcome, or that there is none, for C.
#[inline(always)]
pub(crate) fn as_outcome(o: Option<Outcome>) -> CfOutcome
    ensures { result ≡ as_outcome o }
{
    match o {
        None => no_fault(0, NIL),
        Some(Outcome::Value(v)) => no_fault(1, as_value(v)),
        Some(Outcome::Fault { cause, wrapped }) => fault(cause, wrapped),
    }
}

/// Writes an outcome, where it was written that there is none.
#[inline(always)]
pub(crate) fn put_outcome(out: &mut CfOutcome, o: Outcome)
    requires { out.old ≡ as_outcome None }
    ensures { out.new ≡ as_outcome (Some o) }
{
    match o {
        Outcome::Value(v) => {
            out.kind = 1;
            out.value = as_value(v);
        }
        Outcome::Fault { cause, wrapped } => *out = fault(cause, wrapped),
    }
}

/// The outcome that C means, or that there is none.
#[inline(always)]
pub fn outcome_of(o: CfOutcome) -> Option<Outcome>
    ensures { result ≡ outcome_of o }
{
    match o.kind {
        0 => None,
        1 => Some(Outcome::Value(value_of(o.value))),
        kind => Some(Outcome::Fault {
            cause: cause_of(kind, o.code),
            wrapped: o.wrapped != 0,
        }),
    }
}

/// The cause that C means.
#[inline(always)]
fn cause_of(kind: u32, code: u32) -> Cause
    ensures { result ≡ cause_of kind code }
{
    match kind {
        2 => Cause::Thrown(code),
        3 => Cause::Cancelled,
        4 => Cause::TimedOut(code),
        _ => Cause::BadAnswer(code),
    }
}

/// What is no fault, for C.
#[inline(always)]
fn no_fault(kind: u32, value: CfValue) -> CfOutcome
    ensures { result ≡ no_fault kind value }
{
    CfOutcome {
        kind,
        wrapped: 0,
        code: 0,
        value,
    }
}

/// What a function is called with, for C.
#[inline(always)]
pub(crate) fn as_args(args: Args) -> CfArgs
    ensures { result ≡ as_args args }
{
    match args {
        Args::None => args_with(0, NIL, NIL, None),
        Args::One(v) => args_with(1, as_value(v), NIL, None),
        Args::Two(v, w) => args_with(2, as_value(v), as_value(w), None),
        Args::Got(o) => args_with(3, NIL, NIL, Some(o)),
    }
}

/// No arguments, for C: all of it is 0.
#[inline(always)]
fn no_args() -> CfArgs
    ensures { result ≡ as_args NoArgs }
{
    CfArgs {
        kind: 0,
        first: NIL,
        second: NIL,
        outcome: no_fault(0, NIL),
    }
}

/// Writes what a function is called with.
#[inline(always)]
pub(crate) fn put_args(out: &mut CfArgs, args: Args)
    ensures { out.new ≡ as_args args }
{
    *out = no_args();
    fill_args(out, args);
}

/// Writes what a function is called with, where it was written that there is nothing. Only the parts that aren't 0 are
/// written one by one, so that nothing is put together in memory first and then copied.
#[inline(always)]
fn fill_args(out: &mut CfArgs, args: Args)
    requires { out.old ≡ as_args NoArgs }
    ensures { out.new ≡ as_args args }
{
    match args {
        Args::None => {}
        Args::One(v) => {
            out.kind = 1;
            out.first = as_value(v);
        }
        Args::Two(v, w) => {
            out.kind = 2;
            out.first = as_value(v);
            out.second = as_value(w);
        }
        Args::Got(o) => {
            out.kind = 3;
            out.outcome = as_outcome(Some(o));
        }
    }
}

/// Arguments for C.
#[inline(always)]
fn args_with(kind: u32, first: CfValue, second: CfValue, got: Option<Outcome>) -> CfArgs
    ensures { result ≡ args_with kind first second got }
{
    CfArgs {
        kind,
        first,
        second,
        outcome: as_outcome(got),
    }
}

/// What is told of a stage at present, for C.
#[inline(always)]
pub(crate) fn as_now(now: Now) -> CfNow
    ensures { result ≡ as_now now }
{
    match now {
        Now::Absent(v) => now_with(0, no_fault(1, as_value(v))),
        Now::Got(v) => now_with(1, no_fault(1, as_value(v))),
        Now::Completion(cause) => now_with(2, fault(cause, true)),
        Now::Cancellation => now_with(3, fault(Cause::Cancelled, false)),
    }
}

/// What is told at present, for C.
#[inline(always)]
fn now_with(kind: u32, outcome: CfOutcome) -> CfNow
    ensures { result ≡ record { kind = kind; outcome = outcome } }
{
    CfNow { kind, outcome }
}

/// How a finish went, for C.
#[inline(always)]
pub(crate) fn finish_number(finished: Finished) -> u32
    ensures { result ≡ finish_number finished }
{
    match finished {
        Finished::Won => 0,
        Finished::Late => 1,
        Finished::NotYours => 2,
    }
}

#[inline(always)]
fn reply_with(answer: u32, number: u16, args: Args) -> CfReply
    ensures { result ≡ reply_with answer number args }
{
    CfReply {
        answer,
        number: u32::from(number),
        args: as_args(args),
    }
}

/// No reply: all of it is 0.
#[inline(always)]
pub(crate) fn no_reply() -> CfReply
    ensures { result ≡ reply_with 0 0 NoArgs }
{
    CfReply {
        answer: 0,
        number: 0,
        args: no_args(),
    }
}

/// Writes what a claim is answered, as `put_args` does.
#[inline(always)]
pub(crate) fn put_claim(reply: &mut CfReply, told: Claimed)
    ensures { reply.new ≡ as_reply (Claim told) }
{
    *reply = no_reply();
    match told {
        Claimed::Granted(args) => fill_args(&mut reply.args, args),
        Claimed::Settled => reply.answer = 1,
        Claimed::Taken => reply.answer = 2,
        Claimed::NotReady => reply.answer = 3,
    }
}

/// Writes what a finish is answered.
#[inline(always)]
pub(crate) fn put_finish(reply: &mut CfReply, told: Finished)
    ensures { reply.new ≡ as_reply (Finish told) }
{
    *reply = no_reply();
    reply.answer = finish_number(told);
}

/// Writes a reply, and that of a claim as `put_claim` does.
#[inline(always)]
pub(crate) fn put_reply(out: &mut CfReply, reply: Reply)
    ensures { out.new ≡ as_reply reply }
{
    match reply {
        Reply::Claim(told) => put_claim(out, told),
        other => *out = as_reply(other),
    }
}

/// Writes a reply, and that of an attach part by part.
#[inline(always)]
pub(crate) fn put_attached(out: &mut CfReply, reply: Reply)
    ensures { out.new ≡ as_reply reply }
{
    match reply {
        Reply::Attach(Attached::At(stage)) => {
            *out = no_reply();
            out.number = u32::from(stage);
        }
        other => *out = as_reply(other),
    }
}

/// A reply for C. A desk's call stands in its callers' code only as long as this stays small.
#[inline(always)]
pub(crate) fn as_reply(reply: Reply) -> CfReply
    ensures { result ≡ as_reply reply }
{
    match reply {
        Reply::Flag(flag) => reply_with(u32::from(flag), 0, Args::None),
        Reply::Claim(Claimed::Granted(args)) => reply_with(0, 0, args),
        Reply::Claim(Claimed::Settled) => reply_with(1, 0, Args::None),
        Reply::Claim(Claimed::Taken) => reply_with(2, 0, Args::None),
        Reply::Claim(Claimed::NotReady) => reply_with(3, 0, Args::None),
        Reply::Finish(finished) => reply_with(finish_number(finished), 0, Args::None),
        Reply::Tick(Ticked::Fired(count)) => reply_with(0, count, Args::None),
        Reply::Tick(Ticked::Past) => reply_with(1, 0, Args::None),
        Reply::Attach(Attached::At(stage)) => reply_with(0, stage, Args::None),
        Reply::Attach(Attached::StagesFull) => reply_with(1, 0, Args::None),
    }
}
