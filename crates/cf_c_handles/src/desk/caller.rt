//! What the caller of a desk behind a handle is asked.
ghost use Rattle.std.specs.Prelude.{◌≡◌, ◌<◌, Some};
ghost use Rattle.std.specs.Arc.{arc_value};
ghost use Rattle.cf_model.specs.declared.asks.Ask.TheVariants.{Now as AsksNow, Outcome as AsksOutcome};
ghost use Rattle.cf_c_handles.specs.Desks.{Acts, ByCaller, FindsReady, IsLeft, Joins, Knows, Reads, as_joined, function_known, looks_of, number_told, seen_told, told_now, told_outcome};
ghost use Rattle.cf_c_handles.specs.Meetings.{AreOfOne, MeetsBehind, MeetsCaller, MeetsHeld};
ghost use Rattle.cf_c_handles.specs.Values.{as_outcome};

use crate::code::{Code, desk_code};
use crate::handle::CfHandle;
use crate::handle::object::{Caller, Object};
use crate::values::{CfNow, CfOutcome, CfReply, as_now, as_outcome, as_reply};
use cf_desk::{Call, Desk, Joined};
use cf_model::{Ask, Told};
use cf_outcome::{Now, Outcome, Value};
use std::alloc::Global;
use std::sync::Arc;

/// Does a changing call, unless there is a reason why there is none.
#[inline(always)]
pub fn act(held: &mut Object, call: Result<Call, Code>) -> Result<CfReply, Code>
    ensures { ByCaller (Acts call) held.old result held.new }
{
    let Object::Caller(caller) = held else {
        return Err(Code::WrongKind);
    };
    let call = match call {
        Ok(call) => call,
        Err(code) => return Err(code),
    };
    match caller.desk.act(&mut caller.pass, call) {
        Ok(reply) => Ok(as_reply(reply)),
        Err(fault) => Err(desk_code(fault)),
    }
}

/// Looks once, and tells the outcome of a stage, or that there is none.
#[inline(always)]
pub fn outcome(held: &mut Object, stage: u16) -> Result<CfOutcome, Code>
    ensures { ByCaller (Reads told_outcome (AsksOutcome stage)) held.old result held.new }
{
    let Object::Caller(caller) = held else {
        return Err(Code::WrongKind);
    };
    match caller.desk.read(&mut caller.pass, Ask::Outcome(stage)) {
        Ok(told) => Ok(told_outcome(told)),
        Err(fault) => Err(desk_code(fault)),
    }
}

/// Looks once, and tells what a stage gives at present.
#[inline(always)]
pub fn now(held: &mut Object, stage: u16, absent: Value) -> Result<CfNow, Code>
    ensures { ByCaller (Reads told_now (AsksNow stage absent)) held.old result held.new }
{
    let Object::Caller(caller) = held else {
        return Err(Code::WrongKind);
    };
    match caller.desk.read(&mut caller.pass, Ask::Now(stage, absent)) {
        Ok(told) => Ok(told_now(told)),
        Err(fault) => Err(desk_code(fault)),
    }
}

/// Looks for the outcome of a stage, at most so many times, and once at least.
#[inline(always)]
pub fn join(held: &mut Object, stage: u16, looks: u32) -> Result<CfNow, Code>
    ensures { ByCaller (Joins stage looks) held.old result held.new }
{
    let Object::Caller(caller) = held else {
        return Err(Code::WrongKind);
    };
    match caller.desk.join(&mut caller.pass, stage, looks_of(looks)) {
        Ok(joined) => Ok(as_joined(joined)),
        Err(fault) => Err(desk_code(fault)),
    }
}

/// Looks once, and tells the lowest ready stage.
#[inline(always)]
pub fn ready(held: &mut Object) -> Result<u16, Code>
    ensures { ByCaller FindsReady held.old result held.new }
{
    let Object::Caller(caller) = held else {
        return Err(Code::WrongKind);
    };
    caller.desk.ready(&mut caller.pass).ok_or(Code::Nothing)
}

/// The number of a stage's function, in what the caller has seen.
#[inline(always)]
pub fn function(held: &mut Object, stage: u16) -> Result<u16, Code>
    ensures { ByCaller (Knows (function_known stage)) held.old result held.new }
{
    let Object::Caller(caller) = held else {
        return Err(Code::WrongKind);
    };
    if !caller.pass.has(stage) {
        return Err(Code::NoStage);
    }
    caller.pass.function(stage).ok_or(Code::Nothing)
}

/// How many events the caller has seen.
#[inline(always)]
pub fn seen(held: &mut Object) -> Result<u16, Code>
    ensures { ByCaller (Knows seen_told) held.old result held.new }
{
    let Object::Caller(caller) = held else {
        return Err(Code::WrongKind);
    };
    Ok(caller.pass.seen())
}

/// How many records the caller still takes.
#[inline(always)]
pub fn left(held: &mut Object) -> Result<u16, Code>
    ensures { ByCaller IsLeft held.old result held.new }
{
    let Object::Caller(caller) = held else {
        return Err(Code::WrongKind);
    };
    Ok(caller.pass.left())
}

/// The caller's number.
#[inline(always)]
pub fn number(held: &mut Object) -> Result<u8, Code>
    ensures { ByCaller (Knows number_told) held.old result held.new }
{
    let Object::Caller(caller) = held else {
        return Err(Code::WrongKind);
    };
    Ok(caller.pass.caller())
}

/// Lets what stands behind a handle meet what stands behind another.
pub fn meet_behind(alloc: Global, held: &mut Object, other: &mut CfHandle) -> Result<(), Code>
    requires { AreOfOne (Some held.old) other.old.inner.held }
    ensures { MeetsBehind other.old.inner.held other.new.inner.held held.old result held.new }
{
    match other.take(alloc) {
        None => Err(Code::Empty),
        Some(mut given) => {
            let done = meet(held, &mut given);
            other.put(given);
            done
        }
    }
}

/// Lets two callers behind handles meet.
fn meet(held: &mut Object, given: &mut Object) -> Result<(), Code>
    requires { AreOfOne (Some held.old) (Some given.old) }
    ensures { MeetsHeld held.old given.old result held.new given.new }
{
    let Object::Caller(caller) = held else {
        return Err(Code::WrongKind);
    };
    let Object::Caller(other) = given else {
        return Err(Code::WrongKind);
    };
    caller.meet(other)
}

impl Caller {
    /// Lets two callers see the longer of what either has seen, if they are seen to be of one desk.
    fn meet(&mut self, other: &mut Caller) -> Result<(), Code>
        requires { (arc_value other.old.desk).table ≡ (arc_value self.old.desk).table }
        ensures { MeetsCaller self.old other.old result self.new other.new }
    {
        if !is_one_desk(&self.desk, &other.desk) {
            return Err(Code::OtherDesk);
        }
        self.desk.meet(&mut self.pass, &mut other.pass);
        Ok(())
    }
}

/// How often two desks are compared, before they are taken for two: once for each caller that may leave the desk meanwhile.
const TRIES: u8 = 64;

/// Whether two shares are seen to be of one desk: then one share more of the first is one more of the second. Their addresses
/// can't be compared.
pub(crate) fn is_one_desk(a: &Arc<Desk, Global>, b: &Arc<Desk, Global>) -> bool {
    for _ in 0..TRIES {
        let before = Arc::strong_count(b);
        let Ok(_more) = Arc::try_clone(a) else {
            return false;
        };
        if before < Arc::strong_count(b) {
            return true;
        }
    }
    false
}

/// What is told of a stage's outcome.
#[inline(always)]
fn told_outcome(told: Told) -> CfOutcome
    ensures { result ≡ told_outcome told }
{
    match told {
        Told::Outcome(outcome) => as_outcome(outcome),
        Told::Now(now) => as_now(now).outcome,
    }
}

/// What is told of a stage at present.
#[inline(always)]
fn told_now(told: Told) -> CfNow
    ensures { result ≡ told_now told }
{
    match told {
        Told::Now(now) => as_now(now),
        Told::Outcome(outcome) => unsettled(outcome),
    }
}

/// What a join is answered.
#[inline(always)]
fn as_joined(joined: Joined) -> CfNow
    ensures { result ≡ as_joined joined }
{
    match joined {
        Joined::NotYet => unsettled(None),
        Joined::Value(v) => as_now(Now::Got(v)),
        Joined::Completion(cause) => as_now(Now::Completion(cause)),
        Joined::Cancellation => as_now(Now::Cancellation),
    }
}

/// An outcome beside the kind of a stage that isn't settled.
#[inline(always)]
fn unsettled(outcome: Option<Outcome>) -> CfNow
    ensures { result ≡ record { kind = 0; outcome = as_outcome outcome } }
{
    CfNow {
        kind: 0,
        outcome: as_outcome(outcome),
    }
}

/// At least one look.
#[inline(always)]
fn looks_of(looks: u32) -> u32
    ensures at_least { 0 < looks_of looks }
    ensures looks { result ≡ looks_of looks }
{
    if looks == 0 { 1 } else { looks }
}
