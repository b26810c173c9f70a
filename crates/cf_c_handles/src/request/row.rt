//! Several calls of a request in one.
ghost use Rattle.std.specs.Prelude.{◌≡◌, ◌<◌, Some};
ghost use Rattle.cf_c_handles.specs.RequestRows.{DoesAs, DoesCall, DoesCalls, DoesCallsIn, call_of, deadline_of};
ghost use Rattle.cf_c_handles.specs.RequestCalls.{lanes_in};

use crate::code::Code;
use crate::handle::object::Object;
use crate::ledger::stepping::step_code;
use crate::plan::kind_of;
use crate::request::doing::advance;
use crate::request::{machine_code, tell_into, words};
use crate::values::call::CfRequestCall;
use crate::values::request::{CfTodo, CfTold};
use cf_request::{Deadline, Machine};

/// Which call a row asks for.
#[derive(Clone, Copy)]
pub enum Call {
    Apply,
    Next,
    Follow,
    SetDeadline,
    Pass,
    Refuse,
    CancelAll,
}

/// Makes calls one after another, up to the first that is refused. Then it tells how many were done, and which stages are
/// settled.
pub fn do_calls(
    held: &mut Object,
    calls: &mut [CfRequestCall],
    done: &mut usize,
    row: &mut [CfTold],
    todo: &mut CfTodo,
) -> Result<(), Code>
    ensures { DoesCallsIn held.old (calls.old, done.old, row.old, todo.old) result
        held.new (calls.new, done.new, row.new, todo.new) }
{
    let Object::Request(machine) = held else {
        return Err(Code::WrongKind);
    };
    let answer = do_row(machine, calls, done);
    tell_into(machine, row, todo);
    answer
}

/// The same without telling.
#[tactic(auto, using(crate::proofs::RequestRows::row_more, crate::proofs::RequestRows::row_done, crate::proofs::RequestRows::row_refused))]
fn do_row(machine: &mut Machine, calls: &mut [CfRequestCall], done: &mut usize) -> Result<(), Code>
    ensures { DoesCalls machine.old calls.old result machine.new calls.new done.new }
{
    'each: for k in 0..calls.len() {
        if let Err(code) = do_call(machine, &mut calls[k]) {
            *done = k;
            return Err(code);
        }
    }
    *done = calls.len();
    Ok(())
}

/// Makes the call that a row asks for.
fn do_call(machine: &mut Machine, call: &mut CfRequestCall) -> Result<(), Code>
    ensures { DoesCall machine.old call.old result machine.new call.new }
{
    match call_of(call.call) {
        None => Err(Code::NoSuchNumber),
        Some(Call::Apply) => apply(machine, call),
        Some(Call::Next) => next(machine, call),
        Some(Call::Follow) => follow(machine, call),
        Some(Call::SetDeadline) => set_deadline(machine, call),
        Some(Call::Pass) => pass(machine, call),
        Some(Call::Refuse) => refuse(machine, call),
        Some(Call::CancelAll) => cancel_all(machine, call),
    }
}

/// The call of a number.
fn call_of(number: u32) -> Option<Call>
    ensures { result ≡ call_of number }
{
    match number {
        0 => Some(Call::Apply),
        1 => Some(Call::Next),
        2 => Some(Call::Follow),
        3 => Some(Call::SetDeadline),
        4 => Some(Call::Pass),
        5 => Some(Call::Refuse),
        6 => Some(Call::CancelAll),
        _ => None,
    }
}

fn apply(machine: &mut Machine, call: &mut CfRequestCall) -> Result<(), Code>
    ensures { DoesAs (Some Call.Apply) machine.old call.old result machine.new call.new }
{
    if call.lane >= machine.lanes() {
        return Err(Code::NoLane);
    }
    words::apply(machine, call.word, call.lane, &mut call.reply)
}

/// That nothing was claimed is no refusal: the task says so.
fn next(machine: &mut Machine, call: &mut CfRequestCall) -> Result<(), Code>
    ensures { DoesAs (Some Call.Next) machine.old call.old result machine.new call.new }
{
    if call.lane >= machine.lanes() {
        return Err(Code::NoLane);
    }
    match advance(machine, call.who, call.lane, &mut call.task) {
        Err(code) => Err(code),
        Ok(_claimed) => Ok(()),
    }
}

fn follow(machine: &mut Machine, call: &mut CfRequestCall) -> Result<(), Code>
    ensures { DoesAs (Some Call.Follow) machine.old call.old result machine.new call.new }
{
    match machine.follow(call.relay, call.stage) {
        Err(fault) => Err(machine_code(fault)),
        Ok(()) => Ok(()),
    }
}

#[tactic(auto, using(crate::proofs::RequestRows::finds_nothing))]
fn set_deadline(machine: &mut Machine, call: &mut CfRequestCall) -> Result<(), Code>
    ensures { DoesAs (Some Call.SetDeadline) machine.old call.old result machine.new call.new }
{
    match machine.deadline(deadline_of(call)) {
        Err(fault) => Err(machine_code(fault)),
        Ok(()) => Ok(()),
    }
}

fn deadline_of(call: &CfRequestCall) -> Deadline
    ensures { result ≡ deadline_of call.now }
{
    Deadline {
        stage: call.stage,
        moment: call.moment,
        kind: kind_of(call.kind, call.code, call.value),
    }
}

fn pass(machine: &mut Machine, call: &mut CfRequestCall) -> Result<(), Code>
    ensures { DoesAs (Some Call.Pass) machine.old call.old result machine.new call.new }
{
    match machine.pass(call.moment) {
        Err(fault) => Err(machine_code(fault)),
        Ok(()) => Ok(()),
    }
}

fn refuse(machine: &mut Machine, call: &mut CfRequestCall) -> Result<(), Code>
    ensures { DoesAs (Some Call.Refuse) machine.old call.old result machine.new call.new }
{
    if call.lane >= machine.lanes() {
        return Err(Code::NoLane);
    }
    match machine.refuse(call.lane, call.code) {
        Err(_) => Err(Code::NoMemory),
        Ok(()) => Ok(()),
    }
}

fn cancel_all(machine: &mut Machine, call: &mut CfRequestCall) -> Result<(), Code>
    ensures { DoesAs (Some Call.CancelAll) machine.old call.old result machine.new call.new }
{
    match machine.cancel_all(call.who) {
        Err(fault) => Err(step_code(fault)),
        Ok(()) => Ok(()),
    }
}
