//! What is done to a request behind a handle, and what it tells then.
ghost use Rattle.cf_c_handles.specs.RequestCalls.{Advances, AppliesIn, CancelsIn, FollowsIn, GoesOnIn, GoesOnOrNot, GrowsIn, IsDueAs, IsIdleStep, PassesIn, RefusesIn, RestartsIn, Rests, RestsIn, SetsDeadlineIn, TellsIn};
ghost use Rattle.cf_c_handles.specs.Tasks.{held_by};
ghost use Rattle.cf_request.specs.Machines.{IsNoNext, OnlyFinds};
ghost use Rattle.std.specs.Prelude.{◌≡◌, ◌↔◌, ◌<◌, IfErr, IfOk, IsTrue, OnErr};
ghost use Rattle.cf_c_handles.specs.LedgerSteps.{late_number, step_code, taken_code, task_with};
ghost use Rattle.cf_c_handles.specs.declared.handle.object.Object.TheVariants.{Request as HeldRequest};

use crate::code::Code;
use crate::handle::object::Object;
use crate::ledger::stepping::{late_number, step_code, take};
use crate::request::{machine_code, say_next, tell_into, words};
use crate::values::CfReply;
use crate::values::request::{CfTodo, CfTold};
use crate::values::task::{CfTask, held_by};
use cf_event::LAST_CALLER;
use cf_request::{Deadline, Machine, Next};
use std::alloc::Global;

/// Does a word; a stage that it attaches is this lane's.
#[inline(always)]
pub fn apply(
    held: &mut Object,
    word: u64,
    lane: u8,
    reply: &mut CfReply,
    row: &mut [CfTold],
    todo: &mut CfTodo,
) -> Result<(), Code>
    ensures { AppliesIn word lane held.old (reply.old, row.old, todo.old) result
        held.new (reply.new, row.new, todo.new) }
{
    let Object::Request(machine) = held else {
        return Err(Code::WrongKind);
    };
    if lane >= machine.lanes() {
        return Err(Code::NoLane);
    }
    words::apply(machine, word, lane, reply)?;
    tell_into(machine, row, todo);
    Ok(())
}

/// Finishes what a task holds, and gives it the next ready stage of the caller's lane.
#[inline(always)]
pub fn next(
    held: &mut Object,
    who: u8,
    lane: u8,
    task: &mut CfTask,
    row: &mut [CfTold],
    todo: &mut CfTodo,
) -> Result<(), Code>
    ensures { GoesOnIn who lane held.old (task.old, row.old, todo.old) result held.new (task.new, row.new, todo.new) }
{
    let Object::Request(machine) = held else {
        return Err(Code::WrongKind);
    };
    if lane >= machine.lanes() {
        return Err(Code::NoLane);
    }
    if task.held == 0 && rests_in(machine, who, lane, task) {
        return rest_in(machine, who, lane, task, todo);
    }
    go_on(machine, who, lane, task, row, todo)
}

/// The same in a lane that is there, where there is something to do.
#[inline(always)]
fn go_on(
    machine: &mut Machine,
    who: u8,
    lane: u8,
    task: &mut CfTask,
    row: &mut [CfTold],
    todo: &mut CfTodo,
) -> Result<(), Code>
    requires { lane < machine.old.teller.lanes.count }
    ensures { GoesOnOrNot who lane machine.old (task.old, row.old, todo.old) result (HeldRequest machine.new)
        (task.new, row.new, todo.new) }
{
    let is_claimed = advance(machine, who, lane, task)?;
    tell_into(machine, row, todo);
    if is_claimed {
        Ok(())
    } else {
        Err(Code::Nothing)
    }
}

/// Finishes what a task holds, gives it the next ready stage of a lane, and says whether there was one. The machine's
/// step stands in this call alone, so it is in line here.
#[inline(never)]
pub(crate) fn advance(
    machine: &mut Machine,
    who: u8,
    lane: u8,
    task: &mut CfTask,
) -> Result<bool, Code>
    requires { lane < machine.old.teller.lanes.count }
    ensures done { IfOk result (λ claimed. Advances who lane machine.old task.old claimed machine.new task.new) }
    ensures refused { OnErr result (OnlyFinds machine.old machine.new) }
    ensures same { OnErr result (task.new ≡ task.old) }
    ensures why { IfErr result (λ code. IsDueAs step_code (IsNoNext who lane (held_by task.old) machine.old) code) }
{
    match machine.next(who, lane, held_by(task)) {
        Err(fault) => Err(step_code(fault)),
        Ok(next) => {
            let is_claimed = next.taken.is_some();
            let _code = give(task, next);
            Ok(is_claimed)
        }
    }
}

/// Gives a task how what it held is finished, and what is claimed.
#[inline(always)]
fn give(task: &mut CfTask, next: Next) -> Result<(), Code>
    ensures task { task.new ≡ task_with (record task.old { finished = late_number next.finish }) next.taken }
    ensures told { result ≡ taken_code next.taken }
{
    task.finished = late_number(next.finish);
    take(task, next.taken)
}

/// Whether `next` has nothing to give and to tell, where the task holds nothing. It looks at no stage.
#[inline(always)]
pub fn rests(held: &Object, who: u8, lane: u8, task: &CfTask) -> bool
    requires { task.now.held ≡ 0 }
    ensures { IsTrue result ↔ RestsIn who lane held.now task.now }
{
    match held {
        Object::Request(machine) => rests_in(machine, who, lane, task),
        _ => false,
    }
}

/// The same of a request.
#[inline(always)]
fn rests_in(machine: &Machine, who: u8, lane: u8, task: &CfTask) -> bool
    requires { task.now.held ≡ 0 }
    ensures { IsTrue result ↔ Rests who lane machine.now task.now }
{
    who <= LAST_CALLER
        && machine.has_lane(lane)
        && machine.ready(lane) == 0
        && machine.told().is_empty()
}

/// What `next` does where it has nothing to finish, to give and to tell. Nothing of the request is written.
#[inline(always)]
pub fn rest(
    held: &Object,
    who: u8,
    lane: u8,
    task: &mut CfTask,
    row: &[CfTold],
    todo: &mut CfTodo,
) -> Result<(), Code>
    requires { RestsIn who lane held.now task.old }
    ensures { GoesOnIn who lane held.now (task.old, row.now, todo.old) result held.now (task.new, row.now, todo.new) }
{
    let Object::Request(machine) = held else {
        return Err(Code::WrongKind);
    };
    rest_in(machine, who, lane, task, todo)
}

/// The same of a request.
#[inline(always)]
fn rest_in(
    machine: &Machine,
    who: u8,
    lane: u8,
    task: &mut CfTask,
    todo: &mut CfTodo,
) -> Result<(), Code>
    requires { Rests who lane machine.now task.old }
    ensures { IsIdleStep who lane machine.now (task.old, todo.old) result (task.new, todo.new) }
{
    let next = machine.rest(who, lane);
    todo.told = 0;
    todo.news = 0;
    let late = late_number(next.finish);
    task.finished = late;
    // The task holds nothing already, so this isn't written once more.
    match next.taken {
        None => Err(Code::Nothing),
        Some(_) => take(task, next.taken),
    }
}

/// From now on a stage ends as another does.
pub fn follow(
    held: &mut Object,
    relay: u16,
    stage: u16,
    row: &mut [CfTold],
    todo: &mut CfTodo,
) -> Result<(), Code>
    ensures { FollowsIn relay stage held.old (row.old, todo.old) result held.new (row.new, todo.new) }
{
    let Object::Request(machine) = held else {
        return Err(Code::WrongKind);
    };
    match machine.follow(relay, stage) {
        Err(fault) => Err(machine_code(fault)),
        Ok(()) => {
            tell_into(machine, row, todo);
            Ok(())
        }
    }
}

/// Lets time pass up to a moment.
pub fn pass(
    held: &mut Object,
    moment: u64,
    row: &mut [CfTold],
    todo: &mut CfTodo,
) -> Result<(), Code>
    ensures { PassesIn moment held.old (row.old, todo.old) result held.new (row.new, todo.new) }
{
    let Object::Request(machine) = held else {
        return Err(Code::WrongKind);
    };
    match machine.pass(moment) {
        Err(fault) => Err(machine_code(fault)),
        Ok(()) => {
            tell_into(machine, row, todo);
            Ok(())
        }
    }
}

/// Fails the ready stages of a lane that nobody runs any more.
pub fn refuse(
    held: &mut Object,
    lane: u8,
    code: u32,
    row: &mut [CfTold],
    todo: &mut CfTodo,
) -> Result<(), Code>
    ensures { RefusesIn lane code held.old (row.old, todo.old) result held.new (row.new, todo.new) }
{
    let Object::Request(machine) = held else {
        return Err(Code::WrongKind);
    };
    if lane >= machine.lanes() {
        return Err(Code::NoLane);
    }
    match machine.refuse(lane, code) {
        Err(_) => Err(Code::NoMemory),
        Ok(()) => {
            tell_into(machine, row, todo);
            Ok(())
        }
    }
}

/// Cancels all stages that are open by words of a caller.
pub fn cancel_all(
    held: &mut Object,
    who: u8,
    row: &mut [CfTold],
    todo: &mut CfTodo,
) -> Result<(), Code>
    ensures { CancelsIn who held.old (row.old, todo.old) result held.new (row.new, todo.new) }
{
    let Object::Request(machine) = held else {
        return Err(Code::WrongKind);
    };
    match machine.cancel_all(who) {
        Err(fault) => Err(step_code(fault)),
        Ok(()) => {
            tell_into(machine, row, todo);
            Ok(())
        }
    }
}

/// Tells what was settled and wasn't told yet.
pub fn told(held: &mut Object, row: &mut [CfTold], todo: &mut CfTodo) -> Result<(), Code>
    ensures { TellsIn held.old (row.old, todo.old) result held.new (row.new, todo.new) }
{
    let Object::Request(machine) = held else {
        return Err(Code::WrongKind);
    };
    tell_into(machine, row, todo);
    Ok(())
}

/// Sets a deadline. It tells no stages.
#[inline(always)]
pub fn set_deadline(held: &mut Object, deadline: Deadline, todo: &mut CfTodo) -> Result<(), Code>
    ensures { SetsDeadlineIn deadline held.old todo.old result held.new todo.new }
{
    let Object::Request(machine) = held else {
        return Err(Code::WrongKind);
    };
    match machine.deadline(deadline) {
        Err(fault) => Err(machine_code(fault)),
        Ok(()) => {
            say_next(machine, todo);
            Ok(())
        }
    }
}

/// Makes room for more stages.
pub fn grow(alloc: Global, held: &mut Object) -> Result<(), Code>
    ensures { GrowsIn held.old result held.new }
{
    let Object::Request(machine) = held else {
        return Err(Code::WrongKind);
    };
    match machine.grow(alloc) {
        Ok(()) => Ok(()),
        Err(fault) => Err(machine_code(fault)),
    }
}

/// Starts the request again.
pub fn restart(held: &mut Object) -> Result<(), Code>
    ensures { RestartsIn held.old result held.new }
{
    let Object::Request(machine) = held else {
        return Err(Code::WrongKind);
    };
    machine.restart();
    Ok(())
}
