//! The callers of a desk, which is a graph that they share.
ghost use Rattle.std.specs.Prelude.{Ok};
ghost use Rattle.cf_model.specs.declared.asks.Ask.TheVariants.{Now as AsksNow, Outcome as AsksOutcome};
ghost use Rattle.cf_model.specs.declared.calls.Call.TheVariants.{Complete as Completes, Fail as Fails, Cancel as Cancels, Claim as Claims, Finish as Finishes, Tick as Ticks};
ghost use Rattle.cf_c_handles.specs.DeskTasks.{CompletesMany, StepsCaller};
ghost use Rattle.cf_c_handles.specs.Desks.{Acts, FindsReady, IsLeft, Joins, Knows, Reads, call_with, function_known, number_told, seen_told, told_now, told_outcome};
ghost use Rattle.cf_c_handles.specs.EventWords.{failing_call, failure_of};
ghost use Rattle.cf_c_handles.specs.Handles.{CallerTells, HandleDoes, HandleNexts, HandleWrites};
ghost use Rattle.cf_c_handles.specs.Meetings.{AreOfOne, MeetsBehind};
ghost use Rattle.cf_c_handles.specs.Notices.{HeedsBehind, IsOfItsDesk, NotesBehind};
ghost use Rattle.cf_c_handles.specs.Plans.{parts_of};
ghost use Rattle.cf_c_handles.specs.Values.{answer_of, value_of};

use crate::handle::{ask, tell};
use cf_c_handles::desk::{caller, completing, noticing, stepping};
use cf_c_handles::handle::CfHandle;
use cf_c_handles::values::attaching::attach_call;
use cf_c_handles::values::event::failing_call;
use cf_c_handles::values::task::CfTask;
use cf_c_handles::values::{
    CfAnswer, CfGiven, CfNow, CfOutcome, CfReply, CfValue, answer_of, value_of,
};
use cf_desk::Call;
use std::alloc::Global;

/// Completes a stage with a value.
#[unsafe(no_mangle)]
pub extern "C" fn cf_desk_complete(
    alloc: Global,
    h: &mut CfHandle,
    stage: u16,
    value: CfValue,
    reply: &mut CfReply,
) -> u32
    ensures { CallerTells (Acts (Ok (Completes stage (value_of value)))) h.old h.new result reply.old reply.new }
{
    let call = Call::Complete(stage, value_of(value));
    tell!(alloc, h, reply, held => caller::act(&mut held, Ok(call)))
}

/// Completes stages with values, and tells how many.
#[unsafe(no_mangle)]
pub extern "C" fn cf_desk_complete_many(
    alloc: Global,
    h: &mut CfHandle,
    given: &[CfGiven],
    done: &mut usize,
) -> u32
    ensures { HandleWrites (CompletesMany given.now) h.old h.new result done.old done.new }
{
    ask!(alloc, h, held => completing::complete_many(&mut held, given, done))
}

/// Fails a stage with a code.
#[unsafe(no_mangle)]
pub extern "C" fn cf_desk_fail(
    alloc: Global,
    h: &mut CfHandle,
    stage: u16,
    code: u32,
    reply: &mut CfReply,
) -> u32
    ensures { CallerTells (Acts (Ok (Fails stage code))) h.old h.new result reply.old reply.new }
{
    let call = Call::Fail(stage, code);
    tell!(alloc, h, reply, held => caller::act(&mut held, Ok(call)))
}

/// Fails a stage with the outcome of this kind and code: as timed out, or with a bad answer, for a stage that stands in for
/// another.
#[unsafe(no_mangle)]
pub extern "C" fn cf_desk_fail_as(
    alloc: Global,
    h: &mut CfHandle,
    stage: u16,
    kind: u32,
    code: u32,
    reply: &mut CfReply,
) -> u32
    ensures { CallerTells (Acts (failing_call stage (failure_of kind code))) h.old h.new result reply.old reply.new }
{
    let call = failing_call(stage, kind, code);
    tell!(alloc, h, reply, held => caller::act(&mut held, call))
}

/// Cancels a stage.
#[unsafe(no_mangle)]
pub extern "C" fn cf_desk_cancel(
    alloc: Global,
    h: &mut CfHandle,
    stage: u16,
    reply: &mut CfReply,
) -> u32
    ensures { CallerTells (Acts (Ok (Cancels stage))) h.old h.new result reply.old reply.new }
{
    let call = Call::Cancel(stage);
    tell!(alloc, h, reply, held => caller::act(&mut held, Ok(call)))
}

/// Claims a ready stage.
#[unsafe(no_mangle)]
pub extern "C" fn cf_desk_claim(
    alloc: Global,
    h: &mut CfHandle,
    stage: u16,
    reply: &mut CfReply,
) -> u32
    ensures { CallerTells (Acts (Ok (Claims stage))) h.old h.new result reply.old reply.new }
{
    let call = Call::Claim(stage);
    tell!(alloc, h, reply, held => caller::act(&mut held, Ok(call)))
}

/// Finishes a stage that the caller has claimed.
#[unsafe(no_mangle)]
pub extern "C" fn cf_desk_finish_with(
    alloc: Global,
    h: &mut CfHandle,
    stage: u16,
    answer: &CfAnswer,
    reply: &mut CfReply,
) -> u32
    ensures { CallerTells (Acts (Ok (Finishes stage (answer_of answer.now)))) h.old h.new result reply.old reply.new }
{
    let call = Call::Finish(stage, answer_of(*answer));
    tell!(alloc, h, reply, held => caller::act(&mut held, Ok(call)))
}

/// Finishes what a task holds with the answer in it. Then looks, claims the lowest ready stage, and gives it to the task.
#[unsafe(no_mangle)]
pub extern "C" fn cf_desk_next(alloc: Global, h: &mut CfHandle, task: &mut CfTask) -> u32
    ensures { HandleNexts StepsCaller h.old h.new result task.old task.new }
{
    ask!(alloc, h, held => stepping::step(&mut held, task))
}

/// Sets the clock to this moment.
#[unsafe(no_mangle)]
pub extern "C" fn cf_desk_tick(
    alloc: Global,
    h: &mut CfHandle,
    now: u32,
    reply: &mut CfReply,
) -> u32
    ensures { CallerTells (Acts (Ok (Ticks now))) h.old h.new result reply.old reply.new }
{
    let call = Call::Tick(now);
    tell!(alloc, h, reply, held => caller::act(&mut held, Ok(call)))
}

/// Attaches a stage.
#[unsafe(no_mangle)]
pub extern "C" fn cf_desk_attach(
    alloc: Global,
    h: &mut CfHandle,
    form: u32,
    of: &[u16],
    function: u32,
    reply: &mut CfReply,
) -> u32
    ensures { CallerTells (Acts (call_with (parts_of form of.now function))) h.old h.new result reply.old reply.new }
{
    let call = attach_call(form, of, function);
    tell!(alloc, h, reply, held => caller::act(&mut held, call))
}

/// The outcome of a stage after a look, or that there is none yet.
#[unsafe(no_mangle)]
pub extern "C" fn cf_desk_read(
    alloc: Global,
    h: &mut CfHandle,
    stage: u16,
    outcome: &mut CfOutcome,
) -> u32
    ensures { CallerTells (Reads told_outcome (AsksOutcome stage)) h.old h.new result outcome.old outcome.new }
{
    tell!(alloc, h, outcome, held => caller::outcome(&mut held, stage))
}

/// What a stage gives after a look, or this value where it isn't settled.
#[unsafe(no_mangle)]
pub extern "C" fn cf_desk_read_now(
    alloc: Global,
    h: &mut CfHandle,
    stage: u16,
    absent: CfValue,
    now: &mut CfNow,
) -> u32
    ensures { CallerTells (Reads told_now (AsksNow stage (value_of absent))) h.old h.new result now.old now.new }
{
    let absent = value_of(absent);
    tell!(alloc, h, now, held => caller::now(&mut held, stage, absent))
}

/// What a stage gives after at most this many looks, or that it isn't settled.
#[unsafe(no_mangle)]
pub extern "C" fn cf_desk_join(
    alloc: Global,
    h: &mut CfHandle,
    stage: u16,
    looks: u32,
    now: &mut CfNow,
) -> u32
    ensures { CallerTells (Joins stage looks) h.old h.new result now.old now.new }
{
    tell!(alloc, h, now, held => caller::join(&mut held, stage, looks))
}

/// The lowest ready stage after a look.
#[unsafe(no_mangle)]
pub extern "C" fn cf_desk_ready(alloc: Global, h: &mut CfHandle, stage: &mut u16) -> u32
    ensures { CallerTells FindsReady h.old h.new result stage.old stage.new }
{
    tell!(alloc, h, stage, held => caller::ready(&mut held))
}

/// How many events a caller has seen.
#[unsafe(no_mangle)]
pub extern "C" fn cf_desk_seen(alloc: Global, h: &mut CfHandle, events: &mut u16) -> u32
    ensures { CallerTells (Knows seen_told) h.old h.new result events.old events.new }
{
    tell!(alloc, h, events, held => caller::seen(&mut held))
}

/// How many records a caller still takes.
#[unsafe(no_mangle)]
pub extern "C" fn cf_desk_left(alloc: Global, h: &mut CfHandle, calls: &mut u16) -> u32
    ensures { CallerTells IsLeft h.old h.new result calls.old calls.new }
{
    tell!(alloc, h, calls, held => caller::left(&mut held))
}

/// The number of a stage's function, in what a caller has seen.
#[unsafe(no_mangle)]
pub extern "C" fn cf_desk_function(
    alloc: Global,
    h: &mut CfHandle,
    stage: u16,
    function: &mut u16,
) -> u32
    ensures { CallerTells (Knows (function_known stage)) h.old h.new result function.old function.new }
{
    tell!(alloc, h, function, held => caller::function(&mut held, stage))
}

/// A caller's number.
#[unsafe(no_mangle)]
pub extern "C" fn cf_desk_caller(alloc: Global, h: &mut CfHandle, number: &mut u8) -> u32
    ensures { CallerTells (Knows number_told) h.old h.new result number.old number.new }
{
    tell!(alloc, h, number, held => caller::number(&mut held))
}

/// Lets the callers behind two handles both see what the one sees that has seen more. C has to give callers of one desk.
#[unsafe(no_mangle)]
pub extern "C" fn cf_desk_meet(alloc: Global, h: &mut CfHandle, other: &mut CfHandle) -> u32
    requires { AreOfOne h.old.inner.held other.old.inner.held }
    ensures { HandleDoes (MeetsBehind other.old.inner.held other.new.inner.held) h.old h.new result }
{
    ask!(alloc, h, held => caller::meet_behind(alloc, &mut held, other))
}

/// Puts what the caller has seen behind an empty handle: a notice.
#[unsafe(no_mangle)]
pub extern "C" fn cf_desk_notice(alloc: Global, h: &mut CfHandle, notice: &mut CfHandle) -> u32
    ensures { HandleDoes (NotesBehind notice.old.inner.held notice.new.inner.held) h.old h.new result }
{
    ask!(alloc, h, held => noticing::note_behind(alloc, &mut held, notice))
}

/// Lets the caller see all that a notice tells of. The notice is used up. C has to give both of one desk.
#[unsafe(no_mangle)]
pub extern "C" fn cf_desk_heed(alloc: Global, h: &mut CfHandle, notice: &mut CfHandle) -> u32
    requires { IsOfItsDesk h.old.inner.held notice.old.inner.held }
    ensures { HandleDoes (HeedsBehind notice.old.inner.held notice.new.inner.held) h.old h.new result }
{
    ask!(alloc, h, held => noticing::heed_behind(alloc, &mut held, notice))
}
