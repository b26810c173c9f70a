//! One request of a service as a machine, which tells each settled stage once.
ghost use Rattle.cf_c_handles.specs.Building.{kind_of};
ghost use Rattle.cf_c_handles.specs.Handles.{HandleDoes, HandleOpens, HandleTells, HandleWrites};
ghost use Rattle.cf_c_handles.specs.RequestCalls.{AppliesIn, CancelsIn, FollowsIn, GoesOnIn, GrowsIn, OfRequest, PassesIn, RefusesIn, RestartsIn, SetsDeadlineIn, TellsIn, TellsNextIn, TellsReadyOf};
ghost use Rattle.cf_c_handles.specs.RequestComposes.{ComposesIn, LinksIn};
ghost use Rattle.cf_c_handles.specs.RequestGathers.{GathersIn};
ghost use Rattle.cf_c_handles.specs.RequestJoins.{JoinsIn};
ghost use Rattle.cf_c_handles.specs.RequestRows.{DoesCallsIn};
ghost use Rattle.cf_c_handles.specs.Requests.{RequestOf};

use crate::handle::{ask, code_of, tell};
use cf_c_handles::code::Code;
use cf_c_handles::handle::raw_box::{BoxParts, RawBox};
use cf_c_handles::handle::{CfHandle, fill};
use cf_c_handles::plan::kind_of;
use cf_c_handles::request::{asking, composing, doing, gathering, joining, request_of, row};
use cf_c_handles::values::call::CfRequestCall;
use cf_c_handles::values::request::{
    CfDeadline, CfRequestComposing, CfRequestGathering, CfRequestJoining, CfRequestLinking,
    CfRequestSizes, CfTodo, CfTold,
};
use cf_c_handles::values::task::CfTask;
use cf_c_handles::values::{CfReply, CfValue};
use cf_request::Deadline;
use std::alloc::Global;
use std::mem;

/// Opens a request of the plan behind one handle, and puts it behind another, which is empty.
#[unsafe(no_mangle)]
pub extern "C" fn cf_request_new(
    alloc: Global,
    plan: &mut CfHandle,
    sizes: &CfRequestSizes,
    lanes: &[u8],
    request: &mut CfHandle,
) -> u32
    ensures { HandleOpens (RequestOf sizes.now lanes.now) plan.old plan.new result request.old request.new }
{
    match plan.take(alloc) {
        None => fill(alloc, request, Err(Code::Empty)),
        Some(held) => {
            let made = request_of(alloc, &held, *sizes, lanes);
            plan.put(held);
            fill(alloc, request, made)
        }
    }
}

/// Does a word; a stage that it attaches is this lane's. Then it tells the stages that are settled.
#[unsafe(no_mangle)]
pub extern "C" fn cf_request_apply(
    alloc: Global,
    h: &mut CfHandle,
    word: u64,
    lane: u8,
    reply: &mut CfReply,
    told: &mut [CfTold],
    todo: &mut CfTodo,
) -> u32
    ensures { HandleWrites (AppliesIn word lane) h.old h.new result (reply.old, told.old, todo.old)
        (reply.new, told.new, todo.new) }
{
    ask!(alloc, h, held => doing::apply(&mut held, word, lane, reply, told, todo))
}

/// Attaches a stage that gathers these. Then it tells the stages that are settled.
#[unsafe(no_mangle)]
pub extern "C" fn cf_request_gather(
    alloc: Global,
    h: &mut CfHandle,
    step: &mut CfRequestGathering,
    sources: &[u16],
    told: &mut [CfTold],
    todo: &mut CfTodo,
) -> u32
    ensures { HandleWrites (GathersIn sources.now) h.old h.new result (step.old, told.old, todo.old)
        (step.new, told.new, todo.new) }
{
    ask!(alloc, h, held => gathering::gather(&mut held, step, sources, told, todo))
}

/// Attaches a compose with its relay. Then it tells the stages that are settled.
#[unsafe(no_mangle)]
pub extern "C" fn cf_request_compose(
    alloc: Global,
    h: &mut CfHandle,
    step: &mut CfRequestComposing,
    told: &mut [CfTold],
    todo: &mut CfTodo,
) -> u32
    ensures { HandleWrites ComposesIn h.old h.new result (step.old, told.old, todo.old) (step.new, told.new, todo.new) }
{
    ask!(alloc, h, held => composing::compose(&mut held, step, told, todo))
}

/// Finishes the compose that a task holds with any stage. Then it tells the stages that are settled.
#[unsafe(no_mangle)]
pub extern "C" fn cf_request_link(
    alloc: Global,
    h: &mut CfHandle,
    step: &CfRequestLinking,
    task: &mut CfTask,
    told: &mut [CfTold],
    todo: &mut CfTodo,
) -> u32
    ensures { HandleWrites (LinksIn step.now) h.old h.new result (task.old, told.old, todo.old)
        (task.new, told.new, todo.new) }
{
    ask!(alloc, h, held => composing::link(&mut held, step, task, told, todo))
}

/// Finishes what a task holds with the answer in it. Then claims the next ready stage of the lane, gives it to the task, and tells the
/// stages that are settled. Where there is nothing to do it is done here, with few registers.
#[unsafe(no_mangle)]
#[inline(never)]
pub extern "C" fn cf_request_next(
    alloc: Global,
    h: &mut CfHandle,
    who: u8,
    lane: u8,
    task: &mut CfTask,
    told: &mut [CfTold],
    todo: &mut CfTodo,
) -> u32
    ensures { HandleWrites (GoesOnIn who lane) h.old h.new result (task.old, told.old, todo.old)
        (task.new, told.new, todo.new) }
{
    if task.held == 0 && h.is_full() {
        let inner = mem::replace(&mut h.inner, RawBox::empty(alloc));
        let held = inner.into_parts().into_box();
        if doing::rests(&held, who, lane, task) {
            let done = doing::rest(&held, who, lane, task, told, todo);
            h.inner = RawBox::of_parts(BoxParts::of(held));
            return code_of(done);
        }
        h.inner = RawBox::of_parts(BoxParts::of(held));
    }
    next_apart(alloc, h, who, lane, task, told, todo)
}

/// The same in a call of its own.
#[inline(never)]
fn next_apart(
    alloc: Global,
    h: &mut CfHandle,
    who: u8,
    lane: u8,
    task: &mut CfTask,
    told: &mut [CfTold],
    todo: &mut CfTodo,
) -> u32
    ensures { HandleWrites (GoesOnIn who lane) h.old h.new result (task.old, told.old, todo.old)
        (task.new, told.new, todo.new) }
{
    ask!(alloc, h, held => doing::next(&mut held, who, lane, task, told, todo))
}

/// From now on a stage ends as another does. Tells the stages that are settled.
#[unsafe(no_mangle)]
pub extern "C" fn cf_request_follow(
    alloc: Global,
    h: &mut CfHandle,
    relay: u16,
    stage: u16,
    told: &mut [CfTold],
    todo: &mut CfTodo,
) -> u32
    ensures { HandleWrites (FollowsIn relay stage) h.old h.new result (told.old, todo.old) (told.new, todo.new) }
{
    ask!(alloc, h, held => doing::follow(&mut held, relay, stage, told, todo))
}

/// From now on a stage ends as soon as it is decided what these come to. Tells the stages that are settled.
#[unsafe(no_mangle)]
pub extern "C" fn cf_request_join(
    alloc: Global,
    h: &mut CfHandle,
    step: &CfRequestJoining,
    sources: &[u16],
    told: &mut [CfTold],
    todo: &mut CfTodo,
) -> u32
    ensures { HandleWrites (JoinsIn step.now sources.now) h.old h.new result (told.old, todo.old) (told.new, todo.new) }
{
    ask!(alloc, h, held => joining::join(alloc, &mut held, step, sources, told, todo))
}

/// Sets a moment by which a stage has to be settled.
#[unsafe(no_mangle)]
pub extern "C" fn cf_request_deadline(
    alloc: Global,
    h: &mut CfHandle,
    stage: u16,
    moment: u64,
    kind: u32,
    code: u32,
    value: CfValue,
    todo: &mut CfTodo,
) -> u32
    ensures { HandleWrites (SetsDeadlineIn (record { stage = stage; moment = moment; kind = kind_of kind code value }))
        h.old h.new result todo.old todo.new }
{
    let kind = kind_of(kind, code, value);
    let deadline = Deadline {
        stage,
        moment,
        kind,
    };
    ask!(alloc, h, held => doing::set_deadline(&mut held, deadline, todo))
}

/// Lets time pass up to a moment. Tells the stages that are settled.
#[unsafe(no_mangle)]
pub extern "C" fn cf_request_pass(
    alloc: Global,
    h: &mut CfHandle,
    moment: u64,
    told: &mut [CfTold],
    todo: &mut CfTodo,
) -> u32
    ensures { HandleWrites (PassesIn moment) h.old h.new result (told.old, todo.old) (told.new, todo.new) }
{
    ask!(alloc, h, held => doing::pass(&mut held, moment, told, todo))
}

/// The first deadline of a stage that is open, from the last moment on.
#[unsafe(no_mangle)]
pub extern "C" fn cf_request_next_deadline(
    alloc: Global,
    h: &mut CfHandle,
    deadline: &mut CfDeadline,
) -> u32
    ensures { HandleTells TellsNextIn h.old h.new result deadline.old deadline.new }
{
    tell!(alloc, h, deadline, held => asking::next_deadline(&mut held))
}

/// Fails the ready stages of a lane that nobody runs any more. Tells the stages that are settled.
#[unsafe(no_mangle)]
pub extern "C" fn cf_request_refuse(
    alloc: Global,
    h: &mut CfHandle,
    lane: u8,
    code: u32,
    told: &mut [CfTold],
    todo: &mut CfTodo,
) -> u32
    ensures { HandleWrites (RefusesIn lane code) h.old h.new result (told.old, todo.old) (told.new, todo.new) }
{
    ask!(alloc, h, held => doing::refuse(&mut held, lane, code, told, todo))
}

/// Tells the stages that are settled and weren't told yet.
#[unsafe(no_mangle)]
pub extern "C" fn cf_request_told(
    alloc: Global,
    h: &mut CfHandle,
    told: &mut [CfTold],
    todo: &mut CfTodo,
) -> u32
    ensures { HandleWrites TellsIn h.old h.new result (told.old, todo.old) (told.new, todo.new) }
{
    ask!(alloc, h, held => doing::told(&mut held, told, todo))
}

/// How many stages of a lane are ready.
#[unsafe(no_mangle)]
pub extern "C" fn cf_request_ready(
    alloc: Global,
    h: &mut CfHandle,
    lane: u8,
    ready: &mut u16,
) -> u32
    ensures { HandleTells (OfRequest (TellsReadyOf lane)) h.old h.new result ready.old ready.new }
{
    tell!(alloc, h, ready, held => asking::ready(&mut held, lane))
}

/// Cancels all stages that are open. Tells the stages that are settled.
#[unsafe(no_mangle)]
pub extern "C" fn cf_request_cancel_all(
    alloc: Global,
    h: &mut CfHandle,
    who: u8,
    told: &mut [CfTold],
    todo: &mut CfTodo,
) -> u32
    ensures { HandleWrites (CancelsIn who) h.old h.new result (told.old, todo.old) (told.new, todo.new) }
{
    ask!(alloc, h, held => doing::cancel_all(&mut held, who, told, todo))
}

/// Makes room for more stages.
#[unsafe(no_mangle)]
pub extern "C" fn cf_request_grow(alloc: Global, h: &mut CfHandle) -> u32
    ensures { HandleDoes GrowsIn h.old h.new result }
{
    ask!(alloc, h, held => doing::grow(alloc, &mut held))
}

/// Starts again. It takes no memory.
#[unsafe(no_mangle)]
pub extern "C" fn cf_request_restart(alloc: Global, h: &mut CfHandle) -> u32
    ensures { HandleDoes RestartsIn h.old h.new result }
{
    ask!(alloc, h, held => doing::restart(&mut held))
}

/// Makes calls one after another, up to the first that is refused. Then it tells how many were done, and the stages
/// that are settled.
#[unsafe(no_mangle)]
pub extern "C" fn cf_request_do(
    alloc: Global,
    h: &mut CfHandle,
    calls: &mut [CfRequestCall],
    done: &mut usize,
    told: &mut [CfTold],
    todo: &mut CfTodo,
) -> u32
    ensures { HandleWrites DoesCallsIn h.old h.new result (calls.old, done.old, told.old, todo.old)
        (calls.new, done.new, told.new, todo.new) }
{
    ask!(alloc, h, held => row::do_calls(&mut held, calls, done, told, todo))
}
