//! A graph that one caller has alone.
ghost use Rattle.std.specs.Prelude.{Ok};
ghost use Rattle.cf_model.specs.declared.events.Event.TheVariants.{Complete as Completes, Fail as Fails, Cancel as Cancels, Claim as Claims, Finish as Finishes, Tick as Ticks};
ghost use Rattle.cf_c_handles.specs.Building.{GraphOf};
ghost use Rattle.cf_c_handles.specs.EventWords.{event_at, failing, failure_of};
ghost use Rattle.cf_c_handles.specs.Graphs.{Restarts, RestsAlways, RestsAt, RestsAtReady, function_told, now_told, outcome_told, ready_told, stages_told, turns_told};
ghost use Rattle.cf_c_handles.specs.Handles.{GraphReplies, GraphTells, HandleDoes, HandleNexts, HandleOpens, HandleWrites};
ghost use Rattle.cf_c_handles.specs.Plans.{attach_event};
ghost use Rattle.cf_c_handles.specs.Restarts.{PlanOf, RestartsWith};
ghost use Rattle.cf_c_handles.specs.Rounds.{Rounds};
ghost use Rattle.cf_c_handles.specs.Sweeps.{BeginsSweep, EndsSweep, Sweeps};
ghost use Rattle.cf_c_handles.specs.Tasks.{Steps};
ghost use Rattle.cf_c_handles.specs.Values.{answer_of, value_of};

use crate::handle::{ask, tell};
use cf_c_handles::code::Code;
use cf_c_handles::graph::{asking, graph_of, plan_of, restarting, rounds, stepping, sweeping};
use cf_c_handles::handle::{CfHandle, fill};
use cf_c_handles::values::attaching::attach_event;
use cf_c_handles::values::event::{event_at, failing_event};
use cf_c_handles::values::task::CfTask;
use cf_c_handles::values::{
    CfAnswer, CfGiven, CfNow, CfOutcome, CfReply, CfValue, answer_of, value_of,
};
use cf_model::Event;
use std::alloc::Global;

/// Opens a graph of the plan behind one handle, and puts it behind another, which is empty.
#[unsafe(no_mangle)]
pub extern "C" fn cf_graph_new(
    alloc: Global,
    plan: &mut CfHandle,
    room: u16,
    graph: &mut CfHandle,
) -> u32
    ensures { HandleOpens (GraphOf room) plan.old plan.new result graph.old graph.new }
{
    match plan.take(alloc) {
        None => fill(alloc, graph, Err(Code::Empty)),
        Some(held) => {
            let made = graph_of(alloc, &held, room);
            plan.put(held);
            fill(alloc, graph, made)
        }
    }
}

/// Completes a stage with a value.
#[unsafe(no_mangle)]
pub extern "C" fn cf_complete(
    alloc: Global,
    h: &mut CfHandle,
    stage: u16,
    value: CfValue,
    reply: &mut CfReply,
) -> u32
    ensures { GraphReplies (Ok (Completes 0 stage (value_of value))) h.old h.new result reply.old reply.new }
{
    let value = value_of(value);
    let event = Event::Complete {
        who: 0,
        stage,
        value,
    };
    tell!(alloc, h, reply, held => asking::answer(&mut held, Ok(event)))
}

/// Fails a stage with a code.
#[unsafe(no_mangle)]
pub extern "C" fn cf_fail(
    alloc: Global,
    h: &mut CfHandle,
    stage: u16,
    code: u32,
    reply: &mut CfReply,
) -> u32
    ensures { GraphReplies (Ok (Fails 0 stage code)) h.old h.new result reply.old reply.new }
{
    let event = Event::Fail {
        who: 0,
        stage,
        code,
    };
    tell!(alloc, h, reply, held => asking::answer(&mut held, Ok(event)))
}

/// Fails a stage with the outcome of this kind and code: as timed out, or with a bad answer, for a stage that stands in for
/// another.
#[unsafe(no_mangle)]
pub extern "C" fn cf_fail_as(
    alloc: Global,
    h: &mut CfHandle,
    stage: u16,
    kind: u32,
    code: u32,
    reply: &mut CfReply,
) -> u32
    ensures { GraphReplies (failing 0 stage (failure_of kind code)) h.old h.new result reply.old reply.new }
{
    let event = failing_event(stage, kind, code);
    tell!(alloc, h, reply, held => asking::answer(&mut held, event))
}

/// Cancels a stage.
#[unsafe(no_mangle)]
pub extern "C" fn cf_cancel(alloc: Global, h: &mut CfHandle, stage: u16, reply: &mut CfReply) -> u32
    ensures { GraphReplies (Ok (Cancels 0 stage)) h.old h.new result reply.old reply.new }
{
    let event = Event::Cancel { who: 0, stage };
    tell!(alloc, h, reply, held => asking::answer(&mut held, Ok(event)))
}

/// Claims a ready stage for a caller.
#[unsafe(no_mangle)]
pub extern "C" fn cf_claim(
    alloc: Global,
    h: &mut CfHandle,
    who: u8,
    stage: u16,
    reply: &mut CfReply,
) -> u32
    ensures { GraphReplies (Ok (Claims who stage)) h.old h.new result reply.old reply.new }
{
    let event = Event::Claim { who, stage };
    tell!(alloc, h, reply, held => asking::answer(&mut held, Ok(event)))
}

/// Finishes a stage that a caller has claimed.
#[unsafe(no_mangle)]
pub extern "C" fn cf_finish_with(
    alloc: Global,
    h: &mut CfHandle,
    who: u8,
    stage: u16,
    answer: &CfAnswer,
    reply: &mut CfReply,
) -> u32
    ensures { GraphReplies (Ok (Finishes who stage (answer_of answer.now))) h.old h.new result reply.old reply.new }
{
    let answer = answer_of(*answer);
    let event = Event::Finish { who, stage, answer };
    tell!(alloc, h, reply, held => asking::answer(&mut held, Ok(event)))
}

/// Finishes what a task holds with the answer in it. Then claims the lowest ready stage, and gives it to the task.
#[unsafe(no_mangle)]
pub extern "C" fn cf_next(alloc: Global, h: &mut CfHandle, who: u8, task: &mut CfTask) -> u32
    ensures { HandleNexts (Steps who) h.old h.new result task.old task.new }
{
    ask!(alloc, h, held => stepping::step(&mut held, who, task))
}

/// Finishes what tasks hold with the answers in them. Then claims a ready stage for each, and gives it to the task.
#[unsafe(no_mangle)]
pub extern "C" fn cf_round(alloc: Global, h: &mut CfHandle, who: u8, tasks: &mut [CfTask]) -> u32
    ensures { HandleWrites (Rounds who) h.old h.new result tasks.old tasks.new }
{
    ask!(alloc, h, held => rounds::round(&mut held, who, tasks))
}

/// Turns a graph into a sweep, which stops at each function.
#[unsafe(no_mangle)]
pub extern "C" fn cf_sweep_begin(alloc: Global, h: &mut CfHandle) -> u32
    ensures { HandleDoes BeginsSweep h.old h.new result }
{
    ask!(alloc, h, held => sweeping::begin(alloc, &mut held))
}

/// Takes the answer of what a task holds, and gives it the stage at which the sweep stops then.
#[unsafe(no_mangle)]
pub extern "C" fn cf_sweep_next(alloc: Global, h: &mut CfHandle, task: &mut CfTask) -> u32
    ensures { HandleNexts Sweeps h.old h.new result task.old task.new }
{
    ask!(alloc, h, held => sweeping::next(&mut held, task))
}

/// Turns a sweep back into its graph, once it has gone through all stages.
#[unsafe(no_mangle)]
pub extern "C" fn cf_sweep_end(alloc: Global, h: &mut CfHandle) -> u32
    ensures { HandleDoes EndsSweep h.old h.new result }
{
    ask!(alloc, h, held => sweeping::end(alloc, &mut held))
}

/// Sets the clock to this moment.
#[unsafe(no_mangle)]
pub extern "C" fn cf_tick(alloc: Global, h: &mut CfHandle, now: u32, reply: &mut CfReply) -> u32
    ensures { GraphReplies (Ok (Ticks 0 now)) h.old h.new result reply.old reply.new }
{
    let event = Event::Tick {
        who: 0,
        moment: now,
    };
    tell!(alloc, h, reply, held => asking::answer(&mut held, Ok(event)))
}

/// Attaches a stage.
#[unsafe(no_mangle)]
pub extern "C" fn cf_attach(
    alloc: Global,
    h: &mut CfHandle,
    form: u32,
    of: &[u16],
    function: u32,
    reply: &mut CfReply,
) -> u32
    ensures { GraphReplies (attach_event form of.now function) h.old h.new result reply.old reply.new }
{
    let event = attach_event(form, of, function);
    tell!(alloc, h, reply, held => asking::answer(&mut held, event))
}

/// Does the event of a word to a graph.
#[unsafe(no_mangle)]
pub extern "C" fn cf_apply(alloc: Global, h: &mut CfHandle, word: u64, reply: &mut CfReply) -> u32
    ensures { GraphReplies (event_at word) h.old h.new result reply.old reply.new }
{
    let event = event_at(word);
    tell!(alloc, h, reply, held => asking::answer(&mut held, event))
}

/// The outcome of a stage, or that there is none yet.
#[unsafe(no_mangle)]
pub extern "C" fn cf_get(
    alloc: Global,
    h: &mut CfHandle,
    stage: u16,
    outcome: &mut CfOutcome,
) -> u32
    ensures { GraphTells (outcome_told stage) (RestsAt stage) h.old h.new result outcome.old outcome.new }
{
    tell!(alloc, h, outcome, held => asking::outcome(&mut held, stage))
}

/// What a stage gives at present, or this value where it isn't settled.
#[unsafe(no_mangle)]
pub extern "C" fn cf_get_now(
    alloc: Global,
    h: &mut CfHandle,
    stage: u16,
    absent: CfValue,
    now: &mut CfNow,
) -> u32
    ensures { GraphTells (now_told stage (value_of absent)) (RestsAt stage) h.old h.new result now.old now.new }
{
    let absent = value_of(absent);
    tell!(alloc, h, now, held => asking::now(&mut held, stage, absent))
}

/// The lowest ready stage.
#[unsafe(no_mangle)]
pub extern "C" fn cf_lowest_ready(alloc: Global, h: &mut CfHandle, stage: &mut u16) -> u32
    ensures { GraphTells ready_told RestsAtReady h.old h.new result stage.old stage.new }
{
    tell!(alloc, h, stage, held => asking::lowest_ready(&mut held))
}

/// The number of a stage's function.
#[unsafe(no_mangle)]
pub extern "C" fn cf_function(
    alloc: Global,
    h: &mut CfHandle,
    stage: u16,
    function: &mut u16,
) -> u32
    ensures { GraphTells (function_told stage) RestsAlways h.old h.new result function.old function.new }
{
    tell!(alloc, h, function, held => asking::function(&mut held, stage))
}

/// How many stages there are by now.
#[unsafe(no_mangle)]
pub extern "C" fn cf_stages(alloc: Global, h: &mut CfHandle, stages: &mut u16) -> u32
    ensures { GraphTells stages_told RestsAlways h.old h.new result stages.old stages.new }
{
    tell!(alloc, h, stages, held => asking::stages(&mut held))
}

/// How many turns were taken since the graph was opened or last restarted.
#[unsafe(no_mangle)]
pub extern "C" fn cf_turns(alloc: Global, h: &mut CfHandle, turns: &mut u64) -> u32
    ensures { GraphTells turns_told RestsAlways h.old h.new result turns.old turns.new }
{
    tell!(alloc, h, turns, held => asking::turns(&mut held))
}

/// Starts a graph again.
#[unsafe(no_mangle)]
pub extern "C" fn cf_restart(alloc: Global, h: &mut CfHandle) -> u32
    ensures { HandleDoes Restarts h.old h.new result }
{
    ask!(alloc, h, held => asking::restart(&mut held))
}

/// Starts a graph again, and completes stages.
#[unsafe(no_mangle)]
pub extern "C" fn cf_restart_with(alloc: Global, h: &mut CfHandle, given: &[CfGiven]) -> u32
    ensures { HandleDoes (RestartsWith given.now) h.old h.new result }
{
    ask!(alloc, h, held => restarting::restart_with(&mut held, given))
}

/// Puts the plan that a graph was opened with behind another handle, which is empty.
#[unsafe(no_mangle)]
pub extern "C" fn cf_plan_of(alloc: Global, h: &mut CfHandle, plan: &mut CfHandle) -> u32
    ensures { HandleOpens PlanOf h.old h.new result plan.old plan.new }
{
    match h.take(alloc) {
        None => fill(alloc, plan, Err(Code::Empty)),
        Some(held) => {
            let made = plan_of(&held);
            h.put(held);
            fill(alloc, plan, made)
        }
    }
}
