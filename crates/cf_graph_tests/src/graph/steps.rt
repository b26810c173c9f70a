//! What is done to a graph and asked of it, as rows: a call, and what it is answered.
ghost use Rattle.std.specs.Prelude.{◌<◌, length};

use crate::checks::{holds, must};
use crate::functions::Always;
use crate::graph::by_events;
use crate::graph::by_events::{is_answered_by_word, replays};
use crate::graph::noting::notes;
use crate::graph::plans::{Rows, plan_of};
use cf_core::{Graph, GraphFault};
use cf_forms::{Answer, Args, Each, Form, Of, fits_form};
use cf_model::{Attached, Claimed, Event, Failure, Finished, Reply, Ticked};
use cf_outcome::{Now, Outcome, Value};
use cf_plan::Plan;
use std::alloc::Global;
use std::process::Abort;

/// A call of `Graph` with its answer last. Of several callers it is caller 0.
#[derive(Clone, Copy)]
pub(crate) enum Step {
    Complete(u16, i32, bool),
    Fail(u16, u32, bool),
    FailAs(u16, Failure, bool),
    Cancel(u16, bool),
    Claim(u16, Claimed),
    /// A claim by this caller.
    ClaimBy(u8, u16, Claimed),
    Finish(u16, Answer, Finished),
    Tick(u32, Ticked),
    Attach(Form, Of, Option<u16>, Attached),
    /// An event that fits.
    Event(Event, Reply),
    /// A word, and what its event is answered, if it is one's that fits.
    Word(u64, Option<Reply>),
    /// An event that fits is done, and then a tick, with these turns before each.
    Replays(Event, &'static [u32]),
    Restart,
    Outcome(u16, Option<Outcome>),
    /// It gives -1 where the stage isn't settled.
    Now(u16, Now),
    LowestReady(Option<u16>),
    Nudge(u32, u32),
    Turns(u64),
    Stages(u16),
    /// How many stages the plan of the opening has.
    PlanStages(u16),
    Has(u16, bool),
    Function(u16, Option<u16>),
    /// Each of so many stages is the lowest ready one in turn, and its claim is granted.
    ClaimsEach(u16),
    /// Sources are attached as the stages from the first number up to below the second.
    AttachesSources(u16, u16),
    /// Work for a caller with these functions calls so many.
    Works(&'static [Always], u8, u32),
    /// Work calls these functions with these arguments, and work after it none.
    Notes(&'static [(u16, Args)]),
}

/// A claim is granted, with this number for its function.
macro_rules! granted {
    ($stage:expr, $n:expr) => {
        crate::graph::steps::Step::Claim(
            $stage,
            cf_model::Claimed::Granted(cf_forms::Args::One(cf_outcome::Value::Int($n))),
        )
    };
}

/// A claim is granted, with this fault for its function, wrapped or not.
macro_rules! granted_fault {
    ($stage:expr, $cause:expr, $wrapped:expr) => {
        crate::graph::steps::Step::Claim(
            $stage,
            cf_model::Claimed::Granted(cf_forms::Args::Got(cf_outcome::Outcome::Fault {
                cause: $cause,
                wrapped: $wrapped,
            })),
        )
    };
}

/// The stage is settled with this number.
macro_rules! value {
    ($stage:expr, $n:expr) => {
        crate::graph::steps::Step::Outcome(
            $stage,
            Some(cf_outcome::Outcome::Value(cf_outcome::Value::Int($n))),
        )
    };
}

/// The stage is settled with this fault, wrapped or not.
macro_rules! fault {
    ($stage:expr, $cause:expr, $wrapped:expr) => {
        crate::graph::steps::Step::Outcome(
            $stage,
            Some(cf_outcome::Outcome::Fault {
                cause: $cause,
                wrapped: $wrapped,
            }),
        )
    };
}

pub(crate) use fault;
pub(crate) use granted;
pub(crate) use granted_fault;
pub(crate) use value;

/// What the attaching of a stage is answered, where it fits its form and its sources are there.
fn attached(graph: &mut Graph, form: Form, of: Of, function: Option<u16>) -> Option<Attached> {
    if fits_form(form, of.count(), function.is_some()) && of.are_below(graph.stages()) {
        Some(graph.attach(form, of, function))
    } else {
        None
    }
}

/// Whether each of so many stages is the lowest ready one in turn, and its claim is granted.
fn claims_each(graph: &mut Graph, count: u16) -> bool {
    for i in 0..count {
        if graph.lowest_ready() != Some(i) || !is_claimed(graph, i) {
            return false;
        }
    }
    true
}

/// Whether a claim of a stage without arguments is granted.
fn is_claimed(graph: &mut Graph, i: u16) -> bool {
    graph.has(i) && graph.claim(0, i) == Claimed::Granted(Args::None)
}

/// Whether sources are attached as the stages from this first one up to below the end.
fn attaches_sources(graph: &mut Graph, first: u16, end: u16) -> bool {
    for i in first..end {
        if attached(graph, Form::Source, Of::None, None) != Some(Attached::At(i)) {
            return false;
        }
    }
    true
}

/// Whether the stage behind so many sources isn't settled before the last of them is completed, and has nil then.
pub(crate) fn waits_for(graph: &mut Graph, sources: u16) -> bool {
    for i in 0..sources {
        if !graph.has(sources) || graph.outcome(sources).is_some() || !is_completed(graph, i) {
            return false;
        }
    }
    graph.has(sources) && graph.outcome(sources) == Some(Outcome::Value(Value::Nil))
}

/// Whether a stage is completed.
fn is_completed(graph: &mut Graph, i: u16) -> bool {
    graph.has(i) && graph.complete(i, Value::Int(1))
}

/// Whether a step at a stage that is there is answered so.
fn is_answered_at(graph: &mut Graph, i: u16, step: Step) -> bool
    requires { i < length graph.old.state.plan.stages }
{
    match step {
        Step::Complete(_, v, answer) => graph.complete(i, Value::Int(v)) == answer,
        Step::Fail(_, code, answer) => graph.fail(i, code) == answer,
        Step::FailAs(_, failure, answer) => graph.fail_as(i, failure) == answer,
        Step::Cancel(_, answer) => graph.cancel(i) == answer,
        Step::Claim(_, answer) => graph.claim(0, i) == answer,
        Step::ClaimBy(who, _, answer) => graph.claim(who, i) == answer,
        Step::Finish(_, given, answer) => graph.finish(0, i, given) == answer,
        Step::Outcome(_, answer) => graph.outcome(i) == answer,
        Step::Now(_, answer) => graph.now(i, Value::Int(-1)) == answer,
        Step::Function(_, answer) => graph.function(i) == answer,
        _ => false,
    }
}

/// Whether a step is answered so.
fn is_answered(alloc: Global, graph: &mut Graph, step: Step) -> bool {
    match step {
        Step::Complete(i, _, _)
        | Step::Fail(i, _, _)
        | Step::FailAs(i, _, _)
        | Step::Cancel(i, _)
        | Step::Claim(i, _)
        | Step::ClaimBy(_, i, _)
        | Step::Finish(i, _, _)
        | Step::Outcome(i, _)
        | Step::Now(i, _)
        | Step::Function(i, _) => graph.has(i) && is_answered_at(graph, i, step),
        Step::Tick(now, answer) => graph.tick(now) == answer,
        Step::Attach(form, of, function, answer) => {
            attached(graph, form, of, function) == Some(answer)
        }
        Step::Event(event, answer) => by_events::is_answered(graph, event, answer),
        Step::Word(word, answer) => is_answered_by_word(graph, word, answer),
        Step::Replays(event, nudges) => replays(graph, event, nudges),
        Step::Restart => {
            graph.restart();
            true
        }
        Step::LowestReady(answer) => graph.lowest_ready() == answer,
        Step::Nudge(k, answer) => graph.nudge(k) == answer,
        Step::Turns(answer) => graph.turns() == answer,
        Step::Stages(answer) => graph.stages() == answer,
        Step::PlanStages(answer) => graph.plan().stages() == answer,
        Step::Has(i, answer) => graph.has(i) == answer,
        Step::ClaimsEach(count) => claims_each(graph, count),
        Step::AttachesSources(first, end) => attaches_sources(graph, first, end),
        Step::Works(functions, who, calls) => graph.work(who, &mut Each { functions }) == calls,
        Step::Notes(calls) => notes(alloc, graph, calls),
    }
}

/// The graph takes the steps of these parts, and each is answered as it says.
pub(crate) fn take(
    rt: &impl Abort,
    alloc: Global,
    graph: &mut Graph,
    name: &'static str,
    parts: &[&[Step]],
) {
    for (part, steps) in parts.iter().enumerate() {
        for (at, step) in steps.iter().enumerate() {
            holds(rt, is_answered(alloc, graph, *step), (name, part, at));
        }
    }
}

/// A graph, by its stages and the room for more of them, and the parts of what it does.
#[derive(Clone, Copy)]
pub(crate) struct Case {
    pub(crate) name: &'static str,
    pub(crate) rows: &'static Rows,
    pub(crate) room: Option<u16>,
    pub(crate) steps: &'static [&'static [Step]],
}

/// The graph of a plan with so much room, or why there is none.
pub(crate) fn graph_or_fault(
    rt: &impl Abort,
    alloc: Global,
    plan: Plan,
    room: Option<u16>,
) -> Result<Graph, GraphFault> {
    match room {
        None => Graph::new(alloc, plan),
        Some(room) => {
            let has_place = room <= 16 && plan.stages() <= 4080 && plan.edges() <= 16352;
            holds(rt, has_place, room);
            Graph::new_growing(alloc, plan, room)
        }
    }
}

/// The graph of each case takes its steps.
pub(crate) fn play(rt: &impl Abort, alloc: Global, cases: &[Case]) {
    for case in cases {
        let plan = plan_of(rt, alloc, case.rows);
        let mut graph = must(rt, graph_or_fault(rt, alloc, plan, case.room));
        take(rt, alloc, &mut graph, case.name, case.steps);
        drop(graph);
    }
}
