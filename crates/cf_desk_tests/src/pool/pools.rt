//! Desks for workers, and runs and races over them.
ghost use Rattle.std.specs.Prelude.{◌≡◌, ◌+◌, ◌<◌, ◌≤◌, All, IfOk, vec_len};
ghost use Rattle.cf_desk.specs.Views.{IsOf};

use crate::checks::{holds, must};
use crate::plans::{Stages, plan_with};
use crate::pool::ends::Ended;
use cf_desk::{Closed, Desk, DeskFault, DeskGrowth, DeskSizes, Pass};
use cf_forms::{Answer, Args, StageFn};
use cf_outcome::Value;
use cf_plan::Plan;
use cf_pool::{Done, Gate, Left, PoolFault, RaceTerms, race, run, share};
use std::alloc::Global;
use std::process::Abort;
use std::sync::Wait;
use std::thread::Threads;

/// Gives its value, whatever it is called with.
#[derive(Clone, Copy, Drop)]
pub(crate) struct Fixed {
    value: Value,
}

impl StageFn for Fixed {
    ghost use Rattle.cf_forms.specs.declared.forms.Answer.TheVariants.{Give};

    ghost meaning = { λ f args. Give f.value };

    fn call(&self, _args: &Args) -> Answer {
        Answer::Give(self.value)
    }
}

/// Four functions, which give 4, 5, 6 and 7.
pub(crate) static FUNCTIONS: [Fixed; 4] = [
    Fixed {
        value: Value::Int(4),
    },
    Fixed {
        value: Value::Int(5),
    },
    Fixed {
        value: Value::Int(6),
    },
    Fixed {
        value: Value::Int(7),
    },
];

/// How a desk for workers and their caller is opened.
#[derive(Clone, Copy)]
pub(crate) struct Opening {
    pub(crate) stages: Stages,
    pub(crate) workers: u8,
    pub(crate) log: u16,
    /// How many records each pass has room for.
    pub(crate) calls: u16,
    /// The room for stages that are attached, with the number of functions. Where none is given, the desk doesn't grow.
    pub(crate) room: Option<(u16, u32)>,
}

/// A desk over so many supplies, with no room for more stages.
pub(crate) fn over_supplies(count: u16, workers: u8, log: u16, calls: u16) -> Opening
    ensures { result.workers ≡ workers }
{
    Opening {
        stages: Stages::Supplies(count),
        workers,
        log,
        calls,
        room: None,
    }
}

/// The desk that is opened so, with its passes.
pub(crate) fn open(rt: &impl Abort, alloc: Global, opening: Opening) -> (Desk, Vec<Pass>)
    requires { opening.workers ≤ 32 }
    ensures passes { All (IsOf result.0) result.1.items × (vec_len result.1 ≡ opening.workers + 1) }
    ensures callers { result.0.setting.callers ≡ opening.workers + 1 }
{
    let Opening { log, calls, .. } = opening;
    let sizes = DeskSizes {
        callers: opening.workers + 1,
        log,
        calls,
    };
    let plan = plan_with(rt, alloc, opening.stages);
    match opening.room {
        None => must(rt, Desk::open(alloc, plan, sizes)),
        Some((room, functions)) => {
            let growth = DeskGrowth { room, functions };
            must(rt, Desk::open_growing(alloc, plan, sizes, growth))
        }
    }
}

/// The last of these passes, which are all of one desk, if there is one.
fn popped(desk: &Desk, passes: &mut Vec<Pass>) -> Result<Pass, &'static str>
    requires { All (IsOf desk.now) passes.old.items }
    ensures pass { IfOk result (IsOf desk.now) }
    ensures rest { All (IsOf desk.now) passes.new.items }
{
    match passes.pop() {
        Some(pass) => Ok(pass),
        None => Err("a pass is missing"),
    }
}

/// The last of these passes, which are all of one desk.
pub(crate) fn last_of(rt: &impl Abort, desk: &Desk, passes: &mut Vec<Pass>) -> Pass
    requires { All (IsOf desk.now) passes.old.items }
    ensures pass { IsOf desk.now result }
    ensures rest { All (IsOf desk.now) passes.new.items }
{
    must(rt, popped(desk, passes))
}

/// The last two passes of a desk.
fn two_passes(rt: &impl Abort, desk: &Desk, mut passes: Vec<Pass>) -> (Pass, Pass)
    requires { All (IsOf desk.now) passes.items }
    ensures { IsOf desk.now result.0 × IsOf desk.now result.1 }
{
    let second = last_of(rt, desk, &mut passes);
    let first = last_of(rt, desk, &mut passes);
    (first, second)
}

/// The desk that is opened so for one worker, with the passes of the caller and the worker.
pub(crate) fn open_two(rt: &impl Abort, alloc: Global, opening: Opening) -> (Desk, Pass, Pass)
    requires { opening.workers ≡ 1 }
    ensures passes { IsOf result.0 result.1 × IsOf result.0 result.2 }
    ensures callers { result.0.setting.callers ≡ 2 }
{
    let (desk, passes) = open(rt, alloc, opening);
    let (first, second) = two_passes(rt, &desk, passes);
    (desk, first, second)
}

/// A desk of two callers, closed with their passes.
fn close_two(rt: &impl Abort, alloc: Global, desk: Desk, a: Pass, b: Pass) -> Closed
    requires callers { desk.setting.callers ≡ 2 }
    requires passes { IsOf desk a × IsOf desk b }
{
    let passes = must(rt, vec![in alloc; a, b]);
    must(rt, desk.close(passes))
}

/// What work over a desk of two callers came to.
pub(crate) fn ended_two(
    rt: &impl Abort,
    alloc: Global,
    desk: Desk,
    first: Pass,
    second: Pass,
    fault: Option<DeskFault>,
    done: Option<Done>,
) -> Ended
    requires callers { desk.setting.callers ≡ 2 }
    requires passes { IsOf desk first × IsOf desk second }
{
    let closed = close_two(rt, alloc, desk, first, second);
    Ended {
        fault,
        done,
        closed,
    }
}

/// What a run that leaves this came to, which this stopped.
fn ended<W: Drop>(fault: Option<DeskFault>, left: Left<W>) -> Ended {
    let Left { closed, workers: _ } = left;
    Ended {
        fault,
        done: None,
        closed,
    }
}

/// What a run came to that was refused nothing.
fn ended_run<W: Drop>(rt: &impl Abort, told: Result<Left<W>, PoolFault<W>>) -> Ended {
    match told {
        Ok(left) => ended(None, left),
        Err(PoolFault::Desk(fault, left)) => ended(Some(fault), left),
        Err(PoolFault::NoMemory(_)) => panic!(rt; "the run was refused"),
        Err(PoolFault::NoThread(_)) => panic!(rt; "a thread was refused"),
    }
}

/// What a run of so many workers came to.
pub(crate) fn ran<R: Threads + Wait + Sync + Abort, F: StageFn + Sync, G: Gate + Sync>(
    rt: &R,
    desk: Desk,
    passes: Vec<Pass>,
    fns: &[F],
    gate: &G,
    workers: u8,
) -> Ended
    requires workers { (0 < workers) × (workers ≤ 32) × (desk.setting.callers ≡ workers + 1) }
    requires passes { All (IsOf desk) passes.items × (vec_len passes ≡ workers + 1) }
{
    let hands = must(rt, share(*passes.allocator(), fns, gate, workers + 1));
    ended_run(rt, run(rt, desk, passes, hands))
}

/// What a run of all workers over the desk that is opened so came to.
pub(crate) fn run_over<R: Threads + Wait + Sync + Abort, F: StageFn + Sync, G: Gate + Sync>(
    rt: &R,
    alloc: Global,
    opening: Opening,
    fns: &[F],
    gate: &G,
) -> Ended
    requires { (0 < opening.workers) × (opening.workers ≤ 32) }
{
    let (desk, passes) = open(rt, alloc, opening);
    ran(rt, desk, passes, fns, gate, opening.workers)
}

/// Races so many workers, and is told no fault.
pub(crate) fn raced<R: Threads + Wait + Sync + Abort, F: StageFn + Sync, G: Gate + Sync>(
    rt: &R,
    alloc: Global,
    plan: Plan,
    fns: &[F],
    gate: &G,
    workers: u8,
)
    requires { (0 < workers) × (workers ≤ 32) }
{
    holds(rt, plan.has_place(0), "place");
    let hands = must(rt, share(alloc, fns, gate, workers + 1));
    let terms = RaceTerms {
        plan,
        room: 0,
        steps: &[],
        workers,
    };
    drop(must(rt, race(rt, alloc, terms, hands)));
}
