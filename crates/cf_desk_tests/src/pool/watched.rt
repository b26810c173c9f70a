//! Workers whose gate and functions keep what happens to them: which function ran how often, and what the gate was told.
ghost use Rattle.std.specs.Prelude.{◌<◌, ◌≤◌};
ghost use Rattle.cf_desk.specs.Views.{IsOf};

use crate::checks::{holds, must};
use crate::plans::supplies;
use crate::pool::ends::Ended;
use crate::pool::pools::{Opening, last_of, open, over_supplies, raced, run_over};
use cf_desk::{Desk, DeskFault, Pass};
use cf_forms::{Answer, Args, StageFn};
use cf_outcome::Value;
use cf_pool::{Done, Gate, Shared, work};
use std::alloc::Global;
use std::process::Abort;
use std::sync::Wait;
use std::sync::atomic::{AtomicBool, AtomicU32, Ordering};
use std::thread::Threads;

/// What a gate was told, in order, and how often each stage's function was called.
#[derive(Drop)]
struct Watch {
    /// How many workers are to stand at the gate at once.
    together: u32,
    /// How many came to the gate, and whether one of them waited in vain.
    came: AtomicU32,
    alone: AtomicBool,
    told: Vec<AtomicU32>,
    calls: Vec<AtomicU32>,
    /// Whether a function was called before the gate was told.
    early: AtomicBool,
}

/// A stage and a caller as one number above 0.
fn told_as(stage: u16, caller: u8) -> u32 {
    u32::from(stage) * 256 + u32::from(caller) + 1
}

fn zeros(rt: &impl Abort, alloc: Global, count: u16) -> Vec<AtomicU32> {
    let mut zeros = Vec::new(alloc);
    for _ in 0..count {
        must(rt, zeros.push(AtomicU32::new(0)));
    }
    zeros
}

impl Watch {
    fn new(rt: &impl Abort, alloc: Global, stages: u16, together: u8) -> Watch {
        Watch {
            together: u32::from(together),
            came: AtomicU32::new(0),
            alone: AtomicBool::new(false),
            told: zeros(rt, alloc, stages),
            calls: zeros(rt, alloc, stages),
            early: AtomicBool::new(false),
        }
    }

    /// When the gate was told of this stage and this caller, counted from 1, or 0 if it wasn't.
    fn turn_of(&self, stage: u16, caller: u8) -> u32 {
        let mut turn = 0u32;
        for told in &self.told {
            turn = turn.wrapping_add(1);
            if told.load(Ordering::SeqCst) == told_as(stage, caller) {
                return turn;
            }
        }
        0
    }

    /// Whether the gate was told of this stage.
    fn was_told(&self, stage: u16) -> bool {
        for told in &self.told {
            if told.load(Ordering::SeqCst).wrapping_sub(1) / 256 == u32::from(stage) {
                return true;
            }
        }
        false
    }

    /// Whether so many workers met at the gate, it was told so often, and after that each function was called once.
    fn saw_each_once(&self) -> bool {
        for calls in &self.calls {
            if calls.load(Ordering::SeqCst) != 1 {
                return false;
            }
        }
        let came = self.came.load(Ordering::SeqCst) as usize;
        came == self.told.len()
            && !self.alone.load(Ordering::SeqCst)
            && !self.early.load(Ordering::SeqCst)
    }

    /// Whether it was told of workers alone, whose numbers are 1 to this one.
    fn saw_workers(&self, workers: u8) -> bool {
        for told in &self.told {
            let caller = told.load(Ordering::SeqCst).wrapping_sub(1) % 256;
            if caller == 0 || caller > u32::from(workers) {
                return false;
            }
        }
        true
    }

    /// Whether one worker told it of these stages, the lowest first.
    fn saw_in_order(&self, stages: u16) -> bool {
        for stage in 0..stages {
            if self.turn_of(stage, 1) != u32::from(stage) + 1 {
                return false;
            }
        }
        true
    }

    /// Whether it saw a run of so many workers, which nothing stopped.
    fn saw_run(&self, ended: &Ended, workers: u8) -> bool {
        self.saw_each_once() && self.saw_workers(workers) && ended.fault.is_none()
    }

    /// Whether it saw a worker claim stage 0, and caller 0 claim stage 1 behind it, in a run that a full pass stopped.
    fn saw_caller(&self, ended: &Ended) -> bool {
        self.turn_of(0, 1) == 1
            && self.turn_of(1, 0) == 2
            && self.saw_each_once()
            && ended.fault == Some(DeskFault::PassFull)
    }
}

impl Gate for Watch {
    /// Keeps what it is told, and waits until as many came as are to be here, at most 1,000,000,000 looks.
    fn before(&self, stage: u16, worker: u8) {
        let place = self.came.fetch_add(1, Ordering::SeqCst);
        if let Some(told) = self.told.get(place as usize) {
            told.store(told_as(stage, worker), Ordering::SeqCst);
        }
        for _ in 0..1_000_000_000u32 {
            if self.came.load(Ordering::SeqCst) >= self.together
                || self.alone.load(Ordering::SeqCst)
            {
                return;
            }
        }
        self.alone.store(true, Ordering::SeqCst);
    }
}

/// The function of one stage. It gives nil.
#[derive(Clone, Copy, Drop)]
struct Watched<'a> {
    watch: &'a Watch,
    stage: u16,
}

impl<'a> StageFn for Watched<'a> {
    ghost use Rattle.cf_forms.specs.declared.forms.Answer.TheVariants.{Give};
    ghost use Rattle.cf_outcome.specs.declared.outcome.Value.TheVariants.{Nil};

    ghost meaning = { λ f args. Give Nil };

    fn call(&self, _args: &Args) -> Answer {
        if !self.watch.was_told(self.stage) {
            self.watch.early.store(true, Ordering::SeqCst);
        }
        if let Some(calls) = self.watch.calls.get(self.stage as usize) {
            calls.fetch_add(1, Ordering::SeqCst);
        }
        Answer::Give(Value::Nil)
    }
}

fn functions<'a>(
    rt: &impl Abort,
    alloc: Global,
    watch: &'a Watch,
    stages: u16,
) -> Vec<Watched<'a>> {
    let mut functions = Vec::new(alloc);
    for stage in 0..stages {
        must(rt, functions.push(Watched { watch, stage }));
    }
    functions
}

/// Works with these functions until one look finds nothing ready.
fn work_with<F: StageFn, G: Gate>(desk: &Desk, pass: &mut Pass, fns: &[F], gate: &G) -> Option<Done>
    requires { IsOf desk.now pass.old }
{
    let mut worker = Shared {
        functions: fns,
        gate,
    };
    work(desk, pass, &mut worker, 1).ok()
}

/// What one worker did with these functions over so many supplies, on the thread of its caller.
fn worked<F: StageFn, G: Gate>(
    rt: &impl Abort,
    alloc: Global,
    stages: u16,
    fns: &[F],
    gate: &G,
) -> Option<Done> {
    let (desk, mut passes) = open(rt, alloc, over_supplies(stages, 1, 99, 99));
    let mut pass = last_of(rt, &desk, &mut passes);
    let done = work_with(&desk, &mut pass, fns, gate);
    drop((desk, passes, pass));
    done
}

/// Whether a worker was stopped by nothing, and ran so many functions.
fn has_run(done: Option<Done>, count: u32) -> bool {
    match done {
        Some(done) => done.run == count,
        None => false,
    }
}

/// What one worker did over so many supplies, whose gate and functions are watched.
fn work_watched(rt: &impl Abort, alloc: Global, stages: u16, watch: &Watch) -> Option<Done> {
    let fns = functions(rt, alloc, watch, stages);
    let done = worked(rt, alloc, stages, &fns, watch);
    drop(fns);
    done
}

#[test]
fn work_calls_each_function_once_after_the_gate(rt: HostRuntime) {
    let watch = Watch::new(&rt, rt.alloc(), 3, 1);
    let done = work_watched(&rt, rt.alloc(), 3, &watch);
    holds(&rt, has_run(done, 3), "functions");
    holds(&rt, watch.saw_each_once() && watch.saw_in_order(3), "gate");
    drop(watch);
}

/// What a run over the desk that is opened so came to, whose gate and functions of so many stages are watched.
fn run_watched<R: Threads + Wait + Sync + Abort>(
    rt: &R,
    alloc: Global,
    opening: Opening,
    stages: u16,
    watch: &Watch,
) -> Ended
    requires { (0 < opening.workers) × (opening.workers ≤ 32) }
{
    let fns = functions(rt, alloc, watch, stages);
    let ended = run_over(rt, alloc, opening, &fns, watch);
    drop(fns);
    ended
}

/// Each function of a run of so many workers over as many stages is called once, after all of them met at the gate and it
/// was told of the claim.
fn watch_run<R: Threads + Wait + Sync + Abort>(rt: &R, alloc: Global, workers: u8)
    requires { (0 < workers) × (workers ≤ 32) }
{
    let stages = u16::from(workers);
    let watch = Watch::new(rt, alloc, stages, workers);
    let opening = over_supplies(stages, workers, 2000, 99);
    let ended = run_watched(rt, alloc, opening, stages, &watch);
    holds(rt, watch.saw_run(&ended, workers), ("workers", workers));
    drop((ended, watch));
}

#[test]
fn runs_call_each_function_once_after_the_gate(rt: HostRuntime) {
    watch_run(&rt, rt.alloc(), 1);
    watch_run(&rt, rt.alloc(), 4);
    watch_run(&rt, rt.alloc(), 32);
}

/// A worker whose pass has room for one record leaves the second stage to its caller, who lets the gate know too.
#[test]
fn a_caller_tells_the_gate_of_its_own_work(rt: HostRuntime) {
    let watch = Watch::new(&rt, rt.alloc(), 2, 1);
    let ended = run_watched(&rt, rt.alloc(), over_supplies(2, 1, 9, 1), 2, &watch);
    holds(&rt, watch.saw_caller(&ended), "caller");
    drop((ended, watch));
}

/// Races workers over so many supplies, with functions and a gate that are watched.
fn race_watched<R: Threads + Wait + Sync + Abort>(
    rt: &R,
    alloc: Global,
    stages: u16,
    workers: u8,
    watch: &Watch,
)
    requires { (0 < workers) × (workers ≤ 32) }
{
    let fns = functions(rt, alloc, watch, stages);
    let plan = supplies(rt, alloc, stages);
    raced(rt, alloc, plan, &fns, watch, workers);
    drop(fns);
}

/// The same as of a run of a race, which keeps no records.
fn watch_race<R: Threads + Wait + Sync + Abort>(rt: &R, alloc: Global, workers: u8)
    requires { (0 < workers) × (workers ≤ 32) }
{
    let stages = u16::from(workers);
    let watch = Watch::new(rt, alloc, stages, workers);
    race_watched(rt, alloc, stages, workers, &watch);
    let saw = watch.saw_each_once() && watch.saw_workers(workers);
    holds(rt, saw, ("workers", workers));
    drop(watch);
}

#[test]
fn races_call_each_function_once_after_the_gate(rt: HostRuntime) {
    watch_race(&rt, rt.alloc(), 1);
    watch_race(&rt, rt.alloc(), 4);
    watch_race(&rt, rt.alloc(), 32);
}
