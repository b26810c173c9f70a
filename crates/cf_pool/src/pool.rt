//! Workers on threads of their own. All memory is taken before the desk, its passes and the workers are touched, and a worker
//! whose thread is refused works on the caller's, so that nothing is refused once they have begun.
ghost use Rattle.std.specs.Prelude.{◌≡◌, ◌+◌, ◌<◌, ◌≤◌, ◌∷◌, nat_lt, [], false, true, All, IfErr, IfOk, map, length, vec_capacity, vec_len};
ghost use Rattle.std.specs.List.{AllZip};
ghost use Rattle.cf_desk.specs.Rule.{AllShort};
ghost use Rattle.cf_desk.specs.Views.{IsOf, knowns};
ghost use Rattle.cf_pool.specs.Calling.{AnswerAlike};
ghost use Rattle.cf_pool.specs.Closings.{HadEachThread, HasRunOut, HaveCalled, RefusesPairs, RefusesRun, told};
ghost use Rattle.cf_pool.specs.PlainRuns.{RunsEndPlainly};
ghost use Rattle.cf_pool.specs.Runs.{EndsAs, IsFirst, IsStarted, IsWorkedBy, SeesMore, SeesOn, first_with, is_any_alone, lower_of, passes_of, stop_of, workers_of};

use crate::faults::PoolFault;
use crate::worker::work;
use crate::workers::Worker;
use cf_core::Graph;
use cf_desk::{Closed, Desk, DeskFault, Pass};
use std::alloc::{AllocError, Global};
use std::snapshot::Snapshot;
use std::sync::Wait;
use std::thread;
use std::thread::{Promise, PromisedHandle, Scope, Threads};

/// How many looks in a row that find nothing ready a worker of `run` makes before it ends.
pub const PATIENCE: u32 = 1000;

/// A pass with which a worker has worked, the worker then, the fault that stopped it, if one did, and whether its thread was
/// refused.
#[derive(Drop)]
pub struct Worked<W> {
    pub pass: Pass,
    pub worker: W,
    pub fault: Option<DeskFault>,
    pub alone: bool,
}

/// What a run leaves: the closed desk, and the workers in the order in which they were handed in.
#[derive(Drop)]
pub struct Left<W> {
    pub closed: Closed,
    pub workers: Vec<W>,
}

impl<W: Drop> Left<W> {
    /// The graph as all events leave it. What else the run leaves is dropped.
    pub fn into_graph(self) -> Graph
        ensures { result ≡ self.closed.graph }
    {
        let Self { closed, workers: _ } = self;
        let Closed {
            history: _,
            passes: _,
            graph,
        } = closed;
        graph
    }
}

/// A fault, and the caller that met it.
#[derive(Clone, Copy, Drop)]
pub struct Met {
    pub caller: u8,
    pub fault: DeskFault,
}

/// The desk, its passes and the workers of a run for which there was no memory, as they were handed in.
#[derive(Drop)]
pub struct Unbegun<W> {
    pub desk: Desk,
    pub passes: Vec<Pass>,
    pub workers: Vec<W>,
}

/// That a worker of this desk has worked with this pass.
#[derive(Drop)]
pub struct WorkOf<W> {
    was: Snapshot<(Pass, W)>,
    desk: Snapshot<Desk>,
}

impl<W: Worker> Promise<Worked<W>> for WorkOf<W> {
    ghost use Rattle.std.specs.Prelude.{◌≡◌, false};
    ghost use Rattle.cf_pool.specs.Runs.{IsWorkedBy};

    ghost kept_by = { λ p r. IsWorkedBy W.tells W.calls W.answers p.desk.value 1000 p.was.value r × (r.alone ≡ false) };
}

/// A worker's thread, or what it came to on the caller's.
type Started<W> = Result<PromisedHandle<Worked<W>, WorkOf<W>>, Worked<W>>;

/// Works with a pass, and tells what stopped it, if anything did.
fn work_on<W: Worker>(desk: &Desk, one: (Pass, W), patience: u32) -> Worked<W>
    requires pass { IsOf desk.now one.0 }
    requires patience { 0 < patience }
    ensures worked { IsWorkedBy W.tells W.calls W.answers desk.now patience one result }
    ensures alone { result.alone ≡ false }
{
    let (mut pass, mut worker) = one;
    let fault = work(desk, &mut pass, &mut worker, patience).err();
    Worked {
        pass,
        worker,
        fault,
        alone: false,
    }
}

/// Starts a thread of the scope for one worker. Where it is refused, the worker works alone on this one.
fn start<'s, E, W: Worker + Send + Drop + 's>(
    scope: &Scope<'s, E>,
    desk: &'s Desk,
    one: (Pass, W),
) -> Started<W>
    requires { IsOf desk.now one.0 }
    ensures { IsStarted (λ h. h.promise) W.tells W.calls W.answers desk.now one result }
{
    let promise = WorkOf {
        was: Snapshot::of(&one),
        desk: Snapshot::of(desk),
    };
    let started = scope.spawn_with(
        promise,
        move || -> Worked<W>
            requires { IsOf desk.now one.0 }
            ensures { IsWorkedBy W.tells W.calls W.answers desk.entry.now 1000 one result × (result.alone ≡ false) }
        { work_on(desk, one, PATIENCE) },
    );
    match started {
        Ok(handle) => Ok(handle),
        Err(refused) => {
            let work = refused.value;
            Err(alone(work()))
        }
    }
}

/// Notes that a worker's thread was refused.
fn alone<W>(worked: Worked<W>) -> Worked<W>
    ensures { result ≡ record worked { alone = true } }
{
    let Worked {
        pass,
        worker,
        fault,
        alone: _,
    } = worked;
    Worked {
        pass,
        worker,
        fault,
        alone: true,
    }
}

/// Starts each worker.
fn start_all<'s, E, W: Worker + Send + Drop + 's>(
    scope: &Scope<'s, E>,
    desk: &'s Desk,
    workers: Vec<(Pass, W)>,
    mut started: Vec<Started<W>>,
) -> Vec<Started<W>>
    requires all { All (λ w. IsOf desk.now w.0) workers.items }
    requires none { started.items ≡ [] }
    requires room { vec_len workers ≤ vec_capacity started }
    ensures { AllZip (IsStarted (λ h. h.promise) W.tells W.calls W.answers desk.now) workers.items result.items }
{
    let mut rest = workers.into_iter();
    'next: while let Some(one) = rest.next() {
        let new = start(scope, desk, one);
        started.push_reserved(new);
    }
    started
}

/// What a worker has come to.
fn ended<R: Threads, W: Worker + Drop>(rt: &R, started: Started<W>) -> Worked<W>
    ensures { EndsAs (λ h. h.promise) W.tells W.calls W.answers started result }
{
    match started {
        Ok(handle) => handle.join(rt),
        Err(worked) => worked,
    }
}

/// What each worker has come to.
fn join_all<R: Threads, W: Worker + Drop>(
    rt: &R,
    started: Vec<Started<W>>,
    mut worked: Vec<Worked<W>>,
) -> Vec<Worked<W>>
    requires none { worked.items ≡ [] }
    requires room { vec_len started ≤ vec_capacity worked }
    ensures { AllZip (EndsAs (λ h. h.promise) W.tells W.calls W.answers) started.items result.items }
{
    let mut rest = started.into_iter();
    'next: while let Some(one) = rest.next() {
        let new = ended(rt, one);
        worked.push_reserved(new);
    }
    worked
}

/// Lets each worker work with its pass on a thread of its own, and joins them all.
fn spread<R: Threads + Wait + Sync, W: Worker + Send + Drop>(
    rt: &R,
    desk: &Desk,
    workers: Vec<(Pass, W)>,
    started: Vec<Started<W>>,
    worked: Vec<Worked<W>>,
) -> Vec<Worked<W>>
    requires all { All (λ w. IsOf desk.now w.0) workers.items }
    requires none { (started.items ≡ []) × (worked.items ≡ []) }
    requires room { (vec_len workers ≤ vec_capacity started) × (vec_len workers ≤ vec_capacity worked) }
    ensures { AllZip (IsWorkedBy W.tells W.calls W.answers desk.now 1000) workers.items result.items }
{
    thread::scope(
        thread::scope_env(),
        rt,
        |scope| -> Vec<Worked<W>>
            requires all { All (λ w. IsOf desk.now w.0) workers.items }
            requires none { (started.items ≡ []) × (worked.items ≡ []) }
            requires room { (vec_len workers ≤ vec_capacity started) × (vec_len workers ≤ vec_capacity worked) }
            ensures { AllZip (IsWorkedBy W.tells W.calls W.answers desk.entry.now 1000) workers.items result.items }
        {
            let started = start_all(scope, desk, workers, started);
            join_all(rt, started, worked)
        },
    )
}

/// The fault of the lowest caller that met one.
fn first_fault<W>(worked: &[Worked<W>]) -> Option<Met>
    ensures { IsFirst (map stop_of worked.now) result }
{
    let mut first = None;
    for w in worked {
        first = first_of(first, w.pass.caller(), w.fault);
    }
    first
}

/// Whether a worker's thread was refused.
fn is_any_alone<W>(worked: &[Worked<W>]) -> bool
    ensures { result ≡ is_any_alone worked.now }
{
    for w in worked {
        if w.alone {
            return true;
        }
    }
    false
}

/// The fault of the lower caller, where both met one.
fn first_of(met: Option<Met>, caller: u8, fault: Option<DeskFault>) -> Option<Met>
    ensures { result ≡ first_with met caller fault }
{
    let Some(fault) = fault else {
        return met;
    };
    let new = Met { caller, fault };
    match met {
        None => Some(new),
        Some(old) => Some(lower(old, new)),
    }
}

/// The fault of the lower caller.
fn lower(old: Met, new: Met) -> Met
    ensures { result ≡ lower_of (nat_lt new.caller old.caller) old new }
{
    if new.caller < old.caller { new } else { old }
}

/// The passes and the workers that have come back.
#[derive(Drop)]
struct Back<W> {
    passes: Vec<Pass>,
    workers: Vec<W>,
}

/// Room for so many that come back.
fn room_back<W: Drop>(alloc: Global, count: usize) -> Result<Back<W>, AllocError>
    ensures none { IfOk result (λ b. (b.passes.items ≡ []) × (b.workers.items ≡ [])) }
    ensures room { IfOk result (λ b. (count ≤ vec_capacity b.passes) × (count ≤ vec_capacity b.workers)) }
{
    let passes = Vec::with_capacity(alloc, count)?;
    let workers = Vec::with_capacity(alloc, count)?;
    Ok(Back { passes, workers })
}

/// The memory of a run: for each worker with its pass, for what is started, for what it comes to, and for what comes back.
#[derive(Drop)]
struct Room<W: Worker> {
    pairs: Vec<(Pass, W)>,
    started: Vec<Started<W>>,
    worked: Vec<Worked<W>>,
    back: Back<W>,
}

/// Room for so many workers.
fn room_for<W: Worker + Drop>(alloc: Global, count: usize) -> Result<Room<W>, AllocError>
    ensures none { IfOk result (λ r. (r.pairs.items ≡ []) × (r.started.items ≡ []) × (r.worked.items ≡ [])) }
    ensures none_back { IfOk result (λ r. (r.back.passes.items ≡ []) × (r.back.workers.items ≡ [])) }
    ensures pairs { IfOk result (λ r. count ≤ vec_capacity r.pairs) }
    ensures room { IfOk result (λ r. (count ≤ vec_capacity r.started) × (count ≤ vec_capacity r.worked)) }
    ensures back { IfOk result (λ r. (count ≤ vec_capacity r.back.passes) × (count ≤ vec_capacity r.back.workers)) }
{
    let pairs = Vec::with_capacity(alloc, count)?;
    let started = Vec::with_capacity(alloc, count)?;
    let worked = Vec::with_capacity(alloc, count)?;
    let back = room_back(alloc, count)?;
    Ok(Room {
        pairs,
        started,
        worked,
        back,
    })
}

/// Lets the caller's pass and each other one see what they have seen.
fn meet_all<W: Drop>(
    desk: &Desk,
    mine: &mut Pass,
    worked: Vec<Worked<W>>,
    mut back: Back<W>,
) -> Back<W>
    requires table { (mine.old.table ≡ desk.now.table) × All (λ w. w.pass.table ≡ desk.now.table) worked.items }
    requires none { (back.passes.items ≡ []) × (back.workers.items ≡ []) }
    requires room { (vec_len worked ≤ vec_capacity back.passes) × (vec_len worked ≤ vec_capacity back.workers) }
    ensures mine { SeesMore mine.old mine.new }
    ensures others { AllZip SeesOn worked.items result.passes.items }
    ensures workers { result.workers.items ≡ map (λ w. w.worker) worked.items }
    ensures short { AllShort (length mine.new.known.seen) (knowns result.passes.items) }
    ensures room { vec_capacity back.passes ≤ vec_capacity result.passes }
    ensures room_too { vec_capacity back.workers ≤ vec_capacity result.workers }
{
    let mut rest = worked.into_iter();
    'next: while let Some(w) = rest.next() {
        let Worked {
            mut pass,
            worker,
            fault: _,
            alone: _,
        } = w;
        desk.meet(mine, &mut pass);
        back.passes.push_reserved(pass);
        back.workers.push_reserved(worker);
    }
    back
}

/// Puts one more in front, where there is room.
fn put_first<T: Drop>(mut xs: Vec<T>, x: T) -> Vec<T>
    requires { vec_len xs < vec_capacity xs }
    ensures { result.items ≡ x ∷ xs.items }
{
    if xs.insert(0, x).is_err() {
        unreachable!();
    }
    xs
}

/// Each pass with its worker.
fn pair<W: Drop>(passes: Vec<Pass>, workers: Vec<W>, mut pairs: Vec<(Pass, W)>) -> Vec<(Pass, W)>
    requires same { vec_len passes ≡ vec_len workers }
    requires none { pairs.items ≡ [] }
    requires room { vec_len passes ≤ vec_capacity pairs }
    ensures passes { map (λ w. w.0) result.items ≡ passes.items }
    ensures workers { map (λ w. w.1) result.items ≡ workers.items }
{
    let mut hands = workers.into_iter();
    let mut rest = passes.into_iter();
    'next: while let Some(pass) = rest.next() {
        let Some(worker) = hands.next() else {
            unreachable!();
        };
        pairs.push_reserved((pass, worker));
    }
    pairs
}

/// Lets each worker but the first work on a thread of its own, and then the first on this one, and closes the desk.
fn run_each<R: Threads + Wait + Sync, W: Worker + Send + Drop>(
    rt: &R,
    desk: Desk,
    mut workers: Vec<(Pass, W)>,
    started: Vec<Started<W>>,
    worked: Vec<Worked<W>>,
    back: Back<W>,
) -> Result<Left<W>, PoolFault<W>>
    requires workers { (0 < vec_len workers) × (desk.setting.callers ≡ vec_len workers) }
    requires passes { All (IsOf desk) (map (λ w. w.0) workers.items) }
    requires alike { AnswerAlike W.answers (map (λ w. w.1) workers.items) }
    requires none { (started.items ≡ []) × (worked.items ≡ []) × (back.passes.items ≡ []) × (back.workers.items ≡ []) }
    requires room { (vec_len workers ≤ vec_capacity started) × (vec_len workers ≤ vec_capacity worked) }
    requires back { (vec_len workers ≤ vec_capacity back.passes) × (vec_len workers ≤ vec_capacity back.workers) }
    ensures ran { IfOk result (HasRunOut W.answers desk (passes_of workers.items) (workers_of workers.items)) }
    ensures called { IfOk result (HaveCalled W.tells W.calls (passes_of workers.items) (workers_of workers.items)) }
    ensures threads { IfOk result (HadEachThread W.answers desk (passes_of workers.items) (workers_of workers.items)) }
    ensures refused { IfErr result (RefusesPairs W.tells W.calls W.answers desk workers.items) }
{
    let one = workers.remove(0);
    let (mut mine, own) = one;
    let worked = spread(rt, &desk, workers, started, worked);
    let others = first_fault(worked.as_slice());
    let refused = is_any_alone(worked.as_slice());
    let back = meet_all(&desk, &mut mine, worked, back);
    let done = work_on(&desk, (mine, own), 1);
    let first = first_of(others, done.pass.caller(), done.fault);
    let passes = put_first(back.passes, done.pass);
    let workers = put_first(back.workers, done.worker);
    let Ok(closed) = desk.close(passes) else {
        unreachable!();
    };
    told(refused, first, Left { closed, workers })
}

/// What a run tells: that a thread was refused before the fault of the lowest caller that met one, and else what it leaves.
fn told<W>(refused: bool, first: Option<Met>, left: Left<W>) -> Result<Left<W>, PoolFault<W>>
    ensures { result ≡ told refused first left }
{
    if refused {
        return Err(PoolFault::NoThread(left));
    }
    match first {
        None => Ok(left),
        Some(met) => Err(PoolFault::Desk(met.fault, left)),
    }
}

/// Starts a thread for each of 1 to 32 workers, which works with its pass, and joins them all. Then the caller's pass meets
/// each other one, its worker works until nothing is ready, and the desk is closed. `passes` holds all passes of the desk,
/// the caller's own first, and `workers` the worker of each. If the arguments of their functions determine the answers, all
/// workers' functions answer the same.
///
/// Afterwards nothing is ready, each worker has waited for its patience, and the only open claims are those that were
/// granted before the run and not finished. If a call of a worker was refused, the run tells that fault, of the lowest
/// caller that met one; the desk is closed then too, and a claim that was granted may be open. In both cases what the desk
/// tells is one history, and its graph is as that history leaves it. The workers come back. Each has called its functions
/// for the claims that its pass was granted, once for each, and never otherwise; over all workers together, a stage's
/// function is called at most once.
///
/// All memory is taken before anything begins: if it is refused, the desk, the passes and the workers come back as they
/// were. A worker whose thread is refused works on the caller's, before the next one is started. The run tells this at the
/// end, before any other fault, with all that it leaves.
pub fn run<R: Threads + Wait + Sync, W: Worker + Send + Drop>(
    rt: &R,
    desk: Desk,
    passes: Vec<Pass>,
    workers: Vec<W>,
) -> Result<Left<W>, PoolFault<W>>
    requires workers { (1 < vec_len workers) × (vec_len workers ≤ 33) × (desk.setting.callers ≡ vec_len workers) }
    requires alike { AnswerAlike W.answers workers.items }
    requires passes { All (IsOf desk) passes.items × (vec_len passes ≡ vec_len workers) }
    ensures ran { IfOk result (HasRunOut W.answers desk passes.items workers.items) }
    ensures called { IfOk result (HaveCalled W.tells W.calls passes.items workers.items) }
    ensures threads { IfOk result (HadEachThread W.answers desk passes.items workers.items) }
    ensures refused { IfErr result (RefusesRun W.tells W.calls W.answers desk passes.items workers.items) }
{
    let alloc = *passes.allocator();
    match room_for(alloc, workers.len()) {
        Ok(room) => {
            let pairs = pair(passes, workers, room.pairs);
            run_each(rt, desk, pairs, room.started, room.worked, room.back)
        }
        Err(_) => Err(PoolFault::NoMemory(Unbegun {
            desk,
            passes,
            workers,
        })),
    }
}

/// If a desk's passes had only made plain steps before, and done no work, a run that answers Ok leaves the graph quiet and
/// its history plain. So each stage of a plain plan holds its expression's outcome.
pub fn runs_end_plainly()
    ensures { RunsEndPlainly }
{}
