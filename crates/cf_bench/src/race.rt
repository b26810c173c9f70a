//! Threads that complete the same stages through one desk, and reads that find nothing new.
ghost use Rattle.std.specs.Prelude.{◌≡◌, All, IfOk, length, vec_len};

use crate::desk::{checksum_of, no_desk, not_closed};
use crate::gate::Gate;
use crate::shape::no_plan;
use crate::times::{Shown, Times, Work, measured};
use cf_desk::{Ask, Call, Closed, Desk, DeskSizes, Pass};
use cf_forms::Form;
use cf_outcome::Value;
use cf_plan::{Plan, PlanBuilder, PlanFault};
use std::alloc::Global;
use std::thread::Threads;
use std::time::{Clock, Duration, Instant};
use std::{io, thread};

/// How many stages are completed, each by every thread.
const STAGES: u16 = 4095;

/// How many reads are measured.
const READS: u16 = 60_000;

/// How often a race is measured.
const ROUNDS: u32 = 300;

/// A plan of sources.
fn sources(alloc: Global) -> io::Result<Plan> {
    let mut builder = PlanBuilder::new(alloc);
    if add_sources(&mut builder).is_err() {
        return Err(no_plan());
    }
    match builder.build() {
        Ok(plan) => Ok(plan),
        Err(_) => Err(no_plan()),
    }
}

fn add_sources(builder: &mut PlanBuilder) -> Result<(), PlanFault> {
    for _ in 0..STAGES {
        builder.stage(Form::Source, &[], None)?;
    }
    Ok(())
}

/// A desk over sources, and its passes.
fn open(alloc: Global, sizes: DeskSizes) -> io::Result<(Desk, Vec<Pass>)>
    ensures table { IfOk result (λ r. All (λ p. p.table ≡ r.0.table) r.1.items) }
    ensures count { IfOk result (λ r. vec_len r.1 ≡ r.0.setting.callers) }
{
    let plan = sources(alloc)?;
    match Desk::open(alloc, plan, sizes) {
        Ok(opened) => Ok(opened),
        Err(_) => Err(no_desk()),
    }
}

/// Completes each stage with its number.
fn complete_all(desk: &Desk, p: &mut Pass)
    requires { p.old.table ≡ desk.now.table }
    ensures { p.new.table ≡ p.old.table }
{
    for i in 0..STAGES {
        let _ = desk.act(p, Call::Complete(i, Value::Int(i32::from(i))));
    }
}

/// Completes each stage with its number once all threads are there, and leaves.
fn complete_together<R: Clock>(rt: &R, gate: &Gate, desk: &Desk, p: &mut Pass)
    requires { p.old.table ≡ desk.now.table }
    ensures { p.new.table ≡ p.old.table }
{
    gate.pass(rt);
    complete_all(desk, p);
    gate.leave(rt);
}

/// Lets each pass complete all stages, on a thread for each. They begin together.
fn race<R: Clock + Threads + Sync>(rt: &R, gate: &Gate, desk: &Desk, passes: &mut [Pass])
    requires { All (λ p. p.table ≡ desk.now.table) passes.old }
    ensures table { All (λ p. p.table ≡ desk.now.table) passes.new }
    ensures count { length passes.new ≡ length passes.old }
{
    let threads = passes.len().max(1);
    thread::for_each_mut(
        rt,
        passes,
        threads,
        &|_, p| complete_together(rt, gate, desk, p),
    );
}

/// What the desk holds after a race whose threads meet at a gate.
fn raced_through<R: Clock + Threads + Sync>(
    rt: &R,
    alloc: Global,
    gate: &Gate,
    callers: u8,
) -> io::Result<Closed> {
    let sizes = DeskSizes {
        callers,
        log: u16::from(callers).saturating_mul(STAGES),
        calls: STAGES,
    };
    let (desk, mut passes) = open(alloc, sizes)?;
    race(rt, gate, &desk, passes.as_mut_slice());
    match desk.close(passes) {
        Ok(closed) => Ok(closed),
        Err(_) => Err(not_closed()),
    }
}

/// A sum over the outcomes after a race, and the number of its events.
pub(crate) fn race_checksum<R: Clock + Threads + Sync>(
    rt: &R,
    alloc: Global,
    callers: u8,
) -> io::Result<(u64, usize)> {
    let gate = Gate::new(rt, callers)?;
    checksum_of(raced_through(rt, alloc, &gate, callers), STAGES)
}

/// How long the threads of a race took together.
fn race_time<R: Clock + Threads + Sync>(
    rt: &R,
    alloc: Global,
    callers: u8,
) -> io::Result<Duration> {
    let gate = Gate::new(rt, callers)?;
    drop(raced_through(rt, alloc, &gate, callers)?);
    gate.took()
}

/// What a race took, a stage. No `Work`, whose `R` couldn't be lent to the threads.
pub(crate) fn measured_race<R: Clock + Threads + Sync>(
    rt: &R,
    alloc: Global,
    callers: u8,
) -> io::Result<Shown> {
    let mut times = Times::new(alloc);
    race_rounds(rt, alloc, callers, &mut times)
}

fn race_rounds<R: Clock + Threads + Sync>(
    rt: &R,
    alloc: Global,
    callers: u8,
    times: &mut Times,
) -> io::Result<Shown> {
    times.reserve(ROUNDS)?;
    for _ in 0..ROUNDS {
        times.add(race_time(rt, alloc, callers)?)?;
    }
    Ok(times.a_part(STAGES))
}

/// Asks so many times for the outcome of a stage.
fn read_all(desk: &Desk, p: &mut Pass)
    requires { p.old.table ≡ desk.now.table }
    ensures { p.new.table ≡ p.old.table }
{
    for _ in 0..READS {
        let _ = desk.read(p, Ask::Outcome(0));
    }
}

/// The reads of the first pass.
fn read_first(desk: &Desk, passes: &mut [Pass])
    requires { All (λ p. p.table ≡ desk.now.table) passes.old }
{
    if let Some(p) = passes.first_mut() {
        read_all(desk, p);
    }
}

/// Reads at a desk that is opened for them.
#[derive(Clone, Copy)]
struct Reads {
    alloc: Global,
}

impl<R: Clock> Work<R> for Reads {
    fn round(&mut self, rt: &R, times: &mut Times) -> io::Result<()> {
        let sizes = DeskSizes {
            callers: 1,
            log: 1,
            calls: READS,
        };
        let (desk, mut passes) = open(self.alloc, sizes)?;
        let added = read_timed(rt, &desk, passes.as_mut_slice(), times);
        drop(passes);
        drop(desk);
        added
    }
}

/// Does the reads of the first pass, and adds what they took.
fn read_timed<R: Clock>(
    rt: &R,
    desk: &Desk,
    passes: &mut [Pass],
    times: &mut Times,
) -> io::Result<()>
    requires { All (λ p. p.table ≡ desk.now.table) passes.old }
{
    let start = Instant::now(rt)?;
    read_first(desk, passes);
    times.add_since(rt, start)
}

/// What a read took which found nothing new.
pub(crate) fn measured_read<R: Clock>(rt: &R, alloc: Global) -> io::Result<Shown> {
    measured(rt, alloc, ROUNDS, READS, &mut Reads { alloc })
}
