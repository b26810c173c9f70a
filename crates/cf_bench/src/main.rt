//! Builds and settles graphs of five shapes at three sizes, and measures other calls that take time.
//!
//! Without arguments it prints checksums of the outcomes, which don't depend on the machine. Each graph is settled in three
//! ways: by a claim and a finish for each stage, by one call of `work`, and by one call of `work` after a restart. Then come
//! the checksums of the report of a script of 1 MiB, of stages that are attached one by one, of 1, 2 and 4 threads that
//! complete the same 4,095 stages through one desk, and of a desk over a chain of 16 stages.
//!
//! With the argument `time` it prints how long each takes: the best and the median of many rounds, in picoseconds, and the
//! number of rounds.
//!
//! - `from scratch`: building a plan with its room and a graph of it, and settling the graph; per stage.
//! - `per request`: restarting a graph and settling it; per stage.
//! - `json`: reading the bytes of the script as JSON, and dropping the value.
//! - `script`: running the script.
//! - `attach`: attaching a stage.
//! - `race`: completing the same stages by several threads, from when all threads are there to the end of the last; per
//!   stage.
//! - `desk`: opening a desk for several callers over a plan, settling its 16 stages, letting each caller see them, and
//!   closing the desk; all of it together.
//! - `read`: a read that finds nothing new.
//! - `call graph`, `call desk`: a call of each kind over a fan-out of 512, on a graph and on a desk with one caller; and a
//!   completion of a source of an allOf of 512.
#![tactic(auto)]

mod args;
mod attach;
mod calls;
mod desk;
mod gate;
mod graphs;
mod race;
mod script;
mod shape;
mod times;
mod work;

use args::{Words, read_words};
use attach::{attach_checksum, measured_attach};
use calls::{Calls, measured_completions, measured_desk_calls, measured_graph_calls};
use desk::{desk_checksum, measured_desk};
use graphs::{measured_from_scratch, measured_per_request, sums_of};
use race::{measured_race, measured_read, race_checksum};
use script::{measured_json, measured_script, report_checksum, script_text};
use shape::Shape;
use std::alloc::Global;
use std::io::{Error, Result};
use std::process::ExitCode;
use std::thread::Threads;
use std::time::Clock;
use times::Shown;

const SIZES: [u16; 3] = [64, 512, 4095];

const SHAPES: [Shape; 5] = [
    Shape::Chain,
    Shape::FailedChain,
    Shape::FanOut,
    Shape::CombineTree,
    Shape::AllOf,
];

/// Prints the checksums of the outcomes of a shape at a size.
fn show_sums<R: Print>(rt: &R, alloc: Global, shape: Shape, stages: u16) -> Result<()> {
    let sums = sums_of(alloc, shape, stages)?;
    let (calls, work, again) = (sums.calls, sums.work, sums.again);
    println!(rt; "{shape} {stages}: checksum {calls}, by work {work}, after a restart {again}")
}

/// Prints how long a shape takes at a size, from scratch and per request.
fn show_graphs<R: Clock + Print>(rt: &R, alloc: Global, shape: Shape, stages: u16) -> Result<()> {
    let took = measured_from_scratch(rt, alloc, shape, stages)?;
    show_graph(rt, "from scratch", shape, stages, took)?;
    let took = measured_per_request(rt, alloc, shape, stages)?;
    show_graph(rt, "per request", shape, stages, took)
}

fn show_graph<R: Print>(rt: &R, what: &str, shape: Shape, stages: u16, took: Shown) -> Result<()> {
    println!(rt; "{what} {shape} {stages}: {took}")
}

/// Prints how long something takes.
fn show_took<R: Print>(rt: &R, what: &str, took: Shown) -> Result<()> {
    println!(rt; "{what}: {took}")
}

/// Prints what came of a shape at a size: how long it took, or checksums.
fn show_shape<R: Clock + Print>(
    rt: &R,
    alloc: Global,
    timed: bool,
    shape: Shape,
    stages: u16,
) -> Result<()> {
    if timed {
        show_graphs(rt, alloc, shape, stages)
    } else {
        show_sums(rt, alloc, shape, stages)
    }
}

/// The same for the script.
fn show_script<R: Clock + Print>(rt: &R, alloc: Global, timed: bool) -> Result<()> {
    let text = script_text(alloc)?;
    if timed {
        show_script_times(rt, alloc, &text)
    } else {
        show_script_sum(rt, alloc, &text)
    }
}

fn show_script_times<R: Clock + Print>(rt: &R, alloc: Global, text: &str) -> Result<()> {
    show_took(rt, "json", measured_json(rt, alloc, text)?)?;
    show_took(rt, "script", measured_script(rt, alloc, text)?)
}

fn show_script_sum<R: Print>(rt: &R, alloc: Global, text: &str) -> Result<()> {
    let sum = report_checksum(alloc, text)?;
    println!(rt; "script: checksum {sum}")
}

/// The same for stages that are attached.
fn show_attach<R: Clock + Print>(rt: &R, alloc: Global, timed: bool) -> Result<()> {
    if timed {
        show_took(rt, "attach", measured_attach(rt, alloc)?)
    } else {
        show_attach_sum(rt, alloc)
    }
}

fn show_attach_sum<R: Print>(rt: &R, alloc: Global) -> Result<()> {
    let (stages, sum) = attach_checksum(alloc)?;
    println!(rt; "attach: {stages} stages, checksum {sum}")
}

/// The same for threads over one desk.
fn show_race<R: Clock + Print + Threads + Sync>(
    rt: &R,
    alloc: Global,
    timed: bool,
    threads: u8,
) -> Result<()> {
    if timed {
        show_shared_time(rt, "race", threads, measured_race(rt, alloc, threads)?)
    } else {
        show_shared_sum(rt, "race", threads, race_checksum(rt, alloc, threads)?)
    }
}

/// Prints how long something takes that so many share.
fn show_shared_time<R: Print>(rt: &R, what: &str, count: u8, took: Shown) -> Result<()> {
    println!(rt; "{what} {count}: {took}")
}

/// Prints the checksum of something that so many share, and its number of events.
fn show_shared_sum<R: Print>(rt: &R, what: &str, count: u8, gave: (u64, usize)) -> Result<()> {
    let (sum, events) = gave;
    println!(rt; "{what} {count}: {events} events, checksum {sum}")
}

/// The same for a desk over a few stages.
fn show_desk<R: Clock + Print>(rt: &R, alloc: Global, timed: bool, callers: u8) -> Result<()> {
    if timed {
        show_shared_time(rt, "desk", callers, measured_desk(rt, alloc, callers)?)
    } else {
        show_shared_sum(rt, "desk", callers, desk_checksum(alloc, callers)?)
    }
}

/// How long a read that finds nothing new takes.
fn show_read<R: Clock + Print>(rt: &R, alloc: Global) -> Result<()> {
    show_took(rt, "read", measured_read(rt, alloc)?)
}

/// How long each kind of call takes.
fn show_calls<R: Print>(rt: &R, of: &str, calls: Calls) -> Result<()> {
    show_call(rt, of, "ready", calls.ready)?;
    show_call(rt, of, "claim", calls.claim)?;
    show_call(rt, of, "finish", calls.finish)?;
    show_call(rt, of, "outcome", calls.outcome)
}

fn show_call<R: Print>(rt: &R, of: &str, call: &str, took: Shown) -> Result<()> {
    println!(rt; "call {of} {call}: {took}")
}

fn show_shapes<R: Clock + Print>(rt: &R, alloc: Global, timed: bool) -> Result<()> {
    for shape in &SHAPES {
        show_sizes(rt, alloc, timed, *shape)?;
    }
    Ok(())
}

fn show_sizes<R: Clock + Print>(rt: &R, alloc: Global, timed: bool, shape: Shape) -> Result<()> {
    for stages in &SIZES {
        show_shape(rt, alloc, timed, shape, *stages)?;
    }
    Ok(())
}

fn show_races<R: Clock + Print + Threads + Sync>(rt: &R, alloc: Global, timed: bool) -> Result<()> {
    for threads in &[1, 2, 4] {
        show_race(rt, alloc, timed, *threads)?;
    }
    Ok(())
}

fn show_desks<R: Clock + Print>(rt: &R, alloc: Global, timed: bool) -> Result<()> {
    for callers in &[1, 4] {
        show_desk(rt, alloc, timed, *callers)?;
    }
    Ok(())
}

/// Shows everything.
fn show_all<R: Clock + Print + Threads + Sync>(rt: &R, alloc: Global, timed: bool) -> Result<()> {
    show_shapes(rt, alloc, timed)?;
    show_script(rt, alloc, timed)?;
    show_attach(rt, alloc, timed)?;
    show_races(rt, alloc, timed)?;
    show_desks(rt, alloc, timed)?;
    if timed {
        show_all_calls(rt, alloc)
    } else {
        Ok(())
    }
}

/// How long single calls take.
fn show_all_calls<R: Clock + Print>(rt: &R, alloc: Global) -> Result<()> {
    show_read(rt, alloc)?;
    show_took(rt, "call graph complete", measured_completions(rt, alloc)?)?;
    show_calls(rt, "graph", measured_graph_calls(rt, alloc)?)?;
    show_calls(rt, "desk", measured_desk_calls(rt, alloc)?)
}

fn main(rt: HostRuntime) -> ExitCode {
    match read_words(&rt) {
        Ok(Words::Show { timed }) => ended(&rt, show_all(&rt, rt.alloc(), timed)),
        Ok(Words::Nothing(status)) => ExitCode::from(status),
        Err(fault) => ended(&rt, Err(fault)),
    }
}

/// The status to end with. It says why not everything was shown.
fn ended<R: Eprint>(rt: &R, shown: Result<()>) -> ExitCode {
    match shown {
        Ok(()) => ExitCode::SUCCESS,
        Err(fault) => failed(rt, fault),
    }
}

fn failed<R: Eprint>(rt: &R, fault: Error) -> ExitCode {
    let _ = eprintln!(rt; "Error: {fault}");
    ExitCode::FAILURE
}
