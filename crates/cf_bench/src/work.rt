//! Settling a graph of one of the shapes, and summing up what came of it.
ghost use Rattle.std.specs.Prelude.{◌≡◌};
ghost use Rattle.cf_bench.specs.Answers.{number_of, one_more, sum_of};

use crate::shape::{Shape, sources_of};
use cf_core::Graph;
use cf_forms::{Answer, Args, Each, StageFn};
use cf_model::Claimed;
use cf_outcome::{Cause, Outcome, Value};

/// The caller that does all the work.
const WORKER: u8 = 0;

/// The function of all stages that have one, which the shapes give the number 0.
#[derive(Clone, Copy)]
pub(crate) struct OneMore;

impl StageFn for OneMore {
    ghost use Rattle.cf_bench.specs.Answers.{one_more};

    ghost meaning = { λ _ args. one_more args };

    fn call(&self, args: &Args) -> Answer {
        answer(*args)
    }
}

/// Settles the sources.
fn settle_sources(graph: &mut Graph, shape: Shape, stages: u16) {
    for i in 0..sources_of(shape, stages) {
        if graph.has(i) {
            if shape == Shape::FailedChain {
                graph.fail(i, 7);
            } else {
                graph.complete(i, Value::Int(i32::from(i)));
            }
        }
    }
}

/// Settles the sources, and then all stages whose function is due, the lowest first, a claim and a finish for each.
pub(crate) fn settle(graph: &mut Graph, shape: Shape, stages: u16) {
    settle_sources(graph, shape, stages);
    for _ in 0..stages {
        if !work_once(graph) {
            break;
        }
    }
}

/// The same in one call for all stages whose function is due.
pub(crate) fn settle_at_once(graph: &mut Graph, shape: Shape, stages: u16) {
    settle_sources(graph, shape, stages);
    graph.work(
        WORKER,
        &mut Each {
            functions: [OneMore].as_slice(),
        },
    );
}

/// Runs the function of the lowest ready stage, if a stage is ready.
fn work_once(graph: &mut Graph) -> bool {
    let Some(i) = graph.lowest_ready() else {
        return false;
    };
    if !graph.has(i) {
        return false;
    }
    let Claimed::Granted(args) = graph.claim(WORKER, i) else {
        return false;
    };
    graph.finish(WORKER, i, answer(args));
    true
}

/// One more than the sum of the arguments.
fn answer(args: Args) -> Answer
    ensures { result ≡ one_more args }
{
    Answer::Give(Value::Int(sum(args).wrapping_add(1)))
}

/// The sum of the arguments.
fn sum(args: Args) -> i32
    ensures { result ≡ sum_of args }
{
    match args {
        Args::One(v) => number(v),
        Args::Two(v, w) => number(v).wrapping_add(number(w)),
        Args::None | Args::Got(_) => 0,
    }
}

fn number(v: Value) -> i32
    ensures { result ≡ number_of v }
{
    match v {
        Value::Nil => 0,
        Value::Int(n) => n,
    }
}

/// A sum over the outcomes of all stages, in which their order counts.
pub(crate) fn checksum(graph: &mut Graph, stages: u16) -> u64 {
    let mut sum = 0u64;
    for i in 0..stages {
        if graph.has(i) {
            sum = sum.wrapping_mul(31).wrapping_add(code(graph.outcome(i)));
        }
    }
    sum
}

/// A number for an outcome, or for none.
fn code(outcome: Option<Outcome>) -> u64 {
    match outcome {
        None => 1,
        Some(Outcome::Value(Value::Nil)) => 2,
        Some(Outcome::Value(Value::Int(n))) => 3 + u64::from(n.unsigned_abs()),
        Some(
            Outcome::Fault {
                cause: Cause::Thrown(code),
                ..
            },
        ) => 5 + u64::from(code),
        Some(Outcome::Fault { .. }) => 4,
    }
}
