//! Graphs of the shapes: what came of them, and how long it took.
use crate::shape::{Shape, no_plan, plan_of};
use crate::times::{Shown, Times, Work, measured};
use crate::work::{checksum, settle, settle_at_once};
use cf_core::{Graph, GraphFault};
use std::alloc::Global;
use std::io;
use std::time::{Clock, Instant};

/// How many stages are settled for one measurement, over all of its rounds.
const STAGES_A_SHAPE: u32 = 4_095_000;

/// A new graph of a shape, whose plan is built for it.
pub(crate) fn graph_of(alloc: Global, shape: Shape, stages: u16) -> io::Result<Graph> {
    match plan_of(alloc, shape, stages) {
        Ok(plan) => graph_or_none(Graph::new(alloc, plan)),
        Err(_) => Err(no_plan()),
    }
}

pub(crate) fn graph_or_none(graph: Result<Graph, GraphFault>) -> io::Result<Graph> {
    match graph {
        Ok(graph) => Ok(graph),
        Err(_) => Err(io::Error::other("no memory for the graph")),
    }
}

/// Checksums of all outcomes of a graph of a shape.
#[derive(Clone, Copy)]
pub(crate) struct Sums {
    /// Settled by a claim and a finish for each stage.
    pub(crate) calls: u64,
    /// Settled by one call of `work`.
    pub(crate) work: u64,
    /// Settled by one call of `work` after a restart.
    pub(crate) again: u64,
}

/// The checksums of a shape at a size.
pub(crate) fn sums_of(alloc: Global, shape: Shape, stages: u16) -> io::Result<Sums> {
    let (calls, again) = sums_before_and_after(alloc, shape, stages)?;
    let work = sum_of_new(alloc, shape, stages)?;
    Ok(Sums { calls, work, again })
}

/// The checksum of a new graph that one call of `work` settles.
fn sum_of_new(alloc: Global, shape: Shape, stages: u16) -> io::Result<u64> {
    let mut graph = graph_of(alloc, shape, stages)?;
    let sum = sum_by_work(&mut graph, shape, stages);
    drop(graph);
    Ok(sum)
}

/// The checksum of a graph that is settled by a claim and a finish for each stage, and then that after a restart.
fn sums_before_and_after(alloc: Global, shape: Shape, stages: u16) -> io::Result<(u64, u64)> {
    let mut graph = graph_of(alloc, shape, stages)?;
    settle(&mut graph, shape, stages);
    let calls = checksum(&mut graph, stages);
    graph.restart();
    let again = sum_by_work(&mut graph, shape, stages);
    drop(graph);
    Ok((calls, again))
}

/// The checksum of a graph that one call of `work` settles.
fn sum_by_work(graph: &mut Graph, shape: Shape, stages: u16) -> u64 {
    settle_at_once(graph, shape, stages);
    checksum(graph, stages)
}

fn rounds_of(stages: u16) -> u32 {
    STAGES_A_SHAPE / u32::from(stages).max(1)
}

/// Building a plan with its room and a graph of it, and settling all its stages.
#[derive(Clone, Copy)]
struct FromScratch {
    alloc: Global,
    shape: Shape,
    stages: u16,
}

impl<R: Clock> Work<R> for FromScratch {
    fn round(&mut self, rt: &R, times: &mut Times) -> io::Result<()> {
        let start = Instant::now(rt)?;
        let mut graph = graph_of(self.alloc, self.shape, self.stages)?;
        settle_at_once(&mut graph, self.shape, self.stages);
        let added = times.add_since(rt, start);
        drop(graph);
        added
    }
}

/// What building a plan with its room and a graph of it, and settling all its stages took, a stage. That the graph is
/// let go isn't counted.
pub(crate) fn measured_from_scratch<R: Clock>(
    rt: &R,
    alloc: Global,
    shape: Shape,
    stages: u16,
) -> io::Result<Shown> {
    let mut work = FromScratch {
        alloc,
        shape,
        stages,
    };
    measured(rt, alloc, rounds_of(stages), stages, &mut work)
}

/// Restarting a graph that is there, and settling all its stages again, as each request has to.
#[derive(Drop)]
struct PerRequest<'a> {
    graph: &'a mut Graph,
    shape: Shape,
    stages: u16,
}

impl<R: Clock> Work<R> for PerRequest<'_> {
    fn round(&mut self, rt: &R, times: &mut Times) -> io::Result<()> {
        let start = Instant::now(rt)?;
        self.graph.restart();
        settle_at_once(self.graph, self.shape, self.stages);
        times.add_since(rt, start)
    }
}

/// What restarting a graph that is there and settling all its stages again took, a stage.
pub(crate) fn measured_per_request<R: Clock>(
    rt: &R,
    alloc: Global,
    shape: Shape,
    stages: u16,
) -> io::Result<Shown> {
    let mut graph = graph_of(alloc, shape, stages)?;
    settle_at_once(&mut graph, shape, stages);
    let took = measured_again(rt, alloc, &mut graph, shape, stages);
    drop(graph);
    took
}

fn measured_again<R: Clock>(
    rt: &R,
    alloc: Global,
    graph: &mut Graph,
    shape: Shape,
    stages: u16,
) -> io::Result<Shown> {
    let mut work = PerRequest {
        graph,
        shape,
        stages,
    };
    measured(rt, alloc, rounds_of(stages), stages, &mut work)
}
