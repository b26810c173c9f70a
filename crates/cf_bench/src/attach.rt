//! Attaching a stage to each stage of a graph of which the first half is settled.
use crate::graphs::graph_or_none;
use crate::shape::{Shape, no_plan, plan_of};
use crate::times::{Shown, Times, Work, measured};
use crate::work::{checksum, settle};
use cf_core::Graph;
use cf_forms::{Form, Of};
use cf_plan::Plan;
use std::alloc::Global;
use std::io::{Error, Result};
use std::time::{Clock, Instant};

/// How many stages the graph is opened with, and how many are attached.
const STAGES: u16 = 2048;

const ROUNDS: u32 = 200;

/// A chain whose first half is settled, with room for as many stages as it has.
fn half_settled(alloc: Global) -> Result<Graph> {
    match plan_of(alloc, Shape::Chain, STAGES) {
        Ok(plan) => half_settled_of(alloc, plan),
        Err(_) => Err(no_plan()),
    }
}

fn half_settled_of(alloc: Global, plan: Plan) -> Result<Graph> {
    let mut graph = roomy(alloc, plan)?;
    settle(&mut graph, Shape::Chain, STAGES / 2);
    Ok(graph)
}

/// A graph of the chain, with room for as many stages as it has.
fn roomy(alloc: Global, plan: Plan) -> Result<Graph> {
    if plan.has_place(STAGES) {
        graph_or_none(Graph::new_growing(alloc, plan, STAGES))
    } else {
        Err(Error::other("the plan is another one"))
    }
}

/// Attaches an apply of each stage that the graph was opened with.
fn attach_all(graph: &mut Graph) {
    for i in 0..STAGES {
        if graph.has(i) {
            graph.attach(Form::Apply, Of::One(i), Some(0));
        }
    }
}

/// Attaching to a graph that is made for it.
#[derive(Clone, Copy)]
struct Attaching {
    alloc: Global,
}

impl<R: Clock> Work<R> for Attaching {
    fn round(&mut self, rt: &R, times: &mut Times) -> Result<()> {
        let mut graph = half_settled(self.alloc)?;
        let added = attach_timed(rt, &mut graph, times);
        drop(graph);
        added
    }
}

/// Attaches all stages, and adds what it took.
fn attach_timed<R: Clock>(rt: &R, graph: &mut Graph, times: &mut Times) -> Result<()> {
    let start = Instant::now(rt)?;
    attach_all(graph);
    times.add_since(rt, start)
}

/// What attaching a stage took.
pub(crate) fn measured_attach<R: Clock>(rt: &R, alloc: Global) -> Result<Shown> {
    measured(rt, alloc, ROUNDS, STAGES, &mut Attaching { alloc })
}

/// How many stages there are then, and a checksum of all outcomes once the attached ones that are ready are done.
pub(crate) fn attach_checksum(alloc: Global) -> Result<(u16, u64)> {
    let mut graph = half_settled(alloc)?;
    attach_all(&mut graph);
    let stages = graph.stages();
    settle(&mut graph, Shape::Chain, stages);
    let sum = checksum(&mut graph, stages);
    drop(graph);
    Ok((stages, sum))
}
