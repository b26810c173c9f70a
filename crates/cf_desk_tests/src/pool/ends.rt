//! What a graph and work over a desk come to, as rows.
use crate::checks::holds;
use cf_core::Graph;
use cf_desk::{Closed, DeskFault};
use cf_model::Event;
use cf_outcome::{Outcome, Value};
use cf_pool::Done;
use std::process::Abort;

/// What stopped a worker, if anything did, what a worker did that nothing stopped, and the closed desk.
#[derive(Drop)]
pub(crate) struct Ended {
    pub(crate) fault: Option<DeskFault>,
    pub(crate) done: Option<Done>,
    pub(crate) closed: Closed,
}

/// What work came to.
#[derive(Clone, Copy)]
pub(crate) enum End {
    /// A worker was stopped by this, or none was.
    Fault(Option<DeskFault>),
    Did(Done),
    /// A stage has this outcome, or isn't settled.
    Has(u16, Option<Outcome>),
    /// So many events.
    Events(usize),
    History(&'static [Event]),
    /// So many passes were handed in.
    Passes(usize),
    /// Of the first so many stages so many are settled.
    Settled(u16, u16),
    /// Of the first so many stages at least so many are settled.
    SettledAtLeast(u16, u16),
    /// A stage is ready, or none is.
    IsReady(bool),
}

/// What a stage is settled with that gives 4, and so on.
pub(crate) const FOUR: Option<Outcome> = Some(Outcome::Value(Value::Int(4)));

pub(crate) const SIX: Option<Outcome> = Some(Outcome::Value(Value::Int(6)));

pub(crate) const SEVEN: Option<Outcome> = Some(Outcome::Value(Value::Int(7)));

/// Whether a stage is there and has this outcome.
fn has_outcome(graph: &mut Graph, stage: u16, outcome: Option<Outcome>) -> bool {
    graph.has(stage) && graph.outcome(stage) == outcome
}

/// How many of these stages are settled.
fn settled(graph: &mut Graph, stages: u16) -> u16 {
    let mut count = 0u16;
    for i in 0..stages {
        if graph.has(i) && graph.outcome(i).is_some() {
            count = count.wrapping_add(1);
        }
    }
    count
}

/// Whether work came to this.
fn is_so(ended: &mut Ended, end: End) -> bool {
    match end {
        End::Fault(fault) => ended.fault == fault,
        End::Did(done) => ended.done == Some(done),
        End::Has(stage, outcome) => has_outcome(&mut ended.closed.graph, stage, outcome),
        End::Events(count) => ended.closed.history.len() == count,
        End::History(events) => ended.closed.history.as_slice() == events,
        End::Passes(count) => ended.closed.passes.len() == count,
        End::Settled(stages, count) => settled(&mut ended.closed.graph, stages) == count,
        End::SettledAtLeast(stages, count) => settled(&mut ended.closed.graph, stages) >= count,
        End::IsReady(is_there) => ended.closed.graph.lowest_ready().is_some() == is_there,
    }
}

/// Work came to all of this.
pub(crate) fn check_ends(rt: &impl Abort, mut ended: Ended, ends: &[End]) {
    for (at, end) in ends.iter().enumerate() {
        holds(rt, is_so(&mut ended, *end), ("end", at));
    }
    drop(ended);
}
