//! A graph and a reference graph of one plan, which must answer alike whatever is done to both.
use crate::checks::{holds, must};
use cf_core::Graph;
use cf_model::{Event, Reply};
use cf_reference::ReferenceGraph;
use std::alloc::Global;
use std::process::Abort;

/// Both.
#[derive(Drop)]
pub(crate) struct Both {
    pub(crate) graph: Graph,
    pub(crate) reference: ReferenceGraph,
}

/// Both answer an event, and alike.
pub(crate) fn answer(rt: &impl Abort, alloc: Global, both: &mut Both, event: Event) -> Reply {
    let Both { graph, reference } = both;
    holds(
        rt,
        graph.takes(&event) && event.fits(reference.stages()),
        event,
    );
    let wanted = must(rt, reference.answer(alloc, &event));
    let reply = graph.answer(&event);
    holds(rt, reply == wanted, event);
    reply
}

/// Lets the graph take up to three turns, which it counts.
pub(crate) fn nudge(rt: &impl Abort, graph: &mut Graph, turns: u32) {
    let before = graph.turns();
    let taken = graph.nudge(turns);
    holds(
        rt,
        graph.turns() == before.wrapping_add(taken as u64),
        "turns",
    );
}

/// Whether both tell the same of a stage that both have.
fn is_alike(both: &mut Both, i: u16) -> bool {
    let Both { graph, reference } = both;
    graph.has(i) && reference.has(i) && graph.outcome(i) == reference.outcome(i)
}

/// Both tell the same of each of so many stages, and of which is ready.
pub(crate) fn assert_alike(rt: &impl Abort, both: &mut Both, stages: u16) {
    holds(
        rt,
        both.graph.lowest_ready() == both.reference.lowest_ready(),
        "ready",
    );
    for i in 0..stages {
        holds(rt, is_alike(both, i), ("stage", i));
    }
}
