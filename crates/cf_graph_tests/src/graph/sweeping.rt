//! A sweep that stops at each function: where it stops, and what the graph is then.
use crate::checks::{holds, must};
use crate::graph::plans::{NONE, Rows, SOURCE, plan_of};
use crate::graph::steps::{Step, fault, take, value};
use cf_core::{Graph, Stop, Sweep};
use cf_forms::{Answer, Args, Form};
use cf_outcome::{Cause, Value};

/// Whether a sweep stops at these places, one after another, and at none behind them, where each function answers so.
fn stops(sweep: &mut Sweep, all: &[(u16, u16, i32, Answer)]) -> bool {
    for (stage, function, n, answer) in all {
        let stop = Stop {
            stage: *stage,
            function: Some(*function),
            args: Args::One(Value::Int(*n)),
        };
        if sweep.stands().is_some() || sweep.next() != Some(stop) {
            return false;
        }
        if sweep.stands().is_none() || sweep.is_over() {
            return false;
        }
        sweep.land(*answer);
    }
    sweep.stands().is_none() && sweep.next().is_none()
}

/// Three applies and a compose behind a source, each ready in turn, and a source that is never settled.
static ROWS: Rows = Rows {
    stages: &[
        SOURCE,
        (Form::Apply, &[0], Some(7)),
        (Form::Apply, &[0], Some(5)),
        (Form::Compose, &[1], Some(3)),
        (Form::Apply, &[3], Some(4)),
        SOURCE,
    ],
    ..NONE
};

/// A stage at which a sweep stops, its function, that one's number, and its answer.
const STOPS: [(u16, u16, i32, Answer); 4] = [
    (1, 7, 2, Answer::Give(Value::Int(8))),
    (2, 5, 2, Answer::Throw(9)),
    (3, 3, 8, Answer::Link(1)),
    (4, 4, 8, Answer::Give(Value::Int(6))),
];

const SWEPT: [Step; 6] = [
    Step::LowestReady(None),
    value!(1, 8),
    fault!(2, Cause::Thrown(9), true),
    value!(3, 8),
    value!(4, 6),
    Step::Outcome(5, None),
];

const NOT_SWEPT: [Step; 3] = [
    Step::Complete(0, 2, true),
    Step::LowestReady(Some(1)),
    Step::Outcome(1, None),
];

/// What is done before a sweep, where it stops, and what its graph is like then.
static SWEEPS: [(&[Step], &[(u16, u16, i32, Answer)], &[Step]); 2] = [
    (&[Step::Complete(0, 2, true)], &STOPS, &SWEPT),
    // Nothing is ready.
    (&[], &[], &NOT_SWEPT),
];

#[test]
fn a_sweep_stops_at_each_function(rt: HostRuntime) {
    for (before, all, after) in &SWEEPS {
        let plan = plan_of(&rt, rt.alloc(), &ROWS);
        let mut graph = must(&rt, Graph::new(rt.alloc(), plan));
        take(&rt, rt.alloc(), &mut graph, "before", &[before]);
        let mut sweep = Sweep::begin(graph);
        let begins = !sweep.is_over();
        let stops = stops(&mut sweep, all);
        holds(&rt, begins && stops && sweep.is_over(), "stops");
        let mut graph = sweep.end();
        take(&rt, rt.alloc(), &mut graph, "after", &[after]);
        drop(graph);
    }
}
