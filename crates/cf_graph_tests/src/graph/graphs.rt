//! Worked examples, each call once, graphs of each size, and a graph whose memory is refused.
use crate::checks::{holds, must};
use crate::event::graphs;
use crate::functions::Always;
use crate::graph::plans::{NONE, Rows, SOURCE, all_of, plan_of, plan_or_fault};
use crate::graph::steps::{
    Case, Step, fault, granted, granted_fault, graph_or_fault, play, take, value, waits_for,
};
use crate::graph::{attaching, restarting, working};
use cf_core::{Graph, GraphFault};
use cf_forms::{Answer, Args, Form, Limit, LimitKind, Of};
use cf_model::{Attached, Claimed, Failure, Finished, Ticked};
use cf_outcome::{Cause, Now, Outcome, Value};
use cf_plan::{Plan, PlanFault};
use std::alloc::Global;
use std::process::Abort;

const SOURCE_AND_APPLY: Rows = Rows {
    stages: &[SOURCE, (Form::Apply, &[0], Some(0))],
    ..NONE
};

const APPLIED: [Step; 16] = [
    Step::PlanStages(2),
    Step::LowestReady(None),
    Step::Claim(1, Claimed::NotReady),
    Step::Complete(0, 3, true),
    // It is settled.
    Step::Complete(0, 4, false),
    Step::LowestReady(Some(1)),
    // Ready is not settled.
    Step::Now(1, Now::Absent(Value::Int(-1))),
    granted!(1, 3),
    Step::Claim(1, Claimed::Taken),
    Step::Finish(1, Answer::Give(Value::Int(8)), Finished::Won),
    Step::Finish(1, Answer::Throw(2), Finished::NotYours),
    value!(0, 3),
    Step::Now(1, Now::Got(Value::Int(8))),
    Step::Claim(1, Claimed::Settled),
    Step::Nudge(4, 0),
    Step::Turns(1),
];

const CANCELLED: [Step; 9] = [
    Step::Complete(0, 1, true),
    granted!(2, 1),
    Step::Finish(2, Answer::Link(1), Finished::Won),
    Step::Outcome(2, None),
    Step::Cancel(1, true),
    // It is cancelled still.
    Step::Cancel(1, true),
    fault!(1, Cause::Cancelled, false),
    fault!(2, Cause::Cancelled, true),
    // It took the cancellation over.
    Step::Cancel(2, false),
];

const COMPOSED: Rows = Rows {
    stages: &[SOURCE, SOURCE, (Form::Compose, &[0], Some(0))],
    ..NONE
};

const TIMED_OUT: [Step; 10] = [
    Step::Complete(0, 1, true),
    granted!(2, 1),
    Step::FailAs(1, Failure::TimedOut(7), true),
    // It is settled.
    Step::FailAs(1, Failure::BadAnswer(8), false),
    fault!(1, Cause::TimedOut(7), false),
    Step::Now(1, Now::Completion(Cause::TimedOut(7))),
    Step::Cancel(1, false),
    Step::Finish(2, Answer::Link(1), Finished::Won),
    fault!(2, Cause::TimedOut(7), true),
    Step::FailAs(2, Failure::TimedOut(9), false),
];

const ANSWERED_BADLY: [Step; 6] = [
    Step::Complete(0, 1, true),
    granted!(2, 1),
    Step::FailAs(2, Failure::BadAnswer(4294967295), true),
    fault!(2, Cause::BadAnswer(4294967295), false),
    Step::Finish(2, Answer::Link(1), Finished::Late),
    fault!(2, Cause::BadAnswer(4294967295), false),
];

/// A source, an apply and a handle of it, and an exceptionally of the apply.
const DEPENDING: Rows = Rows {
    stages: &[
        SOURCE,
        (Form::Apply, &[0], Some(0)),
        (Form::Handle, &[0], Some(1)),
        (Form::Exceptionally, &[1], Some(2)),
    ],
    limits: &[Limit {
        stage: 0,
        at: 5,
        kind: LimitKind::Timeout(4294967295),
    }],
    ..NONE
};

/// What depends on a stage gets the code with its fault, and so do the functions.
const DEPEND_ON_CALL: [Step; 5] = [
    Step::FailAs(0, Failure::BadAnswer(9), true),
    fault!(1, Cause::BadAnswer(9), true),
    granted_fault!(2, Cause::BadAnswer(9), false),
    granted_fault!(3, Cause::BadAnswer(9), true),
    Step::Tick(5, Ticked::Fired(0)),
];

const DEPEND_ON_LIMIT: [Step; 6] = [
    Step::Tick(5, Ticked::Fired(1)),
    fault!(0, Cause::TimedOut(4294967295), false),
    fault!(1, Cause::TimedOut(4294967295), true),
    granted_fault!(2, Cause::TimedOut(4294967295), false),
    granted_fault!(3, Cause::TimedOut(4294967295), true),
    Step::FailAs(0, Failure::TimedOut(7), false),
];

/// Without a code, as with code 0.
const DEPEND_WITHOUT_CODE: [Step; 3] = [
    Step::FailAs(0, Failure::TimedOut(0), true),
    fault!(1, Cause::TimedOut(0), true),
    granted_fault!(3, Cause::TimedOut(0), true),
];

/// Two sources, and an exceptionallyCompose of the first.
const RECOVERING: Rows = Rows {
    stages: &[SOURCE, SOURCE, (Form::ExceptionallyCompose, &[0], Some(0))],
    ..NONE
};

const UNRECOVERED: [Step; 4] = [
    Step::Complete(0, 3, true),
    Step::LowestReady(None),
    Step::Claim(2, Claimed::Settled),
    value!(2, 3),
];

const RECOVERED: [Step; 6] = [
    Step::Fail(0, 7, true),
    granted_fault!(2, Cause::Thrown(7), false),
    Step::Finish(2, Answer::Link(1), Finished::Won),
    Step::Outcome(2, None),
    Step::Complete(1, 3, true),
    value!(2, 3),
];

/// The last is settled with a bad answer, for which nobody gave a code.
const IS_BAD: Step = fault!(2, Cause::BadAnswer(0), true);

/// The function of the last answers with no lower stage: with a value, with itself, or with a higher one.
const RECOVERY_GIVES: [Step; 4] = [
    Step::Cancel(0, true),
    granted_fault!(2, Cause::Cancelled, false),
    Step::Finish(2, Answer::Give(Value::Nil), Finished::Won),
    IS_BAD,
];

const RECOVERY_LINKS_TO_ITSELF: [Step; 4] = [
    Step::Cancel(0, true),
    granted_fault!(2, Cause::Cancelled, false),
    Step::Finish(2, Answer::Link(2), Finished::Won),
    IS_BAD,
];

const RECOVERY_LINKS_HIGHER: [Step; 4] = [
    Step::Cancel(0, true),
    granted_fault!(2, Cause::Cancelled, false),
    Step::Finish(2, Answer::Link(3), Finished::Won),
    IS_BAD,
];

const SUPPLY: Rows = Rows {
    stages: &[(Form::Supply, &[], Some(0))],
    ..NONE
};

const LATE: [Step; 4] = [
    Step::Claim(0, Claimed::Granted(Args::None)),
    Step::Fail(0, 7, true),
    Step::Finish(0, Answer::Give(Value::Nil), Finished::Late),
    fault!(0, Cause::Thrown(7), false),
];

const LIMITS: [Limit; 2] = [
    Limit {
        stage: 0,
        at: 5,
        kind: LimitKind::Give(Value::Int(1)),
    },
    Limit {
        stage: 0,
        at: 5,
        kind: LimitKind::Timeout(7),
    },
];

const LIMITED: Rows = Rows {
    stages: &[SOURCE],
    limits: &LIMITS,
    ..NONE
};

const FIRED: [Step; 5] = [
    Step::Tick(4, Ticked::Fired(0)),
    Step::Tick(5, Ticked::Fired(1)),
    Step::Tick(5, Ticked::Fired(0)),
    Step::Tick(4, Ticked::Past),
    value!(0, 1),
];

/// Two sources, and an anyOf of each.
const TWO_PAIRS: Rows = Rows {
    stages: &[
        SOURCE,
        (Form::AnyOf, &[0], None),
        SOURCE,
        (Form::AnyOf, &[2], None),
    ],
    ..NONE
};

const LEFT: [Step; 15] = [
    Step::Complete(0, 1, true),
    // What waits below is treated, and not what waits above.
    Step::Complete(2, 1, true),
    Step::Turns(1),
    Step::Restart,
    Step::Complete(2, 1, true),
    Step::Complete(0, 1, true),
    Step::Turns(0),
    Step::Tick(5, Ticked::Fired(0)),
    // It is settled, whatever waits below it.
    Step::Claim(2, Claimed::Settled),
    value!(2, 1),
    Step::Complete(2, 2, false),
    Step::Turns(0),
    Step::Finish(2, Answer::Give(Value::Int(1)), Finished::NotYours),
    Step::Turns(1),
    Step::Nudge(9, 1),
];

const MOST_SUPPLIES: Rows = Rows {
    alike: &[(4096, (Form::Supply, &[], Some(0)))],
    ..NONE
};

const ALL_CLAIMED: [Step; 2] = [Step::ClaimsEach(4096), Step::LowestReady(None)];

/// A source, and as many applies as there may be.
const LONGEST: Rows = Rows {
    stages: &[SOURCE],
    chain: 4095,
    ..NONE
};

const ASKED_AT_THE_END: [Step; 6] = [
    Step::Fail(0, 7, true),
    Step::Turns(0),
    Step::Nudge(10, 10),
    fault!(4095, Cause::Thrown(7), true),
    Step::Turns(4095),
    Step::Nudge(5, 0),
];

const FOURS: [Always; 1] = [Always {
    answer: Answer::Give(Value::Int(4)),
}];

const WORKED: [Step; 3] = [
    Step::Complete(0, 3, true),
    Step::Works(&FOURS, 63, 4095),
    value!(4095, 4),
];

const ALL_FIRED: [Step; 3] = [
    Step::Tick(4294967295, Ticked::Fired(1)),
    value!(4095, 1),
    Step::Turns(4095),
];

/// One source, 4,095 stages that name it four times, and 4,096 limits on it: the greatest plan but for four edges.
const GREATEST: Rows = Rows {
    alike: &[(1, SOURCE), (4095, (Form::AnyOf, &[0, 0, 0, 0], None))],
    gifts: 4096,
    ..NONE
};

static CASES: [Case; 19] = [
    Case {
        name: "an apply over a source",
        rows: &SOURCE_AND_APPLY,
        room: None,
        steps: &[&APPLIED],
    },
    Case {
        name: "cancelled through a link",
        rows: &COMPOSED,
        room: None,
        steps: &[&CANCELLED],
    },
    Case {
        name: "timed out through a link",
        rows: &COMPOSED,
        room: None,
        steps: &[&TIMED_OUT],
    },
    Case {
        name: "a bad answer before a link",
        rows: &COMPOSED,
        room: None,
        steps: &[&ANSWERED_BADLY],
    },
    Case {
        name: "a caller's code reaches what depends",
        rows: &DEPENDING,
        room: None,
        steps: &[&DEPEND_ON_CALL],
    },
    Case {
        name: "a limit's code reaches what depends",
        rows: &DEPENDING,
        room: None,
        steps: &[&DEPEND_ON_LIMIT],
    },
    Case {
        name: "no code reaches what depends",
        rows: &DEPENDING,
        room: None,
        steps: &[&DEPEND_WITHOUT_CODE],
    },
    Case {
        name: "a value needs no recovery",
        rows: &RECOVERING,
        room: None,
        steps: &[&UNRECOVERED],
    },
    Case {
        name: "a fault is recovered through a link",
        rows: &RECOVERING,
        room: None,
        steps: &[&RECOVERED],
    },
    Case {
        name: "a recovery gives a value",
        rows: &RECOVERING,
        room: None,
        steps: &[&RECOVERY_GIVES],
    },
    Case {
        name: "a recovery links to itself",
        rows: &RECOVERING,
        room: None,
        steps: &[&RECOVERY_LINKS_TO_ITSELF],
    },
    Case {
        name: "a recovery links higher",
        rows: &RECOVERING,
        room: None,
        steps: &[&RECOVERY_LINKS_HIGHER],
    },
    Case {
        name: "a late finish",
        rows: &SUPPLY,
        room: None,
        steps: &[&LATE],
    },
    Case {
        name: "limits fire in order",
        rows: &LIMITED,
        room: None,
        steps: &[&FIRED],
    },
    Case {
        name: "what is not asked for is left",
        rows: &TWO_PAIRS,
        room: None,
        steps: &[&LEFT],
    },
    Case {
        name: "the greatest graph",
        rows: &MOST_SUPPLIES,
        room: None,
        steps: &[&ALL_CLAIMED],
    },
    Case {
        name: "the longest chain, asked at the end",
        rows: &LONGEST,
        room: None,
        steps: &[&ASKED_AT_THE_END],
    },
    Case {
        name: "the longest chain, worked",
        rows: &LONGEST,
        room: None,
        steps: &[&WORKED],
    },
    Case {
        name: "the greatest plan, all fired",
        rows: &GREATEST,
        room: None,
        steps: &[&ALL_FIRED],
    },
];

#[test]
fn each_graph_answers_so(rt: HostRuntime) {
    play(&rt, rt.alloc(), &CASES);
    play(&rt, rt.alloc(), &attaching::CASES);
    play(&rt, rt.alloc(), &restarting::CASES);
    play(&rt, rt.alloc(), &working::CASES);
    play(&rt, rt.alloc(), &graphs::CASES);
}

/// A plan. Where its memory is refused, it is built again.
fn plan_again(rt: &impl Abort, alloc: Global, rows: &Rows) -> Plan {
    match plan_or_fault(alloc, rows) {
        Ok(plan) => plan,
        Err(fault) => {
            holds(rt, fault == PlanFault::NoMemory, fault);
            plan_of(rt, alloc, rows)
        }
    }
}

/// The graph of a plan. Where its memory is refused, one of another plan succeeds.
fn graph_again(rt: &impl Abort, alloc: Global, case: &Case) -> Graph {
    let plan = plan_again(rt, alloc, case.rows);
    match graph_or_fault(rt, alloc, plan, case.room) {
        Ok(graph) => graph,
        Err(fault) => {
            holds(rt, fault == GraphFault::NoMemory, fault);
            let plan = plan_of(rt, alloc, case.rows);
            must(rt, graph_or_fault(rt, alloc, plan, case.room))
        }
    }
}

const MADE_AGAIN: [Step; 4] = [
    Step::Complete(0, 3, true),
    granted!(1, 3),
    Step::Finish(1, Answer::Give(Value::Int(8)), Finished::Won),
    Step::Now(1, Now::Got(Value::Int(8))),
];

const TWO_SOURCES: Rows = Rows {
    stages: &[SOURCE, SOURCE],
    ..NONE
};

const GROWN_AGAIN: [Step; 3] = [
    Step::Attach(Form::ApplyEither, Of::Two(0, 1), Some(0), Attached::At(2)),
    Step::Complete(1, 3, true),
    granted!(2, 3),
];

static REFUSED: [Case; 2] = [
    Case {
        name: "a graph",
        rows: &SOURCE_AND_APPLY,
        room: None,
        steps: &[&MADE_AGAIN],
    },
    Case {
        name: "a growing graph",
        rows: &TWO_SOURCES,
        room: Some(2),
        steps: &[&GROWN_AGAIN],
    },
];

#[test]
fn a_refused_graph_can_be_made_again(rt: HostRuntime) {
    for case in &REFUSED {
        let mut graph = graph_again(&rt, rt.alloc(), case);
        take(&rt, rt.alloc(), &mut graph, case.name, case.steps);
        drop(graph);
    }
}

/// An allOf waits until the last of so many sources is completed.
fn waits_for_all(rt: &impl Abort, alloc: Global, sources: u16) {
    let mut graph = must(rt, Graph::new(alloc, all_of(rt, alloc, sources)));
    let waits = waits_for(&mut graph, sources);
    drop(graph);
    holds(rt, waits, sources);
}

static SIZES: [u16; 6] = [255, 256, 257, 1023, 1024, 1025];

#[test]
fn serves_graphs_of_each_size(rt: HostRuntime) {
    for sources in 0..130 {
        waits_for_all(&rt, rt.alloc(), sources);
    }
    for sources in &SIZES {
        waits_for_all(&rt, rt.alloc(), *sources);
    }
}
