//! Work: chains, links and faults, how many functions are called, with what, and in which order.
use crate::checks::{holds, must};
use crate::functions::Always;
use crate::graph::plans::{NONE, Rows, SOURCE, plan_of};
use crate::graph::steps::{Case, Step, fault, granted, take, value};
use cf_core::Graph;
use cf_forms::{Answer, Args, Closure, Form};
use cf_model::{Claimed, Finished};
use cf_outcome::{Cause, Outcome, Value};
use std::alloc::Global;
use std::process::Abort;

/// Functions that give 4, 5 and 6.
const FUNCTIONS: [Always; 3] = [
    Always {
        answer: Answer::Give(Value::Int(4)),
    },
    Always {
        answer: Answer::Give(Value::Int(5)),
    },
    Always {
        answer: Answer::Give(Value::Int(6)),
    },
];

/// A function that gives 4.
const FOURS: [Always; 1] = [Always {
    answer: Answer::Give(Value::Int(4)),
}];

const DOWN: [Step; 8] = [
    // Nothing is ready.
    Step::Works(&FUNCTIONS, 63, 0),
    Step::Complete(0, 3, true),
    Step::Works(&FUNCTIONS, 63, 3),
    value!(1, 4),
    value!(3, 6),
    Step::Turns(3),
    // Each was called once.
    Step::Works(&FUNCTIONS, 63, 0),
    Step::Claim(3, Claimed::Settled),
];

const CHAIN: Rows = Rows {
    stages: &[
        SOURCE,
        (Form::Apply, &[0], Some(0)),
        (Form::Apply, &[1], Some(1)),
        (Form::Apply, &[2], Some(2)),
    ],
    ..NONE
};

const LINKS: [Always; 1] = [Always {
    answer: Answer::Link(1),
}];

const THROUGH_LINKS: [Step; 9] = [
    Step::Complete(0, 3, true),
    Step::Works(&LINKS, 0, 1),
    // It is linked.
    Step::Outcome(2, None),
    Step::Claim(2, Claimed::Taken),
    // No claim is left open.
    Step::Finish(2, Answer::Give(Value::Nil), Finished::NotYours),
    Step::Complete(1, 4, true),
    value!(2, 4),
    Step::Works(&LINKS, 0, 1),
    // Its target is settled.
    value!(3, 4),
];

const COMPOSED: Rows = Rows {
    stages: &[
        SOURCE,
        SOURCE,
        (Form::Compose, &[0], Some(0)),
        (Form::Compose, &[2], Some(0)),
    ],
    ..NONE
};

const THROWS: [Always; 2] = [
    Always {
        answer: Answer::Throw(7),
    },
    Always {
        answer: Answer::Give(Value::Int(4)),
    },
];

const FAILED: [Step; 4] = [
    // No function after a fault.
    Step::Works(&THROWS, 1, 2),
    fault!(0, Cause::Thrown(7), true),
    fault!(1, Cause::Thrown(7), true),
    // There is no function 2.
    Step::Outcome(2, Some(Outcome::Value(Value::Nil))),
];

const SUPPLIES: Rows = Rows {
    stages: &[
        (Form::Supply, &[], Some(0)),
        (Form::Apply, &[0], Some(1)),
        (Form::Supply, &[], Some(2)),
    ],
    ..NONE
};

const PAST: [Step; 8] = [
    Step::Complete(0, 3, true),
    granted!(1, 3),
    Step::Works(&FOURS, 1, 1),
    Step::Outcome(1, None),
    value!(2, 4),
    Step::Finish(1, Answer::Give(Value::Int(9)), Finished::Won),
    Step::Works(&FOURS, 1, 1),
    value!(3, 4),
];

const APPLIES: Rows = Rows {
    stages: &[
        SOURCE,
        (Form::Apply, &[0], Some(0)),
        (Form::Apply, &[0], Some(0)),
        (Form::Apply, &[1], Some(0)),
    ],
    ..NONE
};

const FEW: [Step; 7] = [
    Step::Complete(199, 3, true),
    Step::Works(&FOURS, 0, 2),
    value!(201, 4),
    Step::Complete(0, 3, true),
    Step::Works(&FOURS, 0, 1),
    value!(1, 4),
    Step::Outcome(2, None),
];

/// 256 sources, but for three applies.
const MANY: Rows = Rows {
    alike: &[
        (1, SOURCE),
        (1, (Form::Apply, &[0], Some(0))),
        (198, SOURCE),
        (1, (Form::Apply, &[199], Some(0))),
        (1, (Form::Apply, &[200], Some(0))),
        (54, SOURCE),
    ],
    ..NONE
};

/// Functions with numbers of their own.
const NUMBERED: Rows = Rows {
    stages: &[
        SOURCE,
        (Form::Apply, &[0], Some(7)),
        (Form::Combine, &[0, 1], Some(5)),
        (Form::ThenRun, &[2], Some(7)),
        SOURCE,
        (Form::Apply, &[4], Some(9)),
    ],
    ..NONE
};

/// What is called once stage 0 is there.
const CALLS: [(u16, Args); 3] = [
    (7, Args::One(Value::Int(3))),
    (5, Args::Two(Value::Int(3), Value::Int(1))),
    (7, Args::None),
];

/// In a sweep, or the first by the marks and the others in a sweep.
const SWEPT: [Step; 2] = [Step::Complete(0, 3, true), Step::Notes(&CALLS)];

const MARKED: [Step; 3] = [
    Step::Complete(0, 3, true),
    Step::Nudge(9, 2),
    Step::Notes(&CALLS),
];

/// No function is called that another has claimed.
const CLAIMED: [Step; 4] = [
    Step::Complete(0, 3, true),
    Step::Complete(4, 8, true),
    granted!(1, 3),
    Step::Notes(&[(9, Args::One(Value::Int(8)))]),
];

/// 256 sources, but for two applies with numbers of their own.
const MANY_NUMBERED: Rows = Rows {
    alike: &[
        (200, SOURCE),
        (1, (Form::Apply, &[199], Some(7))),
        (1, (Form::Apply, &[200], Some(5))),
        (54, SOURCE),
    ],
    ..NONE
};

/// What is called of a few stages of many.
const FEW_CALLED: [Step; 2] = [
    Step::Complete(199, 3, true),
    Step::Notes(&[(7, Args::One(Value::Int(3))), (5, Args::One(Value::Int(1)))]),
];

pub(crate) static CASES: [Case; 9] = [
    Case {
        name: "down a chain",
        rows: &CHAIN,
        room: None,
        steps: &[&DOWN],
    },
    Case {
        name: "through links",
        rows: &COMPOSED,
        room: None,
        steps: &[&THROUGH_LINKS],
    },
    Case {
        name: "what fails",
        rows: &SUPPLIES,
        room: None,
        steps: &[&FAILED],
    },
    Case {
        name: "past what others claimed",
        rows: &APPLIES,
        room: None,
        steps: &[&PAST],
    },
    Case {
        name: "a few of many",
        rows: &MANY,
        room: None,
        steps: &[&FEW],
    },
    Case {
        name: "each function once, in a sweep",
        rows: &NUMBERED,
        room: None,
        steps: &[&SWEPT],
    },
    Case {
        name: "each function once, by the marks",
        rows: &NUMBERED,
        room: None,
        steps: &[&MARKED],
    },
    Case {
        name: "no function that another has claimed",
        rows: &NUMBERED,
        room: None,
        steps: &[&CLAIMED],
    },
    Case {
        name: "a few functions of many",
        rows: &MANY_NUMBERED,
        room: None,
        steps: &[&FEW_CALLED],
    },
];

/// A closure counts its calls, and keeps which function was called last.
#[test]
fn a_closure_remembers_its_calls(rt: HostRuntime) {
    let mut count = 0i32;
    let mut last = 0u16;
    let call = must(
        &rt,
        Box::new(rt.alloc(), move |number: u16, _args: Args| {
            let before = i32::from(last);
            last = number;
            count = count.wrapping_add(1);
            Answer::Give(Value::Int(count.wrapping_mul(10).wrapping_add(before)))
        }),
    );
    let mut closure = Closure::new(call);
    remembers(&rt, rt.alloc(), &mut closure);
}

static COMPLETED: [Step; 1] = [Step::Complete(0, 3, true)];

static WORKED: [Step; 3] = [
    value!(1, 10),
    value!(2, 27),
    // The stage of a `ThenRun` gives nil.
    Step::Complete(4, 8, true),
];

static WORKED_AGAIN: [Step; 1] = [value!(5, 47)];

/// The closure is called three times, and once more when stage 4 is there.
fn works_twice(rt: &impl Abort, alloc: Global, graph: &mut Graph, closure: &mut Closure) {
    take(rt, alloc, graph, "completed", &[&COMPLETED]);
    let first = graph.work(0, closure);
    take(rt, alloc, graph, "worked", &[&WORKED]);
    let second = graph.work(0, closure);
    take(rt, alloc, graph, "worked again", &[&WORKED_AGAIN]);
    holds(rt, first == 3 && second == 1, (first, second));
}

fn remembers(rt: &impl Abort, alloc: Global, closure: &mut Closure) {
    let mut graph = must(rt, Graph::new(alloc, plan_of(rt, alloc, &NUMBERED)));
    works_twice(rt, alloc, &mut graph, closure);
    drop(graph);
}
