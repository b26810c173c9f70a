//! What small programs can come to.
use crate::checks::{holds, must};
use crate::explore::programs::{Rows, functions_of, program};
use crate::graph::plans;
use crate::graph::plans::SOURCE;
use cf_explore::{Condition, Fact, Found, How, Step, When};
use cf_forms::{Answer, Form, Limit, LimitKind};
use cf_model::{Ask, Call};
use cf_outcome::Value;
use std::alloc::Global;
use std::process::Abort;

/// One source.
const ONE: plans::Rows = plans::Rows {
    stages: &[SOURCE],
    ..plans::NONE
};

const NONE: Rows = Rows {
    plan: ONE,
    room: 0,
    callers: &[],
    workers: 0,
    functions: &[],
    free: false,
};

const COMPLETE: Step = Step::Do(Call::Complete(0, Value::Int(3)));

const OTHER: Step = Step::Do(Call::Complete(1, Value::Int(4)));

const CANCEL: Step = Step::Do(Call::Cancel(0));

const LOOK: Step = Step::Look(Ask::Outcome(0));

/// Two stages that pay, with one function.
const PAYS: Rows = Rows {
    plan: plans::Rows {
        stages: &[
            (Form::Supply, &[], Some(0)),
            (Form::Supply, &[], Some(0)),
            (Form::AnyOf, &[0, 1], None),
        ],
        ..plans::NONE
    },
    workers: 2,
    functions: &[Answer::Give(Value::Int(1))],
    ..NONE
};

/// The repair: the second pays only where the first has failed.
const PAYS_ONCE: Rows = Rows {
    plan: plans::Rows {
        stages: &[
            (Form::Supply, &[], Some(0)),
            (Form::Exceptionally, &[0], Some(0)),
        ],
        ..plans::NONE
    },
    ..PAYS
};

/// A complete against a cancel.
const AGAINST: Rows = Rows {
    callers: &[&[COMPLETE], &[CANCEL]],
    ..NONE
};

/// A timeout that loses, or wins.
const TIMED: Rows = Rows {
    plan: plans::Rows {
        limits: &[Limit {
            stage: 0,
            at: 10,
            kind: LimitKind::Timeout(7),
        }],
        ..ONE
    },
    callers: &[&[COMPLETE]],
    free: true,
    ..NONE
};

/// The first of two replicas.
const REPLICAS: Rows = Rows {
    plan: plans::Rows {
        stages: &[SOURCE, SOURCE, (Form::AnyOf, &[0, 1], None)],
        ..plans::NONE
    },
    callers: &[&[COMPLETE], &[OTHER]],
    ..NONE
};

/// More orders than are counted.
const LOOKS: Rows = Rows {
    callers: &[&[LOOK; 70], &[LOOK; 70]],
    ..NONE
};

/// What a program comes to: how many ends, the orders that lead to the first one, how many situations, whether they are all, and
/// how many moves lead to an end at which function 0 was called twice, 0 where none does.
#[derive(Clone, Copy)]
struct Row {
    name: &'static str,
    rows: &'static Rows,
    bound: u32,
    ends: usize,
    orders: u128,
    situations: usize,
    whole: bool,
    twice: usize,
}

static ROWS: [Row; 7] = [
    Row {
        name: "complete against cancel",
        rows: &AGAINST,
        bound: 1000,
        ends: 2,
        orders: 1,
        situations: 5,
        whole: true,
        twice: 0,
    },
    Row {
        name: "a timeout that loses, or wins",
        rows: &TIMED,
        bound: 1000,
        ends: 2,
        orders: 2,
        situations: 5,
        whole: true,
        twice: 0,
    },
    Row {
        name: "the first of two replicas",
        rows: &REPLICAS,
        bound: 1000,
        ends: 2,
        orders: 1,
        situations: 5,
        whole: true,
        twice: 0,
    },
    Row {
        name: "pays twice",
        rows: &PAYS,
        bound: 1000,
        ends: 1,
        orders: 44,
        situations: 28,
        whole: true,
        twice: 6,
    },
    Row {
        name: "pays once",
        rows: &PAYS_ONCE,
        bound: 1000,
        ends: 1,
        orders: 2,
        situations: 6,
        whole: true,
        twice: 0,
    },
    Row {
        name: "a full bound",
        rows: &PAYS,
        bound: 5,
        ends: 0,
        orders: 0,
        situations: 5,
        whole: false,
        twice: 0,
    },
    Row {
        name: "more orders than are counted",
        rows: &LOOKS,
        bound: 10000,
        ends: 1,
        orders: 340282366920938463463374607431768211455,
        situations: 5041,
        whole: true,
        twice: 0,
    },
];

/// That function 0 is never called twice.
fn never_twice(rt: &impl Abort, alloc: Global) -> Vec<Condition> {
    let facts = must(rt, vec![in alloc; Fact::Exactly(0, 2)]);
    let condition = Condition {
        how: How::Never,
        when: When::End,
        facts,
    };
    must(rt, vec![in alloc; condition])
}

/// How many moves lead to what decides the first condition, 0 where nothing does.
fn moves_to(rt: &impl Abort, alloc: Global, found: &Found) -> usize {
    match found.decisions.first() {
        Some(Some(witness)) => must(rt, found.order(alloc, *witness)).len(),
        _ => 0,
    }
}

/// The orders that lead to the first end.
fn orders_to(found: &Found) -> u128 {
    match found.ends.first() {
        None => 0,
        Some(end) => end.orders,
    }
}

/// What the program of a row comes to.
fn explore(rt: &impl Abort, alloc: Global, row: &Row) -> Found {
    let program = program(rt, alloc, row.rows);
    let functions = functions_of(rt, alloc, row.rows);
    let conditions = never_twice(rt, alloc);
    let told = program.explore(alloc, &functions, &conditions, row.bound);
    drop((program, functions, conditions));
    must(rt, told)
}

/// A search found what its row says.
fn check(rt: &impl Abort, alloc: Global, row: &Row, found: Found) {
    let ends = (found.ends.len(), orders_to(&found));
    let twice = moves_to(rt, alloc, &found);
    let seen = (found.trail.len(), found.whole, twice);
    drop(found);
    let is_so = ends == (row.ends, row.orders) && seen == (row.situations, row.whole, row.twice);
    holds(rt, is_so, (row.name, ends, seen));
}

#[test]
fn programs_come_to_their_ends(rt: HostRuntime) {
    for row in &ROWS {
        check(&rt, rt.alloc(), row, explore(&rt, rt.alloc(), row));
    }
}
