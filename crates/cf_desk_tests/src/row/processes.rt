//! Two processes at one request of the store of `cf_example`, in several orders.
use crate::checks::{holds, must};
use crate::plans::{Row, plan_of};
use cf_example::processes::{Move, Step, Worker, lead};
use cf_example::stored::Stored;
use cf_forms::Form;
use cf_notes::{EndsWith, Note};
use std::alloc::Global;
use std::process::Abort;

/// Two supplies, and an apply of each.
static STAGES: [Row<'static>; 4] = [
    (Form::Supply, &[], Some(0)),
    (Form::Supply, &[], Some(1)),
    (Form::Apply, &[0], Some(2)),
    (Form::Apply, &[1], Some(3)),
];

static SESSIONS: [u64; 2] = [1, 2];

/// What one of them does in each round.
#[derive(Clone, Copy)]
enum Does {
    Turns(usize),
    /// Its turn's answer is lost.
    Loses(usize),
    /// All its functions end.
    Ends(usize),
}

use Does::*;

/// One after the other; one whose answers are lost every other time; and one whose functions never end.
static ORDERS: [(&str, &[Does], usize); 3] = [
    ("in turns", &[Turns(0), Turns(1), Ends(0), Ends(1)], 4),
    (
        "lost",
        &[Loses(0), Turns(0), Turns(1), Loses(1), Ends(0), Ends(1)],
        4,
    ),
    ("late", &[Turns(0), Turns(0), Turns(1), Ends(1)], 2),
];

/// A request of those stages, whose functions are known.
fn stored_at(rt: &impl Abort, alloc: Global) -> Stored {
    let plan = plan_of(rt, alloc, &STAGES);
    let mut notes = Vec::new(alloc);
    for function in 1..5 {
        must(rt, notes.push(Note::Calls { function }));
    }
    Stored::new(alloc, 9, plan, notes, 1)
}

/// Adds a step.
fn add(rt: &impl Abort, steps: &mut Vec<Step>, worker: usize, now: u64, does: Move) {
    must(rt, steps.push(Step { worker, now, does }));
}

/// Adds the ends of a process's functions, whichever tickets they have.
fn add_ends(rt: &impl Abort, steps: &mut Vec<Step>, worker: usize, now: u64) {
    for ticket in 1..60 {
        let answer = EndsWith::Gives;
        add(rt, steps, worker, now, Move::Ends { ticket, answer });
    }
}

/// Adds what is done in a round.
fn add_round(rt: &impl Abort, steps: &mut Vec<Step>, now: u64, order: &[Does]) {
    for does in order {
        match *does {
            Turns(worker) => add(rt, steps, worker, now, Move::Turns),
            Loses(worker) => add(rt, steps, worker, now, Move::Loses),
            Ends(worker) => add_ends(rt, steps, worker, now),
        }
    }
}

/// How many functions they were told to call.
fn calls_of(workers: &[Worker]) -> usize {
    let mut calls: usize = 0;
    for worker in workers {
        calls = calls.saturating_add(worker.called.len());
    }
    calls
}

#[test]
fn each_function_is_called_by_one_of_two(rt: HostRuntime) {
    for (name, order, calls) in &ORDERS {
        let mut stored = stored_at(&rt, rt.alloc());
        let mut steps = Vec::new(rt.alloc());
        for round in 0..60 {
            add_round(&rt, &mut steps, round * 50, *order);
        }
        let workers = must(&rt, lead(rt.alloc(), &mut stored, &SESSIONS, &steps));
        let called = calls_of(&workers);
        holds(&rt, called == *calls, (*name, called));
        drop(workers);
        drop(stored);
        drop(steps);
    }
}
