//! What two callers do in turn, and what they are answered, as rows.
ghost use Rattle.std.specs.Prelude.{◌≡◌};

use crate::checks::holds;
use crate::desk::beside::{Work, join_beside};
use crate::desk::desks::{Opening, act_all, act_on_threads, close_two, open_two};
use crate::desk::ends::{End, check_ends};
use crate::desk::heeding::heed_beside;
use cf_desk::{Ask, Call, Closed, Desk, DeskFault, Joined, Pass, Told};
use cf_model::Reply;
use std::alloc::Global;
use std::process::Abort;
use std::thread::Threads;

/// What a caller does, and what it is answered.
#[derive(Clone, Copy)]
pub(crate) enum Step {
    Acts(Call, Result<Reply, DeskFault>),
    /// Calls one after another, whatever they are answered.
    ActsAll(&'static [Call]),
    Reads(Ask, Result<Told, DeskFault>),
    /// A join of a stage, with so many looks and one more.
    Joins(u16, u16, Result<Joined, DeskFault>),
    FindsReady(Option<u16>),
    /// It has seen so many events, and takes so many records more.
    Has(u16, u16),
    /// It knows, or doesn't know, a stage.
    Knows(u16, bool),
    /// It knows a stage with this function, or with none.
    KnowsFunction(u16, Option<u16>),
    /// It has an open claim of a stage, or hasn't.
    Holds(u16, bool),
    /// It is this caller.
    Is(u8),
}

/// Whose turn it is.
#[derive(Clone, Copy)]
pub(crate) enum Turn {
    First(Step),
    Second(Step),
    /// The first caller makes its calls on one thread, and the second one makes these on another.
    Together(&'static [Call], &'static [Call]),
    /// The first caller works on one thread, while the second one joins a stage on another.
    SecondJoins(Work),
    /// The second caller works, while the first one joins.
    FirstJoins(Work),
    Meet,
    /// The second caller heeds what the first one has seen, on a thread of its own, while the first one makes these calls.
    SecondHeeds(&'static [Call]),
    /// The first caller heeds what the second one has seen.
    FirstHeeds(&'static [Call]),
    /// The desk is for so many words, callers and functions.
    DeskIsFor(u16, u8, u32),
    /// The desk was opened with a stage, or wasn't.
    DeskHas(u16, bool),
    /// The desk was opened with a stage with this function, or with none.
    DeskFunction(u16, Option<u16>),
}

/// Whether a step is answered so.
fn is_answered(desk: &Desk, p: &mut Pass, step: Step) -> bool
    requires { p.old.table ≡ desk.now.table }
    ensures { p.new.table ≡ p.old.table }
{
    match step {
        Step::Acts(call, answer) => desk.act(p, call) == answer,
        Step::ActsAll(calls) => {
            act_all(desk, p, calls);
            true
        }
        Step::Reads(ask, answer) => desk.read(p, ask) == answer,
        Step::Joins(stage, more, answer) => desk.join(p, stage, more as u32 + 1) == answer,
        Step::FindsReady(stage) => desk.ready(p) == stage,
        Step::Has(seen, left) => p.seen() == seen && p.left() == left,
        Step::Knows(stage, known) => p.has(stage) == known,
        Step::KnowsFunction(stage, function) => p.has(stage) && p.function(stage) == function,
        Step::Holds(stage, held) => p.holds(stage) == held,
        Step::Is(caller) => p.caller() == caller,
    }
}

/// Whether a turn is answered so.
fn is_taken<R: Threads + Sync>(rt: &R, desk: &Desk, a: &mut Pass, b: &mut Pass, turn: Turn) -> bool
    requires { (a.old.table ≡ desk.now.table) × (b.old.table ≡ desk.now.table) }
    ensures { (a.new.table ≡ a.old.table) × (b.new.table ≡ b.old.table) }
{
    match turn {
        Turn::First(step) => is_answered(desk, a, step),
        Turn::Second(step) => is_answered(desk, b, step),
        Turn::Together(firsts, seconds) => {
            act_on_threads(rt, desk, a, b, firsts, seconds);
            true
        }
        Turn::SecondJoins(work) => {
            join_beside(rt, desk, a, b, work);
            true
        }
        Turn::FirstJoins(work) => {
            join_beside(rt, desk, b, a, work);
            true
        }
        Turn::Meet => {
            desk.meet(a, b);
            true
        }
        Turn::SecondHeeds(calls) => {
            heed_beside(rt, desk, a, b, calls);
            true
        }
        Turn::FirstHeeds(calls) => {
            heed_beside(rt, desk, b, a, calls);
            true
        }
        Turn::DeskIsFor(words, callers, functions) => {
            desk.words() == words && desk.callers() == callers && desk.functions() == functions
        }
        Turn::DeskHas(stage, is_there) => desk.has(stage) == is_there,
        Turn::DeskFunction(stage, function) => {
            desk.has(stage) && desk.function(stage) == function
        }
    }
}

/// A desk for two callers, their turns, and what it has once it is closed.
#[derive(Clone, Copy)]
pub(crate) struct Case {
    pub(crate) name: &'static str,
    pub(crate) opening: Opening,
    pub(crate) turns: &'static [Turn],
    pub(crate) ends: &'static [End],
}

/// The callers take the turns of a case, and each is answered as it says.
fn take<R: Threads + Sync + Abort>(rt: &R, desk: &Desk, a: &mut Pass, b: &mut Pass, case: &Case)
    requires { (a.old.table ≡ desk.now.table) × (b.old.table ≡ desk.now.table) }
    ensures { (a.new.table ≡ a.old.table) × (b.new.table ≡ b.old.table) }
{
    'turns: for (at, turn) in case.turns.iter().enumerate() {
        holds(rt, is_taken(rt, desk, a, b, *turn), (case.name, "turn", at));
    }
}

/// The desk of a case, on which its callers took their turns, closed.
fn closed<R: Threads + Sync + Abort>(rt: &R, alloc: Global, case: &Case) -> Closed {
    let (desk, mut a, mut b) = open_two(rt, alloc, case.opening);
    take(rt, &desk, &mut a, &mut b, case);
    if case.opening.second_first {
        close_two(rt, alloc, desk, b, a)
    } else {
        close_two(rt, alloc, desk, a, b)
    }
}

/// Opens the desk of each case, lets its callers take their turns, and closes it. Then it has what `ends` says.
pub(crate) fn play<R: Threads + Sync + Abort>(rt: &R, alloc: Global, cases: &[Case]) {
    for case in cases {
        let mut closed = closed(rt, alloc, case);
        check_ends(rt, &mut closed, case.name, case.ends);
        drop(closed);
    }
}
