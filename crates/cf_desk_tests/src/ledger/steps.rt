//! What is done to a ledger and asked of it, as rows: a call, and what it is answered.
ghost use Rattle.std.specs.Prelude.{◌≡◌, true};
ghost use Rattle.cf_forms.specs.Plans.{has_place};

use crate::checks::{holds, must};
use crate::plans::{SOURCE_AND_APPLY, plan_of};
use cf_ledger::{Held, Ledger, LedgerFault, Misfit, Reply, Stage, StepFault};
use cf_outcome::Outcome;
use cf_plan::Plan;
use std::alloc::Global;
use std::process::Abort;

/// A call of `Ledger` with its answer last.
#[derive(Clone, Copy)]
pub(crate) enum Step {
    Apply(u64, Result<Reply, LedgerFault>),
    /// A caller, what it holds, and from which stage on it takes one.
    Next(u8, Option<Held>, u16, Result<cf_ledger::Step, StepFault>),
    ApplyAll(&'static [u64], Result<(), Misfit>),
    Restart,
    /// Memory for so many words more.
    Reserve(usize),
    /// So many stages of room more.
    Grow(u16),
    /// All that was done since the start.
    Words(&'static [u64]),
    Outcome(u16, Option<Outcome>),
    LowestReady(Option<u16>),
    Stages(u16),
    Room(u16),
    Function(u16, Option<u16>),
    Len(usize),
    /// The stages that the event at a place changed.
    News(usize, &'static [u16]),
    Stage(u16, Stage),
    Claimant(u16, Option<u8>),
    NextReady(u16, Option<u16>),
}

/// The plan of a source, and an apply of it by function 0. It has place for so much room.
pub(crate) fn plan(rt: &impl Abort, alloc: Global, room: u16) -> Plan
    ensures { has_place result.stages room ≡ true }
{
    let plan = plan_of(rt, alloc, &SOURCE_AND_APPLY);
    holds(rt, plan.has_place(room), room);
    plan
}

/// Whether so much room more has a place, and is there.
fn grows(alloc: Global, ledger: &mut Ledger, more: u16) -> bool {
    ledger.has_place(more) && ledger.grow(alloc, more) == Ok(())
}

/// Whether a step is answered so.
fn is_answered(alloc: Global, ledger: &mut Ledger, step: Step) -> bool {
    match step {
        Step::Apply(word, answer) => ledger.apply(word) == answer,
        Step::Next(who, held, from, answer) => ledger.step(who, held, from) == answer,
        Step::ApplyAll(words, answer) => ledger.apply_all(words) == answer,
        Step::Restart => {
            ledger.restart();
            true
        }
        Step::Reserve(more) => ledger.reserve(more).is_ok(),
        Step::Grow(more) => grows(alloc, ledger, more),
        Step::Words(answer) => ledger.words() == answer,
        Step::Outcome(i, answer) => i < ledger.stages() && ledger.outcome(i) == answer,
        Step::LowestReady(answer) => ledger.lowest_ready() == answer,
        Step::Stages(answer) => ledger.stages() == answer,
        Step::Room(answer) => ledger.room() == answer,
        Step::Function(i, answer) => i < ledger.stages() && ledger.function(i) == answer,
        Step::Len(answer) => ledger.len() == answer,
        Step::News(place, answer) => place < ledger.len() && ledger.news(place) == answer,
        Step::Stage(i, answer) => i < ledger.stages() && ledger.stage(i) == answer,
        Step::Claimant(i, answer) => i < ledger.stages() && ledger.claimant(i) == answer,
        Step::NextReady(from, answer) => ledger.next_ready(from) == answer,
    }
}

/// A ledger with so much room, of these words if there are any, and the parts of what it does.
#[derive(Clone, Copy)]
pub(crate) struct Case {
    pub(crate) name: &'static str,
    pub(crate) room: u16,
    pub(crate) words: &'static [u64],
    pub(crate) parts: &'static [&'static [Step]],
}

/// The ledger of a case.
fn opened(rt: &impl Abort, alloc: Global, case: &Case) -> Ledger {
    let plan = plan(rt, alloc, case.room);
    if case.words.is_empty() {
        must(rt, Ledger::new(alloc, &plan, case.room))
    } else {
        must(rt, Ledger::of_words(alloc, &plan, case.room, case.words))
    }
}

/// The ledger takes the steps of a case, and each is answered as it says.
fn take(rt: &impl Abort, alloc: Global, ledger: &mut Ledger, case: &Case) {
    for (part, steps) in case.parts.iter().enumerate() {
        for (at, step) in steps.iter().enumerate() {
            holds(rt, is_answered(alloc, ledger, *step), (case.name, part, at));
        }
    }
}

/// The ledger of each case takes its steps.
pub(crate) fn play(rt: &impl Abort, alloc: Global, cases: &[Case]) {
    for case in cases {
        let mut ledger = opened(rt, alloc, case);
        take(rt, alloc, &mut ledger, case);
        drop(ledger);
    }
}
