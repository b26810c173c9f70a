//! Races: caller 0 settles sources and attaches stages, and then workers, each on a thread of its own, do all the work that
//! there is.
mod beginning;
mod sizes;

ghost use Rattle.std.specs.Prelude.{◌≡◌, ◌+◌, ◌<◌, ◌≤◌, IfErr, IfOk, true, vec_len};
ghost use Rattle.cf_forms.specs.Plans.{has_place};
ghost use Rattle.cf_pool.specs.Calling.{AnswerAlike};
ghost use Rattle.cf_pool.specs.Beginnings.{HasRaced, HaveCalledRacing};
ghost use Rattle.cf_pool.specs.Closings.{AreCalledOnce, IsEachOnce, IsForRoom, IsHistoryOf};
ghost use Rattle.cf_pool.specs.Races.{AreSteps, IsDueToRefuse, RacedIsExpression, RacesEndAlike, race_functions, race_plan, race_words};

use crate::faults::PoolFault;
use crate::pool::{Left, run};
use crate::workers::Worker;
use beginning::begin;
use cf_model::Event;
use cf_plan::Plan;
use sizes::sizes;
use std::alloc::{AllocError, Global};
use std::sync::Wait;
use std::thread::Threads;

/// Why there is no race.
#[derive(Clone, Copy, Debug, Drop, PartialEq, Eq)]
pub enum RaceFault {
    /// Memory or a thread was refused.
    NoMemory,
    /// The log would have more than 65,535 words.
    Size,
}

impl From<AllocError> for RaceFault {
    ghost use Rattle.cf_pool.specs.declared.races.RaceFault.TheVariants.{NoMemory};

    ghost from_gives = { λ _ fault. fault ≡ NoMemory };

    fn from(_refused: AllocError) -> RaceFault {
        RaceFault::NoMemory
    }
}

/// What is raced, and by how many workers.
#[derive(Drop)]
pub struct RaceTerms<'a> {
    /// The plan whose stages the workers run.
    pub plan: Plan,
    /// How many stages the steps may attach. The plan has a place for so many more (`Plan::has_place`).
    pub room: u16,
    /// What caller 0 does before the workers begin, in order: it completes, fails, cancels and attaches stages, and tells
    /// moments.
    pub steps: &'a [Event],
    /// How many workers there are, 1 to 32, each on a thread of its own. Their callers' numbers begin with 1.
    pub workers: u8,
}

/// Does the steps as caller 0's, in order, and then lets the workers work on threads of their own until nothing is ready.
/// `hands` has the worker of caller 0 and then those of the others. If the arguments of their functions determine the
/// answers, all of them answer the same. The race leaves the closed desk and the workers. Each worker has called its
/// functions for the claims that its pass was granted, once for each, and never otherwise; over all workers together, a
/// stage's function is called at most once. What the desk tells is one history, and the graph is as that history leaves
/// it.
#[tactic(auto, using(cf_forms::proofs::PlanLemmas::place_is))]
pub fn race<R: Threads + Wait + Sync, W: Worker + Send + Drop>(
    rt: &R,
    alloc: Global,
    terms: RaceTerms<'_>,
    hands: Vec<W>,
) -> Result<Left<W>, RaceFault>
    requires workers { (0 < terms.workers) × (terms.workers ≤ 32) × (vec_len hands ≡ terms.workers + 1) }
    requires alike { AnswerAlike W.answers hands.items }
    requires room { has_place terms.plan.stages terms.room ≡ true }
    requires steps { AreSteps (race_plan terms) terms.steps.now }
    ensures raced { IfOk result (HasRaced W.answers terms.entry hands.items) }
    ensures history { IfOk result (λ left. IsHistoryOf (race_plan terms.entry) race_functions left.closed) }
    ensures each { IfOk result (λ left. IsEachOnce (terms.entry.workers + 1) left.closed.passes.items) }
    ensures once { IfOk result (λ left. AreCalledOnce left.closed.passes.items) }
    ensures called { IfOk result (HaveCalledRacing W.tells W.calls W.answers terms.entry hands.items) }
    ensures size { IfOk result (λ left. race_words terms.entry ≤ 65535) }
    ensures fault { IfErr result (IsDueToRefuse (race_words terms.entry)) }
{
    let stages = terms.plan.stages() + terms.room;
    let sizes = match sizes(terms.steps.len(), stages, terms.workers) {
        Some(sizes) => sizes,
        None => return Err(RaceFault::Size),
    };
    let (desk, passes) = begin(alloc, terms, sizes)?;
    match run(rt, desk, passes, hands) {
        Ok(left) => Ok(left),
        Err(fault) => Err(fault_of(fault)),
    }
}

/// What a race tells where its run was refused memory or a thread, both of which it gives up.
fn fault_of<W: Drop>(fault: PoolFault<W>) -> RaceFault
    requires { IsForRoom fault }
    ensures { result ≡ RaceFault.NoMemory }
{
    let told = told_of(&fault);
    drop(fault);
    told
}

fn told_of<W>(fault: &PoolFault<W>) -> RaceFault
    requires { IsForRoom fault.now }
    ensures { result ≡ RaceFault.NoMemory }
{
    match fault {
        PoolFault::NoMemory(_) => RaceFault::NoMemory,
        PoolFault::NoThread(_) => RaceFault::NoMemory,
        PoolFault::Desk(..) => unreachable!(),
    }
}

/// However many workers there were, and whatever they did first, a race of a plain plan with plain steps ends as the
/// expressions say.
pub fn races_end_as_expressions()
    ensures { RacedIsExpression }
{}

/// So two races that begin with the same plain steps end alike, whatever their numbers of workers.
pub fn races_end_alike()
    ensures { RacesEndAlike }
{}
