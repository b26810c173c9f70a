//! Work on all stages in one sweep.
ghost use Rattle.std.specs.Prelude.{◌≡◌, ℕ, ◌+◌, ◌<◌, ◌≤◌, IfSome, None, length, true, vec_capacity};
ghost use Rattle.cf_forms.specs.declared.forms.Landing.TheVariants.{Links as LinksTo};
ghost use Rattle.cf_forms.specs.Forms.{composes};
ghost use Rattle.cf_forms.specs.Plans.{form_at};
ghost use Rattle.cf_model.specs.Calling.{Runs};
ghost use Rattle.cf_model.specs.States.{is_ready, lowest_ready_of};
ghost use Rattle.cf_core.specs.Keeping.Graphs.{AreClaimed};
ghost use Rattle.cf_core.specs.Keeping.Sound.{StayTakenBut, kept_at};
ghost use Rattle.cf_core.specs.Keeping.SoundStages.{AreSound, SameRoom, lowest_ready_in};
ghost use Rattle.cf_core.specs.Keeping.Sweeps.{AreSwept, IsReadyWith};
ghost use Rattle.cf_core.specs.Keeping.Offers.{keeps_value};
ghost use Rattle.cf_core.specs.Keeping.Landings.{LandsWithValue};
ghost use Rattle.cf_core.specs.Keeping.Steps.{ReadyStageLands, StageIsAnswered, StageIsVisited, StagesAreServed};
ghost use Rattle.cf_model.specs.Graphs.{CountsTurns};

use crate::graph::Graph;
use crate::graph::claims::landing_of;
use crate::graph::working::answer_of;
use crate::stages::Stages;
use cf_forms::{Answer, Args, Form, Functions, Landing};
use cf_outcome::{Outcome, Value, wrap};
use cf_plan::GrowingPlan;

impl Graph {
    /// Works for a caller until no stage is ready, in one sweep over all stages.
    pub(super) fn sweep<F: Functions>(&mut self, who: u8, functions: &mut F) -> u32
        ensures called { Runs F.calls who self.old.state functions.old result self.new.state functions.new }
        ensures none { lowest_ready_of self.new.state ≡ None }
        ensures counted { CountsTurns self.old self.new }
    {
        let _who = who;
        sweep(&mut self.stages, &mut self.claims, &self.plan, functions)
    }
}

/// Treats and serves all stages in rising number, and says how many functions were called.
fn sweep<F: Functions>(
    stages: &mut Stages,
    claims: &mut Vec<Option<u8>>,
    plan: &GrowingPlan,
    functions: &mut F,
) -> u32
    requires sound { AreSound plan.now.stages stages.old }
    requires all_claims { length claims.old.items ≡ length plan.now.stages }
    requires claimed { AreClaimed claims.old.items stages.old.kept.items }
    ensures served { StagesAreServed F.calls plan.now.stages result stages.old claims.old.items functions.old
        stages.new claims.new.items functions.new }
    ensures none { lowest_ready_in plan.now.stages stages.new ≡ None }
    ensures all_claims { length claims.new.items ≡ length plan.now.stages }
    ensures claims_room { vec_capacity claims.new ≡ vec_capacity claims.old }
    ensures claimed { AreClaimed claims.new.items stages.new.kept.items }
    ensures counted { stages.old.turns ≤ stages.new.turns }
    ensures room { SameRoom stages.old stages.new }
    ensures sound { AreSound plan.now.stages stages.new }
{
    let mut calls = 0;
    for m in 0..plan.stages() {
        if visit(stages, claims, plan, functions, m) {
            calls += 1;
        }
    }
    stages.end_sweep(plan);
    calls
}

/// Treats the next stage of a sweep, and calls its function if it is ready then. It says whether it was.
#[inline(always)]
fn visit<F: Functions>(
    stages: &mut Stages,
    claims: &mut Vec<Option<u8>>,
    plan: &GrowingPlan,
    functions: &mut F,
    m: u16,
) -> bool
    requires swept { AreSwept plan.now.stages m m stages.old }
    requires stage { m < length plan.now.stages }
    requires all_claims { length claims.old.items ≡ length plan.now.stages }
    requires claimed { AreClaimed claims.old.items stages.old.kept.items }
    ensures served { StageIsVisited F.calls plan.now.stages result m stages.old claims.old.items functions.old
        stages.new claims.new.items functions.new }
    ensures claims_room { vec_capacity claims.new ≡ vec_capacity claims.old }
    ensures claimed { AreClaimed claims.new.items stages.new.kept.items }
    ensures counted { stages.old.turns ≤ stages.new.turns }
    ensures room { SameRoom stages.old stages.new }
    ensures swept { AreSwept plan.now.stages (m + 1) (m + 1) stages.new }
{
    match stages.next_swept::<F>(plan, m) {
        Some(args) => {
            let answer = answer_of(plan, functions, m, &args);
            claims[m as usize] = None;
            land_next(stages, plan, m, args, answer);
            true
        }
        None => false,
    }
}

/// The next stage of a sweep, which is ready with these arguments, lands with its function's answer.
///
/// Most settle with the value that it is, and are written once. The others are written as ready first.
#[inline(always)]
pub(super) fn land_next(stages: &mut Stages, plan: &GrowingPlan, m: u16, args: Args, answer: Answer)
    requires ready { IsReadyWith plan.now.stages m args stages.old }
    requires stage { m < length plan.now.stages }
    ensures landed { StageIsAnswered plan.now.stages m answer stages.old stages.new }
    ensures taken { StayTakenBut m stages.old.kept.items stages.new.kept.items }
    ensures turns { stages.new.turns ≡ stages.old.turns }
    ensures room { SameRoom stages.old stages.new }
    ensures swept { AreSwept plan.now.stages (m + 1) (m + 1) stages.new }
{
    match value_kept(plan.form(m), answer) {
        Some(v) => stages.settle_ready(plan, m, args, v),
        None => {
            stages.write_ready(plan, m, args);
            let at = landing_of(stages, plan, m, answer);
            land_swept(stages, plan, m, at);
        }
    }
}

/// The value that a stage settles with, where its function gave it and its form keeps that.
#[inline(always)]
#[tactic(auto, using(crate::proofs::Keeping::Offering::kept_lands))]
fn value_kept(form: Form, answer: Answer) -> Option<Value>
    ensures { IfSome result (λ v. LandsWithValue form answer v) }
{
    match answer {
        Answer::Give(v) if keeps_value(form) => Some(v),
        _ => None,
    }
}

/// Whether a stage of a form settles with the value that its function gives.
#[inline(always)]
fn keeps_value(form: Form) -> bool
    ensures { result ≡ keeps_value form }
{
    matches!(
        form,
        Form::Supply
            | Form::Apply
            | Form::Combine
            | Form::ApplyEither
            | Form::Handle
            | Form::Exceptionally
    )
}

/// The next stage of a sweep, which is ready, lands as if it had been claimed before.
#[inline(always)]
fn land_swept(stages: &mut Stages, plan: &GrowingPlan, m: u16, at: Landing)
    requires swept { AreSwept plan.now.stages (m + 1) m stages.old }
    requires stage { m < length plan.now.stages }
    requires ready { is_ready ((kept_at stages.old.kept.items m).stage) ≡ true }
    requires target { (j : ℕ) → at ≡ LinksTo j → j < m }
    requires composes { (j : ℕ) → at ≡ LinksTo j → composes (form_at plan.now.stages m) ≡ true }
    ensures landed { ReadyStageLands plan.now.stages m at stages.old stages.new }
    ensures taken { StayTakenBut m stages.old.kept.items stages.new.kept.items }
    ensures turns { stages.new.turns ≡ stages.old.turns }
    ensures room { SameRoom stages.old stages.new }
    ensures swept { AreSwept plan.now.stages (m + 1) (m + 1) stages.new }
{
    match at {
        Landing::Settles(o) => stages.settle_swept(plan, m, o),
        Landing::Links(j) => match stages.outcome(j) {
            Some(o) => stages.settle_swept(plan, m, wrap(o)),
            None => stages.link_swept(plan, m, j),
        },
    }
}
