//! Which stage a session claims next.
ghost use Rattle.std.specs.Prelude.{◌≡◌, ◌⊎◌, ◌<◌, ◌≤◌, IfNone, IfSome, length, true};
ghost use Rattle.std.specs.Bool.{OnFalse, OnTrue};
ghost use Rattle.cf_model.specs.Events.{source_outcome};
ghost use Rattle.cf_model.specs.States.{is_ready, stage_at};
ghost use Rattle.cf_ledger.specs.Ledgers.{stages_of, state_of};
ghost use Rattle.cf_row.specs.Next.{CanClaimIn, Follows, GoesOnAfter, NoneToClaimIn, Settles, is_needed, settles_with};

use crate::grants::{Claim, is_held};
use cf_forms::{Due, Landing, due_one, is_decided_by_first, landing};
use cf_ledger::{Held, Ledger};
use cf_model::Stage;
use cf_outcome::{Outcome, wrap};
use cf_plan::GrowingPlan;

/// A stage that a finish settles, and with what.
#[derive(Clone, Copy)]
pub(crate) struct Settling {
    stage: u16,
    outcome: Outcome,
}

/// The lowest stage from a number on that a session could claim, by these claims: one that is ready, or that the finish
/// of what it has makes ready.
#[tactic(auto, using(crate::proofs::Claiming::can_by, crate::proofs::Claiming::not_by))]
pub(crate) fn next_in(
    plan: &GrowingPlan,
    ledger: &Ledger,
    claims: &[Claim],
    session: u64,
    ended: Option<Held>,
    from: u16,
) -> Option<u16>
    requires plan { plan.now ≡ (state_of ledger.now).plan }
    ensures can { IfSome result (λ i. CanClaimIn claims.now (state_of ledger.now) session ended i) }
    ensures there { IfSome result (λ i. i < stages_of ledger.now) }
    ensures above { IfSome result (λ i. from ≤ i) }
    ensures first { IfSome result (λ i. NoneToClaimIn claims.now (state_of ledger.now) session ended from i) }
    ensures none { IfNone result
        (NoneToClaimIn claims.now (state_of ledger.now) session ended from (stages_of ledger.now)) }
{
    let after = settled_by(plan, ledger, claims, session, ended);
    for stage in from..ledger.stages() {
        if can_claim(plan, ledger, after, stage) {
            return Some(stage);
        }
    }
    None
}

/// What the finish settles at once, if the session has its stage.
fn settled_by(
    plan: &GrowingPlan,
    ledger: &Ledger,
    claims: &[Claim],
    session: u64,
    ended: Option<Held>,
) -> Option<Settling>
    requires plan { plan.now ≡ (state_of ledger.now).plan }
    ensures { Settles claims.now (state_of ledger.now) session ended result }
{
    let held = ended?;
    if held.stage >= ledger.stages() || !is_held(ledger, claims, session, held.stage) {
        return None;
    }
    let outcome = outcome_by(plan, ledger, held)?;
    Some(Settling {
        stage: held.stage,
        outcome,
    })
}

/// The outcome with which a finish settles its stage, if it does so at once.
#[tactic(auto, using(crate::proofs::Claiming::links_lower))]
fn outcome_by(plan: &GrowingPlan, ledger: &Ledger, held: Held) -> Option<Outcome>
    requires plan { plan.now ≡ (state_of ledger.now).plan }
    requires there { held.stage < stages_of ledger.now }
    ensures { result ≡ settles_with (state_of ledger.now) held }
{
    let source = source_outcome(plan, ledger, held.stage);
    match landing(plan.form(held.stage), held.stage, source, held.answer) {
        Landing::Settles(outcome) => Some(outcome),
        Landing::Links(other) => Some(wrap(ledger.outcome(other)?)),
    }
}

/// The outcome of a stage's first source.
fn source_outcome(plan: &GrowingPlan, ledger: &Ledger, stage: u16) -> Option<Outcome>
    requires plan { plan.now ≡ (state_of ledger.now).plan }
    requires there { stage < stages_of ledger.now }
    ensures { result ≡ source_outcome (state_of ledger.now) stage }
{
    match plan.sources(stage).first() {
        None => None,
        Some(source) => ledger.outcome(*source),
    }
}

/// Whether a stage is ready, or is so once another one is settled.
fn can_claim(plan: &GrowingPlan, ledger: &Ledger, after: Option<Settling>, stage: u16) -> bool
    requires plan { plan.now ≡ (state_of ledger.now).plan }
    requires there { stage < stages_of ledger.now }
    ensures can { OnTrue result
        ((is_ready (stage_at (state_of ledger.now) stage) ≡ true) ⊎ GoesOnAfter (state_of ledger.now) after stage) }
    ensures none { OnFalse result
        (¬ ((is_ready (stage_at (state_of ledger.now) stage) ≡ true) ⊎ GoesOnAfter (state_of ledger.now) after stage)) }
{
    match ledger.stage(stage) {
        Stage::Ready(_) => true,
        Stage::Pending => match after {
            None => false,
            Some(after) => follows(plan, after, stage),
        },
        _ => false,
    }
}

/// Whether a stage has the settled one as its only source, and its function is called with such an outcome.
fn follows(plan: &GrowingPlan, after: Settling, stage: u16) -> bool
    requires there { stage < length plan.now.stages }
    ensures follows { OnTrue result (Follows plan.now after.stage after.outcome stage) }
    ensures none { OnFalse result (¬ Follows plan.now after.stage after.outcome stage) }
{
    let form = plan.form(stage);
    let is_only = match plan.sources(stage) {
        [source] => *source == after.stage,
        _ => false,
    };
    is_only && is_decided_by_first(form) && is_needed(due_one(form, after.outcome))
}

/// Whether a function is to be called.
fn is_needed(due: Due) -> bool
    ensures { result ≡ is_needed due }
{
    match due {
        Due::Needs(_) => true,
        _ => false,
    }
}
