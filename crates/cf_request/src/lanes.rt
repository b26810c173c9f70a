//! A caller's step: it finishes what it holds, and claims what its lane has.
ghost use Rattle.std.specs.Prelude.{◌≡◌, ◌↔◌, ◌<◌, ◌≤◌, IfErr, IfSome, IsTrue, OnOk, Some, true};
ghost use Rattle.cf_event.specs.Words.{word_of};
ghost use Rattle.cf_forms.specs.Plans.{function_at};
ghost use Rattle.cf_ledger.specs.Ledgers.{stages_of, state_of};
ghost use Rattle.cf_ledger.specs.Steps.{IsHeld};
ghost use Rattle.cf_model.specs.Graphs.{stage_in};
ghost use Rattle.cf_model.specs.States.{claim_at, is_ready};
ghost use Rattle.cf_request.specs.Lanes.{FinishesHeld, FinishesStage, IsIdle, IsNoFinish, TakesIn};
ghost use Rattle.cf_request.specs.Telling.{TellsEvent};

use crate::teller::Teller;
use cf_event::{LAST_CALLER, encode};
use cf_ledger::{Event, Finish, Held, Reply, StepFault, Taken};
use cf_model::{Claimed, Finished};

/// Whether nothing is held and no stage of the lane is ready. It looks at no stage.
#[inline(always)]
pub(crate) fn is_idle(teller: &Teller, lane: u8, held: Option<Held>) -> bool
    requires { lane < teller.now.lanes.count }
    ensures { IsTrue result ↔ IsIdle lane held teller.now }
{
    match held {
        None => teller.ready(lane) == 0,
        Some(_) => false,
    }
}

/// Whether a caller can finish what it holds, if it holds a stage. It is refused for the first of: its caller's number,
/// the stage, its claim.
#[inline(always)]
pub(crate) fn check_held(teller: &Teller, who: u8, held: Option<Held>) -> Result<(), StepFault>
    ensures caller { OnOk result (who ≤ 63) }
    ensures held { OnOk result (IsHeld who held (state_of teller.now.ledger)) }
    ensures few { OnOk result (IfSome held (λ h. h.stage ≤ 4095)) }
    ensures why { IfErr result (λ fault. IsNoFinish who held (state_of teller.now.ledger) fault) }
{
    if who > LAST_CALLER {
        return Err(StepFault::NoCaller);
    }
    match held {
        None => Ok(()),
        Some(held) => check_claim(teller, who, held),
    }
}

/// Whether a caller can finish a stage.
#[inline(always)]
fn check_claim(teller: &Teller, who: u8, held: Held) -> Result<(), StepFault>
    requires caller { who ≤ 63 }
    ensures held { OnOk result (IsHeld who (Some held) (state_of teller.now.ledger)) }
    ensures few { OnOk result (held.stage ≤ 4095) }
    ensures why { IfErr result (λ fault. IsNoFinish who (Some held) (state_of teller.now.ledger) fault) }
{
    if held.stage >= teller.stages() {
        return Err(StepFault::NoStage);
    }
    if teller.ledger().claimant(held.stage) != Some(who) {
        return Err(StepFault::NotHeld);
    }
    Ok(())
}

/// Finishes what a caller holds, if it holds a stage, where memory was found for a word.
#[inline(always)]
pub(crate) fn finish_held(teller: &mut Teller, who: u8, held: Option<Held>) -> Option<Finish>
    requires caller { who ≤ 63 }
    requires held { IsHeld who held (state_of teller.old.ledger) }
    requires few { IfSome held (λ h. h.stage ≤ 4095) }
    requires memory { 0 < teller.old.ledger.free }
    ensures { FinishesHeld who held teller.old result teller.new }
{
    match held {
        None => None,
        Some(held) => Some(finish(teller, who, held)),
    }
}

/// Finishes a stage that the caller has claimed, where memory was found for a word.
#[inline(always)]
pub(crate) fn finish(teller: &mut Teller, who: u8, held: Held) -> Finish
    requires caller { who ≤ 63 }
    requires there { held.stage < stages_of teller.old.ledger }
    requires few { held.stage ≤ 4095 }
    requires held { claim_at (state_of teller.old.ledger) held.stage ≡ Some who }
    requires memory { 0 < teller.old.ledger.free }
    ensures { FinishesStage who held teller.old result teller.new }
{
    let word = encode(&Event::Finish {
        who,
        stage: held.stage,
        answer: held.answer,
    });
    match teller.finish(who, held.stage, held.answer, word) {
        Finished::Won => Finish { late: false, word },
        Finished::Late => Finish { late: true, word },
        Finished::NotYours => unreachable!(),
    }
}

/// Claims the lowest ready stage of a lane, if there is one, where memory was found for a word.
#[inline(always)]
pub(crate) fn take(teller: &mut Teller, who: u8, lane: u8) -> Option<Taken>
    requires caller { who ≤ 63 }
    requires lane { lane < teller.old.lanes.count }
    requires memory { 0 < teller.old.ledger.free }
    ensures { TakesIn who lane teller.old result teller.new }
{
    let Some(stage) = teller.lowest(lane) else {
        return None;
    };
    Some(claim(teller, who, stage))
}

/// Claims a ready stage, where memory was found for a word.
#[inline(always)]
fn claim(teller: &mut Teller, who: u8, stage: u16) -> Taken
    requires caller { who ≤ 63 }
    requires there { stage < stages_of teller.old.ledger }
    requires few { stage ≤ 4095 }
    requires ready { is_ready (stage_in (state_of teller.old.ledger).stages stage) ≡ true }
    requires memory { 0 < teller.old.ledger.free }
    ensures stage { result.stage ≡ stage }
    ensures word { result.word ≡ word_of (Event.Claim who stage) }
    ensures function { result.function ≡ function_at (state_of teller.old.ledger).plan.stages stage }
    ensures done { TellsEvent (Event.Claim who stage) teller.old
        (Reply.Claim (Claimed.Granted result.args)) teller.new }
{
    let function = teller.ledger().function(stage);
    let word = encode(&Event::Claim { who, stage });
    match teller.claim(who, stage, word) {
        Claimed::Granted(args) => Taken {
            stage,
            function,
            args,
            word,
        },
        _ => unreachable!(),
    }
}
