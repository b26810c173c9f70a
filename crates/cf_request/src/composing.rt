//! Composes whose functions may answer any stage.
//!
//! A finish links a compose to a lower stage only. So a compose is attached with a source right below it, its relay. If
//! its function answers a stage that is higher, the relay follows that stage, and the compose is finished with a link
//! to the relay.
ghost use Rattle.std.specs.Prelude.{◌≡◌, ◌↔◌, ◌+◌, ◌<◌, ◌≤◌, IfErr, IsTrue, OnOk};
ghost use Rattle.cf_ledger.specs.Ledgers.{stages_of, state_of};
ghost use Rattle.cf_request.specs.Attaching.{TellsAttach, TellsAttaches};
ghost use Rattle.cf_request.specs.Composing.{HaveWords, MayCompose, MayLink, MayNotCompose, MayNotLink, attaches_compose, attaches_relay, composes, form_of};

use crate::attaching::attach;
use crate::teller::Teller;
use cf_event::{LAST_CALLER, LAST_FUNCTION};
use cf_forms::{Form, Of};
use cf_ledger::{LedgerFault, StepFault};

/// Whose function names the stage that a compose takes its outcome from.
#[derive(Clone, Copy, Debug, PartialEq, Eq)]
pub enum Composing {
    /// That of `thenCompose`, which is called with the source's value.
    Compose,
    /// That of `exceptionallyCompose`, which is called with the source's fault.
    ExceptionallyCompose,
}

/// A compose, and its relay below it.
#[derive(Clone, Copy, Debug, PartialEq, Eq)]
pub struct Composed {
    pub relay: u16,
    pub stage: u16,
}

/// Whether a caller may attach a compose with its relay. It is refused for the first of: its caller's and its function's
/// number, a source that isn't there, the room.
pub(crate) fn check_composing(
    teller: &Teller,
    who: u8,
    source: u16,
    function: u16,
) -> Result<(), LedgerFault>
    ensures may { OnOk result (MayCompose who source function (state_of teller.now.ledger)) }
    ensures why { IfErr result (λ fault. MayNotCompose who source function (state_of teller.now.ledger) fault) }
{
    if !have_words(who, function) {
        return Err(LedgerFault::NoEvent);
    }
    if source >= teller.stages() {
        return Err(LedgerFault::NoStage);
    }
    if teller.ledger().room() < 2 {
        return Err(LedgerFault::NoRoom);
    }
    Ok(())
}

/// Whether a caller and a function have words.
fn have_words(who: u8, function: u16) -> bool
    ensures { IsTrue result ↔ HaveWords who function }
{
    who <= LAST_CALLER && function <= LAST_FUNCTION
}

/// Attaches a relay and the compose above it in a lane, where memory was found for two words.
pub(crate) fn compose(
    teller: &mut Teller,
    who: u8,
    how: Composing,
    source: u16,
    function: u16,
    lane: u8,
) -> Composed
    requires may { MayCompose who source function (state_of teller.old.ledger) }
    requires lane { lane < teller.old.lanes.count }
    requires memory { 2 ≤ teller.old.ledger.free }
    ensures tells { TellsAttaches lane (composes who how source function) teller.old teller.new }
    ensures relay { result.relay ≡ stages_of teller.old.ledger }
    ensures stage { result.stage ≡ stages_of teller.old.ledger + 1 }
{
    let relay = attach_relay(teller, who, lane);
    let stage = attach_compose(teller, who, how, source, function, lane);
    Composed { relay, stage }
}

/// Attaches a source, where memory was found for a word.
fn attach_relay(teller: &mut Teller, who: u8, lane: u8) -> u16
    requires caller { who ≤ 63 }
    requires lane { lane < teller.old.lanes.count }
    requires room { 0 < (state_of teller.old.ledger).plan.room }
    requires memory { 0 < teller.old.ledger.free }
    ensures tells { TellsAttach lane (attaches_relay who) teller.old teller.new }
    ensures at { result ≡ stages_of teller.old.ledger }
    ensures next { stages_of teller.new.ledger ≡ result + 1 }
    ensures room { (state_of teller.new.ledger).plan.room + 1 ≡ (state_of teller.old.ledger).plan.room }
    ensures memory { teller.new.ledger.free + 1 ≡ teller.old.ledger.free }
    ensures lanes { teller.new.lanes.count ≡ teller.old.lanes.count }
{
    attach(teller, who, Form::Source, Of::None, None, lane)
}

/// Attaches a compose over a source, where memory was found for a word.
fn attach_compose(
    teller: &mut Teller,
    who: u8,
    how: Composing,
    source: u16,
    function: u16,
    lane: u8,
) -> u16
    requires words { HaveWords who function }
    requires there { source < stages_of teller.old.ledger }
    requires lane { lane < teller.old.lanes.count }
    requires room { 0 < (state_of teller.old.ledger).plan.room }
    requires memory { 0 < teller.old.ledger.free }
    ensures tells { TellsAttach lane (attaches_compose who how source function) teller.old teller.new }
    ensures at { result ≡ stages_of teller.old.ledger }
{
    attach(
        teller,
        who,
        form_of(how),
        Of::One(source),
        Some(function),
        lane,
    )
}

/// The form of a compose whose function is called so.
fn form_of(how: Composing) -> Form
    ensures { result ≡ form_of how }
{
    match how {
        Composing::Compose => Form::Compose,
        Composing::ExceptionallyCompose => Form::ExceptionallyCompose,
    }
}

/// Whether a caller may finish a compose with a stage, by its relay. It is refused for the first of: its caller's number,
/// stages that aren't there or a relay that isn't below the compose, its claim.
pub(crate) fn check_linking(
    teller: &Teller,
    who: u8,
    composed: Composed,
    stage: u16,
) -> Result<(), StepFault>
    ensures may { OnOk result (MayLink who composed stage (state_of teller.now.ledger)) }
    ensures few { OnOk result (composed.stage ≤ 4095) }
    ensures why { IfErr result (λ fault. MayNotLink who composed stage (state_of teller.now.ledger) fault) }
{
    if who > LAST_CALLER {
        return Err(StepFault::NoCaller);
    }
    if !are_stages(composed, stage, teller.stages()) {
        return Err(StepFault::NoStage);
    }
    if teller.ledger().claimant(composed.stage) != Some(who) {
        return Err(StepFault::NotHeld);
    }
    Ok(())
}

/// Whether a relay is below its compose, and both and the stage are among so many.
fn are_stages(composed: Composed, stage: u16, stages: u16) -> bool
    ensures { IsTrue result ↔ (composed.relay < composed.stage) × (composed.stage < stages) × (stage < stages) }
{
    composed.relay < composed.stage && composed.stage < stages && stage < stages
}
