//! A stage as C has it.
ghost use Rattle.std.specs.Prelude.{◌≡◌};
ghost use Rattle.cf_model.specs.declared.stage.Stage.TheVariants.{Pending};
ghost use Rattle.cf_c_handles.specs.Ledgers.{as_stage, who_or_nobody};

use crate::values::{CfOutcome, as_outcome, put_outcome};
use cf_ledger::Stage;

/// Stands for the caller of a stage that nobody has claimed.
const NOBODY: u32 = 4_294_967_295;

/// What a stage is: pending (kind 0), ready (1), claimed (2), linked to `target` (3), or settled (4); and the caller whose
/// claim is open.
#[repr(C)]
#[derive(Clone, Copy)]
pub struct CfStage {
    pub kind: u32,
    pub who: u32,
    pub target: u16,
    pub outcome: CfOutcome,
}

/// A stage that an event changed, and what it is now.
#[repr(C)]
#[derive(Clone, Copy)]
pub struct CfNews {
    pub stage: u16,
    pub now: CfStage,
}

/// A stage for C, with the caller whose claim is open.
#[inline(always)]
pub(crate) fn as_stage(stage: Stage, claimant: Option<u8>) -> CfStage
    ensures { result ≡ as_stage stage claimant }
{
    let mut now = pending(claimant);
    move_on(&mut now, stage, claimant);
    now
}

/// A pending stage: all of it is 0 but the caller.
#[inline(always)]
pub(crate) fn pending(claimant: Option<u8>) -> CfStage
    ensures { result ≡ as_stage Pending claimant }
{
    CfStage {
        kind: 0,
        who: who_or_nobody(claimant),
        target: 0,
        outcome: as_outcome(None),
    }
}

/// Writes how far a stage has come, where it was written as pending. Only the parts that aren't 0 are written, so that
/// nothing is put together in memory first and then copied.
#[inline(always)]
pub(crate) fn move_on(now: &mut CfStage, stage: Stage, claimant: Option<u8>)
    requires { now.old ≡ as_stage Pending claimant }
    ensures { now.new ≡ as_stage stage claimant }
{
    let _claimant = claimant;
    match stage {
        Stage::Pending => {}
        Stage::Ready(_) => now.kind = 1,
        Stage::Claimed => now.kind = 2,
        Stage::Linked(target) => {
            now.kind = 3;
            now.target = target;
        }
        Stage::Settled(outcome) => {
            now.kind = 4;
            put_outcome(&mut now.outcome, outcome);
        }
    }
}

#[inline(always)]
fn who_or_nobody(claimant: Option<u8>) -> u32
    ensures { result ≡ who_or_nobody claimant }
{
    match claimant {
        None => NOBODY,
        Some(who) => u32::from(who),
    }
}
