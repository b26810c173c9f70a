//! To which session each claim was granted. Where a number is shared, it tells less than that.
ghost use Rattle.std.specs.Prelude.{◌≡◌, ◌≢◌, ◌+◌, ◌<◌, ◌≤◌, ◌++◌, All, Contains, IfNone, IfSome, None, length, vec_capacity};
ghost use Rattle.std.specs.Bool.{OnFalse, OnTrue};
ghost use Rattle.cf_model.specs.States.{claim_at};
ghost use Rattle.cf_ledger.specs.Ledgers.{stages_of, state_of};
ghost use Rattle.cf_row.specs.Grants.{IsHeldIn, NoneHeldIn, NoneOpen, claim_of, granted_by};

use cf_ledger::Ledger;
use cf_model::{Claimed, Event, Reply};

/// A claim that was granted: its stage, and the session that put it.
#[derive(Clone, Copy, Debug, PartialEq, Eq)]
pub struct Claim {
    pub stage: u16,
    pub session: u64,
}

/// Keeps a claim, if this reply to this event grants one.
pub(crate) fn note_claim(claims: &mut Vec<Claim>, event: &Event, reply: &Reply, session: u64)
    requires { length claims.old.items < vec_capacity claims.old }
    ensures items { claims.new.items ≡ claims.old.items ++ claim_of (granted_by event.now reply.now) session }
    ensures kept { vec_capacity claims.new ≡ vec_capacity claims.old }
{
    if let Some(stage) = granted_by(event, reply) {
        claims.push_reserved(Claim { stage, session });
    }
}

/// The stage whose claim this reply to this event grants.
fn granted_by(event: &Event, reply: &Reply) -> Option<u16>
    ensures { result ≡ granted_by event.now reply.now }
{
    match *event {
        Event::Claim { stage, .. } => match *reply {
            Reply::Claim(Claimed::Granted(_)) => Some(stage),
            _ => None,
        },
        _ => None,
    }
}

/// The session of the first of these claims that is of a stage.
pub(crate) fn whose(claims: &[Claim], stage: u16) -> Option<u64>
    ensures there { IfSome result (λ s. Contains claims.now (record { stage = stage; session = s })) }
    ensures none { IfNone result (All (λ c. c.stage ≢ stage) claims.now) }
{
    for claim in claims {
        if claim.stage == stage {
            return Some(claim.session);
        }
    }
    None
}

/// The lowest stage of a graph from a number on whose claim is open.
pub(crate) fn open_in(ledger: &Ledger, from: u16) -> Option<u16>
    ensures claimed { IfSome result (λ i. claim_at (state_of ledger.now) i ≢ None) }
    ensures there { IfSome result (λ i. i < stages_of ledger.now) }
    ensures above { IfSome result (λ i. from ≤ i) }
    ensures first { IfSome result (λ i. NoneOpen from i (state_of ledger.now)) }
    ensures none { IfNone result (NoneOpen from (stages_of ledger.now) (state_of ledger.now)) }
{
    for stage in from..ledger.stages() {
        if ledger.claimant(stage).is_some() {
            return Some(stage);
        }
    }
    None
}

/// The lowest stage of a graph from a number on that a session has, by these claims.
pub(crate) fn held_in(ledger: &Ledger, claims: &[Claim], session: u64, from: u16) -> Option<u16>
    ensures held { IfSome result (λ i. IsHeldIn claims.now (state_of ledger.now) session i) }
    ensures there { IfSome result (λ i. i < stages_of ledger.now) }
    ensures few { IfSome result (λ i. i ≤ 4095) }
    ensures above { IfSome result (λ i. from ≤ i) }
    ensures first { IfSome result (λ i. NoneHeldIn claims.now (state_of ledger.now) session from i) }
    ensures none { IfNone result
        (NoneHeldIn claims.now (state_of ledger.now) session from (stages_of ledger.now)) }
{
    for stage in from..ledger.stages() {
        if is_held(ledger, claims, session, stage) {
            return Some(stage);
        }
    }
    None
}

/// Whether a session has a stage, by these claims.
pub(crate) fn is_held(ledger: &Ledger, claims: &[Claim], session: u64, stage: u16) -> bool
    requires { stage < stages_of ledger.now }
    ensures held { OnTrue result (IsHeldIn claims.now (state_of ledger.now) session stage) }
    ensures none { OnFalse result (¬ IsHeldIn claims.now (state_of ledger.now) session stage) }
{
    ledger.claimant(stage).is_some()
        && ledger.outcome(stage).is_none()
        && has(claims, Claim { stage, session })
}

/// Whether this is one of these claims.
pub(crate) fn has(claims: &[Claim], wanted: Claim) -> bool
    ensures there { OnTrue result (Contains claims.now wanted) }
    ensures none { OnFalse result (¬ Contains claims.now wanted) }
{
    for claim in claims {
        if *claim == wanted {
            return true;
        }
    }
    false
}
