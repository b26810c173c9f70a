//! Promises of stages that compose: a promise ends as the stage that it was given.
ghost use Rattle.std.specs.Prelude.{◌<◌, ℕ, IfNone, IfSome};
ghost use Rattle.cf_outcome.specs.declared.outcome.Outcome.{Outcome};
ghost use Rattle.cf_row.specs.Rows.{stages_of};
ghost use Rattle.cf_due.specs.Promises.{IsCancelDue, IsLinkDue, IsToCancel, IsToLink, NoneToCancel, NoneToLink};

use crate::settling::settle;
use cf_notes::{Noted, Want, given_of, promise_of};
use cf_outcome::{Cause, Outcome};
use cf_row::Replica;

/// What settles the lowest promise that is open though the stage that it was given has ended.
pub(crate) fn link_due(view: &Replica, notes: &[Noted]) -> Option<Want>
    ensures link { IfSome result (λ want. IsLinkDue view.now notes.now want) }
    ensures none { IfNone result (NoneToLink view.now notes.now (stages_of view.now)) }
{
    for promise in 0..view.ledger().stages() {
        if let Some(outcome) = link_of(view, notes, promise) {
            return Some(settle(view, promise, outcome));
        }
    }
    None
}

/// How the stage has ended that an open promise was given.
fn link_of(view: &Replica, notes: &[Noted], promise: u16) -> Option<Outcome>
    requires { promise < stages_of view.now }
    ensures link { IfSome result (λ o. IsToLink view.now notes.now promise o) }
    ensures none { IfNone result ((o : Outcome) → ¬ IsToLink view.now notes.now promise o) }
{
    let ledger = view.ledger();
    if ledger.outcome(promise).is_some() {
        return None;
    }
    let given = given_of(notes, promise)?;
    if given >= ledger.stages() {
        return None;
    }
    ledger.outcome(given)
}

/// What cancels the promise of the lowest stage that composes and has ended without giving a stage.
pub(crate) fn cancel_due(view: &Replica, notes: &[Noted]) -> Option<Want>
    ensures cancel { IfSome result (λ want. IsCancelDue view.now notes.now want) }
    ensures none { IfNone result (NoneToCancel view.now notes.now (stages_of view.now)) }
{
    for stage in 0..view.ledger().stages() {
        if let Some(promise) = cancel_of(view, notes, stage) {
            let cancelled = Outcome::Fault {
                cause: Cause::Cancelled,
                wrapped: false,
            };
            return Some(settle(view, promise, cancelled));
        }
    }
    None
}

/// The open promise of a stage that has ended without giving a stage.
fn cancel_of(view: &Replica, notes: &[Noted], stage: u16) -> Option<u16>
    requires { stage < stages_of view.now }
    ensures cancel { IfSome result (λ promise. IsToCancel view.now notes.now stage promise) }
    ensures none { IfNone result ((promise : ℕ) → ¬ IsToCancel view.now notes.now stage promise) }
{
    let ledger = view.ledger();
    let _ended = ledger.outcome(stage)?;
    let promise = promise_of(notes, stage)?;
    if promise >= ledger.stages() || ledger.outcome(promise).is_some() {
        return None;
    }
    match given_of(notes, promise) {
        Some(_) => None,
        None => Some(promise),
    }
}
