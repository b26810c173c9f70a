//! What is put for a session that is gone.
ghost use Rattle.std.specs.Prelude.{◌≡◌, ◌≢◌, ◌⊎◌, ◌<◌, IfNone, IfSome, None};
ghost use Rattle.std.specs.Bool.{OnFalse, OnTrue};
ghost use Rattle.cf_model.specs.States.{outcome_at};
ghost use Rattle.cf_row.specs.Grants.{IsHeldBy};
ghost use Rattle.cf_row.specs.Rows.{stages_of, state_of};
ghost use Rattle.cf_due.specs.Abandoning.{IsAbandonDue, IsOtherGone, NoneToAbandon};

use crate::settling::place_of;
use cf_notes::{Note, Source, Want};
use cf_row::laws::claims_are_one_sessions;
use cf_row::{Claim, Replica};
use cf_watch::Watch;

/// What fails the lowest stage that another session has which is gone.
pub(crate) fn abandon_due(view: &Replica, watch: &Watch) -> Option<Want>
    ensures abandon { IfSome result (λ want. IsAbandonDue view.now watch.now want) }
    ensures none { IfNone result (NoneToAbandon view.now watch.now (stages_of view.now)) }
{
    let claim = next_of_gone(view, watch)?;
    let Some(word) = view.abandon(claim.session, 0, place_of(view)) else {
        unreachable!();
    };
    Some(Want {
        word,
        note: Note::Abandons,
        source: Source::Gone { stage: claim.stage },
    })
}

/// The lowest stage that another session has which is gone, with that session.
fn next_of_gone(view: &Replica, watch: &Watch) -> Option<Claim>
    ensures gone { IfSome result (λ c. IsOtherGone view.now watch.now c.session) }
    ensures held { IfSome result (λ c. IsHeldBy view.now c.session c.stage) }
    ensures there { IfSome result (λ c. c.stage < stages_of view.now) }
    ensures lowest { IfSome result (λ c. NoneToAbandon view.now watch.now c.stage) }
    ensures none { IfNone result (NoneToAbandon view.now watch.now (stages_of view.now)) }
{
    let _few = view.ledger().stages();
    claims_are_one_sessions();
    let mut from = 0;
    while let Some(claim) = view.open_claim(from) {
        if is_abandoned(view, watch, claim) {
            return Some(claim);
        }
        from = claim.stage + 1;
    }
    None
}

/// Whether a stage with an open claim isn't settled, and its session is gone.
fn is_abandoned(view: &Replica, watch: &Watch, claim: Claim) -> bool
    requires { claim.stage < stages_of view.now }
    ensures unsettled { OnTrue result (outcome_at (state_of view.now) claim.stage ≡ None) }
    ensures gone { OnTrue result (IsOtherGone view.now watch.now claim.session) }
    ensures neither { OnFalse result
        ((outcome_at (state_of view.now) claim.stage ≢ None) ⊎ (¬ IsOtherGone view.now watch.now claim.session)) }
{
    if view.ledger().outcome(claim.stage).is_some() {
        return false;
    }
    is_other_gone(view, watch, claim.session)
}

/// Whether a session is another one, and gone.
fn is_other_gone(view: &Replica, watch: &Watch, session: u64) -> bool
    ensures gone { OnTrue result (IsOtherGone view.now watch.now session) }
    ensures stays { OnFalse result (¬ IsOtherGone view.now watch.now session) }
{
    session != view.session() && watch.is_gone(session)
}
