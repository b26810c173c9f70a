//! Whether nothing is left to do in a request.
ghost use Rattle.std.specs.Prelude.{◌≡◌};
ghost use Rattle.std.specs.Bool.{OnFalse, OnTrue};
ghost use Rattle.cf_row.specs.Rows.{stages_of};
ghost use Rattle.cf_due.specs.Abandoning.{IsOtherGone};
ghost use Rattle.cf_turn.specs.Closing.{AllSettled, IsDone, NobodyAtWork};
ghost use Rattle.cf_turn.specs.Works.{is_at};

use cf_part::Part;
use cf_row::laws::claims_are_one_sessions;
use cf_row::{Claim, Replica};
use cf_watch::Watch;

/// Whether nothing is left to do in a request of a flow.
pub(crate) fn is_done(part: &Part, watch: &Watch) -> bool
    ensures done { OnTrue result (IsDone part.now watch.now) }
    ensures open { OnFalse result (¬ IsDone part.now watch.now) }
{
    let view = part.view();
    if !part.is_flow() || !all_settled(view) {
        return false;
    }
    nobody_at_work(view, watch)
}

/// Whether each stage is settled.
fn all_settled(view: &Replica) -> bool
    ensures settled { OnTrue result (AllSettled view.now (stages_of view.now)) }
    ensures open { OnFalse result (¬ AllSettled view.now (stages_of view.now)) }
{
    let ledger = view.ledger();
    for stage in 0..ledger.stages() {
        if ledger.outcome(stage).is_none() {
            return false;
        }
    }
    true
}

/// Whether no claim is open but of other sessions that are gone.
fn nobody_at_work(view: &Replica, watch: &Watch) -> bool
    ensures nobody { OnTrue result (NobodyAtWork view.now watch.now (stages_of view.now)) }
    ensures one { OnFalse result (¬ NobodyAtWork view.now watch.now (stages_of view.now)) }
{
    let _few = view.ledger().stages();
    claims_are_one_sessions();
    let mut from = 0;
    while let Some(claim) = view.open_claim(from) {
        if !is_left(view, watch, claim) {
            return false;
        }
        from = claim.stage + 1;
    }
    true
}

/// Whether the session of an open claim is another one that is gone.
fn is_left(view: &Replica, watch: &Watch, claim: Claim) -> bool
    ensures gone { OnTrue result (IsOtherGone view.now watch.now claim.session) }
    ensures stays { OnFalse result (¬ IsOtherGone view.now watch.now claim.session) }
{
    claim.session != view.session() && watch.is_gone(claim.session)
}

/// Whether a request was closed with just so many entries.
pub(crate) fn is_at(closed_at: Option<usize>, seen: usize) -> bool
    ensures { result ≡ is_at closed_at seen }
{
    match closed_at {
        Some(at) => at == seen,
        None => false,
    }
}
