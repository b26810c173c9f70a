//! How long nothing is to be done.
ghost use Rattle.std.specs.Prelude.{◌≤◌, length};
ghost use Rattle.std.specs.Bool.{OnFalse, OnTrue};
ghost use Rattle.cf_row.specs.Rows.{stages_of};
ghost use Rattle.cf_watch.specs.Watches.{Watch};
ghost use Rattle.cf_turn.specs.Quiets.{IsAfter, IsTillShown, IsWithin, OnlyOwn};
ghost use Rattle.cf_turn.specs.Turns.{moment_of};

use cf_row::Replica;
use cf_row::laws::claims_are_one_sessions;

/// What is known of a work in which nothing is to be done.
#[derive(Clone, Copy)]
pub(crate) struct Quiet {
    /// Before this moment of the process's clock nothing is to be done,
    pub(crate) until: u64,
    /// while the store's clock hasn't come to this moment, that of its first timer,
    pub(crate) clock: u64,
    /// and no stage may be claimed, unless one might have been.
    pub(crate) claims: bool,
    /// So many threads it takes.
    pub(crate) busy: usize,
}

impl Quiet {
    /// Whether nothing is to be done by now.
    pub(crate) fn covers(self, now: u64, clock: u64, may_claim: bool) -> bool
        ensures { OnTrue result ((watch : Watch) → IsWithin self (moment_of now watch clock may_claim)) }
    {
        now < self.until && clock < self.clock && (self.claims || !may_claim)
    }
}

/// Whether all open claims are those of a view's session.
pub(crate) fn only_own(view: &Replica) -> bool
    ensures { OnTrue result (OnlyOwn view.now (stages_of view.now)) }
{
    let _few = view.ledger().stages();
    claims_are_one_sessions();
    let session = view.session();
    let mut from = 0;
    while let Some(claim) = view.open_claim(from) {
        if claim.session != session {
            return false;
        }
        from = claim.stage + 1;
    }
    true
}

/// A moment up to which no further stage is shown.
pub(crate) fn till_shown(wanted: &[Option<u64>], now: u64) -> u64
    ensures { IsTillShown wanted.now now result (length wanted.now) }
{
    let mut until = u64::MAX;
    for stage in 0..wanted.len() {
        until = earlier(until, wanted[stage], now);
    }
    until
}

/// The earlier one of two moments, if the second is there and hasn't come.
pub(crate) fn earlier(until: u64, from: Option<u64>, now: u64) -> u64
    ensures low { result ≤ until }
    ensures after { IsAfter from now result }
{
    match from {
        Some(from) if now < from => until.min(from),
        _ => until,
    }
}
