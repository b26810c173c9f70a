//! What is due.
ghost use Rattle.std.specs.Prelude.{IfNone, IfSome};
ghost use Rattle.cf_due.specs.Due.{FitBehind, IsDue, NothingIsDue, known_of, words_of};

use crate::abandoning::abandon_due;
use crate::claiming::claim_of;
use crate::finishing::{Finishing, finish_due};
use crate::promises::{cancel_due, link_due};
use crate::timers::timer_due;
use cf_notes::{Noted, Owed, Want};
use cf_row::Replica;
use cf_watch::Watch;

/// What is to be put next.
#[derive(Clone, Copy, Debug, PartialEq, Eq)]
pub enum Due {
    /// The finish of a stage whose function has ended, and the claim of another one.
    Finish(Finishing),
    /// What fails a stage whose session is gone.
    Abandon(Want),
    /// What settles a promise as the stage that it was given.
    Link(Want),
    /// What cancels a promise that was given no stage.
    Cancel(Want),
    /// What a timer settles its stage with.
    Timer(Want),
    /// The claim of a stage.
    Claim(Want),
}

/// What is to be put next for a request: the first of these that is due, of each the lowest stage's. The notes and what is
/// owed have an entry for each stage, the watch tells which sessions are gone, and the store's clock has come to `clock`
/// milliseconds at least. A claim is due only where this process may claim a stage: one of its threads is free, or gets
/// free by the finish.
pub fn next_due(
    view: &Replica,
    notes: &[Noted],
    owed: &[Option<Owed>],
    watch: &Watch,
    clock: u64,
    may_claim: bool,
) -> Option<Due>
    ensures due { IfSome result (λ d. IsDue (known_of view.now notes.now owed.now watch.now clock may_claim) d) }
    ensures fits { IfSome result (λ d. FitBehind view.now (words_of d)) }
    ensures none { IfNone result
        (NothingIsDue (known_of view.now notes.now owed.now watch.now clock may_claim)) }
{
    if let Some(finishing) = finish_due(view, notes, owed, may_claim) {
        return Some(Due::Finish(finishing));
    }
    if let Some(want) = abandon_due(view, watch) {
        return Some(Due::Abandon(want));
    }
    if let Some(want) = link_due(view, notes) {
        return Some(Due::Link(want));
    }
    if let Some(want) = cancel_due(view, notes) {
        return Some(Due::Cancel(want));
    }
    if let Some(want) = timer_due(view, notes, clock) {
        return Some(Due::Timer(want));
    }
    if !may_claim {
        return None;
    }
    let want = claim_of(view, notes)?;
    Some(Due::Claim(want))
}
