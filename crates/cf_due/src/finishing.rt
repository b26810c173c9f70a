//! The finish of a stage whose function has ended.
ghost use Rattle.std.specs.Prelude.{◌≡◌, ◌<◌, IfNone, IfSome};
ghost use Rattle.cf_row.specs.Next.{Finishes, HasNoClaim};
ghost use Rattle.cf_row.specs.Numbers.{FollowsRule};
ghost use Rattle.cf_row.specs.Puts.{pairs_of};
ghost use Rattle.cf_row.specs.Rows.{stages_of};
ghost use Rattle.cf_due.specs.Finishing.{ClaimsIfMay, FinishesOwed, IsFinishDue, NoneToFinish, answer_by, held_by, note_by, owed_at, promise_by, settled_as, source_by};

use crate::claiming::claim_behind;
use crate::settling::place_of;
use cf_forms::Answer;
use cf_ledger::Held;
use cf_notes::{EndsWith, Note, Noted, Owed, Source, Want, promise_of};
use cf_outcome::Value;
use cf_row::Replica;

/// The finish of a stage whose function has ended, and the claim of another one, which is granted right behind it.
#[derive(Clone, Copy, Debug, PartialEq, Eq)]
pub struct Finishing {
    pub stage: u16,
    pub finish: Want,
    pub claim: Option<Want>,
}

/// The finish of the lowest stage of which something is owed that can be put, and where the process may claim a stage, the
/// claim of the next one.
pub(crate) fn finish_due(
    view: &Replica,
    notes: &[Noted],
    owed: &[Option<Owed>],
    may_claim: bool,
) -> Option<Finishing>
    ensures finish { IfSome result (λ f. IsFinishDue view.now notes.now owed.now may_claim f) }
    ensures none { IfNone result (NoneToFinish view.now owed.now (stages_of view.now)) }
{
    let who = view.number();
    for stage in 0..view.ledger().stages() {
        if let Some(owed) = owed_at(owed, stage) {
            if let Some(finish) = finish_if_open(view, notes, stage, who, owed) {
                let held = held_by(view, notes, stage, owed);
                let claim = claim_if_may(view, notes, may_claim, held, finish.word);
                return Some(Finishing {
                    stage,
                    finish,
                    claim,
                });
            }
        }
    }
    None
}

/// What a stage's function came to, if that is still to be put.
fn owed_at(owed: &[Option<Owed>], stage: u16) -> Option<Owed>
    ensures { result ≡ owed_at owed.now stage }
{
    match owed.get(stage as usize) {
        Some(owed) => *owed,
        None => None,
    }
}

/// The claim behind a finish, if the process may claim a stage.
fn claim_if_may(
    view: &Replica,
    notes: &[Noted],
    may_claim: bool,
    held: Held,
    finish: u64,
) -> Option<Want>
    requires { Finishes view.now held finish }
    ensures { ClaimsIfMay view.now notes.now may_claim held finish result }
{
    if may_claim {
        claim_behind(view, notes, held, finish)
    } else {
        None
    }
}

/// What finishes a stage with what its function came to, if this view's session has its claim, whose number is `who`. It
/// costs one look where no claim is open under that.
fn finish_if_open(view: &Replica, notes: &[Noted], stage: u16, who: u8, owed: Owed) -> Option<Want>
    requires there { stage < stages_of view.now }
    requires rule { FollowsRule (pairs_of view.now.seen) (view.now.session, who) }
    ensures finish { IfSome result (λ want. FinishesOwed view.now notes.now stage owed want) }
    ensures none { IfNone result (HasNoClaim view.now stage) }
{
    if view.ledger().claimant(stage) != Some(who) {
        return None;
    }
    finish_of(view, notes, stage, owed)
}

/// What finishes a stage with what its function came to, if this view's session has its claim.
pub(crate) fn finish_of(view: &Replica, notes: &[Noted], stage: u16, owed: Owed) -> Option<Want>
    ensures finish { IfSome result (λ want. FinishesOwed view.now notes.now stage owed want) }
    ensures none { IfNone result (HasNoClaim view.now stage) }
{
    let held = held_by(view, notes, stage, owed);
    let word = view.finish(held)?;
    let promise = promise_by(view, notes, stage, owed.answer);
    Some(Want {
        word,
        note: note_by(owed, promise),
        source: source_by(owed, promise, stage),
    })
}

/// The stage, and what the words say that its function came to.
pub(crate) fn held_by(view: &Replica, notes: &[Noted], stage: u16, owed: Owed) -> Held
    ensures { result ≡ held_by view.now notes.now stage owed }
{
    let promise = promise_by(view, notes, stage, owed.answer);
    let place = place_of(view);
    Held {
        stage,
        answer: answer_by(owed, promise, place),
    }
}

/// The promise of a stage that is settled as the stage that its function gave, where it gave one.
fn promise_by(view: &Replica, notes: &[Noted], stage: u16, ends: EndsWith) -> Option<u16>
    ensures { result ≡ promise_by view.now notes.now stage ends }
{
    match ends {
        EndsWith::Links { stage: given } => {
            settled_as(view.ledger().stages(), given, promise_of(notes, stage))
        }
        _ => None,
    }
}

/// The promise, if the stage that was given is there, and isn't the promise.
fn settled_as(stages: u16, given: u16, promise: Option<u16>) -> Option<u16>
    ensures { result ≡ settled_as stages given promise }
{
    let promise = promise?;
    if given < stages && given != promise {
        Some(promise)
    } else {
        None
    }
}

/// What the words say that a function came to, which stands at a place.
fn answer_by(owed: Owed, promise: Option<u16>, place: u32) -> Answer
    ensures { result ≡ answer_by owed.is_error promise place owed.answer }
{
    if owed.is_error {
        return Answer::Throw(place);
    }
    match owed.answer {
        EndsWith::Gives => Answer::Give(Value::Int(place.cast_signed())),
        EndsWith::NoValue => Answer::Give(Value::Nil),
        EndsWith::Throws => Answer::Throw(place),
        EndsWith::Passes { code } => Answer::Throw(code),
        EndsWith::Links { .. } => match promise {
            Some(promise) => Answer::Link(promise),
            None => Answer::Throw(place),
        },
    }
}

/// The note beside a finish: which stage the promise was given.
fn note_by(owed: Owed, promise: Option<u16>) -> Note
    ensures { result ≡ note_by owed.is_error promise owed.answer }
{
    if owed.is_error || promise.is_none() {
        return Note::Nothing;
    }
    match owed.answer {
        EndsWith::Links { stage } => Note::Gives { stage },
        _ => Note::Nothing,
    }
}

/// Whose payload stands beside a finish.
fn source_by(owed: Owed, promise: Option<u16>, stage: u16) -> Source
    ensures { result ≡ source_by owed.is_error promise stage owed.answer }
{
    if owed.is_error {
        return Source::Error { stage };
    }
    match owed.answer {
        EndsWith::Gives => Source::Ended { stage },
        EndsWith::NoValue => Source::Nothing,
        EndsWith::Throws => Source::Ended { stage },
        EndsWith::Passes { .. } => Source::Nothing,
        EndsWith::Links { .. } => match promise {
            Some(_) => Source::Nothing,
            None => Source::Error { stage },
        },
    }
}
