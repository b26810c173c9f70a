//! The claim of a stage whose function the process knows.
ghost use Rattle.std.specs.Prelude.{◌≡◌, ◌<◌, IfNone, IfSome, None, Some};
ghost use Rattle.cf_row.specs.Next.{Finishes};
ghost use Rattle.cf_row.specs.Rows.{stages_of};
ghost use Rattle.cf_due.specs.Claiming.{ClaimsBehind, ClaimsNext, IsNextCall, NoneToCall, is_known};

use cf_event::{Event, encode};
use cf_ledger::Held;
use cf_notes::{Note, Noted, Source, Want, function_of};
use cf_row::Replica;
use cf_row::laws::next_claims_are_granted;

/// The claim of the lowest stage that is ready and whose function the process knows.
pub(crate) fn claim_of(view: &Replica, notes: &[Noted]) -> Option<Want>
    ensures claim { IfSome result (λ want. ClaimsNext view.now notes.now want) }
    ensures none { IfNone result (NoneToCall view.now notes.now None (stages_of view.now)) }
{
    let _few = view.ledger().stages();
    next_claims_are_granted();
    let stage = next_call(view, notes, None)?;
    let who = view.number();
    Some(Want {
        word: encode(&Event::Claim { who, stage }),
        note: Note::Nothing,
        source: Source::Nothing,
    })
}

/// The claim of the lowest stage that is ready behind a finish and whose function the process knows.
pub(crate) fn claim_behind(view: &Replica, notes: &[Noted], held: Held, finish: u64) -> Option<Want>
    requires { Finishes view.now held finish }
    ensures claim { IfSome result (λ want. ClaimsBehind view.now notes.now held finish want) }
    ensures none { IfNone result (NoneToCall view.now notes.now (Some held) (stages_of view.now)) }
{
    let _few = view.ledger().stages();
    next_claims_are_granted();
    let stage = next_call(view, notes, Some(held))?;
    let Some(who) = view.ledger().claimant(held.stage) else {
        unreachable!();
    };
    Some(Want {
        word: encode(&Event::Claim { who, stage }),
        note: Note::Nothing,
        source: Source::Nothing,
    })
}

/// The lowest stage that this view's session could claim, as it is or behind a finish, and whose function the process
/// knows.
fn next_call(view: &Replica, notes: &[Noted], ended: Option<Held>) -> Option<u16>
    ensures next { IfSome result (λ i. IsNextCall view.now notes.now ended i) }
    ensures there { IfSome result (λ i. i < stages_of view.now) }
    ensures none { IfNone result (NoneToCall view.now notes.now ended (stages_of view.now)) }
{
    let _few = view.ledger().stages();
    let mut from = 0;
    while let Some(stage) = view.next_claim(ended, from) {
        if is_known(function_of(notes, stage)) {
            return Some(stage);
        }
        from = stage + 1;
    }
    None
}

/// Whether the process knows a function: 0 stands for one that it doesn't.
fn is_known(function: Option<u32>) -> bool
    ensures { result ≡ is_known function }
{
    match function {
        Some(function) => function > 0,
        None => false,
    }
}
