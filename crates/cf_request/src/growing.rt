//! By how much the room of a request grows.
ghost use Rattle.std.specs.Prelude.{IfNone, IfSome};
ghost use Rattle.cf_request.specs.Growing.{IsFull, IsGrowth};

use cf_ledger::Ledger;

/// For so many stages more there is room at least, if the plan has place for them.
const LEAST: u16 = 16;

/// For how many stages more there is to be room: for as many as there are by now, and for 16 at least, or else for as
/// many as the plan has place for. There are none where it has no place for one.
pub(crate) fn room_for(ledger: &Ledger) -> Option<u16>
    ensures growth { IfSome result (λ more. IsGrowth ledger.now more) }
    ensures none { IfNone result (IsFull ledger.now) }
{
    let mut more = ledger.stages().max(LEAST);
    while more > 0 {
        if ledger.has_place(more) {
            return Some(more);
        }
        more -= 1;
    }
    None
}
