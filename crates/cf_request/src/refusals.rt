//! Stages that end at once: those of a lane that nobody runs any more, or all.
ghost use Rattle.std.specs.Prelude.{◌≡◌, ◌<◌, ◌≤◌, IfNone, IfSome};
ghost use Rattle.cf_ledger.specs.Ledgers.{stages_of, state_of};
ghost use Rattle.cf_request.specs.Lanes.{NothingIsReady};
ghost use Rattle.cf_request.specs.Refusals.{AllSettled, HasLane, IsCancelled, IsEnded, IsRefused, NoneToEnd, open_below};
ghost use Rattle.cf_request.specs.Relays.{AreLookedAt, AreMarked, AreThere, IsRelayOr, NoneBehind};
ghost use Rattle.cf_request.specs.Settling.{IsOpen, SettlesDue};

use crate::relays::{Relays, first_behind};
use crate::settling::{Due, settle};
use crate::teller::Teller;
use cf_outcome::{Cause, Outcome};

/// Which stages end, and how.
#[derive(Clone, Copy, Debug)]
pub(crate) enum Ending {
    /// The ready stages of a lane fail with a code.
    OfLane { lane: u8, code: u32 },
    /// All open stages are cancelled.
    OfAll,
}

/// Ends these stages, from the lowest on, and before each of them settles all relays whose stages are settled. Memory
/// for a word has to be there for each open stage.
pub(crate) fn end_all(teller: &mut Teller, relays: &Relays, ending: Ending, who: u8)
    requires caller { who ≤ 63 }
    requires lane { HasLane teller.old.lanes.count ending }
    requires relays { AreThere (state_of teller.old.ledger) relays.now.follows.items }
    requires marked { AreMarked relays.now.followed relays.now.follows.items }
    requires none_behind { NoneBehind relays.now.follows.items (state_of teller.old.ledger).stages }
    requires memory { open_below (state_of teller.old.ledger).stages (stages_of teller.old.ledger)
        ≤ teller.old.ledger.free }
    ensures behind { NoneBehind relays.now.follows.items (state_of teller.new.ledger).stages }
    ensures none { NoneToEnd teller.new.lanes.of ending (state_of teller.new.ledger) }
    ensures settles { SettlesDue (IsRelayOr relays.now.follows.items (IsEnded teller.old.lanes.of ending)) who
        teller.old teller.new }
{
    let mut seen = teller.told().len();
    while let Some(due) = next_ended(teller, relays, &mut seen, ending) {
        settle(teller, who, &due);
    }
}

/// How many stages are open. It costs a look at each stage.
pub(crate) fn open_stages(teller: &Teller) -> u16
    ensures { result
        ≡ open_below (state_of teller.now.ledger).stages (stages_of teller.now.ledger) }
{
    let mut count: u16 = 0;
    for i in 0..teller.stages() {
        if teller.outcome(i).is_none() {
            count += 1;
        }
    }
    count
}

/// The first relay that is open though its stage is settled, or else the lowest stage that ends. Of what is told so many
/// were looked at.
fn next_ended(teller: &Teller, relays: &Relays, seen: &mut usize, ending: Ending) -> Option<Due>
    requires lane { HasLane teller.now.lanes.count ending }
    requires relays { AreThere (state_of teller.now.ledger) relays.now.follows.items }
    requires marked { AreMarked relays.now.followed relays.now.follows.items }
    requires seen { AreLookedAt seen.old teller.now.told relays.now.follows.items (state_of teller.now.ledger).stages }
    ensures is_open { IfSome result (λ d. IsOpen (state_of teller.now.ledger) d.stage) }
    ensures due { IfSome result (λ d.
        IsRelayOr relays.now.follows.items (IsEnded teller.now.lanes.of ending) teller.now d) }
    ensures behind { IfNone result (NoneBehind relays.now.follows.items (state_of teller.now.ledger).stages) }
    ensures seen { AreLookedAt seen.new teller.now.told relays.now.follows.items (state_of teller.now.ledger).stages }
    ensures none { IfNone result (NoneToEnd teller.now.lanes.of ending (state_of teller.now.ledger)) }
{
    if let Some(due) = first_behind(teller, relays, *seen) {
        return Some(due);
    }
    *seen = teller.told().len();
    lowest_ended(teller, ending)
}

/// The lowest stage that ends, with what it is settled with.
fn lowest_ended(teller: &Teller, ending: Ending) -> Option<Due>
    requires { HasLane teller.now.lanes.count ending }
    ensures is_open { IfSome result (λ d. IsOpen (state_of teller.now.ledger) d.stage) }
    ensures due { IfSome result (λ d. IsEnded teller.now.lanes.of ending (state_of teller.now.ledger) d) }
    ensures none { IfNone result (NoneToEnd teller.now.lanes.of ending (state_of teller.now.ledger)) }
{
    match ending {
        Ending::OfLane { lane, code } => lowest_refused(teller, lane, code),
        Ending::OfAll => lowest_open(teller),
    }
}

/// The lowest open stage, with what it is settled with. It costs a look at each stage before it.
fn lowest_open(teller: &Teller) -> Option<Due>
    ensures is_open { IfSome result (λ d. IsOpen (state_of teller.now.ledger) d.stage) }
    ensures due { IfSome result (λ d. IsCancelled (state_of teller.now.ledger) d) }
    ensures none { IfNone result (AllSettled (state_of teller.now.ledger)) }
{
    for stage in 0..teller.stages() {
        if teller.outcome(stage).is_none() {
            return Some(Due {
                stage,
                outcome: Outcome::Fault {
                    cause: Cause::Cancelled,
                    wrapped: false,
                },
            });
        }
    }
    None
}

/// The lowest ready stage of the lane, with what it is settled with.
fn lowest_refused(teller: &Teller, lane: u8, code: u32) -> Option<Due>
    requires lane { lane < teller.now.lanes.count }
    ensures is_open { IfSome result (λ d. IsOpen (state_of teller.now.ledger) d.stage) }
    ensures due { IfSome result (λ d. IsRefused teller.now.lanes.of lane code (state_of teller.now.ledger) d) }
    ensures none { IfNone result (NothingIsReady teller.now lane) }
{
    let Some(stage) = teller.lowest(lane) else {
        return None;
    };
    Some(Due {
        stage,
        outcome: Outcome::Fault {
            cause: Cause::Thrown(code),
            wrapped: false,
        },
    })
}
