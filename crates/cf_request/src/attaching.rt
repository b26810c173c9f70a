//! Stages that are attached by words of a caller.
ghost use Rattle.std.specs.Prelude.{◌≡◌, ◌+◌, ◌<◌, ◌≤◌};
ghost use Rattle.cf_event.specs.Words.{IsStage};
ghost use Rattle.cf_ledger.specs.Ledgers.{stages_of, state_of};
ghost use Rattle.cf_model.specs.Ranges.{EventFits};
ghost use Rattle.cf_request.specs.Attaching.{TellsAttach};
ghost use Rattle.cf_request.specs.Ready.{IsLane};

use crate::teller::Teller;
use cf_event::encode;
use cf_forms::{Form, Of};
use cf_ledger::Event;

/// Attaches one stage in a lane by an event that fits, where memory was found for a word. It tells the stage's number.
pub(crate) fn attach(
    teller: &mut Teller,
    who: u8,
    form: Form,
    of: Of,
    function: Option<u16>,
    lane: u8,
) -> u16
    requires caller { who ≤ 63 }
    requires stage { IsStage form of function }
    requires fits { EventFits (stages_of teller.old.ledger) (Event.Attach who form of function) }
    requires lane { IsLane lane teller.old.lanes.count }
    requires room { 0 < (state_of teller.old.ledger).plan.room }
    requires memory { 0 < teller.old.ledger.free }
    ensures tells { TellsAttach lane (Event.Attach who form of function) teller.old teller.new }
    ensures at { result ≡ stages_of teller.old.ledger }
    ensures next { stages_of teller.new.ledger ≡ result + 1 }
    ensures room { (state_of teller.new.ledger).plan.room + 1 ≡ (state_of teller.old.ledger).plan.room }
    ensures memory { teller.new.ledger.free + 1 ≡ teller.old.ledger.free }
    ensures lanes { teller.new.lanes.count ≡ teller.old.lanes.count }
{
    let stages = teller.stages();
    let event = Event::Attach {
        who,
        form,
        of,
        function,
    };
    match teller.apply(encode(&event), lane) {
        Ok(_) => stages,
        Err(_) => unreachable!(),
    }
}
