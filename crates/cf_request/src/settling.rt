//! Open stages that are settled by the machine itself.
ghost use Rattle.std.specs.Prelude.{◌≡◌, ◌<◌, ◌≤◌};
ghost use Rattle.cf_event.specs.Words.{IsEvent};
ghost use Rattle.cf_ledger.specs.Ledgers.{state_of};
ghost use Rattle.cf_request.specs.Settling.{IsOpen, Settles, fault_event, settle_event};

use crate::teller::Teller;
use cf_ledger::Event;
use cf_model::Failure;
use cf_outcome::{Cause, Outcome};

/// A stage that is to be settled, and with what. A fault is raw on the stage then.
#[derive(Clone, Copy, Debug, PartialEq, Eq)]
pub struct Due {
    pub stage: u16,
    pub outcome: Outcome,
}

/// Settles an open stage, where memory was found for a word.
#[inline(never)]
pub(crate) fn settle(teller: &mut Teller, who: u8, due: &Due)
    requires caller { who ≤ 63 }
    requires is_open { IsOpen (state_of teller.old.ledger) due.now.stage }
    requires memory { 0 < teller.old.ledger.free }
    ensures { Settles who due.now teller.old teller.new }
{
    let event = settle_event(who, due.stage, due.outcome);
    let _ = teller.apply_event(&event);
}

/// The event by which a caller settles a stage so.
fn settle_event(who: u8, stage: u16, outcome: Outcome) -> Event
    ensures is { result ≡ settle_event who stage outcome }
    ensures event { who ≤ 63 → stage ≤ 4095 → IsEvent result }
{
    match outcome {
        Outcome::Value(value) => Event::Complete { who, stage, value },
        Outcome::Fault { cause, .. } => fault_event(who, stage, cause),
    }
}

/// The event by which a caller settles a stage with a fault of this cause.
fn fault_event(who: u8, stage: u16, cause: Cause) -> Event
    ensures is { result ≡ fault_event who stage cause }
    ensures event { who ≤ 63 → stage ≤ 4095 → IsEvent result }
{
    match cause {
        Cause::Thrown(code) => Event::Fail { who, stage, code },
        Cause::Cancelled => Event::Cancel { who, stage },
        Cause::TimedOut(code) => Event::FailAs {
            who,
            stage,
            failure: Failure::TimedOut(code),
        },
        Cause::BadAnswer(code) => Event::FailAs {
            who,
            stage,
            failure: Failure::BadAnswer(code),
        },
    }
}
