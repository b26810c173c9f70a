//! Words that settle a stage.
ghost use Rattle.std.specs.Prelude.{◌≡◌, ◌≤◌};
ghost use Rattle.cf_event.specs.Words.{IsEvent};
ghost use Rattle.cf_due.specs.Settling.{IsOpen, SettlesAs, WantsAs, fault_event, named_place, place_of, settle_event};

use cf_event::{Event, encode};
use cf_model::Failure;
use cf_notes::{Note, Source, Want};
use cf_outcome::{Cause, Outcome};
use cf_row::Replica;

/// How many places a word can name.
const PLACES: u64 = 1 << 32;

/// The place of the entry behind all that was seen, by which a word names the payload that stands beside it.
pub(crate) fn place_of(view: &Replica) -> u32
    ensures { result ≡ place_of view.now }
{
    named_place(view.seen().len() as u64 + 1)
}

/// The number by which a word names a place, counted from 1.
pub(crate) fn named_place(place: u64) -> u32
    ensures { result ≡ named_place place }
{
    (place % PLACES) as u32
}

/// What settles an open stage with this outcome. A fault is raw on the stage then.
pub(crate) fn settle(view: &Replica, stage: u16, outcome: Outcome) -> Want
    requires is_open { IsOpen view.now stage }
    ensures { WantsAs view.now stage outcome result }
{
    Want {
        word: settle_word(view, stage, outcome),
        note: Note::Nothing,
        source: Source::Nothing,
    }
}

/// The word of that.
pub(crate) fn settle_word(view: &Replica, stage: u16, outcome: Outcome) -> u64
    requires is_open { IsOpen view.now stage }
    ensures { SettlesAs view.now stage outcome result }
{
    let _few = view.ledger().stages();
    let who = view.number();
    let event = settle_event(who, stage, outcome);
    encode(&event)
}

/// The event by which a caller settles a stage so.
fn settle_event(who: u8, stage: u16, outcome: Outcome) -> Event
    ensures is { result ≡ settle_event who stage outcome }
    ensures event { who ≤ 63 → stage ≤ 4095 → IsEvent result }
{
    match outcome {
        Outcome::Value(value) => Event::Complete { who, stage, value },
        Outcome::Fault { cause, .. } => fault_event(who, stage, cause),
    }
}

/// The event by which a caller settles a stage with a fault of this cause.
fn fault_event(who: u8, stage: u16, cause: Cause) -> Event
    ensures is { result ≡ fault_event who stage cause }
    ensures event { who ≤ 63 → stage ≤ 4095 → IsEvent result }
{
    match cause {
        Cause::Thrown(code) => Event::Fail { who, stage, code },
        Cause::Cancelled => Event::Cancel { who, stage },
        Cause::TimedOut(code) => Event::FailAs {
            who,
            stage,
            failure: Failure::TimedOut(code),
        },
        Cause::BadAnswer(code) => Event::FailAs {
            who,
            stage,
            failure: Failure::BadAnswer(code),
        },
    }
}
