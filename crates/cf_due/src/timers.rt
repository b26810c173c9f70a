//! Timers.
ghost use Rattle.std.specs.Prelude.{◌≡◌, ◌<◌, IfNone, IfSome};
ghost use Rattle.cf_notes.specs.declared.noted.Timer.{Timer};
ghost use Rattle.cf_row.specs.Rows.{stages_of};
ghost use Rattle.cf_due.specs.Timers.{IsTimerDue, IsToTime, NoneToTime, outcome_by};

use crate::settling::{named_place, settle};
use cf_notes::{Noted, Timer, Want, timer_of};
use cf_outcome::{Cause, Outcome, Value};
use cf_row::Replica;

/// What settles the lowest open stage whose timer's moment has come, where the store's clock has come to so much.
pub(crate) fn timer_due(view: &Replica, notes: &[Noted], clock: u64) -> Option<Want>
    ensures timer { IfSome result (λ want. IsTimerDue view.now notes.now clock want) }
    ensures none { IfNone result (NoneToTime view.now notes.now clock (stages_of view.now)) }
{
    for stage in 0..view.ledger().stages() {
        if let Some(timer) = timer_come(view, notes, clock, stage) {
            return Some(settle(view, stage, outcome_by(timer)));
        }
    }
    None
}

/// The timer of an open stage, if its moment has come.
fn timer_come(view: &Replica, notes: &[Noted], clock: u64, stage: u16) -> Option<Timer>
    requires { stage < stages_of view.now }
    ensures timer { IfSome result (λ t. IsToTime view.now notes.now clock stage t) }
    ensures none { IfNone result ((t : Timer) → ¬ IsToTime view.now notes.now clock stage t) }
{
    if view.ledger().outcome(stage).is_some() {
        return None;
    }
    let timer = timer_of(notes, stage)?;
    if timer.moment > clock {
        return None;
    }
    Some(timer)
}

/// What a timer settles its stage with.
fn outcome_by(timer: Timer) -> Outcome
    ensures { result ≡ outcome_by timer.gives timer.place }
{
    if timer.gives {
        Outcome::Value(Value::Int(named_place(timer.place).cast_signed()))
    } else {
        Outcome::Fault {
            cause: Cause::TimedOut(0),
            wrapped: false,
        }
    }
}
