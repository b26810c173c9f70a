//! The timers of a part.
ghost use Rattle.std.specs.Prelude.{◌≡◌, ◌<◌};
ghost use Rattle.cf_row.specs.Rows.{stages_of};
ghost use Rattle.cf_turn.specs.Timers.{first_timer, moment_at, moments_below};

use cf_notes::{Noted, timer_of};
use cf_part::{Part, Replica};

/// The first moment of a timer of an open stage that the store's clock hasn't come to, `u64::MAX` without one, and where
/// nothing goes on any more.
pub(crate) fn first_timer(part: &Part, clock: u64) -> u64
    ensures { result ≡ first_timer clock part.now }
{
    if part.fault().is_some() {
        return u64::MAX;
    }
    moment_in(part.view(), part.notes(), clock)
}

/// The same of a view, which goes on.
fn moment_in(view: &Replica, notes: &[Noted], clock: u64) -> u64
    ensures { result ≡ moments_below (stages_of view.now) view.now notes.now clock }
{
    let mut first = u64::MAX;
    for stage in 0..view.ledger().stages() {
        first = first.min(moment_at(view, notes, clock, stage));
    }
    first
}

/// The moment of a stage's timer, if the stage is open and the store's clock hasn't come to it.
fn moment_at(view: &Replica, notes: &[Noted], clock: u64, stage: u16) -> u64
    requires { stage < stages_of view.now }
    ensures { result ≡ moment_at view.now notes.now clock stage }
{
    if view.ledger().outcome(stage).is_some() {
        return u64::MAX;
    }
    match timer_of(notes, stage) {
        Some(timer) if timer.moment > clock => timer.moment,
        _ => u64::MAX,
    }
}
