//! When a process has to look at the store's clock for a timer, and when to wake for a request.
ghost use Rattle.std.specs.Prelude.{◌≡◌};
ghost use Rattle.cf_host.specs.Waking.{first_moment, first_patience, first_wake, moment_of, patience_of, wake_in, wake_of};

use crate::request::Request;
use crate::ticket::{Asked, Ticket};
use cf_part::Part;

/// How long a user waits for an act, in milliseconds.
pub(crate) const PATIENCE: u64 = 60000;

/// The first moment of a timer of an open stage that the store's clock hasn't come to, `u64::MAX` without one.
#[tactic(auto, using(crate::proofs::Leasts::min_low))]
pub(crate) fn first_moment(requests: &[Request], clock: u64) -> u64
    ensures { result ≡ first_moment clock requests.now }
{
    let mut first = u64::MAX;
    for request in requests {
        first = first.min(moment_of(request, clock));
    }
    first
}

/// The same of one request.
fn moment_of(request: &Request, clock: u64) -> u64
    ensures { result ≡ moment_of clock request.now.work }
{
    match &request.work {
        Some(work) => work.first_timer(clock),
        None => u64::MAX,
    }
}

/// When something is to be done next in a request that waits, `u64::MAX` where nothing is without an answer or a call.
#[tactic(auto, using(crate::proofs::Leasts::min_low))]
pub(crate) fn first_wake(requests: &[Request], now: u64) -> u64
    ensures { result ≡ first_wake now requests.now }
{
    let mut first = u64::MAX;
    for request in requests {
        first = first.min(wake_of(request, now));
    }
    first
}

/// The same of one request.
fn wake_of(request: &Request, now: u64) -> u64
    ensures { result ≡ wake_of now request.now }
{
    match request.part() {
        Some(part) => wake_in(part, now),
        None if request.is_asked || request.is_dropped => u64::MAX,
        None => request.retry,
    }
}

/// The same of a part.
fn wake_in(part: &Part, now: u64) -> u64
    ensures { result ≡ wake_in now part.now }
{
    let retry = part.retry();
    if part.asked().is_some() || part.fault().is_some() || retry <= now {
        return u64::MAX;
    }
    retry
}

/// When a user has waited long enough, `u64::MAX` where none waits.
#[tactic(auto, using(crate::proofs::Leasts::min_low))]
pub(crate) fn first_patience(waiting: &[Ticket]) -> u64
    ensures { result ≡ first_patience waiting.now }
{
    let mut first = u64::MAX;
    for ticket in waiting {
        first = first.min(patience_of(*ticket));
    }
    first
}

/// When a user has waited long enough for the act of a ticket.
fn patience_of(ticket: Ticket) -> u64
    ensures { result ≡ patience_of ticket }
{
    match ticket.of {
        Asked::Act { .. } => ticket.asked.saturating_add(PATIENCE),
        _ => u64::MAX,
    }
}
