//! How many threads a part takes.
ghost use Rattle.std.specs.Prelude.{◌≡◌, ◌≤◌, length};
ghost use Rattle.cf_part.specs.Parts.{call_in};
ghost use Rattle.cf_part.specs.Steps.{IsToCall};
ghost use Rattle.cf_row.specs.Rows.{stages_of};
ghost use Rattle.cf_turn.specs.Busy.{Counts, Takes, claims_in, is_new, is_running, running_in};

use cf_part::{Entry, Part, Progress, Replica};

/// How many threads a part takes: one for each function that runs, for each stage that the session has and whose function
/// wasn't called, and for each claim that is under way.
pub(crate) fn busy_in(part: &Part) -> usize
    ensures { Takes part.now result }
{
    let running = running_in(part.calls());
    let claims = claims_in(part.put());
    let called = count_to_call(part.calls(), part.view());
    running + claims + called
}

/// How many of these functions run.
fn running_in(calls: &[Progress]) -> usize
    ensures is { result ≡ running_in calls.now }
    ensures few { result ≤ length calls.now }
{
    let mut count = 0;
    for call in calls {
        if is_running(*call) {
            count += 1;
        }
    }
    count
}

/// Whether a function was called and hasn't ended.
fn is_running(call: Progress) -> bool
    ensures { result ≡ is_running call }
{
    match call {
        Progress::Runs | Progress::Stopped => true,
        Progress::NotCalled | Progress::Ended => false,
    }
}

/// How many of these entries are claims.
fn claims_in(entries: &[Entry]) -> usize
    ensures is { result ≡ claims_in entries.now }
    ensures few { result ≤ length entries.now }
{
    let mut count = 0;
    for entry in entries {
        if entry.word >> 56 == 4 {
            count += 1;
        }
    }
    count
}

/// How many stages a session has whose function wasn't called.
fn count_to_call(calls: &[Progress], view: &Replica) -> usize
    ensures counts { Counts (IsToCall calls.now view.now) (stages_of view.now) result }
    ensures few { result ≤ 4096 }
{
    // (there are at most 4,096 stages)
    let _ = view.ledger().stages();
    let session = view.session();
    let mut count = 0;
    let mut from = 0;
    while let Some(stage) = view.held(session, from) {
        if is_new(calls, stage) {
            count += 1;
        }
        from = stage + 1;
    }
    count
}

/// Whether the function of a stage wasn't called.
fn is_new(calls: &[Progress], stage: u16) -> bool
    ensures { result ≡ is_new (call_in calls.now stage) }
{
    match calls.get(stage as usize) {
        Some(Progress::NotCalled) | None => true,
        Some(_) => false,
    }
}
