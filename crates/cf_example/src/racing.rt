//! What a service relies on that has a plan raced. Each clause follows from the contract of `race` and a law of the desk's.
ghost use Rattle.std.specs.Prelude.{◌≡◌, ℕ, ◌≤◌, IfOk, map, vec_len};
ghost use Rattle.cf_forms.specs.Plans.{with_room};
ghost use Rattle.cf_desk.specs.Closings.{ShowsOneHistory, ToldOneHistory};
ghost use Rattle.cf_desk.specs.Keepings.{pass_kept};
ghost use Rattle.cf_pool.specs.Calling.{AnswerAlike, calls_of_all};
ghost use Rattle.cf_pool.specs.Races.{race_functions};

use cf_desk::laws::one_history_shows;
use cf_plan::Plan;
use cf_pool::{Left, RaceFault, RaceTerms, Worker, race};
use std::alloc::Global;
use std::sync::Wait;
use std::thread::Threads;

/// Has four workers race a plan that settles by itself. What they were told is one history, with all that this shows: a settled
/// stage keeps its outcome, and a stage is claimed once. All workers together call a stage's function at most once.
pub fn race_of_four<R: Threads + Wait + Sync, W: Worker + Send + Drop>(
    rt: &R,
    alloc: Global,
    plan: Plan,
    hands: Vec<W>,
) -> Result<Left<W>, RaceFault>
    requires hands { vec_len hands ≡ 5 }
    requires alike { AnswerAlike W.answers hands.items }
    ensures one { IfOk result (λ left. ToldOneHistory (with_room plan 0) race_functions left.closed) }
    ensures shows { IfOk result (λ left. ShowsOneHistory (with_room plan 0) left.closed) }
    ensures once { IfOk result (λ left. (i : ℕ) → calls_of_all i (map pass_kept left.closed.passes.items) ≤ 1) }
{
    // A plan that was built has a place for no more stages.
    let _known = plan.stages();
    let terms = RaceTerms {
        plan,
        room: 0,
        steps: &[],
        workers: 4,
    };
    let left = race(rt, alloc, terms, hands)?;
    one_history_shows();
    Ok(left)
}
