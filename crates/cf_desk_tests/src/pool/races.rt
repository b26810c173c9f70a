//! How many steps a race may have. `tests/race.rows` has what races come to, and the greatest that a script can say.
ghost use Rattle.std.specs.Prelude.{◌≡◌, replicate};

use crate::checks::{holds, must, same};
use crate::plans::{SOURCE, plan_of};
use crate::pool::pools::FUNCTIONS;
use cf_model::Event;
use cf_plan::Plan;
use cf_pool::{NoGate, RaceFault, RaceTerms, race, share};
use std::alloc::Global;
use std::process::Abort;
use std::sync::Wait;
use std::thread::Threads;

/// So many ticks of caller 0.
fn ticks(rt: &impl Abort, alloc: Global, count: usize) -> Vec<Event>
    ensures { result.items ≡ replicate count (Event.Tick 0 0) }
{
    must(rt, vec![in alloc; Event::Tick { who: 0, moment: 0 }; count])
}

/// Ticks so often, and then races with 32 workers.
fn race_behind<R: Threads + Wait + Sync + Abort>(
    rt: &R,
    alloc: Global,
    plan: Plan,
    count: usize,
) -> Option<RaceFault> {
    holds(rt, plan.has_place(0), "place");
    let steps = ticks(rt, alloc, count);
    let hands = must(rt, share(alloc, &FUNCTIONS, &NoGate, 33));
    let terms = RaceTerms {
        plan,
        room: 0,
        steps: &steps,
        workers: 32,
    };
    race(rt, alloc, terms, hands).err()
}

#[test]
fn steps_may_be_many(rt: HostRuntime) {
    let plan = plan_of(&rt, rt.alloc(), &SOURCE);
    same(&rt, race_behind(&rt, rt.alloc(), plan, 65_500), None);
}
