//! The call by which time passes.
ghost use Rattle.std.specs.Prelude.{◌≡◌, ◌+◌, ◌<◌, ◌≤◌, Some, length, nat_le, slice_get};
ghost use Rattle.std.specs.List.{prefix_len};
ghost use Rattle.cf_model.specs.Events.{due_limits, firing, limit_outcome, next_limits, settling, ticking};
ghost use Rattle.cf_model.specs.Graphs.{CountsTurns, MovesOnly, RestsForLimits, RestsUpTo, advanced, most_turns};

use crate::graph::Graph;
use cf_forms::{Limit, LimitKind};
use cf_model::Ticked;
use cf_outcome::{Cause, Outcome};

impl Graph {
    /// Lets time pass up to moment `now`. A moment before the present one changes nothing. Each limit that is due by
    /// then and wasn't used before is used, in firing order, each in a step of its own: it settles its stage, unless
    /// the stage has settled before (`CompletableFuture.orTimeout`, `completeOnTimeout`). The answer says how many
    /// limits settled their stage.
    pub fn tick(&mut self, now: u32) -> Ticked
        ensures told { (result, self.new.state) ≡ ticking self.old.state now }
        ensures rests { RestsForLimits (due_limits self.old.state now) self.old self.new }
        ensures counted { CountsTurns self.old self.new }
    {
        if now < self.moment {
            return Ticked::Past;
        }
        let count = self.due(now);
        let fired = self.fire_next(count);
        self.advance(now, count);
        Ticked::Fired(fired)
    }

    /// How many of the unused limits have a moment up to `now`.
    pub(super) fn due(&self, now: u32) -> usize
        ensures within { self.now.state.used + result ≤ length self.now.state.plan.limits }
        ensures count { result ≡ length (due_limits self.now.state now) }
        ensures first { next_limits result self.now.state ≡ due_limits self.now.state now }
    {
        due_count(&self.plan.limits()[self.used..], now)
    }

    /// Fires this many limits, from the first unused one on, and says how many settled their stage.
    fn fire_next(&mut self, count: usize) -> u16
        requires { self.old.state.used + count ≤ length self.old.state.plan.limits }
        ensures fired { (result, self.new.state) ≡ firing 0 self.old.state (next_limits count self.old.state) }
        ensures rests { RestsForLimits (next_limits count self.old.state) self.old self.new }
        ensures counted { self.old.turns ≤ self.new.turns }
        ensures plan { self.new.state.plan ≡ self.old.state.plan }
        ensures used { self.new.state.used ≡ self.old.state.used }
    {
        let mut fired = 0;
        for k in 0..count {
            let limit = self.unused(k);
            if self.fire(limit) {
                fired += 1;
            }
        }
        fired
    }

    /// The limit that is `k` places behind the first unused one.
    pub(super) fn unused(&self, k: usize) -> Limit
        requires { self.now.state.used + k < length self.now.state.plan.limits }
        ensures limit { slice_get self.now.state.plan.limits (self.now.state.used + k) ≡ Some result }
        ensures named { result.stage < length self.now.state.plan.stages }
        ensures few { length self.now.state.plan.limits ≤ 4096 }
    {
        self.plan.limits()[self.used + k]
    }

    /// The moment is `now`, and this many more limits are used.
    pub(super) fn advance(&mut self, now: u32, count: usize)
        requires { self.old.state.used + count ≤ length self.old.state.plan.limits }
        ensures advanced { self.new ≡ advanced self.old now count }
        ensures few { self.new.turns ≤ most_turns self.new.state.plan.stages }
    {
        self.moment = now;
        self.used += count;
    }

    /// Settles a limit's stage, unless it is settled, and says whether it did.
    pub(super) fn fire(&mut self, limit: Limit) -> bool
        requires { limit.stage < length self.old.state.plan.stages }
        ensures told { (result, self.new.state) ≡ settling self.old.state limit.stage (limit_outcome limit.kind) }
        ensures rests { RestsUpTo limit.stage self.old self.new }
        ensures alone { MovesOnly limit.stage self.old self.new }
        ensures counted { self.old.turns ≤ self.new.turns }
    {
        self.settle(limit.stage, outcome_of_limit(limit.kind))
    }
}

/// What a limit settles its stage with.
fn outcome_of_limit(kind: LimitKind) -> Outcome
    ensures { result ≡ limit_outcome kind }
{
    match kind {
        LimitKind::Timeout(code) => Outcome::Fault {
            cause: Cause::TimedOut(code),
            wrapped: false,
        },
        LimitKind::Give(v) => Outcome::Value(v),
    }
}

/// How many limits, from the first on, have a moment up to `now`.
fn due_count(limits: &[Limit], now: u32) -> usize
    ensures within { result ≤ length limits.now }
    ensures count { result ≡ prefix_len (λ limit. nat_le limit.at now) limits.now }
{
    let mut count = 0;
    for limit in limits {
        if limit.at > now {
            return count;
        }
        count += 1;
    }
    count
}
