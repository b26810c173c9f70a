//! The answer to a moment.
ghost use Rattle.std.specs.Prelude.{◌≡◌, ◌+◌, ◌<◌, ◌≤◌, IfOk, Some, length, nat_le, slice_get};
ghost use Rattle.std.specs.List.{prefix_len};
ghost use Rattle.cf_model.specs.Events.{due_limits, firing, limit_outcome, settling, ticking};
ghost use Rattle.cf_reference.specs.References.{next_limits};

use crate::graph::ReferenceGraph;
use cf_forms::{Limit, LimitKind};
use cf_model::Ticked;
use cf_outcome::{Cause, Outcome};
use std::alloc::{AllocError, Global};

impl ReferenceGraph {
    /// Lets each unused limit with a moment up to `now` settle its stage, one after another, unless it was later already.
    pub fn tick(&mut self, alloc: Global, now: u32) -> Result<Ticked, AllocError>
        ensures { IfOk result (λ done. (done, self.new) ≡ ticking self.old now) }
    {
        if now < self.moment {
            return Ok(Ticked::Past);
        }
        let count = self.due(now);
        let fired = self.fire_next(alloc, count)?;
        self.advance(now, count);
        Ok(Ticked::Fired(fired))
    }

    /// How many of the unused limits have a moment up to `now`.
    fn due(&self, now: u32) -> usize
        ensures within { self.now.used + result ≤ length self.now.plan.limits }
        ensures count { result ≡ length (due_limits self.now now) }
        ensures first { next_limits self.now result ≡ due_limits self.now now }
    {
        due_count(&self.plan.limits()[self.used..], now)
    }

    /// Fires this many limits, from the first unused one on, and says how many settled their stage.
    fn fire_next(&mut self, alloc: Global, count: usize) -> Result<u16, AllocError>
        requires { self.old.used + count ≤ length self.old.plan.limits }
        ensures fired { IfOk result (λ fired. (fired, self.new) ≡ firing 0 self.old (next_limits self.old count)) }
        ensures plan { IfOk result (λ _. self.new.plan ≡ self.old.plan) }
        ensures used { IfOk result (λ _. self.new.used ≡ self.old.used) }
    {
        let mut fired = 0;
        for k in 0..count {
            let limit = self.unused(k);
            let done = self.settle(alloc, limit.stage, outcome_of_limit(limit.kind))?;
            if done {
                fired += 1;
            }
        }
        Ok(fired)
    }

    /// The limit that stands so far behind the first unused one.
    fn unused(&self, k: usize) -> Limit
        requires { self.now.used + k < length self.now.plan.limits }
        ensures limit { slice_get self.now.plan.limits (self.now.used + k) ≡ Some result }
        ensures named { result.stage < length self.now.plan.stages }
        ensures few { length self.now.plan.limits ≤ 4096 }
    {
        self.plan.limits()[self.used + k]
    }

    /// The moment is `now`, and this many more limits are used.
    fn advance(&mut self, now: u32, count: usize)
        requires { self.old.used + count ≤ length self.old.plan.limits }
        ensures { self.new ≡ record self.old { moment = now; used = self.old.used + count } }
    {
        self.moment = now;
        self.used += count;
    }
}

/// What a limit settles its stage with.
fn outcome_of_limit(kind: LimitKind) -> Outcome
    ensures { result ≡ limit_outcome kind }
{
    match kind {
        LimitKind::Timeout(code) => Outcome::Fault {
            cause: Cause::TimedOut(code),
            wrapped: false,
        },
        LimitKind::Give(v) => Outcome::Value(v),
    }
}

/// How many limits, from the first on, have a moment up to `now`.
fn due_count(limits: &[Limit], now: u32) -> usize
    ensures within { result ≤ length limits.now }
    ensures count { result ≡ prefix_len (λ limit. nat_le limit.at now) limits.now }
{
    let mut count = 0;
    for limit in limits {
        if limit.at > now {
            return count;
        }
        count += 1;
    }
    count
}
