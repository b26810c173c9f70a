//! The calls that settle a stage directly.
ghost use Rattle.std.specs.Prelude.{◌≡◌, ◌<◌, false, length};
ghost use Rattle.cf_outcome.specs.declared.outcome.Outcome.TheVariants.{Value as Gives, Fault};
ghost use Rattle.cf_outcome.specs.declared.outcome.Cause.TheVariants.{Thrown};
ghost use Rattle.cf_model.specs.Events.{cancelling, cause_of, settling};
ghost use Rattle.cf_model.specs.Graphs.{CountsTurns, MovesOnly, RestsUpTo};

use crate::graph::Graph;
use cf_model::Failure;
use cf_outcome::{Cause, Outcome, Value, is_cancelled};

impl Graph {
    /// Settles a stage of any form with a value, unless it is settled, and says whether it did
    /// (`CompletableFuture.complete`).
    ///
    /// It is inlined into its callers, since whoever starts a graph completes many sources in a row.
    #[inline(always)]
    pub fn complete(&mut self, i: u16, v: Value) -> bool
        requires { i < length self.old.state.plan.stages }
        ensures told { (result, self.new.state) ≡ settling self.old.state i (Gives v) }
        ensures rests { RestsUpTo i self.old self.new }
        ensures alone { MovesOnly i self.old self.new }
        ensures counted { CountsTurns self.old self.new }
    {
        self.settle(i, Outcome::Value(v))
    }

    /// Settles a stage of any form with a thrown code, raw, unless it is settled, and says whether it did
    /// (`CompletableFuture.completeExceptionally`).
    pub fn fail(&mut self, i: u16, code: u32) -> bool
        requires { i < length self.old.state.plan.stages }
        ensures told { (result, self.new.state) ≡ settling self.old.state i (Fault (Thrown code) false) }
        ensures rests { RestsUpTo i self.old self.new }
        ensures alone { MovesOnly i self.old self.new }
        ensures counted { CountsTurns self.old self.new }
    {
        self.settle(
            i,
            Outcome::Fault {
                cause: Cause::Thrown(code),
                wrapped: false,
            },
        )
    }

    /// Settles a stage of any form with another cause, raw, unless it is settled, and says whether it did. The cause is
    /// that its time ran out (as `CompletableFuture.orTimeout` has it), or, where the stage stands in for another, that
    /// a function gave a bad answer.
    pub fn fail_as(&mut self, i: u16, failure: Failure) -> bool
        requires { i < length self.old.state.plan.stages }
        ensures told { (result, self.new.state) ≡ settling self.old.state i (Fault (cause_of failure) false) }
        ensures rests { RestsUpTo i self.old self.new }
        ensures alone { MovesOnly i self.old self.new }
        ensures counted { CountsTurns self.old self.new }
    {
        self.settle(
            i,
            Outcome::Fault {
                cause: failure.cause(),
                wrapped: false,
            },
        )
    }

    /// Cancels a stage of any form, unless it is settled, and says whether the stage is cancelled then
    /// (`CompletableFuture.cancel`). A stage that took a cancellation over from another isn't cancelled itself.
    pub fn cancel(&mut self, i: u16) -> bool
        requires { i < length self.old.state.plan.stages }
        ensures told { (result, self.new.state) ≡ cancelling self.old.state i }
        ensures rests { RestsUpTo i self.old self.new }
        ensures alone { MovesOnly i self.old self.new }
        ensures counted { CountsTurns self.old self.new }
    {
        match self.outcome(i) {
            Some(old) => is_cancelled(old),
            None => self.settle(
                i,
                Outcome::Fault {
                    cause: Cause::Cancelled,
                    wrapped: false,
                },
            ),
        }
    }

    /// Settles a stage, unless it is settled, and says whether it did. A stage that is kept as settled stays so,
    /// whatever waits for treatment, so nothing is treated for it.
    #[inline(always)]
    pub(super) fn settle(&mut self, i: u16, o: Outcome) -> bool
        requires { i < length self.old.state.plan.stages }
        ensures told { (result, self.new.state) ≡ settling self.old.state i o }
        ensures rests { RestsUpTo i self.old self.new }
        ensures alone { MovesOnly i self.old self.new }
        ensures counted { CountsTurns self.old self.new }
    {
        if self.stages.outcome(i).is_some() {
            return false;
        }
        self.stages.treat_up_to(&self.plan, i);
        match self.stages.outcome(i) {
            Some(_) => false,
            None => {
                self.stages.settle(&self.plan, i, o);
                true
            }
        }
    }
}
