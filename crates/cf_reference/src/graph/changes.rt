//! The calls that change the graph. Each fails only where there is no memory, and the graph isn't to be used any more then.
ghost use Rattle.std.specs.Prelude.{◌≡◌, ◌<◌, IfOk, None, false, length};
ghost use Rattle.cf_outcome.specs.declared.outcome.Outcome.TheVariants.{Fault};
ghost use Rattle.cf_model.specs.States.{after, flowed, outcome_at};
ghost use Rattle.cf_model.specs.Events.{cancelling, claiming, finishing, landed, settling, source_outcome};

use crate::graph::ReferenceGraph;
use crate::stages::{new_stages, outcome_in};
use cf_forms::{Answer, Landing, landing};
use cf_model::{Claimed, Finished, Stage};
use cf_outcome::{Cause, Outcome, is_cancelled, wrap};
use std::alloc::{AllocError, Global};

impl ReferenceGraph {
    /// Settles a stage, unless it is settled, and says whether it did.
    pub fn settle(&mut self, alloc: Global, i: u16, o: Outcome) -> Result<bool, AllocError>
        requires { i < length self.old.plan.stages }
        ensures { IfOk result (λ done. (done, self.new) ≡ settling self.old i o) }
    {
        match self.outcome(i) {
            Some(_) => Ok(false),
            None => {
                self.take(alloc, i, o)?;
                Ok(true)
            }
        }
    }

    /// Cancels a stage, unless it is settled, and says whether it is cancelled then.
    pub fn cancel(&mut self, alloc: Global, i: u16) -> Result<bool, AllocError>
        requires { i < length self.old.plan.stages }
        ensures { IfOk result (λ done. (done, self.new) ≡ cancelling self.old i) }
    {
        match self.outcome(i) {
            Some(old) => Ok(is_cancelled(old)),
            None => {
                self.take(alloc, i, raw(Cause::Cancelled))?;
                Ok(true)
            }
        }
    }

    /// Hands a ready stage's arguments to a caller.
    pub fn claim(&mut self, who: u8, i: u16) -> Claimed
        requires { i < length self.old.plan.stages }
        ensures { (result, self.new) ≡ claiming self.old who i }
    {
        match self.stage(i) {
            Stage::Pending => Claimed::NotReady,
            Stage::Ready(args) => {
                self.stages[i as usize] = Stage::Claimed;
                self.claims[i as usize] = Some(who);
                Claimed::Granted(args)
            }
            Stage::Claimed => Claimed::Taken,
            Stage::Linked(_) => Claimed::Taken,
            Stage::Settled(_) => Claimed::Settled,
        }
    }

    /// Closes a caller's claim, and lets the stage land by its function's answer, unless it is settled.
    pub fn finish(
        &mut self,
        alloc: Global,
        who: u8,
        i: u16,
        answer: Answer,
    ) -> Result<Finished, AllocError>
        requires { i < length self.old.plan.stages }
        ensures { IfOk result (λ done. (done, self.new) ≡ finishing self.old who i answer) }
    {
        if self.claims[i as usize] != Some(who) {
            return Ok(Finished::NotYours);
        }
        self.claims[i as usize] = None;
        match self.outcome(i) {
            Some(_) => Ok(Finished::Late),
            None => {
                let source = self.source(i);
                let form = self.plan.form(i);
                self.land(alloc, i, landing(form, i, source, answer))?;
                Ok(Finished::Won)
            }
        }
    }

    /// The outcome of a stage's first source.
    fn source(&self, i: u16) -> Option<Outcome>
        requires { i < length self.now.plan.stages }
        ensures { result ≡ source_outcome self.now i }
    {
        let j = self.plan.sources(i).first()?;
        self.outcome(*j)
    }

    /// A stage lands.
    fn land(&mut self, alloc: Global, i: u16, at: Landing) -> Result<(), AllocError>
        requires stage { i < length self.old.plan.stages }
        requires open { outcome_at self.old i ≡ None }
        ensures { IfOk result (λ _. self.new ≡ landed self.old i at) }
    {
        match at {
            Landing::Settles(o) => self.take(alloc, i, o),
            Landing::Links(j) => match outcome_in(&self.stages, j) {
                Some(o) => self.take(alloc, i, wrap(o)),
                None => {
                    self.stages[i as usize] = Stage::Linked(j);
                    Ok(())
                }
            },
        }
    }

    /// Settles a stage, and makes all stages anew.
    fn take(&mut self, alloc: Global, i: u16, o: Outcome) -> Result<(), AllocError>
        requires stage { i < length self.old.plan.stages }
        requires open { outcome_at self.old i ≡ None }
        ensures { IfOk result (λ _. self.new ≡ after self.old i o) }
    {
        self.stages[i as usize] = Stage::Settled(o);
        self.flow(alloc)
    }

    /// Makes all stages anew.
    pub(super) fn flow(&mut self, alloc: Global) -> Result<(), AllocError>
        ensures { IfOk result (λ _. self.new ≡ flowed self.old) }
    {
        let new = new_stages(alloc, &self.plan, &self.stages)?;
        self.stages = new;
        Ok(())
    }
}

/// A fault that stands by itself.
pub(super) fn raw(cause: Cause) -> Outcome
    ensures { result ≡ Fault cause false }
{
    Outcome::Fault {
        cause,
        wrapped: false,
    }
}
