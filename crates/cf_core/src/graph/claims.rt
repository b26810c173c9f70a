//! The calls by which a caller takes a stage's function and hands in its answer.
ghost use Rattle.std.specs.Prelude.{◌≡◌, ℕ, ◌+◌, ◌<◌, ◌≤◌, ◌==◌, None, false, length, slice_get, unwrap_or, vec_capacity};
ghost use Rattle.std.specs.Option.{option_map_or};
ghost use Rattle.cf_model.specs.States.{State, is_ready};
ghost use Rattle.cf_model.specs.Events.{claimed_by, claiming, finishing};
ghost use Rattle.cf_core.specs.Keeping.SoundStages.{settled_view_of};
ghost use Rattle.cf_core.specs.Keeping.Sweeps.{AreSwept};
ghost use Rattle.cf_model.specs.Graphs.{CountsTurns, MovesOnly, RestsUpTo, WritesNews};
ghost use Rattle.cf_core.specs.Keeping.Landings.{landing_at};

use crate::graph::Graph;
use crate::stages::Stages;
use cf_forms::{Answer, Form, Landing, landing};
use cf_model::{Claimed, Finished, Stage};
use cf_plan::GrowingPlan;

impl Graph {
    /// Grants a caller's claim of a ready stage, and hands over the arguments. The claim stays open until the caller
    /// first finishes the stage, even if the stage settles in between.
    ///
    /// It is inlined into its callers, as `finish` is, since a worker's round is little more than these two.
    #[inline(always)]
    pub fn claim(&mut self, who: u8, i: u16) -> Claimed
        requires { i < length self.old.state.plan.stages }
        ensures told { (result, self.new.state) ≡ claiming self.old.state who i }
        ensures rests { RestsUpTo i self.old self.new }
        ensures alone { MovesOnly i self.old self.new }
        ensures counted { CountsTurns self.old self.new }
    {
        if self.stages.outcome(i).is_some() {
            return Claimed::Settled;
        }
        self.stages.treat_up_to(&self.plan, i);
        match self.stages.stage(i) {
            Stage::Ready(args) => {
                self.stages.claim(&self.plan, i);
                self.claims[i as usize] = Some(who);
                Claimed::Granted(args)
            }
            stage => refusal(stage),
        }
    }

    /// Grants a claim as `claim` does, and writes the stage behind those of a row if it is granted. No turn is left before
    /// and afterwards.
    #[inline(always)]
    pub fn claim_telling(&mut self, who: u8, i: u16, news: &mut Vec<u16>) -> Claimed
        requires stage { i < length self.old.state.plan.stages }
        requires worked_out { self.old.left ≡ None }
        requires place { length news.old.items < vec_capacity news.old }
        ensures told { (result, self.new.state) ≡ claiming self.old.state who i }
        ensures news { WritesNews self.old.state.stages self.new.state.stages news.old.items news.new.items }
        ensures places { vec_capacity news.new ≡ vec_capacity news.old }
        ensures worked_out { self.new.left ≡ None }
        ensures counted { CountsTurns self.old self.new }
    {
        match self.stages.stage(i) {
            Stage::Ready(args) => {
                self.stages.claim(&self.plan, i);
                self.claims[i as usize] = Some(who);
                news.push_reserved(i);
                Claimed::Granted(args)
            }
            stage => refusal(stage),
        }
    }

    /// Closes a caller's claim, and settles or links the stage by its function's answer, unless it is settled.
    #[inline(always)]
    pub fn finish(&mut self, who: u8, i: u16, answer: Answer) -> Finished
        requires { i < length self.old.state.plan.stages }
        ensures told { (result, self.new.state) ≡ finishing self.old.state who i answer }
        ensures rests { RestsUpTo i self.old self.new }
        ensures alone { MovesOnly i self.old self.new }
        ensures counted { CountsTurns self.old self.new }
    {
        self.stages.treat_up_to(&self.plan, i);
        if !has_claim(&self.claims, who, i) {
            return Finished::NotYours;
        }
        self.claims[i as usize] = None;
        match self.stages.outcome(i) {
            Some(_) => Finished::Late,
            None => {
                let at = landing_of(&self.stages, &self.plan, i, answer);
                self.stages.land(&self.plan, i, at);
                Finished::Won
            }
        }
    }

    /// Finishes a stage as `finish` does, takes all turns that it makes due, and writes the stages that differ then behind
    /// those of a row, rising. No turn is left before and afterwards.
    #[inline(always)]
    pub fn finish_telling(
        &mut self,
        who: u8,
        i: u16,
        answer: Answer,
        news: &mut Vec<u16>,
    ) -> Finished
        requires stage { i < length self.old.state.plan.stages }
        requires worked_out { self.old.left ≡ None }
        requires places { length news.old.items + length self.old.state.plan.stages ≤ vec_capacity news.old }
        ensures told { (result, self.new.state) ≡ finishing self.old.state who i answer }
        ensures news { WritesNews self.old.state.stages self.new.state.stages news.old.items news.new.items }
        ensures few { length news.new.items ≤ length news.old.items + length self.old.state.plan.stages }
        ensures places { vec_capacity news.new ≡ vec_capacity news.old }
        ensures worked_out { self.new.left ≡ None }
        ensures counted { CountsTurns self.old self.new }
    {
        if !has_claim(&self.claims, who, i) {
            return Finished::NotYours;
        }
        self.claims[i as usize] = None;
        match self.stages.outcome(i) {
            Some(_) => Finished::Late,
            None => {
                let lands = landing_of(&self.stages, &self.plan, i, answer);
                self.stages.land(&self.plan, i, lands);
                news.push_reserved(i);
                self.stages.write_rest(&self.plan, news);
                Finished::Won
            }
        }
    }
}

/// What a claim is told where the stage isn't ready.
#[inline(always)]
fn refusal(stage: Stage) -> Claimed
    requires { is_ready stage ≡ false }
    ensures { (s : State) (who i : ℕ) → claimed_by stage s who i ≡ (result, s) }
{
    match stage {
        Stage::Settled(_) => Claimed::Settled,
        Stage::Claimed | Stage::Linked(_) => Claimed::Taken,
        Stage::Pending => Claimed::NotReady,
        Stage::Ready(_) => unreachable!(),
    }
}

/// Whether a caller's claim of a stage is open.
fn has_claim(claims: &[Option<u8>], who: u8, i: u16) -> bool
    requires { i < length claims.now }
    ensures { result ≡ option_map_or (λ w. w == who) (unwrap_or (slice_get claims.now i) None) false }
{
    claims[i as usize] == Some(who)
}

/// Where a stage lands with an answer. Of all forms `WhenComplete` alone looks at its source.
#[inline(always)]
pub(super) fn landing_of(stages: &Stages, plan: &GrowingPlan, i: u16, answer: Answer) -> Landing
    requires treated { AreSwept plan.now.stages (i + 1) 0 stages.now }
    requires stage { i < length plan.now.stages }
    ensures { result ≡ landing_at plan.now.stages (settled_view_of plan.now.stages stages.now) i answer }
{
    match plan.form(i) {
        Form::WhenComplete => landing(Form::WhenComplete, i, stages.source(plan, i), answer),
        form => landing(form, i, None, answer),
    }
}
