//! Work: the functions of ready stages are called.
ghost use Rattle.std.specs.Prelude.{◌≡◌, ℕ, ◌+◌, ◌<◌, ◌≤◌, None, Some, length, true, unwrap_or};
ghost use Rattle.cf_forms.specs.declared.forms.Landing.TheVariants.{Links as LinksTo};
ghost use Rattle.cf_forms.specs.Forms.{composes};
ghost use Rattle.cf_forms.specs.Plans.{form_at, function_at};
ghost use Rattle.cf_model.specs.Calling.{Runs};
ghost use Rattle.cf_model.specs.States.{is_ready, lowest_ready_of};
ghost use Rattle.cf_core.specs.Keeping.Serving.{RunsNext};
ghost use Rattle.cf_core.specs.Keeping.Sound.{AreTreated, StayTakenBut, kept_at};
ghost use Rattle.cf_core.specs.Keeping.SoundStages.{AreSound, SameRoom, lowest_ready_in};
ghost use Rattle.cf_core.specs.Keeping.Steps.{ReadyStageLands, StageIsServed};
ghost use Rattle.cf_model.specs.Working.{WorksAsMeant};
ghost use Rattle.cf_model.specs.Graphs.{CountsTurns};

use crate::graph::Graph;
use crate::graph::claims::landing_of;
use crate::stages::Stages;
use cf_forms::{Answer, Args, Functions, Landing};
use cf_model::Stage;
use cf_plan::GrowingPlan;

impl Graph {
    /// Works for a caller until no stage is ready: the lowest ready stage is claimed, its function is called once with
    /// the arguments of the claim, and the stage is finished with the answer. No other function is called, and none
    /// twice for one stage. It says how many were called: at most one for each stage.
    ///
    /// The functions may remember what they were called with, as closures do. Those of a list (`Each`) remember
    /// nothing; the state is then the one that their meanings lead to.
    pub fn work<F: Functions>(&mut self, who: u8, functions: &mut F) -> u32
        ensures called { Runs F.calls who self.old.state functions.old result self.new.state functions.new }
        ensures none { lowest_ready_of self.new.state ≡ None }
        ensures stateless { WorksAsMeant F.calls who functions.old self.old.state result self.new.state }
        ensures counted { CountsTurns self.old self.new }
    {
        // The first few are found by the marks. Where there is more to do, a look at every stage costs less.
        let few = u32::from(self.stages()) / 128 + 1;
        let mut calls = 0;
        if self.nudge(few) < few {
            calls = self.work_few(who, functions, few);
            if calls < few {
                return calls;
            }
        }
        calls + self.sweep(who, functions)
    }

    /// Works on at most `few` stages. Where it says fewer, no stage is ready.
    fn work_few<F: Functions>(&mut self, who: u8, functions: &mut F, few: u32) -> u32
        requires { 0 < few }
        ensures within { result ≤ few }
        ensures called { Runs F.calls who self.old.state functions.old result self.new.state functions.new }
        ensures none { result < few → lowest_ready_of self.new.state ≡ None }
        ensures counted { CountsTurns self.old self.new }
    {
        let mut calls = 0;
        while calls < few {
            if self.work_once(who, functions).is_none() {
                return calls;
            }
            calls += 1;
        }
        calls
    }

    /// Claims and finishes the lowest ready stage, and says which it was. Nobody could see its claim open in between,
    /// so only that the claim is closed is written.
    #[inline(always)]
    fn work_once<F: Functions>(&mut self, who: u8, functions: &mut F) -> Option<u16>
        ensures next { result ≡ lowest_ready_of self.old.state }
        ensures called { RunsNext F.calls who self.old.state functions.old result self.new.state functions.new }
        ensures counted { CountsTurns self.old self.new }
    {
        let _who = who;
        match self.stages.lowest_ready(&self.plan) {
            None => None,
            Some(i) => {
                self.claims[i as usize] = None;
                serve(&mut self.stages, &self.plan, functions, i);
                Some(i)
            }
        }
    }
}

/// Calls the function of the lowest ready stage, and lets the stage land with the answer.
#[inline(always)]
fn serve<F: Functions>(stages: &mut Stages, plan: &GrowingPlan, functions: &mut F, i: u16)
    requires sound { AreSound plan.now.stages stages.old }
    requires stage { i < length plan.now.stages }
    requires lowest { lowest_ready_in plan.now.stages stages.old ≡ Some i }
    ensures served { StageIsServed F.calls plan.now.stages i stages.old functions.old stages.new functions.new }
    ensures taken { StayTakenBut i stages.old.kept.items stages.new.kept.items }
    ensures counted { stages.old.turns ≤ stages.new.turns }
    ensures room { SameRoom stages.old stages.new }
    ensures sound { AreSound plan.now.stages stages.new }
{
    stages.treat_up_to(plan, i);
    match stages.stage(i) {
        Stage::Ready(args) => {
            let answer = answer_of(plan, functions, i, &args);
            let at = landing_of(stages, plan, i, answer);
            land_ready(stages, plan, i, at);
        }
        _ => {}
    }
}

/// What the function of a stage answers to these arguments, by one call of it.
#[inline(always)]
pub(super) fn answer_of<F: Functions>(
    plan: &GrowingPlan,
    functions: &mut F,
    i: u16,
    args: &Args,
) -> Answer
    requires { i < length plan.now.stages }
    ensures { F.calls functions.old (unwrap_or (function_at plan.now.stages i) 0) args.now result functions.new }
{
    functions.call(plan.function(i).unwrap_or(0), args)
}

/// A ready stage lands as if it had been claimed before. No stage up to it waits for treatment.
///
/// One that settles isn't written twice. One that links is claimed first.
#[inline(always)]
fn land_ready(stages: &mut Stages, plan: &GrowingPlan, d: u16, at: Landing)
    requires sound { AreSound plan.now.stages stages.old }
    requires stage { d < length plan.now.stages }
    requires treated { AreTreated (d + 1) stages.old.marks }
    requires ready { is_ready ((kept_at stages.old.kept.items d).stage) ≡ true }
    requires target { (j : ℕ) → at ≡ LinksTo j → j < d }
    requires composes { (j : ℕ) → at ≡ LinksTo j → composes (form_at plan.now.stages d) ≡ true }
    ensures landed { ReadyStageLands plan.now.stages d at stages.old stages.new }
    ensures taken { StayTakenBut d stages.old.kept.items stages.new.kept.items }
    ensures counted { stages.old.turns ≤ stages.new.turns }
    ensures room { SameRoom stages.old stages.new }
    ensures sound { AreSound plan.now.stages stages.new }
{
    match at {
        Landing::Settles(o) => stages.settle(plan, d, o),
        Landing::Links(_) => {
            stages.claim(plan, d);
            stages.treat_up_to(plan, d);
            stages.land(plan, d, at);
        }
    }
}
