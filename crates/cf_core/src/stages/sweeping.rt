//! A sweep: all stages are treated and served in rising number, without a look at the marks.
//!
//! A stage takes from lower stages alone, and marks higher ones alone. So whoever goes up through all stages, and treats each
//! that waits, meets no stage that was or will be marked below; and a stage that is ready then is the lowest. In a sweep
//! neither the marks nor the ready stages are written: at its end there are none.
ghost use Rattle.std.specs.Prelude.{◌≡◌, ◌+◌, ◌<◌, ◌≤◌, IfNone, IfSome, None, length, true};
ghost use Rattle.cf_outcome.specs.declared.outcome.Outcome.TheVariants.{Value as Gives};
ghost use Rattle.cf_forms.specs.Forms.{composes};
ghost use Rattle.cf_forms.specs.Plans.{form_at};
ghost use Rattle.cf_model.specs.declared.stage.Stage.TheVariants.{Ready};
ghost use Rattle.cf_model.specs.States.{is_ready, outcome_of};
ghost use Rattle.cf_core.specs.Keeping.Sound.{StayTaken, StayTakenBut, is_waiting, kept_at, links_after};
ghost use Rattle.cf_core.specs.Keeping.SoundStages.{AreSound, SameRoom, SameView, lowest_ready_in};
ghost use Rattle.cf_core.specs.Keeping.Sweeps.{AreAllSwept, AreSwept, IsReadyWith, turns_after};
ghost use Rattle.cf_core.specs.Keeping.Steps.{StageIsLinked, StageSettles};

use crate::kept::KeptStage;
use crate::stages::Stages;
use crate::treat::offer;
use cf_forms::Args;
use cf_model::Stage;
use cf_outcome::{Outcome, Value};
use cf_plan::GrowingPlan;

impl Stages {
    /// Treats the next stage of a sweep, and says with what its function is to be called, if it is ready then. It is
    /// written as ready only where it was before, or where finding out took more than a look.
    ///
    /// It is one function for each type `F` of functions, so that one place calls each and it stands in line there.
    #[inline(always)]
    pub fn next_swept<F>(&mut self, plan: &GrowingPlan, m: u16) -> Option<Args>
        requires swept { AreSwept plan.now.stages m m self.old }
        requires stage { m < length plan.now.stages }
        ensures ready { IfSome result (λ args. IsReadyWith plan.now.stages m args self.new) }
        ensures swept { IfNone result (AreSwept plan.now.stages (m + 1) (m + 1) self.new) }
        ensures same { SameView plan.now.stages self.old self.new }
        ensures taken { StayTaken self.old.kept.items self.new.kept.items }
        ensures counted { self.old.turns ≤ self.new.turns }
        ensures room { SameRoom self.old self.new }
    {
        if !self.kept.is_waiting(m) {
            return self.kept.args(m);
        }
        match self.treat_swept::<F>(plan, m) {
            Some(args) => Some(args),
            None => self.kept.args(m),
        }
    }

    /// Treats the next stage of a sweep, which waits. Where it takes something, this is a turn. It says with what its
    /// function is to be called where a look tells that, and then doesn't write it.
    #[inline(always)]
    fn treat_swept<F>(&mut self, plan: &GrowingPlan, m: u16) -> Option<Args>
        requires swept { AreSwept plan.now.stages m m self.old }
        requires stage { m < length plan.now.stages }
        requires waiting { is_waiting ((kept_at self.old.kept.items m).stage) ≡ true }
        ensures ready { IfSome result (λ args. IsReadyWith plan.now.stages m args self.new) }
        ensures swept { IfNone result (AreSwept plan.now.stages (m + 1) m self.new) }
        ensures same { SameView plan.now.stages self.old self.new }
        ensures taken { StayTaken self.old.kept.items self.new.kept.items }
        ensures counted { self.old.turns ≤ self.new.turns }
        ensures room { SameRoom self.old self.new }
    {
        match offer::<F>(&mut self.kept, plan.form(m), plan.sources(m), m) {
            Some(args) => {
                self.turns += 1;
                Some(args)
            }
            None => {
                self.note_swept(m);
                None
            }
        }
    }

    /// Notes in a sweep what has become of a stage that waited: one that takes something is a turn, and one that settled
    /// has no stages linked to it any more.
    #[inline(always)]
    fn note_swept(&mut self, m: u16)
        requires stage { m < length self.old.kept.items }
        requires few { self.old.turns < 20481 }
        ensures kept { self.new.kept ≡ self.old.kept }
        ensures links { self.new.links ≡ links_after self.old.links m ((kept_at self.old.kept.items m).stage) }
        ensures steps { self.new.steps ≡ self.old.steps }
        ensures turns { self.new.turns ≡ turns_after self.old.turns ((kept_at self.old.kept.items m).stage) }
        ensures room { SameRoom self.old self.new }
    {
        if self.kept.is_settled(m) {
            self.turns += 1;
            self.links.clear(m);
        } else if !self.kept.is_waiting(m) {
            self.turns += 1;
        }
    }

    /// Settles the next stage of a sweep, which is ready with these arguments, with the value that its function gave.
    #[inline(always)]
    pub fn settle_ready(&mut self, plan: &GrowingPlan, m: u16, args: Args, v: Value)
        requires ready { IsReadyWith plan.now.stages m args self.old }
        requires stage { m < length plan.now.stages }
        ensures after { StageSettles plan.now.stages m (Gives v) self.old self.new }
        ensures taken { StayTaken self.old.kept.items self.new.kept.items }
        ensures turns { self.new.turns ≡ self.old.turns }
        ensures room { SameRoom self.old self.new }
        ensures swept { AreSwept plan.now.stages (m + 1) (m + 1) self.new }
    {
        let _plan = plan;
        let _args = args;
        self.steps += 1;
        self.kept.settle(m, Outcome::Value(v), self.steps);
        self.links.clear(m);
    }

    /// Writes the next stage of a sweep, which is ready with these arguments, as that.
    #[inline(always)]
    pub fn write_ready(&mut self, plan: &GrowingPlan, m: u16, args: Args)
        requires ready { IsReadyWith plan.now.stages m args self.old }
        requires stage { m < length plan.now.stages }
        ensures ready { (kept_at self.new.kept.items m).stage ≡ Ready args }
        ensures same { SameView plan.now.stages self.old self.new }
        ensures taken { StayTakenBut m self.old.kept.items self.new.kept.items }
        ensures turns { self.new.turns ≡ self.old.turns }
        ensures room { SameRoom self.old self.new }
        ensures swept { AreSwept plan.now.stages (m + 1) m self.new }
    {
        let _plan = plan;
        self.kept.make_ready(m, args);
    }

    /// Settles the next stage of a sweep, which is ready, in a step of its own.
    #[inline(always)]
    pub fn settle_swept(&mut self, plan: &GrowingPlan, m: u16, o: Outcome)
        requires swept { AreSwept plan.now.stages (m + 1) m self.old }
        requires stage { m < length plan.now.stages }
        requires unsettled { outcome_of ((kept_at self.old.kept.items m).stage) ≡ None }
        ensures after { StageSettles plan.now.stages m o self.old self.new }
        ensures taken { StayTaken self.old.kept.items self.new.kept.items }
        ensures turns { self.new.turns ≡ self.old.turns }
        ensures room { SameRoom self.old self.new }
        ensures swept { AreSwept plan.now.stages (m + 1) (m + 1) self.new }
    {
        let _plan = plan;
        self.steps += 1;
        self.kept.settle(m, o, self.steps);
        self.links.clear(m);
    }

    /// Links the next stage of a sweep, which is ready, to a lower stage that isn't settled, in a step of its own.
    pub fn link_swept(&mut self, plan: &GrowingPlan, m: u16, j: u16)
        requires swept { AreSwept plan.now.stages (m + 1) m self.old }
        requires stage { m < length plan.now.stages }
        requires target { j < m }
        requires ready { is_ready ((kept_at self.old.kept.items m).stage) ≡ true }
        requires composes { composes (form_at plan.now.stages m) ≡ true }
        requires unsettled { outcome_of ((kept_at self.old.kept.items j).stage) ≡ None }
        ensures linked { StageIsLinked plan.now.stages m j self.old self.new }
        ensures taken { StayTakenBut m self.old.kept.items self.new.kept.items }
        ensures turns { self.new.turns ≡ self.old.turns }
        ensures room { SameRoom self.old self.new }
        ensures swept { AreSwept plan.now.stages (m + 1) (m + 1) self.new }
    {
        let _plan = plan;
        self.steps += 1;
        let step = self.steps;
        self.links.push(j, m);
        self.kept.put(
            m,
            KeptStage {
                stage: Stage::Linked(j),
                step,
            },
        );
    }

    /// Ends a sweep: no stage is marked, and none is ready.
    pub fn end_sweep(&mut self, plan: &GrowingPlan)
        requires swept { AreAllSwept plan.now.stages self.old }
        ensures kept { self.new.kept ≡ self.old.kept }
        ensures turns { self.new.turns ≡ self.old.turns }
        ensures none { lowest_ready_in plan.now.stages self.new ≡ None }
        ensures room { SameRoom self.old self.new }
        ensures sound { AreSound plan.now.stages self.new }
    {
        let count = plan.stages();
        self.marks.reset(count);
        self.ready.reset(count);
    }
}
