//! The attaching of a stage.
ghost use Rattle.std.specs.Prelude.{◌≡◌, ℕ, ◌+◌, ◌<◌, ◌≤◌, ◌∷◌, ◌++◌, [], All, Option, false, length};
ghost use Rattle.cf_forms.specs.Plans.{edges_of, sources_of};
ghost use Rattle.cf_model.specs.States.{is_ready};
ghost use Rattle.cf_core.specs.Keeping.Attaching.{attached_kept, turns_attached};
ghost use Rattle.cf_core.specs.Keeping.Sound.{AreTreated, StayTaken};
ghost use Rattle.cf_core.specs.Keeping.SoundStages.{AreSound, KeptMovesAlone, SameRoom};
ghost use Rattle.cf_core.specs.Keeping.Steps.{StageIsAttached, grown_by};

use crate::attach::{attached, takes_now};
use crate::kept::KeptStage;
use crate::stages::Stages;
use cf_forms::{Form, Of};
use cf_model::Stage;
use cf_plan::GrowingPlan;

impl Stages {
    /// Attaches a stage behind all others, in a step of its own. No stage waits for treatment.
    ///
    /// It takes what its sources hold then. Where several of them have settled, argument order decides alone, and not
    /// their steps.
    pub fn attach(&mut self, plan: &GrowingPlan, form: Form, of: Of)
        requires sound { AreSound plan.now.stages self.old }
        requires treated { AreTreated (length plan.now.stages) self.old.marks }
        requires sources { All (λ j. j < length plan.now.stages) (sources_of of) }
        requires few { length plan.now.stages < 4096 }
        requires few_edges { edges_of plan.now.stages + 2 ≤ 16384 }
        requires room { length plan.now.stages < self.old.kept.capacity }
        requires lists { length plan.now.stages < length self.old.links }
        ensures attached { StageIsAttached plan.now.stages form of self.old self.new }
        ensures alone { KeptMovesAlone (length plan.now.stages) self.old self.new }
        ensures counted { self.new.turns ≡ turns_attached self.old form (sources_of of) }
        ensures taken { StayTaken self.old.kept.items self.new.kept.items }
        ensures room { SameRoom self.old self.new }
        ensures sound { (function : Option ℕ) → AreSound (grown_by plan.now.stages form of function) self.new }
    {
        self.steps += 1;
        let new = self.newcomer_of(form, of);
        self.push(new);
    }

    /// What the stage is that is being attached to these sources.
    fn newcomer_of(&mut self, form: Form, of: Of) -> KeptStage
        requires sources { All (λ j. j < length self.old.kept.items) (sources_of of) }
        requires turns { self.old.turns < 4294967296 }
        ensures kept { result ≡ attached_kept self.old.kept.items form (sources_of of) self.old.steps }
        ensures counted { self.new ≡ record self.old { turns = turns_attached self.old form (sources_of of) } }
    {
        match of {
            Of::None => self.newcomer(form, &[]),
            Of::One(a) => self.newcomer(form, &[a]),
            Of::Two(a, b) => self.newcomer(form, &[a, b]),
        }
    }

    /// What the stage is that is being attached: it is pending where it has nothing to take.
    fn newcomer(&mut self, form: Form, sources: &[u16]) -> KeptStage
        requires sources { All (λ j. j < length self.old.kept.items) sources.now }
        requires turns { self.old.turns < 4294967296 }
        ensures kept { result ≡ attached_kept self.old.kept.items form sources.now self.old.steps }
        ensures counted { self.new ≡ record self.old { turns = turns_attached self.old form sources.now } }
    {
        if takes_now(&self.kept, form, sources) {
            self.take(form, sources)
        } else {
            KeptStage {
                stage: Stage::Pending,
                step: 0,
            }
        }
    }

    /// Lets the stage that is being attached take what its sources hold: this is a turn too.
    fn take(&mut self, form: Form, sources: &[u16]) -> KeptStage
        requires sources { All (λ j. j < length self.old.kept.items) sources.now }
        requires turns { self.old.turns < 4294967296 }
        ensures kept { result ≡ attached_kept self.old.kept.items form sources.now self.old.steps }
        ensures counted { self.new ≡ record self.old { turns = self.old.turns + 1 } }
    {
        self.turns += 1;
        attached(&self.kept, form, sources, self.steps)
    }

    /// Puts a stage behind all others, unmarked. Its place is reserved.
    fn push(&mut self, new: KeptStage)
        requires few { length self.old.kept.items < 4096 }
        requires marks { length self.old.marks ≡ length self.old.kept.items }
        requires ready { length self.old.ready ≡ length self.old.kept.items }
        requires room { length self.old.kept.items < self.old.kept.capacity }
        ensures kept { self.new.kept.items ≡ self.old.kept.items ++ new ∷ [] }
        ensures marks { self.new.marks ≡ self.old.marks ++ false ∷ [] }
        ensures ready { self.new.ready ≡ self.old.ready ++ is_ready new.stage ∷ [] }
        ensures links { self.new.links ≡ self.old.links }
        ensures steps { self.new.steps ≡ self.old.steps }
        ensures turns { self.new.turns ≡ self.old.turns }
        ensures room { SameRoom self.old self.new }
    {
        let d = self.ready.bound();
        self.kept.push(new);
        self.marks.grow();
        self.ready.grow();
        if let Stage::Ready(_) = new.stage {
            self.ready.insert(d);
        }
    }
}
