//! The stages of a plan that starts again.
ghost use Rattle.std.specs.Prelude.{◌≡◌, ◌≤◌, length};
ghost use Rattle.cf_core.specs.Keeping.Sound.{HasLists};
ghost use Rattle.cf_core.specs.Keeping.SoundStages.{AreSound, SameRoom};
ghost use Rattle.cf_core.specs.Keeping.Steps.{AreAtStart};

use crate::stages::{Stages, mark_starts};
use cf_plan::GrowingPlan;

impl Stages {
    /// The stages of a plan at its start, as `Stages::new` makes them, in the places of as many stages or more. It takes no
    /// memory.
    pub fn restart(&mut self, plan: &GrowingPlan)
        requires stages { length plan.now.stages ≤ length self.old.kept.items }
        requires lists { HasLists plan.now.stages (length self.old.links) }
        ensures start { AreAtStart plan.now.stages self.new }
        ensures turns { self.new.turns ≡ 0 }
        ensures room { SameRoom self.old self.new }
        ensures sound { AreSound plan.now.stages self.new }
    {
        let count = plan.stages();
        self.kept.restart(count);
        self.marks.reset(count);
        self.ready.reset(count);
        self.links.reset();
        mark_starts(plan, &mut self.marks);
        self.steps = 0;
        self.turns = 0;
    }
}
