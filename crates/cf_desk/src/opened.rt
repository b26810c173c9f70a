//! The plan that a desk was opened with.
ghost use Rattle.std.specs.Prelude.{◌≡◌, ◌<◌, IfOk, length};
ghost use Rattle.cf_forms.specs.Plans.{function_at, with_room};

use cf_plan::Plan;
use std::alloc::AllocError;
use std::marker::Model;

/// A plan with room for more stages, as a desk was opened with it. It shares the plan's memory and takes none of its own:
/// stages are attached to the passes' graphs alone.
#[derive(Drop)]
pub struct OpenedPlan {
    plan: Plan,
    room: u16,
}

impl Model for OpenedPlan {
    ghost use Rattle.cf_forms.specs.Plans.{Planned, with_room};

    ghost Value = { Planned };

    ghost view = { λ p. with_room p.plan p.room };
}

impl OpenedPlan {
    /// The plan with room for so many stages. It fails only where more copies of the plan are alive than a memory could
    /// hold.
    pub fn new(plan: &Plan, room: u16) -> Result<OpenedPlan, AllocError>
        ensures { IfOk result (λ opened. opened ≡ with_room plan.now room) }
    {
        let plan = plan.share()?;
        Ok(OpenedPlan { plan, room })
    }

    /// How many stages it was opened with.
    pub fn stages(&self) -> u16
        ensures { result ≡ length self.now.stages }
    {
        self.plan.stages()
    }

    /// The number of a stage's function, if it has one.
    pub fn function(&self, i: u16) -> Option<u16>
        requires { i < length self.now.stages }
        ensures { result ≡ function_at self.now.stages i }
    {
        self.plan.function(i)
    }
}
