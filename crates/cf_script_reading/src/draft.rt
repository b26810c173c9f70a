//! What is drafted of a script while its stages are read.
ghost use Rattle.std.specs.Prelude.{◌≡◌, ◌≤◌, length};

use crate::func::Func;
use cf_plan::PlanBuilder;

/// The plan and the functions so far.
#[derive(Drop)]
pub(crate) struct Draft {
    pub(crate) plan: PlanBuilder,
    pub(crate) functions: Vec<Func>,
    ghost few: { length functions.items ≤ length plan.plan.stages },
    ghost no_limits: { length plan.plan.limits ≡ 0 },
}
