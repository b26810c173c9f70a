//! How many functions a plan needs.
ghost use Rattle.std.specs.Prelude.{◌≡◌, ◌≤◌};
ghost use Rattle.cf_forms.specs.Plans.{IsBuilt, plan_of};
ghost use Rattle.cf_desk.specs.Functions.{function_above, function_bound};

use cf_plan::Plan;

/// The least number that each function of the plan is below: at most 65,536, and 0 where it has none. The plan was
/// built, and opened with all its stages.
pub(crate) fn function_bound(plan: &Plan) -> u32
    ensures bound { result ≡ function_bound plan.now.stages }
    ensures few { result ≤ 65536 }
    ensures built { IsBuilt plan.now }
    ensures whole { plan.now ≡ plan_of plan.now.stages plan.now.limits }
{
    let mut bound = 0;
    'stages: for i in 0..plan.stages() {
        bound = above(plan.function(i)).max(bound);
    }
    bound
}

/// The least number that a function, if there is one, is below.
fn above(function: Option<u16>) -> u32
    ensures above { result ≡ function_above function }
    ensures few { result ≤ 65536 }
{
    match function {
        None => 0,
        Some(number) => u32::from(number) + 1,
    }
}
