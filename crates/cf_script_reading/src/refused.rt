//! What the builder of plans accepts and refuses, as a script is told.
ghost use Rattle.std.specs.Prelude.{◌≡◌, OnErr, OnOk};
ghost use Rattle.cf_forms.specs.Plans.{with_stage};
ghost use Rattle.cf_script_reading.specs.Checks.{ReadingGives, refusal_told};
ghost use Rattle.cf_script_reading.specs.Limits.{limited};
ghost use Rattle.cf_script_reading.specs.Stages.{staged};

use crate::fault::ReadingFault;
use cf_forms::{Form, LimitKind};
use cf_plan::{PlanBuilder, PlanFault};

/// What a refusal at this position is told as.
fn told(refusal: PlanFault, k: u32) -> ReadingFault
    ensures { result ≡ refusal_told refusal k }
{
    match refusal {
        PlanFault::NoMemory => ReadingFault::NoMemory,
        e => ReadingFault::Plan(e, k),
    }
}

/// Hands the next stage to the builder.
pub(crate) fn plan_stage(
    plan: &mut PlanBuilder,
    form: Form,
    of: &[u16],
    function: Option<u16>,
) -> Result<(), ReadingFault>
    ensures gives { ReadingGives (λ _. plan.new.plan) result
        (staged plan.old.plan (record { form = form; sources = of.now; function = function })) }
    ensures ok { OnOk result
        (plan.new.plan ≡ with_stage plan.old.plan (record { form = form; sources = of.now; function = function })) }
    ensures err { OnErr result (plan.new.plan ≡ plan.old.plan) }
{
    let k = plan.stages() as u32;
    match plan.stage(form, of, function) {
        Ok(_) => Ok(()),
        Err(e) => Err(told(e, k)),
    }
}

/// Hands the next limit to the builder.
pub(crate) fn plan_limit(
    plan: &mut PlanBuilder,
    stage: u16,
    at: u32,
    kind: LimitKind,
) -> Result<(), ReadingFault>
    ensures gives { ReadingGives (λ _. plan.new.plan) result
        (limited plan.old.plan (record { stage = stage; at = at; kind = kind })) }
    ensures stages { OnOk result (plan.new.plan.stages ≡ plan.old.plan.stages) }
{
    let k = plan.limits().len() as u32;
    match plan.limit(stage, at, kind) {
        Ok(()) => Ok(()),
        Err(e) => Err(told(e, k)),
    }
}
