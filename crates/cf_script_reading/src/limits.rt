//! The limits of a script.
ghost use Rattle.std.specs.Prelude.{◌≡◌, OnOk, codes};
ghost use Rattle.serde_json.specs.View.{items_view, view};
ghost use Rattle.cf_script_reading.specs.Checks.{ReadingGives};
ghost use Rattle.cf_script_reading.specs.Limits.{kind_named, kind_of, limit_next, limits_said, number_named, timeout_code};

use crate::fault::{Part, ReadingFault};
use crate::parts::{u16_of, u32_of, value};
use crate::refused::plan_limit;
use cf_forms::LimitKind;
use cf_plan::PlanBuilder;
use serde_json::Value as Json;

/// The code of a timeout, which is 0 where none stands there.
fn code_said(json: &Json) -> Option<u32>
    ensures { result ≡ timeout_code (view json.now) }
{
    match json.get("code") {
        Some(code) => u32_of(code),
        None => Some(0),
    }
}

/// The kind with this name, whose code or value may stand beside it.
#[tactic(auto, unfolding(crate::specs::Limits::kind_named))]
fn kind(json: &Json, name: &str) -> Option<LimitKind>
    ensures { result ≡ kind_named (view json.now) name.now }
{
    match name {
        "timeout" => Some(LimitKind::Timeout(code_said(json)?)),
        "value" => Some(LimitKind::Give(value(json.get("value")?)?)),
        _ => None,
    }
}

/// The kind of a limit.
fn kind_said(json: &Json) -> Option<LimitKind>
    ensures { result ≡ kind_of (view json.now) }
{
    kind(json, json.get("kind")?.as_str()?)
}

/// The stage of a limit.
fn stage_said(json: &Json) -> Option<u16>
    ensures { result ≡ number_named 65535 (codes "stage") (view json.now) }
{
    u16_of(json.get("stage")?)
}

/// The moment of a limit.
fn moment_said(json: &Json) -> Option<u32>
    ensures { result ≡ number_named 4294967295 (codes "at") (view json.now) }
{
    u32_of(json.get("at")?)
}

/// Takes the next limit into the plan.
#[tactic(auto, unfolding(crate::specs::Limits::limit_next))]
fn add_limit(plan: &mut PlanBuilder, json: &Json) -> Result<(), ReadingFault>
    ensures gives { ReadingGives (λ _. plan.new.plan) result (limit_next plan.old.plan (view json.now)) }
    ensures stages { OnOk result (plan.new.plan.stages ≡ plan.old.plan.stages) }
{
    let k = plan.limits().len() as u32;
    let Some(stage) = stage_said(json) else {
        return Err(ReadingFault::Shape(Part::Limit(k)));
    };
    let Some(at) = moment_said(json) else {
        return Err(ReadingFault::Shape(Part::Limit(k)));
    };
    let Some(kind) = kind_said(json) else {
        return Err(ReadingFault::Shape(Part::Limit(k)));
    };
    plan_limit(plan, stage, at, kind)
}

/// Takes the limits of an array into the plan, in order.
pub(crate) fn read_limits(plan: &mut PlanBuilder, list: &[Json]) -> Result<(), ReadingFault>
    ensures gives { ReadingGives (λ _. plan.new.plan) result (limits_said plan.old.plan (items_view list.now)) }
    ensures stages { OnOk result (plan.new.plan.stages ≡ plan.old.plan.stages) }
{
    'limits: for json in list {
        if let Err(e) = add_limit(plan, json) {
            return Err(e);
        }
    }
    Ok(())
}
