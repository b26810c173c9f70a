//! The stages of a script.
ghost use Rattle.std.specs.Prelude.{All, IfOk, OnOk, [], length, option_map};
ghost use Rattle.serde_json.specs.View.{items_view, view};
ghost use Rattle.cf_script_reading.specs.Checks.{ReadingGives, fold_items};
ghost use Rattle.cf_script_reading.specs.Scripts.{FunctionFits};
ghost use Rattle.cf_script_reading.specs.Stages.{source_next, sources_said, stage_next, stages_said};
ghost use Rattle.cf_script_reading.specs.Views.{drafted};

use crate::draft::Draft;
use crate::fault::{Part, ReadingFault};
use crate::forms::form_of;
use crate::functions::{function, keep, number_after};
use crate::parts::u16_of;
use crate::refused::plan_stage;
use crate::version::Version;
use cf_plan::PlanBuilder;
use serde_json::Value as Json;
use std::alloc::Global;

/// Takes the next source of stage `k`.
fn add_source(found: &mut Vec<u16>, json: &Json, k: u32) -> Result<(), ReadingFault>
    ensures { ReadingGives (λ _. found.new.items) result
        (source_next (ReadingFault.Shape (Part.Stage k)) found.old.items (view json.now)) }
{
    let Some(n) = u16_of(json) else {
        return Err(ReadingFault::Shape(Part::Stage(k)));
    };
    found.push(n)?;
    Ok(())
}

/// The sources of stage `k`, in order.
fn read_sources(alloc: Global, list: &[Json], k: u32) -> Result<Vec<u16>, ReadingFault>
    ensures { ReadingGives (λ v. v.items) result
        (fold_items (source_next (ReadingFault.Shape (Part.Stage k))) [] (items_view list.now)) }
{
    let mut found = Vec::new(alloc);
    'sources: for json in list {
        if let Err(e) = add_source(&mut found, json, k) {
            return Err(e);
        }
    }
    Ok(found)
}

/// The sources that stand in stage `k`, none where nothing is said of them.
fn sources(alloc: Global, said: Option<&Json>, k: u32) -> Result<Vec<u16>, ReadingFault>
    ensures { ReadingGives (λ v. v.items) result
        (sources_said (ReadingFault.Shape (Part.Stage k)) (option_map (λ d. view d.now) said.entry)) }
{
    let Some(json) = said else {
        return Ok(Vec::new(alloc));
    };
    let Some(list) = json.as_array() else {
        return Err(ReadingFault::Shape(Part::Stage(k)));
    };
    read_sources(alloc, list.as_slice(), k)
}

/// Takes the next stage into the draft.
#[tactic(auto, unfolding(crate::specs::Stages::stage_next))]
fn add_stage(
    alloc: Global,
    version: Version,
    draft: &mut Draft,
    json: &Json,
) -> Result<(), ReadingFault>
    ensures gives { ReadingGives (λ _. drafted draft.new) result
        (stage_next version (drafted draft.old) (view json.now)) }
    ensures numbered { OnOk result (All (FunctionFits (length draft.old.functions.items)) draft.old.plan.plan.stages
        → All (FunctionFits (length draft.new.functions.items)) draft.new.plan.plan.stages) }
{
    let k = draft.plan.stages() as u32;
    let Some(form) = form_of(version, json) else {
        return Err(ReadingFault::Shape(Part::Stage(k)));
    };
    let of = sources(alloc, json.get("of"), k)?;
    let Some(function) = function(json.get("fn")) else {
        return Err(ReadingFault::Function(k));
    };
    let number = number_after(draft.functions.as_slice(), function);
    plan_stage(&mut draft.plan, form, of.as_slice(), number)?;
    keep(&mut draft.functions, function)
}

/// The stages of an array, in order.
pub(crate) fn read_stages(
    alloc: Global,
    version: Version,
    list: &[Json],
) -> Result<Draft, ReadingFault>
    ensures gives { ReadingGives drafted result (stages_said version (items_view list.now)) }
    ensures numbered { IfOk result
        (λ draft. All (FunctionFits (length draft.functions.items)) draft.plan.plan.stages) }
{
    let mut draft = Draft {
        plan: PlanBuilder::new(alloc),
        functions: Vec::new(alloc),
    };
    'stages: for json in list {
        if let Err(e) = add_stage(alloc, version, &mut draft, json) {
            return Err(e);
        }
    }
    Ok(draft)
}
