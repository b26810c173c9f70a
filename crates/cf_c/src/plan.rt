//! A plan that is being built, call by call.
ghost use Rattle.cf_c_handles.specs.Building.{AddsLimit, Builds, IsNewBuilder, kind_of};
ghost use Rattle.cf_c_handles.specs.Handles.{AddsStageAs, HandleDoes};

use crate::handle::{ask, tell};
use cf_c_handles::code::plan_code;
use cf_c_handles::handle::object::Object;
use cf_c_handles::handle::{CfHandle, fill};
use cf_c_handles::plan::{add_limit, add_stage, build, kind_of};
use cf_c_handles::values::CfValue;
use cf_c_handles::values::attaching::function_of;
use cf_forms::Form;
use cf_plan::PlanBuilder;
use std::alloc::Global;

/// Puts an empty plan, with room for this many stages and edges, behind an empty handle.
#[unsafe(no_mangle)]
pub extern "C" fn cf_builder_new(
    alloc: Global,
    builder: &mut CfHandle,
    stages: u16,
    edges: u16,
) -> u32
    ensures { IsNewBuilder stages edges builder.old.inner.held result builder.new.inner.held }
{
    let made = match PlanBuilder::with_room(alloc, stages, edges) {
        Ok(builder) => Ok(Object::Builder(builder)),
        Err(fault) => Err(plan_code(fault)),
    };
    fill(alloc, builder, made)
}

/// Adds a stage to the plan behind a handle, and tells its number.
#[unsafe(no_mangle)]
pub extern "C" fn cf_builder_stage(
    alloc: Global,
    builder: &mut CfHandle,
    form: u32,
    of: &[u16],
    function: u32,
    stage: &mut u16,
) -> u32
    ensures { AddsStageAs form of.now function builder.old builder.new result stage.old stage.new }
{
    let form = Form::numbered(form);
    let function = function_of(function);
    tell!(alloc, builder, stage, held => add_stage(&mut held, form, of, function))
}

/// Adds a limit to the plan behind a handle.
#[unsafe(no_mangle)]
pub extern "C" fn cf_builder_limit(
    alloc: Global,
    builder: &mut CfHandle,
    stage: u16,
    at: u32,
    kind: u32,
    code: u32,
    value: CfValue,
) -> u32
    ensures { HandleDoes (AddsLimit stage at (kind_of kind code value)) builder.old builder.new result }
{
    let kind = kind_of(kind, code, value);
    ask!(alloc, builder, held => add_limit(&mut held, stage, at, kind))
}

/// Builds the plan behind a handle.
#[unsafe(no_mangle)]
pub extern "C" fn cf_build(alloc: Global, builder: &mut CfHandle) -> u32
    ensures { HandleDoes Builds builder.old builder.new result }
{
    ask!(alloc, builder, held => build(alloc, &mut held))
}
