//! A plan that is being built, call by call.
ghost use Rattle.std.specs.Prelude.{◌≡◌};
ghost use Rattle.cf_c_handles.specs.Building.{AddsLimit, AddsStage, Builds, kind_of};

use crate::code::{Code, plan_code};
use crate::handle::object::{Object, hold};
use crate::values::{CfValue, value_of};
use cf_forms::{Form, LimitKind};
use cf_plan::PlanBuilder;
use std::alloc::Global;
use std::mem;

pub fn add_stage(
    held: &mut Object,
    form: Option<Form>,
    of: &[u16],
    function: Option<u16>,
) -> Result<u16, Code>
    ensures { AddsStage form of.now function held.old result held.new }
{
    let Object::Builder(builder) = held else {
        return Err(Code::WrongKind);
    };
    let Some(form) = form else {
        return Err(Code::NoSuchNumber);
    };
    match builder.stage(form, of, function) {
        Ok(stage) => Ok(stage),
        Err(fault) => Err(plan_code(fault)),
    }
}

pub fn add_limit(held: &mut Object, stage: u16, at: u32, kind: LimitKind) -> Result<(), Code>
    ensures { AddsLimit stage at kind held.old result held.new }
{
    let Object::Builder(builder) = held else {
        return Err(Code::WrongKind);
    };
    match builder.limit(stage, at, kind) {
        Ok(()) => Ok(()),
        Err(fault) => Err(plan_code(fault)),
    }
}

/// A time-out with this code where the kind is 0, and else a value to give.
pub fn kind_of(kind: u32, code: u32, value: CfValue) -> LimitKind
    ensures { result ≡ kind_of kind code value }
{
    if kind == 0 {
        LimitKind::Timeout(code)
    } else {
        LimitKind::Give(value_of(value))
    }
}

/// Makes the builder a plan. Where its memory is refused, an empty builder is left.
pub fn build(alloc: Global, held: &mut Object) -> Result<(), Code>
    ensures { Builds held.old result held.new }
{
    let Object::Builder(builder) = held else {
        return Err(Code::WrongKind);
    };
    let builder = mem::replace(builder, PlanBuilder::new(alloc));
    match builder.build() {
        Ok(plan) => {
            hold(held, Object::Plan(plan));
            Ok(())
        }
        Err(fault) => Err(plan_code(fault)),
    }
}
