//! A graph that one caller has alone.
ghost use Rattle.std.specs.Prelude.{Ok};
ghost use Rattle.cf_c_handles.specs.Building.{GraphOf};
ghost use Rattle.cf_c_handles.specs.Restarts.{PlanOf};

pub mod asking;
pub mod restarting;
pub mod rounds;
pub mod stepping;
pub mod sweeping;

use crate::code::Code;
use crate::handle::object::Object;
use cf_core::Graph;
use cf_plan::Plan;
use std::alloc::Global;

/// The plan that a graph was opened of.
pub fn plan_of(held: &Object) -> Result<Object, Code>
    ensures { PlanOf held.now result }
{
    let Object::Graph(graph) = held else {
        return Err(Code::WrongKind);
    };
    Ok(Object::Plan(graph.plan().share()?))
}

/// The graph of a plan with so much room.
pub fn graph_of(alloc: Global, held: &Object, room: u16) -> Result<Object, Code>
    ensures { GraphOf room held.now result }
{
    let Object::Plan(plan) = held else {
        return Err(Code::WrongKind);
    };
    if !plan.has_place(room) {
        return Err(Code::Room);
    }
    Ok(Object::Graph(Graph::growing_of(alloc, plan, room)?))
}
