//! How a graph starts again with stages that are given.
ghost use Rattle.std.specs.Prelude.{◌≡◌, ◌↔◌, IsTrue, length, map};
ghost use Rattle.cf_model.specs.Events.{state_after};
ghost use Rattle.cf_c_handles.specs.Restarts.{AreThere, RestartsWith, completing};

use crate::code::Code;
use crate::handle::object::Object;
use crate::values::{CfGiven, value_of};
use cf_core::Graph;

/// Starts a graph again, and completes these stages, if each of them is a stage of the plan.
pub fn restart_with(held: &mut Object, given: &[CfGiven]) -> Result<(), Code>
    ensures { RestartsWith given.now held.old result held.new }
{
    let Object::Graph(graph) = held else {
        return Err(Code::WrongKind);
    };
    if !are_there(given, graph.plan().stages()) {
        return Err(Code::NoStage);
    }
    graph.restart();
    complete_all(graph, given);
    Ok(())
}

/// Whether each of these is a stage of so many.
fn are_there(given: &[CfGiven], stages: u16) -> bool
    ensures { IsTrue result ↔ AreThere stages given.now }
{
    'each: for one in given {
        if one.stage >= stages {
            return false;
        }
    }
    true
}

/// Completes stages one after another.
fn complete_all(graph: &mut Graph, given: &[CfGiven])
    requires { AreThere (length graph.old.state.plan.stages) given.now }
    ensures { graph.new.state ≡ state_after graph.old.state (map completing given.now) }
{
    'each: for k in 0..given.len() {
        let CfGiven { stage, value } = given[k];
        graph.complete(stage, value_of(value));
    }
}
