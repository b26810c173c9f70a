//! How a request behind a handle attaches composes with their relays, and finishes them with any stage.
ghost use Rattle.std.specs.Prelude.{◌≡◌, ◌<◌};
ghost use Rattle.cf_c_handles.specs.RequestComposes.{ComposesIn, ComposesOrNot, LinksIn, LinksOrNot, composed_of, composing_of};
ghost use Rattle.cf_c_handles.specs.declared.handle.object.Object.TheVariants.{Request as HeldRequest};

use crate::code::Code;
use crate::handle::object::Object;
use crate::ledger::stepping::{late_number, step_code};
use crate::ledger::word_code;
use crate::request::tell_into;
use crate::values::request::{CfRequestComposing, CfRequestLinking, CfTodo, CfTold};
use crate::values::task::{CfTask, held_by};
use cf_request::{Composed, Composing, Machine};

/// Attaches a compose with its relay.
pub fn compose(
    held: &mut Object,
    step: &mut CfRequestComposing,
    row: &mut [CfTold],
    todo: &mut CfTodo,
) -> Result<(), Code>
    ensures { ComposesIn held.old (step.old, row.old, todo.old) result held.new (step.new, row.new, todo.new) }
{
    let Object::Request(machine) = held else {
        return Err(Code::WrongKind);
    };
    if step.lane >= machine.lanes() {
        return Err(Code::NoLane);
    }
    match composing_of(step.form) {
        None => Err(Code::NoSuchNumber),
        Some(how) => compose_so(machine, how, step, row, todo),
    }
}

/// The same in a lane that is there, where the form is a compose's.
fn compose_so(
    machine: &mut Machine,
    how: Composing,
    step: &mut CfRequestComposing,
    row: &mut [CfTold],
    todo: &mut CfTodo,
) -> Result<(), Code>
    requires { step.old.lane < machine.old.teller.lanes.count }
    ensures { ComposesOrNot how machine.old (step.old, row.old, todo.old) result (HeldRequest machine.new)
        (step.new, row.new, todo.new) }
{
    match machine.compose(step.who, how, step.source, step.function, step.lane) {
        Err(fault) => Err(word_code(fault)),
        Ok(composed) => {
            step.relay = composed.relay;
            step.stage = composed.stage;
            tell_into(machine, row, todo);
            Ok(())
        }
    }
}

/// The form of a number, if it is a compose's.
fn composing_of(number: u32) -> Option<Composing>
    ensures { result ≡ composing_of number }
{
    match number {
        12 => Some(Composing::Compose),
        18 => Some(Composing::ExceptionallyCompose),
        _ => None,
    }
}

/// Finishes the compose that a task holds with any stage. The task holds nothing then.
pub fn link(
    held: &mut Object,
    step: &CfRequestLinking,
    task: &mut CfTask,
    row: &mut [CfTold],
    todo: &mut CfTodo,
) -> Result<(), Code>
    ensures { LinksIn step.now held.old (task.old, row.old, todo.old) result held.new (task.new, row.new, todo.new) }
{
    let Object::Request(machine) = held else {
        return Err(Code::WrongKind);
    };
    match held_by(task) {
        None => Err(Code::NotHeld),
        Some(_) => link_so(machine, step, task, row, todo),
    }
}

/// The same where the task holds a stage.
fn link_so(
    machine: &mut Machine,
    step: &CfRequestLinking,
    task: &mut CfTask,
    row: &mut [CfTold],
    todo: &mut CfTodo,
) -> Result<(), Code>
    ensures { LinksOrNot step.now machine.old (task.old, row.old, todo.old) result (HeldRequest machine.new)
        (task.new, row.new, todo.new) }
{
    match machine.link(step.who, composed_of(step, task), step.stage) {
        Err(fault) => Err(step_code(fault)),
        Ok(finish) => {
            task.finished = late_number(Some(finish));
            task.held = 0;
            tell_into(machine, row, todo);
            Ok(())
        }
    }
}

/// The compose that a task holds, with its relay.
fn composed_of(step: &CfRequestLinking, task: &CfTask) -> Composed
    ensures { result ≡ composed_of step.now task.now }
{
    Composed {
        relay: step.relay,
        stage: task.stage,
    }
}
