//! How a request behind a handle gathers stages.
ghost use Rattle.std.specs.Prelude.{◌≡◌};
ghost use Rattle.cf_c_handles.specs.RequestGathers.{GathersIn, GathersOrNot, gathering_of};
ghost use Rattle.cf_c_handles.specs.declared.handle.object.Object.TheVariants.{Request as HeldRequest};

use crate::code::Code;
use crate::handle::object::Object;
use crate::ledger::word_code;
use crate::request::tell_into;
use crate::values::request::{CfRequestGathering, CfTodo, CfTold};
use cf_request::{Gathering, Machine};

/// Attaches a stage that gathers these.
pub fn gather(
    held: &mut Object,
    gathering: &mut CfRequestGathering,
    sources: &[u16],
    row: &mut [CfTold],
    todo: &mut CfTodo,
) -> Result<(), Code>
    ensures { GathersIn sources.now held.old (gathering.old, row.old, todo.old) result
        held.new (gathering.new, row.new, todo.new) }
{
    let Object::Request(machine) = held else {
        return Err(Code::WrongKind);
    };
    match gathering_of(gathering.form) {
        None => Err(Code::NoSuchNumber),
        Some(how) => gather_so(machine, how, gathering, sources, row, todo),
    }
}

/// The same where the form takes any number of sources.
fn gather_so(
    machine: &mut Machine,
    how: Gathering,
    gathering: &mut CfRequestGathering,
    sources: &[u16],
    row: &mut [CfTold],
    todo: &mut CfTodo,
) -> Result<(), Code>
    ensures { GathersOrNot how sources.now machine.old (gathering.old, row.old, todo.old) result
        (HeldRequest machine.new) (gathering.new, row.new, todo.new) }
{
    match machine.gather(gathering.who, how, sources) {
        Err(fault) => Err(word_code(fault)),
        Ok(root) => {
            gathering.root = root;
            tell_into(machine, row, todo);
            Ok(())
        }
    }
}

/// The form of a number, if it takes any number of sources.
fn gathering_of(number: u32) -> Option<Gathering>
    ensures { result ≡ gathering_of number }
{
    match number {
        16 => Some(Gathering::AllOf),
        17 => Some(Gathering::AnyOf),
        _ => None,
    }
}
