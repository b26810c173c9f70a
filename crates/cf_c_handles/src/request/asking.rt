//! What a request behind a handle is asked.
ghost use Rattle.cf_c_handles.specs.RequestCalls.{OfRequest, TellsNextIn, TellsReadyOf};

use crate::code::Code;
use crate::handle::object::Object;
use crate::values::request::{CfDeadline, as_deadline};

/// How many stages of a lane are ready.
pub fn ready(held: &mut Object, lane: u8) -> Result<u16, Code>
    ensures { OfRequest (TellsReadyOf lane) held.old result held.new }
{
    let Object::Request(machine) = held else {
        return Err(Code::WrongKind);
    };
    if lane >= machine.lanes() {
        return Err(Code::NoLane);
    }
    Ok(machine.ready(lane))
}

/// The first deadline of a stage that is open, from the last moment on.
pub fn next_deadline(held: &mut Object) -> Result<CfDeadline, Code>
    ensures { TellsNextIn held.old result held.new }
{
    let Object::Request(machine) = held else {
        return Err(Code::WrongKind);
    };
    match machine.next_deadline() {
        Some(deadline) => Ok(as_deadline(deadline)),
        None => Err(Code::Nothing),
    }
}
