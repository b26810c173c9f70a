//! All requests of a store that a process works on.
ghost use Rattle.std.specs.Prelude.{◌≡◌, IfOk};
ghost use Rattle.cf_c_handles.specs.Hosts.{HostOf, answer_code, call_code, room_code};

pub mod answering;
pub mod asking;
pub mod calling;

use crate::code::Code;
use crate::handle::object::Object;
use crate::values::host::CfHostOpening;
use cf_host::{Host, NoAnswer, NoCall};
use cf_row::SESSIONS;
use std::alloc::{AllocError, Global};

/// A host that works on no request yet.
pub fn host_of(alloc: Global, opening: &CfHostOpening) -> Result<Object, Code>
    ensures { HostOf opening.now result }
{
    if opening.session >= SESSIONS {
        return Err(Code::NoTokens);
    }
    let host = Host::new(
        alloc,
        opening.session,
        opening.workers as usize,
        opening.lease,
        opening.takes_all != 0,
    );
    Ok(Object::Host(boxed(alloc, host)?))
}

fn boxed(alloc: Global, host: Host) -> Result<Box<Host>, AllocError>
    ensures { IfOk result (λ made. made.value ≡ host) }
{
    Ok(Box::new(alloc, host)?)
}

/// The code of the reason for which an answer is refused.
fn answer_code(why: NoAnswer) -> Code
    ensures { result ≡ answer_code why }
{
    match why {
        NoAnswer::NoTicket => Code::NoTicket,
        NoAnswer::Unfit => Code::Unfit,
        NoAnswer::NoMemory => Code::NoMemory,
    }
}

/// The code of the reason for which a user's call is refused.
fn call_code(why: NoCall) -> Code
    ensures { result ≡ call_code why }
{
    match why {
        NoCall::NotOpen => Code::NotOpen,
        NoCall::Unfit => Code::NoStage,
        NoCall::NoMemory => Code::NoMemory,
    }
}

/// The code of the reason for which no room is made.
fn room_code(why: NoCall) -> Code
    ensures { result ≡ room_code why }
{
    match why {
        NoCall::NotOpen => Code::NotOpen,
        NoCall::Unfit => Code::Room,
        NoCall::NoMemory => Code::NoMemory,
    }
}
