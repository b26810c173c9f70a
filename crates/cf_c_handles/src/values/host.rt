//! What a host of a store is given, as C has it.
ghost use Rattle.std.specs.Prelude.{◌≡◌};
ghost use Rattle.cf_c_handles.specs.HostValues.{act_of, attaching, ends_of, note_function};

pub mod order;
pub mod rows;

use crate::code::Code;
use crate::values::attaching::sources_with;
use cf_due::Act;
use cf_forms::{Form, Of};
use cf_notes::EndsWith;

/// What a host is opened with: its session's number, how many functions run at a time, how long a session that doesn't beat is
/// waited for, and whether it takes up all requests (not 0).
#[repr(C)]
#[derive(Clone, Copy)]
pub struct CfHostOpening {
    pub session: u64,
    pub workers: u32,
    pub lease: u64,
    pub takes_all: u32,
}

/// What a user asks of a request: to complete (kind 0), to fail (1) or to cancel (2) a stage, to cancel one whose function runs
/// nowhere (3), to let it time out (4) or to complete it (5) at a moment, to attach a stage (6), or a further try of one (7).
///
/// | Act | Besides `kind` |
/// |---|---|
/// | complete, fail, cancel, further try | `stage` |
/// | at a moment | `stage`, `moment` |
/// | attach | `form`, how many `sources`, the `first` and the `second` of them, `function` |
#[repr(C)]
#[derive(Clone, Copy)]
pub struct CfHostActing {
    pub kind: u32,
    pub stage: u16,
    pub moment: u64,
    pub form: u32,
    pub sources: u32,
    pub first: u16,
    pub second: u16,
    pub function: u32,
}

/// What a host has seen of a request: how many words, how many stages there are by these, and why nothing goes on there, as an
/// order tells it, or 0.
#[repr(C)]
#[derive(Clone, Copy)]
pub struct CfHostView {
    pub words: usize,
    pub stages: u16,
    pub fault: u32,
}

/// The act that C means, or why there is none: no act or no form has the number, or there are more than two sources.
pub(crate) fn act_of(asked: &CfHostActing) -> Result<Act, Code>
    ensures { result ≡ act_of asked.now }
{
    let stage = asked.stage;
    let moment = asked.moment;
    match asked.kind {
        0 => Ok(Act::Complete { stage }),
        1 => Ok(Act::Fail { stage }),
        2 => Ok(Act::Cancel {
            stage,
            only_idle: false,
        }),
        3 => Ok(Act::Cancel {
            stage,
            only_idle: true,
        }),
        4 => Ok(Act::Limit {
            stage,
            moment,
            gives: false,
        }),
        5 => Ok(Act::Limit {
            stage,
            moment,
            gives: true,
        }),
        6 => {
            let of = sources_with(asked.sources, asked.first, asked.second);
            attaching(
                Form::numbered(asked.form),
                of,
                note_function(asked.function),
            )
        }
        7 => Ok(Act::Again { stage }),
        _ => Err(Code::NoSuchNumber),
    }
}

/// The act that attaches a stage, or why there is none.
fn attaching(form: Option<Form>, of: Option<Of>, function: Option<u32>) -> Result<Act, Code>
    ensures { result ≡ attaching form of function }
{
    let Some(form) = form else {
        return Err(Code::NoSuchNumber);
    };
    let Some(of) = of else {
        return Err(Code::WrongSourceCount);
    };
    Ok(Act::Attach { form, of, function })
}

/// A function's number as notes have it, or none where it is the highest of its type.
fn note_function(function: u32) -> Option<u32>
    ensures { result ≡ note_function function }
{
    if function == u32::MAX {
        None
    } else {
        Some(function)
    }
}

/// What C says that a function came to: a value (kind 0), none (1), an error (2), the error whose payload stands at the place `code`
/// (3), or a stage (4).
pub(crate) fn ends_of(kind: u32, code: u32, stage: u16) -> Result<EndsWith, Code>
    ensures { result ≡ ends_of kind code stage }
{
    match kind {
        0 => Ok(EndsWith::Gives),
        1 => Ok(EndsWith::NoValue),
        2 => Ok(EndsWith::Throws),
        3 => Ok(EndsWith::Passes { code }),
        4 => Ok(EndsWith::Links { stage }),
        _ => Err(Code::NoSuchNumber),
    }
}
