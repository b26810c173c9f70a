//! Forms, sources and functions as C has them, and the stage that they attach.
ghost use Rattle.std.specs.Prelude.{◌≡◌};
ghost use Rattle.cf_c_handles.specs.Desks.{call_with};
ghost use Rattle.cf_c_handles.specs.Plans.{as_function, attach_event, event_with, function_of, parts_of, parts_with, sources_as, sources_with};

use crate::code::Code;
use cf_desk::Call;
use cf_forms::{Form, Of};
use cf_model::Event;

/// A function's number, or none where it is above 65,535.
#[inline(always)]
pub fn function_of(function: u32) -> Option<u16>
    ensures { result ≡ function_of function }
{
    if function < 65_536 {
        Some(function as u16)
    } else {
        None
    }
}

/// A function's number for C, or one that is none.
#[inline(always)]
pub(crate) fn as_function(function: Option<u16>) -> u32
    ensures { result ≡ as_function function }
{
    match function {
        None => u32::MAX,
        Some(function) => u32::from(function),
    }
}

/// The sources of an attached stage, of which there are at most two.
#[inline(always)]
fn sources_as(of: &[u16]) -> Option<Of>
    ensures { result ≡ sources_as of.now }
{
    match of {
        [] => Some(Of::None),
        [a] => Some(Of::One(*a)),
        [a, b] => Some(Of::Two(*a, *b)),
        _ => None,
    }
}

/// So many sources of these two, of which there are at most two.
#[inline(always)]
pub(crate) fn sources_with(count: u32, first: u16, second: u16) -> Option<Of>
    ensures { result ≡ sources_with count first second }
{
    match count {
        0 => Some(Of::None),
        1 => Some(Of::One(first)),
        2 => Some(Of::Two(first, second)),
        _ => None,
    }
}

/// A stage that is to be attached.
#[derive(Drop)]
pub struct AttachParts {
    pub form: Form,
    pub of: Of,
    pub function: Option<u16>,
}

/// The stage that is to be attached, or why there is none.
#[inline(always)]
fn parts_of(form: u32, of: &[u16], function: u32) -> Result<AttachParts, Code>
    ensures { result ≡ parts_of form of.now function }
{
    parts_with(Form::numbered(form), sources_as(of), function)
}

/// The same of a form and sources that were looked up.
#[inline(always)]
pub(crate) fn parts_with(
    form: Option<Form>,
    of: Option<Of>,
    function: u32,
) -> Result<AttachParts, Code>
    ensures { result ≡ parts_with form of function }
{
    let Some(form) = form else {
        return Err(Code::NoSuchNumber);
    };
    let Some(of) = of else {
        return Err(Code::WrongSourceCount);
    };
    let function = function_of(function);
    Ok(AttachParts { form, of, function })
}

/// The event by which a caller attaches a stage, or why there is none.
#[inline(always)]
pub(crate) fn event_with(who: u8, parts: Result<AttachParts, Code>) -> Result<Event, Code>
    ensures { result ≡ event_with who parts }
{
    match parts {
        Ok(AttachParts { form, of, function }) => Ok(Event::Attach {
            who,
            form,
            of,
            function,
        }),
        Err(code) => Err(code),
    }
}

/// The event by which the caller of a graph attaches a stage, or why there is none.
#[inline(always)]
pub fn attach_event(form: u32, of: &[u16], function: u32) -> Result<Event, Code>
    ensures { result ≡ attach_event form of.now function }
{
    event_with(0, parts_of(form, of, function))
}

/// The call by which the caller of a desk attaches a stage, or why there is none.
#[inline(always)]
pub fn attach_call(form: u32, of: &[u16], function: u32) -> Result<Call, Code>
    ensures { result ≡ call_with (parts_of form of.now function) }
{
    match parts_of(form, of, function) {
        Ok(AttachParts { form, of, function }) => Ok(Call::Attach(form, of, function)),
        Err(code) => Err(code),
    }
}
