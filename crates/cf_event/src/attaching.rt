//! The fields of the word of an event that attaches a stage.
ghost use Rattle.std.specs.Prelude.{◌≡◌, ◌<◌, ◌≤◌, ◌↔◌, IsTrue, unwrap_or};
ghost use Rattle.cf_event.specs.Words.{IsStage, attach_low, count_of, first_of, second_of};
ghost use Rattle.cf_event.specs.Events.{IsFunctionBelow};
ghost use Rattle.cf_event.specs.Decoding.{attach_of, attach_with, of_with};

use cf_forms::{Form, Of, fits_form};
use cf_model::Event;

/// The greatest function's number that a word has room for.
pub const LAST_FUNCTION: u16 = 4095;

/// One in each field of the low half.
const FORM: u32 = 1 << 24;

const SECOND: u32 = 1 << 12;

/// Whether a word has room for this function, and the stage fits its form.
pub(crate) fn is_stage(form: Form, of: Of, function: Option<u16>) -> bool
    ensures { IsTrue result ↔ IsStage form of function }
{
    function.unwrap_or(0) <= LAST_FUNCTION && fits_form(form, of.count(), function.is_some())
}

/// Whether a function, if there is one, is one of so many.
pub fn is_function(function: Option<u16>, functions: u32) -> bool
    ensures { IsTrue result ↔ IsFunctionBelow functions function }
{
    match function {
        None => true,
        Some(number) => u32::from(number) < functions,
    }
}

/// How many sources they are.
pub(crate) fn count_of(of: Of) -> u8
    ensures count { result ≡ count_of of }
    ensures small { result < 16 }
{
    of.count() as u8
}

/// The first source, or 0.
pub(crate) fn first_of(of: Of) -> u16
    ensures { result ≡ first_of of }
{
    match of {
        Of::None => 0,
        Of::One(a) | Of::Two(a, _) => a,
    }
}

/// The second source, or 0.
pub(crate) fn second_of(of: Of) -> u16
    ensures { result ≡ second_of of }
{
    match of {
        Of::None | Of::One(_) => 0,
        Of::Two(_, b) => b,
    }
}

/// The low half of an attached stage.
pub(crate) fn attach_low(form: Form, of: Of, function: Option<u16>) -> u32
    requires second { second_of of ≤ 4095 }
    requires function { unwrap_or function 0 ≤ 4095 }
    ensures { result ≡ attach_low form of function }
{
    u32::from(form.number()) * FORM + second_of(of) as u32 * SECOND + function.unwrap_or(0) as u32
}

/// The attaching with these fields, if there is one. It is never inlined: `decode` is inlined into its callers, and few
/// events attach a stage.
#[inline(never)]
pub(crate) fn attach_with(who: u8, first: u16, count: u8, low: u32) -> Option<Event>
    ensures { result ≡ attach_with who first count low }
{
    let second = (low / SECOND % SECOND) as u16;
    let function = (low % SECOND) as u16;
    match Form::numbered(low / FORM) {
        None => None,
        Some(form) => match of_with(count, first, second) {
            None => None,
            Some(of) => attach_of(who, form, of, function),
        },
    }
}

/// So many sources with these numbers, if that can be.
fn of_with(count: u8, first: u16, second: u16) -> Option<Of>
    ensures { result ≡ of_with count first second }
{
    match count {
        0 if first == 0 && second == 0 => Some(Of::None),
        1 if second == 0 => Some(Of::One(first)),
        2 => Some(Of::Two(first, second)),
        _ => None,
    }
}

/// The attaching of a stage with its function's number, or with 0 where it has no function, if that fits its form.
fn attach_of(who: u8, form: Form, of: Of, function: u16) -> Option<Event>
    ensures { result ≡ attach_of who form of function }
{
    if fits_form(form, of.count(), true) {
        Some(Event::Attach {
            who,
            form,
            of,
            function: Some(function),
        })
    } else if fits_form(form, of.count(), false) && function == 0 {
        Some(Event::Attach {
            who,
            form,
            of,
            function: None,
        })
    } else {
        None
    }
}
