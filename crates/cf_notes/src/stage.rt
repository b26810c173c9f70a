//! What a note says of a stage as it comes.
ghost use Rattle.std.specs.Prelude.{◌≡◌};
ghost use Rattle.cf_notes.specs.Noting.{called_by, function_of, noted_as, with_function, with_try};

use crate::lookups::function_of;
use crate::note::Note;
use crate::noted::Noted;
use cf_forms::{Form, composes};

/// What a note says of a stage that comes behind these, with a function of the graph or without one.
pub(crate) fn noted_as(stages: &[Noted], form: Form, function: Option<u16>, note: Note) -> Noted
    ensures { result ≡ noted_as stages.now form function note }
{
    if function.is_some() {
        called_by(stages, form, note)
    } else {
        with_function(None)
    }
}

/// What a note says of a stage with a function.
fn called_by(stages: &[Noted], form: Form, note: Note) -> Noted
    ensures { result ≡ called_by stages.now form note }
{
    let unknown = with_function(Some(0));
    match note {
        Note::Calls { function } if !composes(form) => with_function(Some(function)),
        Note::Tries { of } if !composes(form) => with_try(stages, of),
        Note::Composes { function, promise }
            if composes(form) && (promise as usize) < stages.len() => Noted {
            promise: Some(promise),
            ..with_function(Some(function))
        },
        _ => unknown,
    }
}

/// A stage that tries this one again, if it is there and has a function.
fn with_try(stages: &[Noted], of: u16) -> Noted
    ensures { result ≡ with_try of (function_of stages.now of) }
{
    match function_of(stages, of) {
        None => with_function(Some(0)),
        Some(function) => Noted {
            tries: Some(of),
            ..with_function(Some(function))
        },
    }
}

/// A stage with this function, of which nothing else was said.
fn with_function(function: Option<u32>) -> Noted
    ensures { result ≡ with_function function }
{
    Noted {
        function,
        tries: None,
        promise: None,
        given: None,
        timer: None,
        abandoned: None,
    }
}
