//! The tables of the forms: what a stage takes from its sources, and where its function's answer lands.
//!
//! They are those of Java SE 17's `CompletionStage`: a stage that doesn't handle a fault passes it on inside a
//! completion exception, which `wrap` says, and one that handles it is told the outcome as it is stored.
ghost use Rattle.std.specs.Prelude.{◌≡◌, ℕ};
ghost use Rattle.cf_forms.specs.Forms.{composes, due_one, due_two, is_decided_by_first, kept_value, landing, starts};

use crate::forms::{Answer, Args, Due, Form, Landing};
use cf_outcome::{Cause, Outcome, Value, is_exceptional, wrap};

/// What a stage takes from its one source, or from the source that decides an either form or an anyOf. The form is one
/// of those.
pub fn due_one(form: Form, o: Outcome) -> Due
    ensures { result ≡ due_one form o }
{
    match (form, o) {
        (Form::Handle | Form::WhenComplete, _) => Due::Needs(Args::Got(o)),
        (Form::Exceptionally | Form::ExceptionallyCompose, Outcome::Value(_)) => Due::Settles(o),
        (Form::Exceptionally | Form::ExceptionallyCompose, Outcome::Fault { .. }) => {
            Due::Needs(Args::Got(o))
        }
        (Form::AnyOf, _) => Due::Settles(wrap(o)),
        (Form::ThenRun | Form::RunEither, Outcome::Value(_)) => Due::Needs(Args::None),
        (_, Outcome::Value(v)) => Due::Needs(Args::One(v)),
        (_, Outcome::Fault { .. }) => Due::Settles(wrap(o)),
    }
}

/// What a stage takes from two sources that have both settled: a fault of the first goes before one of the second.
/// The form is `Combine`, `AcceptBoth` or `RunBoth`.
pub fn due_two(form: Form, a: Outcome, b: Outcome) -> Due
    ensures { result ≡ due_two form a b }
{
    match (a, b) {
        (Outcome::Fault { .. }, _) => Due::Settles(wrap(a)),
        (_, Outcome::Fault { .. }) => Due::Settles(wrap(b)),
        (Outcome::Value(v), Outcome::Value(w)) => {
            if form == Form::RunBoth {
                Due::Needs(Args::None)
            } else {
                Due::Needs(Args::Two(v, w))
            }
        }
    }
}

/// Where the answer of stage `stage`'s function lands. The form has a function; for `WhenComplete` `source` is its
/// source's outcome, and for the others it isn't looked at. An answer that the form has no use for is the fault
/// `BadAnswer` with code 0: a link by any form but `Compose` and `ExceptionallyCompose`, or to a stage that isn't
/// lower, and a value by these two.
#[inline(always)]
pub fn landing(form: Form, stage: u16, source: Option<Outcome>, answer: Answer) -> Landing
    ensures { result ≡ landing form stage source answer }
{
    let bad = Outcome::Fault {
        cause: Cause::BadAnswer(0),
        wrapped: true,
    };
    if let (Form::WhenComplete, Some(o)) = (form, source) {
        if is_exceptional(o) {
            return Landing::Settles(wrap(o));
        }
    }
    match answer {
        Answer::Throw(code) => Landing::Settles(Outcome::Fault {
            cause: Cause::Thrown(code),
            wrapped: true,
        }),
        Answer::Link(j) => {
            if composes(form) && j < stage {
                Landing::Links(j)
            } else {
                Landing::Settles(bad)
            }
        }
        Answer::Give(_) if composes(form) => Landing::Settles(bad),
        Answer::Give(v) => match (form, source) {
            (Form::WhenComplete, Some(o)) => Landing::Settles(o),
            _ => Landing::Settles(Outcome::Value(kept(form, v))),
        },
    }
}

/// Whether a form takes what the first of its sources to settle has. It is false of a form without sources.
#[inline(always)]
pub fn is_decided_by_first(form: Form) -> bool
    ensures { result ≡ is_decided_by_first form }
{
    match form {
        Form::Source
        | Form::Supply
        | Form::RunAsync
        | Form::Combine
        | Form::AcceptBoth
        | Form::RunBoth
        | Form::AllOf => false,
        _ => true,
    }
}

/// Whether the function of a form answers with a stage, to which its own is then linked.
#[inline(always)]
pub fn composes(form: Form) -> bool
    ensures { result ≡ composes form }
{
    matches!(form, Form::Compose | Form::ExceptionallyCompose)
}

/// Whether a stage of this form with these sources has something to take from the start on, when nothing has settled: a
/// supply or runAsync, or an allOf without sources.
pub fn starts(form: Form, of: &[u16]) -> bool
    ensures { result ≡ starts form of.now }
{
    match form {
        Form::Supply | Form::RunAsync => true,
        Form::AllOf => of.is_empty(),
        _ => false,
    }
}

/// The value that a stage keeps of the one that its function gave.
fn kept(form: Form, v: Value) -> Value
    ensures { result ≡ kept_value form v }
{
    match form {
        Form::Supply
        | Form::Apply
        | Form::Combine
        | Form::ApplyEither
        | Form::Handle
        | Form::Exceptionally => v,
        _ => Value::Nil,
    }
}
