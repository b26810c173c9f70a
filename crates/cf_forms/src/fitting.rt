//! Which stages fit their form: how many sources it takes, and whether it has a function.
ghost use Rattle.std.specs.Prelude.{◌≡◌};
ghost use Rattle.cf_forms.specs.Plans.{calls_function, fits_count, fits_form};

use crate::forms::Form;

/// Whether a stage with so many sources, and with a function or without one, fits the form. If so, a `PlanBuilder`
/// doesn't refuse it as `WrongSourceCount`, `FunctionMissing` or `FunctionUnwanted`.
pub fn fits_form(form: Form, sources: u16, has_function: bool) -> bool
    ensures { result ≡ fits_form form sources has_function }
{
    takes_count(form, sources as usize) && has_function == calls_function(form)
}

/// Whether the form takes this many sources.
pub fn takes_count(form: Form, count: usize) -> bool
    ensures { result ≡ fits_count form count }
{
    match form {
        Form::Source | Form::Supply | Form::RunAsync => count == 0,
        Form::Combine
        | Form::AcceptBoth
        | Form::RunBoth
        | Form::ApplyEither
        | Form::AcceptEither
        | Form::RunEither => count == 2,
        Form::AllOf | Form::AnyOf => true,
        _ => count == 1,
    }
}

/// Whether a stage of the form has a function.
pub fn calls_function(form: Form) -> bool
    ensures { result ≡ calls_function form }
{
    !matches!(form, Form::Source | Form::AllOf | Form::AnyOf)
}
