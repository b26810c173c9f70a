//! The shapes by which a picture shows the kinds of forms.
use cf_forms::Form;

/// The shape of a form's stages: an ellipse is settled from outside; a box has a function that is called with nothing or
/// with the value of one source; a hexagon's function is told a fault too; a trapezium waits for all its sources; the first
/// source decides what happens in a house that stands on its head; a parallelogram takes the outcome of the stage that its
/// function names.
pub(crate) fn shape_of(form: Form) -> &'static str {
    match form {
        Form::Source => "ellipse",
        Form::Supply | Form::RunAsync | Form::Apply | Form::Accept | Form::ThenRun => "box",
        Form::Handle | Form::WhenComplete | Form::Exceptionally => "hexagon",
        Form::Combine | Form::AcceptBoth | Form::RunBoth | Form::AllOf => "invtrapezium",
        Form::ApplyEither | Form::AcceptEither | Form::RunEither | Form::AnyOf => "invhouse",
        Form::Compose | Form::ExceptionallyCompose => "parallelogram",
    }
}

/// Whether the function takes the values of two sources, so that their order matters to it.
pub(crate) fn is_ordered(form: Form) -> bool {
    matches!(form, Form::Combine | Form::AcceptBoth)
}
