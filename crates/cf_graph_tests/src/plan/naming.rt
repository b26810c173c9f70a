//! The numbers and the names of forms, which forms' functions answer with a stage, and which the first settled source
//! decides.
use crate::plan::tables::Row;
use cf_forms::{Form, composes};

/// Each form. The first settled source decides none without a source, and none that waits for all of its sources. Other
/// numbers and names are none's.
pub(super) const NAMES: [Row; 27] = [
    Row::Named(0, Form::Source, "source", false, false),
    Row::Named(1, Form::Supply, "supply", false, false),
    Row::Named(2, Form::RunAsync, "runAsync", false, false),
    Row::Named(3, Form::Apply, "apply", false, true),
    Row::Named(4, Form::Accept, "accept", false, true),
    Row::Named(5, Form::ThenRun, "thenRun", false, true),
    Row::Named(6, Form::Combine, "combine", false, false),
    Row::Named(7, Form::AcceptBoth, "acceptBoth", false, false),
    Row::Named(8, Form::RunBoth, "runBoth", false, false),
    Row::Named(9, Form::ApplyEither, "applyEither", false, true),
    Row::Named(10, Form::AcceptEither, "acceptEither", false, true),
    Row::Named(11, Form::RunEither, "runEither", false, true),
    Row::Named(12, Form::Compose, "compose", true, true),
    Row::Named(13, Form::Handle, "handle", false, true),
    Row::Named(14, Form::WhenComplete, "whenComplete", false, true),
    Row::Named(15, Form::Exceptionally, "exceptionally", false, true),
    Row::Named(16, Form::AllOf, "allOf", false, false),
    Row::Named(17, Form::AnyOf, "anyOf", false, true),
    Row::Named(
        18,
        Form::ExceptionallyCompose,
        "exceptionallyCompose",
        true,
        true,
    ),
    Row::NoNumber(19),
    Row::NoNumber(256),
    Row::NoNumber(4_294_967_295),
    Row::NoName(""),
    Row::NoName("Source"),
    Row::NoName("apply "),
    Row::NoName("thenApply"),
    Row::NoName("exceptionallycompose"),
];

/// Whether these are the form's number and its name, and the other way round, and it composes or doesn't.
pub(super) fn is_named(form: Form, number: u8, name: &str, answers_a_stage: bool) -> bool {
    (composes(form) == answers_a_stage)
        & (form.number() == number)
        & (Form::numbered(u32::from(number)) == Some(form))
        & (form.name() == name)
        & (Form::named(name) == Some(form))
}
