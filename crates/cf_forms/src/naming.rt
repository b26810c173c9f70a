//! The numbers and the names of forms.
ghost use Rattle.std.specs.Prelude.{◌≡◌, ◌<◌, IfSome, Some, slice_get};
ghost use Rattle.cf_forms.specs.Naming.{form_name, form_named, form_number, forms, free_form, handling_form, pair_form, single_form};

use crate::forms::Form;

/// All forms, by their numbers.
const FORMS: [Form; 19] = [
    Form::Source,
    Form::Supply,
    Form::RunAsync,
    Form::Apply,
    Form::Accept,
    Form::ThenRun,
    Form::Combine,
    Form::AcceptBoth,
    Form::RunBoth,
    Form::ApplyEither,
    Form::AcceptEither,
    Form::RunEither,
    Form::Compose,
    Form::Handle,
    Form::WhenComplete,
    Form::Exceptionally,
    Form::AllOf,
    Form::AnyOf,
    Form::ExceptionallyCompose,
];

impl Form {
    /// Its number, from 0 to 18, in the order in which the forms are declared.
    #[tactic(auto, using(crate::proofs::NamingLemmas::form_back))]
    pub fn number(self) -> u8
        ensures number { result ≡ form_number self }
        ensures few { result < 19 }
        ensures back { slice_get forms result ≡ Some self }
    {
        self as u8
    }

    /// The form with this number, if there is one.
    #[tactic(auto, using(crate::proofs::NamingLemmas::number_is))]
    pub fn numbered(number: u32) -> Option<Form>
        ensures form { result ≡ slice_get forms number }
        ensures back { IfSome result (λ form. form_number form ≡ number) }
    {
        if (number as usize) < FORMS.len() {
            Some(FORMS[number as usize])
        } else {
            None
        }
    }

    /// Its name, as scripts have it.
    #[tactic(auto, unfolding(crate::specs::Naming::form_named, crate::specs::Naming::free_form, crate::specs::Naming::single_form, crate::specs::Naming::handling_form, crate::specs::Naming::pair_form))]
    pub fn name(self) -> &'static str
        ensures name { result.now ≡ form_name self }
        ensures back { form_named result.now ≡ Some self }
    {
        match self {
            Form::Source => "source",
            Form::Supply => "supply",
            Form::RunAsync => "runAsync",
            Form::Apply => "apply",
            Form::Accept => "accept",
            Form::ThenRun => "thenRun",
            Form::Combine => "combine",
            Form::AcceptBoth => "acceptBoth",
            Form::RunBoth => "runBoth",
            Form::ApplyEither => "applyEither",
            Form::AcceptEither => "acceptEither",
            Form::RunEither => "runEither",
            Form::Compose => "compose",
            Form::Handle => "handle",
            Form::WhenComplete => "whenComplete",
            Form::Exceptionally => "exceptionally",
            Form::AllOf => "allOf",
            Form::AnyOf => "anyOf",
            Form::ExceptionallyCompose => "exceptionallyCompose",
        }
    }

    /// The form with this name, if there is one.
    pub fn named(name: &str) -> Option<Form>
        ensures form { result ≡ form_named name.now }
        ensures back { IfSome result (λ form. name.now ≡ form_name form) }
    {
        named(name)
    }
}

/// The form with this name, looked for in one group of forms after another.
#[tactic(auto, unfolding(crate::specs::Naming::form_named))]
fn named(name: &str) -> Option<Form>
    ensures { result ≡ form_named name.now }
{
    if let Some(form) = free(name) {
        return Some(form);
    }
    if let Some(form) = single(name) {
        return Some(form);
    }
    if let Some(form) = handling(name) {
        return Some(form);
    }
    pair(name)
}

/// The forms of no source, or of any number.
#[tactic(auto, unfolding(crate::specs::Naming::free_form))]
fn free(name: &str) -> Option<Form>
    ensures { result ≡ free_form name.now }
{
    match name {
        "source" => Some(Form::Source),
        "supply" => Some(Form::Supply),
        "runAsync" => Some(Form::RunAsync),
        "allOf" => Some(Form::AllOf),
        "anyOf" => Some(Form::AnyOf),
        _ => None,
    }
}

/// The forms of one source that pass its fault on.
#[tactic(auto, unfolding(crate::specs::Naming::single_form))]
fn single(name: &str) -> Option<Form>
    ensures { result ≡ single_form name.now }
{
    match name {
        "apply" => Some(Form::Apply),
        "accept" => Some(Form::Accept),
        "thenRun" => Some(Form::ThenRun),
        "compose" => Some(Form::Compose),
        _ => None,
    }
}

/// The forms of one source whose functions are told its fault.
#[tactic(auto, unfolding(crate::specs::Naming::handling_form))]
fn handling(name: &str) -> Option<Form>
    ensures { result ≡ handling_form name.now }
{
    match name {
        "handle" => Some(Form::Handle),
        "whenComplete" => Some(Form::WhenComplete),
        "exceptionally" => Some(Form::Exceptionally),
        "exceptionallyCompose" => Some(Form::ExceptionallyCompose),
        _ => None,
    }
}

/// The forms of two sources.
#[tactic(auto, unfolding(crate::specs::Naming::pair_form))]
fn pair(name: &str) -> Option<Form>
    ensures { result ≡ pair_form name.now }
{
    match name {
        "combine" => Some(Form::Combine),
        "acceptBoth" => Some(Form::AcceptBoth),
        "runBoth" => Some(Form::RunBoth),
        "applyEither" => Some(Form::ApplyEither),
        "acceptEither" => Some(Form::AcceptEither),
        "runEither" => Some(Form::RunEither),
        _ => None,
    }
}
