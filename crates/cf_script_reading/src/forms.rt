//! The forms of stages.
ghost use Rattle.std.specs.Prelude.{◌≡◌};
ghost use Rattle.serde_json.specs.View.{view};
ghost use Rattle.cf_script_reading.specs.Stages.{form_in, form_of};

use crate::version::Version;
use cf_forms::Form;
use serde_json::Value as Json;

/// The form, if scripts of this version have it: `exceptionallyCompose` came with version 2.
fn form_in(version: Version, form: Form) -> Option<Form>
    ensures { result ≡ form_in version form }
{
    match (version, form) {
        (Version::One, Form::ExceptionallyCompose) => None,
        _ => Some(form),
    }
}

/// The form of a stage.
pub(crate) fn form_of(version: Version, json: &Json) -> Option<Form>
    ensures { result ≡ form_of version (view json.now) }
{
    form_in(version, Form::named(json.get("form")?.as_str()?)?)
}
