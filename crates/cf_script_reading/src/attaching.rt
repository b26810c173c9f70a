//! The step that attaches a stage.
ghost use Rattle.std.specs.Prelude.{◌≡◌, ◌<◌, ℕ, ◌≤◌, All, IfSome, length, option_map};
ghost use Rattle.serde_json.specs.View.{view};
ghost use Rattle.cf_forms.specs.Plans.{sources_of};
ghost use Rattle.cf_script_reading.specs.Attaching.{attach_said, attaching, can_attach, few_sources, few_sources_said};
ghost use Rattle.cf_script_reading.specs.ReadingProgress.{FitsNext};

use crate::forms::form_of;
use crate::func::Func;
use crate::functions::{function, number_after};
use crate::parts::len;
use crate::script::Step;
use crate::step_parsers::stage_in;
use crate::version::Version;
use cf_forms::{Form, Of, fits_form};
use cf_model::Event;
use serde_json::Value as Json;

/// The stages that an array names, at most two.
#[tactic(auto, unfolding(crate::specs::Attaching::few_sources))]
fn few_sources(stages: u16, json: &Json) -> Option<Of>
    ensures said { result ≡ few_sources stages (view json.now) }
    ensures fits { IfSome result (λ of. All (λ j. j < stages) (sources_of of)) }
{
    let n = len(json);
    if n == 0 {
        return Some(Of::None);
    }
    if n == 1 {
        return Some(Of::One(stage_in(stages, json, 0)?));
    }
    if n != 2 {
        return None;
    }
    let first = stage_in(stages, json, 0)?;
    let second = stage_in(stages, json, 1)?;
    Some(Of::Two(first, second))
}

/// The sources of an attached stage, none where nothing is said of them.
fn sources(stages: u16, said: Option<&Json>) -> Option<Of>
    ensures said { result ≡ few_sources_said stages (option_map (λ d. view d.now) said.entry) }
    ensures fits { IfSome result (λ of. All (λ j. j < stages) (sources_of of)) }
{
    let Some(json) = said else {
        return Some(Of::None);
    };
    json.as_array()?;
    few_sources(stages, json)
}

/// Whether a stage may be attached so: it fits its form, and its function has a number that events have room for.
fn can_attach(form: Form, of: Of, number: Option<u16>) -> bool
    ensures { result ≡ can_attach form of number }
{
    let has_room = match number {
        None => true,
        Some(n) => n <= 4_095,
    };
    fits_form(form, of.count(), number.is_some()) && has_room
}

/// What caller 0 attaches, and its function.
fn attaching(
    functions: &[Func],
    form: Form,
    of: Of,
    function: Option<Func>,
) -> Option<(Step, Option<Func>)>
    requires few { length functions.now ≤ 4096 }
    ensures said { result ≡ attaching functions.now form of function }
    ensures fits { (n : ℕ) → All (λ j. j < n) (sources_of of) → IfSome result (FitsNext n functions.now) }
{
    let number = number_after(functions, function);
    if !can_attach(form, of, number) {
        return None;
    }
    let event = Event::Attach {
        who: 0,
        form,
        of,
        function: number,
    };
    Some((Step::Does(event), function))
}

/// `["attach",s]`, with the stage `s` written as the stages of a script are.
#[tactic(auto, unfolding(crate::specs::Attaching::attach_said))]
pub(crate) fn attach(stages: u16, functions: &[Func], json: &Json) -> Option<(Step, Option<Func>)>
    requires { length functions.now ≤ 4096 }
    ensures said { result ≡ attach_said stages functions.now (view json.now) }
    ensures fits { IfSome result (FitsNext stages functions.now) }
{
    if len(json) != 2 {
        return None;
    }
    let stage = json.get(1usize)?;
    let form = form_of(Version::Two, stage)?;
    let of = sources(stages, stage.get("of"))?;
    let function = function(stage.get("fn"))?;
    attaching(functions, form, of, function)
}
