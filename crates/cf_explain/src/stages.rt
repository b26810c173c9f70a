//! What is wrong with a stage, whether the script's or an attached one.
ghost use Rattle.cf_explain.specs.Places.{IsIn};

use crate::fitting::{taken, word_wrong};
use crate::place::Place;
use crate::reason::Reason;
use crate::refusing::{Finding, wrong_at};
use crate::vocabulary::Words;
use crate::wanted::Wanted;
use cf_forms::{Form, fits_form};
use serde_json::Value as Json;

/// The form that came with version 2.
const LATER: &str = "exceptionallyCompose";

/// What is wrong with the form of a stage, or with its sources as numbers up to this one.
pub(crate) fn stage_wrong(
    place: Place,
    json: &Json,
    version: i64,
    source: Wanted,
) -> Option<Finding<'_>>
    ensures { IsIn place.area result }
{
    if let Some(found) = taken(place, json, Wanted::Object) {
        return Some(found);
    }
    let form = json.get("form");
    if let Some(found) = word_wrong(place.member("form"), form, Words::Forms) {
        return Some(found);
    }
    if version == 1 && form.and_then(Json::as_str) == Some(LATER) {
        return wrong_at(place.member("form"), Reason::NotBefore(2));
    }
    sources_wrong(place.member("of"), json.get("of"), source)
}

/// What is wrong with the sources of a stage.
fn sources_wrong(place: Place, said: Option<&Json>, source: Wanted) -> Option<Finding<'_>>
    ensures { IsIn place.area result }
{
    let json = said?;
    let Some(list) = json.as_array() else {
        return wrong_at(place, Reason::Wants(Wanted::Array));
    };
    for (j, item) in list.iter().enumerate() {
        if !source.takes(item) {
            return wrong_at(place.item(j), Reason::Wants(source));
        }
    }
    None
}

/// What is wrong with a stage's number of sources, or with its having a function or none.
pub(crate) fn misfit(place: Place, json: &Json) -> Option<Finding<'_>>
    ensures { IsIn place.area result }
{
    let form = form_of(json)?;
    let found = source_count(json);
    let called = json.get("fn").is_some();
    let count = u16::try_from(found).unwrap_or(u16::MAX);
    if fits_form(form, count, called) {
        None
    } else if fits_form(form, count, !called) {
        let why = if called {
            Reason::FunctionUnwanted
        } else {
            Reason::Missing(Wanted::Function)
        };
        wrong_at(place.member("fn"), why)
    } else {
        let wanted = sources_taken(form)?;
        wrong_at(place.member("of"), Reason::Sources { wanted, found })
    }
}

/// The form of a stage.
fn form_of(json: &Json) -> Option<Form> {
    Form::named(json.get("form")?.as_str()?)
}

/// How many sources a stage names.
pub(crate) fn source_count(json: &Json) -> usize {
    match json.get("of").and_then(Json::as_array) {
        Some(list) => list.len(),
        None => 0,
    }
}

/// How many sources a form takes, if that is fixed.
fn sources_taken(form: Form) -> Option<u16> {
    for count in 0..3u16 {
        if fits_form(form, count, true) || fits_form(form, count, false) {
            return Some(count);
        }
    }
    None
}
