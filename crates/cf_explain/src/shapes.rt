//! Which member gives a part of a script its wrong shape.
ghost use Rattle.cf_explain.specs.Places.{IsIn};

use crate::counts::element_of;
use crate::fitting::{needed, optional, taken, word_wrong};
use crate::place::Place;
use crate::reason::Reason;
use crate::refusing::{Finding, wrong_at};
use crate::stages::stage_wrong;
use crate::vocabulary::Words;
use crate::wanted::Wanted;
use cf_script_reading::Part;
use serde_json::Value as Json;

/// What is wrong with the shape of a part, which is at this place.
pub(crate) fn shape_wrong(place: Place, part: Part, json: &Json) -> Option<Finding<'_>>
    ensures { IsIn place.area result }
{
    match part {
        Part::Top => taken(place, json, Wanted::Object),
        Part::Version => needed(place, json.get("cf"), Wanted::Version),
        Part::Room => match optional(place, json.get("room"), Wanted::UpTo(4_096)) {
            Some(found) => Some(found),
            None => wrong_at(place, Reason::NoPlace),
        },
        Part::Stages => needed(place, json.get("stages"), Wanted::Array),
        Part::Limits => optional(place, json.get("limits"), Wanted::Array),
        Part::Steps => optional(place, json.get("steps"), Wanted::Array),
        Part::Stage(k) => {
            let said = element_of(json, "stages", k as usize);
            match said {
                None => None,
                Some(stage) => { stage_wrong(place, stage, version_of(json), Wanted::UpTo(65_535)) }
            }
        }
        Part::Limit(k) => {
            let said = element_of(json, "limits", k as usize);
            match said {
                None => None,
                Some(limit) => limit_wrong(place, limit),
            }
        }
    }
}

/// The version of a script that has one.
pub(crate) fn version_of(json: &Json) -> i64 {
    json.get("cf").and_then(Json::as_i64).unwrap_or(1)
}

/// What is wrong with a limit.
fn limit_wrong(place: Place, json: &Json) -> Option<Finding<'_>>
    ensures { IsIn place.area result }
{
    if let Some(found) = number_wrong(place, json) {
        return Some(found);
    }
    let kind = json.get("kind");
    if let Some(found) = word_wrong(place.member("kind"), kind, Words::Kinds) {
        return Some(found);
    }
    match kind.and_then(Json::as_str) {
        Some("timeout") => optional(
            place.member("code"),
            json.get("code"),
            Wanted::UpTo(u32::MAX),
        ),
        _ => needed(place.member("value"), json.get("value"), Wanted::Value),
    }
}

/// What is wrong with a limit as an object, with its stage or with its moment.
fn number_wrong(place: Place, json: &Json) -> Option<Finding<'_>>
    ensures { IsIn place.area result }
{
    if let Some(found) = taken(place, json, Wanted::Object) {
        return Some(found);
    }
    let stage = needed(
        place.member("stage"),
        json.get("stage"),
        Wanted::UpTo(65_535),
    );
    if stage.is_some() {
        return stage;
    }
    needed(place.member("at"), json.get("at"), Wanted::UpTo(u32::MAX))
}
