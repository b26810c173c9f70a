//! The members that nobody reads.
ghost use Rattle.std.specs.Prelude.{◌≡◌, option_map};
ghost use Rattle.serde_json.specs.View.{items_view, view};
ghost use Rattle.cf_explain.specs.Limits.{items_in};

use crate::counts::attach_of;
use crate::names::{note_name, note_title};
use crate::oddity::Oddity;
use crate::place::Place;
use crate::shapes::version_of;
use crate::vocabulary::Words;
use crate::written::Written;
use serde_json::Value as Json;
use std::alloc::{AllocError, Global};

/// Notes the members that nobody reads in a script, its stages, its limits and the stages that it attaches.
pub(crate) fn note_unread(alloc: Global, json: &Json, written: &mut Written) {
    in_object(alloc, Place::top(), json, Words::ScriptMembers, written);
    note_title(json, written);
    if version_of(json) == 1 && json.get("room").is_some() {
        written.add(Oddity::RoomInVersionOne);
    }
    for (k, stage) in items(json.get("stages")).iter().enumerate() {
        in_stage(alloc, Place::stage(k), stage, written);
    }
    for (k, limit) in items(json.get("limits")).iter().enumerate() {
        in_limit(alloc, Place::limit(k), limit, written);
    }
    for (k, step) in items(json.get("steps")).iter().enumerate() {
        if let Some(stage) = attach_of(step) {
            in_stage(alloc, Place::step(k).item(1), stage, written);
        }
    }
}

/// The items of an array, none of what is no array.
pub(crate) fn items(said: Option<&Json>) -> &[Json]
    ensures { items_view result.now ≡ items_in (option_map (λ v. view v.now) said.entry) }
{
    let Some(json) = said else {
        return &[];
    };
    match json.as_array() {
        Some(list) => list.as_slice(),
        None => &[],
    }
}

/// Notes the members of a stage that nobody reads, and a name that is none.
fn in_stage(alloc: Global, place: Place, stage: &Json, written: &mut Written) {
    in_object(alloc, place, stage, Words::StageMembers, written);
    note_name(place.member("name"), stage.get("name"), written);
}

/// Notes the members of a limit that nobody reads.
fn in_limit(alloc: Global, place: Place, limit: &Json, written: &mut Written) {
    in_object(alloc, place, limit, Words::LimitMembers, written);
    match limit.get("kind").and_then(Json::as_str) {
        Some("timeout") if limit.get("value").is_some() => {
            written.add(Oddity::ValueOfTimeout(place.member("value")));
        }
        Some("value") if limit.get("code").is_some() => {
            written.add(Oddity::CodeOfValue(place.member("code")));
        }
        _ => {}
    }
}

/// Notes the members of an object that have none of these names.
fn in_object(alloc: Global, place: Place, json: &Json, words: Words, written: &mut Written) {
    let Some(members) = json.as_object() else {
        return;
    };
    for name in members.keys() {
        if words.known(name.as_str()).is_none() {
            written.add_made(unread(alloc, place, name.as_str(), words));
        }
    }
}

/// That nobody reads the member of this name, which is none of these.
fn unread(alloc: Global, place: Place, name: &str, words: Words) -> Result<Oddity, AllocError> {
    let nearest = words.nearest(alloc, name)?;
    let name = String::from_str(alloc, name)?;
    Ok(Oddity::Unread {
        place,
        name,
        nearest,
    })
}
