//! Whether a value is what is wanted in its place.
ghost use Rattle.cf_explain.specs.Places.{IsIn};

use crate::place::Place;
use crate::reason::Reason;
use crate::refusing::{Finding, Wrong, wrong_at};
use crate::vocabulary::Words;
use crate::wanted::Wanted;
use serde_json::Value as Json;

/// What is wrong with a value that has to be there.
pub(crate) fn needed(place: Place, said: Option<&Json>, wanted: Wanted) -> Option<Finding<'_>>
    ensures { IsIn place.area result }
{
    match said {
        None => wrong_at(place, Reason::Missing(wanted)),
        Some(json) => taken(place, json, wanted),
    }
}

/// What is wrong with a value that may be missing.
pub(crate) fn optional(place: Place, said: Option<&Json>, wanted: Wanted) -> Option<Finding<'_>>
    ensures { IsIn place.area result }
{
    taken(place, said?, wanted)
}

/// What is wrong with a value.
pub(crate) fn taken(place: Place, json: &Json, wanted: Wanted) -> Option<Finding<'_>>
    ensures { IsIn place.area result }
{
    if wanted.takes(json) {
        None
    } else {
        wrong_at(place, Reason::Wants(wanted))
    }
}

/// What is wrong with a word.
pub(crate) fn word_wrong(place: Place, said: Option<&Json>, words: Words) -> Option<Finding<'_>>
    ensures { IsIn place.area result }
{
    if let Some(found) = needed(place, said, Wanted::One(words)) {
        return Some(found);
    }
    match said.and_then(Json::as_str) {
        None => None,
        Some(word) => unknown(place, word, words),
    }
}

/// What is wrong with a word that may be none of these.
pub(crate) fn unknown(place: Place, word: &str, words: Words) -> Option<Finding<'_>>
    ensures { IsIn place.area result }
{
    if words.known(word).is_some() {
        return None;
    }
    Some(Finding {
        place,
        why: Wrong::Unknown(word, words),
    })
}

/// What is wrong with an object that is to have exactly one of these members.
pub(crate) fn lone_wrong(place: Place, json: &Json, words: Words) -> Option<Finding<'_>>
    ensures { IsIn place.area result }
{
    let Some(members) = json.as_object() else {
        return wrong_at(place, Reason::Wants(Wanted::Lone(words)));
    };
    match members.first_key_value() {
        Some((name, content)) if members.len() == 1 => match words.held(name.as_str()) {
            Some((name, wanted)) => taken(place.member(name), content, wanted),
            None => unknown(place, name.as_str(), words),
        },
        _ => wrong_at(place, Reason::Members(members.len(), words)),
    }
}
