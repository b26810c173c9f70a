//! Names of stages, which are for people alone: no run reads them.
use crate::oddity::Oddity;
use crate::place::Place;
use crate::unread::items;
use crate::written::Written;
use serde_json::Value as Json;

/// A stage's name has at most so many characters.
const LONGEST: usize = 64;

/// The name of a stage that this says, if it is one.
pub fn stage_name(said: &Json) -> Option<&str> {
    let text = said.as_str()?;
    if text.chars().count() > LONGEST {
        return None;
    }
    Some(text)
}

/// Notes what is said in the place of the script's name and of the list of names, and is none.
pub(crate) fn note_title(json: &Json, written: &mut Written) {
    let title = json.get("name");
    if title.is_some() && title.and_then(Json::as_str).is_none() {
        written.add(Oddity::NoTitle(Place::top().member("name")));
    }
    let names = json.get("names");
    if names.is_some() && names.and_then(Json::as_array).is_none() {
        written.add(Oddity::NoList(Place::top().member("names")));
    }
    for (k, said) in items(names).iter().enumerate() {
        note_name(Place::top().member("names").item(k), Some(said), written);
    }
}

/// Notes what is said in the place of a stage's name, and is none.
pub(crate) fn note_name(place: Place, said: Option<&Json>, written: &mut Written) {
    if said.is_some() && said.and_then(stage_name).is_none() {
        written.add(Oddity::NoName(place));
    }
}
