//! What is wrong with a function.
ghost use Rattle.cf_explain.specs.Places.{IsIn};

use crate::fitting::{lone_wrong, unknown};
use crate::place::Place;
use crate::reason::Reason;
use crate::refusing::{Finding, wrong_at};
use crate::vocabulary::Words;
use crate::wanted::Wanted;
use serde_json::Value as Json;

/// What is wrong with a function, if one is there.
pub(crate) fn function_wrong(place: Place, said: Option<&Json>) -> Option<Finding<'_>>
    ensures { IsIn place.area result }
{
    let Some(json) = said else {
        return None;
    };
    match json.as_str() {
        Some(word) if Words::Functions.known(word).is_some() => {
            wrong_at(place, Reason::Wants(Wanted::Lone(Words::Functions)))
        }
        Some(word) => unknown(place, word, Words::PlainFunctions),
        None if json.is_object() => lone_wrong(place, json, Words::Functions),
        None => wrong_at(place, Reason::Wants(Wanted::Function)),
    }
}
