//! The steps, by their words, and what is wrong with one.
ghost use Rattle.cf_explain.specs.Places.{IsIn};

use crate::counts::{Counts, counts_before, element_of};
use crate::fitting::{lone_wrong, taken, word_wrong};
use crate::functions::function_wrong;
use crate::place::Place;
use crate::reason::Reason;
use crate::refusing::{Finding, wrong_at};
use crate::stages::{misfit, source_count, stage_wrong};
use crate::vocabulary::Words;
use crate::wanted::Wanted;
use cf_script_reading::{Element, MAX_STEPS, elements_of};
use serde_json::Value as Json;

/// A step: its word, the version that it came with, how many elements have to stand behind it, and how it is written. What each of
/// these elements is, `elements_of` says.
pub(crate) struct StepShape {
    pub(crate) word: &'static str,
    since: i64,
    least: usize,
    written: &'static str,
}

/// All steps.
pub(crate) const STEPS: [StepShape; 12] = [
    StepShape {
        word: "complete",
        since: 1,
        least: 2,
        written: "[\"complete\",stage,value]",
    },
    StepShape {
        word: "fail",
        since: 1,
        least: 2,
        written: "[\"fail\",stage,code]",
    },
    StepShape {
        word: "cancel",
        since: 1,
        least: 1,
        written: "[\"cancel\",stage]",
    },
    StepShape {
        word: "tick",
        since: 1,
        least: 1,
        written: "[\"tick\",moment]",
    },
    StepShape {
        word: "work",
        since: 1,
        least: 0,
        written: "[\"work\"]",
    },
    StepShape {
        word: "now",
        since: 1,
        least: 1,
        written: "[\"now\",stage] or [\"now\",stage,value]",
    },
    StepShape {
        word: "outcome",
        since: 1,
        least: 1,
        written: "[\"outcome\",stage]",
    },
    StepShape {
        word: "claim",
        since: 1,
        least: 2,
        written: "[\"claim\",caller,stage]",
    },
    StepShape {
        word: "finish",
        since: 1,
        least: 3,
        written: "[\"finish\",caller,stage,answer]",
    },
    StepShape {
        word: "nudge",
        since: 1,
        least: 1,
        written: "[\"nudge\",turns]",
    },
    StepShape {
        word: "attach",
        since: 2,
        least: 1,
        written: "[\"attach\",{\"form\":..}]",
    },
    StepShape {
        word: "failAs",
        since: 3,
        least: 2,
        written: "[\"failAs\",stage,cause] or [\"failAs\",stage,cause,code]",
    },
];

/// What is wrong with step k, which is at this place.
pub(crate) fn step_wrong(place: Place, k: usize, json: &Json) -> Option<Finding<'_>>
    ensures { IsIn place.area result }
{
    if k >= MAX_STEPS {
        return wrong_at(place, Reason::TooMany(MAX_STEPS as u32, "steps"));
    }
    let Some(step) = element_of(json, "steps", k) else {
        return None;
    };
    if let Some(found) = taken(place, step, Wanted::Array) {
        return Some(found);
    }
    let word = step.get(0usize);
    if let Some(found) = word_wrong(place.item(0), word, Words::Steps) {
        return Some(found);
    }
    let counts = counts_before(json, k);
    match word.and_then(Json::as_str) {
        Some(word) => written_wrong(place, word, step, counts),
        None => None,
    }
}

/// What is wrong with what stands behind the word of a step.
fn written_wrong<'a>(
    place: Place,
    word: &str,
    step: &'a Json,
    counts: Counts,
) -> Option<Finding<'a>>
    ensures { IsIn place.area result }
{
    for shape in &STEPS {
        if shape.word == word {
            if counts.version < shape.since {
                return wrong_at(place.item(0), Reason::NotBefore(shape.since));
            }
            return elements_wrong(place, shape, step, counts);
        }
    }
    None
}

/// What is wrong with the elements of a step, which are to have this shape.
fn elements_wrong<'a>(
    place: Place,
    shape: &StepShape,
    step: &'a Json,
    counts: Counts,
) -> Option<Finding<'a>>
    ensures { IsIn place.area result }
{
    let Some(list) = step.as_array() else {
        return None;
    };
    let elements = elements_of(shape.word);
    let behind = list.len().saturating_sub(1);
    if behind < shape.least || behind > elements.len() {
        return wrong_at(place, Reason::Written(shape.written));
    }
    for (i, (element, json)) in elements.iter().zip(list.iter().skip(1)).enumerate() {
        let place = place.item(i.saturating_add(1));
        if let Some(found) = element_wrong(place, *element, json, counts) {
            return Some(found);
        }
    }
    None
}

/// What is wrong with one element of a step.
fn element_wrong(place: Place, element: Element, json: &Json, counts: Counts) -> Option<Finding<'_>>
    ensures { IsIn place.area result }
{
    match element {
        Element::Stage => taken(place, json, Wanted::Stage(counts.stages)),
        Element::Value => taken(place, json, Wanted::Value),
        Element::Number => taken(place, json, Wanted::UpTo(u32::MAX)),
        Element::Caller => taken(place, json, Wanted::UpTo(63)),
        Element::Answer => lone_wrong(place, json, Words::Answers),
        Element::Failure => word_wrong(place, Some(json), Words::Failures),
        Element::NewStage => attached_wrong(place, json, counts),
    }
}

/// What is wrong with a stage that is attached.
fn attached_wrong(place: Place, json: &Json, counts: Counts) -> Option<Finding<'_>>
    ensures { IsIn place.area result }
{
    let source = Wanted::Stage(counts.stages);
    if let Some(found) = stage_wrong(place, json, counts.version, source) {
        return Some(found);
    }
    let function = json.get("fn");
    if let Some(found) = function_wrong(place.member("fn"), function) {
        return Some(found);
    }
    if let Some(found) = misfit(place, json) {
        return Some(found);
    }
    if source_count(json) > 2 {
        return wrong_at(place.member("of"), Reason::TooManySources);
    }
    if function.is_some() && counts.functions > 4_095 {
        return wrong_at(place.member("fn"), Reason::TooMany(4_096, "functions"));
    }
    None
}
