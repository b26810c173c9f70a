//! What there is by the time of a step: stages, and functions.
use crate::shapes::version_of;
use serde_json::Value as Json;

/// What there is before a step, where all steps before it are right.
#[derive(Clone, Copy)]
pub(crate) struct Counts {
    /// The version of the script.
    pub(crate) version: i64,
    /// How many stages there are.
    pub(crate) stages: u32,
    /// How many functions.
    pub(crate) functions: u32,
}

/// What there is before step k.
pub(crate) fn counts_before(json: &Json, k: usize) -> Counts {
    let version = version_of(json);
    let (stages, mut functions) = match json.get("stages").and_then(Json::as_array) {
        Some(list) => (list.len(), with_function(list.as_slice())),
        None => (0, 0),
    };
    let room = json.get("room").and_then(Json::as_i64).unwrap_or(0);
    let mut attached = 0i64;
    if let Some(list) = json.get("steps").and_then(Json::as_array) {
        for step in list.iter().take(k) {
            if let Some(stage) = attach_of(step) {
                attached = attached.saturating_add(1);
                if stage.get("fn").is_some() {
                    functions = functions.saturating_add(1);
                }
            }
        }
    }
    let grown = if version >= 2 { attached.min(room) } else { 0 };
    Counts {
        version,
        stages: u32::try_from(stages)
            .unwrap_or(0)
            .saturating_add(u32::try_from(grown).unwrap_or(0)),
        functions,
    }
}

/// The element at this position of a list that is a member of a script.
pub(crate) fn element_of<'a>(json: &'a Json, member: &str, k: usize) -> Option<&'a Json> {
    json.get(member)?.get(k)
}

/// How many of these stages have a function.
fn with_function(list: &[Json]) -> u32 {
    let mut count = 0u32;
    for stage in list {
        if stage.get("fn").is_some() {
            count = count.saturating_add(1);
        }
    }
    count
}

/// The stage that a step attaches, if it does.
pub(crate) fn attach_of(step: &Json) -> Option<&Json> {
    if step.get(0usize)?.as_str()? == "attach" {
        step.get(1usize)
    } else {
        None
    }
}
