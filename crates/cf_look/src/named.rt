//! The names of the stages that lines on a script are of.
use crate::input::json_in;
use crate::people::people_in;
use anyhow::Result;
use cf_explain::{Area, Place};
use cf_script_reading::{Part, stage_place};
use cf_text::is_shown;
use serde_json::Value as Json;
use std::alloc::{AllocError, Global};

/// A script that is to be named in lines, and the names of its stages.
#[derive(Drop)]
pub(crate) struct Named {
    json: Json,
    names: Vec<String>,
}

impl Named {
    /// Of these bytes. There are no names of what is no JSON, and where one is none or memory for them was refused.
    pub(crate) fn of(alloc: Global, bytes: &[u8]) -> Result<Named> {
        let json = json_in(alloc, bytes)?.unwrap_or(Json::Null);
        let names = match people_in(alloc, &json) {
            Ok(people) => people.names,
            Err(_) => Vec::new(alloc),
        };
        Ok(Named { json, names })
    }

    /// A line that begins with this place, with the name of the stage that the place is of behind it, if that has one.
    pub(crate) fn line(
        &self,
        alloc: Global,
        place: Option<Place>,
        said: &str,
    ) -> Result<String, AllocError> {
        let mut line = String::new(alloc);
        let mut rest = said;
        if let Some(place) = place {
            let name = self.name_at(place.area).unwrap_or("");
            write!(line, "{place}")?;
            match said.strip_prefix(line.as_str()) {
                Some(behind) if !name.is_empty() => {
                    rest = behind;
                    write_quoted(&mut line, name)?;
                }
                _ => line.clear(),
            }
        }
        line.push_str(rest)?;
        Ok(line)
    }

    /// The name of the stage that a part of the script is of, if it is of one that a name is listed for.
    fn name_at(&self, area: Area) -> Option<&str> {
        Some(self.names.get(self.stage_of(area)?)?.as_str())
    }

    /// The stage that a part of the script is of.
    fn stage_of(&self, area: Area) -> Option<usize> {
        match area {
            Area::Part(Part::Stage(k)) => Some(k as usize),
            Area::Part(Part::Limit(k)) => {
                number(self.json.get("limits")?.get(k as usize)?.get("stage"))
            }
            Area::Part(_) => None,
            Area::Step(k) => self.stage_of_step(k as usize),
        }
    }

    /// The stage that a step names or attaches.
    fn stage_of_step(&self, k: usize) -> Option<usize> {
        let steps = self.json.get("steps")?;
        let step = steps.get(k)?;
        match stage_place(step.get(0usize)?.as_str()?) {
            Some(place) => number(step.get(place)),
            None if is_attach(step) => self.stages_before(k),
            None => None,
        }
    }

    /// How many stages there are before a step, if all steps before it do what they say.
    fn stages_before(&self, k: usize) -> Option<usize> {
        let mut stages = self.json.get("stages")?.as_array()?.len();
        for step in self.json.get("steps")?.as_array()?.iter().take(k) {
            if is_attach(step) {
                stages = stages.saturating_add(1);
            }
        }
        Some(stages)
    }
}

fn is_attach(step: &Json) -> bool {
    step.get(0usize).and_then(Json::as_str) == Some("attach")
}

fn number(said: Option<&Json>) -> Option<usize> {
    usize::try_from(said?.as_u64()?).ok()
}

/// Adds a name in quotes, behind a blank: a quote and a backslash in it behind a backslash, what has no sign or turns the
/// direction of a text by its number.
fn write_quoted(line: &mut String, name: &str) -> Result<(), AllocError> {
    write!(line, " \"")?;
    for c in name.chars() {
        let number = u32::from(c);
        if c == '"' || c == '\\' {
            write!(line, "\\{c}")?;
        } else if is_shown(number) {
            line.push(c)?;
        } else {
            write!(line, "\\u{{{number:x}}}")?;
        }
    }
    write!(line, "\"")
}
