//! A question as a script: its callers' steps, one list behind another.
use crate::fault::{QuestionFault, Spot};
use cf_script_reading::MAX_STEPS;
use serde_json::Value as Json;
use std::alloc::{AllocError, Global};

/// The text of a question, as far as a script has it.
#[derive(Drop)]
pub(crate) struct QuestionText {
    /// The members of the script but its steps, without the braces.
    pub(crate) head: String,
    /// The steps of each caller.
    pub(crate) callers: Vec<Vec<StepText>>,
}

/// A step of a caller.
#[derive(Drop)]
pub(crate) struct StepText {
    /// The step as a script has it.
    pub(crate) text: String,
    /// How often it looks at most, where it is a join.
    pub(crate) most: Option<u16>,
}

impl QuestionText {
    /// The script with all these steps.
    pub(crate) fn script(&self, alloc: Global) -> Result<String, AllocError> {
        let mut text = format!(in alloc; "{{{},\"steps\":[", self.head)?;
        let mut comma = "";
        for own in self.callers.iter() {
            for step in own.iter() {
                write!(text, "{comma}{}", step.text)?;
                comma = ",";
            }
        }
        text.push_str("]}")?;
        Ok(text)
    }

    /// Which step of which caller is the k-th of all.
    pub(crate) fn spot(&self, k: u32) -> Spot {
        let mut left = k as usize;
        for (c, own) in self.callers.iter().enumerate() {
            if left < own.len() {
                return Spot::Step(c, left);
            }
            left -= own.len();
        }
        Spot::Callers
    }
}

/// The question's text, as far as a script has it.
pub(crate) fn joined_of(alloc: Global, json: &Json) -> Result<QuestionText, QuestionFault> {
    let head = head_of(alloc, json)?;
    let Some(list) = json.get("callers").and_then(Json::as_array) else {
        return Err(QuestionFault::At(Spot::Callers));
    };
    let mut callers = Vec::new(alloc);
    for (c, said) in list.iter().enumerate() {
        callers.push(caller_of(alloc, c, said)?)?;
    }
    Ok(QuestionText { head, callers })
}

/// A caller's steps.
fn caller_of(alloc: Global, c: usize, said: &Json) -> Result<Vec<StepText>, QuestionFault> {
    let mut own = Vec::new(alloc);
    match said.as_array() {
        Some(list) if list.len() <= MAX_STEPS => add_steps(alloc, &mut own, c, list)?,
        _ => return Err(QuestionFault::At(Spot::Caller(c))),
    }
    Ok(own)
}

/// Adds the steps of a caller.
fn add_steps(
    alloc: Global,
    own: &mut Vec<StepText>,
    c: usize,
    list: &[Json],
) -> Result<(), QuestionFault> {
    for (k, said) in list.iter().enumerate() {
        let Some(step) = step_of(said) else {
            return Err(QuestionFault::At(Spot::Step(c, k)));
        };
        own.push(StepText {
            text: text_of(alloc, c, step, said)?,
            most: most_in(step),
        })?;
    }
    Ok(())
}

/// How a step of a caller stands in a script.
#[derive(Clone, Copy)]
enum Stands<'a> {
    /// As it is.
    Same,
    /// A claim of this stage, with the caller's number behind its word.
    Claim(&'a Json),
    /// A finish of this stage with this answer, with the caller's number behind its word.
    Finish(&'a Json, &'a Json),
    /// As a question for this stage's outcome, asked so often at most.
    Join(&'a Json, u16),
}

/// How a step stands in a script, if it is one that callers have. What is wrong within it the reading of scripts finds.
fn step_of(said: &Json) -> Option<Stands<'_>> {
    let (word, rest) = said.as_array()?.split_first()?;
    form_of(word.as_str()?, rest)
}

/// How a step of this word stands in a script, where this follows the word. A question's step is a script's
/// without its caller. There is `join` besides, and there is neither `work` nor `nudge`.
fn form_of<'a>(word: &str, rest: &'a [Json]) -> Option<Stands<'a>> {
    match (word, rest) {
        ("claim", [stage]) => Some(Stands::Claim(stage)),
        ("finish", [stage, answer]) => Some(Stands::Finish(stage, answer)),
        ("join", [stage, most]) => join_of(stage, most),
        ("complete" | "fail" | "failAs" | "cancel" | "tick", _) => Some(Stands::Same),
        ("now" | "outcome" | "attach", _) => Some(Stands::Same),
        _ => None,
    }
}

/// How often a step looks at most, where it is a join.
fn most_in(step: Stands<'_>) -> Option<u16> {
    match step {
        Stands::Join(_, most) => Some(most),
        _ => None,
    }
}

/// A join, which looks 1 to 65,535 times at most.
fn join_of<'a>(stage: &'a Json, most: &Json) -> Option<Stands<'a>> {
    match u16::try_from(most.as_i64()?) {
        Ok(most) if most > 0 => Some(Stands::Join(stage, most)),
        _ => None,
    }
}

/// The text of a step in a script.
fn text_of(alloc: Global, c: usize, step: Stands<'_>, said: &Json) -> Result<String, AllocError> {
    match step {
        Stands::Same => format!(in alloc; "{said}"),
        Stands::Claim(stage) => format!(in alloc; "[\"claim\",{c},{stage}]"),
        Stands::Finish(stage, answer) => { format!(in alloc; "[\"finish\",{c},{stage},{answer}]") }
        Stands::Join(stage, _) => format!(in alloc; "[\"outcome\",{stage}]"),
    }
}

/// The members of the script but its steps.
fn head_of(alloc: Global, json: &Json) -> Result<String, QuestionFault> {
    let mut head = String::new(alloc);
    match json.get("cf") {
        Some(version) => write!(head, "\"cf\":{version}"),
        None => head.push_str("\"cf\":null"),
    }?;
    for name in ["room", "limits"] {
        write_member(&mut head, json, name)?;
    }
    if let Some(stages) = json.get("stages") {
        write_stages(&mut head, stages)?;
    }
    Ok(head)
}

/// A member behind others, if it is there.
fn write_member(text: &mut String, json: &Json, name: &str) -> Result<(), AllocError> {
    match json.get(name) {
        None => Ok(()),
        Some(said) => write!(text, ",\"{name}\":{said}"),
    }
}

/// The stages, each with its function in its own text.
fn write_stages(head: &mut String, said: &Json) -> Result<(), QuestionFault> {
    let Some(stages) = said.as_array() else {
        write!(head, ",\"stages\":{said}")?;
        return Ok(());
    };
    head.push_str(",\"stages\":[")?;
    for (i, stage) in stages.iter().enumerate() {
        if i > 0 {
            head.push(',')?;
        }
        write_stage(head, stages.as_slice(), i, stage)?;
    }
    head.push(']')?;
    Ok(())
}

/// A stage. Where it shares its function with an earlier one, it has that one's.
fn write_stage(
    head: &mut String,
    stages: &[Json],
    i: usize,
    stage: &Json,
) -> Result<(), QuestionFault> {
    let Some(shared) = same_of(stage) else {
        return Ok(write!(head, "{stage}")?);
    };
    match source_of(stages, i, shared) {
        Some(function) => Ok(write_with(head, stage, function)?),
        None => Err(QuestionFault::At(Spot::Same(i))),
    }
}

/// The function of the earlier stage that stage i names, unless that shares one, too.
fn source_of<'a>(stages: &'a [Json], i: usize, shared: &Json) -> Option<&'a Json> {
    let k = shared.as_u64()? as usize;
    if k >= i {
        return None;
    }
    let function = stages.get(k)?.get("fn")?;
    match function.get("same") {
        Some(_) => None,
        None => Some(function),
    }
}

/// A stage with this function.
fn write_with(head: &mut String, stage: &Json, function: &Json) -> Result<(), AllocError> {
    write!(head, "{{\"fn\":{function}")?;
    for name in ["form", "of", "name"] {
        write_member(head, stage, name)?;
    }
    head.push('}')
}

/// With which stage each stage shares its function, where it does.
pub(crate) fn shared_of(alloc: Global, json: &Json) -> Result<Vec<Option<u64>>, AllocError> {
    let mut shared = Vec::new(alloc);
    if let Some(stages) = json.get("stages").and_then(Json::as_array) {
        for stage in stages.iter() {
            shared.push(same_of(stage).and_then(Json::as_u64))?;
        }
    }
    Ok(shared)
}

/// What a stage says that its function is the same as.
fn same_of(stage: &Json) -> Option<&Json> {
    stage.get("fn")?.get("same")
}
