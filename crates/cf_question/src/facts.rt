//! What must hold.
use crate::fault::{QuestionFault, Spot};
use cf_explore::{Condition, Fact, How, Is, When};
use cf_outcome::{Cause, Value};
use cf_plan::Plan;
use cf_script_reading::u16_of;
use serde_json::Value as Json;
use std::alloc::{AllocError, Global};

/// What a fact may name.
#[derive(Drop)]
pub(crate) struct Scope<'a> {
    pub(crate) plan: &'a Plan,
    /// How many stages there may ever be.
    pub(crate) stages: usize,
    /// How many steps each caller has.
    pub(crate) steps: &'a [usize],
}

/// What must hold, with the text of each.
#[derive(Drop)]
pub(crate) struct Conditions {
    pub(crate) conditions: Vec<Condition>,
    pub(crate) texts: Vec<String>,
}

/// How often a condition may hold, with the member that has the conditions of its kind.
const KINDS: [(How, &str); 3] = [
    (How::Never, "never"),
    (How::Always, "always"),
    (How::Possible, "possible"),
];

/// The conditions of a question, in order.
pub(crate) fn read_asked(
    alloc: Global,
    json: &Json,
    scope: &Scope<'_>,
) -> Result<Conditions, QuestionFault> {
    let mut asked = Conditions {
        conditions: Vec::new(alloc),
        texts: Vec::new(alloc),
    };
    for how in &KINDS {
        read_all(alloc, json, scope, *how, &mut asked)?;
    }
    Ok(asked)
}

/// The conditions of one kind.
fn read_all(
    alloc: Global,
    json: &Json,
    scope: &Scope<'_>,
    how: (How, &'static str),
    asked: &mut Conditions,
) -> Result<(), QuestionFault> {
    let Some(said) = json.get(how.1) else {
        return Ok(());
    };
    let Some(list) = said.as_array() else {
        return Err(QuestionFault::At(Spot::Conditions(how.1)));
    };
    for (k, said) in list.iter().enumerate() {
        let condition = read_one(alloc, said, scope, how, k)?;
        asked.conditions.push(condition)?;
        asked.texts.push(text_of(alloc, how.1, said)?)?;
    }
    Ok(())
}

fn text_of(alloc: Global, how: &str, said: &Json) -> Result<String, AllocError> {
    format!(in alloc; "{how} {said}")
}

/// One condition.
fn read_one(
    alloc: Global,
    said: &Json,
    scope: &Scope<'_>,
    how: (How, &'static str),
    k: usize,
) -> Result<Condition, QuestionFault> {
    let Some(list) = said.as_array() else {
        return Err(QuestionFault::At(Spot::Condition(how.1, k)));
    };
    let mut when = When::End;
    let mut facts = Vec::new(alloc);
    for (n, said) in list.iter().enumerate() {
        match part_of(scope, said) {
            Some(ConditionPart::Time(time)) if n == 0 => when = time,
            Some(ConditionPart::Fact(fact)) => facts.push(fact)?,
            _ => return Err(QuestionFault::At(Spot::Fact(how.1, k, n))),
        }
    }
    Ok(Condition {
        how: how.0,
        when,
        facts,
    })
}

/// A part of a condition.
#[derive(Clone, Copy)]
enum ConditionPart {
    Time(When),
    Fact(Fact),
}

/// `["at",c,k]`, `["stage",i,what]`, `["called",i]`, `["notcalled",i]`, `["calls",i,n]` or `["callsatleast",i,n]`.
fn part_of(scope: &Scope<'_>, said: &Json) -> Option<ConditionPart> {
    match said.as_array()?.as_slice() {
        [word, first] => short_part(scope, word, first),
        [word, first, last] => long_part(scope, word, first, last),
        _ => None,
    }
}

/// The part of a word and a stage.
fn short_part(scope: &Scope<'_>, word: &Json, first: &Json) -> Option<ConditionPart> {
    let i = stage(scope, first.as_i64()?)?;
    match word.as_str()? {
        "called" => Some(ConditionPart::Fact(Fact::Called(i))),
        "notcalled" => Some(ConditionPart::Fact(Fact::NotCalled(i))),
        _ => None,
    }
}

/// The part of a word, a number and what stands behind it.
fn long_part(scope: &Scope<'_>, word: &Json, first: &Json, last: &Json) -> Option<ConditionPart> {
    let first = first.as_i64()?;
    match word.as_str()? {
        "at" => time_of(scope, first, last),
        "stage" => is_of(scope, first, last),
        "calls" => calls(true, scope, first, last),
        "callsatleast" => calls(false, scope, first, last),
        _ => None,
    }
}

/// What a stage is to be.
fn is_of(scope: &Scope<'_>, i: i64, said: &Json) -> Option<ConditionPart> {
    let what = what_of(said.as_str()?)?;
    let fact = Fact::Stage(stage(scope, i)?, what);
    Some(ConditionPart::Fact(fact))
}

/// How often a stage's function is to be called.
fn calls(exactly: bool, scope: &Scope<'_>, i: i64, said: &Json) -> Option<ConditionPart> {
    let number = function(scope, i)?;
    let times = u16_of(said)?;
    let fact = if exactly {
        Fact::Exactly(number, times)
    } else {
        Fact::AtLeast(number, times)
    };
    Some(ConditionPart::Fact(fact))
}

/// When this step of this caller is its next one.
fn time_of(scope: &Scope<'_>, c: i64, said: &Json) -> Option<ConditionPart> {
    let c = u8::try_from(c).ok()?;
    let k = u16_of(said)?;
    if usize::from(k) < *scope.steps.get(usize::from(c))? {
        Some(ConditionPart::Time(When::Before(c, k)))
    } else {
        None
    }
}

/// A stage that may be there.
fn stage(scope: &Scope<'_>, i: i64) -> Option<u16> {
    let i = u16::try_from(i).ok()?;
    if usize::from(i) < scope.stages {
        Some(i)
    } else {
        None
    }
}

/// The number of the function of a stage of the plan.
fn function(scope: &Scope<'_>, i: i64) -> Option<u16> {
    let i = u16::try_from(i).ok()?;
    if i < scope.plan.stages() {
        scope.plan.function(i)
    } else {
        None
    }
}

/// What a stage is to be, by its text.
fn what_of(text: &str) -> Option<Is> {
    match text {
        "pending" => Some(Is::Pending),
        "settled" => Some(Is::Settled),
        "value" => Some(Is::AnyValue),
        "fault" => Some(Is::AnyFault),
        "cancelled" => Some(Is::Cancelled),
        _ => named(text),
    }
}

fn named(text: &str) -> Option<Is> {
    match text {
        "value nil" => Some(Is::Value(Value::Nil)),
        "fault cancelled" => Some(Is::Fault(Cause::Cancelled)),
        "timeout" => Some(Is::Fault(Cause::TimedOut(0))),
        "badanswer" => Some(Is::Fault(Cause::BadAnswer(0))),
        _ => numbered(text),
    }
}

fn numbered(text: &str) -> Option<Is> {
    if let Some(digits) = text.strip_prefix("value ") {
        return Some(Is::Value(Value::Int(digits.parse().ok()?)));
    }
    Some(Is::Fault(coded(text)?))
}

/// The cause with its code.
fn coded(text: &str) -> Option<Cause> {
    if let Some(digits) = text.strip_prefix("timeout ") {
        return Some(Cause::TimedOut(digits.parse().ok()?));
    }
    if let Some(digits) = text.strip_prefix("badanswer ") {
        return Some(Cause::BadAnswer(digits.parse().ok()?));
    }
    let digits = text.strip_prefix("thrown ")?;
    Some(Cause::Thrown(digits.parse().ok()?))
}
