//! The steps by their words. Each is an array of exactly the elements that its word asks for.
ghost use Rattle.std.specs.Prelude.{◌≡◌, ◌<◌, ℕ, IfSome};
ghost use Rattle.serde_json.specs.View.{view};
ghost use Rattle.cf_script_reading.specs.Parts.{stage_at};
ghost use Rattle.cf_script_reading.specs.Steps.{NamesWithin, answer_at, answer_named, answer_of, caller_at, cancel_said, claim_said, complete_said, fail_as_said, fail_said, failure_code, failure_named, finish_said, now_said, nudge_said, outcome_said, tick_said, work_said};

use crate::parts::{caller, len, member, u16_in, u16_of, u32_in, u32_of, value, value_in};
use crate::script::Step;
use cf_forms::Answer;
use cf_model::{Ask, Event, Failure};
use cf_outcome::Value;
use serde_json::Value as Json;

/// The stage in place `i`, if the plan has it.
pub(crate) fn stage_in(stages: u16, json: &Json, i: usize) -> Option<u16>
    ensures said { result ≡ stage_at stages i (view json.now) }
    ensures fits { IfSome result (λ n. n < stages) }
{
    let n = u16_in(json, i)?;
    if n < stages { Some(n) } else { None }
}

/// The caller in place `i`.
fn caller_in(json: &Json, i: usize) -> Option<u8>
    ensures { result ≡ caller_at i (view json.now) }
{
    caller(json.get(i)?)
}

/// The answer with this name.
#[tactic(auto, unfolding(crate::specs::Steps::answer_named))]
fn answer_with(name: &str, json: &Json) -> Option<Answer>
    ensures { result ≡ answer_named name.now (view json.now) }
{
    match name {
        "give" => Some(Answer::Give(value(json)?)),
        "throw" => Some(Answer::Throw(u32_of(json)?)),
        "link" => Some(Answer::Link(u16_of(json)?)),
        _ => None,
    }
}

/// An answer: an object of one member.
fn answer(json: &Json) -> Option<Answer>
    ensures { result ≡ answer_of (view json.now) }
{
    let (name, content) = member(json)?;
    answer_with(name, content)
}

/// The answer in place `i`.
fn answer_in(json: &Json, i: usize) -> Option<Answer>
    ensures { result ≡ answer_at i (view json.now) }
{
    answer(json.get(i)?)
}

/// `["complete",i,v]`
#[tactic(auto, unfolding(crate::specs::Steps::complete_said))]
pub(crate) fn complete(stages: u16, json: &Json) -> Option<Step>
    ensures said { result ≡ complete_said stages (view json.now) }
    ensures fits { IfSome result (NamesWithin stages) }
{
    if len(json) != 3 {
        return None;
    }
    let stage = stage_in(stages, json, 1)?;
    let value = value_in(json, 2)?;
    Some(Step::Does(Event::Complete {
        who: 0,
        stage,
        value,
    }))
}

/// `["fail",i,c]`
#[tactic(auto, unfolding(crate::specs::Steps::fail_said))]
pub(crate) fn fail(stages: u16, json: &Json) -> Option<Step>
    ensures said { result ≡ fail_said stages (view json.now) }
    ensures fits { IfSome result (NamesWithin stages) }
{
    if len(json) != 3 {
        return None;
    }
    let stage = stage_in(stages, json, 1)?;
    let code = u32_in(json, 2)?;
    Some(Step::Does(Event::Fail {
        who: 0,
        stage,
        code,
    }))
}

/// The code of a failAs, which is 0 where no fourth element says one.
#[tactic(auto, unfolding(crate::specs::Steps::failure_code))]
fn failure_code(json: &Json) -> Option<u32>
    ensures { result ≡ failure_code (view json.now) }
{
    let n = len(json);
    if n == 3 {
        return Some(0);
    }
    if n != 4 {
        return None;
    }
    u32_in(json, 3)
}

/// The failure by its code and its cause's name.
#[tactic(auto, unfolding(crate::specs::Steps::failure_named))]
fn failure(code: u32, name: &str) -> Option<Failure>
    ensures { result ≡ failure_named code name.now }
{
    match name {
        "timeout" => Some(Failure::TimedOut(code)),
        "badanswer" => Some(Failure::BadAnswer(code)),
        _ => None,
    }
}

/// `["failAs",i,"timeout"]` or `["failAs",i,"badanswer"]`, where a code may stand behind the cause
#[tactic(auto, unfolding(crate::specs::Steps::fail_as_said))]
pub(crate) fn fail_as(stages: u16, json: &Json) -> Option<Step>
    ensures said { result ≡ fail_as_said stages (view json.now) }
    ensures fits { IfSome result (NamesWithin stages) }
{
    let code = failure_code(json)?;
    let stage = stage_in(stages, json, 1)?;
    let failure = failure(code, json.get(2usize)?.as_str()?)?;
    Some(Step::Does(Event::FailAs {
        who: 0,
        stage,
        failure,
    }))
}

/// `["cancel",i]`
#[tactic(auto, unfolding(crate::specs::Steps::cancel_said))]
pub(crate) fn cancel(stages: u16, json: &Json) -> Option<Step>
    ensures said { result ≡ cancel_said stages (view json.now) }
    ensures fits { IfSome result (NamesWithin stages) }
{
    if len(json) != 2 {
        return None;
    }
    let stage = stage_in(stages, json, 1)?;
    Some(Step::Does(Event::Cancel { who: 0, stage }))
}

/// `["tick",m]`
#[tactic(auto, unfolding(crate::specs::Steps::tick_said))]
pub(crate) fn tick(json: &Json) -> Option<Step>
    ensures said { result ≡ tick_said (view json.now) }
    ensures fits { (stages : ℕ) → IfSome result (NamesWithin stages) }
{
    if len(json) != 2 {
        return None;
    }
    let now = u32_in(json, 1)?;
    Some(Step::Does(Event::Tick {
        who: 0,
        moment: now,
    }))
}

/// `["claim",who,i]`
#[tactic(auto, unfolding(crate::specs::Steps::claim_said))]
pub(crate) fn claim(stages: u16, json: &Json) -> Option<Step>
    ensures said { result ≡ claim_said stages (view json.now) }
    ensures fits { IfSome result (NamesWithin stages) }
{
    if len(json) != 3 {
        return None;
    }
    let who = caller_in(json, 1)?;
    let stage = stage_in(stages, json, 2)?;
    Some(Step::Does(Event::Claim { who, stage }))
}

/// `["finish",who,i,a]`
#[tactic(auto, unfolding(crate::specs::Steps::finish_said))]
pub(crate) fn finish(stages: u16, json: &Json) -> Option<Step>
    ensures said { result ≡ finish_said stages (view json.now) }
    ensures fits { IfSome result (NamesWithin stages) }
{
    if len(json) != 4 {
        return None;
    }
    let who = caller_in(json, 1)?;
    let stage = stage_in(stages, json, 2)?;
    let answer = answer_in(json, 3)?;
    Some(Step::Does(Event::Finish { who, stage, answer }))
}

/// `["now",i]` or `["now",i,v]`
#[tactic(auto, unfolding(crate::specs::Steps::now_said))]
pub(crate) fn now(stages: u16, json: &Json) -> Option<Step>
    ensures said { result ≡ now_said stages (view json.now) }
    ensures fits { IfSome result (NamesWithin stages) }
{
    let n = len(json);
    if n == 2 {
        return Some(Step::Asks(Ask::Now(stage_in(stages, json, 1)?, Value::Nil)));
    }
    if n != 3 {
        return None;
    }
    let stage = stage_in(stages, json, 1)?;
    Some(Step::Asks(Ask::Now(stage, value_in(json, 2)?)))
}

/// `["outcome",i]`
#[tactic(auto, unfolding(crate::specs::Steps::outcome_said))]
pub(crate) fn outcome(stages: u16, json: &Json) -> Option<Step>
    ensures said { result ≡ outcome_said stages (view json.now) }
    ensures fits { IfSome result (NamesWithin stages) }
{
    if len(json) != 2 {
        return None;
    }
    let stage = stage_in(stages, json, 1)?;
    Some(Step::Asks(Ask::Outcome(stage)))
}

/// `["work"]`
#[tactic(auto, unfolding(crate::specs::Steps::work_said))]
pub(crate) fn work(json: &Json) -> Option<Step>
    ensures said { result ≡ work_said (view json.now) }
    ensures fits { (stages : ℕ) → IfSome result (NamesWithin stages) }
{
    if len(json) == 1 {
        Some(Step::Work)
    } else {
        None
    }
}

/// `["nudge",k]`
#[tactic(auto, unfolding(crate::specs::Steps::nudge_said))]
pub(crate) fn nudge(json: &Json) -> Option<Step>
    ensures said { result ≡ nudge_said (view json.now) }
    ensures fits { (stages : ℕ) → IfSome result (NamesWithin stages) }
{
    if len(json) != 2 {
        return None;
    }
    let turns = u32_in(json, 1)?;
    Some(Step::Nudge(turns))
}
