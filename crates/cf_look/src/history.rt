//! A history as JSON.
ghost use Rattle.std.specs.Prelude.{◌≡◌, IfErr, IfOk, false, true};
ghost use Rattle.cf_forms.specs.Plans.{has_place};

use crate::fault::Unreadable;
use crate::input::read_json;
use crate::texts::{is_unknown, now, reply, settled};
use anyhow::Result;
use cf_event::decode;
use cf_history::{
    Entry, History, Record, Session, SharedCaller, SharedHistory, Verdict, check, check_shared,
    fill_in,
};
use cf_model::{Ask, Told};
use cf_outcome::Outcome;
use cf_plan::Plan;
use cf_script_reading::{script_of, u16_of, u32_of, value};
use cf_text::ScriptFault;
use serde_json::Value as Json;
use std::alloc::{AllocError, Global};

/// A history that was read, with the plan that it begins with and for how many stages more there is room. Replies that it
/// doesn't say are the graph's.
#[derive(Drop)]
pub(crate) struct Account {
    pub(crate) plan: Plan,
    pub(crate) room: u16,
    pub(crate) history: History,
}

/// The verdict on a history that is written in JSON.
pub(crate) fn judge(alloc: Global, bytes: &[u8]) -> Result<Verdict> {
    let json = json_of(alloc, bytes)?;
    let (plan, room, shared) = shared_of(alloc, &json)?;
    check_room(&plan, room)?;
    Ok(check_shared(alloc, &plan, room, shared)?)
}

/// The history that a JSON value says.
pub(crate) fn account_of(alloc: Global, json: &Json) -> Result<Account> {
    let (plan, room, shared) = shared_of(alloc, json)?;
    check_room(&plan, room)?;
    let history = fill_in(alloc, &plan, room, shared)?;
    Ok(Account {
        plan,
        room,
        history,
    })
}

/// The verdict on it.
pub(crate) fn verdict_on(alloc: Global, account: &Account) -> Result<Verdict> {
    check_room(&account.plan, account.room)?;
    Ok(check(alloc, &account.plan, account.room, &account.history)?)
}

/// Refuses more room than a plan has place for.
pub(crate) fn check_room(plan: &Plan, room: u16) -> Result<(), Unreadable>
    ensures place { IfOk result (λ _. has_place plan.now.stages room ≡ true) }
    ensures refused { IfErr result (λ why. (why ≡ Unreadable.Room) × (has_place plan.now.stages room ≡ false)) }
{
    if plan.has_place(room) {
        Ok(())
    } else {
        Err(Unreadable::Room)
    }
}

/// The JSON of these bytes.
fn json_of(alloc: Global, bytes: &[u8]) -> Result<Json> {
    match read_json(alloc, bytes)? {
        Ok(json) => Ok(json),
        Err(why) => Err(Unreadable::Json(why).into()),
    }
}

/// What sessions say, with the plan and the room for it.
fn shared_of(alloc: Global, json: &Json) -> Result<(Plan, u16, SharedHistory)> {
    let (plan, room, count) = plan_of(alloc, json)?;
    let shared = sessions_of(alloc, json, count)?;
    Ok((plan, room, shared))
}

/// What sessions say, of a plan that brings so many functions.
fn sessions_of(alloc: Global, json: &Json, count: u32) -> Result<SharedHistory> {
    let functions = match json.get("functions") {
        None => count,
        Some(said) => u32_of(said).ok_or(Unreadable::Member("functions"))?,
    };
    Ok(SharedHistory {
        functions,
        words: words_of(alloc, json)?,
        callers: callers_of(alloc, json)?,
        outcomes: outcomes_of(alloc, json)?,
    })
}

/// The plan, for how many stages it has room, and how many functions it brings.
fn plan_of(alloc: Global, json: &Json) -> Result<(Plan, u16, u32)> {
    let said = json.get("plan").ok_or(Unreadable::Member("plan"))?;
    let script = match script_of(alloc, said) {
        Ok(script) => script,
        Err(fault) => return Err(Unreadable::NoPlan(ScriptFault::from(fault)).into()),
    };
    let (plan, room, functions, steps) = script.into_parts();
    if !steps.is_empty() {
        return Err(Unreadable::Member("plan: steps").into());
    }
    let count = u32::try_from(functions.len()).ok();
    let count = count.ok_or(Unreadable::Member("plan: functions"))?;
    Ok((plan, room, count))
}

fn words_of(alloc: Global, json: &Json) -> Result<Vec<u64>> {
    let list = json.get("events").and_then(Json::as_array);
    let list = list.ok_or(Unreadable::Member("events"))?;
    let mut words = Vec::new(alloc);
    for (k, said) in list.iter().enumerate() {
        words.push(word(said).ok_or(Unreadable::Element("events", k, ""))?)?;
    }
    Ok(words)
}

/// A word of 64 bits: a number, or one in decimal in a string, since not every reader keeps a number above 2^53.
pub(crate) fn word(json: &Json) -> Option<u64> {
    match json.as_str() {
        Some(text) => text.parse().ok(),
        None => json.as_u64(),
    }
}

fn callers_of(alloc: Global, json: &Json) -> Result<Vec<SharedCaller>> {
    let list = json.get("callers").and_then(Json::as_array);
    let list = list.ok_or(Unreadable::Member("callers"))?;
    let mut callers = Vec::new(alloc);
    for (c, said) in list.iter().enumerate() {
        callers.push(caller_of(alloc, c, said)?)?;
    }
    Ok(callers)
}

/// An array of records, or an object with such an array for each session.
fn caller_of(alloc: Global, c: usize, said: &Json) -> Result<SharedCaller> {
    let mut sessions = Vec::new(alloc);
    match said.get("sessions") {
        None => {
            let own = said
                .as_array()
                .ok_or(Unreadable::Element("callers", c, ""))?;
            sessions.push(session_of(alloc, c, None, own.as_slice())?)?;
        }
        Some(said) => {
            let list = said
                .as_array()
                .ok_or(Unreadable::Element("callers", c, ".sessions"))?;
            add_sessions(alloc, c, list.as_slice(), &mut sessions)?;
        }
    }
    Ok(SharedCaller { sessions })
}

fn add_sessions(alloc: Global, c: usize, list: &[Json], sessions: &mut Vec<Session>) -> Result<()> {
    for (n, said) in list.iter().enumerate() {
        let own = said.as_array().ok_or(Unreadable::Session(c, n))?;
        sessions.push(session_of(alloc, c, Some(n), own.as_slice())?)?;
    }
    Ok(())
}

/// The session of these records of caller `c`: its only one, or session `n`.
fn session_of(alloc: Global, c: usize, n: Option<usize>, list: &[Json]) -> Result<Session> {
    let mut entries = Vec::new(alloc);
    for (k, said) in list.iter().enumerate() {
        let told = entry(alloc, said)?;
        entries.push(told.ok_or(no_record(c, n, k))?)?;
    }
    Ok(Session { entries })
}

/// Record `k` is none.
fn no_record(c: usize, n: Option<usize>, k: usize) -> Unreadable {
    match n {
        None => Unreadable::Record(c, k),
        Some(n) => Unreadable::SessionRecord(c, n, k),
    }
}

/// `["did",place,word,reply]`, where the reply may be `unknown`, `["now",place,stage,absent,told]` or
/// `["outcome",place,stage,told]`.
fn entry(alloc: Global, json: &Json) -> Result<Option<Entry>, AllocError> {
    let Some(list) = json.as_array() else {
        return Ok(None);
    };
    let Some(text) = list.as_slice().last().and_then(Json::as_str) else {
        return Ok(None);
    };
    let words: Vec<&str> = text.split_whitespace().collect(alloc)?;
    Ok(entry_with(json, list.len(), words.as_slice()))
}

/// The entry with so many elements, of which the last has these words.
fn entry_with(json: &Json, count: usize, words: &[&str]) -> Option<Entry> {
    let kind = json.get(0usize)?.as_str()?;
    let place = usize::try_from(json.get(1usize)?.as_u64()?).ok()?;
    match kind {
        "did" if count == 4 => did(place, json.get(2usize)?, words),
        "now" if count == 5 => saw_now(place, json, words),
        "outcome" if count == 4 => saw_outcome(place, json.get(2usize)?, words),
        _ => None,
    }
}

/// An event's entry with the reply of these words.
fn did(place: usize, said: &Json, words: &[&str]) -> Option<Entry> {
    let event = decode(word(said)?)?;
    if is_unknown(words) {
        return Some(Entry::Unanswered { place, event });
    }
    Some(Entry::Known(Record::Did {
        place,
        event,
        reply: reply(words)?,
    }))
}

/// The entry of a look at a stage's present state, for which these words are told.
fn saw_now(place: usize, json: &Json, words: &[&str]) -> Option<Entry> {
    let stage = u16_of(json.get(2usize)?)?;
    let absent = value(json.get(3usize)?)?;
    let told = Told::Now(now(words)?);
    let ask = Ask::Now(stage, absent);
    Some(Entry::Known(Record::Saw { place, ask, told }))
}

/// The entry of a look at a stage's outcome, for which these words are told.
fn saw_outcome(place: usize, stage: &Json, words: &[&str]) -> Option<Entry> {
    let ask = Ask::Outcome(u16_of(stage)?);
    let told = Told::Outcome(settled(words)?);
    Some(Entry::Known(Record::Saw { place, ask, told }))
}

fn outcomes_of(alloc: Global, json: &Json) -> Result<Option<Vec<Option<Outcome>>>> {
    let Some(said) = json.get("outcomes") else {
        return Ok(None);
    };
    let list = said.as_array().ok_or(Unreadable::Member("outcomes"))?;
    let mut outcomes = Vec::new(alloc);
    for (i, said) in list.iter().enumerate() {
        let told = told_of(alloc, said)?;
        outcomes.push(told.ok_or(Unreadable::Element("outcomes", i, ""))?)?;
    }
    Ok(Some(outcomes))
}

/// What a text says that a stage's outcome is, if it says one.
fn told_of(alloc: Global, said: &Json) -> Result<Option<Option<Outcome>>, AllocError> {
    let Some(text) = said.as_str() else {
        return Ok(None);
    };
    let words: Vec<&str> = text.split_whitespace().collect(alloc)?;
    Ok(settled(words.as_slice()))
}
