//! What an account or a script says for people alone.
use crate::fault::Unreadable;
use crate::history::{Account, word};
use anyhow::Result;
use cf_explain::stage_name;
use cf_history::{Caller, Record};
use cf_model::Reply;
use cf_script_reading::u16_of;
use cf_telling::People;
use serde_json::Value as Json;
use std::alloc::{AllocError, Global};

/// Takes what an account says for people.
pub(crate) fn fill_people(
    alloc: Global,
    json: &Json,
    account: &Account,
    people: &mut People,
) -> Result<()> {
    add_title(&mut people.name, json, "a history")?;
    add_names(alloc, &mut people.names, json.pointer("/plan/stages"))?;
    put_listed(alloc, &mut people.names, json.get("names"))?;
    fill_lists(alloc, json, people)?;
    Ok(add_replies(&mut people.replies, account)?)
}

/// What a script says for people: names of its stages, in them or in a list.
pub(crate) fn people_in(alloc: Global, json: &Json) -> Result<People> {
    let mut people = People::new(alloc);
    fill_named(alloc, json, &mut people)?;
    Ok(people)
}

fn fill_named(alloc: Global, json: &Json, people: &mut People) -> Result<()> {
    add_title(&mut people.name, json, "a script")?;
    add_names(alloc, &mut people.names, json.get("stages"))?;
    add_attached(alloc, &mut people.names, json)?;
    put_listed(alloc, &mut people.names, json.get("names"))
}

/// Takes the lists of an account that aren't of stages.
fn fill_lists(alloc: Global, json: &Json, people: &mut People) -> Result<()> {
    add_times(&mut people.times, json.get("times"))?;
    add_texts(alloc, &mut people.lanes, json.get("lanes"), "lanes")?;
    add_texts(alloc, &mut people.values, json.get("values"), "values")?;
    add_texts(alloc, &mut people.errors, json.get("errors"), "errors")?;
    add_relays(&mut people.relays, json.get("relays"))
}

/// Adds the name of the whole, or this one where it has none.
fn add_title(title: &mut String, json: &Json, none: &str) -> Result<()> {
    let text = match json.get("name") {
        None => none,
        Some(said) => said
            .as_str()
            .ok_or(Unreadable::Member("name: has to be a text"))?,
    };
    Ok(title.push_str(text)?)
}

/// Adds the names that stages of a plan have in them.
fn add_names(alloc: Global, names: &mut Vec<String>, stages: Option<&Json>) -> Result<()> {
    for (k, stage) in items(stages).iter().enumerate() {
        let name = name_of(stage.get("name"));
        let name = name.ok_or(Unreadable::Name("stages", k, ".name"))?;
        names.push(String::from_str(alloc, name)?)?;
    }
    Ok(())
}

/// Puts the names of a list in their places, and behind the others: an empty one leaves the stage its own.
fn put_listed(alloc: Global, names: &mut Vec<String>, said: Option<&Json>) -> Result<()> {
    for (k, said) in listed(said, "names")?.iter().enumerate() {
        let name = name_of(Some(said)).ok_or(Unreadable::Name("names", k, ""))?;
        put(alloc, names, k, name)?;
    }
    Ok(())
}

/// Puts a name in its place, or behind the others.
fn put(alloc: Global, names: &mut Vec<String>, k: usize, name: &str) -> Result<()> {
    let text = String::from_str(alloc, name)?;
    if k >= names.len() {
        names.push(text)?;
        return Ok(());
    }
    if name.is_empty() {
        return Ok(());
    }
    if let Some(held) = names.get_mut(k) {
        *held = text;
    }
    Ok(())
}

/// A name: what isn't said is empty, what is none isn't there.
fn name_of(said: Option<&Json>) -> Option<&str> {
    match said {
        Some(json) => stage_name(json),
        None => Some(""),
    }
}

/// The elements of an array, none of what is no array.
fn items(said: Option<&Json>) -> &[Json] {
    match said.and_then(Json::as_array) {
        Some(list) => list.as_slice(),
        None => &[],
    }
}

/// Adds the names that attached stages have in them.
fn add_attached(alloc: Global, names: &mut Vec<String>, json: &Json) -> Result<()> {
    for (k, step) in items(json.get("steps")).iter().enumerate() {
        if step.get(0usize).and_then(Json::as_str) == Some("attach") {
            let name = name_of(step.pointer("/1/name"));
            let name = name.ok_or(Unreadable::Name("steps", k, "[1].name"))?;
            names.push(String::from_str(alloc, name)?)?;
        }
    }
    Ok(())
}

/// Adds a list of texts.
fn add_texts(
    alloc: Global,
    texts: &mut Vec<String>,
    said: Option<&Json>,
    member: &'static str,
) -> Result<()> {
    for (k, said) in listed(said, member)?.iter().enumerate() {
        let text = said
            .as_str()
            .ok_or(Unreadable::Element(member, k, ": has to be a text"))?;
        texts.push(String::from_str(alloc, text)?)?;
    }
    Ok(())
}

/// Adds the times of events, in nanoseconds.
fn add_times(times: &mut Vec<u64>, said: Option<&Json>) -> Result<()> {
    for (k, said) in listed(said, "times")?.iter().enumerate() {
        times.push(word(said).ok_or(Unreadable::Element(
            "times",
            k,
            ": has to be a whole number",
        ))?)?;
    }
    Ok(())
}

/// Adds pairs of a stage and the higher one for which it stands in.
fn add_relays(relays: &mut Vec<(u16, u16)>, said: Option<&Json>) -> Result<()> {
    for (k, said) in listed(said, "relays")?.iter().enumerate() {
        relays.push(pair(said).ok_or(Unreadable::Element("relays", k, ": has to be two stages"))?)?;
    }
    Ok(())
}

/// The elements of an array, none where none is said.
fn listed<'a>(said: Option<&'a Json>, member: &'static str) -> Result<&'a [Json], Unreadable> {
    let Some(said) = said else {
        return Ok(&[]);
    };
    match said.as_array() {
        Some(list) => Ok(list.as_slice()),
        None => Err(Unreadable::List(member)),
    }
}

fn pair(json: &Json) -> Option<(u16, u16)> {
    let stage = u16_of(json.get(0usize)?)?;
    let to = u16_of(json.get(1usize)?)?;
    Some((stage, to))
}

/// Adds what the records say that each event was answered.
fn add_replies(replies: &mut Vec<Option<Reply>>, account: &Account) -> Result<(), AllocError> {
    for _ in account.history.words.iter() {
        replies.push(None)?;
    }
    for caller in account.history.callers.iter() {
        add_told(replies, caller);
    }
    Ok(())
}

fn add_told(replies: &mut Vec<Option<Reply>>, caller: &Caller) {
    for record in caller.records.iter() {
        if let Record::Did { place, reply, .. } = *record {
            if let Some(held) = replies.get_mut(place.wrapping_sub(1)) {
                *held = Some(reply);
            }
        }
    }
}
