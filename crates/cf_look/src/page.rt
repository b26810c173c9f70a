//! Pages, traces and spans of an account or a script.
use crate::args::Shape;
use crate::history::{Account, account_of, check_room, verdict_on};
use crate::input::json_in;
use crate::people::{fill_people, people_in};
use crate::show::write_verdict;
use anyhow::Result;
use cf_explain::{Explanation, explain};
use cf_history::Verdict;
use cf_page::{page_of, scene_of, spans_of, trace_of, words_of};
use cf_plan::Plan;
use cf_script_reading::{Func, MAX_BYTES, ReadingFault, Script, Step, read_script};
use cf_telling::People;
use cf_text::ScriptFault;
use serde_json::Value as Json;
use std::alloc::{AllocError, Global};

/// What is to be shown.
#[derive(Drop)]
pub(crate) struct Shown {
    plan: Plan,
    room: u16,
    words: Vec<u64>,
    people: People,
}

/// What is known of an input.
#[derive(Drop)]
pub(crate) enum ReadInput {
    /// It can be shown.
    Shown(Shown),
    /// It is neither an account nor a script, for which `cf run` has this fault.
    Refused(ReadingFault),
}

/// The account or the script of these bytes.
pub(crate) fn read_in(alloc: Global, bytes: &[u8]) -> Result<ReadInput> {
    if bytes.len() > MAX_BYTES && !names_plan(bytes) {
        return Ok(ReadInput::Refused(ReadingFault::TooLong));
    }
    match json_in(alloc, bytes)? {
        Some(json) if json.get("plan").is_some() => Ok(ReadInput::Shown(shown_account(
            alloc, &json,
        )?)),
        json => read_in_script(alloc, bytes, json.as_ref()),
    }
}

/// Whether an account's member may stand in these bytes. What is longer than a script may be, and is no account, isn't parsed.
fn names_plan(bytes: &[u8]) -> bool {
    match str::from_utf8(bytes) {
        Ok(text) => text.contains("\"plan\""),
        Err(_) => false,
    }
}

/// An account with its verdict.
fn shown_account(alloc: Global, json: &Json) -> Result<Shown> {
    let account = account_of(alloc, json)?;
    let people = people_of(alloc, json, &account)?;
    Ok(Shown {
        plan: account.plan,
        room: account.room,
        words: account.history.words,
        people,
    })
}

/// What an account says for people, with the verdict on it.
fn people_of(alloc: Global, json: &Json, account: &Account) -> Result<People> {
    let mut people = People::new(alloc);
    fill_people(alloc, json, account, &mut people)?;
    let verdict = verdict_on(alloc, account)?;
    people.fits = matches!(verdict, Verdict::Fits);
    write_verdict(&mut people.verdict, verdict)?;
    Ok(people)
}

/// The script of these bytes.
fn read_in_script(alloc: Global, bytes: &[u8], json: Option<&Json>) -> Result<ReadInput> {
    match read_script(alloc, bytes) {
        Ok(script) => {
            let people = match json {
                Some(json) => people_in(alloc, json)?,
                None => People::new(alloc),
            };
            Ok(ReadInput::Shown(shown_script(alloc, script, people)?))
        }
        Err(ReadingFault::NoMemory) => Err(AllocError.into()),
        Err(fault) => Ok(ReadInput::Refused(fault)),
    }
}

/// A script with the events that its run makes.
fn shown_script(alloc: Global, script: Script, people: People) -> Result<Shown> {
    let mut people = people;
    people.verdict.push_str("a run of this script")?;
    let (plan, room, words) = run(alloc, script)?;
    Ok(Shown {
        plan,
        room,
        words,
        people,
    })
}

/// The events that the run of a script makes, with its plan and the room for it.
fn run(alloc: Global, script: Script) -> Result<(Plan, u16, Vec<u64>)> {
    let (plan, room, functions, steps) = script.into_parts();
    let words = words_in(alloc, &plan, room, &functions, &steps)?;
    Ok((plan, room, words))
}

fn words_in(
    alloc: Global,
    plan: &Plan,
    room: u16,
    functions: &[Func],
    steps: &[Step],
) -> Result<Vec<u64>> {
    check_room(plan, room)?;
    Ok(words_of(alloc, plan, room, functions, steps)?)
}

/// The text that shows it.
pub(crate) fn text_of(alloc: Global, shown: &Shown, shape: Shape) -> Result<String> {
    check_room(&shown.plan, shown.room)?;
    let people = &shown.people;
    let scene = scene_of(alloc, &shown.plan, shown.room, &shown.words, people)?;
    let text = match shape {
        Shape::Page => page_of(alloc, &scene, people),
        Shape::Trace => trace_of(alloc, &scene, people),
        Shape::Spans => spans_of(alloc, &scene, people, &shown.words),
    };
    Ok(text?)
}

/// Writes to standard error why these bytes are no script, and where.
pub(crate) fn write_refusal<R: Eprint + AllocGlobal>(
    rt: &R,
    bytes: &[u8],
    fault: ReadingFault,
) -> Result<()> {
    eprintln!(rt; "{}", ScriptFault::from(fault))?;
    let said = explain(rt.alloc(), bytes)?;
    write_said(rt, &said)
}

/// Writes to standard error what is said of a script, without the line of its fault.
fn write_said<R: Eprint>(rt: &R, said: &Explanation) -> Result<()> {
    if let Some(refusal) = &said.refusal {
        eprintln!(rt; "{refusal}")?;
    }
    for remark in &said.remarks {
        eprintln!(rt; "{remark}")?;
    }
    Ok(())
}
