//! The search of all orders in which callers' steps can come.
use crate::args::Exploring;
use crate::input::{input_of, read_json};
use anyhow::{Result, anyhow};
use cf_explore::{Found, Search, Witness};
use cf_question::{
    Grouped, OrderShape, Question, QuestionFault, Standing, grouped_by, json_of, read_question,
    standing_of, text_of, witness_of, witnesses,
};
use serde_json::Value as Json;
use std::alloc::{AllocError, Global};
use std::fmt::Display;
use std::rt::{Clock, Files};
use std::time::Instant;

/// All that must hold holds.
const HOLDS: u8 = 0;

/// Something doesn't.
const FAILS: u8 = 1;

/// The question can't be read.
const NO_QUESTION: u8 = 2;

/// The bound ended the search before all orders were seen, and nothing failed by then.
const NOT_ALL: u8 = 3;

/// Whether a text is a question rather than a script: it has callers, and is no account.
pub(crate) fn is_question(json: &Json) -> bool {
    json.get("callers").is_some() && json.get("plan").is_none()
}

/// Why a text is no question, or nothing where it is one.
pub(crate) fn fault_of(alloc: Global, json: &Json) -> Result<Option<QuestionFault>> {
    match read_question(alloc, json) {
        Ok(_) => Ok(None),
        Err(QuestionFault::NoMemory) => Err(AllocError.into()),
        Err(fault) => Ok(Some(fault)),
    }
}

/// Searches the question on standard input, and tells what was found.
pub(crate) fn explore_one<R: Input + Print + Eprint + AllocGlobal + Clock + Files>(
    rt: &R,
    asked: &Exploring,
) -> Result<u8> {
    let Ok(input) = input_of(rt) else {
        eprintln!(rt; "unreadable: standard input")?;
        return Ok(NO_QUESTION);
    };
    explore_text(rt, input.as_slice(), asked)
}

/// Searches the question of these bytes.
fn explore_text<R: Print + Eprint + AllocGlobal + Clock + Files>(
    rt: &R,
    text: &[u8],
    asked: &Exploring,
) -> Result<u8> {
    match read_json(rt.alloc(), text)? {
        Ok(json) => explore_json(rt, &json, asked),
        Err(why) => {
            let fault = refuse(rt, &"fault 2 not json")?;
            eprintln!(rt; "question: {why}")?;
            Ok(fault)
        }
    }
}

/// Searches the question that is this JSON value.
fn explore_json<R: Print + Eprint + AllocGlobal + Clock + Files>(
    rt: &R,
    json: &Json,
    asked: &Exploring,
) -> Result<u8> {
    match read_question(rt.alloc(), json) {
        Ok(question) => searched(rt, &question, asked),
        Err(QuestionFault::NoMemory) => Err(AllocError.into()),
        Err(fault) => refuse(rt, &fault),
    }
}

/// Writes why a text is no question.
fn refuse<R: Eprint, D: Display>(rt: &R, why: &D) -> Result<u8> {
    eprintln!(rt; "refused: {why}")?;
    Ok(NO_QUESTION)
}

/// Searches a question, and tells what was found.
fn searched<R: Print + Eprint + AllocGlobal + Clock + Files>(
    rt: &R,
    question: &Question,
    asked: &Exploring,
) -> Result<u8> {
    let mut search = question.program.begin(rt.alloc(), &question.conditions)?;
    go_on(rt, question, asked, &mut search)?;
    write_found(rt, question, asked, &search.found)?;
    Ok(status_of(question, &search.found))
}

/// Searches layer by layer, until all orders are seen, the bound is reached or the file that is to be there is gone. Each
/// second it says how far it is.
fn go_on<R: Eprint + AllocGlobal + Clock + Files>(
    rt: &R,
    question: &Question,
    asked: &Exploring,
    search: &mut Search,
) -> Result<()> {
    let mut told = Instant::now(rt)?;
    for _ in 0..u32::MAX {
        if !search.is_on {
            break;
        }
        question.program.go_on(
            rt.alloc(),
            &question.functions,
            &question.conditions,
            asked.states,
            search,
        )?;
        if told.elapsed(rt)?.as_millis() >= 1_000 {
            told = Instant::now(rt)?;
            write_progress(rt, &search.found)?;
            if asked.is_over(rt) {
                break;
            }
        }
    }
    Ok(())
}

/// Says how far a search is.
fn write_progress<R: Eprint>(rt: &R, found: &Found) -> Result<()> {
    eprintln!(rt;
        "{} situations, orders of {} moves, {} ends",
        found.trail.len(),
        found.moves,
        found.ends.len()
    )?;
    Ok(())
}

/// Writes what was found: all of it, or one order.
fn write_found<R: Print + AllocGlobal>(
    rt: &R,
    question: &Question,
    asked: &Exploring,
    found: &Found,
) -> Result<()> {
    let groups = grouped_by(rt.alloc(), found, asked.of.as_deref())?;
    match asked.order {
        None => write_all(rt, question, asked.json, found, groups.as_slice()),
        Some((number, shape)) => {
            let witness = witness_at(rt.alloc(), found, groups.as_slice(), number)?;
            let text = witness_of(rt.alloc(), question, found, witness, shape)?;
            Ok(println!(rt; "{text}")?)
        }
    }
}

fn write_all<R: Print + AllocGlobal>(
    rt: &R,
    question: &Question,
    as_json: bool,
    found: &Found,
    groups: &[Grouped],
) -> Result<()> {
    let text = if as_json {
        json_of(rt.alloc(), question, found, groups)?
    } else {
        text_of(rt.alloc(), question, found, groups)?
    };
    Ok(print!(rt; "{text}")?)
}

/// The witness of this number.
fn witness_at(alloc: Global, found: &Found, groups: &[Grouped], number: usize) -> Result<Witness> {
    let all = witnesses(alloc, found, groups)?;
    match all.get(number) {
        Some(witness) => Ok(*witness),
        None => Err(anyhow!("there is no order {number}")),
    }
}

/// The status that tells whether all holds.
fn status_of(question: &Question, found: &Found) -> u8 {
    let mut worst = if found.whole { HOLDS } else { NOT_ALL };
    for (k, condition) in question.conditions.iter().enumerate() {
        let is_decided = found.decisions.get(k).copied().flatten().is_some();
        if standing_of(condition.how, is_decided, found.whole) == Standing::Fails {
            worst = FAILS;
        }
    }
    worst
}
