//! The reading of a question.
ghost use Rattle.std.specs.Prelude.{◌≡◌, true};
ghost use Rattle.cf_forms.specs.Plans.{has_place};

use crate::facts::{Conditions, Scope, read_asked};
use crate::fault::{QuestionFault, Spot};
use crate::joined::{QuestionText, StepText, joined_of, shared_of};
use crate::planning::with_shared;
use crate::question::Question;
use cf_explore::{Caller, Program, Step};
use cf_model::{Ask, Call, Event};
use cf_plan::Plan;
use cf_script_reading::{Func, Part, ReadingFault, Script, Step as Said, script_of};
use serde_json::Value as Json;
use std::alloc::{AllocError, Global};

/// There are at most this many callers and workers together.
const MAX_HANDS: usize = 62;

/// The question that a JSON value says, or the first fault in it. What a script has is checked first, then `workers`, `clock`,
/// and what must hold.
pub fn read_question(alloc: Global, json: &Json) -> Result<Question, QuestionFault> {
    let joined = joined_of(alloc, json)?;
    match rest_of(alloc, json, &joined) {
        Ok(rest) => Ok(put_together(joined, rest)),
        Err(fault) => Err(fault),
    }
}

/// What a question has besides its callers' steps.
#[derive(Drop)]
struct Rest {
    parts: Parts,
    asked: Conditions,
    program: Program,
    callers: u8,
    hands: Hands,
}

fn rest_of(alloc: Global, json: &Json, joined: &QuestionText) -> Result<Rest, QuestionFault> {
    let script = script_in(alloc, joined)?;
    let hands = hands_of(json, joined.callers.len())?;
    let parts = parts_of(alloc, json, script)?;
    let asked = asked_of(alloc, json, joined, &parts)?;
    let (program, callers) = acted_by(alloc, joined, &parts, hands)?;
    Ok(Rest {
        parts,
        asked,
        program,
        callers,
        hands,
    })
}

/// Who there is besides callers with steps: workers, and whether the clock is free.
#[derive(Clone, Copy)]
struct Hands {
    workers: u8,
    is_free: bool,
}

fn hands_of(json: &Json, callers: usize) -> Result<Hands, QuestionFault> {
    let Some(workers) = workers_of(json) else {
        return Err(QuestionFault::At(Spot::Workers));
    };
    let Some(is_free) = clock_of(json) else {
        return Err(QuestionFault::At(Spot::Clock));
    };
    if callers.saturating_add(usize::from(workers)) > MAX_HANDS {
        return Err(QuestionFault::At(Spot::Callers));
    }
    Ok(Hands { workers, is_free })
}

/// The parts of a script whose functions may be shared.
#[derive(Drop)]
struct Parts {
    plan: Plan,
    room: u16,
    functions: Vec<Func>,
    steps: Vec<Said>,
    ghost place: { has_place plan.stages room ≡ true },
}

fn parts_of(alloc: Global, json: &Json, script: Script) -> Result<Parts, QuestionFault> {
    let shared = shared_of(alloc, json)?;
    let (plan, room, functions, steps) = script.into_parts();
    let plan = with_shared(alloc, &plan, shared.as_slice())?;
    if !plan.has_place(room) {
        return Err(QuestionFault::Script(ReadingFault::Shape(Part::Room)));
    }
    Ok(Parts {
        plan,
        room,
        functions,
        steps,
    })
}

/// What must hold of the script's orders.
fn asked_of(
    alloc: Global,
    json: &Json,
    joined: &QuestionText,
    parts: &Parts,
) -> Result<Conditions, QuestionFault> {
    let counts = counts_of(alloc, joined)?;
    let scope = Scope {
        plan: &parts.plan,
        stages: parts.plan.stages() as usize + usize::from(parts.room),
        steps: counts.as_slice(),
    };
    read_asked(alloc, json, &scope)
}

/// The program of the script's callers, and how many they are.
fn acted_by(
    alloc: Global,
    joined: &QuestionText,
    parts: &Parts,
    hands: Hands,
) -> Result<(Program, u8), QuestionFault> {
    let callers = callers_of(alloc, joined, parts.steps.as_slice())?;
    let count = u8::try_from(callers.len()).unwrap_or(u8::MAX);
    let own = parts.plan.copy()?;
    let program = program_of(own, parts.room, callers, hands)?;
    Ok((program, count))
}

fn put_together(joined: QuestionText, rest: Rest) -> Question {
    let Rest {
        parts,
        asked,
        program,
        callers,
        hands,
    } = rest;
    let Conditions { conditions, texts } = asked;
    let QuestionText {
        head,
        callers: steps,
    } = joined;
    let Parts {
        plan,
        room,
        functions,
        steps: _,
    } = parts;
    Question {
        program,
        conditions,
        texts,
        plan,
        room,
        functions,
        callers,
        hands: callers.saturating_add(hands.workers),
        head,
        steps,
    }
}

/// The program of these parts.
fn program_of(
    plan: Plan,
    room: u16,
    callers: Vec<Caller>,
    hands: Hands,
) -> Result<Program, QuestionFault> {
    let Hands { workers, is_free } = hands;
    if !plan.has_place(room) || callers.len() + usize::from(workers) > MAX_HANDS {
        return Err(QuestionFault::At(Spot::Callers));
    }
    Ok(Program::new(plan, room, callers, workers, is_free))
}

/// The script of all callers' steps.
fn script_in(alloc: Global, joined: &QuestionText) -> Result<Script, QuestionFault> {
    let text = joined.script(alloc)?;
    let json = json_in(alloc, &text)?;
    match script_of(alloc, &json) {
        Ok(script) => Ok(script),
        Err(ReadingFault::NoMemory) => Err(QuestionFault::NoMemory),
        Err(ReadingFault::Step(k)) => Err(QuestionFault::At(joined.spot(k))),
        Err(fault) => Err(QuestionFault::Script(fault)),
    }
}

/// The JSON of a script's text.
fn json_in(alloc: Global, text: &str) -> Result<Json, QuestionFault> {
    match Json::from_slice(alloc, text.as_bytes()) {
        Ok(json) => Ok(json),
        Err(error) if error.is_memory() => Err(QuestionFault::NoMemory),
        Err(_) => Err(QuestionFault::Script(ReadingFault::NotJson)),
    }
}

/// How many workers there are: none where nothing is said.
fn workers_of(json: &Json) -> Option<u8> {
    match json.get("workers") {
        None => Some(0),
        Some(said) => {
            let workers = u8::try_from(said.as_i64()?).ok()?;
            if workers <= 32 { Some(workers) } else { None }
        }
    }
}

/// Whether the clock is free.
fn clock_of(json: &Json) -> Option<bool> {
    match json.get("clock") {
        None => Some(false),
        Some(said) => match said.as_str() {
            Some("free") => Some(true),
            _ => None,
        },
    }
}

fn counts_of(alloc: Global, joined: &QuestionText) -> Result<Vec<usize>, AllocError> {
    let mut counts = Vec::new(alloc);
    for own in joined.callers.iter() {
        counts.push(own.len())?;
    }
    Ok(counts)
}

/// Each caller with its part of the steps.
fn callers_of(
    alloc: Global,
    joined: &QuestionText,
    steps: &[Said],
) -> Result<Vec<Caller>, QuestionFault> {
    let mut callers = Vec::new(alloc);
    let mut first = 0;
    for own in joined.callers.iter() {
        callers.push(caller_of(alloc, own.as_slice(), steps, first)?)?;
        first = first.saturating_add(own.len());
    }
    Ok(callers)
}

/// A caller with as many steps, from one on.
fn caller_of(
    alloc: Global,
    texts: &[StepText],
    steps: &[Said],
    first: usize,
) -> Result<Caller, QuestionFault> {
    let mut own = Vec::new(alloc);
    for (k, text) in texts.iter().enumerate() {
        match step_at(steps, first.saturating_add(k), text.most) {
            Some(step) => own.push(step)?,
            None => return Err(QuestionFault::At(Spot::Callers)),
        }
    }
    if own.len() > 65_535 {
        return Err(QuestionFault::At(Spot::Callers));
    }
    Ok(Caller::new(own))
}

/// The step at a place of a script as one of a caller.
fn step_at(steps: &[Said], at: usize, join: Option<u16>) -> Option<Step> {
    step_of(*steps.get(at)?, join)
}

/// A step of a script as one of a caller.
fn step_of(said: Said, join: Option<u16>) -> Option<Step> {
    match (said, join) {
        (Said::Asks(Ask::Outcome(stage)), Some(most)) => Some(Step::Join(stage, most)),
        (Said::Asks(ask), None) => Some(Step::Look(ask)),
        (Said::Does(event), None) => Some(Step::Do(Call::of(&event))),
        _ => None,
    }
}
