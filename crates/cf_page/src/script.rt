//! A script as a history.
ghost use Rattle.std.specs.Prelude.{◌≡◌, true};
ghost use Rattle.cf_forms.specs.Plans.{has_place};

use cf_event::{encode, is_event};
use cf_forms::StageFn;
use cf_ledger::{Held, Ledger, LedgerFault, Step as Done, StepFault, Taken};
use cf_model::Event;
use cf_plan::{MAX_STAGES, Plan};
use cf_script_reading::{Func, Step, WORKER};
use std::alloc::{AllocError, Global};

/// The words of the events that a script's steps make: its changing calls, and the claims and finishes of its work.
/// It fails only where there is no memory.
pub fn words_of(
    alloc: Global,
    plan: &Plan,
    room: u16,
    functions: &[Func],
    steps: &[Step],
) -> Result<Vec<u64>, AllocError>
    requires place { has_place plan.now.stages room ≡ true }
{
    let mut words = Vec::new(alloc);
    add_words(alloc, plan, room, &mut words, functions, steps)?;
    Ok(words)
}

/// Does the steps to a new ledger of the plan, and writes the words of their events.
fn add_words(
    alloc: Global,
    plan: &Plan,
    room: u16,
    words: &mut Vec<u64>,
    functions: &[Func],
    steps: &[Step],
) -> Result<(), AllocError>
    requires place { has_place plan.now.stages room ≡ true }
{
    let mut ledger = Ledger::new(alloc, plan, room)?;
    do_all(&mut ledger, words, functions, steps)
}

/// Does the steps, and writes the words of their events.
fn do_all(
    ledger: &mut Ledger,
    words: &mut Vec<u64>,
    functions: &[Func],
    steps: &[Step],
) -> Result<(), AllocError> {
    for step in steps {
        match *step {
            Step::Does(event) => do_one(ledger, words, event)?,
            Step::Work => work(ledger, words, functions)?,
            Step::Asks(_) | Step::Nudge(_) => {}
        }
    }
    Ok(())
}

/// Does an event, and writes its word. An attach that finds no room is an event, too.
fn do_one(ledger: &mut Ledger, words: &mut Vec<u64>, event: Event) -> Result<(), AllocError> {
    if !is_event(&event) {
        return Ok(());
    }
    let word = encode(&event);
    match ledger.apply(word) {
        Ok(_) | Err(LedgerFault::NoRoom) => words.push(word)?,
        Err(LedgerFault::NoMemory) => return Err(AllocError),
        Err(_) => {}
    }
    Ok(())
}

/// Claims, calls and finishes the lowest ready stage, while there is one.
fn work(ledger: &mut Ledger, words: &mut Vec<u64>, functions: &[Func]) -> Result<(), AllocError> {
    let mut held = None;
    // Each stage is claimed once, and the last is finished by one step more.
    for _ in 0..=MAX_STAGES {
        let Some(taken) = step(ledger, words, held)? else {
            return Ok(());
        };
        held = called(functions, &taken);
    }
    Ok(())
}

/// Finishes what is held, claims the lowest ready stage, and writes the words of both.
fn step(
    ledger: &mut Ledger,
    words: &mut Vec<u64>,
    held: Option<Held>,
) -> Result<Option<Taken>, AllocError> {
    match ledger.step(WORKER, held, 0) {
        Ok(done) => write_done(words, &done),
        Err(StepFault::NoMemory) => Err(AllocError),
        Err(_) => Ok(None),
    }
}

/// Writes the words of a step, and tells what it has claimed.
fn write_done(words: &mut Vec<u64>, done: &Done) -> Result<Option<Taken>, AllocError> {
    if let Some(finish) = done.finish {
        words.push(finish.word)?;
    }
    if let Some(taken) = done.taken {
        words.push(taken.word)?;
    }
    Ok(done.taken)
}

/// What the function of a claimed stage answers.
fn called(functions: &[Func], taken: &Taken) -> Option<Held> {
    let function = functions.get(taken.function? as usize)?;
    Some(Held {
        stage: taken.stage,
        answer: function.call(&taken.args),
    })
}
