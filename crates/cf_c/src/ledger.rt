//! A graph with the words of all that was done to it.
ghost use Rattle.cf_c_handles.specs.Handles.{HandleDoes, HandleOpens, HandleOpensFrom, HandleTells, HandleWrites};
ghost use Rattle.cf_c_handles.specs.LedgerSteps.{StepsLedger};
ghost use Rattle.cf_c_handles.specs.Ledgers.{DoesRow, DoesWord, Grows, LedgerFrom, LedgerOf, OfLedger, OfLedgerWriting, StartsAgain, TellsFunction, TellsReady, TellsStage, TellsStages, WritesNews, WritesWords};

use crate::handle::{ask, tell};
use cf_c_handles::code::Code;
use cf_c_handles::handle::{CfHandle, fill};
use cf_c_handles::ledger::{asking, ledger_from, ledger_of, stepping, telling};
use cf_c_handles::values::CfReply;
use cf_c_handles::values::stage::{CfNews, CfStage};
use cf_c_handles::values::task::{CfStep, CfTask};
use std::alloc::Global;

/// Opens a ledger of the plan behind one handle, and puts it behind another, which is empty.
#[unsafe(no_mangle)]
pub extern "C" fn cf_ledger_new(
    alloc: Global,
    plan: &mut CfHandle,
    room: u16,
    ledger: &mut CfHandle,
) -> u32
    ensures { HandleOpens (LedgerOf room) plan.old plan.new result ledger.old ledger.new }
{
    match plan.take(alloc) {
        None => fill(alloc, ledger, Err(Code::Empty)),
        Some(held) => {
            let made = ledger_of(alloc, &held, room);
            plan.put(held);
            fill(alloc, ledger, made)
        }
    }
}

/// The same with words, whose events are done one after another. If one can't be done, its place is told.
#[unsafe(no_mangle)]
pub extern "C" fn cf_ledger_of(
    alloc: Global,
    plan: &mut CfHandle,
    room: u16,
    words: &[u64],
    ledger: &mut CfHandle,
    place: &mut usize,
) -> u32
    ensures { HandleOpensFrom (LedgerFrom room words.now) plan.old plan.new result
        ledger.old ledger.new place.old place.new }
{
    if ledger.is_full() {
        return Code::Full.number();
    }
    match plan.take(alloc) {
        None => Code::Empty.number(),
        Some(held) => {
            let made = ledger_from(alloc, &held, room, words, place);
            plan.put(held);
            fill(alloc, ledger, made)
        }
    }
}

/// Does the event of a word, and tells which stages it changed.
#[unsafe(no_mangle)]
pub extern "C" fn cf_ledger_apply(
    alloc: Global,
    h: &mut CfHandle,
    word: u64,
    reply: &mut CfReply,
    news: &mut [CfNews],
    n: &mut usize,
) -> u32
    ensures { HandleWrites (DoesWord word) h.old h.new result
        (reply.old, news.old, n.old) (reply.new, news.new, n.new) }
{
    ask!(alloc, h, held => telling::apply(&mut held, word, reply, news, n))
}

/// Finishes what a task holds with the answer in it. Then claims the next ready stage, and gives it to the task. These are two
/// words.
#[unsafe(no_mangle)]
pub extern "C" fn cf_ledger_step(
    alloc: Global,
    h: &mut CfHandle,
    step: &mut CfStep,
    task: &mut CfTask,
    news: &mut [CfNews],
    n: &mut usize,
) -> u32
    ensures { HandleWrites StepsLedger h.old h.new result
        (step.old, task.old, news.old, n.old) (step.new, task.new, news.new, n.new) }
{
    ask!(alloc, h, held => stepping::step(&mut held, step, task, news, n))
}

/// Does the events of a row of words, and tells how many were done.
#[unsafe(no_mangle)]
pub extern "C" fn cf_ledger_apply_all(
    alloc: Global,
    h: &mut CfHandle,
    words: &[u64],
    done: &mut usize,
) -> u32
    ensures { HandleWrites (DoesRow words.now) h.old h.new result done.old done.new }
{
    ask!(alloc, h, held => telling::apply_all(&mut held, words, done))
}

/// The words from a place on.
#[unsafe(no_mangle)]
pub extern "C" fn cf_ledger_words(
    alloc: Global,
    h: &mut CfHandle,
    from: usize,
    words: &mut [u64],
    n: &mut usize,
) -> u32
    ensures { HandleWrites (OfLedgerWriting (WritesWords from)) h.old h.new result (words.old, n.old)
        (words.new, n.new) }
{
    ask!(alloc, h, held => telling::words(&mut held, from, words, n))
}

/// The stages that the event at a place changed.
#[unsafe(no_mangle)]
pub extern "C" fn cf_ledger_news(
    alloc: Global,
    h: &mut CfHandle,
    place: usize,
    stages: &mut [u16],
    n: &mut usize,
) -> u32
    ensures { HandleWrites (OfLedgerWriting (WritesNews place)) h.old h.new result (stages.old, n.old)
        (stages.new, n.new) }
{
    ask!(alloc, h, held => telling::news(&mut held, place, stages, n))
}

/// The lowest ready stage from a number on.
#[unsafe(no_mangle)]
pub extern "C" fn cf_ledger_ready(
    alloc: Global,
    h: &mut CfHandle,
    from: u16,
    stage: &mut u16,
) -> u32
    ensures { HandleTells (OfLedger (TellsReady from)) h.old h.new result stage.old stage.new }
{
    tell!(alloc, h, stage, held => asking::ready(&mut held, from))
}

/// What a stage is.
#[unsafe(no_mangle)]
pub extern "C" fn cf_ledger_stage(
    alloc: Global,
    h: &mut CfHandle,
    stage: u16,
    now: &mut CfStage,
) -> u32
    ensures { HandleTells (OfLedger (TellsStage stage)) h.old h.new result now.old now.new }
{
    tell!(alloc, h, now, held => asking::stage(&mut held, stage))
}

/// The number of a stage's function.
#[unsafe(no_mangle)]
pub extern "C" fn cf_ledger_function(
    alloc: Global,
    h: &mut CfHandle,
    stage: u16,
    function: &mut u16,
) -> u32
    ensures { HandleTells (OfLedger (TellsFunction stage)) h.old h.new result function.old function.new }
{
    tell!(alloc, h, function, held => asking::function(&mut held, stage))
}

/// How many stages there are by now.
#[unsafe(no_mangle)]
pub extern "C" fn cf_ledger_stages(alloc: Global, h: &mut CfHandle, stages: &mut u16) -> u32
    ensures { HandleTells (OfLedger TellsStages) h.old h.new result stages.old stages.new }
{
    tell!(alloc, h, stages, held => asking::stages(&mut held))
}

/// Makes room for this many stages more.
#[unsafe(no_mangle)]
pub extern "C" fn cf_ledger_grow(alloc: Global, h: &mut CfHandle, more: u16) -> u32
    ensures { HandleDoes (Grows more) h.old h.new result }
{
    ask!(alloc, h, held => asking::grow(alloc, &mut held, more))
}

/// Starts again. It takes no memory.
#[unsafe(no_mangle)]
pub extern "C" fn cf_ledger_restart(alloc: Global, h: &mut CfHandle) -> u32
    ensures { HandleDoes StartsAgain h.old h.new result }
{
    ask!(alloc, h, held => asking::restart(&mut held))
}
