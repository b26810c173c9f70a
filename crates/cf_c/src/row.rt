//! One session's view of a row in a store.
ghost use Rattle.cf_c_handles.specs.Handles.{HandleDoes, HandleOpens, HandleTells, HandleWrites};
ghost use Rattle.cf_c_handles.specs.Rows.{GivesUpIn, MeetsIn, OfRow, PlansIn, RoomsIn, RowOf, SeesIn, TellsAbandon, TellsFinish, TellsHeld, TellsNextClaim, TellsNumber, TellsNumberOf, TellsOpenClaim, entry_of};

use crate::handle::{ask, tell};
use cf_c_handles::code::Code;
use cf_c_handles::handle::{CfHandle, fill};
use cf_c_handles::row;
use cf_c_handles::values::CfReply;
use cf_c_handles::values::row::{CfEntry, CfRowClaim, CfRowOpening, entry_of};
use cf_c_handles::values::stage::CfNews;
use cf_c_handles::values::task::CfTask;
use std::alloc::Global;

/// Opens a session's view of a row of the plan behind one handle, and puts it behind another, which is empty.
#[unsafe(no_mangle)]
pub extern "C" fn cf_row_new(
    alloc: Global,
    plan: &mut CfHandle,
    opening: &CfRowOpening,
    view: &mut CfHandle,
) -> u32
    ensures { HandleOpens (RowOf opening.now) plan.old plan.new result view.old view.new }
{
    match plan.take(alloc) {
        None => fill(alloc, view, Err(Code::Empty)),
        Some(held) => {
            let made = row::row_of(alloc, &held, opening);
            plan.put(held);
            fill(alloc, view, made)
        }
    }
}

/// Plans a put of these words. It tells the token of the first.
#[unsafe(no_mangle)]
pub extern "C" fn cf_row_plan(
    alloc: Global,
    h: &mut CfHandle,
    words: &[u64],
    token: &mut u64,
) -> u32
    ensures { HandleTells (PlansIn words.now) h.old h.new result token.old token.new }
{
    tell!(alloc, h, token, held => row::plan(&mut held, words))
}

/// At the put's place this entry stands. It tells whether the put has landed.
#[unsafe(no_mangle)]
pub extern "C" fn cf_row_met(
    alloc: Global,
    h: &mut CfHandle,
    first: &CfEntry,
    landed: &mut u8,
) -> u32
    ensures { HandleTells (MeetsIn (entry_of first.now)) h.old h.new result landed.old landed.new }
{
    let first = entry_of(first);
    tell!(alloc, h, landed, held => row::meet(&mut held, first))
}

/// Gives the put up.
#[unsafe(no_mangle)]
pub extern "C" fn cf_row_give_up(alloc: Global, h: &mut CfHandle) -> u32
    ensures { HandleDoes GivesUpIn h.old h.new result }
{
    ask!(alloc, h, held => row::give_up(&mut held))
}

/// This entry stands behind all that was seen. It tells what the entry did.
#[unsafe(no_mangle)]
pub extern "C" fn cf_row_saw(
    alloc: Global,
    h: &mut CfHandle,
    entry: &CfEntry,
    reply: &mut CfReply,
    news: &mut [CfNews],
    n: &mut usize,
) -> u32
    ensures { HandleWrites (SeesIn (entry_of entry.now)) h.old h.new result
        (reply.old, news.old, n.old) (reply.new, news.new, n.new) }
{
    let entry = entry_of(entry);
    ask!(alloc, h, held => row::see(&mut held, entry, reply, news, n))
}

/// Makes room for so many stages more.
#[unsafe(no_mangle)]
pub extern "C" fn cf_row_grow(alloc: Global, h: &mut CfHandle, more: u16) -> u32
    ensures { HandleDoes (RoomsIn more) h.old h.new result }
{
    ask!(alloc, h, held => row::grow(alloc, &mut held, more))
}

/// The session's own number.
#[unsafe(no_mangle)]
pub extern "C" fn cf_row_number(alloc: Global, h: &mut CfHandle, who: &mut u8) -> u32
    ensures { HandleTells (OfRow TellsNumber) h.old h.new result who.old who.new }
{
    tell!(alloc, h, who, held => row::number(&mut held))
}

/// The number of a session that has put something.
#[unsafe(no_mangle)]
pub extern "C" fn cf_row_number_of(
    alloc: Global,
    h: &mut CfHandle,
    session: u64,
    who: &mut u8,
) -> u32
    ensures { HandleTells (OfRow (TellsNumberOf session)) h.old h.new result who.old who.new }
{
    tell!(alloc, h, who, held => row::number_of(&mut held, session))
}

/// The lowest stage from a number on whose claim is open, with the session to which it was granted.
#[unsafe(no_mangle)]
pub extern "C" fn cf_row_open_claim(
    alloc: Global,
    h: &mut CfHandle,
    from: u16,
    claim: &mut CfRowClaim,
) -> u32
    ensures { HandleTells (OfRow (TellsOpenClaim from)) h.old h.new result claim.old claim.new }
{
    tell!(alloc, h, claim, held => row::open_claim(&mut held, from))
}

/// The lowest stage from a number on that a session has claimed, and that isn't settled.
#[unsafe(no_mangle)]
pub extern "C" fn cf_row_held(
    alloc: Global,
    h: &mut CfHandle,
    session: u64,
    from: u16,
    stage: &mut u16,
) -> u32
    ensures { HandleTells (OfRow (TellsHeld session from)) h.old h.new result stage.old stage.new }
{
    tell!(alloc, h, stage, held => row::held(&mut held, session, from))
}

/// The word that fails the lowest stage from a number on that a session has.
#[unsafe(no_mangle)]
pub extern "C" fn cf_row_abandon(
    alloc: Global,
    h: &mut CfHandle,
    session: u64,
    from: u16,
    code: u32,
    word: &mut u64,
) -> u32
    ensures { HandleTells (OfRow (TellsAbandon session from code)) h.old h.new result word.old word.new }
{
    tell!(alloc, h, word, held => row::abandon(&mut held, session, from, code))
}

/// The word that finishes what a task holds.
#[unsafe(no_mangle)]
pub extern "C" fn cf_row_finish(
    alloc: Global,
    h: &mut CfHandle,
    task: &CfTask,
    word: &mut u64,
) -> u32
    ensures { HandleTells (OfRow (TellsFinish task.now)) h.old h.new result word.old word.new }
{
    tell!(alloc, h, word, held => row::finish(&mut held, task))
}

/// The lowest stage from a number on that the session could claim behind the finish of what a task holds.
#[unsafe(no_mangle)]
pub extern "C" fn cf_row_next_claim(
    alloc: Global,
    h: &mut CfHandle,
    task: &CfTask,
    from: u16,
    stage: &mut u16,
) -> u32
    ensures { HandleTells (OfRow (TellsNextClaim task.now from)) h.old h.new result stage.old stage.new }
{
    tell!(alloc, h, stage, held => row::next_claim(&mut held, task, from))
}
