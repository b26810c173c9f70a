//! What happened to a request, told for people and for the programs.
ghost use Rattle.cf_c_handles.specs.Handles.{HandleDoes, HandleOpens, HandleWrites};
ghost use Rattle.cf_c_handles.specs.Histories.{HistoryOf, SaysIn, SetsTimesIn, TellsIn};

use crate::handle::ask;
use cf_c_handles::code::Code;
use cf_c_handles::handle::{CfHandle, fill};
use cf_c_handles::history::{history_of, say, set_times, text};
use std::alloc::Global;

/// Makes the history of the plan behind one handle and of these words, and puts it behind another, which is empty.
#[unsafe(no_mangle)]
pub extern "C" fn cf_history_new(
    alloc: Global,
    plan: &mut CfHandle,
    room: u16,
    words: &[u64],
    history: &mut CfHandle,
) -> u32
    ensures { HandleOpens (HistoryOf room words.now) plan.old plan.new result history.old history.new }
{
    match plan.take(alloc) {
        None => fill(alloc, history, Err(Code::Empty)),
        Some(held) => {
            let made = history_of(alloc, &held, room, words);
            plan.put(held);
            fill(alloc, history, made)
        }
    }
}

/// Says when each event was done, for people.
#[unsafe(no_mangle)]
pub extern "C" fn cf_history_times(alloc: Global, h: &mut CfHandle, times: &[u64]) -> u32
    ensures { HandleDoes (SetsTimesIn times.now) h.old h.new result }
{
    ask!(alloc, h, held => set_times(alloc, &mut held, times))
}

/// Says what things are called, for people.
#[unsafe(no_mangle)]
pub extern "C" fn cf_history_say(
    alloc: Global,
    h: &mut CfHandle,
    what: u32,
    text: &[u8],
    ends: &[usize],
) -> u32
    ensures { HandleDoes (SaysIn what text.now ends.now) h.old h.new result }
{
    ask!(alloc, h, held => say(alloc, &mut held, what, text, ends))
}

/// Tells it as a text of a kind, as far as the buffer reaches, and the length of the whole.
#[unsafe(no_mangle)]
pub extern "C" fn cf_history_text(
    alloc: Global,
    h: &mut CfHandle,
    kind: u32,
    buffer: &mut [u8],
    length: &mut usize,
) -> u32
    ensures { HandleWrites (TellsIn kind) h.old h.new result (buffer.old, length.old) (buffer.new, length.new) }
{
    ask!(alloc, h, held => text(alloc, &mut held, kind, buffer, length))
}
