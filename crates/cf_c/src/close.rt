//! Closing a desk, and what a closed desk tells.
ghost use Rattle.cf_c_handles.specs.Closings.{Adds, AreOfOneDesk, BecomesGraph, Begins, Ends, OfClosed, events_told, record_told, records_told, word_told};
ghost use Rattle.cf_c_handles.specs.Handles.{HandleDoes, HandleTells};

use crate::handle::{ask, tell};
use cf_c_handles::close::closed::CfRecord;
use cf_c_handles::close::{
    add, become_graph, begin, end, events_of, record_at, records_of, word_at,
};
use cf_c_handles::handle::CfHandle;
use std::alloc::Global;

/// Begins to close a desk: one of its callers becomes a closing.
#[unsafe(no_mangle)]
pub extern "C" fn cf_close_begin(alloc: Global, caller: &mut CfHandle) -> u32
    ensures { HandleDoes Begins caller.old caller.new result }
{
    ask!(alloc, caller, held => begin(alloc, &mut held))
}

/// Gives back one more caller of the same desk. Its handle is empty then.
#[unsafe(no_mangle)]
pub extern "C" fn cf_close_add(alloc: Global, closing: &mut CfHandle, caller: &mut CfHandle) -> u32
    requires { AreOfOneDesk closing.old.inner.held caller.old.inner.held }
    ensures { Adds closing.old.inner.held caller.old.inner.held result closing.new.inner.held caller.new.inner.held }
{
    ask!(alloc, closing, held => add(alloc, &mut held, caller))
}

/// Closes the desk once all its callers were given back. It is `NotAll` if some weren't, and `StillShared` if something holds the
/// desk all the same.
#[unsafe(no_mangle)]
pub extern "C" fn cf_close_end(alloc: Global, closing: &mut CfHandle) -> u32
    ensures { HandleDoes Ends closing.old closing.new result }
{
    ask!(alloc, closing, held => end(alloc, &mut held))
}

/// How many events the history of a closed desk has.
#[unsafe(no_mangle)]
pub extern "C" fn cf_closed_events(alloc: Global, closed: &mut CfHandle, events: &mut u16) -> u32
    ensures { HandleTells (OfClosed events_told) closed.old closed.new result events.old events.new }
{
    tell!(alloc, closed, events, held => events_of(&mut held))
}

/// The word of the event at a place of the history.
#[unsafe(no_mangle)]
pub extern "C" fn cf_closed_word(
    alloc: Global,
    closed: &mut CfHandle,
    place: u16,
    word: &mut u64,
) -> u32
    ensures { HandleTells (OfClosed (word_told place)) closed.old closed.new result word.old word.new }
{
    tell!(alloc, closed, word, held => word_at(&mut held, place))
}

/// How many records a caller has.
#[unsafe(no_mangle)]
pub extern "C" fn cf_closed_records(
    alloc: Global,
    closed: &mut CfHandle,
    caller: u8,
    records: &mut u16,
) -> u32
    ensures { HandleTells (OfClosed (records_told caller)) closed.old closed.new result records.old records.new }
{
    tell!(alloc, closed, records, held => records_of(&mut held, caller))
}

/// A caller's record at a place.
#[unsafe(no_mangle)]
pub extern "C" fn cf_closed_record(
    alloc: Global,
    closed: &mut CfHandle,
    caller: u8,
    at: u16,
    record: &mut CfRecord,
) -> u32
    ensures { HandleTells (OfClosed (record_told caller at)) closed.old closed.new result «record».old «record».new }
{
    tell!(alloc, closed, record, held => record_at(&mut held, caller, at))
}

/// Makes a closed desk its graph, as all events leave it.
#[unsafe(no_mangle)]
pub extern "C" fn cf_closed_graph(alloc: Global, closed: &mut CfHandle) -> u32
    ensures { HandleDoes BecomesGraph closed.old closed.new result }
{
    ask!(alloc, closed, held => become_graph(alloc, &mut held))
}
