//! All requests of a store that a process works on.
ghost use Rattle.std.specs.Prelude.{None, Some};
ghost use Rattle.cf_part.specs.Parts.{later};
ghost use Rattle.cf_c_handles.specs.Handles.{HandleDoes, HandleTells, HandleWrites};
ghost use Rattle.cf_c_handles.specs.HostAnswers.{OpensBehind, TakesBeats, TakesEnd, TakesNews, TakesPlain, TakesRows, plain_numbered};
ghost use Rattle.cf_c_handles.specs.HostValues.{act_of, ends_of};
ghost use Rattle.cf_c_handles.specs.HostViews.{OfHostPart, TellsPartStage, TellsView, WritesPut};
ghost use Rattle.cf_c_handles.specs.Hosts.{Acts, EndsRequest, Follows, GrowsIn, IsStirred, OfHost, OpensHost, Stops, TurnsTo, Wants};

use crate::handle::{ask, tell};
use cf_c_handles::handle::{CfHandle, fill};
use cf_c_handles::host::{answering, asking, calling, host_of};
use cf_c_handles::values::host::order::CfHostOrder;
use cf_c_handles::values::host::rows::{CfHostBeat, CfHostLength, CfHostWant, CfNote, CfNoted};
use cf_c_handles::values::host::{CfHostActing, CfHostOpening, CfHostView};
use cf_c_handles::values::stage::CfStage;
use std::alloc::Global;

/// Puts a host that works on no request yet behind an empty handle.
#[unsafe(no_mangle)]
pub extern "C" fn cf_host_new(alloc: Global, opening: &CfHostOpening, host: &mut CfHandle) -> u32
    ensures { OpensHost opening.now host.old result host.new }
{
    fill(alloc, host, host_of(alloc, opening))
}

/// Works on a request.
#[unsafe(no_mangle)]
pub extern "C" fn cf_host_follow(alloc: Global, h: &mut CfHandle, request: u64) -> u32
    ensures { HandleDoes (OfHost (Follows request)) h.old h.new result }
{
    ask!(alloc, h, held => calling::follow(&mut held, request))
}

/// A user asks for an act. It tells the ticket under which its user is told of it.
#[unsafe(no_mangle)]
pub extern "C" fn cf_host_act(
    alloc: Global,
    h: &mut CfHandle,
    now: u64,
    request: u64,
    act: &CfHostActing,
    ticket: &mut u64,
) -> u32
    ensures { HandleTells (OfHost (Acts now request (act_of act.now))) h.old h.new result ticket.old ticket.new }
{
    tell!(alloc, h, ticket, held => calling::act(&mut held, now, request, act))
}

/// A user ends a request. It tells the ticket under which its user is told of it.
#[unsafe(no_mangle)]
pub extern "C" fn cf_host_end(
    alloc: Global,
    h: &mut CfHandle,
    now: u64,
    request: u64,
    ticket: &mut u64,
) -> u32
    ensures { HandleTells (OfHost (EndsRequest now request)) h.old h.new result ticket.old ticket.new }
{
    tell!(alloc, h, ticket, held => calling::end(&mut held, now, request))
}

/// Somebody waits for a stage.
#[unsafe(no_mangle)]
pub extern "C" fn cf_host_wants(alloc: Global, h: &mut CfHandle, request: u64, stage: u16) -> u32
    ensures { HandleDoes (OfHost (Wants (Some 0) request stage)) h.old h.new result }
{
    ask!(alloc, h, held => calling::want(&mut held, request, stage))
}

/// Nobody waits for a stage any more.
#[unsafe(no_mangle)]
pub extern "C" fn cf_host_lets_go(alloc: Global, h: &mut CfHandle, request: u64, stage: u16) -> u32
    ensures { HandleDoes (OfHost (Wants None request stage)) h.old h.new result }
{
    ask!(alloc, h, held => calling::let_go(&mut held, request, stage))
}

/// The payload of a stage that was shown couldn't be read.
#[unsafe(no_mangle)]
pub extern "C" fn cf_host_unread(
    alloc: Global,
    h: &mut CfHandle,
    now: u64,
    request: u64,
    stage: u16,
) -> u32
    ensures { HandleDoes (OfHost (Wants (Some (later now)) request stage)) h.old h.new result }
{
    ask!(alloc, h, held => calling::unread(&mut held, now, request, stage))
}

/// Makes room in a request for so many stages more.
#[unsafe(no_mangle)]
pub extern "C" fn cf_host_grow(alloc: Global, h: &mut CfHandle, request: u64, more: u16) -> u32
    ensures { HandleDoes (OfHost (GrowsIn request more)) h.old h.new result }
{
    ask!(alloc, h, held => calling::grow(&mut held, request, more))
}

/// The store says that something is new.
#[unsafe(no_mangle)]
pub extern "C" fn cf_host_stirred(alloc: Global, h: &mut CfHandle, now: u64) -> u32
    ensures { HandleDoes (OfHost (IsStirred now)) h.old h.new result }
{
    ask!(alloc, h, held => calling::stir(&mut held, now))
}

/// No further function is called.
#[unsafe(no_mangle)]
pub extern "C" fn cf_host_stop(alloc: Global, h: &mut CfHandle) -> u32
    ensures { HandleDoes (OfHost Stops) h.old h.new result }
{
    ask!(alloc, h, held => calling::stop(&mut held))
}

/// What is to be done next.
#[unsafe(no_mangle)]
pub extern "C" fn cf_host_turn(
    alloc: Global,
    h: &mut CfHandle,
    now: u64,
    order: &mut CfHostOrder,
) -> u32
    ensures { HandleTells (OfHost (TurnsTo now)) h.old h.new result order.old order.new }
{
    tell!(alloc, h, order, held => calling::turn(&mut held, now))
}

/// The entries of a request's put that is under way.
#[unsafe(no_mangle)]
pub extern "C" fn cf_host_put(
    alloc: Global,
    h: &mut CfHandle,
    request: u64,
    wants: &mut [CfHostWant],
    n: &mut usize,
) -> u32
    ensures { HandleWrites (WritesPut request) h.old h.new result (wants.old, n.old) (wants.new, n.new) }
{
    ask!(alloc, h, held => asking::put(&mut held, request, wants, n))
}

/// The store has a request, with the plan behind another handle.
#[unsafe(no_mangle)]
pub extern "C" fn cf_host_opened(
    alloc: Global,
    h: &mut CfHandle,
    ticket: u64,
    plan: &mut CfHandle,
    room: u16,
    is_flow: u32,
    notes: &[CfNote],
) -> u32
    ensures { HandleDoes (OpensBehind plan.old.inner.held plan.new.inner.held ticket room is_flow notes.now)
        h.old h.new result }
{
    ask!(alloc, h, held => answering::open_behind(alloc, &mut held, ticket, plan, room, is_flow, notes))
}

/// These entries stand behind the place that was asked for.
#[unsafe(no_mangle)]
pub extern "C" fn cf_host_read(
    alloc: Global,
    h: &mut CfHandle,
    now: u64,
    ticket: u64,
    entries: &[CfNoted],
) -> u32
    ensures { HandleDoes (OfHost (TakesRows now ticket entries.now)) h.old h.new result }
{
    ask!(alloc, h, held => answering::read(alloc, &mut held, now, ticket, entries))
}

/// All sessions' beats, and what the store's clock shows.
#[unsafe(no_mangle)]
pub extern "C" fn cf_host_beats(
    alloc: Global,
    h: &mut CfHandle,
    now: u64,
    ticket: u64,
    clock: u64,
    beats: &[CfHostBeat],
) -> u32
    ensures { HandleDoes (OfHost (TakesBeats now ticket clock beats.now)) h.old h.new result }
{
    ask!(alloc, h, held => answering::beats(alloc, &mut held, now, ticket, clock, beats))
}

/// How many words requests have, up to a mark.
#[unsafe(no_mangle)]
pub extern "C" fn cf_host_news(
    alloc: Global,
    h: &mut CfHandle,
    now: u64,
    ticket: u64,
    mark: u64,
    requests: &[CfHostLength],
) -> u32
    ensures { HandleDoes (OfHost (TakesNews now ticket mark requests.now)) h.old h.new result }
{
    ask!(alloc, h, held => answering::news(alloc, &mut held, now, ticket, mark, requests))
}

/// An answer that has no list.
#[unsafe(no_mangle)]
pub extern "C" fn cf_host_answered(
    alloc: Global,
    h: &mut CfHandle,
    now: u64,
    ticket: u64,
    answer: u32,
) -> u32
    ensures { HandleDoes (OfHost (TakesPlain (plain_numbered answer) now ticket)) h.old h.new result }
{
    ask!(alloc, h, held => answering::answer(&mut held, now, ticket, answer))
}

/// A function has ended.
#[unsafe(no_mangle)]
pub extern "C" fn cf_host_ended(
    alloc: Global,
    h: &mut CfHandle,
    ticket: u64,
    kind: u32,
    code: u32,
    stage: u16,
) -> u32
    ensures { HandleDoes (OfHost (TakesEnd (ends_of kind code stage) ticket)) h.old h.new result }
{
    ask!(alloc, h, held => answering::ended(&mut held, ticket, kind, code, stage))
}

/// What a stage of a request is, by what the host has seen.
#[unsafe(no_mangle)]
pub extern "C" fn cf_host_stage(
    alloc: Global,
    h: &mut CfHandle,
    request: u64,
    stage: u16,
    now: &mut CfStage,
) -> u32
    ensures { HandleTells (OfHost (OfHostPart (TellsPartStage stage) request)) h.old h.new result now.old now.new }
{
    tell!(alloc, h, now, held => asking::stage(&mut held, request, stage))
}

/// How much the host has seen of a request.
#[unsafe(no_mangle)]
pub extern "C" fn cf_host_seen(
    alloc: Global,
    h: &mut CfHandle,
    request: u64,
    seen: &mut CfHostView,
) -> u32
    ensures { HandleTells (OfHost (OfHostPart TellsView request)) h.old h.new result seen.old seen.new }
{
    tell!(alloc, h, seen, held => asking::view(&mut held, request))
}
