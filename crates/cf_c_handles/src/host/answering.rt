//! The answers of a store to a host, and the ends of functions.
ghost use Rattle.std.specs.Prelude.{◌≡◌, IfErr, OnErr, OnOk};
ghost use Rattle.cf_c_handles.specs.HostAnswers.{DoesPlain, FitsPlain, IsPlainNo, OpensBehind, OpensOf, OpensPlan, TakesBeats, TakesEnd, TakesNews, TakesPlain, TakesRows, plain_numbered, taken_as};
ghost use Rattle.cf_c_handles.specs.HostValues.{ends_of};
ghost use Rattle.cf_c_handles.specs.Hosts.{OfHost};

use crate::code::Code;
use crate::handle::CfHandle;
use crate::handle::object::Object;
use crate::host::answer_code;
use crate::host::calling::of_host;
use crate::values::host::ends_of;
use crate::values::host::rows::{
    CfHostBeat, CfHostLength, CfNote, CfNoted, beats_of, entries_of, lengths_of, notes_in, notes_of,
};
use cf_host::{Host, NoAnswer};
use cf_notes::EndsWith;
use cf_plan::Plan;
use std::alloc::Global;

/// The answers that have no list.
#[derive(Clone, Copy)]
pub enum Plain {
    Stands,
    Closed,
    NotClosed,
    Unknown,
    Refused,
    Dropped,
}

/// Whether an answer was taken, or the code of why it wasn't.
fn taken_as(done: Result<(), NoAnswer>) -> Result<(), Code>
    ensures { result ≡ taken_as done }
{
    match done {
        Ok(()) => Ok(()),
        Err(why) => Err(answer_code(why)),
    }
}

/// The store has a request with the plan that stands behind another handle.
pub fn open_behind(
    alloc: Global,
    held: &mut Object,
    ticket: u64,
    plan: &mut CfHandle,
    room: u16,
    is_flow: u32,
    notes: &[CfNote],
) -> Result<(), Code>
    ensures { OpensBehind plan.old.inner.held plan.new.inner.held ticket room is_flow notes.now held.old result held.new }
{
    match plan.take(alloc) {
        None => Err(Code::Empty),
        Some(given) => {
            let done = open_of(alloc, held, ticket, &given, room, is_flow, notes);
            plan.put(given);
            done
        }
    }
}

/// The same with what stands there.
fn open_of(
    alloc: Global,
    held: &mut Object,
    ticket: u64,
    given: &Object,
    room: u16,
    is_flow: u32,
    notes: &[CfNote],
) -> Result<(), Code>
    ensures { OpensOf given.now ticket room is_flow notes.now held.old result held.new }
{
    let Object::Plan(plan) = given else {
        return Err(Code::WrongKind);
    };
    of_host!(held, host => open_in(alloc, host, ticket, plan, room, is_flow, notes))
}

/// The same with a plan.
fn open_in(
    alloc: Global,
    host: &mut Host,
    ticket: u64,
    plan: &Plan,
    room: u16,
    is_flow: u32,
    notes: &[CfNote],
) -> Result<(), Code>
    ensures { OpensPlan plan.now ticket room is_flow notes.now host.old result host.new }
{
    if !plan.has_place(room) {
        return Err(Code::Room);
    }
    let notes = notes_of(alloc, notes)?;
    taken_as(host.opened(ticket, plan, notes.as_slice(), room, is_flow != 0))
}

/// These entries stand behind the place that was asked for.
pub fn read(
    alloc: Global,
    held: &mut Object,
    now: u64,
    ticket: u64,
    rows: &[CfNoted],
) -> Result<(), Code>
    ensures { OfHost (TakesRows now ticket rows.now) held.old result held.new }
{
    of_host!(held, host => read_in(alloc, host, now, ticket, rows))
}

fn read_in(
    alloc: Global,
    host: &mut Host,
    now: u64,
    ticket: u64,
    rows: &[CfNoted],
) -> Result<(), Code>
    ensures { TakesRows now ticket rows.now host.old result host.new }
{
    let notes = notes_in(alloc, rows)?;
    let entries = entries_of(alloc, rows)?;
    taken_as(host.entries(now, ticket, entries.as_slice(), notes.as_slice()))
}

/// All sessions' beats, and what the store's clock shows.
pub fn beats(
    alloc: Global,
    held: &mut Object,
    now: u64,
    ticket: u64,
    clock: u64,
    beats: &[CfHostBeat],
) -> Result<(), Code>
    ensures { OfHost (TakesBeats now ticket clock beats.now) held.old result held.new }
{
    of_host!(held, host => beats_in(alloc, host, now, ticket, clock, beats))
}

fn beats_in(
    alloc: Global,
    host: &mut Host,
    now: u64,
    ticket: u64,
    clock: u64,
    beats: &[CfHostBeat],
) -> Result<(), Code>
    ensures { TakesBeats now ticket clock beats.now host.old result host.new }
{
    let beats = beats_of(alloc, beats)?;
    taken_as(host.beats(now, ticket, beats.as_slice(), clock))
}

/// How many words requests have, up to a mark.
pub fn news(
    alloc: Global,
    held: &mut Object,
    now: u64,
    ticket: u64,
    mark: u64,
    lengths: &[CfHostLength],
) -> Result<(), Code>
    ensures { OfHost (TakesNews now ticket mark lengths.now) held.old result held.new }
{
    of_host!(held, host => news_in(alloc, host, now, ticket, mark, lengths))
}

fn news_in(
    alloc: Global,
    host: &mut Host,
    now: u64,
    ticket: u64,
    mark: u64,
    lengths: &[CfHostLength],
) -> Result<(), Code>
    ensures { TakesNews now ticket mark lengths.now host.old result host.new }
{
    let lengths = lengths_of(alloc, lengths)?;
    taken_as(host.news(now, ticket, lengths.as_slice(), mark))
}

/// An answer that has no list, by its number.
pub fn answer(held: &mut Object, now: u64, ticket: u64, number: u32) -> Result<(), Code>
    ensures { OfHost (TakesPlain (plain_numbered number) now ticket) held.old result held.new }
{
    let plain = plain_numbered(number);
    of_host!(held, host => answer_in(host, plain, now, ticket))
}

fn answer_in(host: &mut Host, plain: Option<Plain>, now: u64, ticket: u64) -> Result<(), Code>
    ensures { TakesPlain plain now ticket host.old result host.new }
{
    let Some(plain) = plain else {
        return Err(Code::NoSuchNumber);
    };
    taken_as(tell(host, plain, now, ticket))
}

/// The same of a number that there is.
fn tell(host: &mut Host, plain: Plain, now: u64, ticket: u64) -> Result<(), NoAnswer>
    ensures ok { OnOk result (DoesPlain plain now host.old ticket host.new) }
    ensures why { IfErr result (λ why. IsPlainNo (FitsPlain plain) host.old ticket why) }
    ensures err { OnErr result (host.new ≡ host.old) }
{
    match plain {
        Plain::Stands => host.stands(ticket),
        Plain::Closed => host.closed(ticket, true),
        Plain::NotClosed => host.closed(ticket, false),
        Plain::Unknown => host.unknown(now, ticket),
        Plain::Refused => host.refused(now, ticket),
        Plain::Dropped => host.dropped(ticket),
    }
}

/// The answer of a number.
fn plain_numbered(number: u32) -> Option<Plain>
    ensures { result ≡ plain_numbered number }
{
    match number {
        0 => Some(Plain::Stands),
        1 => Some(Plain::Closed),
        2 => Some(Plain::NotClosed),
        3 => Some(Plain::Unknown),
        4 => Some(Plain::Refused),
        5 => Some(Plain::Dropped),
        _ => None,
    }
}

/// A function has ended, and came to this.
pub fn ended(held: &mut Object, ticket: u64, kind: u32, code: u32, stage: u16) -> Result<(), Code>
    ensures { OfHost (TakesEnd (ends_of kind code stage) ticket) held.old result held.new }
{
    let ends = ends_of(kind, code, stage);
    of_host!(held, host => ended_in(host, ends, ticket))
}

fn ended_in(host: &mut Host, ends: Result<EndsWith, Code>, ticket: u64) -> Result<(), Code>
    ensures { TakesEnd ends ticket host.old result host.new }
{
    let answer = ends?;
    taken_as(host.ended(ticket, answer))
}
