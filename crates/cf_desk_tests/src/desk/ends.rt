//! What a closed desk has, as rows.
use crate::checks::holds;
use cf_desk::{Call, Closed, Kept, Rec};
use cf_model::{Event, Reply};
use std::process::Abort;

/// What a desk has once it is closed.
#[derive(Clone, Copy)]
pub(crate) enum End {
    /// So many events.
    Events(usize),
    History(&'static [Event]),
    /// The pass that was handed in at this place has these records.
    Records(usize, &'static [Rec]),
    /// It has so many records.
    Keeps(usize, usize),
    /// The last record of the pass at this place is of a cancel of stage 0 that was answered false.
    EndsWithRefusedCancel(usize),
    /// So many calls of all passes were replied this.
    Replied(Reply, usize),
    /// So many calls are kept by the passes that keep the first of those that the first and the second were to make.
    InOrder(&'static [Call], &'static [Call], usize),
    /// The graph has so many stages.
    Stages(u16),
    /// The graph took so many turns.
    Turns(u64),
    /// The graph is to take so many turns more, and takes so many.
    Nudge(u32, u32),
}

/// Whether a closed desk has this.
fn is_so(closed: &mut Closed, end: End) -> bool {
    match end {
        End::Events(count) => closed.history.len() == count,
        End::History(events) => closed.history.as_slice() == events,
        End::Records(place, records) => records_at(closed, place) == records,
        End::Keeps(place, count) => records_at(closed, place).len() == count,
        End::EndsWithRefusedCancel(place) => ends_with_refused_cancel(records_at(closed, place)),
        End::Replied(reply, count) => replied_to_all(closed, reply) == count,
        End::InOrder(firsts, seconds, count) => calls_in_order(closed, &[firsts, seconds]) == count,
        End::Stages(count) => closed.graph.stages() == count,
        End::Turns(count) => closed.graph.turns() == count,
        End::Nudge(wanted, taken) => closed.graph.nudge(wanted) == taken,
    }
}

/// A closed desk has all of this.
pub(crate) fn check_ends(rt: &impl Abort, closed: &mut Closed, name: &'static str, ends: &[End]) {
    for (at, end) in ends.iter().enumerate() {
        holds(rt, is_so(closed, *end), (name, "end", at));
    }
}

/// The records of the pass that was handed in at this place.
fn records_at(closed: &Closed, place: usize) -> &[Rec] {
    match closed.passes.get(place) {
        Some(kept) => kept.records.as_slice(),
        None => &[],
    }
}

/// Whether an event is this call of this caller.
fn is_by(event: &Event, caller: u8, call: Call) -> bool {
    event.who() == caller && Call::of(event) == call
}

/// The place of a record of this call, or 0 where it is of another one, or another event stands there.
fn place_of(history: &[Event], caller: u8, record: &Rec, called: Call) -> u16 {
    match *record {
        Rec::Did { place, call, .. } => {
            match history.get(place.wrapping_sub(1) as usize) {
                Some(event) if call == called && is_by(event, caller, call) => place,
                _ => 0,
            }
        }
        Rec::Saw { .. } => 0,
    }
}

/// Whether the calls that a pass keeps are the first of these, at rising places of the history.
fn is_in_order(history: &[Event], kept: &Kept, calls: &[Call]) -> bool {
    let mut last = 0;
    for (at, record) in kept.records.iter().enumerate() {
        let Some(call) = calls.get(at) else {
            return false;
        };
        let place = place_of(history, kept.caller, record, *call);
        if place <= last {
            return false;
        }
        last = place;
    }
    true
}

/// How many calls are kept by the passes that keep the first of those that each was to make.
pub(crate) fn calls_in_order(closed: &Closed, calls: &[&[Call]]) -> usize {
    let mut count = 0usize;
    for (kept, calls) in closed.passes.iter().zip(calls) {
        if is_in_order(&closed.history, kept, calls) {
            count = count.wrapping_add(kept.records.len());
        }
    }
    count
}

/// How many calls of a pass were replied this.
fn replied(kept: &Kept, answer: Reply) -> usize {
    let mut count = 0usize;
    for record in &kept.records {
        if let Rec::Did { reply, .. } = record
            && *reply == answer
        {
            count = count.wrapping_add(1);
        }
    }
    count
}

/// How many calls of all passes were.
pub(crate) fn replied_to_all(closed: &Closed, answer: Reply) -> usize {
    let mut count = 0usize;
    for kept in &closed.passes {
        count = count.wrapping_add(replied(kept, answer));
    }
    count
}

/// Whether the last record is of a cancel that was answered false.
fn ends_with_refused_cancel(records: &[Rec]) -> bool {
    match records.last() {
        Some(Rec::Did { call, reply, .. }) => {
            *call == Call::Cancel(0) && *reply == Reply::Flag(false)
        }
        _ => false,
    }
}
