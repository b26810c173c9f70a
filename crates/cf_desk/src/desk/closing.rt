//! How a desk is closed.
ghost use Rattle.std.specs.Prelude.{◌≡◌, ◌+◌, ◌<◌, ◌≤◌, ◌++◌, ◌∷◌, [], All, IsOkAnd, map, vec_capacity, vec_len};
ghost use Rattle.std.specs.Mem.Slots.{IsFull, slots_items, slots_len};
ghost use Rattle.cf_event.specs.Decoding.{decoded, event_of};
ghost use Rattle.cf_desk.specs.Closings.{HoldsAllEvents, PassesFit, ShowsOneHistory, ToldOneHistory};
ghost use Rattle.cf_desk.specs.Keepings.{AreKept, IsCallers, IsFit, pass_did, pass_kept};
ghost use Rattle.cf_desk.specs.Views.{Closes, IsAt, IsLatestOf, knowns, place_in, state_in};

use crate::calls::{Closed, Kept};
use crate::desk::{Desk, Row};
use crate::faults::CloseFault;
use crate::pass::Pass;
use crate::row::{SeatView, Sits, StandsForBoth};
use atomic_table::Seat;
use cf_core::Graph;
use cf_event::{claim_of, completing_of, decode, giving_of};
use cf_forms::Answer;
use cf_model::Event;
use cf_outcome::Value;
use std::alloc::Global;
use std::mem;

impl Desk {
    /// Takes the desk apart. It takes all its passes, each once, in any order. It answers all events in their one order,
    /// the callers and records of the passes in the order in which they were given, and the graph as all events leave it.
    /// It never fails. What all callers were told is one history.
    pub fn close(self, passes: Vec<Pass>) -> Result<Closed, CloseFault>
        requires table { All (IsAt self) passes.items }
        requires all { vec_len passes ≡ self.setting.callers }
        ensures history { IsOkAnd result (λ closed. Closes self passes.items closed.history.items) }
        ensures passes { IsOkAnd result (λ closed. AreKept closed.passes.items passes.items) }
        ensures fit { IsOkAnd result (PassesFit self.setting.plan) }
        ensures graph { IsOkAnd result (HoldsAllEvents self.setting.plan) }
        ensures one { IsOkAnd result (ToldOneHistory self.setting.plan self.setting.functions) }
        ensures shows { IsOkAnd result (ShowsOneHistory self.setting.plan) }
    {
        let Desk {
            table,
            terms,
            history,
            kept,
        } = self;
        let (seat, graph, kept) = gather(&table, passes, kept);
        let closed = table.close_with(seat);
        let history = decode_row(&closed, terms.words, history);
        closed.free();
        Ok(Closed {
            history,
            passes: kept,
            graph,
        })
    }
}

/// Joins the seats of all passes, of which there is one at least, and finds the replica that has seen most.
fn gather(
    row: &Row,
    passes: Vec<Pass>,
    mut kept: Vec<Kept>,
) -> (Seat<u8, SeatView>, Graph, Vec<Kept>)
    requires some { 0 < vec_len passes }
    requires table { (0 < row.now.shared.table_id.words) × All (λ p. p.table ≡ row.now.shared.table_id) passes.items }
    requires kept { (kept.items ≡ []) × (vec_len passes ≤ vec_capacity kept) }
    ensures seat { (result.0.table_id ≡ row.now.shared.table_id) × (result.0.me ≡ (knowns passes.items, [])) }
    ensures replica { IsLatestOf passes.items result.1.state }
    ensures kept { AreKept result.2.items passes.items }
    ensures callers { All IsCallers passes.items }
    ensures fit { All IsFit passes.items }
{
    let mut seat = row.shared.load_new_seat::<Sits>(0).1;
    let mut rest = passes.into_iter();
    let Some(first) = rest.next() else {
        unreachable!()
    };
    let (mut latest, mut most) = take_apart(row, first, &mut seat, &mut kept);
    'next: while let Some(pass) = rest.next() {
        let (replica, count) = take_apart(row, pass, &mut seat, &mut kept);
        keep_later(&mut latest, most, replica, count);
        most = most.max(count);
    }
    (seat, latest, kept)
}

/// Joins the seat of a pass to another, and keeps its caller and records. It gives its replica, with how many events that
/// has seen.
fn take_apart(
    row: &Row,
    pass: Pass,
    seat: &mut Seat<u8, SeatView>,
    kept: &mut Vec<Kept>,
) -> (Graph, u16)
    requires words { 0 < row.now.shared.table_id.words }
    requires table { (pass.table ≡ row.now.shared.table_id) × (seat.old.table_id ≡ row.now.shared.table_id) }
    requires room { vec_len kept.old < vec_capacity kept.old }
    ensures table { seat.new.table_id ≡ seat.old.table_id }
    ensures seat { seat.new.me ≡ (seat.old.me.0 ++ pass.known ∷ [], seat.old.me.1) }
    ensures kept { map pass_kept kept.new.items ≡ map pass_kept kept.old.items ++ pass_did pass ∷ [] }
    ensures room { (vec_len kept.new ≡ vec_len kept.old + 1) × (vec_capacity kept.new ≡ vec_capacity kept.old) }
    ensures replica { (result.0.state ≡ state_in pass) × (result.1 ≡ place_in pass) }
    ensures caller { IsCallers pass }
    ensures fit { IsFit pass }
{
    let Pass {
        seat: other,
        caller,
        count,
        functions: _,
        replica,
        records,
        calls: _,
        padding: _,
    } = pass;
    row.shared.join_seat::<StandsForBoth>(seat, other);
    kept.push_reserved(Kept { caller, records });
    (replica, count)
}

/// Keeps of two replicas the one that has seen more.
fn keep_later(latest: &mut Graph, most: u16, mine: Graph, count: u16)
    ensures newer { most < count → latest.new ≡ mine }
    ensures older { count ≤ most → latest.new ≡ latest.old }
{
    if count <= most {
        return;
    }
    drop(mem::replace(latest, mine));
}

/// Reads the events of the filled words.
fn decode_row(
    row: &atomic_table::Closed<u8, Global>,
    words: u16,
    mut history: Vec<Event>,
) -> Vec<Event>
    requires row { IsFull row.now.words × (words ≡ slots_len row.now.words) }
    requires history { (history.items ≡ []) × (words ≤ vec_capacity history) }
    ensures { result.items ≡ decoded (slots_items row.now.words) }
{
    for place in 0..words {
        match event_in(row.word(place as usize)) {
            None => return history,
            Some(event) => history.push_reserved(event),
        }
    }
    history
}

/// The event of a word, or nothing where the word is no event's. Claims, finishes that give a value, and completions with a
/// number are nearly all words, and are told apart by a comparison or two each.
#[inline(always)]
fn event_in(word: u64) -> Option<Event>
    ensures { result ≡ event_of word }
{
    if let Some((who, stage)) = claim_of(word) {
        return Some(Event::Claim { who, stage });
    }
    if let Some((who, stage, v)) = giving_of(word) {
        let answer = Answer::Give(v);
        return Some(Event::Finish { who, stage, answer });
    }
    if let Some((who, stage, number)) = completing_of(word) {
        let value = Value::Int(number);
        return Some(Event::Complete { who, stage, value });
    }
    decode(word)
}
