//! The calls that make single steps on the row.
ghost use Rattle.std.specs.Prelude.{◌≡◌, ◌<◌, ◌≤◌, ◌∷◌, [], IfSome, length, MatchBool, MatchOption};
ghost use Rattle.cf_model.specs.Ranges.{EventFits};
ghost use Rattle.cf_event.specs.Decoding.{event_of};
ghost use Rattle.cf_desk.specs.Faults.{HasRoom};
ghost use Rattle.cf_desk.specs.Log.{AreLogged};
ghost use Rattle.cf_desk.specs.Views.{AddedByOther, AddedOwn, IsAt, IsOne, IsOwnEvent, IsRedone, Levelled, and_looks, known_at, place_in, state_of, state_up_to};

use crate::calls::Rec;
use crate::desk::Desk;
use crate::pass::Pass;
use crate::row::{Adds, Finds, KeepsFirst, Levels, Looks, SeatView, Sits, StandsForBoth};
use atomic_table::Seat;
use cf_core::Graph;
use cf_event::{apply, claim_of, completing_of, decode, encode, giving_of};
use cf_forms::Answer;
use cf_model::{Call, Event, Reply, event_by};
use cf_outcome::Value;
use std::mem;

/// Does the event of another caller's word to a replica, and says whether the word is one. It is a call of its own: with
/// the graph's answer to an event of any kind in it `act` would be too large to stand in its callers' code. Claims, finishes
/// that give a value, and completions with a number are nearly all words, and are told apart by a comparison or two each.
#[inline(never)]
fn redo(replica: &mut Graph, word: u64) -> bool
    requires { IfSome (event_of word) (λ e. EventFits (length replica.old.state.plan.stages) e) }
    ensures { IsRedone word replica.old result replica.new }
{
    if let Some((who, stage)) = claim_of(word) {
        replica.claim(who, stage);
        return true;
    }
    if let Some((who, stage, v)) = giving_of(word) {
        replica.finish(who, stage, Answer::Give(v));
        return true;
    }
    if let Some((_, stage, number)) = completing_of(word) {
        replica.complete(stage, Value::Int(number));
        return true;
    }
    match decode(word) {
        None => false,
        Some(event) => {
            apply(replica, &event);
            true
        }
    }
}

/// The same, without that call where the word is 0, as one that was free is.
#[inline(always)]
#[tactic(auto, using(cf_event::proofs::WordLemmas::event_of_zero))]
fn is_redone(replica: &mut Graph, word: u64) -> bool
    requires { IfSome (event_of word) (λ e. EventFits (length replica.old.state.plan.stages) e) }
    ensures { IsRedone word replica.old result replica.new }
{
    if word == 0 {
        return false;
    }
    redo(replica, word)
}

impl Desk {
    /// One exchange of the next word for that of the pass's call. It gives the reply where it was won.
    #[inline(always)]
    pub(crate) fn add(&self, p: &mut Pass, call: Call) -> Option<Reply>
        requires table { IsAt self.now p.old }
        requires room { place_in p.old < self.now.words }
        requires call { HasRoom p.old }
        requires event { IsOwnEvent p.old call }
        ensures { MatchOption result (AddedByOther p.old p.new) (λ reply. AddedOwn p.old call reply p.new) }
    {
        let event = event_by(p.caller, call);
        let word = encode(&event);
        let place = p.count as usize;
        let found = self
            .table
            .shared
            .compare_exchange::<Adds>(&mut p.seat, place, 0, word);
        p.count += 1;
        if is_redone(&mut p.replica, found) {
            return None;
        }
        let reply = apply(&mut p.replica, &event);
        let record = Rec::Did {
            place: p.count,
            call,
            reply,
        };
        p.records.push_reserved(record);
        Some(reply)
    }

    /// One load of the next word. It answers whether an event was there.
    pub(crate) fn look(&self, p: &mut Pass) -> bool
        requires table { IsAt self.now p.old }
        requires room { place_in p.old < self.now.words }
        ensures { MatchBool result (AddedByOther p.old p.new) (p.new ≡ and_looks p.old (place_in p.old ∷ [])) }
    {
        let place = p.count as usize;
        let word = self.table.shared.load::<Looks>(&mut p.seat, place);
        if is_redone(&mut p.replica, word) {
            p.count += 1;
            true
        } else {
            false
        }
    }

    /// Lets two seats know the longer of what they have seen.
    pub(crate) fn level(&self, p: &mut Seat<u8, SeatView>, q: &mut Seat<u8, SeatView>)
        requires table { (p.old.table_id ≡ self.now.table) × (q.old.table_id ≡ self.now.table) }
        requires one { IsOne p.old.me × IsOne q.old.me }
        ensures table { (p.new.table_id ≡ self.now.table) × (q.new.table_id ≡ self.now.table) }
        ensures level { Levelled p.old.me q.old.me p.new.me q.new.me }
    {
        let spare = self.table.shared.load_new_seat::<Sits>(0).1;
        let other = mem::replace(q, spare);
        self.table.shared.join_seat::<StandsForBoth>(p, other);
        self.table.shared.load::<Levels>(p, 0);
        *q = self.table.shared.split_seat::<KeepsFirst>(p);
    }

    /// Loads the places that the seat knows from `from` up to `to`, and brings the replica up to there.
    pub(crate) fn catch_up(
        &self,
        seat: &mut Seat<u8, SeatView>,
        replica: &mut Graph,
        from: u16,
        to: u16,
    )
        requires table { seat.old.table_id ≡ self.now.table }
        requires one { IsOne seat.old.me }
        requires places { (from ≤ to) × (to ≡ length (known_at seat.old.me).seen) × (to ≤ seat.old.table_id.words) }
        requires events { AreLogged (known_at seat.old.me).setting (known_at seat.old.me).seen }
        requires replica { replica.old.state ≡ state_up_to from (known_at seat.old.me) }
        ensures same { (seat.new.table_id ≡ seat.old.table_id) × (seat.new.me ≡ seat.old.me) }
        ensures replica { replica.new.state ≡ state_of (known_at seat.old.me) }
    {
        for place in from..to {
            let word = self.table.shared.load::<Finds>(seat, place as usize);
            match decode(word) {
                None => unreachable!(),
                Some(event) => {
                    apply(replica, &event);
                }
            }
        }
    }
}
