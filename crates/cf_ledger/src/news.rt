//! Which stages each event changed, as lists of one row.
ghost use Rattle.std.specs.Prelude.{◌≡◌, ◌+◌, ◌<◌, ◌≤◌, [], None, OnErr, OnOk, Some, length, position, slice_get};
ghost use Rattle.cf_model.specs.Events.{answered, claiming, finishing};
ghost use Rattle.cf_model.specs.Ranges.{EventFits};
ghost use Rattle.cf_ledger.specs.News.{AreEnds, WritesList, begin_of, parts};

use crate::rows::make_room;
use cf_bits::BitSet;
use cf_core::Graph;
use cf_forms::Answer;
use cf_model::{Claimed, Event, Finished, Reply};
use std::alloc::{AllocError, Global};
use std::marker::Model;

/// Lists of stages, one behind another in one row.
///
/// A contract sees the lists, for how many stages more there is room, and for how many lists.
#[derive(Drop)]
pub struct News {
    all: Vec<u16>,
    ends: Vec<usize>,
}

impl Model for News {
    ghost use Rattle.cf_ledger.specs.News.{News};

    ghost Value = { News };

    ghost use Rattle.std.specs.Prelude.{◌-◌, length};
    ghost use Rattle.std.specs.Vec.{vec_capacity};
    ghost use Rattle.cf_ledger.specs.News.{AreEnds, parts};

    ghost view = { λ n. record {
      lists = parts 0 n.all.items n.ends.items;
      free = vec_capacity n.all - length n.all.items;
      more = vec_capacity n.ends - length n.ends.items;
    } };

    ghost invariant = { λ n. AreEnds 0 (length n.all.items) n.ends.items };
}

impl News {
    /// No list.
    pub fn new(alloc: Global) -> News
        ensures { result.lists ≡ [] }
    {
        News {
            all: Vec::new(alloc),
            ends: Vec::new(alloc),
        }
    }

    /// Finds room for so many lists more, of so many stages in all. It fails only where there is no memory, and changes
    /// no list. Where the room is there, it does nothing.
    #[inline(always)]
    pub fn reserve(&mut self, lists: usize, count: usize) -> Result<(), AllocError>
        ensures free { OnOk result (count ≤ self.new.free) }
        ensures more { OnOk result (lists ≤ self.new.more) }
        ensures same { self.new.lists ≡ self.old.lists }
        ensures enough { OnErr result (lists ≤ self.old.more → self.old.free < count) }
        ensures kept_free { self.old.free ≤ self.new.free }
        ensures kept_more { self.old.more ≤ self.new.more }
        ensures still { lists ≤ self.old.more → count ≤ self.old.free → self.new ≡ self.old }
    {
        make_room(&mut self.all, count)?;
        make_room(&mut self.ends, lists)
    }

    /// Takes out all lists. Their room stays.
    pub fn clear(&mut self)
        ensures lists { self.new.lists ≡ [] }
        ensures kept_free { self.old.free ≤ self.new.free }
        ensures kept_more { self.old.more ≤ self.new.more }
    {
        self.all.clear();
        self.ends.clear();
    }

    /// Has a graph do an event, and writes the stages that differ then behind the others, as a list of their own.
    #[inline(always)]
    pub fn note(&mut self, graph: &mut Graph, event: &Event, flags: &mut BitSet) -> Reply
        requires fits { EventFits (length graph.old.state.plan.stages) event.now }
        requires worked_out { graph.old.left ≡ None }
        requires unset { position (λ b. b) flags.old ≡ None }
        requires flags { length flags.old ≡ length graph.old.state.plan.stages + graph.old.state.plan.room }
        requires free { length flags.old ≤ self.old.free }
        requires more { 0 < self.old.more }
        ensures told { (result, graph.new.state) ≡ answered graph.old.state event.now }
        ensures lists { WritesList graph.old.state.stages graph.new.state.stages self.old.lists self.new.lists }
        ensures free { self.old.free ≤ self.new.free + length flags.old }
        ensures more { self.old.more ≤ self.new.more + 1 }
        ensures unset { position (λ b. b) flags.new ≡ None }
        ensures flags { length flags.new ≡ length flags.old }
        ensures worked_out { graph.new.left ≡ None }
    {
        let reply = graph.answer_telling(event, flags, &mut self.all);
        let end = self.all.len();
        self.ends.push_reserved(end);
        reply
    }

    /// The same of a claim.
    #[inline(always)]
    pub fn note_claim(&mut self, graph: &mut Graph, who: u8, stage: u16) -> Claimed
        requires there { stage < length graph.old.state.plan.stages }
        requires all_stages { length graph.old.state.stages ≡ length graph.old.state.plan.stages }
        requires worked_out { graph.old.left ≡ None }
        requires free { 0 < self.old.free }
        requires more { 0 < self.old.more }
        ensures told { (result, graph.new.state) ≡ claiming graph.old.state who stage }
        ensures lists { WritesList graph.old.state.stages graph.new.state.stages self.old.lists self.new.lists }
        ensures free { self.old.free ≤ self.new.free + length graph.old.state.plan.stages }
        ensures more { self.old.more ≤ self.new.more + 1 }
        ensures worked_out { graph.new.left ≡ None }
    {
        let told = graph.claim_telling(who, stage, &mut self.all);
        let end = self.all.len();
        self.ends.push_reserved(end);
        told
    }

    /// The same of a finish.
    #[inline(always)]
    pub fn note_finish(
        &mut self,
        graph: &mut Graph,
        who: u8,
        stage: u16,
        answer: Answer,
    ) -> Finished
        requires there { stage < length graph.old.state.plan.stages }
        requires worked_out { graph.old.left ≡ None }
        requires free { length graph.old.state.plan.stages ≤ self.old.free }
        requires more { 0 < self.old.more }
        ensures told { (result, graph.new.state) ≡ finishing graph.old.state who stage answer }
        ensures free { self.old.free ≤ self.new.free + length graph.old.state.plan.stages }
        ensures more { self.old.more ≤ self.new.more + 1 }
        ensures lists { WritesList graph.old.state.stages graph.new.state.stages self.old.lists self.new.lists }
        ensures worked_out { graph.new.left ≡ None }
    {
        let told = graph.finish_telling(who, stage, answer, &mut self.all);
        let end = self.all.len();
        self.ends.push_reserved(end);
        told
    }

    /// The list at a place.
    pub fn at(&self, place: usize) -> &[u16]
        requires { place < length self.now.lists }
        ensures { slice_get self.now.lists place ≡ Some result.now }
    {
        part(&self.all, &self.ends, place)
    }
}

/// The list at a place of a row, by the places where the lists end.
#[tactic(auto, using(crate::proofs::Parts::part_within, crate::proofs::Parts::part_at))]
fn part<'a>(all: &'a [u16], ends: &[usize], place: usize) -> &'a [u16]
    requires ends { AreEnds 0 (length all.now) ends.now }
    requires place { place < length ends.now }
    ensures { slice_get (parts 0 all.now ends.now) place ≡ Some result.now }
{
    let from = begin_at(ends, place);
    let end = ends[place];
    &all[from..end]
}

/// Where the list at a place begins.
#[tactic(auto, using(crate::proofs::Parts::begins))]
fn begin_at(ends: &[usize], place: usize) -> usize
    requires { place < length ends.now }
    ensures { result ≡ begin_of 0 ends.now place }
{
    if place == 0 { 0 } else { ends[place - 1] }
}
