//! A ledger that keeps which stages were settled and not yet taken.
ghost use Rattle.std.specs.Prelude.{◌≡◌, ◌↔◌, ℕ, ◌+◌, ◌≤◌, ◌<◌, ◌∷◌, ◌++◌, [], All, Contains, cond, IfErr, IfNone, IfOk, IfSome, IsTrue, OnErr, OnOk, drop, false, length, take, true, vec_capacity};
ghost use Rattle.std.specs.List.{filter};
ghost use Rattle.cf_forms.specs.Plans.{has_place, with_room};
ghost use Rattle.cf_model.specs.Calls.{is_attach};
ghost use Rattle.cf_model.specs.States.{is_ready, outcome_at, outcome_of, start};
ghost use Rattle.cf_model.specs.Ranges.{EventFits};
ghost use Rattle.cf_event.specs.Decoding.{event_of};
ghost use Rattle.cf_event.specs.Words.{IsEvent, word_of};
ghost use Rattle.cf_ledger.specs.Ledgers.{AreTaken, IsShort, LedgerRefuses, roomier, stages_of, state_of, with_more};
ghost use Rattle.cf_request.specs.Lanes.{IsLowestIn, NothingIsReady, ready_in};
ghost use Rattle.cf_request.specs.Ready.{AreFitBut, FitState, HasLanes, IsFit, IsLane, IsLaneCount};
ghost use Rattle.cf_request.specs.Telling.{AreFresh, AreSettled, AreSettledBelow, IsOnce, TellsEvent, TellsWord, answers_attach, is_settled_in, most_stages, order_in, with_memory};

use crate::ready::ReadySets;
use cf_event::encode;
use cf_forms::Answer;
use cf_ledger::{Event, Ledger, LedgerFault, Reply, Stage};
use cf_model::{Claimed, Finished};
use cf_outcome::Outcome;
use cf_plan::Plan;
use std::alloc::{AllocError, Global};
use std::marker::Model;
use std::mem;

/// A ledger, with all stages that were settled, in order, how many of these its host has taken, and the ready stages of
/// each lane.
///
/// The row of settled stages has room for all stages that there may ever be.
#[derive(Drop)]
pub struct Teller {
    ledger: Ledger,
    order: Vec<u16>,
    count: usize,
    lanes: ReadySets,
}

impl Model for Teller {
    ghost use Rattle.cf_request.specs.Telling.{Teller};

    ghost Value = { Teller };

    ghost use Rattle.std.specs.Prelude.{drop, length, take, vec_capacity};
    ghost use Rattle.cf_ledger.specs.Ledgers.{state_of};
    ghost use Rattle.cf_request.specs.Ready.{FitState};
    ghost use Rattle.cf_request.specs.Telling.{IsKept};

    ghost view = { λ t. record {
      ledger = t.ledger;
      taken = take t.count t.order.items;
      told = drop t.count t.order.items;
      lanes = record { of = t.lanes.of; count = length t.lanes.sets };
    } };

    ghost invariant = { λ t. IsKept t.ledger t.order.items (vec_capacity t.order) t.count
        × FitState (state_of t.ledger) t.lanes };
}

impl Teller {
    /// The teller of a plan with room for so many stages more, whose stages have lanes of so many. Told are the stages
    /// that are settled from the start. It fails only where there is no memory.
    pub fn new(
        alloc: Global,
        plan: &Plan,
        room: u16,
        of: &[u8],
        lanes: u8,
    ) -> Result<Teller, AllocError>
        requires place { has_place plan.now.stages room ≡ true }
        requires all { length of.now ≡ length plan.now.stages }
        requires lanes { IsLaneCount lanes }
        requires there { All (λ lane. lane < lanes) of.now }
        ensures ledger { IfOk result (λ t.
            t.ledger ≡ record { plan = with_room plan.now room; events = []; free = 0 }) }
        ensures taken { IfOk result (λ t. t.taken ≡ []) }
        ensures told { IfOk result (λ t. AreFresh [] (start (with_room plan.now room)).stages t.told) }
        ensures lanes { IfOk result (λ t. t.lanes ≡ record { of = of.now; count = lanes }) }
    {
        let places = plan.stages() as usize + room as usize;
        let mut order: Vec<u16> = Vec::with_capacity(alloc, places)?;
        let mut sets = ReadySets::new(alloc, of, room, lanes)?;
        let ledger = Ledger::new(alloc, plan, room)?;
        let stages = ledger.stages();
        note_all(&ledger, stages, &mut order);
        mark_all(&ledger, stages, &mut sets);
        Ok(Teller {
            ledger,
            order,
            count: 0,
            lanes: sets,
        })
    }

    /// Finds memory for so many words. It fails only where there is no memory, and then changes nothing.
    #[inline(always)]
    pub fn reserve(&mut self, words: usize) -> Result<(), AllocError>
        ensures enough { OnOk result (words ≤ self.new.ledger.free) }
        ensures found { OnOk result (self.new ≡ with_memory words self.old) }
        ensures refused { OnErr result (self.new ≡ self.old) }
        ensures short { OnErr result (self.old.ledger.free < words) }
    {
        if words == 0 {
            return Ok(());
        }
        self.ledger.reserve(words)
    }

    /// Does a word as the ledger does; a stage that it attaches is this lane's. Told are then the stages that it settled,
    /// behind the others. It is refused as by the ledger, and leaves all as it was then.
    #[inline(always)]
    pub fn apply(&mut self, word: u64, lane: u8) -> Result<Reply, LedgerFault>
        requires { IsLane lane self.old.lanes.count }
        ensures done { IfOk result (λ reply. TellsWord lane word self.old reply self.new) }
        ensures all { OnOk result (HasLanes (state_of self.old.ledger) self.old.lanes.of) }
        ensures refused { OnErr result (self.new ≡ self.old) }
        ensures why { IfErr result (λ fault. LedgerRefuses (state_of self.old.ledger) word fault) }
        ensures short { IfErr result (λ fault. IsShort self.old.ledger.free fault) }
    {
        let reply = self.ledger.apply_other(word)?;
        let attached = answers_attach(&reply);
        let place = self.ledger.len() - 1;
        let news = self.ledger.news(place);
        self.lanes.add(attached, lane);
        note(&self.ledger, news, &mut self.order, &mut self.lanes);
        Ok(reply)
    }

    /// Does an event that fits and attaches nothing, by its word, where memory was found for one.
    #[inline(always)]
    #[tactic(auto, using(crate::proofs::Words::event_told))]
    pub fn apply_event(&mut self, event: &Event) -> Reply
        requires is { stages_of self.old.ledger ≤ 4096 → IsEvent event.now }
        requires fits { EventFits (stages_of self.old.ledger) event.now }
        requires attaches { is_attach event.now ≡ false }
        requires memory { 0 < self.old.ledger.free }
        ensures { TellsEvent event.now self.old result self.new }
    {
        // The word is made before the ledger is asked, and only here is it known that no stage's number is above 4,095.
        let _ = &self.ledger;
        match self.apply(encode(event), 0) {
            Ok(reply) => reply,
            Err(_) => unreachable!(),
        }
    }

    /// Does a claim as the ledger does, whose word this is, where memory was found for one.
    #[inline(always)]
    pub fn claim(&mut self, who: u8, stage: u16, word: u64) -> Claimed
        requires read { event_of word ≡ Some (Event.Claim who stage) }
        requires named { word_of (Event.Claim who stage) ≡ word }
        requires there { stage < stages_of self.old.ledger }
        requires memory { 0 < self.old.ledger.free }
        ensures { TellsEvent (Event.Claim who stage) self.old (Reply.Claim result) self.new }
    {
        let told = self.ledger.claim_found(who, stage, word);
        self.lanes.write(stage, is_ready(self.ledger.stage(stage)));
        told
    }

    /// Does a claim as the ledger does, whose word this is. It may refuse it.
    #[inline(always)]
    pub fn claim_word(&mut self, who: u8, stage: u16, word: u64) -> Result<Claimed, LedgerFault>
        requires read { event_of word ≡ Some (Event.Claim who stage) }
        requires named { word_of (Event.Claim who stage) ≡ word }
        ensures done { IfOk result (λ told.
            (lane : ℕ) → TellsWord lane word self.old (Reply.Claim told) self.new) }
        ensures settles_none { OnOk result (self.new.told ≡ self.old.told) }
        ensures all { OnOk result (HasLanes (state_of self.old.ledger) self.old.lanes.of) }
        ensures refused { OnErr result (self.new ≡ self.old) }
        ensures why { IfErr result (λ fault. LedgerRefuses (state_of self.old.ledger) word fault) }
        ensures short { IfErr result (λ fault. IsShort self.old.ledger.free fault) }
    {
        let told = self.ledger.claim(who, stage, word)?;
        match told {
            Claimed::Granted(_) => self.lanes.write(stage, false),
            Claimed::Settled | Claimed::Taken | Claimed::NotReady => {}
        }
        Ok(told)
    }

    /// Does a finish as the ledger does, whose word this is, where memory was found for one.
    #[inline(always)]
    pub fn finish(&mut self, who: u8, stage: u16, answer: Answer, word: u64) -> Finished
        requires read { event_of word ≡ Some (Event.Finish who stage answer) }
        requires named { word_of (Event.Finish who stage answer) ≡ word }
        requires there { stage < stages_of self.old.ledger }
        requires memory { 0 < self.old.ledger.free }
        ensures { TellsEvent (Event.Finish who stage answer) self.old (Reply.Finish result) self.new }
    {
        let told = self.ledger.finish_found(who, stage, answer, word);
        let place = self.ledger.len() - 1;
        let changed = self.ledger.news(place);
        note(&self.ledger, changed, &mut self.order, &mut self.lanes);
        told
    }

    /// Does a finish as the ledger does, whose word this is. It may refuse it.
    #[inline(always)]
    pub fn finish_word(
        &mut self,
        who: u8,
        stage: u16,
        answer: Answer,
        word: u64,
    ) -> Result<Finished, LedgerFault>
        requires read { event_of word ≡ Some (Event.Finish who stage answer) }
        requires named { word_of (Event.Finish who stage answer) ≡ word }
        ensures done { IfOk result (λ told.
            (lane : ℕ) → TellsWord lane word self.old (Reply.Finish told) self.new) }
        ensures all { OnOk result (HasLanes (state_of self.old.ledger) self.old.lanes.of) }
        ensures refused { OnErr result (self.new ≡ self.old) }
        ensures why { IfErr result (λ fault. LedgerRefuses (state_of self.old.ledger) word fault) }
        ensures short { IfErr result (λ fault. IsShort self.old.ledger.free fault) }
    {
        let told = self.ledger.finish(who, stage, answer, word)?;
        let place = self.ledger.len() - 1;
        let changed = self.ledger.news(place);
        note(&self.ledger, changed, &mut self.order, &mut self.lanes);
        Ok(told)
    }

    /// The ledger.
    #[inline(always)]
    pub fn ledger(&self) -> &Ledger
        ensures { result.now ≡ self.now.ledger }
    {
        &self.ledger
    }

    /// How many stages there are by now.
    #[inline(always)]
    pub fn stages(&self) -> u16
        ensures count { result ≡ stages_of self.now.ledger }
        ensures most { most_stages (state_of self.now.ledger) ≤ 4096 }
    {
        self.ledger.stages()
    }

    /// The outcome of a stage, if it is settled.
    #[inline(always)]
    pub fn outcome(&self, i: u16) -> Option<Outcome>
        requires there { i < stages_of self.now.ledger }
        ensures { result ≡ outcome_at (state_of self.now.ledger) i }
    {
        outcome(&self.ledger, i)
    }

    /// How many lanes there are.
    #[inline(always)]
    pub fn lanes(&self) -> u8
        ensures count { result ≡ self.now.lanes.count }
        ensures few { IsLaneCount result }
        ensures all { HasLanes (state_of self.now.ledger) self.now.lanes.of }
    {
        self.lanes.lanes()
    }

    /// Whether there is such a lane.
    #[inline(always)]
    pub fn has_lane(&self, lane: u8) -> bool
        ensures { IsTrue result ↔ lane < self.now.lanes.count }
    {
        self.lanes.has(lane)
    }

    /// The lowest ready stage of a lane, if there is one. It looks at no stage.
    #[inline(always)]
    pub fn lowest(&self, lane: u8) -> Option<u16>
        requires { lane < self.now.lanes.count }
        ensures lowest { IfSome result (λ i. IsLowestIn (state_of self.now.ledger) self.now.lanes.of lane i) }
        ensures few { IfSome result (λ i. i ≤ 4095) }
        ensures none { IfNone result (NothingIsReady self.now lane) }
    {
        self.lanes.lowest(lane)
    }

    /// How many stages of a lane are ready. It looks at no stage.
    #[inline(always)]
    pub fn ready(&self, lane: u8) -> u16
        requires { lane < self.now.lanes.count }
        ensures { result ≡ ready_in self.now lane }
    {
        self.lanes.ready(lane)
    }

    /// The stages that were settled and not yet taken, in the order of the events that settled them. With those that
    /// were taken these are each settled stage, once.
    #[inline(always)]
    pub fn told(&self) -> &[u16]
        ensures told { result.now ≡ self.now.told }
        ensures once { IsOnce (state_of self.now.ledger) (self.now.taken ++ self.now.told) }
        ensures order { AreSettled self.now.ledger (self.now.taken ++ self.now.told) }
    {
        &self.order[self.count..]
    }

    /// All settled stages, in the order of the events that settled them.
    #[inline(always)]
    pub fn settled(&self) -> &[u16]
        ensures order { result.now ≡ order_in self.now }
        ensures once { IsOnce (state_of self.now.ledger) (order_in self.now) }
    {
        &self.order
    }

    /// The first so many of what is told were taken, or all where fewer are told.
    #[inline(always)]
    pub fn took(&mut self, count: usize)
        ensures ledger { self.new.ledger ≡ self.old.ledger }
        ensures taken { self.new.taken ≡ self.old.taken ++ take count self.old.told }
        ensures told { self.new.told ≡ drop count self.old.told }
        ensures lanes { self.new.lanes ≡ self.old.lanes }
    {
        self.count += count.min(self.order.len() - self.count);
    }

    /// Makes room for so many stages more, by doing all words again. It fails only where there is no memory, and then
    /// changes nothing.
    pub fn grow(&mut self, alloc: Global, more: u16) -> Result<(), AllocError>
        requires { has_place self.old.ledger.plan.stages (self.old.ledger.plan.room + more) ≡ true }
        ensures grown { OnOk result (self.new ≡ record self.old { ledger = with_more self.old.ledger more }) }
        ensures taken { OnOk result (AreTaken (start self.old.ledger.plan) self.old.ledger.events) }
        ensures state { OnOk result (state_of self.new.ledger ≡ roomier more (state_of self.old.ledger)) }
        ensures refused { OnErr result (self.new ≡ self.old) }
    {
        let stages = self.ledger.stages();
        let room = self.ledger.room() + more;
        let places = (stages + room) as usize;
        let mut sets = self.lanes.with_room(alloc, room)?;
        mark_all(&self.ledger, stages, &mut sets);
        self.order.reserve(places.saturating_sub(self.order.len()))?;
        match self.ledger.grow(alloc, more) {
            Ok(()) => {
                drop(mem::replace(&mut self.lanes, sets));
                Ok(())
            }
            Err(_) => {
                drop(sets);
                Err(AllocError)
            }
        }
    }

    /// Starts again, as it was opened. It takes no memory.
    pub fn restart(&mut self)
        ensures ledger { self.new.ledger ≡ record self.old.ledger { events = [] } }
        ensures taken { self.new.taken ≡ [] }
        ensures told { AreFresh [] (start self.old.ledger.plan).stages self.new.told }
        ensures lanes { self.new.lanes
            ≡ record self.old.lanes { of = take (length self.old.ledger.plan.stages) self.old.lanes.of } }
    {
        self.ledger.restart();
        let stages = self.ledger.stages();
        self.count = 0;
        self.order.clear();
        note_all(&self.ledger, stages, &mut self.order);
        self.lanes.begin_anew(stages);
        mark_all(&self.ledger, stages, &mut self.lanes);
    }
}

/// The outcome of a stage, if it is settled.
#[inline(always)]
fn outcome(ledger: &Ledger, i: u16) -> Option<Outcome>
    requires there { i < stages_of ledger.now }
    ensures { result ≡ outcome_at (state_of ledger.now) i }
{
    outcome_of(ledger.stage(i))
}

/// The outcome of a stage in this state, if it is settled.
#[inline(always)]
fn outcome_of(stage: Stage) -> Option<Outcome>
    ensures { result ≡ outcome_of stage }
{
    match stage {
        Stage::Settled(outcome) => Some(outcome),
        _ => None,
    }
}

/// Writes those of these stages that are settled behind others, and of each whether it is ready. The sets fit at all
/// other stages.
#[inline(always)]
fn note(ledger: &Ledger, news: &[u16], order: &mut Vec<u16>, sets: &mut ReadySets)
    requires there { All (λ i. i < stages_of ledger.now) news.now }
    requires room { length order.old.items + length (filter (is_settled_in (state_of ledger.now).stages) news.now)
        ≤ vec_capacity order.old }
    requires lanes { HasLanes (state_of ledger.now) sets.old.of }
    requires rest { AreFitBut (Contains news.now) (state_of ledger.now).stages sets.old }
    ensures noted { order.new.items
        ≡ order.old.items ++ filter (is_settled_in (state_of ledger.now).stages) news.now }
    ensures room { vec_capacity order.new ≡ vec_capacity order.old }
    ensures fit { (i : ℕ) → IsFit (state_of ledger.now).stages sets.new i }
    ensures count { length sets.new.sets ≡ length sets.old.sets }
    ensures same { sets.new ≡ record sets.old { sets = sets.new.sets } }
{
    for i in news {
        let ready = is_ready(ledger.stage(*i));
        let settled = outcome(ledger, *i).is_some();
        sets.write(*i, ready);
        put(order, *i, settled);
    }
}

/// Writes a stage behind others, if it is settled.
#[inline(always)]
fn put(order: &mut Vec<u16>, i: u16, settled: bool)
    requires room { length order.old.items + cond settled 1 0 ≤ vec_capacity order.old }
    ensures items { order.new.items ≡ order.old.items ++ cond settled (i ∷ []) [] }
    ensures room { vec_capacity order.new ≡ vec_capacity order.old }
{
    if settled {
        order.push_reserved(i);
    }
}

/// Writes all stages that are settled, of which there are so many.
fn note_all(ledger: &Ledger, stages: u16, order: &mut Vec<u16>)
    requires stages { stages ≡ stages_of ledger.now }
    requires none { order.old.items ≡ [] }
    requires room { stages ≤ vec_capacity order.old }
    ensures noted { AreSettledBelow stages (state_of ledger.now).stages order.new.items }
    ensures room { vec_capacity order.new ≡ vec_capacity order.old }
{
    for i in 0..stages {
        if outcome(ledger, i).is_some() {
            order.push_reserved(i);
        }
    }
}

/// Writes of all stages, of which there are so many, whether they are ready. None was before.
fn mark_all(ledger: &Ledger, stages: u16, sets: &mut ReadySets)
    requires stages { stages ≡ stages_of ledger.now }
    requires lanes { HasLanes (state_of ledger.now) sets.old.of }
    requires rest { AreFitBut (λ i. i < stages) (state_of ledger.now).stages sets.old }
    ensures fit { (i : ℕ) → IsFit (state_of ledger.now).stages sets.new i }
    ensures count { length sets.new.sets ≡ length sets.old.sets }
    ensures same { sets.new ≡ record sets.old { sets = sets.new.sets } }
{
    for i in 0..stages {
        sets.write(i, is_ready(ledger.stage(i)));
    }
}

/// Whether a reply is that of an attach.
#[inline(always)]
fn answers_attach(reply: &Reply) -> bool
    ensures { result ≡ answers_attach reply.now }
{
    match reply {
        Reply::Attach(_) => true,
        _ => false,
    }
}

/// Whether a stage in this state is ready.
#[inline(always)]
fn is_ready(stage: Stage) -> bool
    ensures { result ≡ is_ready stage }
{
    match stage {
        Stage::Ready(_) => true,
        _ => false,
    }
}
