//! The ledger.
ghost use Rattle.std.specs.Prelude.{◌≡◌, ◌+◌, ◌-◌, ◌<◌, ◌≤◌, ◌↔◌, [], IfErr, IfNone, IfOk, IfSome, IsTrue, None, OnErr, OnOk, Some, false, length, map, max, get_or, replicate, take, true};
ghost use Rattle.cf_forms.specs.Plans.{function_at, has_place, plan_of, reopened, with_room};
ghost use Rattle.cf_model.specs.Graphs.{AreNews, NoneReady, stage_in};
ghost use Rattle.cf_model.specs.States.{claim_at, is_ready, lowest_ready_of, outcome_at, outcome_of, start};
ghost use Rattle.cf_model.specs.declared.events.Event.TheVariants.{Claim as Claims, Finish as FinishesAs};
ghost use Rattle.cf_model.specs.declared.events.Reply.TheVariants.{Claim as ToldClaim, Finish as ToldFinish};
ghost use Rattle.cf_event.specs.Words.{word_of};
ghost use Rattle.cf_ledger.specs.Ledgers.{AreTaken, Does, DoesAll, HasRoomFor, IsFirstMisfit, IsShort, LedgerRefuses, opened_with, roomier, stages_of, state_at, state_of, with_more};
ghost use Rattle.cf_ledger.specs.Steps.{IsNoStep, IsShortOfTwo, NoneReadyFrom, Steps};
ghost use Rattle.cf_event.specs.Decoding.{decoded, event_of};

use crate::faults::{LedgerFault, Misfit, StepFault};
use crate::news::News;
use crate::places::make_places;
use crate::step::{Held, Step};
use crate::writing::Book;
use cf_bits::BitSet;
use cf_core::Graph;
use cf_event::{LAST_CALLER, claim_of, decode, giving_of};
use cf_forms::Answer;
use cf_model::{Claimed, Event, Finished, Reply, Stage};
use cf_outcome::Outcome;
use cf_plan::{MAX_EDGES, MAX_STAGES, Plan};
use std::alloc::{AllocError, Global};
use std::marker::Model;
use std::mem;

/// For more words than these no machine has memory.
const MOST_WORDS: usize = 1 << 51;

/// A graph, with the words of all that was done to it and the stages that each word changed.
///
/// A contract sees the plan with its room, the events of the words, and for how many words more memory was found. The
/// graph is in the state that these events leave, and no turn is left.
#[derive(Drop)]
pub struct Ledger {
    book: Book,
}

impl Model for Ledger {
    ghost use Rattle.cf_ledger.specs.Ledgers.{Ledger};

    ghost Value = { Ledger };

    ghost use Rattle.cf_ledger.specs.Books.{IsBook, ledger_in};

    ghost view = { λ l. ledger_in l.book };

    ghost invariant = { λ l. IsBook l.book };
}

impl Ledger {
    /// The ledger of a plan, with room for so many stages more. Nothing is written in it yet. It fails only where there
    /// is no memory.
    pub fn new(alloc: Global, plan: &Plan, room: u16) -> Result<Ledger, AllocError>
        requires place { has_place plan.now.stages room ≡ true }
        ensures { IfOk result (λ ledger. ledger ≡ record { plan = with_room plan.now room; events = []; free = 0 }) }
    {
        let changed = flags_of(alloc, plan, room)?;
        let shared = plan.share()?;
        let graph = graph_of(alloc, plan, room)?;
        Ok(Ledger {
            book: Book {
                plan: shared,
                room,
                graph,
                words: Vec::new(alloc),
                changed,
                news: News::new(alloc),
                free: 0,
            },
        })
    }

    /// Finds memory for so many words more, with the stages that they change. It fails only where there is no memory,
    /// and then changes nothing. Each word takes the memory of one. While some is left, no word is refused for want of
    /// memory.
    pub fn reserve(&mut self, more: usize) -> Result<(), AllocError>
        ensures enough { OnOk result (more ≤ self.new.free) }
        ensures found { OnOk result (self.new ≡ record self.old { free = max self.old.free more }) }
        ensures refused { OnErr result (self.new ≡ self.old) }
        ensures short { OnErr result (self.old.free < more) }
    {
        if more <= self.book.free {
            return Ok(());
        }
        // No machine has memory for more.
        if more > MOST_WORDS {
            return Err(AllocError);
        }
        make_places(&mut self.book, more)?;
        self.book.free = more;
        Ok(())
    }

    /// Does a word, and appends it to the others. The reasons to refuse it are looked at in this order: it is no
    /// event's word, its stages, its room, memory. A refused word leaves all as it was.
    ///
    /// It costs what the graph's call costs with all turns that it makes due, some nanoseconds for each stage that it
    /// changes, and from time to time a growth of the two rows. It is inlined into its callers, where the reply is read
    /// as it was written, part by part.
    #[inline(always)]
    pub fn apply(&mut self, word: u64) -> Result<Reply, LedgerFault>
        ensures done { IfOk result (λ reply. Does word self.old reply self.new) }
        ensures refused { OnErr result (self.new ≡ self.old) }
        ensures why { IfErr result (λ fault. LedgerRefuses (state_of self.old) word fault) }
        ensures short { IfErr result (λ fault. IsShort self.old.free fault) }
    {
        // A claim, and a finish that gives a value, are nearly all words. Each has code of its own, in which its kind is
        // known.
        if let Some((who, stage)) = claim_of(word) {
            return Ok(Reply::Claim(self.claim(who, stage, word)?));
        }
        if let Some((who, stage, v)) = giving_of(word) {
            return Ok(Reply::Finish(self.finish(who, stage, Answer::Give(v), word)?));
        }
        self.apply_other(word)
    }

    /// Does a claim, whose word this is, as `apply` does. Whoever has read the word already saves reading it again.
    #[inline(always)]
    pub fn claim(&mut self, who: u8, stage: u16, word: u64) -> Result<Claimed, LedgerFault>
        requires read { event_of word ≡ Some (Claims who stage) }
        requires named { word_of (Claims who stage) ≡ word }
        ensures done { IfOk result (λ told. Does word self.old (ToldClaim told) self.new) }
        ensures refused { OnErr result (self.new ≡ self.old) }
        ensures why { IfErr result (λ fault. LedgerRefuses (state_of self.old) word fault) }
        ensures short { IfErr result (λ fault. IsShort self.old.free fault) }
    {
        if stage >= self.book.graph.stages() {
            return Err(LedgerFault::NoStage);
        }
        make_places(&mut self.book, 1)?;
        Ok(self.book.claim(who, stage, word))
    }

    /// Does a finish, whose word this is, as `apply` does.
    #[inline(always)]
    pub fn finish(
        &mut self,
        who: u8,
        stage: u16,
        answer: Answer,
        word: u64,
    ) -> Result<Finished, LedgerFault>
        requires read { event_of word ≡ Some (FinishesAs who stage answer) }
        requires named { word_of (FinishesAs who stage answer) ≡ word }
        ensures done { IfOk result (λ told. Does word self.old (ToldFinish told) self.new) }
        ensures refused { OnErr result (self.new ≡ self.old) }
        ensures why { IfErr result (λ fault. LedgerRefuses (state_of self.old) word fault) }
        ensures short { IfErr result (λ fault. IsShort self.old.free fault) }
    {
        if stage >= self.book.graph.stages() {
            return Err(LedgerFault::NoStage);
        }
        make_places(&mut self.book, 1)?;
        Ok(self.book.finish(who, stage, answer, word))
    }

    /// Does a claim as `claim` does, where memory was found for a word. No place is looked for.
    #[inline(always)]
    pub fn claim_found(&mut self, who: u8, stage: u16, word: u64) -> Claimed
        requires read { event_of word ≡ Some (Claims who stage) }
        requires named { word_of (Claims who stage) ≡ word }
        requires there { stage < stages_of self.old }
        requires memory { 0 < self.old.free }
        ensures { Does word self.old (ToldClaim result) self.new }
    {
        self.book.claim(who, stage, word)
    }

    /// Does a finish as `finish` does, where memory was found for a word. No place is looked for.
    #[inline(always)]
    pub fn finish_found(&mut self, who: u8, stage: u16, answer: Answer, word: u64) -> Finished
        requires read { event_of word ≡ Some (FinishesAs who stage answer) }
        requires named { word_of (FinishesAs who stage answer) ≡ word }
        requires there { stage < stages_of self.old }
        requires memory { 0 < self.old.free }
        ensures { Does word self.old (ToldFinish result) self.new }
    {
        self.book.finish(who, stage, answer, word)
    }

    /// Does a word of any kind as `apply` does, in a call of its own.
    #[inline(never)]
    pub fn apply_other(&mut self, word: u64) -> Result<Reply, LedgerFault>
        ensures done { IfOk result (λ reply. Does word self.old reply self.new) }
        ensures refused { OnErr result (self.new ≡ self.old) }
        ensures why { IfErr result (λ fault. LedgerRefuses (state_of self.old) word fault) }
        ensures short { IfErr result (λ fault. IsShort self.old.free fault) }
    {
        let Some(event) = decode(word) else {
            return Err(LedgerFault::NoEvent);
        };
        if !self.book.graph.takes(&event) {
            return Err(LedgerFault::NoStage);
        }
        if !has_room_for(&self.book.graph, &event) {
            return Err(LedgerFault::NoRoom);
        }
        make_places(&mut self.book, 1)?;
        Ok(self.book.write(&event, word))
    }

    /// One step of a caller, in one call: it finishes the stage that the caller holds, if there is one, and claims the
    /// lowest ready stage from a number on, if there is one. Each of the two is a word that is written. The reasons to
    /// refuse it are looked at in this order: the caller's number, the stage that is held, its claim, memory. A refused
    /// step leaves all as it was.
    ///
    /// It costs what the two words cost by `apply`, and a look at each stage from that number up to the one that is
    /// claimed.
    #[tactic(auto, using(crate::proofs::Reserving::one_of_two))]
    pub fn step(&mut self, who: u8, held: Option<Held>, from: u16) -> Result<Step, StepFault>
        ensures done { IfOk result (λ step. Steps who held from self.old step self.new) }
        ensures refused { OnErr result (self.new ≡ self.old) }
        ensures why { IfErr result (λ fault. IsNoStep who held (state_of self.old) fault) }
        ensures short { IfErr result (λ fault. IsShortOfTwo self.old.free fault) }
    {
        if who > LAST_CALLER {
            return Err(StepFault::NoCaller);
        }
        if let Some(held) = held {
            if held.stage >= self.book.graph.stages() {
                return Err(StepFault::NoStage);
            }
            if self.book.graph.claimant(held.stage) != Some(who) {
                return Err(StepFault::NotHeld);
            }
        }
        make_places(&mut self.book, 2)?;
        let finish = match held {
            None => None,
            Some(held) => Some(self.book.finish_held(who, held)),
        };
        let taken = self.book.take(who, from);
        Ok(Step { finish, taken })
    }

    /// Does words one after another, up to the first that can't be done, and says which that is and why. The words before
    /// it are done then.
    pub fn apply_all(&mut self, words: &[u64]) -> Result<(), Misfit>
        ensures all { OnOk result (DoesAll self.old words.now self.new) }
        ensures front { IfErr result (λ m. DoesAll self.old (take m.place words.now) self.new) }
        ensures there { IfErr result (λ m. m.place < length words.now) }
        ensures why { IfErr result (λ m. LedgerRefuses (state_of self.new) (get_or words.now m.place 0) m.why) }
        ensures short { IfErr result (λ m. IsShort (self.old.free - m.place) m.why) }
    {
        for (place, word) in words.iter().enumerate() {
            match self.apply(*word) {
                Ok(_) => {}
                Err(why) => return Err(Misfit { place, why }),
            }
        }
        Ok(())
    }

    /// The words of all that was done, in order.
    pub fn words(&self) -> &[u64]
        ensures words { result.now ≡ map word_of self.now.events }
        ensures read { decoded result.now ≡ self.now.events }
    {
        self.book.words.as_slice()
    }

    /// How many words are written.
    pub fn len(&self) -> usize
        ensures { result ≡ length self.now.events }
    {
        self.book.words.len()
    }

    /// The stages that the event at a place changed, in rising order: these and no others.
    pub fn news(&self, place: usize) -> &[u16]
        requires { place < length self.now.events }
        ensures { AreNews (state_at self.now place).stages (state_at self.now (place + 1)).stages result.now }
    {
        self.book.news.at(place)
    }

    /// How many stages there are by now, the attached ones too.
    pub fn stages(&self) -> u16
        ensures count { result ≡ stages_of self.now }
        ensures all_stages { length (state_of self.now).stages ≡ stages_of self.now }
        ensures all_claims { length (state_of self.now).claims ≡ stages_of self.now }
        ensures few { result + (state_of self.now).plan.room ≤ 4096 }
    {
        self.book.graph.stages()
    }

    /// How many stages may still be attached.
    pub fn room(&self) -> u16
        ensures { result ≡ (state_of self.now).plan.room }
    {
        self.book.graph.room()
    }

    /// The number of a stage's function, if its form has one.
    pub fn function(&self, i: u16) -> Option<u16>
        requires { i < stages_of self.now }
        ensures { result ≡ function_at (state_of self.now).plan.stages i }
    {
        self.book.graph.function(i)
    }

    /// A stage's state.
    #[inline(always)]
    pub fn stage(&self, i: u16) -> Stage
        requires { i < stages_of self.now }
        ensures { result ≡ stage_in (state_of self.now).stages i }
    {
        self.book.graph.stage_now(i)
    }

    /// The caller whose claim of a stage is open, if there is one.
    pub fn claimant(&self, i: u16) -> Option<u8>
        requires { i < stages_of self.now }
        ensures { result ≡ claim_at (state_of self.now) i }
    {
        self.book.graph.claimant(i)
    }

    /// The lowest ready stage from a number on. It costs a look at each stage between.
    pub fn next_ready(&self, from: u16) -> Option<u16>
        ensures ready { IfSome result (λ i. is_ready (stage_in (state_of self.now).stages i) ≡ true) }
        ensures above { IfSome result (λ i. from ≤ i) }
        ensures there { IfSome result (λ i. i < stages_of self.now) }
        ensures first { IfSome result (λ i. NoneReady from i (state_of self.now).stages) }
        ensures none { IfNone result (NoneReadyFrom from self.now) }
    {
        self.book.graph.next_ready(from)
    }

    /// The outcome of a stage, if it is settled.
    #[tactic(auto, using(crate::proofs::Ready::outcome_is))]
    pub fn outcome(&self, i: u16) -> Option<Outcome>
        requires { i < stages_of self.now }
        ensures { result ≡ outcome_at (state_of self.now) i }
    {
        outcome_of(self.stage(i))
    }

    /// The lowest ready stage, or none where no stage is ready. It costs a look at each stage below.
    pub fn lowest_ready(&self) -> Option<u16>
        ensures { result ≡ lowest_ready_of (state_of self.now) }
    {
        self.next_ready(0)
    }

    /// The ledger of these words, which are done from the start of a plan with room for so many stages. Where a word
    /// can't be done, it says which is the first, and why.
    pub fn of_words(alloc: Global, plan: &Plan, room: u16, words: &[u64]) -> Result<Ledger, Misfit>
        requires place { has_place plan.now.stages room ≡ true }
        ensures plan { IfOk result (λ ledger. ledger.plan ≡ with_room plan.now room) }
        ensures words { IfOk result (λ ledger. map word_of ledger.events ≡ words.now) }
        ensures events { IfOk result (λ ledger. ledger.events ≡ decoded words.now) }
        ensures free { IfOk result (λ ledger. ledger.free ≡ 0) }
        ensures refused { IfErr result (λ m. IsFirstMisfit (with_room plan.now room) m.place words.now m.why) }
    {
        let mut ledger = Ledger::new(alloc, plan, room)?;
        match ledger.apply_all(words) {
            Ok(()) => Ok(ledger),
            Err(misfit) => {
                drop(ledger);
                Err(misfit)
            }
        }
    }

    /// Starts again: nothing is written then, and all of its room is free. It takes no memory, and gives none back.
    pub fn restart(&mut self)
        ensures { self.new ≡ record self.old { events = [] } }
    {
        start_again(&mut self.book.graph);
        self.book.words.clear();
        self.book.news.clear();
    }

    /// Whether its plan has place for so many stages more.
    #[tactic(auto, using(cf_forms::proofs::PlanLemmas::place_is, crate::proofs::Growth::no_place))]
    pub fn has_place(&self, more: u16) -> bool
        ensures { result ≡ has_place self.now.plan.stages (self.now.plan.room + more) }
    {
        // No plan has place for more room.
        more as usize <= MAX_STAGES && self.book.plan.has_place(self.book.room + more)
    }

    /// Makes room for so many stages more, by doing all words again. It fails only where there is no memory, and then
    /// changes nothing.
    #[tactic(auto, using(cf_forms::proofs::PlanLemmas::place_is))]
    pub fn grow(&mut self, alloc: Global, more: u16) -> Result<(), LedgerFault>
        requires place { has_place self.old.plan.stages (self.old.plan.room + more) ≡ true }
        ensures grown { OnOk result (self.new ≡ with_more self.old more) }
        ensures taken { AreTaken (start self.old.plan) self.old.events }
        ensures state { OnOk result (state_of self.new ≡ roomier more (state_of self.old)) }
        ensures unchanged { OnErr result (self.new ≡ self.old) }
        ensures refused { IfErr result (λ fault. fault ≡ LedgerFault.NoMemory) }
    {
        match ledger_with(
            alloc,
            &self.book.plan,
            self.book.room + more,
            &self.book.words,
            self.book.free,
        ) {
            Ok(ledger) => {
                drop(mem::replace(self, ledger));
                Ok(())
            }
            Err(misfit) => Err(misfit.why),
        }
    }
}

/// The ledger of these words, with memory for so many more.
fn ledger_with(
    alloc: Global,
    plan: &Plan,
    room: u16,
    words: &[u64],
    free: usize,
) -> Result<Ledger, Misfit>
    requires place { has_place plan.now.stages room ≡ true }
    ensures made { IfOk result (λ ledger. ledger ≡ opened_with plan.now room words.now free) }
    ensures words { IfOk result (λ ledger. map word_of ledger.events ≡ words.now) }
    ensures refused { IfErr result (λ m. IsFirstMisfit (with_room plan.now room) m.place words.now m.why) }
{
    let mut ledger = Ledger::of_words(alloc, plan, room, words)?;
    ledger.reserve(free)?;
    Ok(ledger)
}

/// A stage's outcome, if it is settled.
fn outcome_of(stage: Stage) -> Option<Outcome>
    ensures { result ≡ outcome_of stage }
{
    match stage {
        Stage::Settled(o) => Some(o),
        _ => None,
    }
}

/// The graph of a plan with room, in which no turn is left.
fn graph_of(alloc: Global, plan: &Plan, room: u16) -> Result<Graph, AllocError>
    requires place { has_place plan.now.stages room ≡ true }
    ensures graph { IfOk result (λ graph. graph.state ≡ start (with_room plan.now room)) }
    ensures worked_out { IfOk result (λ graph. graph.left ≡ None) }
{
    let mut graph = Graph::growing_of(alloc, plan, room)?;
    take_turns(&mut graph);
    Ok(graph)
}

/// Has a graph start again, and takes all turns that are left.
fn start_again(graph: &mut Graph)
    ensures start { graph.new.state ≡ start (reopened graph.old.state.plan) }
    ensures worked_out { graph.new.left ≡ None }
{
    graph.restart();
    take_turns(graph);
}

/// Takes all turns that are left.
fn take_turns(graph: &mut Graph)
    ensures same { graph.new.state ≡ graph.old.state }
    ensures worked_out { graph.new.left ≡ None }
{
    // There is a turn for each stage and each edge at most, so one more takes all that are left.
    let most = u32::from(graph.stages()) + MAX_EDGES as u32;
    graph.nudge(most + 1);
}

/// A flag for each stage that there may ever be of a plan, which was opened with all its stages.
#[tactic(auto, using(cf_forms::proofs::PlanLemmas::place_is))]
fn flags_of(alloc: Global, plan: &Plan, room: u16) -> Result<BitSet, AllocError>
    requires place { has_place plan.now.stages room ≡ true }
    ensures flags { IfOk result (λ flags. flags ≡ replicate (length plan.now.stages + room) false) }
    ensures whole { plan.now ≡ plan_of plan.now.stages plan.now.limits }
{
    BitSet::new(alloc, plan.stages() + room)
}

/// Whether there is room for the stage that an event attaches, if it attaches one.
#[inline(always)]
fn has_room_for(graph: &Graph, event: &Event) -> bool
    ensures { IsTrue result ↔ HasRoomFor graph.now.state event.now }
{
    match *event {
        Event::Attach { .. } => graph.room() > 0,
        _ => true,
    }
}
