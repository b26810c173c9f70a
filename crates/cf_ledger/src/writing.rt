//! The book of a ledger: how it does an event, and writes its word.
//!
//! Places for the word and for the stages that it changes were found before, so nothing here is refused. If memory was
//! found for words to come, it is that of one word less then.
ghost use Rattle.std.specs.Prelude.{◌≡◌, ◌<◌, ◌≤◌, Some, length};
ghost use Rattle.cf_model.specs.declared.events.Event.TheVariants.{Claim as Claims, Finish as FinishesAs};
ghost use Rattle.cf_model.specs.declared.events.Reply.TheVariants.{Claim as ToldClaim, Finish as ToldFinish};
ghost use Rattle.cf_model.specs.Events.{claiming, finishing};
ghost use Rattle.cf_model.specs.States.{claim_at};
ghost use Rattle.cf_event.specs.Words.{word_of};
ghost use Rattle.cf_event.specs.Decoding.{event_of};
ghost use Rattle.cf_ledger.specs.Books.{HasPlaces, IsBook, ledger_in};
ghost use Rattle.cf_ledger.specs.Ledgers.{Does, IsTaken};
ghost use Rattle.cf_ledger.specs.Steps.{Finishes, Takes};

use crate::news::News;
use crate::step::{Finish, Held, Taken};
use cf_bits::BitSet;
use cf_core::Graph;
use cf_event::encode;
use cf_forms::Answer;
use cf_model::{Claimed, Event, Finished, Reply};
use cf_plan::Plan;

/// A graph, with the words of all that was done to it and the stages that each word changed.
///
/// A flag of `changed` is set only while a tick is done. `free` is for how many words more memory was found.
#[derive(Drop)]
pub(crate) struct Book {
    pub plan: Plan,
    pub room: u16,
    pub graph: Graph,
    pub words: Vec<u64>,
    pub changed: BitSet,
    pub news: News,
    pub free: usize,
}

impl Book {
    /// Does an event that is taken, and writes its word behind the others with the stages that it changed.
    #[inline(always)]
    pub fn write(&mut self, event: &Event, word: u64) -> Reply
        requires kept { IsBook self.old }
        requires read { event_of word ≡ Some event.now }
        requires named { word_of event.now ≡ word }
        requires taken { IsTaken self.old.graph.state event.now }
        requires place { HasPlaces 1 self.old }
        ensures kept { IsBook self.new }
        ensures does { Does word (ledger_in self.old) result (ledger_in self.new) }
    {
        self.free = self.free.saturating_sub(1);
        let reply = self.news.note(&mut self.graph, event, &mut self.changed);
        self.words.push_reserved(word);
        reply
    }

    /// The same of a claim, whose word this is.
    #[inline(always)]
    pub fn claim(&mut self, who: u8, stage: u16, word: u64) -> Claimed
        requires kept { IsBook self.old }
        requires read { event_of word ≡ Some (Claims who stage) }
        requires named { word_of (Claims who stage) ≡ word }
        requires there { stage < length self.old.graph.state.plan.stages }
        requires place { HasPlaces 1 self.old }
        ensures kept { IsBook self.new }
        ensures does { Does word (ledger_in self.old) (ToldClaim result) (ledger_in self.new) }
        ensures told { (result, self.new.graph.state) ≡ claiming self.old.graph.state who stage }
    {
        self.free = self.free.saturating_sub(1);
        let told = self.news.note_claim(&mut self.graph, who, stage);
        self.words.push_reserved(word);
        told
    }

    /// The same of a finish, whose word this is. Where there are places for two words, it leaves one.
    #[inline(always)]
    pub fn finish(&mut self, who: u8, stage: u16, answer: Answer, word: u64) -> Finished
        requires kept { IsBook self.old }
        requires read { event_of word ≡ Some (FinishesAs who stage answer) }
        requires named { word_of (FinishesAs who stage answer) ≡ word }
        requires there { stage < length self.old.graph.state.plan.stages }
        requires place { HasPlaces 1 self.old }
        ensures kept { IsBook self.new }
        ensures does { Does word (ledger_in self.old) (ToldFinish result) (ledger_in self.new) }
        ensures told { (result, self.new.graph.state) ≡ finishing self.old.graph.state who stage answer }
        ensures place { HasPlaces 2 self.old → HasPlaces 1 self.new }
    {
        self.free = self.free.saturating_sub(1);
        let told = self.news.note_finish(&mut self.graph, who, stage, answer);
        self.words.push_reserved(word);
        told
    }

    /// Finishes a stage that the caller has claimed, where there are places for two words, and leaves one.
    #[tactic(auto, using(crate::proofs::Reserving::one_of_two))]
    pub fn finish_held(&mut self, who: u8, held: Held) -> Finish
        requires kept { IsBook self.old }
        requires caller { who ≤ 63 }
        requires there { held.stage < length self.old.graph.state.plan.stages }
        requires held { claim_at self.old.graph.state held.stage ≡ Some who }
        requires places { HasPlaces 2 self.old }
        ensures kept { IsBook self.new }
        ensures does { Finishes who (Some held) (ledger_in self.old) (Some result) (ledger_in self.new) }
        ensures place { HasPlaces 1 self.new }
    {
        let word = encode(&Event::Finish {
            who,
            stage: held.stage,
            answer: held.answer,
        });
        match self.finish(who, held.stage, held.answer, word) {
            Finished::Won => Finish { late: false, word },
            Finished::Late => Finish { late: true, word },
            Finished::NotYours => unreachable!(),
        }
    }

    /// Claims the lowest ready stage from a number on, if there is one.
    pub fn take(&mut self, who: u8, from: u16) -> Option<Taken>
        requires kept { IsBook self.old }
        requires caller { who ≤ 63 }
        requires place { HasPlaces 1 self.old }
        ensures kept { IsBook self.new }
        ensures does { Takes who from (ledger_in self.old) result (ledger_in self.new) }
    {
        let Some(stage) = self.graph.next_ready(from) else {
            return None;
        };
        let function = self.graph.function(stage);
        let word = encode(&Event::Claim { who, stage });
        match self.claim(who, stage, word) {
            Claimed::Granted(args) => Some(Taken {
                stage,
                function,
                args,
                word,
            }),
            _ => unreachable!(),
        }
    }
}
