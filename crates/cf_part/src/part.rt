//! A process's part in a request.
ghost use Rattle.std.specs.Prelude.{◌≡◌, ◌+◌, ◌<◌, ◌≤◌, [], IfErr, IfNone, IfOk, IfSome, None, OnErr, OnOk, Some, false, length, max, slice_set, true};
ghost use Rattle.std.specs.Bool.{OnFalse, OnTrue};
ghost use Rattle.cf_forms.specs.Plans.{has_place};
ghost use Rattle.cf_row.specs.Puts.{IsNoPut};
ghost use Rattle.cf_row.specs.Rows.{stages_of};
ghost use Rattle.cf_notes.specs.Noting.{AreNotes};
ghost use Rattle.cf_part.specs.Parts.{IsClose, IsPut, IsRead, MayPlan, is_waited, later, most_wants, opened, question_of, seen_by, words_wanted};
ghost use Rattle.cf_part.specs.Steps.{ComesFirst, NothingToTell, Tells};
ghost use Rattle.cf_part.specs.Answers.{Breaks, Closes, Ends, Grows, IsRunning, Lands, Meets, Mismeets, Misreads, PlansWords, Reads, Refuses, Waits};

use crate::finding::{args_for, is_running, is_waited, shown, to_call, to_show, to_stop};
use crate::growing::{add_more, find_places, grow_seen};
use crate::progress::Progress;
use crate::putting::{fault_after, refuse, write_entries, write_notes, write_wants, write_words};
use crate::question::{Fault, PutOf, Question, later};
use crate::seeing::{see, see_all, see_own};
use crate::step::Step;
use cf_ledger::{LedgerFault, Misfit};
use cf_notes::{EndsWith, Note, Noted, Notes, Owed, Want};
use cf_plan::Plan;
use cf_row::{Entry, PutFault, Replica, Row};
use std::alloc::{AllocError, Global};
use std::marker::Model;

/// How many words a put has at most.
pub const MOST_WANTS: usize = 8;

/// What is owed of a stage whose function wasn't called.
const NO_VALUE: Option<Owed> = Some(Owed {
    answer: EndsWith::NoValue,
    is_error: false,
});

/// A session's view of a request's row, with what its process has to do there.
#[derive(Drop)]
pub struct Part {
    row: Row,
    notes: Notes,
    calls: Vec<Progress>,
    owed: Vec<Option<Owed>>,
    wanted: Vec<Option<u64>>,
    numbers: Vec<u64>,
    wants: Vec<Want>,
    landing: Vec<Entry>,
    said: Vec<Note>,
    of: PutOf,
    asked: Option<Question>,
    words: usize,
    is_stale: bool,
    retry: u64,
    fault: Option<Fault>,
    is_flow: bool,
    is_closed: bool,
}

impl Model for Part {
    ghost use Rattle.cf_part.specs.Parts.{Part};

    ghost Value = { Part };

    ghost use Rattle.cf_part.specs.Parts.{AreOfStages, HasPlaces, IsSound};

    ghost view = { λ p. record {
      row = p.row;
      notes = p.notes;
      calls = p.calls.items;
      owed = p.owed.items;
      wanted = p.wanted.items;
      wants = p.wants.items;
      of = p.of;
      asked = p.asked;
      words = p.words;
      is_stale = p.is_stale;
      retry = p.retry;
      fault = p.fault;
      is_flow = p.is_flow;
      is_closed = p.is_closed;
    } };

    ghost invariant = { λ p. record {
      sound : IsSound p.row p.calls.items p.owed.items p.wanted.items p.wants.items p.asked;
      noted : AreOfStages p.row.replica p.notes;
      places : HasPlaces p.numbers p.wants p.landing p.said;
    } };
}

impl Part {
    /// A session's part in a request of which nothing was read yet. The notes are those of the plan's stages. Its tokens
    /// count from `first` on, as those of a `Row`. It fails only where there is no memory.
    pub fn new(
        alloc: Global,
        plan: &Plan,
        notes: &[Note],
        room: u16,
        session: u64,
        first: u32,
        is_flow: bool,
    ) -> Result<Part, AllocError>
        requires each_stage { length notes.now ≡ length plan.now.stages }
        requires place { has_place plan.now.stages room ≡ true }
        requires session { session < 549755813888 }
        requires first { first ≤ 8388608 }
        ensures { IfOk result (λ p. p ≡ opened plan.now notes.now room session first is_flow) }
    {
        let places = plan.stages() as usize + room as usize;
        let calls = vec![in alloc; Progress::NotCalled; places]?;
        let owed = vec![in alloc; NO_VALUE; places]?;
        let wanted = vec![in alloc; None; places]?;
        let numbers: Vec<u64> = Vec::with_capacity(alloc, MOST_WANTS)?;
        let wants: Vec<Want> = Vec::with_capacity(alloc, MOST_WANTS)?;
        let landing: Vec<Entry> = Vec::with_capacity(alloc, MOST_WANTS)?;
        let said: Vec<Note> = Vec::with_capacity(alloc, MOST_WANTS)?;
        let notes = Notes::new(alloc, plan, notes, room)?;
        let row = Row::new(alloc, plan, room, session, first)?;
        Ok(Part {
            row,
            notes,
            calls,
            owed,
            wanted,
            numbers,
            wants,
            landing,
            said,
            of: PutOf::Rest,
            asked: None,
            words: 0,
            is_stale: true,
            retry: 0,
            fault: None,
            is_flow,
            is_closed: false,
        })
    }

    /// What the session has seen of the row.
    pub fn view(&self) -> &Replica
        ensures { result.now ≡ self.now.row.replica }
    {
        self.row.replica()
    }

    /// What the notes say of each stage.
    pub fn notes(&self) -> &[Noted]
        ensures notes { result.now ≡ self.now.notes.stages }
        ensures are { AreNotes (stages_of self.now.row.replica) result.now }
    {
        self.notes.stages()
    }

    /// Of each stage what its finish says, should its claim be this session's and open: no value while its function wasn't
    /// called, for then another process has settled it; nothing while it runs; and then what it came to.
    pub fn owed(&self) -> &[Option<Owed>]
        ensures { result.now ≡ self.now.owed }
    {
        self.owed.as_slice()
    }

    /// The put that is under way.
    pub fn put(&self) -> &[Entry]
        ensures { result.now ≡ self.now.row.put }
    {
        self.row.put()
    }

    /// The put's words with their notes, and whose payloads stand at their places.
    pub fn wants_of_put(&self) -> &[Want]
        ensures { result.now ≡ self.now.wants }
    {
        self.wants.as_slice()
    }

    /// What the put is of.
    pub fn put_of(&self) -> PutOf
        ensures { result ≡ self.now.of }
    {
        self.of
    }

    /// The question that is open.
    pub fn asked(&self) -> Option<Question>
        ensures { result ≡ self.now.asked }
    {
        self.asked
    }

    /// Before which moment nothing is asked.
    pub fn retry(&self) -> u64
        ensures { result ≡ self.now.retry }
    {
        self.retry
    }

    /// Why nothing goes on in the request any more, if so.
    pub fn fault(&self) -> Option<Fault>
        ensures { result ≡ self.now.fault }
    {
        self.fault
    }

    /// Whether the request is a flow's, which is closed once all is done.
    pub fn is_flow(&self) -> bool
        ensures { result ≡ self.now.is_flow }
    {
        self.is_flow
    }

    /// Whether the request was closed, by what the store told last.
    pub fn is_closed(&self) -> bool
        ensures { result ≡ self.now.is_closed }
    {
        self.is_closed
    }

    /// Of each stage, how far the call of its function has come.
    pub fn calls(&self) -> &[Progress]
        ensures { result.now ≡ self.now.calls }
    {
        self.calls.as_slice()
    }

    /// Of each stage, from which moment on it is shown, if somebody waits for it.
    pub fn wanted(&self) -> &[Option<u64>]
        ensures { result.now ≡ self.now.wanted }
    {
        self.wanted.as_slice()
    }

    /// Whether the function of a stage was called and hasn't ended.
    pub fn is_running(&self, stage: u16) -> bool
        ensures runs { OnTrue result (IsRunning self.now stage) }
        ensures none { OnFalse result (¬ IsRunning self.now stage) }
    {
        is_running(&self.calls, stage)
    }

    /// The store tells that so many words stand in the row.
    pub fn told_length(&mut self, words: usize)
        ensures { self.new ≡ record self.old { words = max self.old.words words } }
    {
        self.words = self.words.max(words);
    }

    /// Whether there is a place for a stage.
    pub fn has_place(&self, stage: u16) -> bool
        ensures there { OnTrue result (stage < length self.now.wanted) }
        ensures none { OnFalse result (¬ (stage < length self.now.wanted)) }
    {
        (stage as usize) < self.wanted.len()
    }

    /// Somebody waits for a stage.
    pub fn wants(&mut self, stage: u16)
        requires { stage < length self.old.wanted }
        ensures { self.new ≡ record self.old { wanted = slice_set self.old.wanted stage (Some 0) } }
    {
        self.wanted[stage as usize] = Some(0);
    }

    /// Nobody waits for a stage any more.
    pub fn lets_go(&mut self, stage: u16)
        requires { stage < length self.old.wanted }
        ensures { self.new ≡ record self.old { wanted = slice_set self.old.wanted stage None } }
    {
        let place = stage as usize;
        self.wanted[place] = None;
    }

    /// The payload of a stage that was told to be shown couldn't be read: it is shown again, but not at once.
    pub fn unread(&mut self, now: u64, stage: u16)
        requires { stage < length self.old.wanted }
        ensures { self.new ≡ record self.old { wanted = slice_set self.old.wanted stage (Some (later now)) } }
    {
        self.wanted[stage as usize] = Some(later(now));
    }

    /// Makes room for so many stages more, also while a put is under way or a question is open. It fails only where there
    /// is no memory, and then changes nothing.
    pub fn grow(&mut self, alloc: Global, more: u16) -> Result<(), AllocError>
        requires place { has_place self.old.row.replica.plan.stages (self.old.row.replica.plan.room + more) ≡ true }
        ensures grown { OnOk result (Grows self.old more self.new) }
        ensures unchanged { OnErr result (self.new ≡ self.old) }
    {
        find_places(&mut self.calls, &mut self.owed, &mut self.wanted, more)?;
        grow_seen(&mut self.row, &mut self.notes, alloc, more)?;
        add_more(&mut self.calls, Progress::NotCalled, more);
        add_more(&mut self.owed, NO_VALUE, more);
        add_more(&mut self.wanted, None, more);
        Ok(())
    }

    /// Whether somebody waits for a stage.
    pub fn is_waited(&self) -> bool
        ensures { result ≡ is_waited self.now.wanted }
    {
        is_waited(&self.wanted)
    }

    /// The row is to be read, though the store has told of nothing more there.
    pub fn reads_again(&mut self)
        ensures { self.new ≡ record self.old { is_stale = true } }
    {
        self.is_stale = true;
    }

    /// Whether a put may be planned by now, or the close be asked for.
    pub fn may_plan(&self, now: u64) -> bool
        ensures may { OnTrue result (MayPlan self.now now) }
        ensures none { OnFalse result (¬ MayPlan self.now now) }
    {
        self.row.put().is_empty()
            && self.asked.is_none()
            && self.fault.is_none()
            && self.has_seen_all()
            && self.retry <= now
    }

    /// Whether all is seen that the store has told of.
    fn has_seen_all(&self) -> bool
        ensures all { OnTrue result ((self.now.is_stale ≡ false) × (self.now.words ≤ seen_by self.now)) }
        ensures none { OnFalse result (¬ ((self.now.is_stale ≡ false) × (self.now.words ≤ seen_by self.now))) }
    {
        !self.is_stale && self.words <= self.row.replica().seen().len()
    }

    /// Plans a put of these words, and is told what it is of. It is refused as a `Row` refuses it, and all stays as it
    /// was then.
    #[tactic(auto, using(cf_row::proofs::Tokens::stamped_words))]
    pub fn plan(&mut self, wants: &[Want], of: PutOf) -> Result<(), PutFault>
        requires none { self.old.row.put ≡ [] }
        requires asked { self.old.asked ≡ None }
        requires few { length wants.now ≤ most_wants }
        ensures planned { OnOk result (PlansWords self.old wants.now of self.new) }
        ensures unchanged { OnErr result (self.new ≡ self.old) }
        ensures why { IfErr result (λ fault.
            IsNoPut self.old.row.replica self.old.row.next (words_wanted wants.now) fault) }
    {
        write_words(&mut self.numbers, wants);
        match self.row.plan(self.numbers.as_slice()) {
            Ok(()) => {}
            Err(fault) => return Err(fault),
        }
        write_wants(&mut self.wants, wants);
        self.of = of;
        Ok(())
    }

    /// The question about the row that is due, which is open from then on. There is none while one is open, behind a
    /// fault, or where nothing is to be asked by now.
    pub fn question(&mut self, now: u64) -> Option<Question>
        ensures is { result ≡ question_of self.old now }
        ensures asked { IfSome result (λ q. self.new ≡ record self.old { asked = Some q }) }
        ensures none { IfNone result (self.new ≡ self.old) }
    {
        if self.asked.is_some() || self.fault.is_some() || now < self.retry {
            return None;
        }
        let at = self.row.replica().seen().len();
        if !self.row.put().is_empty() {
            self.asked = Some(Question::Put { at });
        } else if self.is_stale || at < self.words {
            self.asked = Some(Question::Read { at });
        }
        self.asked
    }

    /// Asks to close the request where nothing is under way.
    pub fn close(&mut self) -> Question
        requires none { self.old.row.put ≡ [] }
        requires asked { self.old.asked ≡ None }
        ensures is { result ≡ Question.Close (seen_by self.old) }
        ensures asked { self.new ≡ record self.old { asked = Some result } }
    {
        let question = Question::Close {
            at: self.row.replica().seen().len(),
        };
        self.asked = Some(question);
        question
    }

    /// A read was answered: these entries stand behind all that was seen, with these notes. Where one of them doesn't fit
    /// the graph, the request is broken. For want of memory none is seen, and it is asked again later.
    pub fn read(&mut self, now: u64, entries: &[Entry], notes: &[Note]) -> Result<(), Misfit>
        requires asked { IsRead self.old.asked }
        requires each { length notes.now ≡ length entries.now }
        ensures all { OnOk result (Reads self.old entries.now notes.now self.new) }
        ensures front { IfErr result (λ m. Misreads self.old now entries.now notes.now m self.new) }
    {
        self.asked = None;
        match see_all(&mut self.row, &mut self.notes, entries, notes) {
            Ok(()) => {
                self.is_stale = false;
                Ok(())
            }
            Err(misfit) => {
                self.retry = later(now);
                self.fault = fault_after(misfit.why, self.fault);
                Err(misfit)
            }
        }
    }

    /// The put stands. It is seen with the notes of its words.
    pub fn stands(&mut self)
        requires { IsPut self.old.asked }
        ensures { Lands self.old self.new }
    {
        write_entries(&mut self.landing, self.row.put());
        write_notes(&mut self.said, &self.wants);
        self.row.give_up();
        self.wants.clear();
        self.asked = None;
        see_own(&mut self.row, &mut self.notes, &self.landing, &self.said);
    }

    /// Entries stand where the put was to stand, these and no more, with these notes. Whether they are the put's own,
    /// which had landed before. Where one of them doesn't fit the graph, the request is broken. For want of memory none
    /// is seen, and the put is asked for again later.
    pub fn others(&mut self, now: u64, entries: &[Entry], notes: &[Note]) -> Result<bool, Misfit>
        requires asked { IsPut self.old.asked }
        requires some { 0 < length entries.now }
        requires each { length notes.now ≡ length entries.now }
        ensures met { IfOk result (λ landed. Meets self.old entries.now notes.now landed self.new) }
        ensures refused { IfErr result (λ m. Mismeets self.old now entries.now notes.now m self.new) }
    {
        self.asked = None;
        if self.row.reserve(entries.len()).is_err() {
            self.retry = later(now);
            return Err(Misfit {
                place: 0,
                why: LedgerFault::NoMemory,
            });
        }
        let landed = self.row.met(entries[0]);
        self.wants.clear();
        match see(&mut self.row, &mut self.notes, entries, notes) {
            Ok(()) => Ok(landed),
            Err(misfit) => {
                self.fault = Some(Fault::Broken);
                Err(misfit)
            }
        }
    }

    /// No answer came to the question, or a read or a close was refused. What was asked is asked again later, and a put
    /// as it is.
    pub fn unknown(&mut self, now: u64)
        ensures { Waits self.old now self.new }
    {
        let again = later(now);
        self.asked = None;
        self.retry = again;
    }

    /// The put was refused. It is given up. Where it was the finish of a stage with a payload, an error is put in its
    /// place at once. Where that is refused, too, the payload is put again later.
    pub fn refused(&mut self, now: u64)
        requires { IsPut self.old.asked }
        ensures { Refuses self.old now self.new }
    {
        self.row.give_up();
        self.wants.clear();
        self.asked = None;
        let is_error_due = refuse(&mut self.owed, self.of);
        if !is_error_due {
            self.retry = later(now);
        }
    }

    /// The request is closed with just what was seen; or more stands there, which is to be read.
    pub fn closed(&mut self, is_closed: bool)
        requires { IsClose self.old.asked }
        ensures { Closes self.old is_closed self.new }
    {
        self.asked = None;
        self.is_closed = is_closed;
        self.is_stale = !is_closed;
    }

    /// Nothing goes on in the request any more.
    pub fn breaks(&mut self, fault: Fault)
        ensures { Breaks self.old fault self.new }
    {
        self.row.give_up();
        self.wants.clear();
        self.asked = None;
        self.fault = Some(fault);
    }

    /// The function of a stage has ended.
    pub fn ended(&mut self, stage: u16, answer: EndsWith)
        requires { IsRunning self.old stage }
        ensures { Ends self.old stage answer self.new }
    {
        self.calls[stage as usize] = Progress::Ended;
        self.owed[stage as usize] = Some(Owed {
            answer,
            is_error: false,
        });
    }

    /// What the process has to do next by now, besides questions, if anything: the lowest stage is shown; or else the lowest is
    /// stopped; or else the lowest is called.
    pub fn next(&mut self, now: u64) -> Option<Step>
        ensures step { IfSome result (λ step. Tells self.old now step self.new) }
        ensures first { IfSome result (λ step. ComesFirst self.old now step) }
        ensures unchanged { IfNone result (self.new ≡ self.old) }
        ensures none { IfNone result (NothingToTell self.old now) }
    {
        let fault = self.fault;
        let ledger = self.row.replica().ledger();
        if let Some(stage) = to_show(&self.wanted, fault.is_some(), now, ledger) {
            let shown = shown(ledger, fault, stage);
            self.wanted[stage as usize] = None;
            return Some(Step::Show { stage, shown });
        }
        if fault.is_some() {
            return None;
        }
        if let Some(stage) = to_stop(&self.calls, ledger) {
            self.calls[stage as usize] = Progress::Stopped;
            return Some(Step::Stop { stage });
        }
        let replica = self.row.replica();
        if replica.seen().len() < self.words {
            return None;
        }
        let _ = replica.ledger();
        let stage = to_call(&self.calls, replica)?;
        let args = args_for(replica, stage);
        self.calls[stage as usize] = Progress::Runs;
        self.owed[stage as usize] = None;
        Some(Step::Call { stage, args })
    }
}
