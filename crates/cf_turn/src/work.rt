//! What a process has to do in one request.
ghost use Rattle.std.specs.Prelude.{◌≡◌, ◌+◌, ◌-◌, ◌<◌, ◌≤◌, ◌&&◌, [], ◌∷◌, ◌++◌, IfErr, IfNone, IfOk, IfSome, None, OnErr, OnOk, Some, false, length, max, nat_lt, slice_get, slice_set, true};
ghost use Rattle.std.specs.Bool.{OnFalse, OnTrue};
ghost use Rattle.cf_due.specs.Acts.{IsFitting};
ghost use Rattle.cf_forms.specs.Plans.{has_place};
ghost use Rattle.cf_part.specs.Answers.{Breaks, Ends, Grows, IsRunning, Misreads, PlansWords, Reads};
ghost use Rattle.cf_part.specs.Parts.{IsClose, IsPut, IsRead, MayPlan, later, words_wanted, question_of};
ghost use Rattle.cf_part.specs.Steps.{NothingToTell};
ghost use Rattle.cf_row.specs.Puts.{IsNoPut};
ghost use Rattle.cf_turn.specs.Answers.{ClosesWork, LandsWork, MeetsWork, MismeetsWork, RefusesWork, Settles, WaitsWork, is_put};
ghost use Rattle.cf_turn.specs.Closing.{IsOver};
ghost use Rattle.cf_turn.specs.Busy.{Takes};
ghost use Rattle.cf_turn.specs.Quiets.{ActsWait, EndsWait, IsAfter, IsAtRest, IsQuiet, IsTillShown};
ghost use Rattle.cf_turn.specs.Timers.{first_timer};
ghost use Rattle.cf_watch.specs.Watches.{Watch};
ghost use Rattle.cf_turn.specs.Turns.{ActIsPutOff, ActsOn, AsksStill, DoesDue, IsPutOff, Puts, Rests, RestsDue, Steps, TellsEnd, TellsTo, TellsWish, Turns, moment_of, wants_of};
ghost use Rattle.cf_turn.specs.Works.{NoEndTold, NobodyIsTold, NoneTold, is_closed_in, new_work, wish_of};

use crate::acting::stage_of;
use crate::busy::busy_in;
use crate::closing::{is_at, is_done};
use crate::planning::{Putting, putting_for, putting_of};
use crate::quiet::{Quiet, earlier, only_own, till_shown};
use crate::timers::first_timer;
use crate::turn::Turn;
use crate::users::{Place, Users};
use crate::wish::{End, Told, Wish};
use cf_due::{Act, act_on, next_due};
use cf_notes::{Note, function_of};
use cf_part::{EndsWith, Entry, Fault, Misfit, Part, PutFault, PutOf, Question, Step};
use cf_watch::Watch;
use std::alloc::{AllocError, Global};
use std::marker::Model;

/// A session's part in a request, with the acts that users wait for, and those who end the request.
#[derive(Drop)]
pub struct Work {
    part: Part,
    users: Users,
    is_acting: bool,
    is_doubtful: bool,
    closed_at: Option<usize>,
    quiet: Option<Quiet>,
}

impl Model for Work {
    ghost use Rattle.cf_turn.specs.Works.{Work};

    ghost Value = { Work };

    ghost use Rattle.std.specs.Prelude.{IfSome};
    ghost use Rattle.cf_turn.specs.Quiets.{IsQuiet};
    ghost use Rattle.cf_turn.specs.Works.{work_of};

    ghost view = { λ w. record {
      part = w.part;
      wishes = w.users.wishes;
      ends = w.users.ends;
      free = w.users.free;
      is_acting = w.is_acting;
      is_doubtful = w.is_doubtful;
      closed_at = w.closed_at;
    } };

    ghost invariant = { λ w. IfSome w.quiet
        (λ quiet. IsQuiet (work_of w.part w.users w.is_acting w.is_doubtful w.closed_at) quiet) };
}

impl Work {
    /// The work at a part of a request. Nobody waits for anything yet.
    pub fn new(alloc: Global, part: Part) -> Work
        ensures { result ≡ new_work part }
    {
        Work {
            part,
            users: Users::new(alloc),
            is_acting: false,
            is_doubtful: false,
            closed_at: None,
            quiet: None,
        }
    }

    /// The session's part in the request.
    pub fn part(&self) -> &Part
        ensures { result.now ≡ self.now.part }
    {
        &self.part
    }

    /// How many threads the request takes: one for each function that runs, for each stage that the session has and whose
    /// function wasn't called, and for each claim that is under way.
    pub fn busy(&self) -> usize
        ensures { Takes self.now.part result }
    {
        match self.quiet {
            Some(quiet) => quiet.busy,
            None => busy_in(&self.part),
        }
    }

    /// The first moment of a timer of an open stage that the store's clock hasn't come to, `u64::MAX` without one, and
    /// where nothing goes on any more.
    pub fn first_timer(&self, clock: u64) -> u64
        ensures { result ≡ first_timer clock self.now.part }
    {
        match self.quiet {
            Some(quiet) if clock < quiet.clock => quiet.clock,
            _ => first_timer(&self.part, clock),
        }
    }

    /// Finds places for so many users more who ask for an act or end the request. It fails only where there is no memory,
    /// and then changes nothing. While some are left, none is refused for want of memory.
    pub fn reserve(&mut self, more: usize) -> Result<(), AllocError>
        ensures found { OnOk result (self.new ≡ record self.old { free = max self.old.free more }) }
        ensures refused { OnErr result (self.new ≡ self.old) }
        ensures short { OnErr result (self.old.free < more) }
    {
        self.quiet = None;
        self.users.reserve(more)
    }

    /// A user asks for an act, and waits for it until a moment. It fails only where there is no memory and no place was
    /// found before, and then changes nothing.
    pub fn asks(&mut self, number: u64, act: Act, until: u64) -> Result<(), AllocError>
        requires { IsFitting act }
        ensures ok { OnOk result (self.new ≡ record self.old {
          wishes = self.old.wishes ++ wish_of number act until ∷ [];
          free = self.old.free - 1;
        }) }
        ensures refused { OnErr result (self.new ≡ self.old) }
        ensures short { OnErr result (self.old.free ≡ 0) }
    {
        self.quiet = None;
        self.users.add_act(Wish {
            number,
            act,
            until,
            answer: None,
        })
    }

    /// A user ends the request, and waits for that until a moment. It is closed once nothing is due in it. It fails only
    /// where there is no memory and no place was found before, and then changes nothing.
    pub fn ends(&mut self, number: u64, until: u64) -> Result<(), AllocError>
        ensures ok { OnOk result (self.new ≡ record self.old {
          ends = self.old.ends ++ (record { number = number; until = until }) ∷ [];
          free = self.old.free - 1;
        }) }
        ensures refused { OnErr result (self.new ≡ self.old) }
        ensures short { OnErr result (self.old.free ≡ 0) }
    {
        self.quiet = None;
        self.users.add_end(End { number, until })
    }

    /// Somebody waits for a stage.
    pub fn wants(&mut self, stage: u16)
        requires { stage < length self.old.part.wanted }
        ensures { self.new ≡ record self.old {
          part = record self.old.part { wanted = slice_set self.old.part.wanted stage (Some 0) };
        } }
    {
        self.quiet = None;
        self.part.wants(stage);
    }

    /// Nobody waits for a stage any more.
    pub fn lets_go(&mut self, stage: u16)
        requires { stage < length self.old.part.wanted }
        ensures { self.new ≡ record self.old {
          part = record self.old.part { wanted = slice_set self.old.part.wanted stage None };
        } }
    {
        self.quiet = None;
        self.part.lets_go(stage);
    }

    /// The payload of a stage that was told to be shown couldn't be read: it is shown again, but not at once.
    pub fn unread(&mut self, now: u64, stage: u16)
        requires { stage < length self.old.part.wanted }
        ensures { self.new ≡ record self.old {
          part = record self.old.part { wanted = slice_set self.old.part.wanted stage (Some (later now)) };
        } }
    {
        self.quiet = None;
        self.part.unread(now, stage);
    }

    /// Makes room for so many stages more, also while a put is under way. It fails only where there is no memory, and then
    /// changes nothing.
    pub fn grow(&mut self, alloc: Global, more: u16) -> Result<(), AllocError>
        requires place { has_place self.old.part.row.replica.plan.stages (self.old.part.row.replica.plan.room + more) ≡ true }
        ensures grown { OnOk result (Grows self.old.part more self.new.part) }
        ensures rest { self.new ≡ record self.old { part = self.new.part } }
        ensures unchanged { OnErr result (self.new ≡ self.old) }
    {
        self.quiet = None;
        self.part.grow(alloc, more)
    }

    /// The store tells that so many words stand in the row.
    pub fn told_length(&mut self, words: usize)
        ensures { self.new ≡ record self.old {
          part = record self.old.part { words = max self.old.part.words words };
        } }
    {
        self.quiet = None;
        self.part.told_length(words);
    }

    /// The row is to be read, though the store has told of nothing more there.
    pub fn reads_again(&mut self)
        ensures { self.new ≡ record self.old { part = record self.old.part { is_stale = true } } }
    {
        self.quiet = None;
        self.part.reads_again();
    }

    /// The function of a stage has ended.
    pub fn ended(&mut self, stage: u16, answer: EndsWith)
        requires { IsRunning self.old.part stage }
        ensures part { Ends self.old.part stage answer self.new.part }
        ensures rest { self.new ≡ record self.old { part = self.new.part } }
    {
        self.quiet = None;
        self.part.ended(stage, answer);
    }

    /// What the process does next in the request, if anything, by a moment of its own clock; where the watch tells which
    /// sessions are gone, the store's clock has come to `clock` at least, and a claim is put only if the process may claim
    /// a stage. Where there is nothing, it is asked again behind a call, or later.
    pub fn turn(&mut self, now: u64, watch: &Watch, clock: u64, may_claim: bool) -> Option<Turn>
        ensures turns { IfSome result (λ t.
            Turns self.old (moment_of now watch.now clock may_claim) t self.new) }
        ensures rests { IfNone result (Rests self.old (moment_of now watch.now clock may_claim) self.new) }
    {
        if self.is_quiet(now, clock, may_claim) {
            return None;
        }
        self.next(now, watch, clock, may_claim)
    }

    /// Whether it is known that nothing is to be done by now.
    fn is_quiet(&self, now: u64, clock: u64, may_claim: bool) -> bool
        ensures { OnTrue result
            ((watch : Watch) → Rests self.now (moment_of now watch clock may_claim) self.now) }
    {
        match self.quiet {
            Some(quiet) => quiet.covers(now, clock, may_claim),
            None => false,
        }
    }

    /// What is to be done next, where that isn't known.
    fn next(&mut self, now: u64, watch: &Watch, clock: u64, may_claim: bool) -> Option<Turn>
        ensures turns { IfSome result (λ t.
            Turns self.old (moment_of now watch.now clock may_claim) t self.new) }
        ensures rests { IfNone result (Rests self.old (moment_of now watch.now clock may_claim) self.new) }
    {
        if let Some(place) = self.tell(now) {
            return Some(Turn::Tell {
                number: place.number,
                told: place.told,
            });
        }
        if let Some(turn) = self.step(now) {
            return Some(turn);
        }
        if !self.part.may_plan(now) {
            return self.ask(now, watch, clock, may_claim);
        }
        match self.users.first_act() {
            Some(wish) => self.act(now, wish),
            None => self.due(now, watch, clock, may_claim),
        }
    }

    /// Asks the question that is due, if there is one.
    fn ask(&mut self, now: u64, watch: &Watch, clock: u64, may_claim: bool) -> Option<Turn>
        requires told { NobodyIsTold self.old now }
        requires steps { NothingToTell self.old.part now }
        requires may { ¬ MayPlan self.old.part now }
        ensures asks { IfSome result (λ t. AsksStill self.old now t self.new) }
        ensures none { IfNone result (question_of self.old.part now ≡ None) }
        ensures unchanged { IfNone result (self.new ≡ self.old) }
    {
        self.quiet = None;
        match self.part.question(now) {
            Some(question) => Some(Turn::Ask(question)),
            None => {
                self.rest(now, watch, clock, may_claim);
                None
            }
        }
    }

    /// Keeps how long nothing is to be done, where nothing is by now.
    fn rest(&mut self, now: u64, watch: &Watch, clock: u64, may_claim: bool)
        requires { IsAtRest self.old (moment_of now watch.now clock may_claim) }
        ensures { self.new ≡ self.old }
    {
        self.quiet = self.quiet_from(now, watch, clock, may_claim);
    }

    /// How long nothing is to be done, if that is known, where nothing is by now.
    fn quiet_from(&self, now: u64, watch: &Watch, clock: u64, may_claim: bool) -> Option<Quiet>
        requires { IsAtRest self.now (moment_of now watch.now clock may_claim) }
        ensures { IfSome result (λ quiet. IsQuiet self.now quiet) }
    {
        // (the contract alone reads these)
        let _watch = watch;
        let _clock = clock;
        if self.part.may_plan(now) && !only_own(self.part.view()) {
            return None;
        }
        Some(Quiet {
            until: self.till(now),
            clock: first_timer(&self.part, 0),
            claims: may_claim,
            busy: busy_in(&self.part),
        })
    }

    /// A moment up to which nobody is to be told anything, and nothing is asked again.
    fn till(&self, now: u64) -> u64
        ensures acts { ActsWait self.now.wishes result (length self.now.wishes) }
        ensures ends { EndsWait self.now.ends result (length self.now.ends) }
        ensures shown { IsTillShown self.now.part.wanted now result (length self.now.part.wanted) }
        ensures retry { IsAfter (Some self.now.part.retry) now result }
    {
        let users = self.users.wait_till();
        let shown = till_shown(self.part.wanted(), now);
        earlier(users.min(shown), Some(self.part.retry()), now)
    }

    /// Tells the first user who is to be told something by now.
    fn tell(&mut self, now: u64) -> Option<Place>
        ensures told { IfSome result (λ p. TellsTo self.old now p.number p.told self.new) }
        ensures unchanged { IfNone result (self.new ≡ self.old) }
        ensures none { IfNone result (NobodyIsTold self.old now) }
    {
        if let Some(place) = self.tell_wish(now) {
            return Some(place);
        }
        self.tell_end(now)
    }

    /// Tells the first user of an act.
    fn tell_wish(&mut self, now: u64) -> Option<Place>
        ensures told { IfSome result (λ p. TellsWish self.old now p.number p.told self.new) }
        ensures unchanged { IfNone result (self.new ≡ self.old) }
        ensures none { IfNone result (NoneTold self.old.part.fault now (length self.old.wishes) self.old.wishes) }
    {
        let place = self.users.act_to_tell(self.part.fault(), now)?;
        self.quiet = None;
        self.users.remove_act(place.at);
        self.is_acting = stays_first(self.is_acting, place.at);
        Some(place)
    }

    /// Tells the first who ends the request.
    fn tell_end(&mut self, now: u64) -> Option<Place>
        ensures told { IfSome result (λ p. TellsEnd self.old now p.number p.told self.new) }
        ensures unchanged { IfNone result (self.new ≡ self.old) }
        ensures none { IfNone result (NoEndTold self.old.part.fault (is_closed_in self.old) now
            (length self.old.ends) self.old.ends) }
    {
        let is_closed = is_at(self.closed_at, self.part.view().seen().len());
        let place = self.users.end_to_tell(self.part.fault(), is_closed, now)?;
        self.quiet = None;
        self.users.remove_end(place.at);
        Some(place)
    }

    /// What the part tells.
    fn step(&mut self, now: u64) -> Option<Turn>
        ensures steps { IfSome result (λ t. Steps self.old now t self.new) }
        ensures unchanged { IfNone result (self.new ≡ self.old) }
        ensures none { IfNone result (NothingToTell self.old.part now) }
    {
        self.quiet = None;
        match self.part.next(now)? {
            Step::Show { stage, shown } => Some(Turn::Show { stage, shown }),
            Step::Stop { stage } => Some(Turn::Stop { stage }),
            Step::Call { stage, args } => Some(Turn::Call {
                stage,
                function: function_of(self.part.notes(), stage).unwrap_or(0),
                args,
            }),
        }
    }

    /// Plans the act that waits longest, or tells its user why nothing is put.
    fn act(&mut self, now: u64, wish: Wish) -> Option<Turn>
        requires may { MayPlan self.old.part now }
        requires first { slice_get self.old.wishes 0 ≡ Some wish }
        requires fits { IsFitting wish.act }
        ensures acts { IfSome result (λ t. ActsOn self.old wish t self.new) }
        ensures off { IfNone result (ActIsPutOff self.old now wish self.new) }
    {
        match act_on(self.part.view(), self.part.notes(), wish.act) {
            Ok(acting) => {
                let question = self.put(now, putting_for(acting))?;
                Some(Turn::Ask(question))
            }
            Err(why) => {
                self.quiet = None;
                self.users.remove_act(0);
                Some(Turn::Tell {
                    number: wish.number,
                    told: Told::Not(why),
                })
            }
        }
    }

    /// Plans what is due, or else closes the request, where it is over.
    fn due(&mut self, now: u64, watch: &Watch, clock: u64, may_claim: bool) -> Option<Turn>
        requires told { NobodyIsTold self.old now }
        requires steps { NothingToTell self.old.part now }
        requires may { MayPlan self.old.part now }
        requires free { self.old.wishes ≡ [] }
        ensures does { IfSome result (λ t.
            DoesDue self.old (moment_of now watch.now clock may_claim) t self.new) }
        ensures rests { IfNone result (RestsDue self.old (moment_of now watch.now clock may_claim) self.new) }
    {
        self.quiet = None;
        let part = &self.part;
        match next_due(
            part.view(),
            part.notes(),
            part.owed(),
            watch,
            clock,
            may_claim,
        ) {
            Some(due) => {
                let question = self.put(now, putting_of(due))?;
                Some(Turn::Ask(question))
            }
            None if self.is_over(watch) => Some(Turn::Ask(self.part.close())),
            None => {
                self.rest(now, watch, clock, may_claim);
                None
            }
        }
    }

    /// Plans a put, and asks for it. Where it is refused for want of tokens or of memory, it waits.
    fn put(&mut self, now: u64, putting: Putting) -> Option<Question>
        requires { MayPlan self.old.part now }
        ensures puts { IfSome result (λ q. Puts self.old putting q self.new) }
        ensures off { IfNone result (IsPutOff self.old now putting self.new) }
    {
        let planned = self.plan(putting);
        self.quiet = None;
        if planned.is_err() {
            self.part.unknown(now);
            return None;
        }
        self.is_acting = putting.of == PutOf::Act;
        self.is_doubtful = false;
        self.part.question(now)
    }

    /// Plans a put.
    fn plan(&mut self, putting: Putting) -> Result<(), PutFault>
        requires put { self.old.part.row.put ≡ [] }
        requires asked { self.old.part.asked ≡ None }
        ensures planned { OnOk result (PlansWords self.old.part (wants_of putting) putting.of self.new.part) }
        ensures refused { OnErr result (self.new.part ≡ self.old.part) }
        ensures why { IfErr result (λ fault. IsNoPut self.old.part.row.replica self.old.part.row.next
            (words_wanted (wants_of putting)) fault) }
        ensures rest { self.new ≡ record self.old { part = self.new.part } }
    {
        self.quiet = None;
        match putting.second {
            Some(second) => self.part.plan(&[putting.first, second], putting.of),
            None => self.part.plan(&[putting.first], putting.of),
        }
    }

    /// Whether the request is to be closed, where nothing is due.
    fn is_over(&self, watch: &Watch) -> bool
        ensures over { OnTrue result (IsOver self.now watch.now) }
        ensures open { OnFalse result (¬ IsOver self.now watch.now) }
    {
        if is_at(self.closed_at, self.part.view().seen().len()) {
            return false;
        }
        self.users.has_ends() || is_done(&self.part, watch)
    }

    /// A read was answered, as `Part::read` has it.
    pub fn read(&mut self, now: u64, entries: &[Entry], notes: &[Note]) -> Result<(), Misfit>
        requires asked { IsRead self.old.part.asked }
        requires notes { length notes.now ≡ length entries.now }
        ensures all { OnOk result (Reads self.old.part entries.now notes.now self.new.part) }
        ensures front { IfErr result (λ m. Misreads self.old.part now entries.now notes.now m self.new.part) }
        ensures rest { self.new ≡ record self.old { part = self.new.part; is_acting = false } }
    {
        self.quiet = None;
        self.is_acting = false;
        self.part.read(now, entries, notes)
    }

    /// The put stands. If it is an act's, its user is to be told.
    pub fn stands(&mut self)
        requires { IsPut self.old.part.asked }
        ensures { LandsWork self.old self.new }
    {
        let stages = self.part.view().ledger().stages();
        self.quiet = None;
        self.part.stands();
        self.settle(true, stages);
    }

    /// Entries stand where the put was to stand, as `Part::others` has it. An act that had landed before is told so, and
    /// one that lost its place is decided again.
    pub fn others(&mut self, now: u64, entries: &[Entry], notes: &[Note]) -> Result<bool, Misfit>
        requires asked { IsPut self.old.part.asked }
        requires some { 0 < length entries.now }
        requires notes { length notes.now ≡ length entries.now }
        ensures met { IfOk result (λ landed. MeetsWork self.old entries.now notes.now landed self.new) }
        ensures refused { IfErr result (λ m. MismeetsWork self.old now entries.now notes.now m self.new) }
    {
        let stages = self.part.view().ledger().stages();
        self.quiet = None;
        match self.part.others(now, entries, notes) {
            Ok(landed) => {
                self.settle(landed, stages);
                Ok(landed)
            }
            Err(misfit) => {
                self.is_acting = self.is_acting && !self.part.put().is_empty();
                Err(misfit)
            }
        }
    }

    /// What became of the put is known: it landed behind so many stages, or it didn't.
    fn settle(&mut self, landed: bool, stages: u16)
        requires { stages ≤ 4096 }
        ensures { Settles self.old landed stages self.new }
    {
        self.quiet = None;
        if landed && self.is_acting {
            if let Some(wish) = self.users.first_act() {
                self.users.answer_first(Told::Stands {
                    stage: stage_of(wish.act, stages),
                });
            }
        }
        self.is_acting = false;
    }

    /// The put was refused, as `Part::refused` has it. The user of an act is to be told. But behind a missing answer the
    /// act may stand: while its user waits, the put is asked for again, as it is.
    pub fn refused(&mut self, now: u64)
        requires { IsPut self.old.part.asked }
        ensures { RefusesWork self.old now self.new }
    {
        self.quiet = None;
        if self.is_acting && self.is_doubtful {
            self.part.unknown(now);
            return;
        }
        self.part.refused(now);
        if self.is_acting {
            self.users.answer_first(Told::Refused);
        }
        self.is_acting = false;
    }

    /// No answer came to the question, or a read or a close was refused. It is asked again later.
    pub fn unknown(&mut self, now: u64)
        ensures { WaitsWork self.old now self.new }
    {
        self.quiet = None;
        self.is_doubtful = self.is_doubtful || is_put(self.part.asked());
        self.part.unknown(now);
    }

    /// The request is closed with just what was seen; or more stands there, which is to be read.
    pub fn closed(&mut self, is_closed: bool)
        requires { IsClose self.old.part.asked }
        ensures { ClosesWork self.old is_closed self.new }
    {
        self.quiet = None;
        self.part.closed(is_closed);
        if is_closed {
            self.closed_at = Some(self.part.view().seen().len());
        }
    }

    /// Nothing goes on in the request any more. All users are to be told.
    pub fn breaks(&mut self, fault: Fault)
        ensures part { Breaks self.old.part fault self.new.part }
        ensures rest { self.new ≡ record self.old { part = self.new.part; is_acting = false } }
    {
        self.quiet = None;
        self.part.breaks(fault);
        self.is_acting = false;
    }
}

/// Whether a put is asked for.
fn is_put(asked: Option<Question>) -> bool
    ensures { result ≡ is_put asked }
{
    match asked {
        Some(Question::Put { .. }) => true,
        _ => false,
    }
}

/// Whether the put is still that of the first act, once one is left out.
fn stays_first(is_acting: bool, at: usize) -> bool
    ensures { result ≡ (is_acting && nat_lt 0 at) }
{
    is_acting && at > 0
}
