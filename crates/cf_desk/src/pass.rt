//! A caller's pass: its seat at the row, and what it has seen.
ghost use Rattle.std.specs.Prelude.{◌≡◌, ◌<◌, ◌≤◌, ◌+◌, ◌↔◌, IfSome, IsTrue, length};
ghost use Rattle.std.specs.Bool.{OnTrue};
ghost use Rattle.cf_forms.specs.Plans.{function_at};
ghost use Rattle.cf_model.specs.States.{outcome_at};
ghost use Rattle.cf_desk.specs.Faults.{AsksStage, HasRoom, IsFitting, KnowsStages};
ghost use Rattle.cf_desk.specs.Views.{HasCaller, HoldsClaim, IsOwnEvent, Joins, Reads, caller_of, own_event, place_in, ready_in, stages_in, state_in};

use crate::calls::{Joined, Rec, joined_as};
use crate::row::SeatView;
use atomic_table::Seat;
use cf_core::Graph;
use cf_event::{LAST_FUNCTION, is_function};
use cf_forms::fits_form;
use cf_model::{Ask, Call, Told};
use cf_outcome::Outcome;
use std::marker::Model;

/// A caller's seat and what it has seen. It moves between threads by ownership.
#[derive(Drop)]
pub struct Pass {
    pub(crate) seat: Seat<u8, SeatView>,
    pub(crate) caller: u8,
    pub(crate) count: u16,
    pub(crate) functions: u32,
    pub(crate) replica: Graph,
    pub(crate) records: Vec<Rec>,
    pub(crate) calls: u16,
    // It keeps two neighbours out of one cache line.
    pub(crate) padding: [u64; 16],
}

impl Model for Pass {
    ghost use Rattle.cf_desk.specs.Views.{Pass, known_at};

    ghost Value = { Pass };

    ghost use Rattle.cf_desk.specs.Desks.{PassKept};

    ghost view = { λ p. record { table = p.seat.table_id; known = known_at p.seat.me; records = p.records.items; calls = p.calls } };

    ghost invariant = { PassKept };
}

impl Pass {
    /// The number of its caller.
    pub fn caller(&self) -> u8
        ensures { result ≡ caller_of self.now }
    {
        self.caller
    }

    /// How many events it has seen.
    pub fn seen(&self) -> u16
        ensures seen { result ≡ place_in self.now }
        ensures few { result ≤ self.now.table.words }
    {
        self.count
    }

    /// How many records it still takes.
    pub fn left(&self) -> u16
        ensures { result + length self.now.records ≡ self.now.calls }
    {
        self.calls - self.records.len() as u16
    }

    /// Whether there is such a stage in what the pass has seen.
    pub fn has(&self, i: u16) -> bool
        ensures { IsTrue result ↔ (i < stages_in self.now) }
    {
        i < self.stages()
    }

    /// The number of a stage's function, if it has one. The stage is there in what the pass has seen.
    pub fn function(&self, i: u16) -> Option<u16>
        requires { i < stages_in self.now }
        ensures { result ≡ function_at (state_in self.now).plan.stages i }
    {
        self.replica.function(i)
    }

    /// Whether its caller has an open claim of a stage, in what the pass has seen: it was granted, and isn't finished yet.
    /// Whatever other callers do, it stays open (`laws::claims_stay_open`).
    pub fn holds(&self, i: u16) -> bool
        ensures { IsTrue result ↔ HoldsClaim self.now i }
    {
        i < self.stages() && self.replica.claimant(i) == Some(self.caller)
    }

    /// Whether the stages that a call names are there, in what the pass has seen.
    #[inline(always)]
    pub(crate) fn names(&self, call: Call) -> bool
        ensures names { IsTrue result ↔ KnowsStages self.now call }
        ensures few { stages_in self.now ≤ 4096 }
        ensures caller { HasCaller self.now.known }
    {
        let stages = self.stages();
        match call {
            Call::Complete(stage, _) => stage < stages,
            Call::Fail(stage, _) => stage < stages,
            Call::FailAs(stage, _) => stage < stages,
            Call::Cancel(stage) => stage < stages,
            Call::Claim(stage) => stage < stages,
            Call::Finish(stage, _) => stage < stages,
            Call::Tick(_) => true,
            Call::Attach(_, of, _) => of.are_below(stages),
        }
    }

    /// Whether a stage that a call attaches fits its form, and its function is one of the desk's that a word has room for.
    /// The stages that the call names are there. Where it fits, its event has a word.
    #[inline(always)]
    #[tactic(auto, using(crate::proofs::Events::sources_small))]
    pub(crate) fn fits(&self, call: Call) -> bool
        requires names { KnowsStages self.now call }
        requires few { stages_in self.now ≤ 4096 }
        requires caller { HasCaller self.now.known }
        ensures fits { IsTrue result ↔ IsFitting self.now (own_event self.now call) }
        ensures event { OnTrue result (IsOwnEvent self.now call) }
    {
        match call {
            Call::Complete(_, _) => true,
            Call::Fail(_, _) => true,
            Call::FailAs(_, _) => true,
            Call::Cancel(_) => true,
            Call::Claim(_) => true,
            Call::Finish(_, _) => true,
            Call::Tick(_) => true,
            Call::Attach(form, of, function) => {
                fits_form(form, of.count(), function.is_some())
                    && is_function(function, self.functions)
                    && function.unwrap_or(0) <= LAST_FUNCTION
            }
        }
    }

    /// Whether a question is on a stage of the plan.
    pub(crate) fn knows(&self, ask: Ask) -> bool
        ensures { IsTrue result ↔ AsksStage self.now ask }
    {
        let (Ask::Now(stage, _) | Ask::Outcome(stage)) = ask;
        stage < self.stages()
    }

    /// How many stages the plan has, in what the pass has seen.
    fn stages(&self) -> u16
        ensures count { result ≡ stages_in self.now }
        ensures few { result ≤ 4096 }
        ensures caller { HasCaller self.now.known }
    {
        self.replica.stages()
    }

    /// The outcome of a stage in what the pass has seen.
    pub(crate) fn outcome(&mut self, stage: u16) -> Option<Outcome>
        requires { stage < stages_in self.old }
        ensures told { result ≡ outcome_at (state_in self.old) stage }
        ensures same { self.new ≡ self.old }
    {
        self.replica.outcome(stage)
    }

    /// The lowest ready stage in what the pass has seen.
    pub(crate) fn lowest_ready(&mut self) -> Option<u16>
        ensures told { result ≡ ready_in self.old }
        ensures there { IfSome result (λ stage. stage < stages_in self.old) }
        ensures same { self.new ≡ self.old }
    {
        self.replica.lowest_ready()
    }

    /// Records and tells what a join of a stage is answered of what the pass has seen.
    pub(crate) fn tell_joined(&mut self, stage: u16) -> Joined
        requires call { HasRoom self.old }
        requires stage { stage < stages_in self.old }
        ensures { Joins self.old stage result self.new × (self.new.known ≡ self.old.known) }
    {
        let outcome = self.outcome(stage);
        self.tell(Ask::Outcome(stage));
        joined_as(outcome)
    }

    /// Records and tells what is asked of what the pass has seen.
    pub(crate) fn tell(&mut self, ask: Ask) -> Told
        requires call { HasRoom self.old }
        requires asked { AsksStage self.old ask }
        ensures { Reads self.old ask result self.new × (self.new.known ≡ self.old.known) }
    {
        let told = self.replica.tell(ask);
        let record = Rec::Saw {
            place: self.count,
            ask,
            told,
        };
        self.records.push_reserved(record);
        told
    }
}
