//! The stages of a graph, of which some wait for treatment.
mod attaching;
mod restarting;
mod sweeping;

ghost use Rattle.std.specs.Prelude.{◌≡◌, ◌+◌, ◌<◌, ◌≤◌, [], All, IfNone, IfOk, IfSome, None, Some, drop, false, length, position, slice_get, slice_set, true, vec_capacity, if◌then◌else◌, ℕ};
ghost use Rattle.cf_forms.specs.declared.forms.Landing.TheVariants.{Links as LinksTo};
ghost use Rattle.cf_forms.specs.Forms.{composes, starts};
ghost use Rattle.cf_forms.specs.Plans.{dependents_of, form_at};
ghost use Rattle.cf_plan.specs.Growing.{opening_dependents};
ghost use Rattle.cf_model.specs.declared.stage.Stage.TheVariants.{Claimed};
ghost use Rattle.cf_model.specs.Graphs.{NoneLeftFor, NoneLeftUpTo, NoneReady, rank, stage_in};
ghost use Rattle.cf_model.specs.States.{is_ready, outcome_of};
ghost use Rattle.cf_core.specs.declared.kept.Treated.TheVariants.{Ready as MadeReady};
ghost use Rattle.cf_core.specs.Keeping.Changes.{HasPlaces, TellOn, WriteOn};
ghost use Rattle.cf_core.specs.Keeping.Landings.{first_source};
ghost use Rattle.cf_core.specs.Keeping.Links.{list_at};
ghost use Rattle.cf_core.specs.Keeping.Sound.{AreTreated, HasLists, ReadyIsTreated, StayTaken, StayTakenBut, is_taken, kept_at, links_after};
ghost use Rattle.cf_core.specs.Keeping.SoundStages.{AreSound, HasListRoom, HasRoom, KeptMovesAlone, KeptMovesFurther, SameRoom, SameView, lowest_marked_in, lowest_ready_in, marks_once_noted, marks_once_put, marks_once_settled, settled_view_of};
ghost use Rattle.cf_core.specs.Keeping.Sweeps.{AreSwept};
ghost use Rattle.cf_core.specs.Keeping.Turns.{TurnsBelowReady, TurnsUpTo, turned};
ghost use Rattle.cf_core.specs.Keeping.Starts.{mark_starts, mark_those};
ghost use Rattle.cf_core.specs.Keeping.Taking.{made_of};
ghost use Rattle.cf_core.specs.Keeping.Treatment.{became, stages_of};
ghost use Rattle.cf_core.specs.Keeping.Steps.{AreAtStart, StageIsClaimed, StageIsLinked, StageLands, StageSettles};

use crate::cells::Cells;
use crate::kept::{KeptStage, Treated};
use crate::links::Links;
use crate::mark::{mark_attached_dependents, mark_each, mark_few, mark_linked};
use crate::treat::treat;
use cf_bits::BitSet;
use cf_forms::{Form, Landing, composes, starts};
use cf_model::Stage;
use cf_outcome::{Outcome, wrap};
use cf_plan::{GrowingPlan, Plan};
use std::alloc::{AllocError, Global};

/// The stages of a plan: what is kept of each, which of them are marked for treatment, which are ready, which are linked
/// to each, how many steps settled or linked a stage so far, and how many turns were taken.
#[derive(Drop)]
pub struct Stages {
    kept: Cells,
    marks: BitSet,
    ready: BitSet,
    links: Links,
    steps: u32,
    turns: u64,
}

impl Stages {
    /// The stages of a plan, none of which was treated, with room for all that may be attached. Those that have something to
    /// take from the start on are marked.
    pub fn new(alloc: Global, plan: &GrowingPlan) -> Result<Stages, AllocError>
        ensures start { IfOk result (λ s. AreAtStart plan.now.stages s) }
        ensures turns { IfOk result (λ s. s.turns ≡ 0) }
        ensures sound { IfOk result (λ s. AreSound plan.now.stages s) }
        ensures room { IfOk result (λ s. HasRoom plan.now.opened (length plan.now.stages + plan.now.room) s) }
    {
        let count = plan.stages();
        let room = plan.room();
        let kept = Cells::new(alloc, count, room)?;
        let mut marks = BitSet::new(alloc, count)?;
        let ready = BitSet::new(alloc, count)?;
        let links = Links::new(alloc, list_count(plan) as usize)?;
        mark_starts(plan, &mut marks);
        Ok(Stages {
            kept,
            marks,
            ready,
            links,
            steps: 0,
            turns: 0,
        })
    }

    /// Writes one stage. A stage that settles marks its dependents and the stages linked to it.
    ///
    /// It stands in each caller's own code, so that a new stage is written part by part and never read back as a whole.
    #[inline(always)]
    fn put(&mut self, plan: &GrowingPlan, d: u16, new: KeptStage)
        requires stage { d < length plan.now.stages }
        requires all_kept { length self.old.kept.items ≡ length plan.now.stages }
        requires all_marks { length self.old.marks ≡ length plan.now.stages }
        requires all_ready { length self.old.ready ≡ length plan.now.stages }
        requires linked { All (λ i. i < length plan.now.stages) (list_at self.old.links d) }
        ensures kept { self.new.kept.items ≡ slice_set self.old.kept.items d new }
        ensures marks { self.new.marks ≡ marks_once_put plan.now.stages self.old d new }
        ensures ready { self.new.ready ≡ slice_set self.old.ready d (is_ready new.stage) }
        ensures links { self.new.links ≡ links_after self.old.links d new.stage }
        ensures steps { self.new.steps ≡ self.old.steps }
        ensures turns { self.new.turns ≡ self.old.turns }
        ensures room { SameRoom self.old self.new }
    {
        self.kept.put(d, new);
        self.note(plan, d);
    }

    /// Notes what a stage is that was written: a ready one is among the ready ones, and no other is. One that settled
    /// marks its dependents and the stages linked to it.
    #[inline(always)]
    fn note(&mut self, plan: &GrowingPlan, d: u16)
        requires stage { d < length plan.now.stages }
        requires all_kept { length self.old.kept.items ≡ length plan.now.stages }
        requires all_marks { length self.old.marks ≡ length plan.now.stages }
        requires all_ready { length self.old.ready ≡ length plan.now.stages }
        requires linked { All (λ i. i < length plan.now.stages) (list_at self.old.links d) }
        ensures kept { self.new.kept ≡ self.old.kept }
        ensures marks { self.new.marks ≡ marks_once_noted plan.now.stages self.old d }
        ensures ready { self.new.ready ≡ slice_set self.old.ready d (is_ready ((kept_at self.old.kept.items d).stage)) }
        ensures links { self.new.links ≡ links_after self.old.links d ((kept_at self.old.kept.items d).stage) }
        ensures steps { self.new.steps ≡ self.old.steps }
        ensures turns { self.new.turns ≡ self.old.turns }
        ensures room { SameRoom self.old self.new }
    {
        match self.kept.stage(d) {
            Stage::Settled(_) => {
                self.ready.remove(d);
                self.mark_all_after(plan, d);
            }
            Stage::Ready(_) => self.ready.insert(d),
            _ => self.ready.remove(d),
        }
    }

    /// Notes what its treatment made of a stage, which waited and so wasn't among the ready ones.
    #[inline(always)]
    fn note_treated(&mut self, plan: &GrowingPlan, d: u16, treated: Treated)
        requires stage { d < length plan.now.stages }
        requires told { treated ≡ became ((kept_at self.old.kept.items d).stage) }
        requires waited { slice_get self.old.ready d ≡ Some false }
        requires all_kept { length self.old.kept.items ≡ length plan.now.stages }
        requires all_marks { length self.old.marks ≡ length plan.now.stages }
        requires linked { All (λ i. i < length plan.now.stages) (list_at self.old.links d) }
        ensures kept { self.new.kept ≡ self.old.kept }
        ensures marks { self.new.marks ≡ marks_once_noted plan.now.stages self.old d }
        ensures ready { self.new.ready ≡ slice_set self.old.ready d (is_ready ((kept_at self.old.kept.items d).stage)) }
        ensures links { self.new.links ≡ links_after self.old.links d ((kept_at self.old.kept.items d).stage) }
        ensures steps { self.new.steps ≡ self.old.steps }
        ensures turns { self.new.turns ≡ self.old.turns }
        ensures room { SameRoom self.old self.new }
    {
        match treated {
            Treated::Same => {}
            Treated::Ready => self.ready.insert(d),
            Treated::Settled => self.mark_all_after(plan, d),
        }
    }

    /// Marks the dependents of a stage that settled, and the stages linked to it, of which there are none then. Most stages
    /// have one dependent at most, and none is attached or linked to them: this takes no call of its own.
    #[inline(always)]
    fn mark_after(&mut self, plan: &GrowingPlan, d: u16)
        requires stage { d < length plan.now.stages }
        requires all_kept { length self.old.kept.items ≡ length plan.now.stages }
        requires all_marks { length self.old.marks ≡ length plan.now.stages }
        requires linked { All (λ i. i < length plan.now.stages) (list_at self.old.links d) }
        ensures marks { self.new.marks ≡ marks_once_settled plan.now.stages self.old d }
        ensures links { self.new.links ≡ slice_set self.old.links d [] }
        ensures kept { self.new.kept ≡ self.old.kept }
        ensures ready { self.new.ready ≡ self.old.ready }
        ensures steps { self.new.steps ≡ self.old.steps }
        ensures turns { self.new.turns ≡ self.old.turns }
    {
        if self.has_attached_or_linked(plan, d) {
            self.mark_all_after(plan, d);
        } else {
            mark_few(&self.kept, &mut self.marks, plan.dependents(d));
        }
    }

    /// Whether attached stages name a stage as a source, or stages are linked to it.
    #[inline(always)]
    fn has_attached_or_linked(&self, plan: &GrowingPlan, d: u16) -> bool
        requires stage { d < length plan.now.stages }
        ensures dependents { result ≡ false → dependents_of plan.now.stages d ≡ opening_dependents plan.now d }
        ensures links { result ≡ false → list_at self.now.links d ≡ [] }
    {
        let mut attached = plan.attached_dependents(d);
        match attached.pop() {
            Some(_) => true,
            None => self.links.has(d),
        }
    }

    /// Marks the dependents of a stage that settled, the attached ones too, and the stages linked to it.
    fn mark_all_after(&mut self, plan: &GrowingPlan, d: u16)
        requires stage { d < length plan.now.stages }
        requires all_kept { length self.old.kept.items ≡ length plan.now.stages }
        requires all_marks { length self.old.marks ≡ length plan.now.stages }
        requires linked { All (λ i. i < length plan.now.stages) (list_at self.old.links d) }
        ensures marks { self.new.marks ≡ marks_once_settled plan.now.stages self.old d }
        ensures links { self.new.links ≡ slice_set self.old.links d [] }
        ensures kept { self.new.kept ≡ self.old.kept }
        ensures ready { self.new.ready ≡ self.old.ready }
        ensures steps { self.new.steps ≡ self.old.steps }
        ensures turns { self.new.turns ≡ self.old.turns }
    {
        mark_each(&self.kept, &mut self.marks, plan.dependents(d));
        mark_attached_dependents(&self.kept, &mut self.marks, plan.attached_dependents(d));
        mark_linked(&self.kept, &mut self.marks, &mut self.links, d);
    }

    /// Treats the lowest marked stage: this is a turn. Nothing else is called a turn. It says what it made of the stage.
    #[inline(always)]
    fn turn(&mut self, plan: &GrowingPlan, m: u16) -> Treated
        requires sound { AreSound plan.now.stages self.old }
        requires lowest { position (λ b. b) self.old.marks ≡ Some m }
        ensures turned { self.new.kept.items ≡ turned plan.now.stages self.old.kept.items m }
        ensures told { result ≡ made_of ((kept_at self.old.kept.items m).stage) ((kept_at self.new.kept.items m).stage) }
        ensures counted { self.new.turns ≡ self.old.turns + 1 }
        ensures ready { result ≡ MadeReady → self.new.ready ≡ slice_set self.old.ready m true }
        ensures marks { result ≡ MadeReady → self.new.marks ≡ slice_set self.old.marks m false }
        ensures above { NoneLeftUpTo m (lowest_marked_in self.new) }
        ensures same { SameView plan.now.stages self.old self.new }
        ensures taken { StayTaken self.old.kept.items self.new.kept.items }
        ensures room { SameRoom self.old self.new }
        ensures sound { AreSound plan.now.stages self.new }
    {
        self.marks.remove(m);
        self.turns += 1;
        if self.kept.is_waiting(m) {
            let treated = treat(&mut self.kept, plan.form(m), plan.sources(m), m);
            self.note_treated(plan, m, treated);
            treated
        } else {
            Treated::Same
        }
    }

    /// Treats all marked stages up to stage `d`, the lowest first.
    pub fn treat_up_to(&mut self, plan: &GrowingPlan, d: u16)
        requires sound { AreSound plan.now.stages self.old }
        requires stage { d < length plan.now.stages }
        ensures treated { AreTreated (d + 1) self.new.marks }
        ensures same { SameView plan.now.stages self.old self.new }
        ensures taken { StayTaken self.old.kept.items self.new.kept.items }
        ensures turns { TurnsUpTo plan.now.stages d self.old self.new }
        ensures still { NoneLeftUpTo d (position (λ b. b) self.old.marks) → self.new ≡ self.old }
        ensures room { SameRoom self.old self.new }
        ensures sound { AreSound plan.now.stages self.new }
    {
        while let Some(m) = self.marked_up_to(d) {
            self.turn(plan, m);
        }
    }

    /// Treats all marked stages, the lowest first.
    pub fn treat_all(&mut self, plan: &GrowingPlan)
        requires sound { AreSound plan.now.stages self.old }
        ensures treated { AreTreated (length plan.now.stages) self.new.marks }
        ensures still { position (λ b. b) self.old.marks ≡ None → self.new ≡ self.old }
        ensures same { SameView plan.now.stages self.old self.new }
        ensures taken { StayTaken self.old.kept.items self.new.kept.items }
        ensures counted { self.old.turns ≤ self.new.turns }
        ensures room { SameRoom self.old self.new }
        ensures sound { AreSound plan.now.stages self.new }
    {
        let count = plan.stages();
        if count > 0 {
            self.treat_up_to(plan, count - 1);
        }
    }

    /// The lowest marked stage, if it isn't above stage `d`.
    fn marked_up_to(&self, d: u16) -> Option<u16>
        requires { d < length self.now.marks }
        ensures some { IfSome result (λ m. position (λ b. b) self.now.marks ≡ Some m) }
        ensures within { IfSome result (λ m. m ≤ d) }
        ensures none { IfNone result (AreTreated (d + 1) self.now.marks) }
    {
        match self.marks.lowest() {
            Some(m) if m <= d => Some(m),
            _ => None,
        }
    }

    /// The lowest ready stage. All marked stages below it are treated.
    #[inline(always)]
    pub fn lowest_ready(&mut self, plan: &GrowingPlan) -> Option<u16>
        requires sound { AreSound plan.now.stages self.old }
        ensures told { result ≡ lowest_ready_in plan.now.stages self.old }
        ensures same { SameView plan.now.stages self.old self.new }
        ensures taken { StayTaken self.old.kept.items self.new.kept.items }
        ensures turns { TurnsBelowReady plan.now.stages self.old self.new }
        ensures still { NoneLeftFor result (position (λ b. b) self.old.marks) → self.new ≡ self.old }
        ensures room { SameRoom self.old self.new }
        ensures sound { AreSound plan.now.stages self.new }
    {
        match self.marks.lowest() {
            None => self.ready.lowest(),
            Some(_) => self.lowest_ready_marked(plan),
        }
    }

    /// The same in a call of its own.
    fn lowest_ready_marked(&mut self, plan: &GrowingPlan) -> Option<u16>
        requires sound { AreSound plan.now.stages self.old }
        ensures told { result ≡ lowest_ready_in plan.now.stages self.old }
        ensures same { SameView plan.now.stages self.old self.new }
        ensures taken { StayTaken self.old.kept.items self.new.kept.items }
        ensures turns { TurnsBelowReady plan.now.stages self.old self.new }
        ensures still { NoneLeftFor result (position (λ b. b) self.old.marks) → self.new ≡ self.old }
        ensures room { SameRoom self.old self.new }
        ensures sound { AreSound plan.now.stages self.new }
    {
        // A stage that a turn made ready here is the lowest, so it isn't looked for again.
        while let Some(m) = self.marked_below_ready() {
            if let Treated::Ready = self.turn(plan, m) {
                return Some(m);
            }
        }
        self.ready.lowest()
    }

    /// The lowest marked stage, if it is below all ready ones.
    fn marked_below_ready(&self) -> Option<u16>
        requires { length self.now.marks ≡ length self.now.ready }
        ensures some { IfSome result (λ m. position (λ b. b) self.now.marks ≡ Some m) }
        ensures below { IfSome result (λ m. AreTreated (m + 1) self.now.ready) }
        ensures none { IfNone result (ReadyIsTreated self.now.marks self.now.ready) }
    {
        match self.marks.lowest() {
            None => None,
            Some(m) => match self.ready.lowest() {
                Some(r) if r <= m => None,
                _ => Some(m),
            },
        }
    }

    /// Takes at most `k` turns, each of the lowest marked stage, and says how many.
    pub fn nudge(&mut self, plan: &GrowingPlan, k: u32) -> u32
        requires sound { AreSound plan.now.stages self.old }
        ensures few { result ≤ k }
        ensures counted { self.new.turns ≡ self.old.turns + result }
        ensures all { result < k → position (λ b. b) self.new.marks ≡ None }
        ensures same { SameView plan.now.stages self.old self.new }
        ensures taken { StayTaken self.old.kept.items self.new.kept.items }
        ensures room { SameRoom self.old self.new }
        ensures sound { AreSound plan.now.stages self.new }
    {
        let mut taken = 0;
        while taken < k {
            match self.marks.lowest() {
                Some(m) => {
                    self.turn(plan, m);
                }
                None => return taken,
            }
            taken += 1;
        }
        taken
    }

    /// Takes all turns that are left, each of the lowest marked stage, and sets the flags of the stages that they change. A
    /// tick calls it once for each of its limits.
    pub fn tell_rest(&mut self, plan: &GrowingPlan, changed: &mut BitSet)
        requires sound { AreSound plan.now.stages self.old }
        requires flags { length plan.now.stages ≤ length changed.old }
        ensures told { TellOn (stages_of self.old.kept.items) changed.old (stages_of self.new.kept.items) changed.new }
        ensures none { position (λ b. b) self.new.marks ≡ None }
        ensures same { SameView plan.now.stages self.old self.new }
        ensures taken { StayTaken self.old.kept.items self.new.kept.items }
        ensures counted { self.old.turns ≤ self.new.turns }
        ensures flags { length changed.new ≡ length changed.old }
        ensures room { SameRoom self.old self.new }
        ensures sound { AreSound plan.now.stages self.new }
    {
        while let Some(m) = self.marks.lowest() {
            match self.turn(plan, m) {
                Treated::Same => {}
                _ => changed.insert(m),
            }
        }
    }

    /// Takes all turns that are left, each of the lowest marked stage, and writes the stages that they change behind those
    /// of a row. These rise, since a turn marks stages above its own alone.
    #[inline(always)]
    pub fn write_rest(&mut self, plan: &GrowingPlan, news: &mut Vec<u16>)
        requires sound { AreSound plan.now.stages self.old }
        requires places { HasPlaces (length plan.now.stages) (lowest_marked_in self.old)
            (length news.old.items) (vec_capacity news.old) }
        ensures told { WriteOn (stages_of self.old.kept.items) (lowest_marked_in self.old) news.old.items
            (stages_of self.new.kept.items) (lowest_marked_in self.new) news.new.items }
        ensures none { lowest_marked_in self.new ≡ None }
        ensures places { vec_capacity news.new ≡ vec_capacity news.old }
        ensures same { SameView plan.now.stages self.old self.new }
        ensures taken { StayTaken self.old.kept.items self.new.kept.items }
        ensures counted { self.old.turns ≤ self.new.turns }
        ensures room { SameRoom self.old self.new }
        ensures sound { AreSound plan.now.stages self.new }
    {
        if self.marks.lowest().is_some() {
            self.write_marked(plan, news);
        }
    }

    /// The same in a call of its own.
    fn write_marked(&mut self, plan: &GrowingPlan, news: &mut Vec<u16>)
        requires sound { AreSound plan.now.stages self.old }
        requires places { HasPlaces (length plan.now.stages) (lowest_marked_in self.old)
            (length news.old.items) (vec_capacity news.old) }
        ensures told { WriteOn (stages_of self.old.kept.items) (lowest_marked_in self.old) news.old.items
            (stages_of self.new.kept.items) (lowest_marked_in self.new) news.new.items }
        ensures none { lowest_marked_in self.new ≡ None }
        ensures places { vec_capacity news.new ≡ vec_capacity news.old }
        ensures same { SameView plan.now.stages self.old self.new }
        ensures taken { StayTaken self.old.kept.items self.new.kept.items }
        ensures counted { self.old.turns ≤ self.new.turns }
        ensures room { SameRoom self.old self.new }
        ensures sound { AreSound plan.now.stages self.new }
    {
        while let Some(m) = self.marks.lowest() {
            match self.turn(plan, m) {
                Treated::Same => {}
                _ => news.push_reserved(m),
            }
        }
    }

    /// How far a stage has come.
    #[inline(always)]
    pub fn rank(&self, plan: &GrowingPlan, i: u16) -> u8
        requires sound { AreSound plan.now.stages self.now }
        requires stage { i < length plan.now.stages }
        ensures { result ≡ rank (stage_in (stages_of self.now.kept.items) i) }
    {
        let _plan = plan;
        match self.kept.stage(i) {
            Stage::Pending => 0,
            Stage::Ready(_) => 1,
            Stage::Claimed => 2,
            Stage::Linked(_) => 3,
            Stage::Settled(_) => 4,
        }
    }

    /// The lowest stage from a number on, and below another, that is kept as ready.
    pub fn next_ready(&self, from: u16, count: u16) -> Option<u16>
        requires { count ≤ length self.now.kept.items }
        ensures ready { IfSome result (λ i. is_ready (stage_in (stages_of self.now.kept.items) i) ≡ true) }
        ensures above { IfSome result (λ i. from ≤ i) }
        ensures below { IfSome result (λ i. i < count) }
        ensures first { IfSome result (λ i. NoneReady from i (stages_of self.now.kept.items)) }
        ensures none { IfNone result (NoneReady from count (stages_of self.now.kept.items)) }
    {
        for i in from..count {
            if self.kept.is_ready(i) {
                return Some(i);
            }
        }
        None
    }

    /// How many turns were taken so far.
    pub fn turns(&self) -> u64
        ensures { result ≡ self.now.turns }
    {
        self.turns
    }

    /// A stage as it is kept.
    #[inline(always)]
    pub fn stage(&self, i: u16) -> Stage
        requires { i < length self.now.kept.items }
        ensures { result ≡ (kept_at self.now.kept.items i).stage }
    {
        self.kept.stage(i)
    }

    /// Settles a stage that isn't settled, in a step of its own. No stage up to it waits for treatment.
    #[inline(always)]
    pub fn settle(&mut self, plan: &GrowingPlan, d: u16, o: Outcome)
        requires sound { AreSound plan.now.stages self.old }
        requires stage { d < length plan.now.stages }
        requires treated { AreTreated (d + 1) self.old.marks }
        requires unsettled { outcome_of ((kept_at self.old.kept.items d).stage) ≡ None }
        ensures after { StageSettles plan.now.stages d o self.old self.new }
        ensures alone { KeptMovesAlone d self.old self.new }
        ensures further { KeptMovesFurther d self.old self.new }
        ensures taken { StayTaken self.old.kept.items self.new.kept.items }
        ensures turns { self.new.turns ≡ self.old.turns }
        ensures room { SameRoom self.old self.new }
        ensures sound { AreSound plan.now.stages self.new }
    {
        self.unready(plan, d);
        self.steps += 1;
        self.kept.settle(d, o, self.steps);
        self.mark_after(plan, d);
    }

    /// Takes a stage out of the ready ones. Most of those that are settled are pending, and never were among them.
    #[inline(always)]
    fn unready(&mut self, plan: &GrowingPlan, d: u16)
        requires sound { AreSound plan.now.stages self.old }
        requires stage { d < length plan.now.stages }
        ensures ready { self.new.ready ≡ slice_set self.old.ready d false }
        ensures kept { self.new.kept ≡ self.old.kept }
        ensures marks { self.new.marks ≡ self.old.marks }
        ensures links { self.new.links ≡ self.old.links }
        ensures steps { self.new.steps ≡ self.old.steps }
        ensures turns { self.new.turns ≡ self.old.turns }
    {
        let _plan = plan;
        if self.kept.is_ready(d) {
            self.ready.remove(d);
        }
    }

    /// Claims a ready stage. No stage up to it waits for treatment.
    pub fn claim(&mut self, plan: &GrowingPlan, d: u16)
        requires sound { AreSound plan.now.stages self.old }
        requires stage { d < length plan.now.stages }
        requires treated { AreTreated (d + 1) self.old.marks }
        requires ready { is_ready ((kept_at self.old.kept.items d).stage) ≡ true }
        ensures claimed { StageIsClaimed plan.now.stages d self.old self.new }
        ensures alone { KeptMovesAlone d self.old self.new }
        ensures marks { self.new.marks ≡ self.old.marks }
        ensures here { is_taken ((kept_at self.new.kept.items d).stage) ≡ true }
        ensures taken { StayTaken self.old.kept.items self.new.kept.items }
        ensures turns { self.new.turns ≡ self.old.turns }
        ensures room { SameRoom self.old self.new }
        ensures sound { AreSound plan.now.stages self.new }
    {
        let _plan = plan;
        self.kept.claim(d);
        self.ready.remove(d);
    }

    /// Links a claimed stage of a form that composes to a lower stage that isn't settled, in a step of its own. No stage up to it waits for
    /// treatment.
    pub fn link(&mut self, plan: &GrowingPlan, d: u16, j: u16)
        requires sound { AreSound plan.now.stages self.old }
        requires stage { d < length plan.now.stages }
        requires target { j < d }
        requires treated { AreTreated (d + 1) self.old.marks }
        requires claimed { (kept_at self.old.kept.items d).stage ≡ Claimed }
        requires composes { composes (form_at plan.now.stages d) ≡ true }
        requires unsettled { outcome_of ((kept_at self.old.kept.items j).stage) ≡ None }
        ensures linked { StageIsLinked plan.now.stages d j self.old self.new }
        ensures alone { KeptMovesAlone d self.old self.new }
        ensures further { KeptMovesFurther d self.old self.new }
        ensures taken { StayTakenBut d self.old.kept.items self.new.kept.items }
        ensures turns { self.new.turns ≡ self.old.turns }
        ensures room { SameRoom self.old self.new }
        ensures sound { AreSound plan.now.stages self.new }
    {
        self.steps += 1;
        let step = self.steps;
        self.links.push(j, d);
        self.put(
            plan,
            d,
            KeptStage {
                stage: Stage::Linked(j),
                step,
            },
        );
    }

    /// The outcome of a stage, if it is kept as settled. Where a caller only asks whether there is one, nothing is copied.
    #[inline(always)]
    pub fn outcome(&self, i: u16) -> Option<Outcome>
        requires { i < length self.now.kept.items }
        ensures { result ≡ outcome_of ((kept_at self.now.kept.items i).stage) }
    {
        self.kept.outcome(i)
    }

    /// The outcome of a stage's first source. No stage up to it waits for treatment.
    pub fn source(&self, plan: &GrowingPlan, i: u16) -> Option<Outcome>
        requires treated { AreSwept plan.now.stages (i + 1) 0 self.now }
        requires stage { i < length plan.now.stages }
        ensures { result ≡ first_source plan.now.stages (settled_view_of plan.now.stages self.now) i }
    {
        match plan.sources(i).first() {
            Some(j) => self.outcome(*j),
            None => None,
        }
    }

    /// A claimed stage lands. No stage up to it waits for treatment.
    #[inline(always)]
    pub fn land(&mut self, plan: &GrowingPlan, d: u16, at: Landing)
        requires sound { AreSound plan.now.stages self.old }
        requires stage { d < length plan.now.stages }
        requires treated { AreTreated (d + 1) self.old.marks }
        requires claimed { (kept_at self.old.kept.items d).stage ≡ Claimed }
        requires target { (j : ℕ) → at ≡ LinksTo j → j < d }
        requires composes { (j : ℕ) → at ≡ LinksTo j → composes (form_at plan.now.stages d) ≡ true }
        ensures landed { StageLands plan.now.stages d at self.old self.new }
        ensures alone { KeptMovesAlone d self.old self.new }
        ensures further { KeptMovesFurther d self.old self.new }
        ensures taken { StayTakenBut d self.old.kept.items self.new.kept.items }
        ensures turns { self.new.turns ≡ self.old.turns }
        ensures room { SameRoom self.old self.new }
        ensures sound { AreSound plan.now.stages self.new }
    {
        match at {
            Landing::Settles(o) => self.settle(plan, d, o),
            Landing::Links(j) => self.land_at(plan, d, j),
        }
    }

    /// A claimed stage of a form that composes lands at a lower one: it settles as that one has settled, or is linked to it.
    fn land_at(&mut self, plan: &GrowingPlan, d: u16, j: u16)
        requires sound { AreSound plan.now.stages self.old }
        requires stage { d < length plan.now.stages }
        requires treated { AreTreated (d + 1) self.old.marks }
        requires claimed { (kept_at self.old.kept.items d).stage ≡ Claimed }
        requires target { j < d }
        requires composes { composes (form_at plan.now.stages d) ≡ true }
        ensures landed { StageLands plan.now.stages d (LinksTo j) self.old self.new }
        ensures alone { KeptMovesAlone d self.old self.new }
        ensures further { KeptMovesFurther d self.old self.new }
        ensures taken { StayTakenBut d self.old.kept.items self.new.kept.items }
        ensures turns { self.new.turns ≡ self.old.turns }
        ensures room { SameRoom self.old self.new }
        ensures sound { AreSound plan.now.stages self.new }
    {
        match self.outcome(j) {
            Some(o) => self.settle(plan, d, wrap(o)),
            None => self.link(plan, d, j),
        }
    }
}

/// How many lists of linked stages are made: one for each stage that there may be, or none where no stage ever links.
fn list_count(plan: &GrowingPlan) -> u16
    ensures composing { HasLists plan.now.stages result }
    ensures room { HasListRoom plan.now.opened (length plan.now.stages + plan.now.room) result }
{
    let most = plan.stages() + plan.room();
    if plan.opening().stages() < most || has_composing(plan) {
        most
    } else {
        0
    }
}

/// Whether a stage is of a form that composes.
fn has_composing(plan: &GrowingPlan) -> bool
    ensures { result ≡ false → (d : ℕ) → composes (form_at plan.now.stages d) ≡ false }
{
    for i in 0..plan.stages() {
        if composes(plan.form(i)) {
            return true;
        }
    }
    false
}

/// Marks the stages that have something to take from the start on.
pub fn mark_starts(plan: &GrowingPlan, marks: &mut BitSet)
    requires { length marks.old ≡ length plan.now.stages }
    ensures { marks.new ≡ mark_starts 0 plan.now.stages marks.old }
{
    // Those of the opening were found once, when its plan was built.
    let opening = plan.opening();
    mark_those(opening.starts(), marks);
    mark_attached(plan, opening.stages(), marks);
}

/// Marks these stages.
fn mark_those(stages: &[u16], marks: &mut BitSet)
    requires { All (λ i. i < length marks.old) stages.now }
    ensures marks { marks.new ≡ mark_those stages.now marks.old }
    ensures all { length marks.new ≡ length marks.old }
{
    for i in stages {
        marks.insert(*i);
    }
}

/// Marks those from stage `first` on.
fn mark_attached(plan: &GrowingPlan, first: u16, marks: &mut BitSet)
    requires first { first ≤ length plan.now.stages }
    requires all { length marks.old ≡ length plan.now.stages }
    ensures { marks.new ≡ mark_starts first (drop first plan.now.stages) marks.old }
{
    for i in first..plan.stages() {
        mark_start(plan.form(i), plan.sources(i), marks, i);
    }
}

/// Marks a stage, if it has something to take from the start on.
fn mark_start(form: Form, sources: &[u16], marks: &mut BitSet, i: u16)
    requires { i < length marks.old }
    ensures { marks.new ≡ (if starts form sources.now then slice_set marks.old i true else marks.old) }
{
    if starts(form, sources) {
        marks.insert(i);
    }
}
