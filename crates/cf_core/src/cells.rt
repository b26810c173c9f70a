//! What is kept of the stages of a graph.
ghost use Rattle.std.specs.Prelude.{◌≡◌, ◌+◌, ◌<◌, ◌≤◌, ◌∷◌, ◌++◌, [], IfNone, IfOk, IfSome, Some, is_some, length, replicate, slice_set, true};
ghost use Rattle.cf_outcome.specs.declared.outcome.Outcome.TheVariants.{Value as Gives};
ghost use Rattle.cf_forms.specs.declared.forms.Due.TheVariants.{Needs};
ghost use Rattle.cf_model.specs.declared.stage.Stage.TheVariants.{Pending};
ghost use Rattle.cf_model.specs.States.{is_ready, outcome_of};
ghost use Rattle.cf_core.specs.Keeping.Cells.{blank};
ghost use Rattle.cf_core.specs.Keeping.Taking.{due_by_one, ready_with, with_one_taken};
ghost use Rattle.cf_core.specs.Keeping.Treatment.{became, claimed_kept, settled_kept};
ghost use Rattle.cf_core.specs.Keeping.Sound.{is_waiting, kept_at};
ghost use Rattle.cf_core.specs.Keeping.Offers.{args_of};
ghost use Rattle.cf_core.specs.Keeping.Starts.{untreated};

use crate::cell::{Cell, Detail, Kind};
use crate::kept::{KeptStage, Treated};
use cf_forms::{Args, Form};
use cf_model::Stage;
use cf_outcome::{Outcome, Value};
use std::alloc::{AllocError, Global};
use std::marker::Model;

/// A list of `KeptStage`, each in a cell of 16 bytes, with room for more.
#[derive(Drop)]
pub struct Cells {
    cells: Vec<Cell>,
}

impl Model for Cells {
    ghost use Rattle.cf_core.specs.Keeping.Cells.{KeptStages};

    ghost Value = { KeptStages };

    ghost use Rattle.std.specs.Prelude.{map};
    ghost use Rattle.std.specs.Vec.{vec_capacity};
    ghost use Rattle.cf_core.specs.Keeping.Cells.{kept_of};

    ghost view = { λ s. record { items = map kept_of s.cells.items; capacity = vec_capacity s.cells } };
}

impl Cells {
    /// So many stages that were never treated, with room for more.
    #[tactic(auto, using(crate::proofs::Keeping::CellLemmas::map_blank))]
    pub fn new(alloc: Global, count: u16, room: u16) -> Result<Cells, AllocError>
        ensures kept { IfOk result (λ kept. kept.items ≡ replicate count untreated) }
        ensures room { IfOk result (λ kept. count + room ≤ kept.capacity) }
    {
        let mut cells = blanks(alloc, count)?;
        cells.reserve(room as usize)?;
        Ok(Cells { cells })
    }

    /// Keeps so many stages, as ones that were never treated. It takes no memory.
    #[tactic(auto, using(crate::proofs::Keeping::CellLemmas::map_blank, crate::proofs::Keeping::CellLemmas::count_kept))]
    pub fn restart(&mut self, count: u16)
        requires { count ≤ length self.old.items }
        ensures kept { self.new.items ≡ replicate count untreated }
        ensures room { self.new.capacity ≡ self.old.capacity }
    {
        self.cells.truncate(count as usize);
        self.cells.fill(blank());
    }

    /// How many stages it has.
    #[inline(always)]
    #[tactic(auto, using(crate::proofs::Keeping::CellLemmas::count_kept))]
    pub fn len(&self) -> usize
        ensures { result ≡ length self.now.items }
    {
        self.cells.len()
    }

    /// A stage's state.
    #[inline(always)]
    pub fn stage(&self, i: u16) -> Stage
        requires { i < length self.now.items }
        ensures { result ≡ (kept_at self.now.items i).stage }
    {
        self.cells[i as usize].stage()
    }

    /// A stage's step.
    #[inline(always)]
    pub fn step(&self, i: u16) -> u32
        requires { i < length self.now.items }
        ensures { result ≡ (kept_at self.now.items i).step }
    {
        self.cells[i as usize].step
    }

    /// A stage's outcome, if it is settled.
    #[inline(always)]
    pub fn outcome(&self, i: u16) -> Option<Outcome>
        requires { i < length self.now.items }
        ensures { result ≡ outcome_of ((kept_at self.now.items i).stage) }
    {
        self.cells[i as usize].outcome()
    }

    /// Whether a stage is settled.
    #[inline(always)]
    pub fn is_settled(&self, i: u16) -> bool
        requires { i < length self.now.items }
        ensures { result ≡ is_some (outcome_of ((kept_at self.now.items i).stage)) }
    {
        self.cells[i as usize].is_settled()
    }

    /// Whether a stage waits for its sources.
    #[inline(always)]
    pub fn is_pending(&self, i: u16) -> bool
        requires { i < length self.now.items }
        ensures { result ≡ true → (kept_at self.now.items i).stage ≡ Pending }
    {
        self.cells[i as usize].is_pending()
    }

    /// The value that a stage has settled with, if it has.
    #[inline(always)]
    pub fn value(&self, i: u16) -> Option<Value>
        requires { i < length self.now.items }
        ensures { IfSome result (λ v. outcome_of ((kept_at self.now.items i).stage) ≡ Some (Gives v)) }
    {
        self.cells[i as usize].value()
    }

    /// What the function of a ready stage is to be called with.
    #[inline(always)]
    #[tactic(auto, using(crate::proofs::Keeping::Offering::unready_args))]
    pub fn args(&self, i: u16) -> Option<Args>
        requires { i < length self.now.items }
        ensures { result ≡ args_of ((kept_at self.now.items i).stage) }
    {
        // Most are settled by then, and needn't be looked at by kind.
        if !self.is_ready(i) {
            return None;
        }
        match self.stage(i) {
            Stage::Ready(args) => Some(args),
            _ => None,
        }
    }

    /// Whether a stage waits, for its sources or for the stage that it is linked to.
    #[inline(always)]
    pub fn is_waiting(&self, i: u16) -> bool
        requires { i < length self.now.items }
        ensures { result ≡ is_waiting ((kept_at self.now.items i).stage) }
    {
        self.cells[i as usize].is_waiting()
    }

    /// Whether a stage is ready.
    #[inline(always)]
    pub fn is_ready(&self, i: u16) -> bool
        requires { i < length self.now.items }
        ensures { result ≡ is_ready ((kept_at self.now.items i).stage) }
    {
        self.cells[i as usize].is_ready()
    }

    /// Writes a stage's state and step.
    #[inline(always)]
    #[tactic(auto, using(crate::proofs::Keeping::CellLemmas::map_written))]
    pub fn put(&mut self, i: u16, new: KeptStage)
        requires { i < length self.old.items }
        ensures { self.new ≡ record self.old { items = slice_set self.old.items i new } }
    {
        self.cells[i as usize].put(new);
    }

    /// Settles a stage.
    #[inline(always)]
    #[tactic(auto, using(crate::proofs::Keeping::CellLemmas::map_written))]
    pub fn settle(&mut self, i: u16, o: Outcome, step: u32)
        requires { i < length self.old.items }
        ensures { self.new ≡ record self.old { items = slice_set self.old.items i (settled_kept o step) } }
    {
        self.cells[i as usize].settle(o, step);
    }

    /// Claims a stage. Its step stays.
    #[inline(always)]
    #[tactic(auto, using(crate::proofs::Keeping::CellLemmas::map_written, crate::proofs::Keeping::CellLemmas::kept_there))]
    pub fn claim(&mut self, i: u16)
        requires { i < length self.old.items }
        ensures { self.new ≡ record self.old {
          items = slice_set self.old.items i
              (claimed_kept (kept_at self.old.items i).step);
        } }
    {
        self.cells[i as usize].claim();
    }

    /// Makes a stage ready. Its step stays.
    #[inline(always)]
    #[tactic(auto, using(crate::proofs::Keeping::CellLemmas::map_written, crate::proofs::Keeping::CellLemmas::kept_there))]
    pub fn make_ready(&mut self, i: u16, args: Args)
        requires { i < length self.old.items }
        ensures { self.new ≡ record self.old { items = ready_with self.old.items i args } }
    {
        self.cells[i as usize].make_ready(args);
    }

    /// Lets a pending stage take what its one source has, if that has settled.
    #[inline(always)]
    pub fn take_one(&mut self, form: Form, j: u16, m: u16) -> Treated
        requires stage { m < length self.old.items }
        requires source { j < length self.old.items }
        requires pending { (kept_at self.old.items m).stage ≡ Pending }
        ensures kept { self.new.items ≡ with_one_taken self.old.items form j m }
        ensures told { result ≡ became ((kept_at self.new.items m).stage) }
        ensures room { self.new.capacity ≡ self.old.capacity }
    {
        let from = self.cells[j as usize];
        match from.kind {
            Kind::Settled => self.cells[m as usize].take_one(form, from),
            _ => Treated::Same,
        }
    }

    /// Lets a pending stage take what its one source has, if that has settled. With what its function is to be called is
    /// told, and not written.
    #[inline(always)]
    pub fn offer_one(&mut self, form: Form, j: u16, m: u16) -> Option<Args>
        requires stage { m < length self.old.items }
        requires source { j < length self.old.items }
        requires pending { (kept_at self.old.items m).stage ≡ Pending }
        ensures told { IfSome result (λ args. due_by_one self.old.items form j ≡ Needs args) }
        ensures unwritten { IfSome result (λ args. self.new ≡ self.old) }
        ensures kept { IfNone result (self.new.items ≡ with_one_taken self.old.items form j m) }
        ensures room { self.new.capacity ≡ self.old.capacity }
    {
        let from = self.cells[j as usize];
        match from.kind {
            Kind::Settled => self.cells[m as usize].offer_one(form, from),
            _ => None,
        }
    }

    /// Puts a stage behind all others. Its place is reserved.
    #[tactic(auto, using(crate::proofs::Keeping::CellLemmas::map_pushed, crate::proofs::Keeping::CellLemmas::count_kept))]
    pub fn push(&mut self, new: KeptStage)
        requires { length self.old.items < self.old.capacity }
        ensures { self.new ≡ record self.old { items = self.old.items ++ new ∷ [] } }
    {
        let mut cell = blank();
        cell.put(new);
        self.cells.push_reserved(cell);
    }
}

/// A cell of a pending stage.
fn blank() -> Cell
    ensures { result ≡ blank }
{
    Cell {
        kind: Kind::Pending,
        detail: Detail::Nil,
        flag: false,
        step: 0,
        number: 0,
        payload: 0,
    }
}

/// So many cells of pending stages.
fn blanks(alloc: Global, count: u16) -> Result<Vec<Cell>, AllocError>
    ensures { IfOk result (λ cells. cells.items ≡ replicate count blank) }
{
    vec![in alloc; blank(); count as usize]
}
