//! Lists of attached stages, one for each stage, linked through one block of cells.
ghost use Rattle.std.specs.Prelude.{◌≡◌, ◌+◌, ◌<◌, ◌≤◌, [], ◌∷◌, ◌++◌, IfOk, IfSome, drop, length, replicate, slice_get};
ghost use Rattle.std.specs.Vec.{vec_capacity};
ghost use Rattle.cf_plan.specs.AttachedLists.{HasListAt, empty_head, head_at, heads_with, list_of, new_cell};

use std::alloc::{AllocError, Global};
use std::marker::Model;

/// The first cell of a list, and how many it has.
#[derive(Clone, Copy)]
pub(crate) struct Head {
    first: u16,
    count: u16,
}

/// A stage in a list, and the cell behind its own.
#[derive(Clone, Copy)]
pub(crate) struct Cell {
    stage: u16,
    next: u16,
}

/// For each stage a list of stages. No call but `new` takes memory.
#[derive(Drop)]
pub(crate) struct AttachedLists {
    heads: Vec<Head>,
    cells: Vec<Cell>,
}

impl AttachedLists {
    /// An empty list for each of so many stages, with room for so many cells in all.
    pub(crate) fn new(
        alloc: Global,
        stages: usize,
        cells: usize,
    ) -> Result<AttachedLists, AllocError>
        ensures heads { IfOk result (λ made. made.heads.items ≡ replicate stages empty_head) }
        ensures cells { IfOk result (λ made. made.cells.items ≡ []) }
        ensures room { IfOk result (λ made. vec_capacity made.cells ≡ cells) }
    {
        let heads = vec![in alloc; Head { first: 0, count: 0 }; stages]?;
        let cells = Vec::with_capacity(alloc, cells)?;
        Ok(AttachedLists { heads, cells })
    }

    /// Puts a stage at the head of the list of `target`.
    pub(crate) fn push(&mut self, target: u16, stage: u16)
        requires target { target < length self.old.heads.items }
        requires room { length self.old.cells.items < vec_capacity self.old.cells }
        requires few { length self.old.cells.items < 65535 }
        requires short { (head_at self.old.heads.items target).count < 65535 }
        ensures heads { self.new.heads.items ≡ heads_with self.old.heads.items target (length self.old.cells.items) }
        ensures cells { self.new.cells.items ≡ self.old.cells.items ++ new_cell self.old.heads.items target stage ∷ [] }
        ensures room { vec_capacity self.new.cells ≡ vec_capacity self.old.cells }
    {
        let head = self.heads[target as usize];
        let first = self.cells.len() as u16;
        self.cells.push_reserved(Cell {
            stage,
            next: head.first,
        });
        self.heads[target as usize] = Head {
            first,
            count: head.count + 1,
        };
    }

    /// Empties all lists. It takes no memory.
    pub(crate) fn clear(&mut self)
        ensures heads { self.new.heads.items ≡ replicate (length self.old.heads.items) empty_head }
        ensures cells { self.new.cells.items ≡ [] }
        ensures room { vec_capacity self.new.cells ≡ vec_capacity self.old.cells }
    {
        self.heads.fill(Head { first: 0, count: 0 });
        self.cells.clear();
    }

    /// How many cells are taken.
    pub(crate) fn cells(&self) -> usize
        ensures { result ≡ length self.now.cells.items }
    {
        self.cells.len()
    }

    /// A list of no stages.
    pub(crate) fn none(&self) -> AttachedDependents<'_>
        ensures { result ≡ [] }
    {
        AttachedDependents {
            cells: &self.cells,
            head: Head { first: 0, count: 0 },
        }
    }

    /// The list of a stage.
    pub(crate) fn list(&self, i: u16) -> AttachedDependents<'_>
        requires stage { i < length self.now.heads.items }
        requires list { HasListAt self.now.heads.items self.now.cells.items i }
        ensures { result ≡ list_of self.now.cells.items (head_at self.now.heads.items i) }
    {
        AttachedDependents {
            cells: &self.cells,
            head: self.heads[i as usize],
        }
    }
}

/// The attached stages that name a stage as a source, one after another: the newest first, once for each mention.
#[derive(Drop)]
pub struct AttachedDependents<'a> {
    cells: &'a [Cell],
    head: Head,
}

impl<'a> Model for AttachedDependents<'a> {
    ghost use Rattle.std.specs.Prelude.{List, ℕ};

    ghost Value = { List ℕ };

    ghost use Rattle.cf_plan.specs.AttachedLists.{IsAttachedList, list_of};

    ghost view = { λ s. list_of s.cells.now s.head };

    ghost invariant = { λ s. IsAttachedList s.head.count s.cells.now s.head.first };
}

impl<'a> AttachedDependents<'a> {
    /// Takes the first one.
    pub fn pop(&mut self) -> Option<u16>
        ensures first { result ≡ slice_get self.old 0 }
        ensures rest { self.new ≡ drop 1 self.old }
    {
        if self.head.count == 0 {
            return None;
        }
        let cell = self.cells[self.head.first as usize];
        self.head = Head {
            first: cell.next,
            count: self.head.count - 1,
        };
        Some(cell.stage)
    }
}
