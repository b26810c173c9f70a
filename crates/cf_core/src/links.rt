//! The stages that are linked to each stage.
ghost use Rattle.std.specs.Prelude.{◌≡◌, ◌<◌, ◌∷◌, [], IfOk, IfSome, drop, is_some, length, replicate, slice_get, slice_set};
ghost use Rattle.cf_core.specs.Keeping.Links.{IsFree, list_at};

use std::alloc::{AllocError, Global};
use std::marker::Model;

/// The first stage of a list, and how many stages it has.
#[derive(Clone, Copy)]
struct Head {
    first: u16,
    count: u16,
}

/// For each stage a list of stages, or no list at all. A stage stands in at most one of them, where it names the one behind it, so that no
/// call but `new` takes memory.
#[derive(Drop)]
pub struct Links {
    heads: Vec<Head>,
    next: Vec<u16>,
}

impl Model for Links {
    ghost use Rattle.std.specs.Prelude.{List, ℕ};

    ghost Value = { List (List ℕ) };

    ghost use Rattle.cf_core.specs.Keeping.Links.{AreLinks, lists_of};

    ghost view = { λ s. lists_of s.next.items s.heads.items };

    ghost invariant = { λ s. AreLinks s.next.items s.heads.items };
}

impl Links {
    /// An empty list for each of so many stages.
    pub fn new(alloc: Global, count: usize) -> Result<Links, AllocError>
        ensures { IfOk result (λ links. links ≡ replicate count []) }
    {
        let heads = empty_heads(alloc, count)?;
        let next = no_stages(alloc, count)?;
        Ok(Links { heads, next })
    }

    /// Empties all lists.
    pub fn reset(&mut self)
        ensures { self.new ≡ replicate (length self.old) [] }
    {
        self.heads.fill(Head { first: 0, count: 0 });
    }

    /// Whether there is a stage in the list of `target`.
    #[inline(always)]
    pub fn has(&self, target: u16) -> bool
        ensures { result ≡ is_some (slice_get (list_at self.now target) 0) }
    {
        if (target as usize) < self.heads.len() {
            self.heads[target as usize].count > 0
        } else {
            false
        }
    }

    /// Empties the list of `target`, if there is one.
    #[inline(always)]
    pub fn clear(&mut self, target: u16)
        ensures { self.new ≡ slice_set self.old target [] }
    {
        if (target as usize) < self.heads.len() {
            self.heads[target as usize] = Head { first: 0, count: 0 };
        }
    }

    /// Puts a stage that stands in no list at the head of that of `target`.
    pub fn push(&mut self, target: u16, stage: u16)
        requires target { target < length self.old }
        requires stage { stage < length self.old }
        requires free { IsFree self.old stage }
        requires room { length (list_at self.old target) < 65535 }
        ensures { self.new ≡ slice_set self.old target (stage ∷ list_at self.old target) }
    {
        let head = self.heads[target as usize];
        self.next[stage as usize] = head.first;
        self.heads[target as usize] = Head {
            first: stage,
            count: head.count + 1,
        };
    }

    /// Takes the first stage out of the list of `target`, if there is one.
    pub fn pop(&mut self, target: u16) -> Option<u16>
        ensures first { result ≡ slice_get (list_at self.old target) 0 }
        ensures rest { self.new ≡ slice_set self.old target (drop 1 (list_at self.old target)) }
        ensures within { IfSome result (λ i. i < length self.old) }
    {
        if target as usize >= self.heads.len() {
            return None;
        }
        let head = self.heads[target as usize];
        if head.count == 0 {
            return None;
        }
        self.heads[target as usize] = Head {
            first: self.next[head.first as usize],
            count: head.count - 1,
        };
        Some(head.first)
    }
}

/// So many heads of empty lists.
fn empty_heads(alloc: Global, count: usize) -> Result<Vec<Head>, AllocError>
    ensures { IfOk result (λ heads. heads.items ≡ replicate count (record { first = 0; count = 0 })) }
{
    vec![in alloc; Head { first: 0, count: 0 }; count]
}

/// So many stages without a next one.
fn no_stages(alloc: Global, count: usize) -> Result<Vec<u16>, AllocError>
    ensures { IfOk result (λ next. next.items ≡ replicate count 0) }
{
    vec![in alloc; 0; count]
}
