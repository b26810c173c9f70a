//! The distinct ends.
ghost use Rattle.std.specs.Prelude.{◌≡◌, ◌<◌, ◌∷◌, [], IfNone, IfOk, IfSome, Some, length, slice_get, slice_set, true};
ghost use Rattle.cf_explore.specs.Found.{AreApart, AreMoreEnds, AreOthers, HasOutcomes, IsEnded, more_ended};
ghost use Rattle.cf_explore.specs.Situations.{outcomes_of};

use crate::found::{End, Witness};
use crate::layer::Entry;
use crate::program::Program;
use crate::situation::Situation;
use cf_outcome::Outcome;
use std::alloc::{AllocError, Global};

impl Program {
    /// Adds those of these situations that are ends.
    pub(crate) fn add_ends(
        &self,
        alloc: Global,
        entries: &[Entry],
        moves: u32,
        ends: &mut Vec<End>,
    ) -> Result<(), AllocError>
        ensures { IfOk result (λ _. AreMoreEnds self.now moves entries.now ends.old.items ends.new.items) }
    {
        for entry in entries {
            self.add_if_end(alloc, entry, moves, ends)?;
        }
        Ok(())
    }

    /// Adds a situation if it is an end.
    fn add_if_end(
        &self,
        alloc: Global,
        entry: &Entry,
        moves: u32,
        ends: &mut Vec<End>,
    ) -> Result<(), AllocError>
        ensures { IfOk result (λ _. AreMoreEnds self.now moves (entry.now ∷ []) ends.old.items ends.new.items) }
    {
        if self.is_end(alloc, &entry.situation)? {
            let outcomes = entry.situation.outcomes(alloc)?;
            let number = entry.number;
            let _new = add_end(ends, outcomes, entry.orders, Witness { moves, number })?;
            Ok(())
        } else {
            Ok(())
        }
    }
}

impl Situation {
    /// The outcomes of all stages.
    pub(crate) fn outcomes(&self, alloc: Global) -> Result<Vec<Option<Outcome>>, AllocError>
        ensures { IfOk result (λ outcomes. outcomes.items ≡ outcomes_of self.now) }
    {
        self.graph.outcomes(alloc)
    }
}

/// So many orders more lead to this end. The witness is kept where it is a new one, which it says.
fn add_end(
    ends: &mut Vec<End>,
    outcomes: Vec<Option<Outcome>>,
    orders: u128,
    witness: Witness,
) -> Result<bool, AllocError>
    ensures ended { IfOk result (λ new. IsEnded ends.old.items ends.new.items outcomes.items orders witness new) }
    ensures apart { IfOk result (λ _. AreApart ends.old.items → AreApart ends.new.items) }
{
    match find_end(ends, &outcomes) {
        Some(i) => {
            more_orders(ends, i, orders);
            Ok(false)
        }
        None => {
            ends.push(End {
                outcomes,
                orders,
                witness,
            })?;
            Ok(true)
        }
    }
}

/// The place of the end with these outcomes, if it is there.
fn find_end(ends: &[End], outcomes: &[Option<Outcome>]) -> Option<usize>
    ensures there { IfSome result (λ i. HasOutcomes ends.now i outcomes.now) }
    ensures others { IfNone result (AreOthers ends.now outcomes.now) }
{
    for i in 0..ends.len() {
        if has_outcomes(ends, i, outcomes) {
            return Some(i);
        }
    }
    None
}

/// Whether the end with these outcomes stands at a place.
fn has_outcomes(ends: &[End], i: usize, outcomes: &[Option<Outcome>]) -> bool
    ensures there { result ≡ true → HasOutcomes ends.now i outcomes.now }
    ensures other { HasOutcomes ends.now i outcomes.now → result ≡ true }
{
    match ends.get(i) {
        None => false,
        Some(end) => same_outcomes(&end.outcomes, outcomes),
    }
}

/// Whether they are the same outcomes.
fn same_outcomes(a: &[Option<Outcome>], b: &[Option<Outcome>]) -> bool
    ensures same { result ≡ true → a.now ≡ b.now }
    ensures other { a.now ≡ b.now → result ≡ true }
{
    a == b
}

/// So many orders more lead to the end at this place.
fn more_orders(ends: &mut [End], i: usize, orders: u128)
    requires { i < length ends.old }
    ensures { (e : End) → slice_get ends.old i ≡ Some e → ends.new ≡ slice_set ends.old i (more_ended e orders) }
{
    let end = &mut ends[i];
    end.orders = end.orders.saturating_add(orders);
}
