//! Room for more stages.
ghost use Rattle.std.specs.Prelude.{◌≡◌, ◌+◌, ◌++◌, ◌≤◌, OnErr, OnOk, length, replicate, true, vec_capacity};
ghost use Rattle.cf_forms.specs.Plans.{has_place};
ghost use Rattle.cf_model.specs.States.{start};
ghost use Rattle.cf_ledger.specs.Ledgers.{AreTaken};
ghost use Rattle.cf_row.specs.Rows.{history_of, with_more};
ghost use Rattle.cf_part.specs.Parts.{AreOfStages};

use crate::progress::Progress;
use cf_notes::{Notes, Owed};
use cf_row::Row;
use std::alloc::{AllocError, Global};

/// Finds memory for what is kept of so many stages more. It fails only where there is no memory.
pub(crate) fn find_places(
    calls: &mut Vec<Progress>,
    owed: &mut Vec<Option<Owed>>,
    wanted: &mut Vec<Option<u64>>,
    more: u16,
) -> Result<(), AllocError>
    ensures calls { calls.new.items ≡ calls.old.items }
    ensures owed { owed.new.items ≡ owed.old.items }
    ensures wanted { wanted.new.items ≡ wanted.old.items }
    ensures of_calls { OnOk result (length calls.old.items + more ≤ vec_capacity calls.new) }
    ensures of_owed { OnOk result (length owed.old.items + more ≤ vec_capacity owed.new) }
    ensures of_wanted { OnOk result (length wanted.old.items + more ≤ vec_capacity wanted.new) }
{
    calls.reserve(more as usize)?;
    owed.reserve(more as usize)?;
    wanted.reserve(more as usize)
}

/// Makes room for so many stages more in the row and its notes. It fails only where there is no memory, and then changes
/// nothing.
pub(crate) fn grow_seen(
    row: &mut Row,
    notes: &mut Notes,
    alloc: Global,
    more: u16,
) -> Result<(), AllocError>
    requires place { has_place row.old.replica.plan.stages (row.old.replica.plan.room + more) ≡ true }
    requires stages { AreOfStages row.old.replica notes.old }
    ensures row { OnOk result (row.new ≡ record row.old { replica = with_more row.old.replica more }) }
    ensures notes { OnOk result (notes.new ≡ record notes.old { room = notes.old.room + more }) }
    ensures taken { AreTaken (start row.old.replica.plan) (history_of row.old.replica.seen) }
    ensures same_row { OnErr result (row.new ≡ row.old) }
    ensures same_notes { OnErr result (notes.new ≡ notes.old) }
    ensures stages { AreOfStages row.new.replica notes.new }
{
    // (the graph took all that was seen)
    let _ = row.replica().ledger();
    notes.grow(more)?;
    if row.grow(alloc, more).is_err() {
        notes.shrink(more);
        return Err(AllocError);
    }
    Ok(())
}

/// Writes so many values behind others.
pub(crate) fn add_more<T: Copy>(items: &mut Vec<T>, value: T, more: u16)
    requires { length items.old.items + more ≤ vec_capacity items.old }
    ensures { items.new.items ≡ items.old.items ++ replicate more value }
{
    for _place in 0..more {
        items.push_reserved(value);
    }
}
