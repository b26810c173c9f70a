//! Places for entries to come.
ghost use Rattle.std.specs.Prelude.{◌≡◌, ◌+◌, ◌<◌, ◌≤◌, OnErr, OnOk, length, vec_capacity};

use std::alloc::AllocError;

/// How many places a list takes at least whenever it grows.
const PLACES: usize = 64;

/// Finds room for so many more. It fails only where there is no memory, and changes none.
pub(crate) fn make_room<T>(row: &mut Vec<T>, count: usize) -> Result<(), AllocError>
    ensures room { OnOk result (length row.new.items + count ≤ vec_capacity row.new) }
    ensures same { row.new.items ≡ row.old.items }
    ensures short { OnErr result (vec_capacity row.old < length row.old.items + count) }
    ensures kept { vec_capacity row.old ≤ vec_capacity row.new }
{
    if count <= row.capacity() - row.len() {
        return Ok(());
    }
    row.reserve(count.max(PLACES))
}
