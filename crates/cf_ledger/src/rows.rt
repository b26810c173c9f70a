//! Rows that grow as they are written.
ghost use Rattle.std.specs.Prelude.{◌≡◌, ◌+◌, ◌<◌, ◌≤◌, OnErr, OnOk, length, vec_capacity};

use std::alloc::AllocError;

/// How many places a row takes at first, which is enough for a small request, and at least whenever it grows.
const PLACES: usize = 64;

/// Finds room for so many numbers more. It fails only where there is no memory, and changes none. Where the room is
/// there, it does nothing.
#[inline(always)]
pub(crate) fn make_room<T>(row: &mut Vec<T>, count: usize) -> Result<(), AllocError>
    ensures room { OnOk result (length row.new.items + count ≤ vec_capacity row.new) }
    ensures same { row.new.items ≡ row.old.items }
    ensures enough { OnErr result (vec_capacity row.old < length row.old.items + count) }
    ensures kept { vec_capacity row.old ≤ vec_capacity row.new }
    ensures still { length row.old.items + count ≤ vec_capacity row.old → row.new ≡ row.old }
{
    if count <= row.capacity() - row.len() {
        return Ok(());
    }
    row.reserve(count.max(PLACES))
}
