//! The input, read whole.
ghost use Rattle.std.specs.Prelude.{◌≡◌, ◌+◌, ◌<◌, ◌≤◌, IfErr, IfOk, IfSome, IsErrOf, OnOk, length, vec_len};
ghost use Rattle.std.specs.Io.KnownBytes.{IsAtEnd};
ghost use Rattle.cf_script_reading.specs.Input.{IsOfInput, TakesAtMost};

use crate::fault::ReadingFault;
use std::alloc::Global;
use std::io::Read;

/// The most bytes that a script has.
pub const MAX_BYTES: usize = 1_048_576;

/// How many bytes are asked for in one call.
const PIECE: usize = 4_096;

/// Reads to the end, up to 4,096 bytes at a time. The first byte that is too many ends the reading with `TooLong`, and no byte
/// behind it is asked for. Every error of the reader is `Read`, `Interrupted` too. Refused memory is `NoMemory`. At each fault
/// what was read is dropped.
pub fn read_input<R: Read>(alloc: Global, r: &mut R) -> Result<Vec<u8>, ReadingFault>
    ensures whole { IfOk result (λ v. IfSome (R.remaining r.old) (λ xs. v.items ≡ xs)) }
    ensures end { OnOk result (IsAtEnd (R.remaining r.new)) }
    ensures taken { TakesAtMost (MAX_BYTES + 1) (R.remaining r.old) (R.remaining r.new) }
    ensures fits { IfOk result (λ v. vec_len v ≤ MAX_BYTES) }
    ensures too_long { IsErrOf result ReadingFault.TooLong
        → IfSome (R.remaining r.old) (λ xs. MAX_BYTES < length xs) }
    ensures faults { IfErr result IsOfInput }
{
    let mut found = Vec::new(alloc);
    let mut piece = [0u8; PIECE];
    'pieces: while found.len() <= MAX_BYTES {
        let room = &mut piece[..PIECE.min(MAX_BYTES + 1 - found.len())];
        let n = match r.read(room) {
            Ok(0) => return Ok(found),
            Ok(n) => n,
            Err(_) => return Err(ReadingFault::Read),
        };
        found.extend_from_slice(&room[..n])?;
    }
    Err(ReadingFault::TooLong)
}
