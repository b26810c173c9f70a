//! Why nothing is put.
ghost use Rattle.std.specs.Prelude.{◌≡◌};

use std::alloc::AllocError;

/// Why a session may not put these words. Nothing has changed then.
#[derive(Clone, Copy, Debug, PartialEq, Eq)]
pub enum PutFault {
    /// There is no memory for it, and nothing else stands against it.
    NoMemory,
    /// The session has fewer tokens left than there are words. It needs another number.
    NoTokens,
    /// One of the words is no event's, or another caller's, or the graph doesn't take it behind those before it: a
    /// stage that it names isn't there, or there is no room for the stage that it attaches.
    NoWord,
}

impl From<AllocError> for PutFault {
    ghost use Rattle.cf_row.specs.declared.faults.PutFault.TheVariants.{NoMemory};

    ghost from_gives = { λ _ fault. fault ≡ NoMemory };

    fn from(_refused: AllocError) -> PutFault {
        PutFault::NoMemory
    }
}
