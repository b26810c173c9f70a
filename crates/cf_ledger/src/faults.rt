//! Why a ledger does nothing.
ghost use Rattle.std.specs.Prelude.{◌≡◌};

use std::alloc::AllocError;

/// Why a word isn't done. Nothing has changed then.
#[derive(Clone, Copy, Debug, PartialEq, Eq)]
pub enum LedgerFault {
    /// There is no memory for it, and nothing else stands against it.
    NoMemory,
    /// It is no event's word.
    NoEvent,
    /// A stage that it names isn't there, or what it attaches doesn't fit its form.
    NoStage,
    /// There is no room for the stage that it attaches. `grow` makes some.
    NoRoom,
}

impl From<AllocError> for LedgerFault {
    ghost use Rattle.cf_ledger.specs.declared.faults.LedgerFault.TheVariants.{NoMemory};

    ghost from_gives = { λ _ fault. fault ≡ NoMemory };

    fn from(_refused: AllocError) -> LedgerFault {
        LedgerFault::NoMemory
    }
}

/// The first word that can't be done, and why.
#[derive(Clone, Copy, Debug, PartialEq, Eq)]
pub struct Misfit {
    /// Its place, counted from 0.
    pub place: usize,
    pub why: LedgerFault,
}

impl From<AllocError> for Misfit {
    ghost use Rattle.cf_ledger.specs.declared.faults.LedgerFault.TheVariants.{NoMemory};

    ghost from_gives = { λ _ m. m.why ≡ NoMemory };

    fn from(_refused: AllocError) -> Misfit {
        Misfit {
            place: 0,
            why: LedgerFault::NoMemory,
        }
    }
}

/// Why a step isn't done. Nothing has changed then.
#[derive(Clone, Copy, Debug, PartialEq, Eq)]
pub enum StepFault {
    /// There is no memory for it, and nothing else stands against it.
    NoMemory,
    /// Its caller's number is above 63, so that no word names it.
    NoCaller,
    /// The stage that is held isn't there.
    NoStage,
    /// The caller has no open claim of the stage that is held.
    NotHeld,
}

impl From<AllocError> for StepFault {
    ghost use Rattle.cf_ledger.specs.declared.faults.StepFault.TheVariants.{NoMemory};

    ghost from_gives = { λ _ fault. fault ≡ NoMemory };

    fn from(_refused: AllocError) -> StepFault {
        StepFault::NoMemory
    }
}
