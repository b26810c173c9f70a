//! Why a call of a desk is refused.
ghost use Rattle.std.specs.Prelude.{◌≡◌};

use std::alloc::AllocError;
use std::error::Error;
use std::fmt;

/// Why a desk can't be opened. The text of each is its name.
#[derive(Clone, Copy, Debug, Drop, PartialEq, Eq)]
pub enum OpenFault {
    /// Memory was refused.
    NoMemory,
    /// The number of callers is 0, or above 64.
    Callers,
    /// The log would have no word.
    Log,
    /// A pass could hold no record.
    Calls,
    /// With the room there would be more than `MAX_STAGES` stages, or, with two edges for each attached stage, more than
    /// `MAX_EDGES` edges.
    Room,
    /// A function of the plan isn't below the number of functions.
    Functions,
}

impl fmt::Display for OpenFault {
    fn fmt<W: fmt::Write>(&self, f: &mut fmt::Formatter<W>) -> fmt::Result {
        fmt::Debug::fmt(self, f)
    }
}

impl Error for OpenFault {}

impl From<AllocError> for OpenFault {
    ghost use Rattle.cf_desk.specs.declared.faults.OpenFault.TheVariants.{NoMemory};

    ghost from_gives = { λ _ fault. fault ≡ NoMemory };

    fn from(_refused: AllocError) -> OpenFault {
        OpenFault::NoMemory
    }
}

/// Why a call of a pass is refused. If several reasons hold, it is the first in the order NoStage, BadAttach, PassFull,
/// LogFull. The text of each is its name.
#[derive(Clone, Copy, Debug, Drop, PartialEq, Eq)]
pub enum DeskFault {
    /// The call names a stage that isn't there, in what the pass has seen after a look.
    NoStage,
    /// A stage that is to be attached has too few or too many sources for its form, lacks a function or has one too many,
    /// or its function isn't below the number of functions, or is above 4,095.
    BadAttach,
    /// What the pass has seen fills the log.
    LogFull,
    /// The pass holds as many records as it may.
    PassFull,
}

impl fmt::Display for DeskFault {
    fn fmt<W: fmt::Write>(&self, f: &mut fmt::Formatter<W>) -> fmt::Result {
        fmt::Debug::fmt(self, f)
    }
}

impl Error for DeskFault {}

/// Why a desk can't be closed. No call answers it.
#[derive(Clone, Copy, Debug, Drop, PartialEq, Eq)]
pub enum CloseFault {
    /// The passes' records disagree with the history.
    Mismatch,
}

impl fmt::Display for CloseFault {
    fn fmt<W: fmt::Write>(&self, f: &mut fmt::Formatter<W>) -> fmt::Result {
        fmt::Debug::fmt(self, f)
    }
}

impl Error for CloseFault {}
