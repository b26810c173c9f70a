//! Why a machine does nothing.
ghost use Rattle.std.specs.Prelude.{◌≡◌};

use std::alloc::AllocError;

/// Why a call of a machine isn't done.
#[derive(Clone, Copy, Debug, PartialEq, Eq)]
pub enum MachineFault {
    /// There is no memory for it, and nothing else stands against it.
    NoMemory,
    /// A stage that it names isn't there.
    NoStage,
    /// The moment is before the last one.
    Past,
    /// Its plan has no place for one more stage.
    Full,
}

impl From<AllocError> for MachineFault {
    ghost use Rattle.cf_request.specs.declared.faults.MachineFault.TheVariants.{NoMemory};

    ghost from_gives = { λ _ fault. fault ≡ NoMemory };

    fn from(_refused: AllocError) -> MachineFault {
        MachineFault::NoMemory
    }
}

/// Why a stage isn't set as a join.
#[derive(Clone, Copy, Debug, PartialEq, Eq)]
pub enum JoinFault {
    /// There is no memory for it, and nothing else stands against it.
    NoMemory,
    /// A stage that it names isn't there.
    NoStage,
    /// It wants none of its sources, or more than there are.
    NoQuorum,
}

impl From<AllocError> for JoinFault {
    ghost use Rattle.cf_request.specs.declared.faults.JoinFault.TheVariants.{NoMemory};

    ghost from_gives = { λ _ fault. fault ≡ NoMemory };

    fn from(_refused: AllocError) -> JoinFault {
        JoinFault::NoMemory
    }
}

/// Why nothing is put into a scope.
#[derive(Clone, Copy, Debug, PartialEq, Eq)]
pub enum ScopeFault {
    /// There is no memory for it, and nothing else stands against it.
    NoMemory,
    /// The word attaches no stage.
    NoEvent,
    /// The scope or a stage isn't there.
    NoStage,
    /// There is no room for one more stage.
    NoRoom,
    /// The scope has ended.
    ScopeEnded,
}

impl From<AllocError> for ScopeFault {
    ghost use Rattle.cf_request.specs.declared.faults.ScopeFault.TheVariants.{NoMemory};

    ghost from_gives = { λ _ fault. fault ≡ NoMemory };

    fn from(_refused: AllocError) -> ScopeFault {
        ScopeFault::NoMemory
    }
}
