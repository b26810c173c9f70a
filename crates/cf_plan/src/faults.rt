//! Why a plan is refused.
ghost use Rattle.std.specs.Prelude.{◌≡◌};
ghost use Rattle.cf_plan.specs.declared.faults.PlanFault.TheVariants.{NoMemory};

use std::alloc::{AllocError, AllocFailed};
use thiserror::Error;

/// Why a stage or a limit can't be added to a plan, or a plan can't be made. The faults are numbered 1 to 9, in the
/// order in which they stand here. Where several hold, `stage` tells the first of 1, 3, 2, 4, 5, 6, 8, and `limit` the
/// first of 7, 9, 8; `build` and `copy` tell 8 alone.
#[derive(Clone, Copy, Debug, PartialEq, Eq, Error)]
pub enum PlanFault {
    /// 1: the plan has `MAX_STAGES` stages already.
    #[error("TooManyStages")]
    TooManyStages,
    /// 2: a source isn't below the new stage's number.
    #[error("SourceNotLower")]
    SourceNotLower,
    /// 3: the number of sources isn't the form's.
    #[error("WrongSourceCount")]
    WrongSourceCount,
    /// 4: the form has a function and none is given.
    #[error("FunctionMissing")]
    FunctionMissing,
    /// 5: the form has no function and one is given.
    #[error("FunctionUnwanted")]
    FunctionUnwanted,
    /// 6: there would be more than `MAX_EDGES` edges.
    #[error("TooManyEdges")]
    TooManyEdges,
    /// 7: a limit names a stage that isn't there yet.
    #[error("NoSuchStage")]
    NoSuchStage,
    /// 8: a growth of memory was refused.
    #[error("NoMemory")]
    NoMemory,
    /// 9: the plan has `MAX_LIMITS` limits already.
    #[error("TooManyLimits")]
    TooManyLimits,
}

impl From<AllocError> for PlanFault {
    ghost from_gives = { λ _ fault. fault ≡ NoMemory };

    fn from(_refused: AllocError) -> PlanFault {
        PlanFault::NoMemory
    }
}

impl<T: Drop> From<AllocFailed<T>> for PlanFault {
    ghost from_gives = { λ _ fault. fault ≡ NoMemory };

    fn from(_refused: AllocFailed<T>) -> PlanFault {
        PlanFault::NoMemory
    }
}
