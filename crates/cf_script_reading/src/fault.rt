//! Why bytes are no script.
ghost use Rattle.std.specs.Prelude.{◌≡◌, ◌≤◌, length};
ghost use Rattle.cf_script_reading.specs.Faults.{part_name, part_position};

use cf_plan::PlanFault;
use std::alloc::{AllocError, AllocFailed};
use std::fmt;
use thiserror::Error;

/// The part of a script that has the wrong shape. Positions count from 0.
#[derive(Clone, Copy, Debug, PartialEq, Eq)]
pub enum Part {
    /// The whole isn't an object.
    Top,
    /// `cf` isn't the number of a version.
    Version,
    /// `room` isn't a whole number from 0 to 4,096, or a graph has no place for so much of it beside the plan.
    Room,
    /// `stages` isn't an array.
    Stages,
    /// `limits` is there and isn't an array.
    Limits,
    /// `steps` is there and isn't an array.
    Steps,
    /// The stage at this position.
    Stage(u32),
    /// The limit at this position.
    Limit(u32),
}

/// Why no script was read.
#[derive(Clone, Copy, Debug, PartialEq, Eq, Error)]
pub enum ReadingFault {
    /// There are more than 1,048,576 bytes.
    #[error("TooLong")]
    TooLong,
    /// They are no JSON text: bad UTF-8, wrong syntax, an early end, or arrays and objects nested over 127 deep.
    #[error("NotJson")]
    NotJson,
    /// A part has the wrong shape.
    #[error("Shape({0})")]
    Shape(Part),
    /// The builder of plans refused the stage, or for `NoSuchStage` and `TooManyLimits` the limit, at this position.
    #[error("Plan({0}, {1})")]
    Plan(PlanFault, u32),
    /// What stands as the function of the stage at this position is no function.
    #[error("Function({0})")]
    Function(u32),
    /// What stands as the step at this position is no step, or there are more than 20,000.
    #[error("Step({0})")]
    Step(u32),
    /// The reader failed, for whatever cause.
    #[error("Read")]
    Read,
    /// Memory was refused.
    #[error("NoMemory")]
    NoMemory,
}

/// Memory that was refused.
impl From<AllocError> for ReadingFault {
    ghost use Rattle.cf_script_reading.specs.declared.fault.ReadingFault.TheVariants.{NoMemory};

    ghost from_gives = { λ _ fault. fault ≡ NoMemory };

    fn from(_refused: AllocError) -> ReadingFault {
        ReadingFault::NoMemory
    }
}

/// An element for which there was no room.
impl<T: Drop> From<AllocFailed<T>> for ReadingFault {
    ghost use Rattle.cf_script_reading.specs.declared.fault.ReadingFault.TheVariants.{NoMemory};

    ghost from_gives = { λ _ fault. fault ≡ NoMemory };

    fn from(_refused: AllocFailed<T>) -> ReadingFault {
        ReadingFault::NoMemory
    }
}

impl Part {
    /// Its name.
    pub fn name(self) -> &'static str
        ensures name { result.now ≡ part_name self }
        ensures short { length result.now ≤ 6 }
    {
        match self {
            Part::Top => "top",
            Part::Version => "cf",
            Part::Room => "room",
            Part::Stages => "stages",
            Part::Limits => "limits",
            Part::Steps => "steps",
            Part::Stage(_) => "stage",
            Part::Limit(_) => "limit",
        }
    }

    /// Its position, if it is one of several.
    pub fn position(self) -> Option<u32>
        ensures { result ≡ part_position self }
    {
        match self {
            Part::Stage(k) | Part::Limit(k) => Some(k),
            _ => None,
        }
    }
}

/// The name of the part, and behind it its position.
impl fmt::Display for Part {
    ghost use Rattle.std.specs.Prelude.{Some};
    ghost use Rattle.cf_script_reading.specs.Faults.{part_text};

    ghost output = { λ p. Some (part_text p) };

    fn fmt<W: fmt::Write>(&self, f: &mut fmt::Formatter<W>) -> fmt::Result {
        match self.position() {
            Some(k) => write!(f, "{} {k}", self.name()),
            None => write!(f, "{}", self.name()),
        }
    }
}
