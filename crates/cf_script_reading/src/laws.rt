//! Laws of the reading: what a script to be raced reads as, and where a step's stage stands.
ghost use Rattle.std.specs.Prelude.{ℕ, List};
ghost use Rattle.cf_script_reading.specs.Elements.{StagesStandWhereTold};
ghost use Rattle.cf_script_reading.specs.RaceReadings.{RacesAreReadAsRuns};

/// Bytes are read for a race as they are for a run, except for steps that a race doesn't take. The first of these is the fault
/// that is told, unless another fault comes before it.
pub fn races_are_read_as_runs()
    ensures { (bytes : List ℕ) → RacesAreReadAsRuns bytes }
{}

/// A step that is read names the stage that stands where `stage_place` says, and none where that says none.
pub fn stages_stand_where_told()
    ensures { StagesStandWhereTold }
{}
