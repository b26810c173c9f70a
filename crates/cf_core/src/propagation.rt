//! The laws of late propagation: what may be left for later, and that nobody can tell.
ghost use Rattle.cf_core.specs.Keeping.Attaching.{AttachingIsAfter};
ghost use Rattle.cf_core.specs.Keeping.Treatment.{SettlingIsAfter, TurnsChangeNothing};
ghost use Rattle.cf_core.specs.Keeping.Marks.{OthersWait, SteadyByStage};
ghost use Rattle.cf_core.specs.Keeping.Writes.{ClaimingIsAlone, LinkingIsAlone};

/// Treating the lowest stage that waits for treatment leaves what all treatments lead to.
pub fn turns_change_nothing()
    ensures { TurnsChangeNothing }
{}

/// Settling a stage late leads to what settling it at once does.
pub fn settling_late_is_settling_at_once()
    ensures { SettlingIsAfter }
{}

/// Claiming a stage changes nothing else.
pub fn claiming_is_alone()
    ensures { ClaimingIsAlone }
{}

/// Stages that wait by the stages below them are steady.
pub fn waiting_stages_are_steady()
    ensures { SteadyByStage }
{}

/// A stage that doesn't name a written stage waits as before.
pub fn others_wait()
    ensures { OthersWait }
{}

/// Linking a stage to a lower one that isn't settled changes nothing else.
pub fn linking_is_alone()
    ensures { LinkingIsAlone }
{}

/// Attaching a stage once all others are treated, by what its sources hold then, leads to what appending it and letting
/// each stage take what its sources give does.
pub fn attaching_treated_is_attaching_at_once()
    ensures { AttachingIsAfter }
{}
