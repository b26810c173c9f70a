//! Laws of whole runs of events.
ghost use Rattle.cf_model.specs.Growth.{EventsGrowPlans, GrownAreGrowing, GrownReopenAsTheyWere, OthersKeepShape};
ghost use Rattle.cf_model.specs.Laws.{GrantsLeaveFewer, GrantsOnce, KeepsClosed, KeepsOutcomes, NeverMoreClaimable, NeverReadyAgain, PendingHasNoneSettled, ReachedAreClosed, ReachedLinkLower};

/// A settled stage keeps its outcome, whatever events come.
pub fn settled_stages_keep_their_outcomes()
    ensures { KeepsOutcomes }
{}

/// Of all claims of one stage at most one is granted, whatever events come.
pub fn claims_are_granted_once()
    ensures { GrantsOnce }
{}

/// A stage that has been claimed, linked or settled is never ready again, whatever events come.
pub fn claimed_stages_are_never_ready_again()
    ensures { NeverReadyAgain }
{}

/// No event makes more stages claimable, now or later, if those that there is room for are counted too.
pub fn no_event_makes_more_claimable()
    ensures { NeverMoreClaimable }
{}

/// Each granted claim leaves fewer stages that may be claimed, now or later. So claiming and finishing the lowest ready
/// stage, until none is ready, comes to an end.
pub fn granted_claims_leave_fewer_claimable()
    ensures { GrantsLeaveFewer }
{}

/// The plan grows behind what it was, and takes the room for it, whatever events come.
pub fn events_grow_plans()
    ensures { EventsGrowPlans }
{}

/// The plan, and how many stages and claims there are, stay the same while no event attaches a stage.
pub fn other_events_keep_the_shape()
    ensures { OthersKeepShape }
{}

/// A plan that grows by stages that fit stays built and within its bounds.
pub fn grown_plans_are_growing()
    ensures { GrownAreGrowing }
{}

/// Whatever events came, a plan with room that is reopened is what it was at the opening. So a graph that is restarted
/// is at its very start.
pub fn grown_plans_reopen_as_they_were()
    ensures { GrownReopenAsTheyWere }
{}

/// A state in which nothing is due any more stays so, whatever events come.
pub fn events_keep_states_closed()
    ensures { KeepsClosed }
{}

/// In each state that events reach from the opening of a plan nothing is due any more.
pub fn reached_states_are_closed()
    ensures { ReachedAreClosed }
{}

/// In each state that events reach from the opening of a plan links are to lower stages.
pub fn reached_states_link_lower()
    ensures { ReachedLinkLower }
{}

/// While an either form, an anyOf or a form of one source is pending, none of its sources has settled. So the first
/// source that settles decides it.
pub fn pending_stages_have_no_settled_source()
    ensures { PendingHasNoneSettled }
{}
