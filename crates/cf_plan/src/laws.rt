//! Laws of dependents: they are the converse of sources.
ghost use Rattle.cf_plan.specs.Laws.{DependentsAreAbove, DependentsAreConverse, DependentsAreRising, DependentsAreThere, EachEdgeIsADependent};

/// A stage stands among the dependents of stage i as often as its own sources name stage i.
pub fn dependents_are_the_converse_of_sources()
    ensures { DependentsAreConverse }
{}

/// Where each source is below the stage that names it, each dependent is above the stage that it depends on.
pub fn dependents_are_above()
    ensures { DependentsAreAbove }
{}

/// Dependents are stages that there are.
pub fn dependents_are_there()
    ensures { DependentsAreThere }
{}

/// Dependents stand in rising order.
pub fn dependents_are_rising()
    ensures { DependentsAreRising }
{}

/// Where each source is below the stage that names it, the dependents of all stages together are as many as the edges.
pub fn each_edge_is_a_dependent()
    ensures { EachEdgeIsADependent }
{}
