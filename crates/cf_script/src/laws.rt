//! Laws of what a script's work does.
ghost use Rattle.cf_script.specs.Laws.{WorkLeavesNothingReady};
ghost use Rattle.cf_script.specs.Races.{PlainRacesGiveExpressions};

/// Work goes on until no stage is ready. Its definition takes at most as many turns as there are stages, and this says
/// that the bound cuts nothing off: each turn claims a stage, and none is claimed twice.
pub fn work_leaves_nothing_ready()
    ensures { WorkLeavesNothingReady }
{}

/// Of a plain script a race gives the lines of the stages' expressions, so the same bytes with however many workers.
pub fn plain_races_give_expressions()
    ensures { PlainRacesGiveExpressions }
{}
