//! The outcomes that a history says its stages have in the end.
ghost use Rattle.std.specs.Prelude.{◌≡◌, length};
ghost use Rattle.cf_history.specs.Verdicts.{FindsOther};

use cf_core::Graph;
use cf_outcome::Outcome;

/// The first stage of the graph that has another outcome than is said here, with the one that it has.
pub(crate) fn first_other(
    graph: &mut Graph,
    outcomes: &[Option<Outcome>],
) -> Option<(usize, Option<Outcome>)>
    requires { length outcomes.now ≡ length graph.old.state.plan.stages }
    ensures { FindsOther graph.old.state outcomes.now result }
{
    let count = graph.stages();
    for i in 0..count {
        let there = graph.outcome(i);
        if there != outcomes[i as usize] {
            return Some((i as usize, there));
        }
    }
    None
}
