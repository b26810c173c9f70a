//! What events do to a graph.
ghost use Rattle.std.specs.Prelude.{◌≡◌, ◌≤◌, length, slice_get, unwrap_or};
ghost use Rattle.cf_model.specs.Events.{answered, state_after};
ghost use Rattle.cf_model.specs.Graphs.{CountsTurns, Rests};
ghost use Rattle.cf_model.specs.Ranges.{EventFits, EventsFit};
ghost use Rattle.cf_event.specs.Replays.{Replays};

use cf_core::Graph;
use cf_model::{Event, Reply};

/// Does an event to a graph, and gives its reply. The stages that it names are there, and a stage that it attaches fits its
/// form.
#[inline(always)]
pub fn apply(g: &mut Graph, e: &Event) -> Reply
    requires { EventFits (length g.old.state.plan.stages) e.now }
    ensures told { (result, g.new.state) ≡ answered g.old.state e.now }
    ensures rests { Rests e.now g.old g.new }
    ensures counted { CountsTurns g.old g.new }
{
    g.answer(e)
}

/// Does events to a graph one after another. Before each, the graph does as many turns of work that is still to be done
/// as `nudges` says at that place, and none where it is shorter. Each event fits the graph as those before it leave it.
pub fn replay(g: &mut Graph, events: &[Event], nudges: &[u32])
    requires { EventsFit g.old.state events.now }
    ensures replayed { Replays nudges.now events.now g.old g.new }
    ensures state { g.new.state ≡ state_after g.old.state events.now }
    ensures counted { g.old.turns ≤ g.new.turns }
{
    for (i, e) in events.iter().enumerate() {
        g.nudge(nudge_at(nudges, i));
        g.answer(e);
    }
}

/// How many turns to take before the event at this place.
fn nudge_at(nudges: &[u32], i: usize) -> u32
    ensures { result ≡ unwrap_or (slice_get nudges.now i) 0 }
{
    if i < nudges.len() { nudges[i] } else { 0 }
}
