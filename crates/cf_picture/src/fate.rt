//! What became of a stage, and how that looks.
ghost use Rattle.std.specs.Prelude.{◌≡◌, ◌<◌, length};
ghost use Rattle.cf_model.specs.States.{stage_at};
ghost use Rattle.cf_picture.specs.Fates.{IsElsewhereAs, fate_in};

use crate::notes::Note;
use cf_core::Graph;
use cf_model::Claimed;
use cf_outcome::{Cause, Outcome};
use cf_script_reading::WORKER;
use std::alloc::AllocError;

/// What became of a stage.
#[derive(Clone, Copy)]
pub(crate) enum Fate {
    /// It waits for its sources, or for its callers.
    Pending,
    /// Its function may be called, and isn't.
    Ready,
    /// A caller has its function, and hasn't finished it.
    Claimed,
    /// It waits for the stage that it takes its outcome from.
    Linked,
    Settled(Outcome),
}

/// What has become of a stage, of which this was noted. Whether it is ready is asked by a claim of the caller that
/// does the work, which changes nothing for any other stage.
pub(crate) fn fate_of(graph: &mut Graph, note: Note, i: u16) -> Fate
    requires { i < length graph.old.state.plan.stages }
    ensures stands { result ≡ fate_in (stage_at graph.old.state i) note.is_open }
    ensures elsewhere { IsElsewhereAs i graph.old.state graph.new.state }
    ensures plan { graph.new.state.plan ≡ graph.old.state.plan }
{
    if let Some(o) = graph.outcome(i) {
        return Fate::Settled(o);
    }
    match graph.claim(WORKER, i) {
        Claimed::Granted(_) => Fate::Ready,
        Claimed::NotReady => Fate::Pending,
        Claimed::Taken | Claimed::Settled => {
            if note.is_open {
                Fate::Claimed
            } else {
                Fate::Linked
            }
        }
    }
}

/// Adds what became of a stage: an outcome in the words of reports.
pub(crate) fn write_fate(text: &mut String, fate: Fate) -> Result<(), AllocError> {
    match fate {
        Fate::Pending => write!(text, "pending"),
        Fate::Ready => write!(text, "ready"),
        Fate::Claimed => write!(text, "claimed"),
        Fate::Linked => write!(text, "linked"),
        Fate::Settled(o) => write!(text, "{o}"),
    }
}

/// Its look: a value has one line, a fault two, a cancellation two that are broken; what isn't settled is dotted, and in bold
/// where its function may be called, is being called or has named a stage.
pub(crate) fn look_of(fate: Fate) -> &'static str {
    match fate {
        Fate::Pending => "style=\"filled,dotted\", fillcolor=gray95",
        Fate::Ready => "style=\"filled,bold\", fillcolor=khaki1",
        Fate::Claimed => "style=\"filled,bold,dashed\", fillcolor=lightblue",
        Fate::Linked => "style=\"filled,dashed\", fillcolor=lightblue",
        Fate::Settled(o) => look_of_outcome(o),
    }
}

fn look_of_outcome(o: Outcome) -> &'static str {
    match o {
        Outcome::Value(_) => "style=filled, fillcolor=darkseagreen1",
        Outcome::Fault {
            cause: Cause::Cancelled,
            ..
        } => "style=\"filled,dashed\", peripheries=2, fillcolor=burlywood1",
        Outcome::Fault { .. } => "style=filled, peripheries=2, fillcolor=lightcoral",
    }
}
