//! The steps of a script, done one at a time.
ghost use Rattle.std.specs.Prelude.{◌≡◌, ◌++◌, OnOk, length, string_bytes};
ghost use Rattle.cf_script_reading.specs.Scripts.{StepFits};
ghost use Rattle.cf_script.specs.Reports.{after_step, answer_text, step_answer};
ghost use Rattle.cf_script.specs.Working.{worked};

use cf_core::Graph;
use cf_forms::Each;
use cf_model::{Reply, Told};
use cf_script_reading::{Func, Step, WORKER};
use cf_text::{write_reply, write_told};
use std::alloc::AllocError;

/// What a step is answered.
#[derive(Clone, Copy, Debug, PartialEq, Eq)]
pub enum StepAnswer {
    /// The reply to an event.
    Replied(Reply),
    /// What a question is told.
    Told(Told),
    /// How many functions work called.
    Worked(u32),
    /// Nothing is said of a nudge.
    Nudged,
}

/// Works until no stage is ready, and says how many functions were called: that of each stage once.
fn work(graph: &mut Graph, functions: &[Func]) -> u32
    ensures { (result, graph.new.state) ≡ worked functions.now graph.old.state }
{
    graph.work(WORKER, &mut Each { functions })
}

/// Does a step of a script whose functions these are: an event is answered, a question told, work goes on until no stage
/// is ready, and a nudge changes nothing that can be asked for.
pub fn do_step(graph: &mut Graph, functions: &[Func], step: Step) -> StepAnswer
    requires { StepFits (length graph.old.state.plan.stages) step }
    ensures answer { result ≡ step_answer functions.now graph.old.state step }
    ensures state { graph.new.state ≡ after_step functions.now graph.old.state step }
{
    match step {
        Step::Does(event) => StepAnswer::Replied(graph.answer(&event)),
        Step::Asks(ask) => StepAnswer::Told(graph.tell(ask)),
        Step::Work => StepAnswer::Worked(work(graph, functions)),
        Step::Nudge(k) => {
            graph.nudge(k);
            StepAnswer::Nudged
        }
    }
}

/// Adds the text of what a step is answered.
pub(crate) fn write_answer(text: &mut String, answer: StepAnswer) -> Result<(), AllocError>
    ensures { OnOk result (string_bytes text.new ≡ string_bytes text.old ++ answer_text answer) }
{
    match answer {
        StepAnswer::Replied(reply) => write_reply(text, reply),
        StepAnswer::Told(told) => write_told(text, told),
        StepAnswer::Worked(calls) => write!(text, "worked {calls}"),
        StepAnswer::Nudged => write!(text, "nudged"),
    }
}
