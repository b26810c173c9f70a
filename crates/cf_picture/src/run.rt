//! The steps of a script, done.
ghost use Rattle.std.specs.Prelude.{◌≡◌, IfOk, length};
ghost use Rattle.cf_script_reading.specs.Scripts.{StepFits, StepsFit, extent_of};
ghost use Rattle.cf_script.specs.Reports.{after_step, after_steps};
ghost use Rattle.cf_picture.specs.Pictures.{after_script};

use crate::notes::Notes;
use cf_core::Graph;
use cf_plan::Plan;
use cf_script::{StepAnswer, do_step};
use cf_script_reading::{Func, Script, Step};
use std::alloc::{AllocError, Global};

/// A script whose steps are done.
#[derive(Drop)]
pub(crate) struct RunScript {
    /// The plan that it begins with.
    pub(crate) plan: Plan,
    /// The graph as the steps leave it.
    pub(crate) graph: Graph,
    pub(crate) functions: Vec<Func>,
    pub(crate) notes: Notes,
    pub(crate) steps: Vec<Step>,
}

/// Does the steps of a script. It fails only where a growth was refused.
pub(crate) fn run_of(alloc: Global, script: Script) -> Result<RunScript, AllocError>
    ensures { IfOk result (λ c. c.graph.state ≡ after_script script) }
{
    let (opening, room, functions, steps) = script.into_parts();
    let plan = opening.share()?;
    let mut notes = Notes::new(alloc, plan.stages() as usize + room as usize)?;
    let mut graph = Graph::new_growing(alloc, opening, room)?;
    do_steps(&mut graph, &functions, &mut notes, &steps);
    Ok(RunScript {
        plan,
        graph,
        functions,
        notes,
        steps,
    })
}

/// Does a step, and notes what it did to a claim.
fn do_one(graph: &mut Graph, functions: &[Func], notes: &mut Notes, step: Step)
    requires { StepFits (length graph.old.state.plan.stages) step }
    ensures { graph.new.state ≡ after_step functions.now graph.old.state step }
{
    let answer = do_step(graph, functions, step);
    if let (Step::Does(event), StepAnswer::Replied(reply)) = (step, answer) {
        notes.note(event, reply);
    }
}

/// Does the steps in order, as a report does.
fn do_steps(graph: &mut Graph, functions: &[Func], notes: &mut Notes, steps: &[Step])
    requires { StepsFit (extent_of graph.old.state.plan) steps.now }
    ensures { graph.new.state ≡ after_steps functions.now graph.old.state steps.now }
{
    'steps: for step in steps {
        do_one(graph, functions, notes, *step);
    }
}
