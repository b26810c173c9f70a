//! The report of a script.
ghost use Rattle.std.specs.Prelude.{◌≡◌, ◌++◌, ◌<◌, length, OnOk, IfOk, string_bytes};
ghost use Rattle.cf_model.specs.States.{outcome_at};
ghost use Rattle.cf_script_reading.specs.Scripts.{StepFits, StepsFit, extent_of};
ghost use Rattle.cf_text.specs.Texts.{line};
ghost use Rattle.cf_script.specs.Reports.{after_step, after_steps, report, stage_text, stages_lines, step_text, steps_lines};

use crate::steps::{do_step, write_answer};
use cf_core::Graph;
use cf_script_reading::{Func, Script, Step};
use std::alloc::{AllocError, Global};

/// Does a step, and adds its line.
fn write_step(
    text: &mut String,
    graph: &mut Graph,
    functions: &[Func],
    step: Step,
) -> Result<(), AllocError>
    requires { StepFits (length graph.old.state.plan.stages) step }
    ensures line { OnOk result
        (string_bytes text.new ≡ string_bytes text.old ++ line (step_text functions.now graph.old.state step)) }
    ensures state { graph.new.state ≡ after_step functions.now graph.old.state step }
{
    let answer = do_step(graph, functions, step);
    write_answer(text, answer)?;
    text.push_str("\n")
}

/// Does the steps in order, and adds their lines.
fn write_steps(
    text: &mut String,
    graph: &mut Graph,
    functions: &[Func],
    steps: &[Step],
) -> Result<(), AllocError>
    requires { StepsFit (extent_of graph.old.state.plan) steps.now }
    ensures lines { OnOk result
        (string_bytes text.new ≡ string_bytes text.old ++ steps_lines functions.now graph.old.state steps.now) }
    ensures state { OnOk result (graph.new.state ≡ after_steps functions.now graph.old.state steps.now) }
{
    'steps: for step in steps {
        write_step(text, graph, functions, *step)?;
    }
    Ok(())
}

/// Adds the line of a stage.
fn write_stage(text: &mut String, graph: &mut Graph, i: u16) -> Result<(), AllocError>
    requires { i < length graph.old.state.plan.stages }
    ensures line { OnOk result
        (string_bytes text.new ≡ string_bytes text.old ++ line (stage_text i (outcome_at graph.old.state i))) }
    ensures unchanged { graph.new.state ≡ graph.old.state }
{
    match graph.outcome(i) {
        Some(o) => writeln!(text, "stage {i} {o}"),
        None => writeln!(text, "stage {i} pending"),
    }
}

/// Adds the lines of all stages.
pub(crate) fn write_stages(text: &mut String, graph: &mut Graph) -> Result<(), AllocError>
    ensures { OnOk result
        (string_bytes text.new ≡ string_bytes text.old ++ stages_lines graph.old.state) }
{
    'stages: for i in 0..graph.stages() {
        write_stage(text, graph, i)?;
    }
    Ok(())
}

/// Adds the lines of steps, in order, and then those of all stages as they leave the graph.
fn write_lines(
    text: &mut String,
    graph: &mut Graph,
    functions: &[Func],
    steps: &[Step],
) -> Result<(), AllocError>
    requires { StepsFit (extent_of graph.old.state.plan) steps.now }
    ensures { OnOk result
        (string_bytes text.new ≡ (string_bytes text.old ++ steps_lines functions.now graph.old.state steps.now)
        ++ stages_lines (after_steps functions.now graph.old.state steps.now)) }
{
    write_steps(text, graph, functions, steps)?;
    write_stages(text, graph)
}

/// The report of a script, whole.
pub(crate) fn report_of(alloc: Global, script: Script) -> Result<String, AllocError>
    ensures { IfOk result (λ text. string_bytes text ≡ report script) }
{
    let (plan, room, functions, steps) = script.into_parts();
    let mut graph = Graph::new_growing(alloc, plan, room)?;
    let mut text = String::new(alloc);
    let written = write_lines(&mut text, &mut graph, &functions, &steps);
    // (by one call, since a graph that is let go at a way out is dear to prove)
    drop(graph);
    written?;
    Ok(text)
}
