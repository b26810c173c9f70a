//! The picture of a script, whole.
ghost use Rattle.cf_script_reading.specs.Reading.{reading};
ghost use Rattle.cf_picture.specs.Pictures.{Draws};

use crate::limits::write_limits;
use crate::run::{RunScript, run_of};
use crate::stages::{Context, write_attached, write_opening};
use cf_script_reading::{Script, read_script};
use cf_text::ScriptFault;
use std::alloc::{AllocError, Global};

/// The picture of the script that the bytes say, as a text in the language of Graphviz, or the fault for which `run_script`
/// would refuse it. `NoMemory` means that memory was refused. `names` are the names of the stages. A stage has none where its
/// name is empty or isn't there.
pub fn draw_script(alloc: Global, bytes: &[u8], names: &[String]) -> Result<String, ScriptFault>
    ensures { Draws (reading bytes.now) result }
{
    let script = read_script(alloc, bytes)?;
    Ok(drawing_of(alloc, script, names)?)
}

/// The picture of a script.
fn drawing_of(alloc: Global, script: Script, names: &[String]) -> Result<String, AllocError> {
    let mut run = run_of(alloc, script)?;
    let mut text = String::new(alloc);
    match write_picture(&mut text, &mut run, names) {
        Ok(()) => Ok(text),
        Err(fault) => Err(fault),
    }
}

/// Adds the picture of a script whose steps are done.
fn write_picture(
    text: &mut String,
    run: &mut RunScript,
    names: &[String],
) -> Result<(), AllocError> {
    let RunScript {
        plan,
        graph,
        functions,
        notes,
        steps,
    } = run;
    write_head(text)?;
    let context = Context {
        functions,
        notes,
        names,
    };
    write_opening(text, graph, context, plan)?;
    write_attached(text, graph, context, plan.stages(), steps)?;
    write_limits(text, plan.limits())?;
    writeln!(text, "}}")
}

/// Adds what stands before the first stage.
fn write_head(text: &mut String) -> Result<(), AllocError> {
    writeln!(text, "digraph plan {{")?;
    writeln!(text, "  graph [rankdir=LR, fontname=\"Helvetica\"];")?;
    writeln!(text, "  node [fontname=\"Helvetica\", fontsize=11];")?;
    writeln!(text, "  edge [fontname=\"Helvetica\", fontsize=9];")
}
