//! A whole run: from a reader's bytes to the report that a writer gets.
ghost use Rattle.std.specs.Prelude.{List, ℕ, ◌+◌};
ghost use Rattle.cf_script_reading.specs.Input.{TakesAtMost};
ghost use Rattle.cf_script.specs.Printing.{IsInput, Prints, given_by};
ghost use Rattle.cf_script.specs.Runs.{RunGives};

use crate::printing::print_given;
use crate::report::report_of;
use cf_script_reading::{MAX_BYTES, read_input, read_script};
use cf_text::ScriptFault;
use std::alloc::Global;
use std::io::{Read, Write};

/// What a run gives for the script of the reader: its report, or the fault that stands in its way.
fn ran<R: Read>(alloc: Global, r: &mut R) -> Result<String, ScriptFault>
    ensures gives { (input : List ℕ) × IsInput (R.remaining r.old) input × RunGives input (given_by result) }
    ensures taken { TakesAtMost (MAX_BYTES + 1) (R.remaining r.old) (R.remaining r.new) }
{
    let input = read_input(alloc, r)?;
    let script = read_script(alloc, &input)?;
    Ok(report_of(alloc, script)?)
}

/// Reads a script to its end, or to the first byte that is too many, runs it, and writes its report.
///
/// The whole input is read and checked before anything is written, and the report is made whole in memory. Where that
/// meets a fault, its line alone is written, and the fault answered. `Read` is every error of the reader, `Interrupted`
/// too; `Write` every error of the writer, and a write that takes no byte: a front of the text has then gone out.
/// `NoMemory` is a growth that was refused. `RaceSize` never comes.
pub fn run_script<R: Read, W: Write>(alloc: Global, r: &mut R, w: &mut W) -> Result<(), ScriptFault>
    ensures prints { (input : List ℕ) × IsInput (R.remaining r.old) input
        × Prints (RunGives input) result (W.contents w.old) (W.contents w.new) }
    ensures taken { TakesAtMost (MAX_BYTES + 1) (R.remaining r.old) (R.remaining r.new) }
{
    let given = ran(alloc, r);
    print_given(w, given)
}
