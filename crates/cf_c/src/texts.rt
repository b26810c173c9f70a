//! Texts for C: of scripts, outcomes and codes.
ghost use Rattle.std.specs.Prelude.{◌≡◌, Some};
ghost use Rattle.cf_text.specs.Texts.{settled_text};
ghost use Rattle.cf_c_handles.specs.Codes.{number_of};
ghost use Rattle.cf_c_handles.specs.Scripts.{RunsScript};
ghost use Rattle.cf_c_handles.specs.Texts.{TellsText, code_text, name_of};
ghost use Rattle.cf_c_handles.specs.Values.{outcome_of};
ghost use Rattle.cf_c_handles.specs.declared.code.Code.{Code};

use cf_c_handles::code::{Code, text_of};
use cf_c_handles::texts::{give_text, run, settled_text};
use cf_c_handles::values::{CfOutcome, outcome_of};
use std::alloc::Global;

/// Runs a script. Its report, or the line of the fault in it, is written as far as the buffer reaches, and so is the length of the
/// whole.
#[unsafe(no_mangle)]
pub extern "C" fn cf_run_script(
    alloc: Global,
    text: &[u8],
    report: &mut [u8],
    length: &mut usize,
) -> u32
    ensures { RunsScript text.now result report.old report.new length.old length.new }
{
    let mut told = Vec::new(alloc);
    match run(alloc, text, &mut told) {
        Some(code) => {
            give_text(&told, report, length);
            code
        }
        None => Code::NoMemory.number(),
    }
}

/// The text of an outcome, as reports have it: "pending" if there is none, and otherwise at most 34 bytes. A kind above 5 counts
/// as 5.
#[unsafe(no_mangle)]
pub extern "C" fn cf_text_of_outcome(
    outcome: &CfOutcome,
    text: &mut [u8],
    length: &mut usize,
) -> u32
    ensures { TellsText (Some (settled_text (outcome_of outcome.now))) result text.old text.new length.old length.new }
{
    give_text(settled_text(outcome_of(*outcome)).as_bytes(), text, length);
    0
}

/// The name of a code.
#[unsafe(no_mangle)]
#[tactic(auto, using(cf_c_handles::proofs::CodeNames::code_named))]
pub extern "C" fn cf_code_text(code: u32, text: &mut [u8], length: &mut usize) -> u32
    ensures told { TellsText (code_text code) result text.old text.new length.old length.new }
    ensures named { (c : Code) → code ≡ number_of c → code_text code ≡ Some (name_of c) }
{
    match text_of(code) {
        Some(name) => {
            give_text(name.as_bytes(), text, length);
            0
        }
        None => Code::NoSuchNumber.number(),
    }
}
