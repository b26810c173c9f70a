//! Texts for C: of scripts, outcomes and codes.
ghost use Rattle.std.specs.Prelude.{◌≡◌, [], IfSome, Some};
ghost use Rattle.cf_text.specs.Texts.{settled_text};
ghost use Rattle.cf_c_handles.specs.Scripts.{IsRun, code_of_run};
ghost use Rattle.cf_c_handles.specs.Texts.{GivesText};
ghost use Rattle.cf_c_handles.specs.declared.code.Code.{Code};

use crate::code::Code;
use cf_outcome::{Outcome, ShortText};
use cf_script::{ScriptFault, run_script};
use std::alloc::Global;

/// Runs a script. It tells the code where all that the script prints is there.
pub fn run(alloc: Global, text: &[u8], told: &mut Vec<u8>) -> Option<u32>
    requires { told.old.items ≡ [] }
    ensures { IfSome result (IsRun text.now told.new.items) }
{
    let mut input = text;
    let ran = run_script(alloc, &mut input, told);
    code_of_run(ran)
}

/// The code of a run whose text is whole. A writer into memory fails for want of it alone, and a reader of memory never.
fn code_of_run(ran: Result<(), ScriptFault>) -> Option<u32>
    ensures { result ≡ code_of_run ran }
{
    match ran {
        Ok(()) => Some(0),
        Err(ScriptFault::NoMemory | ScriptFault::Write | ScriptFault::Read) => None,
        Err(_) => Some(Code::BadScript.number()),
    }
}

/// Gives C a text as far as its buffer reaches, and the length of the whole.
pub fn give_text(text: &[u8], buffer: &mut [u8], length: &mut usize)
    ensures { GivesText text.now buffer.old buffer.new length.new }
{
    let n = text.len().min(buffer.len());
    buffer[..n].copy_from_slice(&text[..n]);
    *length = text.len();
}

/// The text of an outcome, or that there is none yet.
pub fn settled_text(outcome: Option<Outcome>) -> ShortText
    ensures { result ≡ settled_text outcome }
{
    let mut text = ShortText::new();
    match outcome {
        Some(outcome) => text.push_outcome(outcome),
        None => text.push("pending"),
    }
    text
}
