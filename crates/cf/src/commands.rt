//! A command and its script in, a report and a status out.
ghost use Rattle.std.specs.Prelude.{◌≡◌, List, ℕ};
ghost use Rattle.std.specs.Process.{exit_status};
ghost use Rattle.cf_command.specs.Words.{HasWorkers};
ghost use Rattle.cf_script.specs.Printing.{IsInput};
ghost use Rattle.cf.specs.Commands.{CarriesOut, status_of};

use cf_command::Command;
use cf_script::{NoGate, ScriptFault, race_script, run_script};
use std::alloc::Global;
use std::io::{Read, Write};
use std::process::ExitCode;
use std::sync::Wait;
use std::thread::Threads;

/// Runs or races the script that the reader has, as the command says, and tells the status to end with.
pub(crate) fn carry_out<R: Threads + Wait + Sync, I: Read, W: Write>(
    rt: &R,
    alloc: Global,
    command: Command,
    r: &mut I,
    w: &mut W,
) -> ExitCode
    requires { HasWorkers command }
    ensures { (input : List ℕ) × IsInput (I.remaining r.old) input
        × CarriesOut command input (W.contents w.old) (W.contents w.new) (exit_status result) }
{
    match command {
        Command::Run => status(run_script(alloc, r, w)),
        Command::Race(workers) => status(race_script(rt, alloc, r, w, &NoGate, workers)),
    }
}

/// The status that a run or a race ends with.
fn status(answer: Result<(), ScriptFault>) -> ExitCode
    ensures { exit_status result ≡ status_of answer }
{
    match answer {
        Ok(()) => ExitCode::SUCCESS,
        Err(_) => ExitCode::FAILURE,
    }
}
