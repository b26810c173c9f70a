//! The program `cf`: argument words in, status out.
//!
//! `cf run` reads a script from standard input and writes its report to standard output; `cf race` races it with four
//! workers, and `cf race --workers N` with N. Each ends with status 0 after a report, and with 1 after a fault of the
//! script, whose line stands on standard output. Words that are no command give the usage line on standard error and
//! status 2. Want of memory while the words are read prints `fault 9 memory` to standard output and ends with 1.
//!
//! `carry_out` is the program but for its words: it is proved to do for a command what that says, for any reader and any
//! writer.
#![tactic(auto)]

mod args;
mod commands;

ghost use Rattle.std.specs.Prelude.{◌≡◌};
ghost use Rattle.std.specs.Process.{exit_status};

use cf_command::CommandFault;
use commands::carry_out;
use std::io;
use std::process::ExitCode;

fn main(rt: HostRuntime) -> ExitCode {
    match args::command(&rt) {
        Ok(command) => carry_out(
            &rt,
            rt.alloc(),
            command,
            &mut rt.reader(),
            &mut io::writer(&rt),
        ),
        Err(fault) => refuse(&rt, fault),
    }
}

/// Tells why the words are no command, and the status to end with.
fn refuse<R: Print + Eprint>(rt: &R, fault: CommandFault) -> ExitCode
    ensures usage { fault ≡ CommandFault.Usage → exit_status result ≡ 2 }
    ensures memory { fault ≡ CommandFault.NoMemory → exit_status result ≡ 1 }
{
    match fault {
        CommandFault::Usage => {
            let _ = eprintln!(rt; "{fault}");
            ExitCode::from(2)
        }
        CommandFault::NoMemory => {
            let _ = println!(rt; "{fault}");
            ExitCode::FAILURE
        }
    }
}
