//! The words after the program's name.
ghost use Rattle.std.specs.Prelude.{IfOk};
ghost use Rattle.cf_command.specs.Words.{HasWorkers};

use cf_command::{Command, CommandFault, read_command};
use std::env;
use std::io::ErrorKind;
use std::rt::Env;

/// The command that the program was called with. A word that isn't UTF-8 is no command.
pub(crate) fn command<R: Env + AllocGlobal>(rt: &R) -> Result<Command, CommandFault>
    ensures { IfOk result HasWorkers }
{
    let words = words(rt)?;
    let mut texts = Vec::new(rt.alloc());
    for word in &words {
        if texts.push(word.as_str()).is_err() {
            return Err(CommandFault::NoMemory);
        }
    }
    read_command(rt.alloc(), &texts)
}

fn words<R: Env + AllocGlobal>(rt: &R) -> Result<Vec<String>, CommandFault> {
    let mut args = match env::args(rt) {
        Ok(args) => args,
        Err(e) if e.kind() == ErrorKind::OutOfMemory => return Err(CommandFault::NoMemory),
        Err(_) => return Err(CommandFault::Usage),
    };
    args.next();
    let mut words = Vec::new(rt.alloc());
    for word in args {
        if words.push(word).is_err() {
            return Err(CommandFault::NoMemory);
        }
    }
    Ok(words)
}
