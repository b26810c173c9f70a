//! Why the words are no command, and the line that says so.
use std::error::Error;
use std::fmt;

/// Why the words after the program's name are no command.
#[derive(Clone, Copy, Debug, PartialEq, Eq)]
pub enum CommandFault {
    /// They aren't one of the commands of the usage line. A call for help is none either.
    Usage,
    /// A growth was refused while they were read.
    NoMemory,
}

/// The line that tells the fault, without its line feed.
impl fmt::Display for CommandFault {
    ghost use Rattle.std.specs.Prelude.{Some};
    ghost use Rattle.cf_command.specs.Lines.{fault_text};

    ghost output = { λ e. Some (fault_text e) };

    fn fmt<W: fmt::Write>(&self, f: &mut fmt::Formatter<W>) -> fmt::Result {
        match self {
            CommandFault::Usage => write!(f, "usage: cf run | cf race [--workers N]"),
            CommandFault::NoMemory => write!(f, "fault 9 memory"),
        }
    }
}

impl Error for CommandFault {}
