//! The words of the command line: which command of `cf` they are.
//!
//! `cf run` runs a script, and `cf race [--workers N]` races one. `clap` splits the words into a subcommand and its
//! option, and the text of the option is checked here, digit by digit. `specs/Words.antt` says what the words mean by
//! clap's own definitions over the command line as a term, and `read_command` is proved to answer that, whether it
//! takes the words or refuses them. `commands_are_read` says what that comes to for words that are written out.
#![tactic(auto)]

mod command;
mod fault;
mod laws;
mod workers;

pub use command::{Command, read_command};
pub use fault::CommandFault;
pub use laws::commands_are_read;
