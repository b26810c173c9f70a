//! The commands, and how they are read.
ghost use Rattle.std.specs.Prelude.{◌≡◌, IfOk, IfSome, IsErrOf, Some, None, map, codes};
ghost use Rattle.clap.specs.Words.{subcommand_of, subcommand_rows_of, fault_of, FailsBy, first_of, rows_of, found_of};
ghost use Rattle.cf_command.specs.Words.{HasWorkers, cf_words, command_said, command_of, race_said};

use crate::fault::CommandFault;
use crate::workers::workers;
use clap::error::ErrorKind;
use clap::{Arg, ArgMatches, Command as Words, Error};
use std::alloc::Global;

/// What the program is to do with the script that it reads.
#[derive(Clone, Copy, Debug, PartialEq, Eq)]
pub enum Command {
    /// Runs it, step by step.
    Run,
    /// Races it, with so many workers: 1 to 32, and 4 where no number is given.
    Race(u8),
}

/// What `clap` makes of the words.
fn matched<'a>(alloc: Global, words: &'a [&'a str]) -> Result<ArgMatches<'a>, Error>
    ensures ok { IfOk result (λ m. subcommand_rows_of m
        ≡ subcommand_of cf_words (map (λ w. w.now) words.entry.now)) }
    ensures faults { FailsBy (fault_of cf_words (map (λ w. w.now) words.entry.now)) result }
{
    let option = Arg::new(alloc, "workers").long("workers");
    let race = Words::new(alloc, "race").arg(option)?;
    let run = Words::new(alloc, "run");
    let top = Words::new(alloc, "cf")
        .no_binary_name(true)
        .subcommand_required(true);
    let both = top.subcommand(run)?;
    let cf = both.subcommand(race)?;
    cf.try_get_matches_from(words)
}

/// The race that the matches of its words tell.
#[tactic(auto, using(crate::proofs::Rows::first_row))]
fn race(inner: &ArgMatches<'_>) -> Option<Command>
    ensures said { result ≡ race_said (first_of (codes "workers") (rows_of (found_of inner.now))) }
    ensures few { IfSome result HasWorkers }
{
    match inner.get_str("workers") {
        None => Some(Command::Race(4)),
        Some(text) => Some(Command::Race(workers(text)?)),
    }
}

/// The command that the matches tell.
fn told_by(matches: &ArgMatches<'_>) -> Option<Command>
    ensures said { result ≡ command_said (subcommand_rows_of matches.now) }
    ensures few { IfSome result HasWorkers }
{
    let (name, inner) = matches.subcommand()?;
    if name == "run" {
        Some(Command::Run)
    } else if name == "race" {
        race(inner)
    } else {
        None
    }
}

/// Reads the words after the program's name: `run`, or `race` with the option `--workers N` or `--workers=N`, N a
/// decimal number 1 to 32 without sign or leading zero.
///
/// Everything else that `clap` refuses, a call for help too, and every other N are `Usage`; a growth that was refused
/// is `NoMemory`.
#[tactic(auto, unfolding(crate::specs::Words::command_of))]
pub fn read_command<'a>(alloc: Global, words: &'a [&'a str]) -> Result<Command, CommandFault>
    ensures ok { IfOk result (λ c. command_of (map (λ w. w.now) words.entry.now) ≡ Some c) }
    ensures few { IfOk result HasWorkers }
    ensures usage { IsErrOf result CommandFault.Usage
        → command_of (map (λ w. w.now) words.entry.now) ≡ None }
{
    match matched(alloc, words) {
        Ok(matches) => match told_by(&matches) {
            Some(c) => Ok(c),
            None => Err(CommandFault::Usage),
        },
        Err(e) => {
            if e.kind() == ErrorKind::OutOfMemory {
                Err(CommandFault::NoMemory)
            } else {
                Err(CommandFault::Usage)
            }
        }
    }
}
