//! The words after the program's name.
use std::env;
use std::io::Result;
use std::rt::Env;

/// What is to be shown.
#[derive(Clone, Copy)]
pub(crate) enum Words {
    /// How long each takes, or checksums of what came of it.
    Show { timed: bool },
    /// Nothing: help was asked for, or the words are no command. What there is to say is said, and the program ends with
    /// this status.
    Nothing(u8),
}

/// What the words ask for, before anything is said.
#[derive(Clone, Copy)]
enum Asked {
    Show { timed: bool },
    Help,
    Unknown,
}

const HELP: &str = "Build and settle graphs, and print checksums of what came of it

Usage: cf_bench [COMMAND]

Commands:
  time  Print how long each takes
  help  Print this message

Options:
  -h, --help  Print help
";

/// What the words ask for.
pub(crate) fn read_words<R: Env + Print + Eprint + AllocGlobal>(rt: &R) -> Result<Words> {
    let words = words_of(rt)?;
    said(rt, kind_of(words.as_slice()))
}

/// The words, of which the first is the program's name.
fn words_of<R: Env + AllocGlobal>(rt: &R) -> Result<Vec<String>> {
    let args = env::args(rt)?;
    Ok(args.collect(rt.alloc())?)
}

/// What the words ask for, of which the first is the program's name.
fn kind_of(words: &[String]) -> Asked {
    if words.len() > 2 {
        return Asked::Unknown;
    }
    match words.get(1) {
        None => Asked::Show { timed: false },
        Some(word) => kind_of_word(word.as_str()),
    }
}

fn kind_of_word(word: &str) -> Asked {
    match word {
        "time" => Asked::Show { timed: true },
        "help" | "-h" | "--help" => Asked::Help,
        _ => Asked::Unknown,
    }
}

/// Says what there is to say.
fn said<R: Print + Eprint>(rt: &R, asked: Asked) -> Result<Words> {
    match asked {
        Asked::Show { timed } => Ok(Words::Show { timed }),
        Asked::Help => help(rt),
        Asked::Unknown => usage(rt),
    }
}

fn help<R: Print>(rt: &R) -> Result<Words> {
    print!(rt; "{HELP}")?;
    Ok(Words::Nothing(0))
}

fn usage<R: Eprint>(rt: &R) -> Result<Words> {
    eprintln!(rt; "usage: cf_bench [time]")?;
    Ok(Words::Nothing(2))
}
