//! The words after the program's name.
use anyhow::{Result, anyhow};
use cf_question::OrderShape;
use clap::{Arg, ArgAction, ArgMatches, Command, Error};
use std::alloc::{AllocError, Global};
use std::rt::{Env, Files};
use std::{env, fs};

/// A search sees at most so many situations, unless it is told otherwise.
const STATES: u32 = 1_000_000;

/// What is to be looked at.
#[derive(Drop)]
pub(crate) enum Look {
    /// A history, or one in each line.
    Check { lines: bool },
    /// A script, in words.
    Explain,
    /// A script, as a picture.
    Dot,
    /// An account or a script, for a tool or a browser.
    Show(Shape),
    /// All orders in which the steps of a question's callers can come.
    Explore(Exploring),
    /// Nothing: help was asked for, or the words are no command. What there is to say is said, and the program ends with
    /// this status.
    Nothing(u8),
}

/// How orders are searched, and what is told.
#[derive(Drop)]
pub(crate) struct Exploring {
    /// As JSON.
    pub(crate) json: bool,
    /// At most so many situations.
    pub(crate) states: u32,
    /// Ends by the outcomes of these stages alone.
    pub(crate) of: Option<Vec<u16>>,
    /// The order of this number, in place of all that was found.
    pub(crate) order: Option<(usize, OrderShape)>,
    /// It goes on while this file is there.
    pub(crate) file: Option<String>,
}

impl Exploring {
    /// Whether the file that is to be there is gone.
    pub(crate) fn is_over<R: Files>(&self, rt: &R) -> bool {
        match &self.file {
            None => false,
            Some(path) => !fs::exists(rt, path).unwrap_or(true),
        }
    }
}

/// How an account or a script is shown.
#[derive(Clone, Copy)]
pub(crate) enum Shape {
    /// As a page, for a browser.
    Page,
    /// As a trace, for Chrome's viewer or Perfetto.
    Trace,
    /// As OpenTelemetry's spans.
    Spans,
}

/// What the words ask for.
pub(crate) fn read_words<R: Env + Print + Eprint + AllocGlobal>(rt: &R) -> Result<Look> {
    let words = words_of(rt)?;
    let command = command_of(rt.alloc())?;
    match command.try_get_matches_from(words.as_slice()) {
        Ok(matches) => look_in(rt.alloc(), &matches),
        Err(error) => nothing(rt, error),
    }
}

/// The words, of which the first is the program's name.
fn words_of<R: Env + AllocGlobal>(rt: &R) -> Result<Vec<String>> {
    let args = env::args(rt)?;
    Ok(args.collect(rt.alloc())?)
}

/// A command that is known, with its options, and what help says of them.
struct Known {
    name: &'static str,
    about: &'static str,
    options: &'static [Opt],
}

/// An option: its name, whether a value stands behind it, and what help says of it.
type Opt = (&'static str, bool, &'static str);

const COMMANDS: [Known; 6] = [
    Known {
        name: "check",
        about: "Say whether the history on standard input is one history, and where not, what doesn't fit",
        options: &[(
            "lines",
            false,
            "Take each line of standard input as a history",
        )],
    },
    Known {
        name: "explain",
        about: "Say what is wrong with the script on standard input, where, and what would be right, or what is odd about it",
        options: &[],
    },
    Known {
        name: "dot",
        about: "Draw the plan of the script on standard input for Graphviz, with what becomes of each stage",
        options: &[],
    },
    Known {
        name: "page",
        about: "Write a page on which the account or script on standard input can be seen, event by event",
        options: &[],
    },
    Known {
        name: "trace",
        about: "Write the account or script on standard input as a trace, for tools that show one",
        options: &[(
            "spans",
            false,
            "Write OpenTelemetry's spans in place of a trace for Chrome's viewer and Perfetto",
        )],
    },
    Known {
        name: "explore",
        about: "Search all orders in which the steps of the callers on standard input can come",
        options: &EXPLORE,
    },
];

const EXPLORE: [Opt; 6] = [
    (
        "json",
        false,
        "Write JSON, each order with its account and its script",
    ),
    ("states", true, "See at most so many situations (1000000)"),
    (
        "of",
        true,
        "Tell ends by the outcomes of these stages alone: 0,3",
    ),
    ("account", true, "Write this order alone, as an account"),
    ("script", true, "Write this order alone, as a script"),
    ("while", true, "Go on while this file is there"),
];

/// The words that are known.
fn command_of<'a>(alloc: Global) -> Result<Command<'a>, AllocError> {
    let commands = commands_of(alloc)?;
    Command::new(alloc, "cf_look")
        .about("Look at histories and scripts of completable futures")
        .subcommand_required(true)
        .arg_required_else_help(true)
        .subcommands(commands)
}

fn commands_of<'a>(alloc: Global) -> Result<Vec<Command<'a>>, AllocError> {
    let mut commands = Vec::new(alloc);
    for known in &COMMANDS {
        push_command(alloc, &mut commands, known)?;
    }
    Ok(commands)
}

fn push_command<'a>(
    alloc: Global,
    commands: &mut Vec<Command<'a>>,
    known: &Known,
) -> Result<(), AllocError> {
    commands.push(one_of(alloc, known)?)?;
    Ok(())
}

fn one_of<'a>(alloc: Global, known: &Known) -> Result<Command<'a>, AllocError> {
    let args = args_of(alloc, known.options)?;
    Command::new(alloc, known.name)
        .about(known.about)
        .args(args)
}

fn args_of<'a>(alloc: Global, options: &[Opt]) -> Result<Vec<Arg<'a>>, AllocError> {
    let mut args = Vec::new(alloc);
    for option in options {
        args.push(arg_of(alloc, *option))?;
    }
    Ok(args)
}

fn arg_of<'a>(alloc: Global, option: Opt) -> Arg<'a> {
    let (name, takes_value, help) = option;
    let action = if takes_value {
        ArgAction::Set
    } else {
        ArgAction::SetTrue
    };
    Arg::new(alloc, name).long(name).action(action).help(help)
}

/// What the words ask for, once they are taken apart.
fn look_in(alloc: Global, matches: &ArgMatches<'_>) -> Result<Look> {
    Ok(match matches.subcommand() {
        Some(("explain", _)) => Look::Explain,
        Some(("dot", _)) => Look::Dot,
        Some(("page", _)) => Look::Show(Shape::Page),
        Some(("trace", inner)) => Look::Show(shape_of(inner.get_flag("spans"))),
        Some(("explore", inner)) => Look::Explore(how_to_explore(alloc, inner)?),
        Some((_, inner)) => Look::Check {
            lines: inner.get_flag("lines"),
        },
        None => Look::Check { lines: false },
    })
}

/// How orders are searched.
fn how_to_explore(alloc: Global, matches: &ArgMatches<'_>) -> Result<Exploring> {
    let of = match matches.get_str("of") {
        None => None,
        Some(text) => Some(stages_of(alloc, text)?),
    };
    let file = match matches.get_str("while") {
        None => None,
        Some(text) => Some(String::from_str(alloc, text)?),
    };
    Ok(Exploring {
        json: matches.get_flag("json"),
        states: number_of(matches.get_str("states"), "states")?.unwrap_or(STATES),
        of,
        order: order_of(matches)?,
        file,
    })
}

/// Which order is told, and as what.
fn order_of(matches: &ArgMatches<'_>) -> Result<Option<(usize, OrderShape)>> {
    let account = number_of(matches.get_str("account"), "account")?;
    let script = number_of(matches.get_str("script"), "script")?;
    Ok(match (account, script) {
        (Some(number), _) => Some((number as usize, OrderShape::Account)),
        (None, Some(number)) => Some((number as usize, OrderShape::Script)),
        (None, None) => None,
    })
}

fn number_of(text: Option<&str>, name: &str) -> Result<Option<u32>> {
    match text {
        None => Ok(None),
        Some(text) => match text.parse() {
            Ok(number) => Ok(Some(number)),
            Err(_) => Err(anyhow!("--{name} wants a whole number of 32 bits")),
        },
    }
}

/// Stages by their numbers, with commas between.
fn stages_of(alloc: Global, text: &str) -> Result<Vec<u16>> {
    let mut of = Vec::new(alloc);
    for part in text.split(',') {
        match part.parse() {
            Ok(stage) => of.push(stage)?,
            Err(_) => return Err(anyhow!("--of wants numbers of stages, with commas between")),
        }
    }
    Ok(of)
}

/// As what a trace is written.
fn shape_of(spans: bool) -> Shape {
    if spans { Shape::Spans } else { Shape::Trace }
}

/// Says what there is to say of words that are no command.
fn nothing<R: Print + Eprint>(rt: &R, error: Error) -> Result<Look> {
    error.print(rt)?;
    Ok(Look::Nothing(error.exit_code() as u8))
}
