//! Looks at what others made.
//!
//! `cf_look check` reads a history from standard input: a plan with the words of its events, and the records of each
//! caller. It says whether one sequential graph would have answered all callers so. Where it wouldn't, it tells the
//! first thing that doesn't fit, and what the sequential graph answers there. With `--lines` each line is a history
//! and gets a line of its own, so that one run judges many. It ends with status 0 where all fit, and 1 where one
//! doesn't.
//!
//! `cf_look explain` reads a script, and says what is wrong with it: the fault that `cf run` would tell, where it is,
//! and what would be right there; and what is odd about it. It ends with status 0 where nothing is wrong, 1 where
//! `cf run` would refuse the script, and 3 where it is only odd.
//!
//! `cf_look dot` reads a script, and writes its plan as a picture in the language of Graphviz, with what becomes of
//! each stage by the script's steps. It ends with status 0, or with 1 where `cf run` would refuse the script; then
//! the line of the fault is on standard error.
//!
//! `cf_look page` reads a script or an account, which is a history with what it says for people, and writes a page
//! for a browser on which its events can be gone through. `cf_look trace` writes the same as a trace. They end with
//! status 0. Where what they read is neither, they end with 1, write nothing else, and say on standard error what
//! `cf_look explain` says of it.
//!
//! `cf_look explore` reads a question, which is a script with a list of steps for each of several callers, and
//! searches all orders in which these can come. It ends with status 0 where all that must hold holds, 1 where
//! something doesn't, 2 where the question has a fault, which is on standard error, and 3 where a bound ended it
//! before all orders were seen.
//!
//! All end with 2 where the words or standard input can't be read, where standard output can't be written, and where
//! memory is refused; a line on standard error says which. The verdicts are those of `cf_history`, `cf_explain`,
//! `cf_picture` and `cf_page`, which are proved; this program reads in and writes out.
#![tactic(auto)]

ghost use Rattle.std.specs.Prelude.{◌≡◌, ◌≢◌};

mod args;
mod explore;
mod fault;
mod history;
mod input;
mod named;
mod page;
mod people;
mod script;
mod show;
mod texts;

use anyhow::Result;
use args::{Look, Shape, read_words};
use cf_explain::Verdict as Said;
use cf_history::Verdict;
use explore::{explore_one, fault_of, is_question};
use history::judge;
use input::{input_of, json_in};
use page::{ReadInput, Shown, read_in, text_of, write_refusal};
use script::{Drawn, draw, explain_script, script_in};
use serde_json::Value as Json;
use show::line_of;
use std::process::ExitCode;
use std::rt::{Clock, Env, Files};

/// All histories fit.
const FITS: u8 = 0;

/// One doesn't.
const FITS_NOT: u8 = 1;

/// One can't be read, or nothing can be said.
const UNREADABLE: u8 = 2;

/// Nothing is wrong with a script.
const RIGHT: u8 = 0;

/// It is drawn.
const DRAWN: u8 = 0;

/// `cf run` would refuse it.
const REFUSED: u8 = 1;

/// It would be run, and something about it is odd.
const ODD: u8 = 3;

fn main(rt: HostRuntime) -> ExitCode {
    match look(&rt) {
        Ok(status) => ExitCode::from(status),
        Err(why) => {
            let _ = eprintln!(rt; "cf_look: {why}");
            ExitCode::from(UNREADABLE)
        }
    }
}

/// Does what the words ask for, and answers the status to end with, unless standard output fails or memory is refused.
fn look<R: Env + Input + Print + Eprint + AllocGlobal + Clock + Files>(rt: &R) -> Result<u8> {
    match read_words(rt)? {
        Look::Nothing(status) => Ok(status),
        Look::Explain => explain_one(rt),
        Look::Dot => draw_one(rt),
        Look::Show(shape) => show_one(rt, shape),
        Look::Explore(asked) => explore_one(rt, &asked),
        Look::Check { lines } => check_input(rt, lines),
    }
}

/// Judges what is on standard input: a history, or one in each line.
fn check_input<R: Input + Print + AllocGlobal>(rt: &R, lines: bool) -> Result<u8> {
    let Ok(input) = input_of(rt) else {
        println!(rt; "unreadable: standard input")?;
        return Ok(UNREADABLE);
    };
    if lines {
        check_lines(rt, input.as_slice())
    } else {
        check_one(rt, input.as_slice())
    }
}

/// Explains the script on standard input.
fn explain_one<R: Input + Print + AllocGlobal>(rt: &R) -> Result<u8> {
    let Ok(bytes) = script_in(rt) else {
        println!(rt; "unreadable: standard input")?;
        return Ok(UNREADABLE);
    };
    match json_in(rt.alloc(), bytes.as_slice())? {
        Some(json) if is_question(&json) => explain_question(rt, &json),
        _ => Ok(status_of_script(explain_script(rt, bytes.as_slice())?)),
    }
}

/// Explains what is asked of all orders: that it is right, or the first fault in it.
fn explain_question<R: Print + AllocGlobal>(rt: &R, json: &Json) -> Result<u8> {
    match fault_of(rt.alloc(), json)? {
        None => {
            println!(rt; "right: a question for cf_look explore")?;
            Ok(RIGHT)
        }
        Some(fault) => {
            println!(rt; "refused: {fault}")?;
            Ok(REFUSED)
        }
    }
}

/// Draws the script on standard input.
fn draw_one<R: Input + Print + Eprint + AllocGlobal>(rt: &R) -> Result<u8> {
    let Ok(bytes) = script_in(rt) else {
        eprintln!(rt; "unreadable: standard input")?;
        return Ok(UNREADABLE);
    };
    Ok(match draw(rt, bytes.as_slice())? {
        Drawn::Whole => DRAWN,
        Drawn::Refused => REFUSED,
        Drawn::NoName => UNREADABLE,
    })
}

/// Shows the account or the script on standard input: all of it, or nothing.
fn show_one<R: Input + Print + Eprint + AllocGlobal>(rt: &R, shape: Shape) -> Result<u8> {
    let Ok(input) = input_of(rt) else {
        eprintln!(rt; "unreadable: standard input")?;
        return Ok(UNREADABLE);
    };
    show_bytes(rt, shape, input.as_slice())
}

/// Shows the account or the script of these bytes.
fn show_bytes<R: Print + Eprint + AllocGlobal>(rt: &R, shape: Shape, bytes: &[u8]) -> Result<u8> {
    match read_in(rt.alloc(), bytes) {
        Ok(ReadInput::Shown(shown)) => write_shown(rt, shape, &shown),
        Ok(ReadInput::Refused(fault)) => {
            write_refusal(rt, bytes, fault)?;
            Ok(REFUSED)
        }
        Err(why) => {
            eprintln!(rt; "unreadable: {why}")?;
            Ok(UNREADABLE)
        }
    }
}

/// Writes what was read, in this shape.
fn write_shown<R: Print + AllocGlobal>(rt: &R, shape: Shape, shown: &Shown) -> Result<u8> {
    let text = text_of(rt.alloc(), shown, shape)?;
    print!(rt; "{text}")?;
    Ok(DRAWN)
}

/// Judges a history, and writes the line of its verdict.
fn check_one<R: Print + AllocGlobal>(rt: &R, bytes: &[u8]) -> Result<u8> {
    match judge(rt.alloc(), bytes) {
        Ok(verdict) => {
            let line = line_of(rt.alloc(), verdict)?;
            println!(rt; "{line}")?;
            Ok(status_of(verdict))
        }
        Err(why) => {
            println!(rt; "unreadable: {why}")?;
            Ok(UNREADABLE)
        }
    }
}

/// The status that tells a verdict on a history.
fn status_of(verdict: Verdict) -> u8
    ensures fits { verdict ≡ Verdict.Fits → result ≡ 0 }
    ensures fits_not { verdict ≢ Verdict.Fits → result ≡ 1 }
{
    match verdict {
        Verdict::Fits => FITS,
        _ => FITS_NOT,
    }
}

/// The status that tells a verdict on a script.
fn status_of_script(said: Said) -> u8
    ensures right { said ≡ Said.Right → result ≡ 0 }
    ensures refused { said ≡ Said.Refused → result ≡ 1 }
    ensures odd { said ≡ Said.Odd → result ≡ 3 }
{
    match said {
        Said::Right => RIGHT,
        Said::Refused => REFUSED,
        Said::Odd => ODD,
    }
}

/// Judges the history in each line.
fn check_lines<R: Print + AllocGlobal>(rt: &R, bytes: &[u8]) -> Result<u8> {
    let Ok(text) = str::from_utf8(bytes) else {
        println!(rt; "unreadable: standard input isn't UTF-8")?;
        return Ok(UNREADABLE);
    };
    let mut worst = FITS;
    for line in text.lines() {
        worst = worst.max(check_one(rt, line.as_bytes())?);
    }
    Ok(worst)
}
