//! What is said of a script, and how it is drawn.
use crate::input::json_in;
use crate::named::Named;
use crate::people::people_in;
use anyhow::Result;
use cf_explain::{Explanation, Oddity, Place, Remark, Verdict, explain};
use cf_picture::draw_script;
use cf_script_reading::MAX_BYTES;
use cf_text::ScriptFault;
use std::alloc::{AllocError, Global};
use std::fmt::Display;
use std::io;
use std::io::Read;

/// The bytes of standard input, up to the first that is too many for a script.
pub(crate) fn script_in<R: Input + AllocGlobal>(rt: &R) -> io::Result<Vec<u8>> {
    let mut bytes = Vec::new(rt.alloc());
    rt.reader()
        .take(MAX_BYTES as u64 + 1)
        .read_to_end(&mut bytes)?;
    Ok(bytes)
}

/// What comes of drawing.
pub(crate) enum Drawn {
    /// The picture is written.
    Whole,
    /// `cf run` would refuse the script.
    Refused,
    /// A name is none.
    NoName,
}

/// Writes the picture of the script of these bytes. Where `cf run` would refuse it, the line of its fault goes to standard
/// error, and where a name is none, why. Refused memory is an error, as everywhere in this program.
pub(crate) fn draw<R: Print + Eprint + AllocGlobal>(rt: &R, bytes: &[u8]) -> Result<Drawn> {
    let names = names_in(rt.alloc(), bytes);
    let known = match &names {
        Ok(names) => names.as_slice(),
        Err(_) => &[],
    };
    match draw_script(rt.alloc(), bytes, known) {
        Ok(text) => write_drawn(rt, &text, &names),
        Err(ScriptFault::NoMemory) => Err(AllocError.into()),
        Err(fault) => {
            eprintln!(rt; "{fault}")?;
            Ok(Drawn::Refused)
        }
    }
}

/// Writes a picture, unless a name is none.
fn write_drawn<R: Print + Eprint>(
    rt: &R,
    text: &str,
    names: &Result<Vec<String>>,
) -> Result<Drawn> {
    match names {
        Ok(_) => {
            print!(rt; "{text}")?;
            Ok(Drawn::Whole)
        }
        Err(why) => {
            eprintln!(rt; "unreadable: {why}")?;
            Ok(Drawn::NoName)
        }
    }
}

/// The names of the stages of a script; of what is no JSON there are none.
fn names_in(alloc: Global, bytes: &[u8]) -> Result<Vec<String>> {
    match json_in(alloc, bytes)? {
        Some(json) => Ok(people_in(alloc, &json)?.names),
        None => Ok(Vec::new(alloc)),
    }
}

/// Writes what is wrong with the script of these bytes, and what is odd about it, a line for each: first that of the fault
/// with which `cf run` would refuse it, and where it sits.
pub(crate) fn explain_script<R: Print + AllocGlobal>(rt: &R, bytes: &[u8]) -> Result<Verdict> {
    let said = explain(rt.alloc(), bytes)?;
    let named = Named::of(rt.alloc(), bytes)?;
    write_explanation(rt, &named, &said)
}

/// Writes what is said of a script, and answers the verdict.
fn write_explanation<R: Print + AllocGlobal>(
    rt: &R,
    named: &Named,
    said: &Explanation,
) -> Result<Verdict> {
    if let Some(refusal) = &said.refusal {
        println!(rt; "{}", ScriptFault::from(refusal.fault))?;
        write_at(rt, named, Some(refusal.place), refusal)?;
    }
    for remark in &said.remarks {
        write_at(rt, named, place_of(remark), remark)?;
    }
    let verdict = said.verdict();
    if verdict == Verdict::Right {
        println!(rt; "nothing is wrong")?;
    }
    Ok(verdict)
}

/// Writes the line of what is said, with the name of the stage that its place is of.
fn write_at<R: Print + AllocGlobal, D: Display>(
    rt: &R,
    named: &Named,
    place: Option<Place>,
    said: &D,
) -> Result<()> {
    let mut text = String::new(rt.alloc());
    write!(text, "{said}")?;
    let line = named.line(rt.alloc(), place, &text)?;
    Ok(println!(rt; "{line}")?)
}

/// The place that a remark begins with.
fn place_of(remark: &Remark) -> Option<Place> {
    match remark {
        Remark::Writing(oddity) => place_in(oddity),
        Remark::Behind(place, _) | Remark::Idle(place, _) => Some(*place),
    }
}

/// The same of an oddity.
fn place_in(oddity: &Oddity) -> Option<Place> {
    match oddity {
        Oddity::Unread { place, .. } | Oddity::ValueOfTimeout(place) => Some(*place),
        _ => None,
    }
}
