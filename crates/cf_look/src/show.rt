//! The line of a verdict.
use cf_history::{Misfit, Unfit, Verdict};
use cf_text::{write_reply, write_settled, write_told};
use std::alloc::{AllocError, Global};

/// The line of a verdict, without its end.
pub(crate) fn line_of(alloc: Global, verdict: Verdict) -> Result<String, AllocError> {
    let mut text = String::new(alloc);
    write_verdict(&mut text, verdict)?;
    Ok(text)
}

/// Writes a verdict.
pub(crate) fn write_verdict(text: &mut String, verdict: Verdict) -> Result<(), AllocError> {
    match verdict {
        Verdict::Fits => write!(text, "fits"),
        Verdict::Event { place, why } => write!(text, "event {place}: {}", unfit(why)),
        Verdict::Record {
            caller,
            record,
            why,
        } => {
            write!(text, "caller {caller} record {record}: ")?;
            write_misfit(text, why)
        }
        Verdict::Missing { caller, place } => {
            write!(text, "caller {caller}: no record of its event {place}")
        }
        Verdict::Outcome { stage, outcome } => {
            write!(text, "stage {stage}: the graph leaves ")?;
            write_settled(text, outcome)
        }
        Verdict::Stages { count } => write!(text, "outcomes: the graph has {count} stages"),
    }
}

fn unfit(why: Unfit) -> &'static str {
    match why {
        Unfit::NoEvent => "the word is no event's",
        Unfit::NoCaller => "there is no such caller",
        Unfit::NoStage => "a stage isn't there, or doesn't fit its form",
        Unfit::NoFunction => "there is no such function",
    }
}

fn write_misfit(text: &mut String, why: Misfit) -> Result<(), AllocError> {
    match why {
        Misfit::Before => write!(text, "its place is before what the caller had seen"),
        Misfit::Behind => write!(text, "its place is behind the history"),
        Misfit::Skips(place) => write!(text, "the caller's event {place} comes first"),
        Misfit::Other => write!(text, "another event stands there"),
        Misfit::Reply(reply) => {
            write!(text, "the graph answers ")?;
            write_reply(text, reply)
        }
        Misfit::NoStage => write!(text, "its stage isn't there"),
        Misfit::Told(told) => {
            write!(text, "the graph answers ")?;
            write_told(text, told)
        }
    }
}
