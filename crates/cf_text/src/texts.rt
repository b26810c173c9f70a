//! The texts of what a graph replies and tells, without an end of line.
ghost use Rattle.std.specs.Prelude.{◌≡◌, ◌++◌, OnOk, string_bytes};
ghost use Rattle.cf_text.specs.Texts.{attached_text, claimed_text, finished_text, flag_text, reply_text, settled_text, ticked_text, told_text};

use cf_forms::Args;
use cf_model::{Attached, Claimed, Finished, Reply, Ticked, Told};
use cf_outcome::Outcome;
use std::alloc::AllocError;

/// Adds the text of what an event is answered.
pub fn write_reply(text: &mut String, reply: Reply) -> Result<(), AllocError>
    ensures { OnOk result
        (string_bytes text.new ≡ string_bytes text.old ++ reply_text reply) }
{
    match reply {
        Reply::Flag(flag) => write_flag(text, flag),
        Reply::Claim(claimed) => write_claimed(text, claimed),
        Reply::Finish(finished) => write_finished(text, finished),
        Reply::Tick(ticked) => write_ticked(text, ticked),
        Reply::Attach(attached) => write_attached(text, attached),
    }
}

/// Adds the text of what a question is told.
pub fn write_told(text: &mut String, told: Told) -> Result<(), AllocError>
    ensures { OnOk result
        (string_bytes text.new ≡ string_bytes text.old ++ told_text told) }
{
    match told {
        Told::Now(now) => write!(text, "{now}"),
        Told::Outcome(outcome) => write_settled(text, outcome),
    }
}

/// Adds the text of an outcome, or that there is none yet.
pub fn write_settled(text: &mut String, outcome: Option<Outcome>) -> Result<(), AllocError>
    ensures { OnOk result
        (string_bytes text.new ≡ string_bytes text.old ++ settled_text outcome) }
{
    match outcome {
        Some(o) => write!(text, "{o}"),
        None => write!(text, "pending"),
    }
}

fn write_flag(text: &mut String, flag: bool) -> Result<(), AllocError>
    ensures { OnOk result
        (string_bytes text.new ≡ string_bytes text.old ++ flag_text flag) }
{
    if flag {
        write!(text, "true")
    } else {
        write!(text, "false")
    }
}

fn write_claimed(text: &mut String, claimed: Claimed) -> Result<(), AllocError>
    ensures { OnOk result
        (string_bytes text.new ≡ string_bytes text.old ++ claimed_text claimed) }
{
    match claimed {
        Claimed::Granted(args) => write_granted(text, args),
        Claimed::Settled => write!(text, "settled"),
        Claimed::Taken => write!(text, "taken"),
        Claimed::NotReady => write!(text, "notready"),
    }
}

/// Adds the text of a claim that hands out these arguments.
fn write_granted(text: &mut String, args: Args) -> Result<(), AllocError>
    ensures { OnOk result
        (string_bytes text.new ≡ string_bytes text.old ++ claimed_text (Claimed.Granted args)) }
{
    match args {
        Args::None => write!(text, "granted none"),
        Args::One(v) => write!(text, "granted one {v}"),
        Args::Two(v, w) => write!(text, "granted two {v} {w}"),
        Args::Got(o) => write!(text, "granted got {o}"),
    }
}

fn write_finished(text: &mut String, finished: Finished) -> Result<(), AllocError>
    ensures { OnOk result
        (string_bytes text.new ≡ string_bytes text.old ++ finished_text finished) }
{
    match finished {
        Finished::Won => write!(text, "won"),
        Finished::Late => write!(text, "late"),
        Finished::NotYours => write!(text, "notyours"),
    }
}

fn write_ticked(text: &mut String, ticked: Ticked) -> Result<(), AllocError>
    ensures { OnOk result
        (string_bytes text.new ≡ string_bytes text.old ++ ticked_text ticked) }
{
    match ticked {
        Ticked::Fired(count) => write!(text, "fired {count}"),
        Ticked::Past => write!(text, "past"),
    }
}

fn write_attached(text: &mut String, attached: Attached) -> Result<(), AllocError>
    ensures { OnOk result
        (string_bytes text.new ≡ string_bytes text.old ++ attached_text attached) }
{
    match attached {
        Attached::At(i) => write!(text, "attached {i}"),
        Attached::StagesFull => write!(text, "stagesfull"),
    }
}
