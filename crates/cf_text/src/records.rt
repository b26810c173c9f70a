//! The records of an account's callers, as docs/FORMATS.md has histories.
ghost use Rattle.std.specs.Prelude.{◌≡◌, ◌++◌, OnOk, string_bytes};
ghost use Rattle.cf_model.specs.declared.asks.Ask.TheVariants.{Now};
ghost use Rattle.cf_text.specs.Records.{asked_text, did_text, saw_text};

use crate::texts::{write_reply, write_told};
use cf_model::{Ask, Reply, Told};
use cf_outcome::Value;
use std::alloc::AllocError;

/// Adds the record of a changing call: the place of its event, the event's word, and the answer.
pub fn write_did(text: &mut String, place: usize, word: u64, reply: Reply) -> Result<(), AllocError>
    ensures { OnOk result
        (string_bytes text.new ≡ string_bytes text.old ++ did_text place word reply) }
{
    write!(text, "[\"did\",{place},\"{word}\",\"")?;
    write_reply(text, reply)?;
    write!(text, "\"]")
}

/// Adds the record of a question: after how many events it was asked, what was asked, and what was told.
pub fn write_saw(text: &mut String, place: usize, ask: Ask, told: Told) -> Result<(), AllocError>
    ensures { OnOk result
        (string_bytes text.new ≡ string_bytes text.old ++ saw_text place ask told) }
{
    write_asked(text, place, ask)?;
    write_told(text, told)?;
    write!(text, "\"]")
}

/// Adds the record of a question up to what it was told.
fn write_asked(text: &mut String, place: usize, ask: Ask) -> Result<(), AllocError>
    ensures { OnOk result
        (string_bytes text.new ≡ string_bytes text.old ++ asked_text place ask) }
{
    match ask {
        Ask::Now(i, absent) => write_now(text, place, i, absent),
        Ask::Outcome(i) => write!(text, "[\"outcome\",{place},{i},\""),
    }
}

/// The same of a look at a stage's present value, or at this one where it has none.
fn write_now(text: &mut String, place: usize, i: u16, absent: Value) -> Result<(), AllocError>
    ensures { OnOk result
        (string_bytes text.new ≡ string_bytes text.old ++ asked_text place (Now i absent)) }
{
    match absent {
        Value::Nil => write!(text, "[\"now\",{place},{i},null,\""),
        Value::Int(n) => write!(text, "[\"now\",{place},{i},{n},\""),
    }
}
