//! Writing a text to a writer, whole or up to where the writer failed.
ghost use Rattle.std.specs.Prelude.{◌≡◌, OnOk, OnErr};
ghost use Rattle.std.specs.Io.KnownBytes.{Appends};
ghost use Rattle.cf_outcome.specs.Output.{AppendsFront};
ghost use Rattle.cf_outcome.specs.Texts.{outcome_text};

use crate::outcome::Outcome;
use crate::short::ShortText;
use std::io::Write;
use thiserror::Error;

/// The writer failed, or took none of the bytes that it was given. A front of the text has gone out by then; it may be
/// empty, or the whole text.
#[derive(Clone, Copy, PartialEq, Eq, Debug, Error)]
#[error("WriteFault")]
pub struct WriteFault;

/// Writes the whole text by a loop over `write`, and then flushes. Every error of the writer is a `WriteFault`,
/// `Interrupted` too, and so is a write that takes no byte.
pub fn write_text<W: Write>(w: &mut W, text: &[u8]) -> Result<(), WriteFault>
    ensures whole { OnOk result (Appends (W.contents w.old) (W.contents w.new) text.now) }
    ensures front { OnErr result (AppendsFront (W.contents w.old) (W.contents w.new) text.now) }
{
    let mut rest = text;
    'rest: while !rest.is_empty() {
        match w.write(rest) {
            Ok(0) => return Err(WriteFault),
            Ok(n) => rest = &rest[n..],
            Err(_) => return Err(WriteFault),
        }
    }
    match w.flush() {
        Ok(()) => Ok(()),
        Err(_) => Err(WriteFault),
    }
}

/// The text of an outcome.
fn text_of(o: Outcome) -> ShortText
    ensures { result ≡ outcome_text o }
{
    let mut text = ShortText::new();
    text.push_outcome(o);
    text
}

/// Writes the text of an outcome, as `value 3`, `value nil` or `fault thrown 7 wrapped`. It takes no memory.
pub fn write_outcome<W: Write>(w: &mut W, o: Outcome) -> Result<(), WriteFault>
    ensures whole { OnOk result (Appends (W.contents w.old) (W.contents w.new) (outcome_text o)) }
    ensures front { OnErr result
        (AppendsFront (W.contents w.old) (W.contents w.new) (outcome_text o)) }
{
    let text = text_of(o);
    write_text(w, text.as_bytes())
}
