//! The parts of a script in which a code may stand. A code of 0 is left out.
ghost use Rattle.std.specs.Prelude.{◌≡◌, ◌++◌, OnOk, string_bytes};
ghost use Rattle.cf_text.specs.Records.{absent_text};
ghost use Rattle.cf_telling.specs.Parts.{code_behind, failed_text, failing_text, kind_text, limit_text};

use cf_forms::{Limit, LimitKind};
use cf_model::Failure;
use cf_outcome::Value;
use std::alloc::AllocError;

/// Adds a step that fails a stage so, without its end.
pub(crate) fn push_failing(
    text: &mut String,
    stage: u16,
    failure: Failure,
) -> Result<(), AllocError>
    ensures { OnOk result (string_bytes text.new ≡ string_bytes text.old ++ failing_text stage failure) }
{
    match failure {
        Failure::TimedOut(code) => push_failed(text, stage, "timeout", code),
        Failure::BadAnswer(code) => push_failed(text, stage, "badanswer", code),
    }
}

/// The same for the cause of this name.
fn push_failed(text: &mut String, stage: u16, name: &str, code: u32) -> Result<(), AllocError>
    ensures { OnOk result (string_bytes text.new ≡ string_bytes text.old ++ failed_text stage name.now code) }
{
    write!(text, "[\"failAs\",{stage},\"{name}\"")?;
    push_code(text, ",", code)
}

/// Adds a limit.
pub(crate) fn push_limit(text: &mut String, limit: Limit) -> Result<(), AllocError>
    ensures { OnOk result (string_bytes text.new ≡ string_bytes text.old ++ limit_text limit) }
{
    let Limit { stage, at, kind } = limit;
    write!(text, "{{\"stage\":{stage},\"at\":{at},\"kind\":")?;
    push_kind(text, kind)?;
    write!(text, "}}")
}

/// Adds the kind of a limit, with its code or its value.
fn push_kind(text: &mut String, kind: LimitKind) -> Result<(), AllocError>
    ensures { OnOk result (string_bytes text.new ≡ string_bytes text.old ++ kind_text kind) }
{
    match kind {
        LimitKind::Timeout(code) => {
            write!(text, "\"timeout\"")?;
            push_code(text, ",\"code\":", code)
        }
        LimitKind::Give(value) => {
            write!(text, "\"value\",\"value\":")?;
            push_value(text, value)
        }
    }
}

/// Adds a code behind a piece, unless it is 0.
fn push_code(text: &mut String, piece: &str, code: u32) -> Result<(), AllocError>
    ensures { OnOk result (string_bytes text.new ≡ string_bytes text.old ++ code_behind piece.now code) }
{
    if code == 0 {
        Ok(())
    } else {
        write!(text, "{piece}{code}")
    }
}

/// Adds a value.
fn push_value(text: &mut String, value: Value) -> Result<(), AllocError>
    ensures { OnOk result (string_bytes text.new ≡ string_bytes text.old ++ absent_text value) }
{
    match value {
        Value::Nil => write!(text, "null"),
        Value::Int(number) => write!(text, "{number}"),
    }
}
