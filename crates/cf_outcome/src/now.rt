//! What a caller is told of the present state of a stage.
ghost use Rattle.std.specs.Prelude.{◌≡◌};
ghost use Rattle.cf_outcome.specs.Outcomes.{now_of};

use crate::outcome::{Cause, Outcome, Value};

/// What a caller that asks for the present state of a stage is told (`CompletableFuture.getNow`).
#[derive(Clone, Copy, Debug, PartialEq, Eq)]
pub enum Now {
    /// The stage isn't settled. This is the value that the caller handed in for that case.
    Absent(Value),
    /// The stage gave this value.
    Got(Value),
    /// The stage failed with this cause, told as a completion exception.
    Completion(Cause),
    /// The stage itself was cancelled, told as a cancellation exception.
    Cancellation,
}

/// What is told of an outcome, or of none.
pub fn now_of(o: Option<Outcome>, absent: Value) -> Now
    ensures { result ≡ now_of o absent }
{
    match o {
        None => Now::Absent(absent),
        Some(Outcome::Value(v)) => Now::Got(v),
        Some(
            Outcome::Fault {
                cause: Cause::Cancelled,
                wrapped: false,
            },
        ) => Now::Cancellation,
        Some(Outcome::Fault { cause, .. }) => Now::Completion(cause),
    }
}
