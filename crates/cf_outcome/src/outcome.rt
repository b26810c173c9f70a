//! Values, causes and outcomes.
ghost use Rattle.std.specs.Prelude.{◌≡◌};
ghost use Rattle.cf_outcome.specs.Outcomes.{wrap, is_cancelled, is_exceptional};

/// What a stage gives: nothing, or a number.
#[derive(Clone, Copy, Debug, PartialEq, Eq)]
pub enum Value {
    Nil,
    Int(i32),
}

/// Why a stage failed.
#[derive(Clone, Copy, Debug, PartialEq, Eq)]
pub enum Cause {
    /// It was failed with this code, or its function threw it.
    Thrown(u32),
    /// It was cancelled.
    Cancelled,
    /// A limit of kind timeout with this code fired, or a caller said with this code that its time had run out.
    TimedOut(u32),
    /// Its function, or that of the stage for which it stands in, answered what the form can't take. The code is the
    /// caller's who said so, and 0 where nobody gave one.
    BadAnswer(u32),
}

/// What a stage is settled with.
///
/// `wrapped` says that the fault stands inside a completion exception (Java SE 17, `CompletionStage`: a stage whose
/// source completed exceptionally completes with a `CompletionException` that holds the source's exception).
#[derive(Clone, Copy, Debug, PartialEq, Eq)]
pub enum Outcome {
    Value(Value),
    Fault { cause: Cause, wrapped: bool },
}

/// A fault in its wrapped form, and a value as it is. A fault is never wrapped twice.
pub fn wrap(o: Outcome) -> Outcome
    ensures { result ≡ wrap o }
{
    match o {
        Outcome::Value(v) => Outcome::Value(v),
        Outcome::Fault { cause, .. } => Outcome::Fault {
            cause,
            wrapped: true,
        },
    }
}

/// Whether it is a cancellation that was stored as such: a raw fault with the cause `Cancelled`
/// (`CompletableFuture.isCancelled`).
pub fn is_cancelled(o: Outcome) -> bool
    ensures { result ≡ is_cancelled o }
{
    matches!(
        o,
        Outcome::Fault {
            cause: Cause::Cancelled,
            wrapped: false
        }
    )
}

/// Whether it is a fault (`CompletableFuture.isCompletedExceptionally`).
pub fn is_exceptional(o: Outcome) -> bool
    ensures { result ≡ is_exceptional o }
{
    matches!(o, Outcome::Fault { .. })
}
