//! What is asked of a request's row, and what a put is of.
ghost use Rattle.std.specs.Prelude.{◌≡◌};
ghost use Rattle.cf_part.specs.Parts.{later};

/// How long nothing is asked behind a question that was refused or had no answer, in milliseconds.
const PAUSE: u64 = 20;

/// A question about the row of a request. At most one is open.
#[derive(Clone, Copy, Debug, PartialEq, Eq)]
pub enum Question {
    /// Which entries stand there from this place on?
    Read { at: usize },
    /// Put the entries that are under way at this place, unless something stands there.
    Put { at: usize },
    /// Close the request, if just so many entries stand there.
    Close { at: usize },
}

/// What a put is of.
#[derive(Clone, Copy, Debug, PartialEq, Eq)]
pub enum PutOf {
    /// What a user asked for.
    Act,
    /// The finish of a stage.
    Finish { stage: u16 },
    /// All else.
    Rest,
}

/// Why a process can't go on with a request.
#[derive(Clone, Copy, Debug, PartialEq, Eq)]
pub enum Fault {
    /// A word stands there that the graph doesn't take.
    Broken,
    /// The store has the request no more.
    Dropped,
    /// A payload that a function is to be called with is lost.
    Payload,
}

/// The moment from which on something is asked again.
pub(crate) fn later(now: u64) -> u64
    ensures { result ≡ later now }
{
    now.saturating_add(PAUSE)
}
