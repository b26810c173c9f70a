//! A history by the account of sessions: several may have had one caller's number, and not each reply is known.
ghost use Rattle.std.specs.Prelude.{◌≡◌};
ghost use Rattle.cf_history.specs.Shared.{goes_first, is_call, place_in};

use cf_event::Record;
use cf_model::Event;
use cf_outcome::Outcome;

/// What happened, as sessions tell it. Nothing of it is trusted.
#[derive(Drop)]
pub struct SharedHistory {
    /// As of a `History`.
    pub functions: u32,
    /// The words of all events, in their one order.
    pub words: Vec<u64>,
    /// The callers by their numbers.
    pub callers: Vec<SharedCaller>,
    /// As of a `History`.
    pub outcomes: Option<Vec<Option<Outcome>>>,
}

/// A caller's number: the sessions that had it, in any order.
#[derive(Drop)]
pub struct SharedCaller {
    pub sessions: Vec<Session>,
}

/// One session: what it keeps of its calls, in its order.
#[derive(Drop)]
pub struct Session {
    pub entries: Vec<Entry>,
}

/// One call of a session.
#[derive(Clone, Copy, Debug, PartialEq, Eq)]
pub enum Entry {
    /// It was answered.
    Known(Record),
    /// A changing call whose caller was gone before its reply. The place counts the events up to it and itself.
    Unanswered { place: usize, event: Event },
}

/// Whether this entry goes before that of another session under the same number: its place is lower, or the same, and it
/// is that of a call or the other that of a question.
pub(crate) fn goes_first(entry: &Entry, other: &Entry) -> bool
    ensures { result ≡ goes_first entry.now other.now }
{
    let here = place_in(entry);
    let there = place_in(other);
    if here == there {
        is_call(entry) || !is_call(other)
    } else {
        here < there
    }
}

/// The place of an entry.
fn place_in(entry: &Entry) -> usize
    ensures { result ≡ place_in entry.now }
{
    match *entry {
        Entry::Known(record) => record.place(),
        Entry::Unanswered { place, .. } => place,
    }
}

/// Whether it is that of a changing call.
fn is_call(entry: &Entry) -> bool
    ensures { result ≡ is_call entry.now }
{
    match *entry {
        Entry::Known(Record::Saw { .. }) => false,
        _ => true,
    }
}
