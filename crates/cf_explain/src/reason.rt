//! Why a part of a script is refused.
use crate::vocabulary::Words;
use crate::wanted::Wanted;
use std::fmt;

/// Why a part of a script is refused, which its place names.
#[derive(Drop)]
pub enum Why {
    /// For this reason.
    Told(Reason),
    /// The word is none of those that may stand there.
    Unknown {
        /// The word.
        word: String,
        /// Those that may stand there.
        words: Words,
        /// The nearest of them, if one is near.
        nearest: Option<&'static str>,
    },
}

/// A reason that has no word of the script in it.
#[derive(Clone, Copy)]
pub enum Reason {
    /// There are too many bytes.
    TooLong,
    /// They are no JSON. This says why, with its line and column.
    NotJson(serde_json::Error),
    /// Nothing stands there, and this ought to.
    Missing(Wanted),
    /// It isn't what ought to stand there.
    Wants(Wanted),
    /// It came with this version, and the script has a lower one.
    NotBefore(i64),
    /// The object has this many members, and ought to have exactly one of these.
    Members(usize, Words),
    /// The step isn't written as this says.
    Written(&'static str),
    /// The form takes another number of sources than are here.
    Sources {
        /// How many it takes.
        wanted: u16,
        /// How many are here.
        found: usize,
    },
    /// It names a source that isn't below the stage's own number.
    NotLower(u32),
    /// The form calls no function.
    FunctionUnwanted,
    /// There are more than this number of these.
    TooMany(u32, &'static str),
    /// A stage that is attached names more than two sources.
    TooManySources,
    /// A graph has no place for so much room beside the stages.
    NoPlace,
    /// Something is wrong with it.
    Unsaid,
}

impl Reason {
    /// How it is written where that is the same text each time.
    fn text(&self) -> Option<&'static str> {
        match self {
            Reason::TooLong => Some("has more than 1048576 bytes"),
            Reason::NotLower(0) => Some("may not be there: no stage is below stage 0"),
            Reason::NotLower(1) => Some("has to be a stage below this one, 0"),
            Reason::FunctionUnwanted => Some("may not be there: the form calls no function"),
            Reason::TooManySources => Some(
                "names too many: an attached stage has at most 2 sources",
            ),
            Reason::NoPlace => Some(
                "is too much: stages and room are at most 4096, edges and twice the room at most 16384",
            ),
            _ => None,
        }
    }
}

impl fmt::Display for Why {
    fn fmt<W: fmt::Write>(&self, f: &mut fmt::Formatter<W>) -> fmt::Result {
        match self {
            Why::Told(reason) => write!(f, "{reason}"),
            Why::Unknown {
                word,
                words,
                nearest,
            } => unknown(f, word.as_str(), *words, *nearest),
        }
    }
}

impl fmt::Display for Reason {
    fn fmt<W: fmt::Write>(&self, f: &mut fmt::Formatter<W>) -> fmt::Result {
        match self.text() {
            Some(text) => f.write_str(text),
            None => in_words(f, self),
        }
    }
}

/// Writes what is refused for what is missing, or for JSON.
fn in_words<W: fmt::Write>(f: &mut fmt::Formatter<W>, why: &Reason) -> fmt::Result {
    match why {
        Reason::NotJson(error) => write!(f, "{error}"),
        Reason::Missing(wanted) => write!(f, "is missing; it has to be {wanted}"),
        Reason::Wants(wanted) => write!(f, "has to be {wanted}"),
        _ => in_numbers(f, why),
    }
}

/// Writes what is refused for a number, and else that it is refused.
fn in_numbers<W: fmt::Write>(f: &mut fmt::Formatter<W>, why: &Reason) -> fmt::Result {
    match why {
        Reason::Members(count, words) => {
            write!(
                f,
                "has {count} members; it has to have exactly one, {words}"
            )
        }
        Reason::Written(form) => write!(f, "has another number of elements; it is written {form}"),
        Reason::Sources { wanted, found } => {
            write!(f, "names {found} stages; the form takes {wanted}")
        }
        Reason::NotBefore(version) => write!(f, "is read from \"cf\": {version} on"),
        Reason::NotLower(k) => {
            let most = k.saturating_sub(1);
            write!(f, "has to be a stage below this one, 0 to {most}")
        }
        Reason::TooMany(most, what) => write!(
            f,
            "is one too many: there are at most {most} {what}"
        ),
        _ => f.write_str("isn't as it has to be"),
    }
}

fn unknown<W: fmt::Write>(
    f: &mut fmt::Formatter<W>,
    word: &str,
    words: Words,
    nearest: Option<&'static str>,
) -> fmt::Result {
    write!(f, "{word:?} is no {}; ", words.thing())?;
    match nearest {
        Some(near) => write!(f, "did you mean {near:?}? It has to be {words}"),
        None => write!(f, "it has to be {words}"),
    }
}
