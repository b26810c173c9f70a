//! What is odd about how a script is written.
use crate::place::Place;
use std::fmt;

/// What is odd about how a part of a script is written.
#[derive(Drop)]
pub enum Oddity {
    /// Nobody reads the member of this name in the object at this place. A member whose name is near would be read.
    Unread {
        /// Where the object is.
        place: Place,
        /// The member's name.
        name: String,
        /// The name that is read, if one is near.
        nearest: Option<&'static str>,
    },
    /// What ought to be the name of a stage is no name.
    NoName(Place),
    /// What ought to be the name of the script is no name.
    NoTitle(Place),
    /// What ought to be the list of names is no such list.
    NoList(Place),
    /// `room` is read from version 2 on.
    RoomInVersionOne,
    /// A limit that times its stage out takes no value, and has one.
    ValueOfTimeout(Place),
    /// A limit that gives its stage a value takes no code, and has one.
    CodeOfValue(Place),
    /// A member of an object is given again.
    Twice {
        /// Its name.
        name: String,
        /// The line where it is given again, from 1 on.
        line: usize,
        /// And the column, in bytes from 1 on.
        column: usize,
    },
}

impl Oddity {
    /// Its place and what is said of it, where that is the same text each time.
    fn plain(&self) -> Option<(&Place, &'static str)> {
        match self {
            Oddity::NoName(place) => Some((place, "has to be a text of at most 64 characters")),
            Oddity::NoTitle(place) => Some((place, "has to be a text")),
            Oddity::NoList(place) => Some((place, "has to be an array")),
            Oddity::ValueOfTimeout(place) => Some((place, "is read with the kind \"value\" alone")),
            Oddity::CodeOfValue(place) => Some((place, "is read with the kind \"timeout\" alone")),
            _ => None,
        }
    }
}

impl fmt::Display for Oddity {
    fn fmt<W: fmt::Write>(&self, f: &mut fmt::Formatter<W>) -> fmt::Result {
        match self.plain() {
            Some((place, said)) => write!(f, "{place}: {said}"),
            None => in_words(f, self),
        }
    }
}

/// Writes one that has a member's name in it.
fn in_words<W: fmt::Write>(f: &mut fmt::Formatter<W>, oddity: &Oddity) -> fmt::Result {
    match oddity {
        Oddity::Unread {
            place,
            name,
            nearest,
        } => unread(f, place, name.as_str(), *nearest),
        Oddity::Twice { name, line, column } => write!(
            f,
            "line {line} column {column}: {name:?} is given twice in one object; the last is read"
        ),
        _ => f.write_str("room: is read from \"cf\": 2 on"),
    }
}

fn unread<W: fmt::Write>(
    f: &mut fmt::Formatter<W>,
    place: &Place,
    name: &str,
    nearest: Option<&'static str>,
) -> fmt::Result {
    match nearest {
        Some(near) => write!(f, "{place}: nobody reads {name:?}; did you mean {near:?}?"),
        None => write!(f, "{place}: nobody reads {name:?}"),
    }
}
