//! The members that are given twice in one object.
use crate::oddity::Oddity;
use crate::written::Written;
use json::{Reader, Scratch, Token};
use std::alloc::{AllocError, Global};
use std::collections::BTreeSet;

/// Notes each member of an object of this text whose name came before in the same object. What isn't JSON ends it.
pub(crate) fn note_twice(alloc: Global, text: &str, written: &mut Written) {
    let mut scratch = Scratch::new(alloc);
    match Reader::new(text, &mut scratch) {
        Ok(mut reader) => go_through(alloc, text, &mut reader, written),
        Err(_) => written.is_short = true,
    }
}

/// Goes through the tokens of a text.
fn go_through(alloc: Global, text: &str, reader: &mut Reader<'_>, written: &mut Written) {
    let mut open = Vec::new(alloc);
    let mut position = Position::START;
    let most = text.len().saturating_add(1);
    for _ in 0..most {
        let offset = reader.offset();
        let Some(token) = reader.next() else {
            break;
        };
        position = position.on_to(text.as_bytes(), offset);
        let again = given_again(alloc, token, &mut open);
        note_again(alloc, position, again, written);
    }
}

/// Notes that a name is given again at this position, if one is.
fn note_again(
    alloc: Global,
    position: Position,
    again: Result<Option<&str>, AllocError>,
    written: &mut Written,
) {
    match again {
        Ok(Some(name)) => written.add_made(position.twice(alloc, name)),
        Ok(None) => {}
        Err(_) => written.is_short = true,
    }
}

/// The name that the token gives again in its object, but for a note. Of each object that is open the names so far are kept.
fn given_again<'a>(
    alloc: Global,
    token: Token<'a>,
    open: &mut Vec<BTreeSet<&'a str>>,
) -> Result<Option<&'a str>, AllocError> {
    match token {
        Token::BeginObject => open.push(BTreeSet::new(alloc))?,
        Token::EndObject => {
            let _ = open.pop();
        }
        Token::Key(name) => {
            if is_there(name, open)? && name != "note" {
                return Ok(Some(name));
            }
        }
        _ => {}
    }
    Ok(None)
}

/// Whether the innermost object has this name already; it has it from now on.
fn is_there<'a>(name: &'a str, open: &mut Vec<BTreeSet<&'a str>>) -> Result<bool, AllocError> {
    match open.last_mut() {
        Some(names) => Ok(!names.insert(name)?),
        None => Ok(false),
    }
}

/// A place in a text.
#[derive(Clone, Copy)]
struct Position {
    offset: usize,
    line: usize,
    column: usize,
}

impl Position {
    /// The first byte.
    const START: Position = Position {
        offset: 0,
        line: 1,
        column: 1,
    };

    /// The byte at this offset of the text, which isn't before this one.
    fn on_to(self, text: &[u8], offset: usize) -> Position {
        if offset < self.offset || text.len() < offset {
            return self;
        }
        let (mut line, mut column) = (self.line, self.column);
        for byte in &text[self.offset..offset] {
            if *byte == b'\n' {
                line = line.saturating_add(1);
                column = 1;
            } else {
                column = column.saturating_add(1);
            }
        }
        Position {
            offset,
            line,
            column,
        }
    }

    /// That a member of this name is given again here.
    fn twice(self, alloc: Global, name: &str) -> Result<Oddity, AllocError> {
        let name = String::from_str(alloc, name)?;
        let Position { line, column, .. } = self;
        Ok(Oddity::Twice { name, line, column })
    }
}
