//! Rows of what stands in a store, as C has them.
ghost use Rattle.std.specs.Prelude.{◌≡◌, IfErr, IfOk, map};
ghost use Rattle.cf_c_handles.specs.HostValues.{AreNotes, AreUnread, IsNoteOf, as_source, as_want, beat_at, entry_at, length_at, note_in};

use crate::code::Code;
use cf_host::Length;
use cf_notes::{Note, NoteWords, Source, Want, decode, encode};
use cf_row::Entry;
use cf_watch::Beat;
use std::alloc::{AllocError, Global};

/// A note as two numbers.
#[repr(C)]
#[derive(Clone, Copy)]
pub struct CfNote {
    pub what: u64,
    pub moment: u64,
}

/// An entry of a row, with the note that stands beside its word.
#[repr(C)]
#[derive(Clone, Copy)]
pub struct CfNoted {
    pub word: u64,
    pub token: u64,
    pub note: CfNote,
}

/// An entry that is to be put, and whose payload stands at its place: nobody's (source 0), what the user of the act gave (1),
/// what the function of a stage came to (2), an error in its place (3), or one that says that the session of a stage is gone
/// (4).
#[repr(C)]
#[derive(Clone, Copy)]
pub struct CfHostWant {
    pub entry: CfNoted,
    pub source: u32,
    pub stage: u16,
}

/// How often a session has beaten.
#[repr(C)]
#[derive(Clone, Copy)]
pub struct CfHostBeat {
    pub session: u64,
    pub count: u64,
}

/// How many words a request has.
#[repr(C)]
#[derive(Clone, Copy)]
pub struct CfHostLength {
    pub request: u64,
    pub words: usize,
}

/// The entries of these rows.
pub(crate) fn entries_of(alloc: Global, rows: &[CfNoted]) -> Result<Vec<Entry>, AllocError>
    ensures { IfOk result (λ entries. entries.items ≡ map entry_at rows.now) }
{
    let mut entries = Vec::with_capacity(alloc, rows.len())?;
    for row in rows {
        entries.push_reserved(Entry {
            word: row.word,
            token: row.token,
        });
    }
    Ok(entries)
}

/// The notes of these rows.
pub(crate) fn notes_in(alloc: Global, rows: &[CfNoted]) -> Result<Vec<Note>, Code>
    ensures notes { IfOk result (λ notes. AreNotes (map note_in rows.now) notes.items) }
    ensures none { IfErr result (λ code. AreUnread (map note_in rows.now) code) }
{
    let mut notes = Vec::with_capacity(alloc, rows.len())?;
    'each: for k in 0..rows.len() {
        match note_of(rows[k].note) {
            Some(note) => notes.push_reserved(note),
            None => return Err(Code::NoNote),
        }
    }
    Ok(notes)
}

/// The notes that these numbers stand for.
pub(crate) fn notes_of(alloc: Global, numbers: &[CfNote]) -> Result<Vec<Note>, Code>
    ensures notes { IfOk result (λ notes. AreNotes numbers.now notes.items) }
    ensures none { IfErr result (λ code. AreUnread numbers.now code) }
{
    let mut notes = Vec::with_capacity(alloc, numbers.len())?;
    'each: for k in 0..numbers.len() {
        match note_of(numbers[k]) {
            Some(note) => notes.push_reserved(note),
            None => return Err(Code::NoNote),
        }
    }
    Ok(notes)
}

/// The note that two numbers stand for, if there is one.
fn note_of(note: CfNote) -> Option<Note>
    ensures { IsNoteOf note result }
{
    decode(NoteWords {
        what: note.what,
        moment: note.moment,
    })
}

/// The beats of these sessions.
pub(crate) fn beats_of(alloc: Global, rows: &[CfHostBeat]) -> Result<Vec<Beat>, AllocError>
    ensures { IfOk result (λ beats. beats.items ≡ map beat_at rows.now) }
{
    let mut beats = Vec::with_capacity(alloc, rows.len())?;
    for row in rows {
        beats.push_reserved(Beat {
            session: row.session,
            count: row.count,
        });
    }
    Ok(beats)
}

/// How many words these requests have.
pub(crate) fn lengths_of(alloc: Global, rows: &[CfHostLength]) -> Result<Vec<Length>, AllocError>
    ensures { IfOk result (λ lengths. lengths.items ≡ map length_at rows.now) }
{
    let mut lengths = Vec::with_capacity(alloc, rows.len())?;
    for row in rows {
        lengths.push_reserved(Length {
            request: row.request,
            words: row.words,
        });
    }
    Ok(lengths)
}

/// An entry that is to be put, for C.
pub(crate) fn as_want(entry: Entry, want: Want) -> CfHostWant
    ensures { result ≡ as_want entry want }
{
    let note = encode(want.note);
    let (source, stage) = as_source(want.source);
    CfHostWant {
        entry: CfNoted {
            word: entry.word,
            token: entry.token,
            note: CfNote {
                what: note.what,
                moment: note.moment,
            },
        },
        source,
        stage,
    }
}

/// Whose payload stands there: its number, and the stage.
fn as_source(source: Source) -> (u32, u16)
    ensures { result ≡ as_source source }
{
    match source {
        Source::Nothing => (0, 0),
        Source::Given => (1, 0),
        Source::Ended { stage } => (2, stage),
        Source::Error { stage } => (3, stage),
        Source::Gone { stage } => (4, stage),
    }
}
