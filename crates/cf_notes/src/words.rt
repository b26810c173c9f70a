//! A note as it stands in a store.
ghost use Rattle.std.specs.Prelude.{◌≡◌, IfSome, Some};
ghost use Rattle.cf_notes.specs.declared.note.Note.{Note};
ghost use Rattle.cf_notes.specs.NoteWords.{IsNote, note_with, words_of, words_with};

use crate::note::Note;

/// One in each field of the first number.
const KIND: u64 = 1 << 56;

const STAGE: u64 = 1 << 32;

/// How many stages the field of a stage has room for.
const STAGES: u64 = 1 << 16;

/// A note as two numbers.
#[derive(Clone, Copy, Debug, PartialEq, Eq)]
pub struct NoteWords {
    /// `kind * 2^56 + stage * 2^32 + function`. What a note doesn't have is 0.
    pub what: u64,
    /// The moment of a timer, or 0.
    pub moment: u64,
}

/// The numbers of a note.
pub fn encode(note: Note) -> NoteWords
    ensures { result ≡ words_of note }
{
    match note {
        Note::Nothing => with_fields(0, 0, 0, 0),
        Note::Calls { function } => with_fields(1, 0, function, 0),
        Note::Tries { of } => with_fields(2, of, 0, 0),
        Note::Composes { function, promise } => with_fields(3, promise, function, 0),
        Note::Gives { stage } => with_fields(4, stage, 0, 0),
        Note::Timer {
            stage,
            moment,
            gives,
        } => {
            let kind = if gives { 6 } else { 5 };
            with_fields(kind, stage, 0, moment)
        }
        Note::Abandons => with_fields(7, 0, 0, 0),
    }
}

/// The note of two numbers, or nothing where they are no note's. No two notes have the same numbers.
pub fn decode(words: NoteWords) -> Option<Note>
    ensures found { IfSome result (λ n. words_of n ≡ words) }
    ensures every { (n : Note) → IsNote n → words_of n ≡ words → result ≡ Some n }
{
    let kind = (words.what / KIND) as u8;
    let stage = (words.what / STAGE % STAGES) as u16;
    let function = (words.what % STAGE) as u32;
    let note = note_with(kind, stage, function, words.moment)?;
    if encode(note) != words {
        return None;
    }
    Some(note)
}

/// The numbers of these fields.
fn with_fields(kind: u8, stage: u16, function: u32, moment: u64) -> NoteWords
    ensures { result ≡ words_with kind stage function moment }
{
    let what = kind as u64 * KIND + stage as u64 * STAGE + function as u64;
    NoteWords { what, moment }
}

/// The note of a kind with these fields, if there is such a kind.
fn note_with(kind: u8, stage: u16, function: u32, moment: u64) -> Option<Note>
    ensures { result ≡ note_with kind stage function moment }
{
    let (gives, promise, of) = (kind == 6, stage, stage);
    match kind {
        0 => Some(Note::Nothing),
        1 => Some(Note::Calls { function }),
        2 => Some(Note::Tries { of }),
        3 => Some(Note::Composes { function, promise }),
        4 => Some(Note::Gives { stage }),
        5 | 6 => Some(Note::Timer {
            stage,
            moment,
            gives,
        }),
        7 => Some(Note::Abandons),
        _ => None,
    }
}
