//! What the steps did to claims, stage by stage.
ghost use Rattle.std.specs.Prelude.{◌≡◌, IfOk, replicate};
ghost use Rattle.cf_picture.specs.Fates.{linked_by, no_note, note_at, noted, with_note};

use cf_forms::Answer;
use cf_model::{Claimed, Event, Finished, Reply};
use std::alloc::{AllocError, Global};

/// What the steps did to the claim of a stage, which is granted once at most.
#[derive(Clone, Copy)]
pub(crate) struct Note {
    /// A step claimed it, and none has finished it since.
    pub(crate) is_open: bool,
    /// The stage that the finish linked it to, if it did.
    pub(crate) link: Option<u16>,
}

/// Of a stage that no step claimed.
const NONE: Note = Note {
    is_open: false,
    link: None,
};

/// A note for each stage.
#[derive(Drop)]
pub(crate) struct Notes {
    notes: Vec<Note>,
}

impl Notes {
    /// Notes for so many stages, of which none is claimed.
    pub(crate) fn new(alloc: Global, count: usize) -> Result<Notes, AllocError>
        ensures { IfOk result (λ made. made.notes.items ≡ replicate count no_note) }
    {
        let notes = vec![in alloc; NONE; count]?;
        Ok(Notes { notes })
    }

    /// Notes what an event did that was answered so.
    pub(crate) fn note(&mut self, event: Event, reply: Reply)
        ensures { self.new.notes.items ≡ noted event reply self.old.notes.items }
    {
        match (event, reply) {
            (Event::Claim { stage, .. }, Reply::Claim(Claimed::Granted(_))) => {
                self.put(stage, true, None)
            }
            (Event::Finish { stage, answer, .. }, Reply::Finish(Finished::Won)) => {
                self.put(stage, false, linked_by(answer))
            }
            _ => {}
        }
    }

    fn put(&mut self, stage: u16, is_open: bool, link: Option<u16>)
        ensures { self.new.notes.items ≡ with_note self.old.notes.items stage is_open link }
    {
        if let Some(note) = self.notes.get_mut(stage as usize) {
            *note = Note { is_open, link };
        }
    }

    /// The note of a stage.
    pub(crate) fn of(&self, stage: u16) -> Note
        ensures { result ≡ note_at self.now.notes.items stage }
    {
        match self.notes.get(stage as usize) {
            Some(note) => *note,
            None => NONE,
        }
    }
}

/// The stage that an answer links to.
fn linked_by(answer: Answer) -> Option<u16>
    ensures { result ≡ linked_by answer }
{
    match answer {
        Answer::Link(j) => Some(j),
        _ => None,
    }
}
