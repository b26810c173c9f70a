//! A request in a store in memory: its plan, and its row with the notes beside the words.
ghost use Rattle.std.specs.Prelude.{◌≡◌, ◌≢◌, ◌+◌, ◌≤◌, ◌++◌, [], IfOk, OnErr, drop, length, vec_capacity};
ghost use Rattle.std.specs.Bool.{OnFalse, OnTrue};
ghost use Rattle.cf_forms.specs.Plans.{with_room};

use cf_notes::{Note, Want};
use cf_plan::Plan;
use cf_row::Entry;
use std::alloc::{AllocError, Global};
use std::marker::Model;

/// A request that a store has.
#[derive(Drop)]
pub struct Stored {
    number: u64,
    plan: Plan,
    notes: Vec<Note>,
    room: u16,
    row: Vec<Entry>,
    said: Vec<Note>,
}

impl Model for Stored {
    ghost use Rattle.std.specs.Prelude.{◌≡◌, length};
    ghost use Rattle.cf_forms.specs.Plans.{with_room};
    ghost use Rattle.cf_example.specs.Processes.{Stored};

    ghost Value = { Stored };

    ghost view = { λ s. record { number = s.number; plan = with_room s.plan s.room; row = s.row.items } };

    ghost invariant = { λ s. length s.said.items ≡ length s.row.items };
}

impl Stored {
    /// A request in whose row nothing stands: its number, its plan with the notes of its stages, and how many stages may
    /// be attached.
    pub fn new(alloc: Global, number: u64, plan: Plan, notes: Vec<Note>, room: u16) -> Stored
        ensures { result ≡ record { number = number; plan = with_room plan room; row = [] } }
    {
        Stored {
            number,
            plan,
            notes,
            room,
            row: Vec::new(alloc),
            said: Vec::new(alloc),
        }
    }

    /// Puts words with their notes behind so many entries, if just so many stand, and says whether it did. It fails only
    /// where there is no memory, and puts nothing then.
    pub fn put(&mut self, place: usize, group: &[Entry], wants: &[Want]) -> Result<bool, AllocError>
        ensures stands { IfOk result (λ stands. OnTrue stands ((place ≡ length self.old.row)
            × (self.new ≡ record self.old { row = self.old.row ++ group.now }))) }
        ensures taken { IfOk result (λ stands.
            OnFalse stands ((place ≢ length self.old.row) × (self.new ≡ self.old))) }
        ensures refused { OnErr result (self.new ≡ self.old) }
    {
        if place != self.row.len() {
            return Ok(false);
        }
        self.said.reserve(group.len())?;
        self.row.extend_from_slice(group)?;
        note_all(&mut self.said, group.len(), wants);
        Ok(true)
    }

    /// Its number.
    pub fn number(&self) -> u64
        ensures { result ≡ self.now.number }
    {
        self.number
    }

    /// Its plan.
    pub fn plan(&self) -> &Plan
        ensures { with_room result.now self.now.plan.room ≡ self.now.plan }
    {
        &self.plan
    }

    /// How many stages may be attached.
    pub fn room(&self) -> u16
        ensures { result ≡ self.now.plan.room }
    {
        self.room
    }

    /// The notes of the plan's stages.
    pub fn notes(&self) -> &[Note] {
        self.notes.as_slice()
    }

    /// How many entries stand.
    pub fn len(&self) -> usize
        ensures { result ≡ length self.now.row }
    {
        self.row.len()
    }

    /// What stands behind so many entries.
    pub fn read(&self, from: usize) -> &[Entry]
        requires { from ≤ length self.now.row }
        ensures { result.now ≡ drop from self.now.row }
    {
        &self.row[from..]
    }

    /// The notes of what stands there.
    pub fn said(&self, from: usize) -> &[Note]
        requires { from ≤ length self.now.row }
    {
        &self.said[from..]
    }
}

/// Notes so many words of a put, for which there are places.
fn note_all(said: &mut Vec<Note>, count: usize, wants: &[Want])
    requires { length said.old.items + count ≤ vec_capacity said.old }
    ensures { length said.new.items ≡ length said.old.items + count }
{
    for place in 0..count {
        let note = match wants.get(place) {
            Some(want) => want.note,
            None => Note::Nothing,
        };
        said.push_reserved(note);
    }
}
