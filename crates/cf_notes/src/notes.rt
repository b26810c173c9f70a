//! The table of what the notes say.
ghost use Rattle.std.specs.Prelude.{◌≡◌, ◌+◌, ◌-◌, ◌≤◌, [], IfOk, OnErr, OnOk, length};
ghost use Rattle.cf_notes.specs.Noting.{AreNotes, added_by, attached_by, attached_count, noted_as, noted_by, noted_plan};

use crate::entry::{fail, finish, time};
use crate::note::Note;
use crate::noted::Noted;
use crate::stage::noted_as;
use cf_forms::Form;
use cf_model::{Attached, Event, Reply};
use cf_plan::Plan;
use std::alloc::{AllocError, Global};
use std::marker::Model;

/// What the notes of a row say of each stage, by the stages' numbers.
///
/// A contract also sees for how many stages more there are places.
#[derive(Drop)]
pub struct Notes {
    stages: Vec<Noted>,
    room: u16,
}

impl Model for Notes {
    ghost use Rattle.cf_notes.specs.Tables.{Table};

    ghost Value = { Table };

    ghost use Rattle.cf_notes.specs.Tables.{IsTable};

    ghost view = { λ n. record { stages = n.stages.items; room = n.room } };

    ghost invariant = { λ n. IsTable n.stages n.room };
}

impl Notes {
    /// What the notes of a plan's stages say, with places for so many stages more. It fails only where there is no
    /// memory.
    pub fn new(alloc: Global, plan: &Plan, notes: &[Note], room: u16) -> Result<Notes, AllocError>
        requires each_stage { length notes.now ≡ length plan.now.stages }
        requires few { length plan.now.stages + room ≤ 4096 }
        ensures { IfOk result (λ n. n ≡ record { stages = noted_plan [] plan.now.stages notes.now; room = room }) }
    {
        let mut stages = Vec::with_capacity(alloc, notes.len() + room as usize)?;
        for stage in 0..plan.stages() {
            let note = notes[stage as usize];
            let new = noted_as(&stages, plan.form(stage), plan.function(stage), note);
            stages.push_reserved(new);
        }
        Ok(Notes { stages, room })
    }

    /// What the notes say of each stage.
    pub fn stages(&self) -> &[Noted]
        ensures stages { result.now ≡ self.now.stages }
        ensures are { AreNotes (length self.now.stages) self.now.stages }
    {
        self.stages.as_slice()
    }

    /// For how many stages more there are places.
    pub fn room(&self) -> u16
        ensures { result ≡ self.now.room }
    {
        self.room
    }

    /// Takes the note of an entry: its place counted from 1, its event, and the reply to that. There has to be a place
    /// for a stage that it attaches.
    pub fn take(&mut self, place: u64, event: &Event, reply: &Reply, note: Note)
        requires { added_by event.now reply.now ≤ self.old.room }
        ensures stages { self.new.stages ≡ noted_by self.old.stages place event.now reply.now note }
        ensures count { length self.new.stages ≡ length self.old.stages + added_by event.now reply.now }
        ensures room { self.new.room ≡ self.old.room - added_by event.now reply.now }
    {
        match *event {
            Event::Attach { form, function, .. } => self.attach(form, function, reply, note),
            Event::Finish { stage, answer, .. } => finish(
                self.stages.as_mut_slice(),
                reply,
                stage,
                answer,
                note,
            ),
            Event::Fail { stage, code, .. } => fail(
                self.stages.as_mut_slice(),
                reply,
                stage,
                code,
                note,
            ),
            Event::Tick { .. } => time(self.stages.as_mut_slice(), place, note),
            Event::Complete { .. }
            | Event::FailAs { .. }
            | Event::Cancel { .. }
            | Event::Claim { .. } => {}
        }
    }

    /// Takes the note of an attach.
    fn attach(&mut self, form: Form, function: Option<u16>, reply: &Reply, note: Note)
        requires { attached_count reply.now ≤ self.old.room }
        ensures stages { self.new.stages ≡
            attached_by self.old.stages reply.now (noted_as self.old.stages form function note) }
        ensures room { self.new.room ≡ self.old.room - attached_count reply.now }
    {
        if let Reply::Attach(Attached::At(_)) = *reply {
            let new = noted_as(&self.stages, form, function, note);
            self.stages.push_reserved(new);
            self.room -= 1;
        }
    }

    /// Finds places for so many stages more. It fails only where there is no memory, and then changes nothing.
    pub fn grow(&mut self, more: u16) -> Result<(), AllocError>
        requires { length self.old.stages + self.old.room + more ≤ 4096 }
        ensures grown { OnOk result (self.new ≡ record self.old { room = self.old.room + more }) }
        ensures unchanged { OnErr result (self.new ≡ self.old) }
    {
        let room = self.room + more;
        self.stages.reserve(room as usize)?;
        self.room = room;
        Ok(())
    }

    /// Takes back so many of the places for stages to come.
    pub fn shrink(&mut self, less: u16)
        requires { less ≤ self.old.room }
        ensures { self.new ≡ record self.old { room = self.old.room - less } }
    {
        self.room -= less;
    }
}
