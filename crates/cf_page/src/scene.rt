//! A scene: what happened, as a page has it.
ghost use Rattle.std.specs.Prelude.{◌≡◌, true};
ghost use Rattle.cf_forms.specs.Plans.{has_place};

use crate::changes::write_change;
use crate::layout::{Size, lay_out};
use cf_model::{Attached, Claimed, Event, Finished, Reply, Stage, Ticked};
use cf_plan::Plan;
use cf_telling::{Entry, People, Tale, Text, Within, tale_of, write_event};
use std::alloc::{AllocError, Global};

/// A history done again, with the place of each stage in the picture.
#[derive(Drop)]
pub struct Scene {
    pub(crate) tale: Tale,
    /// What has become of each stage before the first event, as JSON.
    pub(crate) start: Text,
    /// The events as JSON.
    pub(crate) events: Text,
    pub(crate) size: Size,
}

/// The scene of a plan with room for this many stages more, and of the words of its events up to the first that no graph takes.
/// It fails only where there is no memory.
pub fn scene_of(
    alloc: Global,
    plan: &Plan,
    room: u16,
    words: &[u64],
    people: &People,
) -> Result<Scene, AllocError>
    requires place { has_place plan.now.stages room ≡ true }
{
    let mut scene = Scene {
        tale: tale_of(alloc, plan, room, words)?,
        start: Text::new(alloc, Within::Json),
        events: Text::new(alloc, Within::Json),
        size: Size {
            width: 0,
            height: 0,
        },
    };
    match scene.tell(alloc, people) {
        Ok(()) => Ok(scene),
        Err(fault) => Err(fault),
    }
}

impl Scene {
    /// How many events there are.
    pub(crate) fn count(&self) -> usize {
        self.tale.entries.len()
    }

    /// Tells what happened, and lays the stages out.
    fn tell(&mut self, alloc: Global, people: &People) -> Result<(), AllocError> {
        write_start(&mut self.start, &self.tale, people);
        write_events(&mut self.events, &self.tale, people);
        for (stage, to) in people.relays.iter() {
            self.tale.notes.relay(*stage, *to);
        }
        self.size = lay_out(alloc, &mut self.tale.notes)?;
        self.start.check()?;
        self.events.check()
    }
}

/// Adds what has become of each stage before the first event.
fn write_start(out: &mut Text, tale: &Tale, people: &People) {
    for (i, stage) in tale.start.iter().enumerate() {
        out.add_comma(i);
        let number = u16::try_from(i).unwrap_or(u16::MAX);
        write_change(out, &tale.notes, people, number, *stage);
    }
}

/// Adds the events.
fn write_events(out: &mut Text, tale: &Tale, people: &People) {
    for (k, entry) in tale.entries.iter().enumerate() {
        out.add_comma(k);
        write_beginning(out, tale, people, entry);
        for (n, (i, stage)) in entry.changes.iter().enumerate() {
            out.add_comma(n);
            write_change(out, &tale.notes, people, *i, *stage);
        }
        write_end(out, people, k, entry);
    }
}

/// Adds of an event who did it, of which stage, in words, whether it was in vain.
fn write_beginning(out: &mut Text, tale: &Tale, people: &People, entry: &Entry) {
    out.add_with("\n[", entry.event.who());
    match stage_named(entry.event, entry.reply) {
        Some(i) => out.add_with(",", i),
        None => out.add(",null"),
    }
    out.add(",\"");
    write_event(out, &tale.notes, people, entry.event, entry.reply);
    out.add_with("\",", u8::from(is_vain(entry.reply)));
    out.add(",[");
}

/// Adds what stands behind an event's changes: its time, what the account says otherwise, whether it is a claim or a finish.
fn write_end(out: &mut Text, people: &People, k: usize, entry: &Entry) {
    match people.since(people.times.len(), k) {
        Some(nanoseconds) => out.add_with("],", nanoseconds / 1_000),
        None => out.add("],null"),
    }
    write_difference(out, k, entry.reply, people);
    let is_run = matches!(entry.event, Event::Claim { .. } | Event::Finish { .. });
    out.add_with(",", u8::from(is_run));
    out.add("]");
}

/// Adds, behind a comma, what the account says otherwise of an event behind `k` others than the graph, or `null`.
fn write_difference(out: &mut Text, k: usize, reply: Reply, people: &People) {
    match people.replies.get(k) {
        Some(Some(said)) if *said != reply => {
            out.add(",\"the account says: ");
            out.add_reply(*said);
            out.add("; the graph: ");
            out.add_reply(reply);
            out.add("\"");
        }
        _ => out.add(",null"),
    }
}

/// The stage that an event names or attaches.
fn stage_named(event: Event, reply: Reply) -> Option<u16> {
    match event {
        Event::Complete { stage, .. }
        | Event::Fail { stage, .. }
        | Event::FailAs { stage, .. }
        | Event::Cancel { stage, .. }
        | Event::Claim { stage, .. }
        | Event::Finish { stage, .. } => Some(stage),
        Event::Tick { .. } => None,
        Event::Attach { .. } => match reply {
            Reply::Attach(Attached::At(i)) => Some(i),
            _ => None,
        },
    }
}

/// Whether an event came too late or too early, so that it changed nothing.
fn is_vain(reply: Reply) -> bool {
    !matches!(
        reply,
        Reply::Flag(true)
            | Reply::Claim(Claimed::Granted(_))
            | Reply::Finish(Finished::Won)
            | Reply::Tick(Ticked::Fired(_))
            | Reply::Attach(Attached::At(_))
    )
}
