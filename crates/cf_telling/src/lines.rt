//! A tale in lines, and in one line.
use crate::noting::Notes;
use crate::people::People;
use crate::saying::{write_event, write_name, write_outcome, write_passed};
use crate::tale::{Entry, Tale};
use crate::text::{Text, Within};
use cf_model::Stage;
use cf_outcome::Outcome;
use std::alloc::{AllocError, Global};

/// A line that says what is told; then a line for each event, and below it one for each stage that it settled. It fails only where
/// there is no memory.
pub(crate) fn lines_of(alloc: Global, tale: &Tale, people: &People) -> Result<String, AllocError> {
    let mut out = Text::new(alloc, Within::Lines);
    write_head(&mut out, tale, people);
    out.add("\n");
    for (k, entry) in tale.entries.iter().enumerate() {
        write_entry(&mut out, tale, people, k, entry);
    }
    out.whole()
}

/// How much happened, which stage failed first, and which one is open, in one line without its end. It fails only where there is
/// no memory.
pub(crate) fn line_of(alloc: Global, tale: &Tale, people: &People) -> Result<String, AllocError> {
    let mut out = Text::new(alloc, Within::OneLine);
    write_head(&mut out, tale, people);
    write_length(&mut out, tale, people);
    write_failures(&mut out, &tale.notes, people);
    write_open(&mut out, &tale.notes, people);
    out.whole()
}

/// Adds the name of the whole, and how much there is.
fn write_head(out: &mut Text, tale: &Tale, people: &People) {
    if people.name.is_empty() {
        out.add("a history");
    } else {
        out.add_inside(&people.name);
    }
    out.add(": ");
    write_count(out, tale.entries.len(), "event");
    out.add(", ");
    write_count(out, tale.notes.stages.len(), "stage");
}

fn write_count(out: &mut Text, count: usize, what: &str) {
    out.add_value(count);
    out.add(" ");
    out.add(what);
    if count != 1 {
        out.add("s");
    }
}

/// Adds the line of an event, and those of the stages that it settled.
fn write_entry(out: &mut Text, tale: &Tale, people: &People, k: usize, entry: &Entry) {
    if let Some(nanoseconds) = people.since(tale.entries.len(), k) {
        out.add_column(nanoseconds / 1_000);
        out.add(" ms  ");
    }
    write_event(out, &tale.notes, people, entry.event, entry.reply);
    out.add("\n");
    for (i, stage) in entry.changes.iter() {
        if let Stage::Settled(outcome) = *stage {
            write_end(out, &tale.notes, people, *i, outcome);
        }
    }
}

/// Adds the line of a stage that an event settled.
fn write_end(out: &mut Text, notes: &Notes, people: &People, stage: u16, outcome: Outcome) {
    out.add("              ");
    write_name(out, notes, people, stage);
    out.add(" ends: ");
    write_outcome(out, people, outcome);
    write_passed(out, notes, stage, outcome);
    out.add("\n");
}

/// Adds how long it took from the first event to the last, if they have times.
fn write_length(out: &mut Text, tale: &Tale, people: &People) {
    let count = tale.entries.len();
    if let Some(nanoseconds) = people.since(count, count.saturating_sub(1)) {
        out.add(" in ");
        out.add_thousandths(nanoseconds / 1_000);
        out.add(" ms");
    }
}

/// Adds how many stages failed, and how the first did.
fn write_failures(out: &mut Text, notes: &Notes, people: &People) {
    let mut count = 0usize;
    let mut first = None;
    for (i, seen) in notes.stages.iter().enumerate() {
        if let Some((outcome, place)) = seen.settled {
            if matches!(outcome, Outcome::Fault { .. }) {
                count = count.saturating_add(1);
                first = earlier(first, (i, outcome, place));
            }
        }
    }
    out.add_with("; ", count);
    out.add(" failed");
    if let Some((i, outcome, _)) = first {
        out.add(": ");
        write_name(out, notes, people, number_of(i));
        out.add(" by ");
        write_outcome(out, people, outcome);
    }
}

/// The one of two stages that settled first, and of those of one event the first of the two.
fn earlier(
    first: Option<(usize, Outcome, usize)>,
    other: (usize, Outcome, usize),
) -> Option<(usize, Outcome, usize)> {
    match first {
        Some((i, outcome, place)) if place <= other.2 => Some((i, outcome, place)),
        _ => Some(other),
    }
}

/// Adds how many stages are open, and the lowest of them.
fn write_open(out: &mut Text, notes: &Notes, people: &People) {
    let mut count = 0usize;
    let mut first = None;
    for (i, seen) in notes.stages.iter().enumerate() {
        if seen.settled.is_none() {
            count = count.saturating_add(1);
            first = first.or(Some(i));
        }
    }
    out.add_with("; ", count);
    out.add(" open");
    if let Some(i) = first {
        out.add(": ");
        write_name(out, notes, people, number_of(i));
    }
}

/// The number of a stage that stands at a position.
fn number_of(position: usize) -> u16 {
    u16::try_from(position).unwrap_or(u16::MAX)
}
