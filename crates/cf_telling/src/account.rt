//! A tale as the account that `cf_look check` judges, and `cf_look page` shows.
use crate::noting::Notes;
use crate::people::People;
use crate::script::write_plan;
use crate::tale::{Entry, Tale};
use crate::text::{Text, Within};
use cf_model::Stage;
use std::alloc::{AllocError, Global};

/// Characters that an account takes of a stage's name.
const LONGEST_NAME: usize = 64;

/// One line of JSON: the plan, the words, what each caller was told, what the stages hold, and what is said for people. It fails
/// only where there is no memory.
pub(crate) fn account_of(
    alloc: Global,
    tale: &Tale,
    people: &People,
) -> Result<String, AllocError> {
    let mut out = Text::new(alloc, Within::Json);
    out.add("{\"plan\":{\"cf\":2,");
    write_plan(&mut out, tale);
    // A word can name so many functions.
    out.add("},\"functions\":4096,\"events\":[");
    write_words(&mut out, &tale.entries);
    out.add("],\"callers\":[");
    write_callers(&mut out, &tale.entries);
    out.add("],\"outcomes\":[");
    write_outcomes(&mut out, &tale.notes);
    out.add("]");
    write_people(&mut out, people);
    out.add("}\n");
    out.whole()
}

fn write_words(out: &mut Text, entries: &[Entry]) {
    for (k, entry) in entries.iter().enumerate() {
        out.add_comma(k);
        out.add_with("\"", entry.word);
        out.add("\"");
    }
}

/// Adds the records of each caller up to the last that did something.
fn write_callers(out: &mut Text, entries: &[Entry]) {
    for who in 0..callers_of(entries) {
        out.add_comma(usize::from(who));
        out.add("[");
        write_records(out, entries, who);
        out.add("]");
    }
}

/// How many callers there are up to the last that did something.
fn callers_of(entries: &[Entry]) -> u8 {
    let mut count = 0u8;
    for entry in entries {
        count = count.max(entry.event.who().saturating_add(1));
    }
    count
}

/// Adds what one caller did and was told.
fn write_records(out: &mut Text, entries: &[Entry], who: u8) {
    let mut count = 0;
    for (k, entry) in entries.iter().enumerate() {
        if entry.event.who() == who {
            out.add_comma(count);
            write_record(out, k.saturating_add(1), entry);
            count = 1;
        }
    }
}

/// Adds an event with its reply, and the stages that it settled.
fn write_record(out: &mut Text, place: usize, entry: &Entry) {
    out.add_did(place, entry.word, entry.reply);
    for (i, stage) in entry.changes.iter() {
        if let Stage::Settled(outcome) = *stage {
            out.add(",");
            out.add_saw(place, *i, outcome);
        }
    }
}

fn write_outcomes(out: &mut Text, notes: &Notes) {
    for (i, seen) in notes.stages.iter().enumerate() {
        out.add_comma(i);
        out.add("\"");
        match seen.settled {
            Some((outcome, _)) => out.add_settled(Some(outcome)),
            None => out.add_settled(None),
        }
        out.add("\"");
    }
}

/// Adds what is said for people alone.
fn write_people(out: &mut Text, people: &People) {
    if !people.name.is_empty() {
        out.add(",\"name\":");
        out.add_string(&people.name);
    }
    out.add(",\"names\":[");
    for (i, name) in people.names.iter().enumerate() {
        out.add_comma(i);
        out.add_beginning(name, LONGEST_NAME);
    }
    out.add("],\"times\":[");
    for (k, time) in people.times.iter().enumerate() {
        out.add_comma(k);
        out.add_value(*time);
    }
    out.add("],\"lanes\":");
    write_texts(out, &people.lanes);
    out.add(",\"values\":");
    write_texts(out, &people.values);
    out.add(",\"errors\":");
    write_texts(out, &people.errors);
}

fn write_texts(out: &mut Text, texts: &[String]) {
    out.add("[");
    for (k, text) in texts.iter().enumerate() {
        out.add_comma(k);
        out.add_string(text);
    }
    out.add("]");
}
