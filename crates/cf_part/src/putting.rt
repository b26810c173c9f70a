//! What is kept of a put, and what its refusal leaves owed.
ghost use Rattle.std.specs.Prelude.{◌≡◌, ◌≤◌, length, vec_capacity};
ghost use Rattle.cf_part.specs.Answers.{fault_after, is_error_due, is_error_next, has_payload, owed_refused};
ghost use Rattle.cf_part.specs.Parts.{notes_wanted, words_wanted};

use crate::question::{Fault, PutOf};
use cf_ledger::LedgerFault;
use cf_notes::{EndsWith, Note, Owed, Want};
use cf_row::Entry;

/// Writes the words of a put in place of others.
pub(crate) fn write_words(words: &mut Vec<u64>, wants: &[Want])
    requires { length wants.now ≤ vec_capacity words.old }
    ensures items { words.new.items ≡ words_wanted wants.now }
    ensures kept { vec_capacity words.new ≡ vec_capacity words.old }
{
    words.clear();
    for want in wants {
        words.push_reserved(want.word);
    }
}

/// Keeps a put's words with their notes in place of others.
pub(crate) fn write_wants(kept: &mut Vec<Want>, wants: &[Want])
    requires { length wants.now ≤ vec_capacity kept.old }
    ensures items { kept.new.items ≡ wants.now }
    ensures kept { vec_capacity kept.new ≡ vec_capacity kept.old }
{
    kept.clear();
    for want in wants {
        kept.push_reserved(*want);
    }
}

/// Writes the notes of a put's words in place of others.
pub(crate) fn write_notes(notes: &mut Vec<Note>, wants: &[Want])
    requires { length wants.now ≤ vec_capacity notes.old }
    ensures items { notes.new.items ≡ notes_wanted wants.now }
    ensures kept { vec_capacity notes.new ≡ vec_capacity notes.old }
{
    notes.clear();
    for want in wants {
        notes.push_reserved(want.note);
    }
}

/// Writes the entries of a put in place of others.
pub(crate) fn write_entries(entries: &mut Vec<Entry>, put: &[Entry])
    requires { length put.now ≤ vec_capacity entries.old }
    ensures items { entries.new.items ≡ put.now }
    ensures kept { vec_capacity entries.new ≡ vec_capacity entries.old }
{
    entries.clear();
    for entry in put {
        entries.push_reserved(*entry);
    }
}

/// What is wrong with a request of which an entry wasn't replayed.
pub(crate) fn fault_after(why: LedgerFault, fault: Option<Fault>) -> Option<Fault>
    ensures { result ≡ fault_after why fault }
{
    match why {
        LedgerFault::NoMemory => fault,
        LedgerFault::NoEvent | LedgerFault::NoStage | LedgerFault::NoRoom => Some(Fault::Broken),
    }
}

/// Notes that a put was refused: what is owed next, and whether an error stands in for it now.
pub(crate) fn refuse(owed: &mut [Option<Owed>], of: PutOf) -> bool
    ensures owed { owed.new ≡ owed_refused of owed.old }
    ensures is { result ≡ is_error_due of owed.old }
{
    let PutOf::Finish { stage } = of else {
        return false;
    };
    let place = stage as usize;
    if place >= owed.len() {
        return false;
    }
    let Some(it) = owed[place] else {
        return false;
    };
    let is_error = is_error_next(it.is_error, has_payload(it.answer));
    owed[place] = Some(Owed {
        answer: it.answer,
        is_error,
    });
    is_error
}

/// Whether an error stands in next for what is owed.
fn is_error_next(is_error: bool, payload: bool) -> bool
    ensures { result ≡ is_error_next is_error payload }
{
    !is_error && payload
}

/// Whether what a function came to has a payload that a store can refuse.
fn has_payload(answer: EndsWith) -> bool
    ensures { result ≡ has_payload answer }
{
    match answer {
        EndsWith::Gives | EndsWith::Throws => true,
        EndsWith::NoValue | EndsWith::Passes { .. } | EndsWith::Links { .. } => false,
    }
}
