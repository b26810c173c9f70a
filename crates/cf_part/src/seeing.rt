//! Entries of the row that are seen with their notes.
ghost use Rattle.std.specs.Prelude.{◌≡◌, ◌≢◌, ◌<◌, ◌≤◌, [], IfErr, OnErr, OnOk, length, take};
ghost use Rattle.cf_row.specs.Rows.{IsMisfit, state_of};
ghost use Rattle.cf_row.specs.Puts.{IsPutOrNone, OnlyFinds};
ghost use Rattle.cf_ledger.specs.Ledgers.{LedgerRefuses};
ghost use Rattle.cf_part.specs.Parts.{AreOfStages};
ghost use Rattle.cf_part.specs.Answers.{Sees, SeesOne};

use cf_event::decode;
use cf_ledger::{LedgerFault, Misfit};
use cf_notes::{Note, Notes};
use cf_row::{Entry, Row};

/// Sees these entries with their notes. Memory for all is found first, or none is seen. They are seen up to the first
/// that the graph doesn't take, which is told.
pub(crate) fn see_all(
    row: &mut Row,
    notes: &mut Notes,
    entries: &[Entry],
    said: &[Note],
) -> Result<(), Misfit>
    requires none { row.old.put ≡ [] }
    requires each { length said.now ≡ length entries.now }
    requires stages { AreOfStages row.old.replica notes.old }
    ensures all { OnOk result (Sees row.old notes.old entries.now said.now row.new notes.new) }
    ensures front { IfErr result (λ m.
        Sees row.old notes.old (take m.place entries.now) (take m.place said.now) row.new notes.new) }
    ensures why { IfErr result (λ m. IsMisfit row.old.replica entries.now row.new.replica m.place m.why) }
    ensures stages { AreOfStages row.new.replica notes.new }
{
    if row.reserve(entries.len()).is_err() {
        return Err(Misfit {
            place: 0,
            why: LedgerFault::NoMemory,
        });
    }
    see(row, notes, entries, said)
}

/// Sees a put that stands with the notes of its words, for which memory was found: this can't fail.
pub(crate) fn see_own(row: &mut Row, notes: &mut Notes, put: &[Entry], said: &[Note])
    requires none { row.old.put ≡ [] }
    requires own { IsPutOrNone row.old.replica put.now }
    requires memory { length put.now ≤ row.old.replica.free }
    requires each { length said.now ≡ length put.now }
    requires stages { AreOfStages row.old.replica notes.old }
    ensures all { Sees row.old notes.old put.now said.now row.new notes.new }
    ensures stages { AreOfStages row.new.replica notes.new }
{
    // (what was seen are words)
    let _ = row.replica().ledger();
    let Ok(()) = see(row, notes, put, said) else {
        unreachable!();
    };
}

/// Sees entries for which memory was found, up to the first that the graph doesn't take, which is told.
pub(crate) fn see(
    row: &mut Row,
    notes: &mut Notes,
    entries: &[Entry],
    said: &[Note],
) -> Result<(), Misfit>
    requires none { row.old.put ≡ [] }
    requires memory { length entries.now ≤ row.old.replica.free }
    requires each { length said.now ≡ length entries.now }
    requires stages { AreOfStages row.old.replica notes.old }
    ensures all { OnOk result (Sees row.old notes.old entries.now said.now row.new notes.new) }
    ensures front { IfErr result (λ m.
        Sees row.old notes.old (take m.place entries.now) (take m.place said.now) row.new notes.new) }
    ensures why { IfErr result (λ m. IsMisfit row.old.replica entries.now row.new.replica m.place m.why) }
    ensures found { IfErr result (λ m. m.why ≢ LedgerFault.NoMemory) }
    ensures stages { AreOfStages row.new.replica notes.new }
{
    // (what was seen are words)
    let _ = row.replica().ledger();
    for (place, entry) in entries.iter().enumerate() {
        match see_one(row, notes, *entry, said[place]) {
            Ok(()) => {}
            Err(why) => return Err(Misfit { place, why }),
        }
    }
    Ok(())
}

/// Sees an entry for which memory was found, and takes its note.
fn see_one(row: &mut Row, notes: &mut Notes, entry: Entry, note: Note) -> Result<(), LedgerFault>
    requires none { row.old.put ≡ [] }
    requires memory { 0 < row.old.replica.free }
    requires stages { AreOfStages row.old.replica notes.old }
    ensures seen { OnOk result (SeesOne row.old notes.old entry note row.new notes.new) }
    ensures refused { OnErr result (OnlyFinds row.old row.new) }
    ensures unchanged { OnErr result (notes.new ≡ notes.old) }
    ensures why { IfErr result (λ why. LedgerRefuses (state_of row.old.replica) entry.word why) }
    ensures found { IfErr result (λ why. why ≢ LedgerFault.NoMemory) }
    ensures stages { AreOfStages row.new.replica notes.new }
{
    // (what was seen before are words)
    let _ = row.replica().ledger();
    let reply = row.saw(entry)?;
    let Some(event) = decode(entry.word) else {
        unreachable!();
    };
    let replica = row.replica();
    // (what it took says that there is a place for a stage that comes)
    let _ = replica.ledger();
    notes.take(replica.seen().len() as u64, &event, &reply, note);
    Ok(())
}
