//! What a host writes that shares a request by a row in a store: a put whose answer was lost. Each clause follows from
//! the contracts of a session's view of the row, and from its laws. So does what it may rely on of sessions' numbers.
ghost use Rattle.std.specs.Prelude.{◌≡◌, ◌≢◌, ◌<◌, ◌≤◌, ◌++◌, [], IfOk, OnErr, OnOk, drop, false, length, true};
ghost use Rattle.std.specs.Bool.{OnFalse, OnTrue};
ghost use Rattle.cf_row.specs.Engines.{Group, Puts};
ghost use Rattle.cf_row.specs.Puts.{IsOnceOrNever, NoneStands, StandsOnce};
ghost use Rattle.cf_row.specs.Rows.{BeginsWith, FitsUpTo};
ghost use Rattle.cf_example.specs.Numbers.{RowsHaveRuledNumbers};

use cf_ledger::Misfit;
use cf_row::laws::{all_follow_the_rule, landed_puts_stand_once, numbers_are_ruled};
use cf_row::{Entry, Row};
use std::alloc::{AllocError, Global};
use std::marker::Model;

/// A row in memory, as a store: it puts a group where none stands, all or none, and keeps what stands.
#[derive(Drop)]
pub struct Store {
    row: Vec<Entry>,
}

impl Model for Store {
    ghost use Rattle.std.specs.Prelude.{List};
    ghost use Rattle.cf_row.specs.declared.entry.Entry.{Entry};

    ghost Value = { List Entry };

    ghost view = { λ s. s.row.items };
}

impl Store {
    /// A row in which nothing stands.
    pub fn new(alloc: Global) -> Store
        ensures { result ≡ [] }
    {
        Store {
            row: Vec::new(alloc),
        }
    }

    /// Puts a group behind so many entries, if just so many stand, and says whether it did. It fails only where there
    /// is no memory, and puts nothing then. So it keeps the premises of engines.
    pub fn put(&mut self, place: usize, group: &[Entry]) -> Result<bool, AllocError>
        ensures stands { IfOk result (λ stands.
            OnTrue stands ((place ≡ length self.old) × (self.new ≡ self.old ++ group.now))) }
        ensures taken { IfOk result (λ stands. OnFalse stands ((place ≢ length self.old) × (self.new ≡ self.old))) }
        ensures refused { OnErr result (self.new ≡ self.old) }
        ensures premises { (g : Group) → length g.by.seen ≡ place → g.put ≡ group.now → Puts self.old g self.new }
    {
        if place != self.row.len() {
            return Ok(false);
        }
        self.row.extend_from_slice(group)?;
        Ok(true)
    }

    /// How many entries stand.
    pub fn len(&self) -> usize
        ensures { result ≡ length self.now }
    {
        self.row.len()
    }

    /// What stands behind so many entries.
    pub fn read(&self, from: usize) -> &[Entry]
        requires { from ≤ length self.now }
        ensures { result.now ≡ drop from self.now }
    {
        &self.row[from..]
    }
}

/// Asks a store for a session's put, of which it isn't known whether it stands, since an earlier answer was lost. What
/// stands at its place tells. In either case the session has seen all of the row then, and its records fit it.
pub fn ask_again(store: &mut Store, row: &mut Row) -> Result<bool, Misfit>
    requires under_way { 0 < length row.old.put }
    requires view { BeginsWith store.old row.old.replica.seen }
    requires doubt { IsOnceOrNever store.old (length row.old.replica.seen) row.old.put }
    ensures stands { IfOk result (λ stands.
        OnTrue stands (StandsOnce store.new (length row.old.replica.seen) row.old.put)) }
    ensures lost { IfOk result (λ stands. OnFalse stands (NoneStands store.new row.old.put)) }
    ensures all { OnOk result (row.new.replica.seen ≡ store.new) }
    ensures fit { OnOk result (
        FitsUpTo row.old.replica.plan row.old.replica.session (length store.new) store.new row.new.replica.records) }
{
    landed_puts_stand_once();
    let place = row.replica().seen().len();
    if store.put(place, row.put())? {
        row.landed();
        let _records = row.replica().records();
        return Ok(true);
    }
    let behind = store.read(place);
    let stands = row.met(behind[0]);
    row.saw_all(behind)?;
    let _records = row.replica().records();
    Ok(stands)
}

/// Whichever puts an engine was asked for, how often and how late: no session of the row has two numbers, none is two
/// sessions' before all 64 are taken, and below a number that is taken all are.
pub fn rows_have_ruled_numbers()
    ensures { RowsHaveRuledNumbers }
{
    all_follow_the_rule();
    numbers_are_ruled();
}
