//! The situations after so many moves.
ghost use Rattle.std.specs.Prelude.{◌≡◌, ◌<◌, [], IfNone, IfOk, IfSome, None, length, true};
ghost use Rattle.cf_explore.specs.Layers.{HasMoreOrders, IsAdded, IsAt, IsNowhere};

use crate::hash::hash_of;
use crate::situation::Situation;
use std::alloc::{AllocError, Global};

/// A situation with the number of orders that lead to it, counted up to 2^128 - 1, and its own number.
#[derive(Drop)]
pub struct Entry {
    pub(crate) situation: Situation,
    pub(crate) orders: u128,
    pub(crate) number: u32,
    pub(crate) hash: u64,
}

/// What became of a situation to which more orders lead: it was new, it was there already, or it would be new but none may be
/// added.
#[derive(Clone, Copy, Drop)]
pub(crate) enum Added {
    New,
    There,
    NoRoom,
}

/// The situations after some number of moves. The table is a hash table of the entries' places: a place is stored plus 1, in the
/// first free slot from that of its hash on, and 0 is a free slot. An entry that it leads to is compared, so only the time that a
/// search takes depends on the table.
#[derive(Drop)]
pub struct Layer {
    pub(crate) entries: Vec<Entry>,
    pub(crate) table: Vec<u32>,
}

impl Layer {
    /// A layer without a situation.
    pub(crate) fn new(alloc: Global) -> Layer
        ensures { result.entries.items ≡ [] }
    {
        Layer {
            entries: Vec::new(alloc),
            table: Vec::new(alloc),
        }
    }

    /// This many orders more lead to this situation. Where it is new it gets the number; without a number no new one is added.
    pub(crate) fn add(
        &mut self,
        situation: Situation,
        orders: u128,
        number: Option<u32>,
    ) -> Result<Added, AllocError>
        ensures { IfOk result (IsAdded self.old.entries.items self.new.entries.items situation orders number) }
    {
        let hash = hash_of(&situation);
        match place_of(&self.entries, &self.table, &situation, hash, number) {
            Some(i) => {
                // It stands there already.
                drop(situation);
                self.more_orders(i, orders);
                Ok(Added::There)
            }
            None => match number {
                None => Ok(Added::NoRoom),
                Some(number) => {
                    self.entries.push(Entry {
                        situation,
                        orders,
                        number,
                        hash,
                    })?;
                    self.note(hash)?;
                    Ok(Added::New)
                }
            },
        }
    }

    /// This many orders more lead to the situation at this place.
    fn more_orders(&mut self, i: usize, orders: u128)
        requires { i < length self.old.entries.items }
        ensures { HasMoreOrders self.old.entries.items self.new.entries.items i orders }
    {
        let entry = &mut self.entries[i];
        entry.orders = entry.orders.saturating_add(orders);
    }

    /// Puts the last entry into the table, which grows with the entries.
    fn note(&mut self, hash: u64) -> Result<(), AllocError>
        ensures { self.new.entries ≡ self.old.entries }
    {
        let count = self.entries.len();
        if count >= self.table.len() / 2 {
            let alloc = *self.entries.allocator();
            self.table = table_of(alloc, &self.entries)?;
        } else {
            put(&mut self.table, hash, count);
        }
        Ok(())
    }
}

/// The place of an equal situation. Without a number for a new one, all entries are looked at before it says that there is none.
fn place_of(
    entries: &[Entry],
    table: &[u32],
    situation: &Situation,
    hash: u64,
    number: Option<u32>,
) -> Option<usize>
    ensures there { IfSome result (λ i. IsAt entries.now i situation.now) }
    ensures nowhere { number ≡ None → IfNone result (IsNowhere entries.now situation.now) }
{
    match find(entries, table, situation, hash) {
        Some(i) => Some(i),
        None => match number {
            None => search(entries, situation),
            Some(_) => None,
        },
    }
}

/// The place of an equal situation among all entries.
fn search(entries: &[Entry], situation: &Situation) -> Option<usize>
    ensures there { IfSome result (λ i. IsAt entries.now i situation.now) }
    ensures nowhere { IfNone result (IsNowhere entries.now situation.now) }
{
    for i in 0..entries.len() {
        if stands_at(entries, i, situation) {
            return Some(i);
        }
    }
    None
}

/// Whether this situation stands at a place.
fn stands_at(entries: &[Entry], i: usize, situation: &Situation) -> bool
    ensures there { result ≡ true → IsAt entries.now i situation.now }
    ensures other { IsAt entries.now i situation.now → result ≡ true }
{
    match entries.get(i) {
        None => false,
        Some(entry) => entry.situation.is_same(situation),
    }
}

/// The place of an equal situation, if the table leads to one.
fn find(entries: &[Entry], table: &[u32], situation: &Situation, hash: u64) -> Option<usize>
    ensures { IfSome result (λ i. IsAt entries.now i situation.now) }
{
    let size = table.len();
    if size == 0 {
        return None;
    }
    for step in 0..size {
        let slot = (hash.wrapping_add(step as u64) % size as u64) as usize;
        let behind = table[slot] as usize;
        if behind == 0 {
            return None;
        }
        if is_there(entries, behind - 1, situation, hash) {
            return Some(behind - 1);
        }
    }
    None
}

/// Whether this situation, of this hash, stands at a place.
fn is_there(entries: &[Entry], i: usize, situation: &Situation, hash: u64) -> bool
    ensures { result ≡ true → IsAt entries.now i situation.now }
{
    match entries.get(i) {
        None => false,
        Some(entry) => entry.hash == hash && entry.situation.is_same(situation),
    }
}

/// A table of these entries, with room for as many more.
fn table_of(alloc: Global, entries: &[Entry]) -> Result<Vec<u32>, AllocError> {
    let size = entries.len().saturating_mul(4).max(16);
    let mut table = vec![in alloc; 0u32; size]?;
    for (i, entry) in entries.iter().enumerate() {
        put(&mut table, entry.hash, i.saturating_add(1));
    }
    Ok(table)
}

/// Puts a place into the first free slot from that of the hash on.
fn put(table: &mut [u32], hash: u64, behind: usize) {
    let size = table.len();
    if size == 0 || behind > 4_294_967_295 {
        return;
    }
    for step in 0..size {
        let slot = (hash.wrapping_add(step as u64) % size as u64) as usize;
        if table[slot] == 0 {
            table[slot] = behind as u32;
            return;
        }
    }
}
