//! A session's view of a row, with the put that is under way.
ghost use Rattle.std.specs.Prelude.{◌≡◌, ◌+◌, ◌*◌, ◌<◌, ◌≤◌, [], All, IfErr, IfOk, OnErr, OnOk, length, take, true, vec_capacity};
ghost use Rattle.cf_forms.specs.Plans.{has_place, with_room};
ghost use Rattle.cf_model.specs.States.{outcome_at};
ghost use Rattle.cf_row.specs.Rows.{IsMisfit, IsNoEntry, Replays, Takes, session_of, stages_of, state_of, with_memory, with_more, with_outcome};
ghost use Rattle.cf_row.specs.Puts.{IsNoPut, IsPutOf, OnlyFinds, Plans, TellsOf, stamped};

use crate::entry::{Entry, TOKENS};
use crate::faults::PutFault;
use crate::places::make_room;
use crate::replica::Replica;
use crate::words::check;
use cf_ledger::{LedgerFault, Misfit, Reply};
use cf_outcome::Outcome;
use cf_plan::Plan;
use std::alloc::{AllocError, Global};
use std::marker::Model;

/// What one session knows of a row, and what it wants to stand there next.
///
/// A contract sees what was replayed, the put that is under way, if there is one, and the token that comes next.
#[derive(Drop)]
pub struct Row {
    replica: Replica,
    put: Vec<Entry>,
    next: u64,
}

impl Model for Row {
    ghost use Rattle.cf_row.specs.Puts.{Row};

    ghost Value = { Row };

    ghost use Rattle.std.specs.Prelude.{◌≤◌, length, vec_capacity};
    ghost use Rattle.cf_row.specs.Puts.{HasTokens, IsPutOrNone};

    ghost view = { λ r. record { replica = r.replica; put = r.put.items; next = r.next } };

    ghost invariant = { λ r. record {
      tokens : HasTokens r.replica.session r.put.items r.next;
      planned : IsPutOrNone r.replica r.put.items;
      memory : length r.put.items ≤ r.replica.free;
      places : r.replica.free ≤ vec_capacity r.put;
    } };
}

impl Row {
    /// A session's view of a row of which nothing was read yet. Its tokens count from `first` on: a host draws it by
    /// chance, so that the tokens of two views differ even if they have one session. It fails only where there is no
    /// memory.
    pub fn new(
        alloc: Global,
        plan: &Plan,
        room: u16,
        session: u64,
        first: u32,
    ) -> Result<Row, AllocError>
        requires place { has_place plan.now.stages room ≡ true }
        requires session { session < 549755813888 }
        requires first { first ≤ 8388608 }
        ensures replica { IfOk result (λ r.
            r.replica ≡ record {
              plan = with_room plan.now room;
              session = session;
              seen = [];
              records = [];
              free = 0;
            }) }
        ensures put { IfOk result (λ r. r.put ≡ []) }
        ensures next { IfOk result (λ r. r.next ≡ session * 8388608 + first) }
    {
        let replica = Replica::new(alloc, plan, room, session)?;
        Ok(Row {
            replica,
            put: Vec::new(alloc),
            next: session * TOKENS + first as u64,
        })
    }

    /// What was replayed, and what the session was answered.
    pub fn replica(&self) -> &Replica
        ensures { result.now ≡ self.now.replica }
    {
        &self.replica
    }

    /// The put that is under way, for the place behind all that was seen. It may be made again as long as it isn't
    /// known what became of it.
    pub fn put(&self) -> &[Entry]
        ensures put { result.now ≡ self.now.put }
        ensures is { 0 < length result.now → IsPutOf self.now.replica result.now }
        ensures below { All (λ x. x.token < self.now.next) result.now }
        ensures own { All (λ x. session_of x.token ≡ self.now.replica.session) result.now }
    {
        self.put.as_slice()
    }

    /// Finds memory for so many entries more. It fails only where there is no memory, and then changes nothing. While
    /// some is left, nothing is refused for want of memory.
    #[inline(always)]
    pub fn reserve(&mut self, more: usize) -> Result<(), AllocError>
        ensures found { OnOk result (self.new ≡ record self.old { replica = with_memory self.old.replica more }) }
        ensures refused { OnErr result (self.new ≡ self.old) }
        ensures short { OnErr result (self.old.replica.free < more) }
    {
        let planned = self.put.len();
        make_room(&mut self.put, more.saturating_sub(planned))?;
        self.replica.reserve(more)?;
        Ok(())
    }

    /// Plans a put of these words, and finds the memory that it needs if it lands. It is refused for the first of:
    /// tokens, the words, memory. Where it is refused all stays as it was.
    pub fn plan(&mut self, words: &[u64]) -> Result<(), PutFault>
        requires none { self.old.put ≡ [] }
        ensures planned { OnOk result (Plans self.old words.now self.new) }
        ensures unchanged { OnErr result (self.new ≡ self.old) }
        ensures why { IfErr result (λ fault. IsNoPut self.old.replica self.old.next words.now fault) }
    {
        match check(&self.replica, self.next, words) {
            Ok(()) => {}
            Err(fault) => return Err(fault),
        }
        self.reserve(words.len())?;
        stamp(&mut self.put, self.next, words);
        self.next += words.len() as u64;
        Ok(())
    }

    /// The put stands: it is replayed, which can't fail.
    pub fn landed(&mut self)
        ensures all { Replays self.old.replica self.old.put self.new.replica }
        ensures done { self.new.put ≡ [] }
        ensures tokens { self.new.next ≡ self.old.next }
    {
        self.replica.replay_own(self.put.as_slice());
        self.put.clear();
    }

    /// At the put's place this entry was met. Whether it is the put's own, which had landed before. In either case what
    /// stands there is still to be seen.
    pub fn met(&mut self, first: Entry) -> bool
        requires under_way { 0 < length self.old.put }
        ensures told { TellsOf self.old.replica self.old.put first result }
        ensures done { self.new ≡ record self.old { put = [] } }
    {
        let landed = self.put[0].token == first.token;
        self.put.clear();
        landed
    }

    /// The put is given up: it isn't known whether it stands. What is read later tells.
    pub fn give_up(&mut self)
        ensures { self.new ≡ record self.old { put = [] } }
    {
        self.put.clear();
    }

    /// This entry stands behind all that was seen. It is refused for the first of: memory, a ledger's reasons.
    // (In line, though two crates call it: each word from C comes this way.)
    #[inline(always)]
    pub fn saw(&mut self, entry: Entry) -> Result<Reply, LedgerFault>
        requires none { self.old.put ≡ [] }
        ensures done { IfOk result (λ reply. Takes self.old.replica entry reply self.new.replica) }
        ensures put { self.new.put ≡ [] }
        ensures tokens { self.new.next ≡ self.old.next }
        ensures refused { OnErr result (OnlyFinds self.old self.new) }
        ensures why { IfErr result (λ fault. IsNoEntry self.old.replica entry.word fault) }
    {
        self.reserve(1)?;
        self.replica.take(entry)
    }

    /// These entries stand behind all that was seen. Memory for all is found first, or none is replayed. They are
    /// replayed up to the first that the graph doesn't take, which is told.
    pub fn saw_all(&mut self, entries: &[Entry]) -> Result<(), Misfit>
        requires none { self.old.put ≡ [] }
        ensures all { OnOk result (Replays self.old.replica entries.now self.new.replica) }
        ensures front { IfErr result (λ m. Replays self.old.replica (take m.place entries.now) self.new.replica) }
        ensures why { IfErr result (λ m. IsMisfit self.old.replica entries.now self.new.replica m.place m.why) }
        ensures put { self.new.put ≡ [] }
        ensures tokens { self.new.next ≡ self.old.next }
    {
        if self.reserve(entries.len()).is_err() {
            return Err(Misfit {
                place: 0,
                why: LedgerFault::NoMemory,
            });
        }
        self.replica.replay(entries)
    }

    /// Makes room for so many stages more, also while a put is under way. It fails only where there is no memory, and then
    /// all is as it was.
    pub fn grow(&mut self, alloc: Global, more: u16) -> Result<(), LedgerFault>
        requires place { has_place self.old.replica.plan.stages (self.old.replica.plan.room + more) ≡ true }
        ensures grown { OnOk result (self.new ≡ record self.old { replica = with_more self.old.replica more }) }
        ensures unchanged { OnErr result (self.new ≡ self.old) }
        ensures refused { IfErr result (λ fault. fault ≡ LedgerFault.NoMemory) }
    {
        self.replica.grow(alloc, more)
    }

    /// The outcome of a stage by all that was seen, if it is settled. It is recorded. It fails only where there is no
    /// memory, and then all is as it was.
    pub fn outcome(&mut self, stage: u16) -> Result<Option<Outcome>, AllocError>
        requires there { stage < stages_of self.old.replica }
        ensures told { IfOk result (λ outcome. outcome ≡ outcome_at (state_of self.old.replica) stage) }
        ensures recorded { IfOk result (λ outcome.
            self.new ≡ record self.old { replica = with_outcome self.old.replica stage outcome }) }
        ensures unchanged { OnErr result (self.new ≡ self.old) }
    {
        self.replica.outcome(stage)
    }
}

/// Writes these words with tokens that count from one on.
fn stamp(put: &mut Vec<Entry>, first: u64, words: &[u64])
    requires empty { put.old.items ≡ [] }
    requires room { length words.now ≤ vec_capacity put.old }
    requires few { first + length words.now < 4611686018427387905 }
    ensures items { put.new.items ≡ stamped first words.now }
    ensures kept { vec_capacity put.new ≡ vec_capacity put.old }
{
    let mut token = first;
    for word in words {
        put.push_reserved(Entry { word: *word, token });
        token += 1;
    }
}
