//! What a session has replayed of a row, and what it was answered.
ghost use Rattle.std.specs.Prelude.{◌≡◌, ◌≢◌, ◌+◌, ◌<◌, ◌≤◌, ◌∷◌, ◌++◌, [], All, Contains, IfErr, IfNone, IfOk, IfSome, None, OnErr, OnOk, Some, cond, length, map, take, true, vec_capacity};
ghost use Rattle.cf_forms.specs.Plans.{has_place, with_room};
ghost use Rattle.cf_model.specs.States.{claim_at, outcome_at, start};
ghost use Rattle.cf_event.specs.Words.{word_of};
ghost use Rattle.cf_ledger.specs.Ledgers.{AreTaken, LedgerRefuses};
ghost use Rattle.cf_row.specs.Grants.{IsGrantedTo, IsHeldBy, NoneHeldBy, NoneOpen};
ghost use Rattle.cf_row.specs.Numbers.{FollowsRule};
ghost use Rattle.cf_row.specs.Puts.{IsPutOrNone, pairs_of};
ghost use Rattle.cf_row.specs.Abandoning.{Abandons};
ghost use Rattle.cf_row.specs.Next.{CanClaim, Finishes, HasNoClaim, NoneToClaim};
ghost use Rattle.cf_row.specs.Rows.{FitsEachRow, IsMisfit, Replays, Takes, history_of, ledger_of, session_of, stages_of, state_of, with_memory, with_more, with_outcome, words_in};

use crate::entry::Entry;
use crate::grants::{Claim, has, held_in, note_claim, open_in, whose};
use crate::next::next_in;
use crate::numbers::{number_in, number_of};
use crate::places::make_room;
use crate::plans::{follow, grown};
use cf_event::{Record, decode, encode};
use cf_ledger::{Held, Ledger, LedgerFault, Misfit, Reply};
use cf_model::{Ask, Event, Told};
use cf_outcome::Outcome;
use cf_plan::{GrowingPlan, Plan};
use std::alloc::{AllocError, Global};
use std::marker::Model;
use std::mem;

/// For more entries than these no machine has memory.
const MOST_ENTRIES: usize = 1 << 51;

/// The entries of a row that a session has replayed, from the first on, the graph that they leave, and the session's
/// records.
///
/// A contract also sees for how many entries more memory was found.
#[derive(Drop)]
pub struct Replica {
    opening: Plan,
    room: u16,
    ledger: Ledger,
    grown: GrowingPlan,
    seen: Vec<Entry>,
    records: Vec<Record>,
    claims: Vec<Claim>,
    session: u64,
    free: usize,
}

impl Model for Replica {
    ghost use Rattle.cf_row.specs.Rows.{Replica};

    ghost Value = { Replica };

    ghost use Rattle.cf_row.specs.Grants.{HasClaims};
    ghost use Rattle.cf_row.specs.Plans.{IsGrown};
    ghost use Rattle.cf_row.specs.Rows.{HasMemory, IsKept};

    ghost view = { λ r. record {
      plan = r.ledger.plan;
      session = r.session;
      seen = r.seen.items;
      records = r.records.items;
      free = r.free;
    } };

    ghost invariant = { λ r. record {
      kept : IsKept r.ledger r.session r.seen.items r.records.items;
      memory : HasMemory r.free r.ledger r.seen r.records;
      claims : HasClaims r.ledger.plan r.seen.items r.free r.claims;
      grown : IsGrown r.opening r.room r.ledger r.grown;
    } };
}

impl Replica {
    /// Of a request's row, of which nothing was read yet. It fails only where there is no memory.
    pub(crate) fn new(
        alloc: Global,
        plan: &Plan,
        room: u16,
        session: u64,
    ) -> Result<Replica, AllocError>
        requires place { has_place plan.now.stages room ≡ true }
        ensures { IfOk result (λ r.
            r ≡ record { plan = with_room plan.now room; session = session; seen = []; records = []; free = 0 }) }
    {
        let opening = plan.share()?;
        let grown = GrowingPlan::new(alloc, plan.share()?, room)?;
        // (last, since a way out at which a ledger is dropped is dear to prove)
        let ledger = Ledger::new(alloc, plan, room)?;
        Ok(Replica {
            opening,
            room,
            ledger,
            grown,
            seen: Vec::new(alloc),
            records: Vec::new(alloc),
            claims: Vec::new(alloc),
            session,
            free: 0,
        })
    }

    /// The session's records: whatever the row is, they fit it if all is true of it that the session was told.
    pub fn records(&self) -> &[Record]
        ensures are { result.now ≡ self.now.records }
        ensures fit { FitsEachRow self.now }
    {
        self.records.as_slice()
    }

    /// What was replayed.
    pub fn seen(&self) -> &[Entry]
        ensures { result.now ≡ self.now.seen }
    {
        self.seen.as_slice()
    }

    /// The session.
    pub fn session(&self) -> u64
        ensures { result ≡ self.now.session }
    {
        self.session
    }

    /// The graph that all that was seen leaves, with its words and their news. What is asked of it isn't recorded.
    pub fn ledger(&self) -> &Ledger
        ensures ledger { result.now ≡ ledger_of self.now }
        ensures named { words_in self.now.seen ≡ map word_of (history_of self.now.seen) }
        ensures taken { AreTaken (start self.now.plan) (history_of self.now.seen) }
    {
        &self.ledger
    }

    /// The session's number: that of its first entry; or the lowest that no entry has; or where all are taken, the one
    /// that it shares with others, which is the session's number modulo 64. It costs a look at each entry, and up to 64
    /// where the session has put nothing.
    pub fn number(&self) -> u8
        ensures { FollowsRule (pairs_of self.now.seen) (self.now.session, result) }
    {
        number_in(&self.seen, self.session)
    }

    /// The number of a session that has put something, such as one that is gone.
    pub fn number_of(&self, session: u64) -> Option<u8>
        ensures there { IfSome result (λ who. Contains (pairs_of self.now.seen) (session, who)) }
        ensures none { IfNone result (All (λ x. session_of x.token ≢ session) self.now.seen) }
    {
        number_of(&self.seen, session)
    }

    /// The lowest stage from a number on whose claim is open, with the session to which it was granted. It costs a look
    /// at each stage between, and at each claim that was granted.
    pub fn open_claim(&self, from: u16) -> Option<Claim>
        ensures whose { IfSome result (λ c. IsGrantedTo self.now c.session c.stage) }
        ensures claimed { IfSome result (λ c. claim_at (state_of self.now) c.stage ≢ None) }
        ensures there { IfSome result (λ c. c.stage < stages_of self.now) }
        ensures above { IfSome result (λ c. from ≤ c.stage) }
        ensures first { IfSome result (λ c. NoneOpen from c.stage (state_of self.now)) }
        ensures none { IfNone result (NoneOpen from (stages_of self.now) (state_of self.now)) }
    {
        let stage = open_in(&self.ledger, from)?;
        let Some(session) = whose(&self.claims, stage) else {
            unreachable!();
        };
        Some(Claim { stage, session })
    }

    /// The lowest stage from a number on that a session has: its claim was granted to the session and is open, and it
    /// isn't settled. It costs a look at each stage between, and at each claim that was granted for each of them whose
    /// claim is open.
    pub fn held(&self, session: u64, from: u16) -> Option<u16>
        ensures held { IfSome result (λ i. IsHeldBy self.now session i) }
        ensures there { IfSome result (λ i. i < stages_of self.now) }
        ensures few { IfSome result (λ i. i ≤ 4095) }
        ensures above { IfSome result (λ i. from ≤ i) }
        ensures first { IfSome result (λ i. NoneHeldBy self.now session from i) }
        ensures none { IfNone result (NoneHeldBy self.now session from (stages_of self.now)) }
    {
        held_in(&self.ledger, &self.claims, session, from)
    }

    /// The word that fails the lowest stage from a number on that a session has: what is put where that session is gone.
    /// The graph takes it behind all that was seen, and it fails the stage there with this code.
    pub fn abandon(&self, session: u64, from: u16, code: u32) -> Option<u64>
        ensures fails { IfSome result (λ w. Abandons self.now session from code w) }
        ensures none { IfNone result (NoneHeldBy self.now session from (stages_of self.now)) }
    {
        let stage = self.held(session, from)?;
        let who = self.number();
        Some(encode(&Event::Fail { who, stage, code }))
    }

    /// The word that finishes a stage of this session's with what its function came to: what is put where that has
    /// ended. It is none where the stage wasn't granted to the session, or its claim isn't open any more. Where the stage
    /// was settled since, the finish is late, and only closes the claim. It costs what `number` costs, and a look at each
    /// claim that was granted.
    pub fn finish(&self, held: Held) -> Option<u64>
        ensures word { IfSome result (λ w. Finishes self.now held w) }
        ensures none { IfNone result (HasNoClaim self.now held.stage) }
    {
        let who = self.number();
        let ledger = self.ledger();
        if held.stage >= ledger.stages() || ledger.claimant(held.stage) != Some(who) {
            return None;
        }
        let (stage, session) = (held.stage, self.session);
        if !has(&self.claims, Claim { stage, session }) {
            return None;
        }
        let answer = held.answer;
        Some(encode(&Event::Finish { who, stage, answer }))
    }

    /// The lowest stage from a number on that this session could claim next: one that is ready, or where a stage of its
    /// own has ended, one that is ready once that is finished. The latter isn't ready yet, and has that stage as its only
    /// source. Its claim is granted where it stands right behind the finish. It costs a
    /// look at each stage between, and at each claim that was granted.
    pub fn next_claim(&self, ended: Option<Held>, from: u16) -> Option<u16>
        ensures can { IfSome result (λ i. CanClaim self.now ended i) }
        ensures there { IfSome result (λ i. i < stages_of self.now) }
        ensures above { IfSome result (λ i. from ≤ i) }
        ensures first { IfSome result (λ i. NoneToClaim self.now ended from i) }
        ensures none { IfNone result (NoneToClaim self.now ended from (stages_of self.now)) }
    {
        next_in(
            &self.grown,
            &self.ledger,
            &self.claims,
            self.session,
            ended,
            from,
        )
    }

    /// Finds memory for so many entries more. It fails only where there is no memory, and then changes nothing.
    pub(crate) fn reserve(&mut self, more: usize) -> Result<(), AllocError>
        ensures found { OnOk result (self.new ≡ with_memory self.old more) }
        ensures refused { OnErr result (self.new ≡ self.old) }
        ensures short { OnErr result (self.old.free < more) }
    {
        if more <= self.free {
            return Ok(());
        }
        // No machine has memory for more.
        if more > MOST_ENTRIES {
            return Err(AllocError);
        }
        make_room(&mut self.seen, more)?;
        make_room(&mut self.records, more)?;
        make_room(&mut self.claims, more)?;
        self.ledger.reserve(more)?;
        self.free = more;
        Ok(())
    }

    /// Replays one entry, for which memory was found. Where the graph doesn't take it, all stays as it was.
    #[inline(always)]
    pub(crate) fn take(&mut self, entry: Entry) -> Result<Reply, LedgerFault>
        requires memory { 0 < self.old.free }
        ensures done { IfOk result (λ reply. Takes self.old entry reply self.new) }
        ensures refused { OnErr result (self.new ≡ self.old) }
        ensures why { IfErr result (λ fault. LedgerRefuses (state_of self.old) entry.word fault) }
        ensures found { IfErr result (λ fault. fault ≢ LedgerFault.NoMemory) }
    {
        let Some(event) = decode(entry.word) else {
            return Err(LedgerFault::NoEvent);
        };
        let place = self.seen.len() + 1;
        let reply = self.ledger.apply(entry.word)?;
        follow(&mut self.grown, &event);
        self.free -= 1;
        self.seen.push_reserved(entry);
        note_claim(&mut self.claims, &event, &reply, entry.session());
        let is_own = entry.is_of(self.session);
        note(
            &mut self.records,
            is_own,
            Record::Did {
                place,
                event,
                reply,
            },
        );
        Ok(reply)
    }

    /// Replays entries for which memory was found, up to the first that the graph doesn't take, which is told.
    pub(crate) fn replay(&mut self, entries: &[Entry]) -> Result<(), Misfit>
        requires memory { length entries.now ≤ self.old.free }
        ensures all { OnOk result (Replays self.old entries.now self.new) }
        ensures front { IfErr result (λ m. Replays self.old (take m.place entries.now) self.new) }
        ensures there { IfErr result (λ m. m.place < length entries.now) }
        ensures why { IfErr result (λ m. IsMisfit self.old entries.now self.new m.place m.why) }
        ensures session { self.new.session ≡ self.old.session }
        ensures less { self.new.free ≤ self.old.free }
    {
        for (place, entry) in entries.iter().enumerate() {
            match self.take(*entry) {
                Ok(_) => {}
                Err(why) => return Err(Misfit { place, why }),
            }
        }
        Ok(())
    }

    /// Replays a put that stands, for which memory was found: this can't fail.
    pub(crate) fn replay_own(&mut self, put: &[Entry])
        requires memory { length put.now ≤ self.old.free }
        requires own { IsPutOrNone self.old put.now }
        ensures all { Replays self.old put.now self.new }
        ensures less { self.new.free ≤ self.old.free }
    {
        // No field is read here, and only so it is known that what was seen are words.
        let _ = &self.ledger;
        let Ok(()) = self.replay(put) else {
            unreachable!();
        };
    }

    /// Makes room for so many stages more. It fails only where there is no memory, and then all is as it was.
    #[tactic(auto, using(cf_forms::proofs::PlanLemmas::place_is))]
    pub(crate) fn grow(&mut self, alloc: Global, more: u16) -> Result<(), LedgerFault>
        requires place { has_place self.old.plan.stages (self.old.plan.room + more) ≡ true }
        ensures grown { OnOk result (self.new ≡ with_more self.old more) }
        ensures unchanged { OnErr result (self.new ≡ self.old) }
        ensures refused { IfErr result (λ fault. fault ≡ LedgerFault.NoMemory) }
    {
        let room = self.room + more;
        let grown = grown(alloc, &self.opening, room, self.ledger.words())?;
        self.ledger.grow(alloc, more)?;
        drop(mem::replace(&mut self.grown, grown));
        self.room = room;
        Ok(())
    }

    /// The outcome of a stage by all that was seen, if it is settled. It is recorded. It fails only where there is no
    /// memory, and then all is as it was.
    pub(crate) fn outcome(&mut self, stage: u16) -> Result<Option<Outcome>, AllocError>
        requires there { stage < stages_of self.old }
        ensures told { IfOk result (λ outcome. outcome ≡ outcome_at (state_of self.old) stage) }
        ensures recorded { IfOk result (λ outcome. self.new ≡ with_outcome self.old stage outcome) }
        ensures unchanged { OnErr result (self.new ≡ self.old) }
    {
        make_room(&mut self.records, self.free + 1)?;
        let outcome = self.ledger.outcome(stage);
        self.records.push_reserved(Record::Saw {
            place: self.seen.len(),
            ask: Ask::Outcome(stage),
            told: Told::Outcome(outcome),
        });
        Ok(outcome)
    }
}

/// Keeps a record, if it is the session's.
fn note(records: &mut Vec<Record>, is_own: bool, told: Record)
    requires { length records.old.items < vec_capacity records.old }
    ensures items { records.new.items ≡ records.old.items ++ cond is_own (told ∷ []) [] }
    ensures kept { vec_capacity records.new ≡ vec_capacity records.old }
{
    if is_own {
        records.push_reserved(told);
    }
}
