//! What each stage is, and which stages a call changed.
ghost use Rattle.std.specs.Prelude.{◌≡◌, ◌+◌, ◌<◌, ◌≤◌, IfNone, IfSome, List, None, length, position, true, vec_capacity};
ghost use Rattle.cf_model.specs.declared.stage.Stage.{Stage};
ghost use Rattle.cf_model.specs.Events.{answered, firing, next_limits, ticking};
ghost use Rattle.cf_model.specs.Graphs.{CountsTurns, MovesAlone, NoneLeftUpTo, NoneReady, WritesNews, moved_by, rank, stage_in};
ghost use Rattle.cf_model.specs.States.{claim_at, is_ready};
ghost use Rattle.cf_model.specs.Ranges.{EventFits};
ghost use Rattle.cf_core.specs.Keeping.Changes.{Drains, HasPlaces, TellOfMoved, TellOn, WriteOn};

use crate::graph::Graph;
use cf_bits::BitSet;
use cf_model::{Event, Reply, Stage, Ticked};

impl Graph {
    /// A stage's state.
    #[inline(always)]
    pub fn stage(&mut self, i: u16) -> Stage
        requires { i < length self.old.state.plan.stages }
        ensures told { result ≡ stage_in self.old.state.stages i }
        ensures unchanged { self.new.state ≡ self.old.state }
        ensures rests { NoneLeftUpTo i self.old.left → self.new ≡ self.old }
        ensures counted { CountsTurns self.old self.new }
    {
        self.stages.treat_up_to(&self.plan, i);
        self.stages.stage(i)
    }

    /// The caller whose claim of a stage is open, if there is one.
    #[inline(always)]
    pub fn claimant(&self, i: u16) -> Option<u8>
        requires { i < length self.now.state.plan.stages }
        ensures { result ≡ claim_at self.now.state i }
    {
        self.claims[i as usize]
    }

    /// The lowest ready stage from a number on, where no turn is left. It costs a look at each stage between.
    pub fn next_ready(&self, from: u16) -> Option<u16>
        requires worked_out { self.now.left ≡ None }
        ensures ready { IfSome result (λ i. is_ready (stage_in self.now.state.stages i) ≡ true) }
        ensures above { IfSome result (λ i. from ≤ i) }
        ensures there { IfSome result (λ i. i < length self.now.state.plan.stages) }
        ensures first { IfSome result (λ i. NoneReady from i self.now.state.stages) }
        ensures none { IfNone result (NoneReady from (length self.now.state.plan.stages) self.now.state.stages) }
    {
        let count = self.stages();
        self.stages.next_ready(from, count)
    }

    /// A stage's state, where no turn is left.
    #[inline(always)]
    #[tactic(auto, using(crate::proofs::Keeping::Changes::kept_all, crate::proofs::Keeping::Changes::kept_stage))]
    pub fn stage_now(&self, i: u16) -> Stage
        requires stage { i < length self.now.state.plan.stages }
        requires worked_out { self.now.left ≡ None }
        ensures { result ≡ stage_in self.now.state.stages i }
    {
        self.stages.stage(i)
    }

    /// Does an event as `answer` does, takes all turns that it makes due, and writes the stages that differ then behind
    /// those of a row, rising. Before, no turn is left. The row has a place for each stage that there may ever be.
    ///
    /// A tick uses a flag for each stage that there may ever be, of which none is set before and afterwards. Its limits
    /// may move one stage several times.
    ///
    /// It costs what the event and its turns cost, and some nanoseconds for each stage that differs. Like `answer`, it
    /// is inlined into its callers.
    #[inline(always)]
    pub fn answer_telling(&mut self, e: &Event, flags: &mut BitSet, news: &mut Vec<u16>) -> Reply
        requires fits { EventFits (length self.old.state.plan.stages) e.now }
        requires worked_out { self.old.left ≡ None }
        requires unset { position (λ b. b) flags.old ≡ None }
        requires flags { length flags.old ≡ length self.old.state.plan.stages + self.old.state.plan.room }
        requires places { length news.old.items + length flags.old ≤ vec_capacity news.old }
        ensures told { (result, self.new.state) ≡ answered self.old.state e.now }
        ensures news { WritesNews self.old.state.stages self.new.state.stages news.old.items news.new.items }
        ensures few { length news.new.items ≤ length news.old.items + length flags.old }
        ensures places { vec_capacity news.new ≡ vec_capacity news.old }
        ensures unset { position (λ b. b) flags.new ≡ None }
        ensures flags { length flags.new ≡ length flags.old }
        ensures worked_out { self.new.left ≡ None }
        ensures counted { CountsTurns self.old self.new }
    {
        // No turn is left, so what is kept is the state: a graph knows that where a field of it was read.
        let _ = &self.stages;
        match *e {
            Event::Claim { who, stage } => {
                let told = self.claim_telling(who, stage, news);
                Reply::Claim(told)
            }
            Event::Finish { who, stage, answer } => {
                let told = self.finish_telling(who, stage, answer, news);
                Reply::Finish(told)
            }
            Event::Tick { moment, .. } => {
                let told = self.tick_telling(moment, flags);
                drain(flags, news);
                Reply::Tick(told)
            }
            _ => {
                let d = self.moved_by(e);
                let before = self.rank(d);
                let reply = self.answer(e);
                self.write_moved(d, before, news);
                reply
            }
        }
    }

    /// The stage that an event itself moves. Of a tick, and of an attach, it is the number behind the last stage.
    #[inline(always)]
    fn moved_by(&self, e: &Event) -> u16
        ensures { result ≡ moved_by (length self.now.state.plan.stages) e.now }
    {
        match *e {
            Event::Complete { stage, .. }
            | Event::Fail { stage, .. }
            | Event::FailAs { stage, .. }
            | Event::Cancel { stage, .. }
            | Event::Claim { stage, .. }
            | Event::Finish { stage, .. } => stage,
            Event::Tick { .. } | Event::Attach { .. } => self.stages(),
        }
    }

    /// How far a stage has come, as it is kept. One that isn't there yet is pending.
    #[inline(always)]
    fn rank(&self, i: u16) -> u8
        ensures rank { result ≡ rank (stage_in self.now.kept i) }
        ensures there { 0 < result → i < length self.now.state.plan.stages }
    {
        if i < self.plan.stages() {
            self.stages.rank(&self.plan, i)
        } else {
            0
        }
    }

    /// Sets the flag of a stage that has moved on by itself, takes all turns that are left, and sets the flags of the stages
    /// that these move.
    #[inline(always)]
    fn note_moved(&mut self, d: u16, before: u8, changed: &mut BitSet)
        requires flags { length self.old.state.plan.stages ≤ length changed.old }
        ensures told { TellOfMoved d before self.old.kept changed.old self.new.kept changed.new }
        ensures worked_out { self.new.left ≡ None }
        ensures kept { self.new.kept ≡ self.new.state.stages }
        ensures unchanged { self.new.state ≡ self.old.state }
        ensures flags { length changed.new ≡ length changed.old }
        ensures counted { CountsTurns self.old self.new }
    {
        if self.rank(d) > before {
            changed.insert(d);
        }
        self.tell_rest(changed);
    }

    /// Takes all turns that are left, and sets the flags of the stages that they move.
    #[inline(always)]
    #[tactic(auto, using(crate::proofs::Keeping::Changes::kept_all))]
    fn tell_rest(&mut self, changed: &mut BitSet)
        requires flags { length self.old.state.plan.stages ≤ length changed.old }
        ensures told { TellOn self.old.kept changed.old self.new.kept changed.new }
        ensures worked_out { self.new.left ≡ None }
        ensures kept { self.new.kept ≡ self.new.state.stages }
        ensures unchanged { self.new.state ≡ self.old.state }
        ensures flags { length changed.new ≡ length changed.old }
        ensures counted { CountsTurns self.old self.new }
    {
        self.stages.tell_rest(&self.plan, changed);
    }

    /// Writes a stage behind those of a row, if it has moved on by itself, takes all turns that are left, and writes the
    /// stages that these move. They are above it.
    #[inline(always)]
    fn write_moved(&mut self, d: u16, before: u8, news: &mut Vec<u16>)
        requires above { NoneLeftUpTo d self.old.left }
        requires places { length news.old.items + length self.old.state.plan.stages ≤ vec_capacity news.old }
        ensures told { (old : List Stage) → MovesAlone d old self.old.kept → before ≡ rank (stage_in old d) →
            WritesNews old self.new.kept news.old.items news.new.items }
        ensures places { vec_capacity news.new ≡ vec_capacity news.old }
        ensures worked_out { self.new.left ≡ None }
        ensures kept { self.new.kept ≡ self.new.state.stages }
        ensures unchanged { self.new.state ≡ self.old.state }
        ensures counted { CountsTurns self.old self.new }
    {
        if self.rank(d) > before {
            news.push_reserved(d);
        }
        self.write_rest(news);
    }

    /// Takes all turns that are left, and writes the stages that they move behind those of a row.
    #[inline(always)]
    #[tactic(auto, using(crate::proofs::Keeping::Changes::kept_all))]
    fn write_rest(&mut self, news: &mut Vec<u16>)
        requires places { HasPlaces (length self.old.state.plan.stages) self.old.left
            (length news.old.items) (vec_capacity news.old) }
        ensures told { WriteOn self.old.kept self.old.left news.old.items self.new.kept self.new.left news.new.items }
        ensures places { vec_capacity news.new ≡ vec_capacity news.old }
        ensures worked_out { self.new.left ≡ None }
        ensures kept { self.new.kept ≡ self.new.state.stages }
        ensures unchanged { self.new.state ≡ self.old.state }
        ensures counted { CountsTurns self.old self.new }
    {
        self.stages.write_rest(&self.plan, news);
    }

    /// Lets time pass as `tick` does. After each limit all turns are taken that it makes due.
    fn tick_telling(&mut self, now: u32, changed: &mut BitSet) -> Ticked
        requires worked_out { self.old.left ≡ None }
        requires kept { self.old.kept ≡ self.old.state.stages }
        requires flags { length self.old.state.plan.stages ≤ length changed.old }
        ensures told { (result, self.new.state) ≡ ticking self.old.state now }
        ensures moved { TellOn self.old.kept changed.old self.new.kept changed.new }
        ensures worked_out { self.new.left ≡ None }
        ensures kept { self.new.kept ≡ self.new.state.stages }
        ensures flags { length changed.new ≡ length changed.old }
        ensures counted { CountsTurns self.old self.new }
    {
        if now < self.moment {
            return Ticked::Past;
        }
        let count = self.due(now);
        let fired = self.fire_telling(count, changed);
        self.advance(now, count);
        Ticked::Fired(fired)
    }

    /// Fires this many limits, from the first unused one on, and says how many settled their stage.
    fn fire_telling(&mut self, count: usize, changed: &mut BitSet) -> u16
        requires due { self.old.state.used + count ≤ length self.old.state.plan.limits }
        requires worked_out { self.old.left ≡ None }
        requires kept { self.old.kept ≡ self.old.state.stages }
        requires flags { length self.old.state.plan.stages ≤ length changed.old }
        ensures fired { (result, self.new.state) ≡ firing 0 self.old.state (next_limits count self.old.state) }
        ensures moved { TellOn self.old.kept changed.old self.new.kept changed.new }
        ensures worked_out { self.new.left ≡ None }
        ensures kept { self.new.kept ≡ self.new.state.stages }
        ensures flags { length changed.new ≡ length changed.old }
        ensures counted { self.old.turns ≤ self.new.turns }
        ensures plan { self.new.state.plan ≡ self.old.state.plan }
        ensures used { self.new.state.used ≡ self.old.state.used }
    {
        let mut fired = 0;
        for k in 0..count {
            let limit = self.unused(k);
            let before = self.rank(limit.stage);
            if self.fire(limit) {
                fired += 1;
            }
            self.note_moved(limit.stage, before, changed);
        }
        fired
    }
}

/// Writes the stages whose flags are set behind those of a row, rising, and takes the flags down.
fn drain(flags: &mut BitSet, news: &mut Vec<u16>)
    requires { length news.old.items + length flags.old ≤ vec_capacity news.old }
    ensures drained { Drains flags.old news.old.items news.new.items }
    ensures down { position (λ b. b) flags.new ≡ None }
    ensures flags { length flags.new ≡ length flags.old }
    ensures places { vec_capacity news.new ≡ vec_capacity news.old }
{
    while let Some(i) = flags.lowest() {
        flags.remove(i);
        news.push_reserved(i);
    }
}
