//! The calls that look, and the one by which two passes tell each other what they have seen.
ghost use Rattle.std.specs.Prelude.{◌≡◌, ◌<◌, ◌≤◌, IfErr, IfOk, IfSome};
ghost use Rattle.cf_model.specs.declared.asks.Ask.TheVariants.{Outcome as AsksOutcome};
ghost use Rattle.cf_model.specs.declared.calls.Call.TheVariants.{Claim};
ghost use Rattle.cf_desk.specs.Faults.{KnowsStages};
ghost use Rattle.cf_desk.specs.Results.{RefusesToTell, DeskTells, TellsJoined};
ghost use Rattle.cf_desk.specs.Views.{Follows, IsAt, IsSamePass, LooksFor, LooksOnce, Meets, place_in, ready_in, stages_in};

use crate::calls::Joined;
use crate::desk::Desk;
use crate::faults::DeskFault;
use crate::pass::Pass;
use cf_model::{Ask, Told};

impl Desk {
    /// Answers a question about the graph after all events that are there: it loads the next word until it finds an empty
    /// one, or the end of the row. It adds a record to the pass, which is one of this desk's, and no event. If the pass
    /// doesn't know the stage, it looks once before.
    pub fn read(&self, p: &mut Pass, a: Ask) -> Result<Told, DeskFault>
        requires { IsAt self.now p.old }
        ensures same { IsSamePass p.old p.new }
        ensures told { IfOk result (λ told. DeskTells self.now p.old a told p.new) }
        ensures refused { IfErr result (RefusesToTell self.now p.old a p.new) }
    {
        let known = p.knows(a);
        self.learn(p, known);
        if !p.knows(a) {
            return Err(DeskFault::NoStage);
        }
        if p.left() == 0 {
            return Err(DeskFault::PassFull);
        }
        self.catch_others(p);
        Ok(p.tell(a))
    }

    /// Looks for the outcome of a stage (`CompletableFuture.join`): up to `looks` times, at least once, until a look finds
    /// the stage settled. The last look is recorded as a question for the outcome. If the pass doesn't know the stage, it
    /// looks once before.
    pub fn join(&self, p: &mut Pass, stage: u16, looks: u32) -> Result<Joined, DeskFault>
        requires table { IsAt self.now p.old }
        requires looks { 0 < looks }
        ensures same { IsSamePass p.old p.new }
        ensures told { IfOk result (λ answer. TellsJoined self.now stage looks p.old answer p.new) }
        ensures refused { IfErr result (RefusesToTell self.now p.old (AsksOutcome stage) p.new) }
    {
        let known = p.knows(Ask::Outcome(stage));
        self.learn(p, known);
        if !p.knows(Ask::Outcome(stage)) {
            return Err(DeskFault::NoStage);
        }
        if p.left() == 0 {
            return Err(DeskFault::PassFull);
        }
        self.look_for(p, stage, looks);
        Ok(p.tell_joined(stage))
    }

    /// The lowest ready stage of all events that are there. It adds neither an event nor a record.
    pub fn ready(&self, p: &mut Pass) -> Option<u16>
        requires { IsAt self.now p.old }
        ensures seen { Follows p.old p.new }
        ensures told { result ≡ ready_in p.new }
        ensures there { IfSome result (λ stage. KnowsStages p.new (Claim stage)) }
        ensures looks { LooksOnce self.now p.old p.new }
    {
        self.catch_others(p);
        p.lowest_ready()
    }

    /// Lets two passes of this desk see the longer of their two lists of events.
    pub fn meet(&self, p: &mut Pass, q: &mut Pass)
        requires table { IsAt self.now p.old × IsAt self.now q.old }
        ensures same { IsSamePass p.old p.new × IsSamePass q.old q.new }
        ensures level { Meets p.old q.old p.new q.new }
    {
        self.level(&mut p.seat, &mut q.seat);
        let to = p.count.max(q.count);
        self.catch_up(&mut p.seat, &mut p.replica, p.count, to);
        p.count = to;
        self.catch_up(&mut q.seat, &mut q.replica, q.count, to);
        q.count = to;
    }

    /// Looks until it finds the stage settled, at most so many times.
    fn look_for(&self, p: &mut Pass, stage: u16, looks: u32)
        requires table { IsAt self.now p.old }
        requires stage { stage < stages_in p.old }
        requires looks { 0 < looks }
        ensures seen { Follows p.old p.new }
        ensures looks { LooksFor self.now stage looks p.old p.new }
    {
        'looks: for _ in 0..looks {
            self.catch_others(p);
            if p.outcome(stage).is_some() {
                return;
            }
        }
    }

    /// One look: loads the next word until it finds it empty, or the row at its end.
    pub(crate) fn catch_others(&self, p: &mut Pass)
        requires { IsAt self.now p.old }
        ensures seen { Follows p.old p.new }
        ensures few { place_in p.new ≤ self.now.words }
        ensures looks { LooksOnce self.now p.old p.new }
    {
        let words = self.words();
        'next: while p.seen() < words {
            if !self.look(p) {
                break 'next;
            }
        }
    }
}
