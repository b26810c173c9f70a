//! Any call, as an event that is answered or a question that is told.
ghost use Rattle.std.specs.Prelude.{◌≡◌, ◌↔◌, IsTrue, length};
ghost use Rattle.cf_model.specs.Events.{answered, told};
ghost use Rattle.cf_model.specs.Graphs.{CountsTurns, MovesOwn, NoneLeftUpTo, Rests, asked_stage};
ghost use Rattle.cf_model.specs.Ranges.{AskFits, EventFits};

use crate::graph::Graph;
use cf_model::{Ask, Event, Reply, Told};

impl Graph {
    /// Does an event, and gives its reply. The stages that it names are there, and a stage that it attaches fits its
    /// form.
    ///
    /// It is inlined into its callers, which often know the kind of the event.
    #[inline(always)]
    pub fn answer(&mut self, e: &Event) -> Reply
        requires { EventFits (length self.old.state.plan.stages) e.now }
        ensures told { (result, self.new.state) ≡ answered self.old.state e.now }
        ensures rests { Rests e.now self.old self.new }
        ensures alone { MovesOwn e.now self.old self.new }
        ensures counted { CountsTurns self.old self.new }
    {
        match *e {
            Event::Complete { stage, value, .. } => Reply::Flag(self.complete(stage, value)),
            Event::Fail { stage, code, .. } => Reply::Flag(self.fail(stage, code)),
            Event::FailAs { stage, failure, .. } => Reply::Flag(self.fail_as(stage, failure)),
            Event::Cancel { stage, .. } => Reply::Flag(self.cancel(stage)),
            Event::Claim { who, stage } => Reply::Claim(self.claim(who, stage)),
            Event::Finish { who, stage, answer } => Reply::Finish(self.finish(who, stage, answer)),
            Event::Tick { moment, .. } => Reply::Tick(self.tick(moment)),
            Event::Attach {
                form,
                of,
                function,
                ..
            } => { Reply::Attach(self.attach(form, of, function)) }
        }
    }

    /// Whether the graph takes an event: the stages that the event names are there, and a stage that it attaches fits its
    /// form.
    #[inline(always)]
    pub fn takes(&self, e: &Event) -> bool
        ensures { IsTrue result ↔ EventFits (length self.now.state.plan.stages) e.now }
    {
        e.fits(self.stages())
    }

    /// Answers a question about a stage of the plan.
    pub fn tell(&mut self, a: Ask) -> Told
        requires { AskFits (length self.old.state.plan.stages) a }
        ensures told { result ≡ told self.old.state a }
        ensures unchanged { self.new.state ≡ self.old.state }
        ensures rests { NoneLeftUpTo (asked_stage a) self.old.left → self.new ≡ self.old }
        ensures counted { CountsTurns self.old self.new }
    {
        match a {
            Ask::Now(i, absent) => Told::Now(self.now(i, absent)),
            Ask::Outcome(i) => Told::Outcome(self.outcome(i)),
        }
    }
}
