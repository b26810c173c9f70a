//! The answer to an event.
ghost use Rattle.std.specs.Prelude.{◌≡◌, IfOk, length};
ghost use Rattle.cf_model.specs.Events.{answered};
ghost use Rattle.cf_model.specs.Ranges.{EventFits};

use crate::graph::ReferenceGraph;
use crate::graph::changes::raw;
use cf_model::{Event, Reply};
use cf_outcome::{Cause, Outcome};
use std::alloc::{AllocError, Global};

impl ReferenceGraph {
    /// Does an event, and gives its reply. The stages that it names are there, and a stage that it attaches fits its form. It
    /// fails only where there is no memory.
    pub fn answer(&mut self, alloc: Global, event: &Event) -> Result<Reply, AllocError>
        requires { EventFits (length self.old.plan.stages) event.now }
        ensures { IfOk result (λ reply. (reply, self.new) ≡ answered self.old event.now) }
    {
        match *event {
            Event::Complete { stage, value, .. } => {
                let done = self.settle(alloc, stage, Outcome::Value(value))?;
                Ok(Reply::Flag(done))
            }
            Event::Fail { stage, code, .. } => {
                let done = self.settle(alloc, stage, raw(Cause::Thrown(code)))?;
                Ok(Reply::Flag(done))
            }
            Event::FailAs { stage, failure, .. } => {
                let done = self.settle(alloc, stage, raw(failure.cause()))?;
                Ok(Reply::Flag(done))
            }
            Event::Cancel { stage, .. } => {
                let done = self.cancel(alloc, stage)?;
                Ok(Reply::Flag(done))
            }
            Event::Claim { who, stage } => Ok(Reply::Claim(self.claim(who, stage))),
            Event::Finish { who, stage, answer } => {
                let done = self.finish(alloc, who, stage, answer)?;
                Ok(Reply::Finish(done))
            }
            Event::Tick { moment, .. } => {
                let done = self.tick(alloc, moment)?;
                Ok(Reply::Tick(done))
            }
            Event::Attach {
                form,
                of,
                function,
                ..
            } => {
                let done = self.attach(alloc, form, of, function)?;
                Ok(Reply::Attach(done))
            }
        }
    }
}
