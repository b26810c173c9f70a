//! One step of a caller of a desk: it finishes what it holds, and takes the lowest ready stage.
ghost use Rattle.std.specs.Prelude.{◌≡◌};
ghost use Rattle.std.specs.Arc.{arc_value};
ghost use Rattle.cf_c_handles.specs.DeskTasks.{DeskTakes, Finishes, StepsCaller, StepsDesk, reply_number};
ghost use Rattle.cf_c_handles.specs.Desks.{IsSameCaller};

use crate::code::{Code, desk_code};
use crate::handle::object::{Caller, Object};
use crate::values::finish_number;
use crate::values::task::{CfTask, held_by};
use cf_desk::Call;
use cf_ledger::Held;
use cf_model::{Claimed, Reply};

/// Finishes what a task holds, and gives it the lowest ready stage.
#[inline(always)]
pub fn step(held: &mut Object, task: &mut CfTask) -> Result<(), Code>
    ensures { StepsCaller task.old task.new held.old result held.new }
{
    let Object::Caller(caller) = held else {
        return Err(Code::WrongKind);
    };
    caller.step(task)
}

impl Caller {
    #[inline(always)]
    pub fn step(&mut self, task: &mut CfTask) -> Result<(), Code>
        ensures same { IsSameCaller self.old self.new }
        ensures steps { StepsDesk task.old task.new self.old result self.new }
    {
        match self.finish(held_by(task)) {
            Ok(finished) => {
                task.finished = finished;
                self.take(task)
            }
            Err(code) => Err(code),
        }
    }

    /// Finishes what is held, if anything is. Nothing is added where the claim of it isn't the caller's.
    #[inline(always)]
    #[tactic(auto, using(crate::proofs::DeskSteps::held_finished))]
    fn finish(&mut self, held: Option<Held>) -> Result<u32, Code>
        ensures same { IsSameCaller self.old self.new }
        ensures finishes { Finishes (arc_value self.old.desk) held self.old.pass result self.new.pass }
    {
        let Some(Held { stage, answer }) = held else {
            return Ok(0);
        };
        if !self.pass.has(stage) {
            return Err(Code::NoStage);
        }
        if !self.pass.holds(stage) {
            return Err(Code::NotHeld);
        }
        match self.desk.act(&mut self.pass, Call::Finish(stage, answer)) {
            Ok(reply) => Ok(reply_number(reply)),
            Err(fault) => Err(desk_code(fault)),
        }
    }

    /// Looks once, claims the lowest ready stage, and gives it to the task.
    #[inline(always)]
    fn take(&mut self, task: &mut CfTask) -> Result<(), Code>
        ensures same { IsSameCaller self.old self.new }
        ensures takes { DeskTakes (arc_value self.old.desk) self.old.pass task.old result task.new self.new.pass }
    {
        let Some(stage) = self.desk.ready(&mut self.pass) else {
            task.held = 0;
            return Err(Code::Nothing);
        };
        let function = self.pass.function(stage);
        match self.desk.act(&mut self.pass, Call::Claim(stage)) {
            Ok(Reply::Claim(Claimed::Granted(args))) => {
                task.give(stage, function, args);
                Ok(())
            }
            Ok(_) => {
                task.held = 0;
                Err(Code::Lost)
            }
            Err(fault) => {
                task.held = 0;
                Err(desk_code(fault))
            }
        }
    }
}

/// How a finish of a held stage went.
#[inline(always)]
fn reply_number(reply: Reply) -> u32
    ensures { result ≡ reply_number reply }
{
    match reply {
        Reply::Finish(finished) => finish_number(finished),
        _ => 0,
    }
}
