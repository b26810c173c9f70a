//! What a caller is given to do, as C has it: a stage that it has claimed, and what the stage's function answered.
ghost use Rattle.std.specs.Prelude.{◌≡◌};
ghost use Rattle.cf_c_handles.specs.Tasks.{finished_as, held_by, holding, number_or_none};

use crate::code::Code;
use crate::values::{CfAnswer, CfArgs, answer_of, finish_number, put_args};
use cf_forms::Args;
use cf_ledger::Held;
use cf_model::Finished;

/// What a caller holds: nothing (`held` is 0), or a stage with the number and the arguments of its function, and a place for the
/// function's answer. `finished` tells how the last finish went: won (0), also if nothing was held, or late (1).
#[repr(C)]
#[derive(Clone, Copy)]
pub struct CfTask {
    pub held: u32,
    pub stage: u16,
    pub function: u16,
    pub args: CfArgs,
    pub answer: CfAnswer,
    pub finished: u32,
}

impl CfTask {
    /// Gives it a stage, which is written part by part.
    #[inline(always)]
    pub(crate) fn give(&mut self, stage: u16, function: Option<u16>, args: Args)
        ensures { self.new ≡ holding self.old stage function args }
    {
        self.held = 1;
        self.stage = stage;
        self.function = number_or_none(function);
        put_args(&mut self.args, args);
    }
}

/// A step of a ledger. C says who takes it, and from which stage on. It is told the place of the first word that was written, the
/// word of the finish and the word of the claim, each 0 if there is none.
#[repr(C)]
#[derive(Clone, Copy)]
pub struct CfStep {
    pub who: u8,
    pub from: u16,
    pub place: usize,
    pub finish: u64,
    pub claim: u64,
}

/// The stage that a task holds, if it holds one.
#[inline(always)]
pub(crate) fn held_by(task: &CfTask) -> Option<Held>
    ensures { result ≡ held_by task.now }
{
    if task.held == 0 {
        return None;
    }
    Some(Held {
        stage: task.stage,
        answer: answer_of(task.answer),
    })
}

/// What a finish was answered, or that the caller hasn't claimed the stage.
#[inline(always)]
pub(crate) fn finished_as(finished: Finished) -> Result<u32, Code>
    ensures { result ≡ finished_as finished }
{
    match finished {
        Finished::Won | Finished::Late => Ok(finish_number(finished)),
        Finished::NotYours => Err(Code::NotHeld),
    }
}

/// The number of a function, of which a ready stage has one.
#[inline(always)]
fn number_or_none(function: Option<u16>) -> u16
    ensures { result ≡ number_or_none function }
{
    match function {
        Some(number) => number,
        None => 0,
    }
}
