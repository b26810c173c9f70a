//! One step of a caller of a ledger: it finishes what it holds, and takes the next ready stage.
ghost use Rattle.std.specs.Prelude.{◌≡◌, ◌<◌, IfSome, length};
ghost use Rattle.cf_c_handles.specs.LedgerSteps.{FinishNews, StepsLedger, claim_word, finish_word, late_number, step_code, taken_code, task_with};

use crate::code::Code;
use crate::handle::object::Object;
use crate::ledger::telling::give_news;
use crate::values::finish_number;
use crate::values::stage::CfNews;
use crate::values::task::{CfStep, CfTask, held_by};
use cf_ledger::{Finish, Ledger, StepFault, Taken};
use cf_model::Finished;

/// Finishes what a task holds, and gives it the next ready stage. The words go into the step. The stages that the finish changed
/// are written as far as the buffer reaches, and so is how many they are.
#[tactic(auto, using(crate::proofs::LedgerSteps::steps_longer))]
pub fn step(
    held: &mut Object,
    step: &mut CfStep,
    task: &mut CfTask,
    news: &mut [CfNews],
    n: &mut usize,
) -> Result<(), Code>
    ensures { StepsLedger held.old (step.old, task.old, news.old, n.old) result
        held.new (step.new, task.new, news.new, n.new) }
{
    let Object::Ledger(ledger) = held else {
        return Err(Code::WrongKind);
    };
    let place = ledger.len();
    match ledger.step(step.who, held_by(task), step.from) {
        Err(fault) => Err(step_code(fault)),
        Ok(done) => {
            task.finished = late_number(done.finish);
            let told = take(task, done.taken);
            step.place = place;
            step.finish = finish_word(done.finish);
            step.claim = claim_word(done.taken);
            *n = finish_news(ledger, place, done.finish, news);
            told
        }
    }
}

/// The code of the fault for which a step isn't done.
#[inline(always)]
pub(crate) fn step_code(fault: StepFault) -> Code
    ensures { result ≡ step_code fault }
{
    match fault {
        StepFault::NoMemory => Code::NoMemory,
        StepFault::NoCaller => Code::NoWord,
        StepFault::NoStage => Code::NoStage,
        StepFault::NotHeld => Code::NotHeld,
    }
}

/// The stages that a finish changed go out as far as the buffer reaches. It tells how many they are.
fn finish_news(ledger: &Ledger, place: usize, finish: Option<Finish>, news: &mut [CfNews]) -> usize
    requires { IfSome finish (λ f. place < length ledger.now.events) }
    ensures { FinishNews ledger.now place finish news.old news.new result }
{
    match finish {
        None => 0,
        Some(_) => give_news(ledger, place, news),
    }
}

fn finish_word(finish: Option<Finish>) -> u64
    ensures { result ≡ finish_word finish }
{
    match finish {
        None => 0,
        Some(finish) => finish.word,
    }
}

fn claim_word(taken: Option<Taken>) -> u64
    ensures { result ≡ claim_word taken }
{
    match taken {
        None => 0,
        Some(taken) => taken.word,
    }
}

/// How a finish went, or 0 where nothing was held.
#[inline(always)]
pub(crate) fn late_number(finish: Option<Finish>) -> u32
    ensures { result ≡ late_number finish }
{
    match finish {
        None => 0,
        Some(finish) if finish.late => finish_number(Finished::Late),
        Some(_) => finish_number(Finished::Won),
    }
}

/// Gives the task what was taken.
#[inline(always)]
pub(crate) fn take(task: &mut CfTask, taken: Option<Taken>) -> Result<(), Code>
    ensures told { result ≡ taken_code taken }
    ensures task { task.new ≡ task_with task.old taken }
{
    match taken {
        None => {
            task.held = 0;
            Err(Code::Nothing)
        }
        Some(taken) => {
            task.give(taken.stage, taken.function, taken.args);
            Ok(())
        }
    }
}
