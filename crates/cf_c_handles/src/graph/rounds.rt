//! A round of several tasks of one caller of a graph: what they hold is finished, and ready stages are claimed for them.
ghost use Rattle.std.specs.Prelude.{◌≡◌, All, length, slice_get};
ghost use Rattle.cf_model.specs.States.{lowest_ready_of};
ghost use Rattle.cf_c_handles.specs.Tasks.{held_by};
ghost use Rattle.cf_c_handles.specs.Rounds.{AreClaimed, AreFinished, IsThere, MayFinish, Rounds, TellsFirstFault, claim_left, claimed_task, claimed_times, fault_of, finish_left, finish_told, finished_all, finished_task, round_told};

use crate::code::Code;
use crate::handle::object::Object;
use crate::values::finish_number;
use crate::values::task::{CfTask, held_by};
use cf_core::Graph;
use cf_ledger::Held;
use cf_model::Claimed;

/// Finishes what tasks hold, and gives each the stage that is then the lowest ready one, if each may be finished.
#[tactic(auto, using(crate::proofs::Rounds::round_done, crate::proofs::Rounds::round_refused))]
pub fn round(held: &mut Object, who: u8, tasks: &mut [CfTask]) -> Result<(), Code>
    ensures { Rounds who held.old tasks.old result held.new tasks.new }
{
    let Object::Graph(graph) = held else {
        return Err(Code::WrongKind);
    };
    match first_fault(graph, who, tasks) {
        Some(code) => Err(code),
        None => {
            finish_all(graph, who, tasks);
            claim_all(graph, who, tasks);
            round_told(tasks)
        }
    }
}

/// Why the first of these tasks that may not be finished may not, if there is one.
fn first_fault(graph: &Graph, who: u8, tasks: &[CfTask]) -> Option<Code>
    ensures { TellsFirstFault who graph.now.state tasks.now result }
{
    'each: for k in 0..tasks.len() {
        if let Some(code) = fault_of(graph, who, held_by(&tasks[k])) {
            return Some(code);
        }
    }
    None
}

/// Why a caller may not finish what it holds, if it may not.
#[inline(always)]
fn fault_of(graph: &Graph, who: u8, held: Option<Held>) -> Option<Code>
    ensures { result ≡ fault_of who graph.now.state held }
{
    let Some(Held { stage, answer: _ }) = held else {
        return None;
    };
    if stage >= graph.stages() {
        return Some(Code::NoStage);
    }
    match graph.claimant(stage) {
        Some(claimant) if claimant == who => None,
        _ => Some(Code::NotHeld),
    }
}

/// Finishes what the tasks hold, one after another, and each task tells how its finish went.
fn finish_all(graph: &mut Graph, who: u8, tasks: &mut [CfTask])
    requires { All (MayFinish who graph.old.state) tasks.old }
    ensures state { graph.new.state ≡ finished_all who graph.old.state tasks.old }
    ensures tasks { AreFinished who graph.old.state tasks.old tasks.new }
{
    'each: for k in 0..tasks.len() {
        finish(graph, who, &mut tasks[k]);
    }
}

/// Finishes what a task holds, if anything, and the task tells how it went.
#[inline(always)]
fn finish(graph: &mut Graph, who: u8, task: &mut CfTask)
    requires { IsThere (length graph.old.state.plan.stages) (held_by task.old) }
    ensures state { graph.new.state ≡ finish_left who graph.old.state (held_by task.old) }
    ensures task { task.new ≡ finished_task who graph.old.state task.old }
{
    let Some(Held { stage, answer }) = held_by(task) else {
        task.finished = 0;
        return;
    };
    task.finished = finish_number(graph.finish(who, stage, answer));
}

/// Gives each task the lowest ready stage in turn, or nothing.
fn claim_all(graph: &mut Graph, who: u8, tasks: &mut [CfTask])
    ensures state { graph.new.state ≡ claimed_times who graph.old.state (length tasks.old) }
    ensures tasks { AreClaimed who graph.old.state tasks.old tasks.new }
{
    'each: for k in 0..tasks.len() {
        claim(graph, who, &mut tasks[k]);
    }
}

/// Gives a task the lowest ready stage, or nothing.
#[inline(always)]
#[tactic(auto, using(crate::proofs::Steps::ready_within))]
fn claim(graph: &mut Graph, who: u8, task: &mut CfTask)
    ensures state { graph.new.state ≡ claim_left who graph.old.state (lowest_ready_of graph.old.state) }
    ensures task { task.new ≡ claimed_task who graph.old.state task.old (lowest_ready_of graph.old.state) }
{
    let Some(stage) = graph.lowest_ready() else {
        task.held = 0;
        return;
    };
    let function = graph.function(stage);
    match graph.claim(who, stage) {
        Claimed::Granted(args) => task.give(stage, function, args),
        _ => task.held = 0,
    }
}

/// Whether the first task holds a stage.
fn round_told(tasks: &[CfTask]) -> Result<(), Code>
    ensures { result ≡ round_told (slice_get tasks.now 0) }
{
    match tasks.first() {
        Some(task) if task.held != 0 => Ok(()),
        _ => Err(Code::Nothing),
    }
}
