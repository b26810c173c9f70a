//! One step of a caller of a graph: it finishes what it holds, and takes the lowest ready stage.
ghost use Rattle.std.specs.Prelude.{◌≡◌, ◌<◌, length};
ghost use Rattle.cf_c_handles.specs.Tasks.{Finishes, GraphTakes, Steps};

use crate::code::Code;
use crate::handle::object::Object;
use crate::values::task::{CfTask, finished_as, held_by};
use cf_core::Graph;
use cf_ledger::Held;
use cf_model::Claimed;

/// Finishes what a task holds, and gives it the lowest ready stage.
#[inline(always)]
pub fn step(held: &mut Object, who: u8, task: &mut CfTask) -> Result<(), Code>
    ensures { Steps who task.old task.new held.old result held.new }
{
    let Object::Graph(graph) = held else {
        return Err(Code::WrongKind);
    };
    match finish(graph, who, held_by(task)) {
        Ok(finished) => {
            task.finished = finished;
            take(graph, who, task)
        }
        Err(code) => Err(code),
    }
}

/// Finishes what is held, if anything is.
#[inline(always)]
fn finish(graph: &mut Graph, who: u8, held: Option<Held>) -> Result<u32, Code>
    ensures { Finishes who held graph.old result graph.new }
{
    let Some(Held { stage, answer }) = held else {
        return Ok(0);
    };
    if !graph.has(stage) {
        return Err(Code::NoStage);
    }
    finished_as(graph.finish(who, stage, answer))
}

/// Claims the lowest ready stage, and gives it to the task.
#[inline(always)]
#[tactic(auto, using(crate::proofs::Steps::ready_within))]
fn take(graph: &mut Graph, who: u8, task: &mut CfTask) -> Result<(), Code>
    ensures { GraphTakes who graph.old task.old result task.new graph.new }
{
    let Some(stage) = graph.lowest_ready() else {
        task.held = 0;
        return Err(Code::Nothing);
    };
    let function = graph.function(stage);
    let Claimed::Granted(args) = graph.claim(who, stage) else {
        unreachable!();
    };
    task.give(stage, function, args);
    Ok(())
}
