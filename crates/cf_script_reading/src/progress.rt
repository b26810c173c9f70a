//! What is read of a script's steps so far.
ghost use Rattle.std.specs.Prelude.{◌≡◌, ◌+◌, ◌≤◌, length};
ghost use Rattle.cf_script_reading.specs.Scripts.{extent_after};

use crate::func::Func;
use crate::script::Step;
use cf_model::Event;

/// The stages that there are once these steps are done and the room that is left then, all functions so far, and the
/// steps.
#[derive(Drop)]
pub(crate) struct Progress {
    pub(crate) stages: u16,
    pub(crate) room: u16,
    pub(crate) functions: Vec<Func>,
    pub(crate) steps: Vec<Step>,
    ghost few: { stages + room ≤ 4096 },
    ghost few_functions: { length functions.items ≤ 4096 },
    ghost few_steps: { length steps.items ≤ 20000 },
}

/// The stages and the room once a step is done.
#[tactic(auto, using(crate::proofs::ReadingProgress::no_more, crate::proofs::ReadingProgress::one_more))]
pub(crate) fn extent_after(step: Step, stages: u16, room: u16) -> (u16, u16)
    requires { stages + room ≤ 4096 }
    ensures leads { record { stages = result.0; room = result.1 }
        ≡ extent_after step (record { stages = stages; room = room }) }
    ensures few { result.0 + result.1 ≤ 4096 }
{
    match step {
        Step::Does(Event::Attach { .. }) if room > 0 => (stages + 1, room - 1),
        _ => (stages, room),
    }
}
