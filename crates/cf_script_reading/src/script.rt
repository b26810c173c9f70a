//! Scripts: a plan, its functions, and the steps to take over it.
use crate::func::Func;
use cf_model::{Ask, Event};
use cf_plan::Plan;
use std::marker::Model;

/// The caller that does a script's work.
pub const WORKER: u8 = 63;

/// One step of a script.
#[derive(Clone, Copy, Debug, PartialEq, Eq)]
pub enum Step {
    /// A changing call of one caller.
    Does(Event),
    /// A question.
    Asks(Ask),
    /// While a stage is ready, caller 63 claims the lowest one, calls its function, and hands its answer in.
    Work,
    /// Takes at most this many turns of the work that is left. No answer tells of it.
    Nudge(u32),
}

/// A script that was read.
#[derive(Drop)]
pub struct Script {
    plan: Plan,
    room: u16,
    functions: Vec<Func>,
    steps: Vec<Step>,
}

impl Model for Script {
    ghost use Rattle.cf_script_reading.specs.Scripts.{Script, IsScript, scripted};

    ghost Value = { Script };

    ghost view = { λ s. scripted s.plan s.room s.functions.items s.steps.items };

    ghost invariant = { λ s. IsScript (scripted s.plan s.room s.functions.items s.steps.items) };
}

impl Script {
    ghost use Rattle.std.specs.Prelude.{◌≡◌};
    ghost use Rattle.cf_script_reading.specs.Scripts.{Script, IsScript, scripted};

    /// A script of these parts.
    pub(crate) fn new(plan: Plan, room: u16, functions: Vec<Func>, steps: Vec<Step>) -> Script
        requires { IsScript (scripted plan room functions.items steps.items) }
        ensures { result ≡ scripted plan room functions.items steps.items }
    {
        Script {
            plan,
            room,
            functions,
            steps,
        }
    }

    /// Its plan, the room for stages that its steps attach, its functions by their numbers, and its steps.
    pub fn into_parts(self) -> (Plan, u16, Vec<Func>, Vec<Step>)
        ensures plan { result.0 ≡ self.plan }
        ensures room { result.1 ≡ self.room }
        ensures functions { result.2.items ≡ self.functions }
        ensures steps { result.3.items ≡ self.steps }
        ensures said { IsScript self }
    {
        let Script {
            plan,
            room,
            functions,
            steps,
        } = self;
        (plan, room, functions, steps)
    }
}
