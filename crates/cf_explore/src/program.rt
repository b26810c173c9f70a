//! What is searched.
ghost use Rattle.std.specs.Prelude.{◌≡◌, ◌+◌, ◌<◌, ◌≤◌, true, IfOk, is_some, length, slice_get};
ghost use Rattle.cf_forms.specs.Plans.{has_place};
ghost use Rattle.cf_explore.specs.Programs.{place_at, programmed, start_of, step_of};

use crate::situation::Situation;
use crate::step::{Hand, Place, Step};
use cf_plan::Plan;
use cf_reference::ReferenceGraph;
use std::alloc::{AllocError, Global};
use std::marker::Model;

/// There are at most this many callers and workers together. The clock comes besides.
pub const MAX_CALLERS: usize = 63;

/// The steps of one caller, fewer than 65,536.
#[derive(Drop)]
pub struct Caller {
    steps: Vec<Step>,
}

impl Model for Caller {
    ghost use Rattle.std.specs.Prelude.{◌≤◌, List, length};
    ghost use Rattle.cf_explore.specs.declared.step.Step.{Step};

    ghost Value = { List Step };

    ghost view = { λ c. c.steps.items };

    ghost invariant = { λ c. length c.steps.items ≤ 65535 };
}

impl Caller {
    /// A caller with these steps.
    pub fn new(steps: Vec<Step>) -> Caller
        requires { length steps.items ≤ 65535 }
        ensures { result ≡ steps.items }
    {
        Caller { steps }
    }

    /// The step of this number, if there is one.
    pub(crate) fn step(&self, at: u16) -> Option<Step>
        ensures step { result ≡ slice_get self.now at }
        ensures few { is_some result ≡ true → at < 65535 }
    {
        self.steps.get(at as usize).copied()
    }
}

/// A plan with room, callers with their steps, workers, and a clock. If the clock is free, the moment of the next unused limit
/// may come between any two moves. If it isn't, limits fire only by the callers' ticks.
#[derive(Drop)]
pub struct Program {
    pub(crate) plan: Plan,
    pub(crate) room: u16,
    pub(crate) callers: Vec<Caller>,
    pub(crate) workers: u8,
    pub(crate) free: bool,
}

impl Model for Program {
    ghost use Rattle.std.specs.Prelude.{◌≡◌, ◌+◌, ◌≤◌, true, length};
    ghost use Rattle.cf_forms.specs.Plans.{has_place};
    ghost use Rattle.cf_explore.specs.Programs.{Programmed, programmed};

    ghost Value = { Programmed };

    ghost view = { λ p. programmed p.plan p.room p.callers.items p.workers p.free };

    ghost invariant = { λ p. (has_place p.plan.stages p.room ≡ true) × (length p.callers.items + p.workers ≤ 63) };
}

impl Program {
    /// The program of a plan with room for this many stages more.
    pub fn new(plan: Plan, room: u16, callers: Vec<Caller>, workers: u8, free: bool) -> Program
        requires place { has_place plan.stages room ≡ true }
        requires few { length callers.items + workers ≤ 63 }
        ensures { result ≡ programmed plan room callers.items workers free }
    {
        Program {
            plan,
            room,
            callers,
            workers,
            free,
        }
    }

    /// The situation at the start. It fails only where there is no memory.
    pub fn start(&self, alloc: Global) -> Result<Situation, AllocError>
        ensures { IfOk result (λ s. s ≡ start_of self.now) }
    {
        let _room = &self.room;
        let called = vec![in alloc; false; self.plan.stages() as usize]?;
        let places = vec![in alloc; Place { at: 0, looks: 0 }; self.callers.len()]?;
        let hands = vec![in alloc; Hand::Idle; self.workers as usize]?;
        let graph = ReferenceGraph::start_growing(alloc, self.plan.share()?, self.room)?;
        Ok(Situation {
            graph,
            places,
            hands,
            called,
        })
    }

    /// A caller's next step, if it has one.
    pub fn step(&self, s: &Situation, c: u8) -> Option<Step>
        ensures step { result ≡ step_of self.now s.now c }
        ensures few { is_some result ≡ true → (place_at s.now c).at < 65535 }
    {
        match self.callers.get(c as usize) {
            None => None,
            Some(caller) => caller.step(s.place(c).at),
        }
    }
}
