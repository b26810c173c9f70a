//! Programs from rows.
ghost use Rattle.std.specs.Prelude.{◌≡◌};

use crate::checks::{holds, must};
use crate::functions::Always;
use crate::graph::plans;
use crate::graph::plans::plan_of;
use cf_explore::{Caller, Program, Step};
use cf_forms::Answer;
use std::alloc::Global;
use std::process::Abort;

/// A program.
#[derive(Clone, Copy)]
pub(crate) struct Rows {
    pub(crate) plan: plans::Rows,
    pub(crate) room: u16,
    pub(crate) callers: &'static [&'static [Step]],
    pub(crate) workers: u8,
    pub(crate) functions: &'static [Answer],
    pub(crate) free: bool,
}

/// The callers with their steps.
fn callers_of(rt: &impl Abort, alloc: Global, rows: &Rows) -> Vec<Caller> {
    let mut callers = Vec::new(alloc);
    for steps in rows.callers {
        if steps.len() <= 65535 {
            let steps = must(rt, Vec::from_slice(alloc, steps));
            must(rt, callers.push(Caller::new(steps)));
        }
    }
    callers
}

/// The functions.
pub(crate) fn functions_of(rt: &impl Abort, alloc: Global, rows: &Rows) -> Vec<Always> {
    let mut functions = Vec::new(alloc);
    for answer in rows.functions {
        must(rt, functions.push(Always { answer: *answer }));
    }
    functions
}

/// The program, which has to be one.
pub(crate) fn program(rt: &impl Abort, alloc: Global, rows: &Rows) -> Program {
    let plan = plan_of(rt, alloc, &rows.plan);
    let callers = callers_of(rt, alloc, rows);
    holds(rt, plan.has_place(rows.room), "place");
    holds(rt, callers.len() + rows.workers as usize <= 63, "callers");
    Program::new(plan, rows.room, callers, rows.workers, rows.free)
}
