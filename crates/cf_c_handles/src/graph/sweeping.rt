//! A graph that is lent to a sweep: each stage that is ready is given out once, in one crossing.
ghost use Rattle.std.specs.Prelude.{◌≡◌, ℕ, None, false, true};
ghost use Rattle.cf_c_handles.specs.Sweeps.{BeginsSweep, EndsSweep, Stops, Sweeps, is_held, landed_by};

use crate::code::Code;
use crate::handle::object::{Object, hold, take};
use crate::values::task::{CfTask, held_by};
use cf_core::{Stop, Sweep};
use cf_ledger::Held;
use std::alloc::Global;

/// Makes a graph a sweep.
pub fn begin(alloc: Global, held: &mut Object) -> Result<(), Code>
    ensures { BeginsSweep held.old result held.new }
{
    let (now, done) = begun(take(alloc, held));
    hold(held, now);
    done
}

/// What stands behind a handle whose graph is to be lent to a sweep.
fn begun(held: Object) -> (Object, Result<(), Code>)
    ensures { BeginsSweep held result.1 result.0 }
{
    match held {
        Object::Graph(graph) => (Object::Sweep(Sweep::begin(graph)), Ok(())),
        other => (other, Err(Code::WrongKind)),
    }
}

/// Takes the answer of what a task holds, and gives it the stage at which the sweep stops then.
#[inline(always)]
pub fn next(held: &mut Object, task: &mut CfTask) -> Result<(), Code>
    ensures { Sweeps task.old task.new held.old result held.new }
{
    let Object::Sweep(sweep) = held else {
        return Err(Code::WrongKind);
    };
    if !land(sweep, held_by(task)) {
        return Err(Code::NotHeld);
    }
    go_on(sweep, task)
}

/// Lets what is held land, if it is the stage at which the sweep stands, and says whether it is, or there is neither.
#[inline(always)]
fn land(sweep: &mut Sweep, held: Option<Held>) -> bool
    ensures told { result ≡ is_held sweep.old.stands held }
    ensures landed { result ≡ true → (who : ℕ) → sweep.new.state ≡ landed_by who sweep.old.state held }
    ensures free { result ≡ true → sweep.new.stands ≡ None }
    ensures same { result ≡ false → sweep.new ≡ sweep.old }
{
    match (sweep.stands(), held) {
        (None, None) => true,
        (
            Some(stage),
            Some(
                Held {
                    stage: given,
                    answer,
                },
            ),
        ) => {
            let is_it = stage == given;
            if is_it {
                sweep.land(answer);
            }
            is_it
        }
        _ => false,
    }
}

/// Goes on to the lowest ready stage, and gives it to the task.
#[inline(always)]
fn go_on(sweep: &mut Sweep, task: &mut CfTask) -> Result<(), Code>
    requires { sweep.old.stands ≡ None }
    ensures same { sweep.new.state ≡ sweep.old.state }
    ensures stops { Stops task.old result task.new sweep.new }
{
    task.finished = 0;
    match sweep.next() {
        None => {
            task.held = 0;
            Err(Code::Nothing)
        }
        Some(
            Stop {
                stage,
                function,
                args,
            },
        ) => {
            task.give(stage, function, args);
            Ok(())
        }
    }
}

/// Makes a sweep its graph again, once all stages are behind it.
pub fn end(alloc: Global, held: &mut Object) -> Result<(), Code>
    ensures { EndsSweep held.old result held.new }
{
    let (now, done) = ended(take(alloc, held));
    hold(held, now);
    done
}

/// What stands behind a handle that is asked to end a sweep.
fn ended(held: Object) -> (Object, Result<(), Code>)
    ensures { EndsSweep held result.1 result.0 }
{
    match held {
        Object::Sweep(sweep) => {
            if sweep.is_over() {
                (Object::Graph(sweep.end()), Ok(()))
            } else {
                (Object::Sweep(sweep), Err(Code::NotOver))
            }
        }
        other => (other, Err(Code::WrongKind)),
    }
}
