//! Desks over a few stages, opened, used and closed.
ghost use Rattle.std.specs.Prelude.{◌≡◌, All, length, vec_len};
ghost use Rattle.cf_desk.specs.Views.{IsOf};

use crate::shape::{Shape, no_plan, plan_of};
use crate::times::{Shown, Times, Work, measured};
use crate::work::{OneMore, checksum};
use cf_desk::{Call, Closed, Desk, DeskSizes, Pass};
use cf_outcome::Value;
use cf_plan::Plan;
use cf_pool::{NoGate, Shared, work};
use std::alloc::Global;
use std::io::{Error, Result};
use std::time::{Clock, Instant};

/// How many stages the desk is over: a chain.
pub(crate) const STAGES: u16 = 16;

/// How many words the log has room for, and how many records each caller.
const ROOM: u16 = 64;

/// How often a desk is measured.
const ROUNDS: u32 = 20_000;

/// Completes the source, and does the work that is there.
fn use_desk(desk: &Desk, p: &mut Pass)
    requires { IsOf desk.now p.old }
    ensures { IsOf desk.now p.new }
{
    let _ = desk.act(p, Call::Complete(0, Value::Int(0)));
    let _ = work(
        desk,
        p,
        &mut Shared {
            functions: [OneMore].as_slice(),
            gate: &NoGate,
        },
        1,
    );
}

/// Lets each caller use the desk, one after another: the first does all the work, and the others see that it is done.
fn use_in_turn(desk: &Desk, passes: &mut [Pass])
    requires { All (IsOf desk.now) passes.old }
    ensures all { All (IsOf desk.now) passes.new }
    ensures count { length passes.new ≡ length passes.old }
{
    'passes: for k in 0..passes.len() {
        use_desk(desk, &mut passes[k]);
    }
}

/// A desk of the plan, opened for so many callers, used by each and closed.
fn used(alloc: Global, plan: &Plan, callers: u8) -> Result<Closed> {
    match plan.copy() {
        Ok(plan) => used_of(alloc, plan, callers),
        Err(_) => Err(Error::other("no memory for the plan")),
    }
}

fn used_of(alloc: Global, plan: Plan, callers: u8) -> Result<Closed> {
    let sizes = DeskSizes {
        callers,
        log: ROOM,
        calls: ROOM,
    };
    match Desk::open(alloc, plan, sizes) {
        Ok((desk, passes)) => closed(desk, passes),
        Err(_) => Err(no_desk()),
    }
}

fn closed(desk: Desk, mut passes: Vec<Pass>) -> Result<Closed>
    requires all { All (IsOf desk) passes.items }
    requires count { vec_len passes ≡ desk.setting.callers }
{
    use_in_turn(&desk, passes.as_mut_slice());
    match desk.close(passes) {
        Ok(closed) => Ok(closed),
        Err(_) => Err(not_closed()),
    }
}

pub(crate) fn no_desk() -> Error {
    Error::other("the desk was refused")
}

pub(crate) fn not_closed() -> Error {
    Error::other("the desk wasn't closed")
}

fn chain(alloc: Global) -> Result<Plan> {
    match plan_of(alloc, Shape::Chain, STAGES) {
        Ok(plan) => Ok(plan),
        Err(_) => Err(no_plan()),
    }
}

/// A checksum of all outcomes of a desk that was used, and the number of its events.
pub(crate) fn desk_checksum(alloc: Global, callers: u8) -> Result<(u64, usize)> {
    let plan = chain(alloc)?;
    checksum_of(used(alloc, &plan, callers), STAGES)
}

/// A checksum of the first outcomes of a closed desk, and the number of its events.
pub(crate) fn checksum_of(closed: Result<Closed>, stages: u16) -> Result<(u64, usize)> {
    let mut closed = closed?;
    let sum = checksum(&mut closed.graph, stages);
    let events = closed.history.len();
    drop(closed);
    Ok((sum, events))
}

/// Opening a desk of a plan that is there, using it, closing it and letting it go.
#[derive(Clone, Copy)]
struct UsesDesk<'a> {
    alloc: Global,
    plan: &'a Plan,
    callers: u8,
}

impl<R: Clock> Work<R> for UsesDesk<'_> {
    fn round(&mut self, rt: &R, times: &mut Times) -> Result<()> {
        let start = Instant::now(rt)?;
        drop(used(self.alloc, self.plan, self.callers)?);
        times.add_since(rt, start)
    }
}

/// What a desk took that was opened of a plan that is there, used and closed, and let go.
pub(crate) fn measured_desk<R: Clock>(rt: &R, alloc: Global, callers: u8) -> Result<Shown> {
    let plan = chain(alloc)?;
    let mut work = UsesDesk {
        alloc,
        plan: &plan,
        callers,
    };
    measured(rt, alloc, ROUNDS, 1, &mut work)
}
