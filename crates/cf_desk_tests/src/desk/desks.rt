//! Desks for two callers, with their passes, and calls of these.
ghost use Rattle.std.specs.Prelude.{◌≡◌, ◌+◌, All, IfOk, OnOk, vec_len};

use crate::checks::must;
use crate::plans::{Row, SOURCE, SOURCE_AND_SUPPLY, plan_of};
use cf_desk::{Call, Closed, Desk, DeskGrowth, DeskSizes, Pass};
use cf_plan::Plan;
use std::alloc::Global;
use std::process::Abort;
use std::thread;
use std::thread::Threads;

/// How a desk for two callers is opened and closed.
#[derive(Clone, Copy)]
pub(crate) struct Opening {
    /// The stages of its plan.
    pub(crate) rows: &'static [Row<'static>],
    pub(crate) log: u16,
    /// How many records each pass has room for.
    pub(crate) calls: u16,
    /// The room for stages that are attached, with the number of functions. Where none is given, the desk doesn't grow.
    pub(crate) room: Option<(u16, u32)>,
    /// Whether the second caller's pass is handed in before the first's.
    pub(crate) second_first: bool,
}

/// A desk over a source and a supply, with four words, four records and no room for more stages.
pub(crate) const SMALL: Opening = Opening {
    rows: &SOURCE_AND_SUPPLY,
    log: 4,
    calls: 4,
    room: None,
    second_first: false,
};

/// A desk over a source with eight words, eight records, room for one stage, and no functions.
pub(crate) const GROWING: Opening = Opening {
    rows: &SOURCE,
    log: 8,
    calls: 8,
    room: Some((1, 0)),
    second_first: false,
};

/// The last of these passes, which are all of one desk, if there is one.
fn popped(desk: &Desk, passes: &mut Vec<Pass>) -> Result<Pass, &'static str>
    requires { All (λ p. p.table ≡ desk.now.table) passes.old.items }
    ensures pass { IfOk result (λ p. p.table ≡ desk.now.table) }
    ensures rest { All (λ p. p.table ≡ desk.now.table) passes.new.items }
    ensures count { OnOk result (vec_len passes.new + 1 ≡ vec_len passes.old) }
{
    match passes.pop() {
        Some(pass) => Ok(pass),
        None => Err("a pass is missing"),
    }
}

/// The last of these passes, which are all of one desk.
pub(crate) fn last_of(rt: &impl Abort, desk: &Desk, passes: &mut Vec<Pass>) -> Pass
    requires { All (λ p. p.table ≡ desk.now.table) passes.old.items }
    ensures pass { result.table ≡ desk.now.table }
    ensures rest { All (λ p. p.table ≡ desk.now.table) passes.new.items }
    ensures count { vec_len passes.new + 1 ≡ vec_len passes.old }
{
    must(rt, popped(desk, passes))
}

/// The first and the second of two passes, which are both of one desk.
fn both_of(rt: &impl Abort, desk: &Desk, mut passes: Vec<Pass>) -> (Pass, Pass)
    requires { All (λ p. p.table ≡ desk.now.table) passes.items }
    ensures first { result.0.table ≡ desk.now.table }
    ensures second { result.1.table ≡ desk.now.table }
{
    let second = last_of(rt, desk, &mut passes);
    let first = last_of(rt, desk, &mut passes);
    (first, second)
}

/// A desk of a plan without room, and its passes.
pub(crate) fn open_desk(
    rt: &impl Abort,
    alloc: Global,
    plan: Plan,
    sizes: DeskSizes,
) -> (Desk, Vec<Pass>)
    ensures table { All (λ p. p.table ≡ result.0.table) result.1.items }
    ensures count { vec_len result.1 ≡ sizes.callers }
    ensures callers { result.0.setting.callers ≡ sizes.callers }
{
    must(rt, Desk::open(alloc, plan, sizes))
}

/// A desk of a plan that may grow, and its passes.
pub(crate) fn open_growing(
    rt: &impl Abort,
    alloc: Global,
    plan: Plan,
    sizes: DeskSizes,
    growth: DeskGrowth,
) -> (Desk, Vec<Pass>)
    ensures table { All (λ p. p.table ≡ result.0.table) result.1.items }
    ensures count { vec_len result.1 ≡ sizes.callers }
    ensures callers { result.0.setting.callers ≡ sizes.callers }
{
    must(rt, Desk::open_growing(alloc, plan, sizes, growth))
}

/// The desk that is opened so, and its passes.
fn opened(rt: &impl Abort, alloc: Global, opening: Opening) -> (Desk, Vec<Pass>)
    ensures table { All (λ p. p.table ≡ result.0.table) result.1.items }
    ensures callers { result.0.setting.callers ≡ 2 }
{
    let Opening { log, calls, .. } = opening;
    let plan = plan_of(rt, alloc, opening.rows);
    let sizes = DeskSizes {
        callers: 2,
        log,
        calls,
    };
    match opening.room {
        None => open_desk(rt, alloc, plan, sizes),
        Some((room, functions)) => {
            open_growing(rt, alloc, plan, sizes, DeskGrowth { room, functions })
        }
    }
}

/// The desk that is opened so, and its two passes.
pub(crate) fn open_two(rt: &impl Abort, alloc: Global, opening: Opening) -> (Desk, Pass, Pass)
    ensures first { result.1.table ≡ result.0.table }
    ensures second { result.2.table ≡ result.0.table }
    ensures callers { result.0.setting.callers ≡ 2 }
{
    let (desk, passes) = opened(rt, alloc, opening);
    let (first, second) = both_of(rt, &desk, passes);
    (desk, first, second)
}

/// The desk of two passes, closed.
pub(crate) fn close_two(rt: &impl Abort, alloc: Global, desk: Desk, a: Pass, b: Pass) -> Closed
    requires callers { desk.setting.callers ≡ 2 }
    requires table { (a.table ≡ desk.table) × (b.table ≡ desk.table) }
{
    let passes = must(rt, vec![in alloc; a, b]);
    must(rt, desk.close(passes))
}

/// Calls of one pass, one after another.
pub(crate) fn act_all(desk: &Desk, p: &mut Pass, calls: &[Call])
    requires { p.old.table ≡ desk.now.table }
    ensures { p.new.table ≡ p.old.table }
{
    'calls: for call in calls {
        let _ = desk.act(p, *call);
    }
}

/// Calls of two passes, each on a thread of its own.
pub(crate) fn act_on_threads<R: Threads + Sync>(
    rt: &R,
    desk: &Desk,
    a: &mut Pass,
    b: &mut Pass,
    firsts: &[Call],
    seconds: &[Call],
)
    requires { (a.old.table ≡ desk.now.table) × (b.old.table ≡ desk.now.table) }
    ensures { (a.new.table ≡ a.old.table) × (b.new.table ≡ b.old.table) }
{
    thread::join_mut(
        rt,
        &mut || act_all(desk, a, firsts),
        &mut || act_all(desk, b, seconds),
    );
}
