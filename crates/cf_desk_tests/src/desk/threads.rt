//! Callers on threads of their own.
ghost use Rattle.std.specs.Prelude.{◌≡◌, ◌<◌, All, length, vec_len};

use crate::checks::{must, same};
use crate::desk::beside::Work;
use crate::desk::desks::{SMALL, open_desk};
use crate::desk::ends::{End, calls_in_order, replied_to_all};
use crate::desk::steps::{Case, Turn, play};
use crate::plans::{SOURCE_AND_SUPPLY, plan_of};
use cf_desk::{Ask, Call, Closed, Desk, DeskFault, DeskSizes, Pass, Rec, Told};
use cf_model::{Reply, Ticked};
use cf_outcome::{Outcome, Value};
use std::alloc::Global;
use std::process::Abort;
use std::sync::atomic::{AtomicU32, Ordering};
use std::thread;
use std::thread::Threads;

const FIRSTS: [Call; 2] = [
    Call::Complete(0, Value::Int(1)),
    Call::Complete(0, Value::Int(2)),
];

const SECONDS: [Call; 2] = [Call::Complete(0, Value::Int(3)), Call::Cancel(0)];

const COMPLETIONS: [Turn; 1] = [Turn::Together(&FIRSTS, &SECONDS)];

const ONE_SETTLES: [End; 4] = [
    End::Events(4),
    End::InOrder(&FIRSTS, &SECONDS, 4),
    End::Replied(Reply::Flag(true), 1),
    End::EndsWithRefusedCancel(1),
];

/// A completion of the stage that the other caller joins.
const COMPLETES: Work = Work {
    before: &[],
    after: &[Call::Complete(0, Value::Int(6))],
    stage: 0,
};

const SAW: [Rec; 1] = [Rec::Saw {
    place: 1,
    ask: Ask::Outcome(0),
    told: Told::Outcome(Some(Outcome::Value(Value::Int(6)))),
}];

static CASES: [Case; 2] = [
    Case {
        name: "one of three completions settles",
        opening: SMALL,
        turns: &COMPLETIONS,
        ends: &ONE_SETTLES,
    },
    Case {
        name: "join sees other",
        opening: SMALL,
        turns: &[Turn::FirstJoins(COMPLETES)],
        ends: &[End::Records(0, &SAW)],
    },
];

#[test]
fn callers_work_on_threads(rt: HostRuntime) {
    play(&rt, rt.alloc(), &CASES);
}

/// Fifty ticks of one pass. Those that a full log refuses are counted.
fn tick_fifty(desk: &Desk, p: &mut Pass, full: &AtomicU32)
    requires { p.old.table ≡ desk.now.table }
    ensures { p.new.table ≡ p.old.table }
{
    for _ in 0..50u8 {
        if desk.act(p, Call::Tick(0)) == Err(DeskFault::LogFull) {
            full.fetch_add(1, Ordering::SeqCst);
        }
    }
}

/// Fifty ticks of each pass, on a thread for each.
fn tick_all<R: Threads + Sync>(rt: &R, desk: &Desk, passes: &mut [Pass], full: &AtomicU32)
    requires { All (λ p. p.table ≡ desk.now.table) passes.old }
    ensures table { All (λ p. p.table ≡ desk.now.table) passes.new }
    ensures count { length passes.new ≡ length passes.old }
{
    thread::for_each_mut(rt, passes, 4, &|_, p| tick_fifty(desk, p, full));
}

/// A desk for four callers, each of which ticked fifty times, closed, and how many ticks a full log refused.
fn ticked<R: Threads + Sync + Abort>(rt: &R, alloc: Global, log: u16) -> (u32, Closed) {
    let plan = plan_of(rt, alloc, &SOURCE_AND_SUPPLY);
    let sizes = DeskSizes {
        callers: 4,
        log,
        calls: 50,
    };
    let (desk, mut passes) = open_desk(rt, alloc, plan, sizes);
    let full = AtomicU32::new(0);
    tick_all(rt, &desk, passes.as_mut_slice(), &full);
    (full.load(Ordering::SeqCst), must(rt, desk.close(passes)))
}

static TICKS: [Call; 50] = [Call::Tick(0); 50];

/// A log of so many words refuses so many ticks of four callers, and has all others in order.
fn check_ticks<R: Threads + Sync + Abort>(rt: &R, alloc: Global, log: u16, refused: u32) {
    let (full, closed) = ticked(rt, alloc, log);
    let in_order = calls_in_order(&closed, &[&TICKS, &TICKS, &TICKS, &TICKS]);
    let fired = replied_to_all(&closed, Reply::Tick(Ticked::Fired(0)));
    let all = log as usize;
    let told = (full, closed.history.len(), in_order, fired);
    drop(closed);
    same(rt, told, (refused, all, all, all));
}

#[test]
fn four_callers(rt: HostRuntime) {
    check_ticks(&rt, rt.alloc(), 200, 0);
    check_ticks(&rt, rt.alloc(), 199, 1);
}
