//! Workers that a full pass or a full log stops, alone and beside others that go on.
ghost use Rattle.std.specs.Prelude.{◌≡◌, ◌<◌, ◌≤◌};
ghost use Rattle.cf_desk.specs.Views.{IsOf};

use crate::pool::attached::{wait_for, work_on};
use crate::pool::ends::{End, Ended, FOUR, SIX, check_ends};
use crate::pool::pools::{FUNCTIONS, ended_two, open_two, over_supplies, run_over};
use cf_desk::{Call, Desk, DeskFault, Pass};
use cf_forms::Answer;
use cf_model::Event;
use cf_outcome::Value;
use cf_pool::{Done, Gate, NoGate, Shared, work};
use std::alloc::Global;
use std::process::Abort;
use std::sync::Wait;
use std::sync::atomic::{AtomicBool, Ordering};
use std::thread;
use std::thread::Threads;

/// What stopped a worker, if anything did.
fn fault_of(desk: &Desk, pass: &mut Pass) -> Option<DeskFault>
    requires { IsOf desk.now pass.old }
    ensures { IsOf desk.now pass.new }
{
    let mut worker = Shared {
        functions: &FUNCTIONS,
        gate: &NoGate,
    };
    work(desk, pass, &mut worker, 1).err()
}

/// Caller 0 works until it is stopped, and caller 1 after it, over three supplies, where each pass has room for three records.
fn work_in_turn(rt: &impl Abort, alloc: Global) -> Ended {
    let (desk, mut first, mut second) = open_two(rt, alloc, over_supplies(3, 1, 30, 3));
    let fault = fault_of(&desk, &mut first);
    let done = work_on(&desk, &mut second, &NoGate);
    ended_two(rt, alloc, desk, first, second, fault, done)
}

/// The first caller claims a stage that it can't finish, which nobody finishes.
const IN_TURN: [Event; 5] = [
    Event::Claim { who: 0, stage: 0 },
    Event::Finish {
        who: 0,
        stage: 0,
        answer: Answer::Give(Value::Int(4)),
    },
    Event::Claim { who: 0, stage: 1 },
    Event::Claim { who: 1, stage: 2 },
    Event::Finish {
        who: 1,
        stage: 2,
        answer: Answer::Give(Value::Int(6)),
    },
];

/// One function was run, or three, and all finishes won.
const ONE: Done = Done {
    run: 1,
    won: 1,
    late: 0,
};

const THREE: Done = Done {
    run: 3,
    won: 3,
    late: 0,
};

static TURNS_DONE: [End; 6] = [
    End::Fault(Some(DeskFault::PassFull)),
    End::Did(ONE),
    End::History(&IN_TURN),
    End::Has(0, FOUR),
    End::Has(1, None),
    End::Has(2, SIX),
];

#[test]
fn the_next_does_what_a_full_pass_left(rt: HostRuntime) {
    check_ends(&rt, work_in_turn(&rt, rt.alloc()), &TURNS_DONE);
}

static FULL_LOG: [End; 3] = [
    End::Fault(Some(DeskFault::LogFull)),
    End::Events(3),
    End::IsReady(true),
];

/// A log of three words stops so many workers over four supplies.
fn check_full_log<R: Threads + Wait + Sync + Abort>(rt: &R, alloc: Global, workers: u8)
    requires { (0 < workers) × (workers ≤ 32) }
{
    let opening = over_supplies(4, workers, 3, 99);
    check_ends(
        rt,
        run_over(rt, alloc, opening, &FUNCTIONS, &NoGate),
        &FULL_LOG,
    );
}

#[test]
fn a_full_log_stops_all_workers(rt: HostRuntime) {
    check_full_log(&rt, rt.alloc(), 1);
    check_full_log(&rt, rt.alloc(), 2);
    check_full_log(&rt, rt.alloc(), 4);
    check_full_log(&rt, rt.alloc(), 32);
}

/// So many workers and their caller, each with room for one record, claim a supply each.
fn check_full_passes<R: Threads + Wait + Sync + Abort>(rt: &R, alloc: Global, workers: u8)
    requires { (0 < workers) × (workers ≤ 32) }
{
    let stages = u16::from(workers) + 1;
    let opening = over_supplies(stages, workers, 200, 1);
    let ended = run_over(rt, alloc, opening, &FUNCTIONS, &NoGate);
    let ends = [
        End::Fault(Some(DeskFault::PassFull)),
        End::Events(stages as usize),
        End::Settled(stages, 0),
    ];
    check_ends(rt, ended, &ends);
}

#[test]
fn each_full_pass_has_its_one_record(rt: HostRuntime) {
    check_full_passes(&rt, rt.alloc(), 1);
    check_full_passes(&rt, rt.alloc(), 2);
    check_full_passes(&rt, rt.alloc(), 4);
    check_full_passes(&rt, rt.alloc(), 32);
}

/// Holds a worker before its first function until another one was stopped.
#[derive(Drop)]
struct Behind {
    stopped: AtomicBool,
}

impl Gate for Behind {
    fn before(&self, _stage: u16, _worker: u8) {
        wait_for(&self.stopped);
    }
}

/// Works until it is stopped, and lets the other one go on.
fn work_ahead(desk: &Desk, pass: &mut Pass, gate: &Behind) -> Option<DeskFault>
    requires { IsOf desk.now pass.old }
    ensures { IsOf desk.now pass.new }
{
    let fault = fault_of(desk, pass);
    gate.stopped.store(true, Ordering::SeqCst);
    fault
}

/// The fault of one worker, and what the other one did, on threads of their own.
fn work_beside<R: Threads + Sync>(
    rt: &R,
    desk: &Desk,
    first: &mut Pass,
    second: &mut Pass,
) -> (Option<DeskFault>, Option<Done>)
    requires { IsOf desk.now first.old × IsOf desk.now second.old }
    ensures { IsOf desk.now first.new × IsOf desk.now second.new }
{
    let gate = Behind {
        stopped: AtomicBool::new(false),
    };
    thread::join_mut(
        rt,
        &mut || work_ahead(desk, first, &gate),
        &mut || work_on(desk, second, &gate),
    )
}

/// Ticks so often that a pass with room for 14 records has room for two more.
fn fill(desk: &Desk, pass: &mut Pass)
    requires { IsOf desk.now pass.old }
    ensures { IsOf desk.now pass.new }
{
    for _ in 0..12u8 {
        let _ = desk.act(pass, Call::Tick(0));
    }
}

/// The same over four supplies. The first has room for two records: it can lose one claim to the other one, which is held behind
/// its own first claim, and is then refused its finish, or else the claim of its second stage.
fn stopped_beside<R: Threads + Sync + Abort>(rt: &R, alloc: Global) -> Ended {
    let (desk, mut first, mut second) = open_two(rt, alloc, over_supplies(4, 1, 60, 14));
    fill(&desk, &mut first);
    let (fault, done) = work_beside(rt, &desk, &mut first, &mut second);
    ended_two(rt, alloc, desk, first, second, fault, done)
}

static BESIDE_DONE: [End; 4] = [
    End::Fault(Some(DeskFault::PassFull)),
    End::Did(THREE),
    End::SettledAtLeast(4, 3),
    End::IsReady(false),
];

#[test]
fn another_goes_on_beside_a_stopped_worker(rt: HostRuntime) {
    check_ends(&rt, stopped_beside(&rt, rt.alloc()), &BESIDE_DONE);
}
