//! Workers over a desk to which stages are attached: before they start, and while they work.
ghost use Rattle.std.specs.Prelude.{◌≡◌, ◌≤◌, All, length};
ghost use Rattle.cf_desk.specs.Views.{IsOf};

use crate::plans::Stages;
use crate::pool::ends::{End, Ended, FOUR, SEVEN, check_ends};
use crate::pool::pools::{FUNCTIONS, Opening, ended_two, open, open_two, ran};
use cf_desk::{Call, Desk, Pass};
use cf_forms::{Answer, Form, Of};
use cf_model::Event;
use cf_outcome::Value;
use cf_pool::{Done, Gate, NoGate, Shared, work};
use std::alloc::Global;
use std::process::Abort;
use std::sync::Wait;
use std::sync::atomic::{AtomicBool, Ordering};
use std::thread;
use std::thread::Threads;

/// A desk over one supply, with room for three stages more, for so many workers and their caller.
fn growing(workers: u8) -> Opening
    ensures { result.workers ≡ workers }
{
    Opening {
        stages: Stages::Supplies(1),
        workers,
        log: 30,
        calls: 30,
        room: Some((3, 4)),
    }
}

/// Waits until the flag is set, at most 1,000,000,000 looks.
pub(crate) fn wait_for(flag: &AtomicBool) {
    for _ in 0..1_000_000_000u32 {
        if flag.load(Ordering::SeqCst) {
            return;
        }
    }
}

/// Holds the worker that claimed stage 0 until stages have been attached.
#[derive(Drop)]
struct Handover {
    claimed: AtomicBool,
    attached: AtomicBool,
}

impl Gate for Handover {
    fn before(&self, stage: u16, _worker: u8) {
        if stage == 0 {
            self.claimed.store(true, Ordering::SeqCst);
            wait_for(&self.attached);
        }
    }
}

/// Attaches a function of stage 0 and a supply, once the worker has claimed stage 0.
fn attach_two(desk: &Desk, pass: &mut Pass, gate: &Handover)
    requires { IsOf desk.now pass.old }
    ensures { IsOf desk.now pass.new }
{
    wait_for(&gate.claimed);
    let _ = desk.act(pass, Call::Attach(Form::Apply, Of::One(0), Some(3)));
    let _ = desk.act(pass, Call::Attach(Form::Supply, Of::None, Some(2)));
    gate.attached.store(true, Ordering::SeqCst);
}

/// Works until one look finds nothing ready.
pub(crate) fn work_on<G: Gate>(desk: &Desk, pass: &mut Pass, gate: &G) -> Option<Done>
    requires { IsOf desk.now pass.old }
    ensures { IsOf desk.now pass.new }
{
    let mut worker = Shared {
        functions: &FUNCTIONS,
        gate,
    };
    work(desk, pass, &mut worker, 1).ok()
}

/// The worker works on one thread, and its caller attaches two stages on another, while the worker has stage 0.
fn work_beside<R: Threads + Sync>(
    rt: &R,
    desk: &Desk,
    mine: &mut Pass,
    theirs: &mut Pass,
) -> Option<Done>
    requires { IsOf desk.now mine.old × IsOf desk.now theirs.old }
    ensures { IsOf desk.now mine.new × IsOf desk.now theirs.new }
{
    let gate = Handover {
        claimed: AtomicBool::new(false),
        attached: AtomicBool::new(false),
    };
    let (_, done) = thread::join_mut(
        rt,
        &mut || attach_two(desk, mine, &gate),
        &mut || work_on(desk, theirs, &gate),
    );
    done
}

/// What the worker did, and the closed desk.
fn worked_beside<R: Threads + Sync + Abort>(rt: &R, alloc: Global) -> Ended {
    let (desk, mut mine, mut theirs) = open_two(rt, alloc, growing(1));
    let done = work_beside(rt, &desk, &mut mine, &mut theirs);
    ended_two(rt, alloc, desk, mine, theirs, None, done)
}

/// What the caller and its worker do, in the only order that they can.
static HISTORY: [Event; 8] = [
    Event::Claim { who: 1, stage: 0 },
    Event::Attach {
        who: 0,
        form: Form::Apply,
        of: Of::One(0),
        function: Some(3),
    },
    Event::Attach {
        who: 0,
        form: Form::Supply,
        of: Of::None,
        function: Some(2),
    },
    Event::Finish {
        who: 1,
        stage: 0,
        answer: Answer::Give(Value::Int(4)),
    },
    Event::Claim { who: 1, stage: 1 },
    Event::Finish {
        who: 1,
        stage: 1,
        answer: Answer::Give(Value::Int(7)),
    },
    Event::Claim { who: 1, stage: 2 },
    Event::Finish {
        who: 1,
        stage: 2,
        answer: Answer::Give(Value::Int(6)),
    },
];

const ALL_WON: Done = Done {
    run: 3,
    won: 3,
    late: 0,
};

#[test]
fn a_worker_does_what_is_attached_after_it_started(rt: HostRuntime) {
    let ended = worked_beside(&rt, rt.alloc());
    check_ends(&rt, ended, &[End::Did(ALL_WON), End::History(&HISTORY)]);
}

/// Each caller attaches a supply, on a thread of its own.
fn attach_by_each<R: Threads + Sync>(rt: &R, desk: &Desk, passes: &mut [Pass])
    requires { All (IsOf desk.now) passes.old }
    ensures passes { All (IsOf desk.now) passes.new }
    ensures count { length passes.new ≡ length passes.old }
{
    thread::for_each_mut(
        rt,
        passes,
        3,
        &|_, pass| {
            let _ = desk.act(pass, Call::Attach(Form::Supply, Of::None, Some(3)));
        },
    );
}

/// What a run of two workers came to, whose callers attached a supply each.
fn run_attached<R: Threads + Wait + Sync + Abort>(rt: &R, alloc: Global) -> Ended {
    let (desk, mut passes) = open(rt, alloc, growing(2));
    attach_by_each(rt, &desk, passes.as_mut_slice());
    ran(rt, desk, passes, &FUNCTIONS, &NoGate, 2)
}

static ATTACHED_DONE: [End; 5] = [
    End::Fault(None),
    End::Has(0, FOUR),
    End::Has(1, SEVEN),
    End::Has(2, SEVEN),
    End::Has(3, SEVEN),
];

#[test]
fn a_run_does_what_its_callers_attached(rt: HostRuntime) {
    check_ends(&rt, run_attached(&rt, rt.alloc()), &ATTACHED_DONE);
}
