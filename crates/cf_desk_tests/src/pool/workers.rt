//! Runs of workers over small desks.
ghost use Rattle.std.specs.Prelude.{◌≡◌};

use crate::plans::{Row, Stages};
use crate::pool::ends::{End, FOUR, SEVEN, check_ends};
use crate::pool::pools::{FUNCTIONS, Opening, over_supplies, run_over};
use cf_desk::DeskFault;
use cf_forms::Form;
use cf_model::Event;
use cf_pool::NoGate;
use std::alloc::Global;
use std::process::Abort;
use std::sync::Wait;
use std::thread::Threads;

static CLAIM: [Event; 1] = [Event::Claim { who: 1, stage: 0 }];

/// What stops a worker over one supply, whose claim it leaves open, with a log of so many words and room for so many records.
fn check_stopped<R: Threads + Wait + Sync + Abort>(
    rt: &R,
    alloc: Global,
    log: u16,
    calls: u16,
    told: DeskFault,
) {
    let opening = over_supplies(1, 1, log, calls);
    let ended = run_over(rt, alloc, opening, &FUNCTIONS, &NoGate);
    let ends = [
        End::Fault(Some(told)),
        End::History(&CLAIM),
        End::Has(0, None),
    ];
    check_ends(rt, ended, &ends);
}

#[test]
fn a_stopped_worker_leaves_its_claim_open(rt: HostRuntime) {
    check_stopped(&rt, rt.alloc(), 1, 4, DeskFault::LogFull);
    check_stopped(&rt, rt.alloc(), 4, 1, DeskFault::PassFull);
}

/// A supply, and a function of it.
static CHAIN: [Row<'static>; 2] = [(Form::Supply, &[], Some(0)), (Form::Apply, &[0], Some(3))];

/// A desk over both, for so many workers.
fn over_chain(workers: u8, log: u16) -> Opening
    ensures { result.workers ≡ workers }
{
    Opening {
        stages: Stages::These(&CHAIN),
        workers,
        log,
        calls: 9,
        room: None,
    }
}

static CHAIN_DONE: [End; 4] = [
    End::Fault(None),
    End::Has(0, FOUR),
    End::Has(1, SEVEN),
    End::Passes(4),
];

#[test]
fn a_run_ends_with_nothing_ready(rt: HostRuntime) {
    check_ends(
        &rt,
        run_over(&rt, rt.alloc(), over_chain(3, 20), &FUNCTIONS, &NoGate),
        &CHAIN_DONE,
    );
}
