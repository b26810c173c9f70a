//! Races of whole scripts over devices that fail.
use crate::checks::holds;
use crate::script::devices::{Dripping, Sipping, Then};
use crate::script::reports::lines;
use cf_script::{NoGate, ScriptFault, race_script};
use std::io::ErrorKind;
use std::process::Abort;
use std::sync::Wait;
use std::thread::Threads;

const SUM: &str =
    r#"{"cf":1,"stages":[{"form":"supply","fn":{"const":4}},{"form":"supply","fn":{"const":5}},{"form":"combine","of":[0,1],"fn":"sum"}]}"#;

const SUM_REPORT: &str = "stage 0 value 4 / stage 1 value 5 / stage 2 value 9";

/// Races the sum by a reader that fails once it was called so many times.
fn check_reader(rt: &(impl Abort + Threads + Wait + Sync + AllocGlobal), calls: u64) {
    let mut drops = Dripping {
        rest: SUM.as_bytes(),
        calls,
        kind: ErrorKind::Interrupted,
    };
    let mut out: Vec<u8> = Vec::new(rt.alloc());
    let ended = race_script(rt, rt.alloc(), &mut drops, &mut out, &NoGate, 2);
    holds(rt, ended == Err(ScriptFault::Read), calls);
    holds(rt, out.as_slice() == "fault 7 read\n".as_bytes(), calls);
}

#[test]
fn a_failing_reader_is_told_of_a_race(rt: HostRuntime) {
    for calls in 0..3u64 {
        check_reader(&rt, calls);
    }
}

/// Races the sum to a writer that fails once it was called so many times.
fn check_writer(
    rt: &(impl Abort + Threads + Wait + Sync + AllocGlobal),
    whole: &[u8],
    calls: u64,
    then: Then,
) {
    let mut sips = Sipping {
        held: Vec::new(rt.alloc()),
        calls,
        then,
        flushes: true,
    };
    let mut input = SUM.as_bytes();
    let ended = race_script(rt, rt.alloc(), &mut input, &mut sips, &NoGate, 2);
    holds(rt, ended == Err(ScriptFault::Write), calls);
    holds(rt, whole.starts_with(sips.held.as_slice()), calls);
    holds(rt, sips.held.len() as u64 == calls, calls);
}

#[test]
fn a_failing_writer_holds_a_front_of_a_race(rt: HostRuntime) {
    let report = lines(&rt, rt.alloc(), SUM_REPORT);
    for calls in 0..9u64 {
        let then = if calls % 2 == 0 {
            Then::Fails
        } else {
            Then::TakesNothing
        };
        check_writer(&rt, report.as_str().as_bytes(), calls, then);
    }
}
