//! Scripts that end early, devices that fail, and memory that is refused.
use crate::checks::holds;
use crate::script::devices::{Dripping, Fixed, Sipping, Then};
use crate::script::reports::{ADD_FIVE, ADD_FIVE_REPORT, lines};
use cf_script::{Part, ScriptFault, run_script};
use std::alloc::Global;
use std::io::ErrorKind;
use std::process::Abort;

/// The script of a source to which an apply is attached.
const ATTACH_ONE: &str =
    r#"{"cf":2,"room":1,"stages":[{"form":"source"}],"steps":[["complete",0,3],["attach",{"form":"apply","of":[0],"fn":{"add":5}}]]}"#;

fn check_front(rt: &(impl Abort + AllocGlobal), mut front: &[u8]) {
    let len = front.len();
    let mut out: Vec<u8> = Vec::new(rt.alloc());
    let result = run_script(rt.alloc(), &mut front, &mut out);
    holds(rt, result == Err(ScriptFault::NotJson), len);
    holds(rt, out.as_slice() == b"fault 2 not json\n".as_slice(), len);
}

fn check_fronts(rt: &(impl Abort + AllocGlobal), script: &[u8]) {
    for len in 0..script.len() {
        check_front(rt, &script[..len]);
    }
}

#[test]
fn no_front_of_a_script_is_json(rt: HostRuntime) {
    check_fronts(&rt, ADD_FIVE.as_bytes());
    check_fronts(&rt, ATTACH_ONE.as_bytes());
}

/// A reader that fails once it was called so many times gives this.
fn check_reader(
    rt: &(impl Abort + AllocGlobal),
    kind: ErrorKind,
    calls: u64,
    ended: Result<(), ScriptFault>,
    printed: &[u8],
) {
    let mut out: Vec<u8> = Vec::new(rt.alloc());
    let mut input = Dripping {
        rest: ADD_FIVE.as_bytes(),
        calls,
        kind,
    };
    let result = run_script(rt.alloc(), &mut input, &mut out);
    holds(rt, result == ended, calls);
    holds(rt, out.as_slice() == printed, calls);
}

/// A reader that may be called once behind the end doesn't fail.
fn check_readers(rt: &(impl Abort + AllocGlobal), kind: ErrorKind, report: &[u8]) {
    let len = ADD_FIVE.len() as u64;
    for calls in 0..len + 1 {
        check_reader(
            rt,
            kind,
            calls,
            Err(ScriptFault::Read),
            b"fault 7 read\n".as_slice(),
        );
    }
    check_reader(rt, kind, len + 1, Ok(()), report);
}

#[test]
fn a_failing_reader_is_told(rt: HostRuntime) {
    let report = lines(&rt, rt.alloc(), ADD_FIVE_REPORT);
    check_readers(&rt, ErrorKind::Interrupted, report.as_str().as_bytes());
    check_readers(&rt, ErrorKind::Other, report.as_str().as_bytes());
}

/// A writer that fails holds what it took, and the run answers this.
fn check_writer(
    rt: &(impl Abort + AllocGlobal),
    script: &str,
    mut out: Sipping,
    ended: Result<(), ScriptFault>,
    taken: &[u8],
) {
    let calls = out.calls;
    let result = run_script(rt.alloc(), &mut script.as_bytes(), &mut out);
    holds(rt, result == ended, calls);
    holds(rt, out.held.as_slice() == taken, calls);
}

/// Whatever the script, a writer that fails holds a front of the text.
fn check_front_held(
    rt: &(impl Abort + AllocGlobal),
    script: &str,
    text: &[u8],
    out: Sipping,
    otherwise: Result<(), ScriptFault>,
) {
    let len = text.len() as u64;
    let taken = out.calls.min(len) as usize;
    let ended = if out.calls >= len && out.flushes {
        otherwise
    } else {
        Err(ScriptFault::Write)
    };
    check_writer(rt, script, out, ended, &text[..taken]);
}

fn check_failing_writers(
    rt: &(impl Abort + AllocGlobal),
    script: &str,
    text: &[u8],
    otherwise: Result<(), ScriptFault>,
) {
    for then in [Then::Fails, Then::TakesNothing] {
        for flushes in [true, false] {
            for calls in 0..text.len() as u64 + 2 {
                let out = Sipping {
                    held: Vec::new(rt.alloc()),
                    calls,
                    then,
                    flushes,
                };
                check_front_held(rt, script, text, out, otherwise);
            }
        }
    }
}

#[test]
fn a_failing_writer_holds_a_front(rt: HostRuntime) {
    let report = lines(&rt, rt.alloc(), ADD_FIVE_REPORT);
    check_failing_writers(&rt, ADD_FIVE, report.as_str().as_bytes(), Ok(()));
    let fault = Err(ScriptFault::Shape(Part::Top));
    check_failing_writers(&rt, "[]", b"fault 3 shape top\n".as_slice(), fault);
}

/// Runs the script of a source and an apply, and checks that what was written is its report, or that no memory was left.
fn check_refused(rt: &impl Abort, alloc: Global) -> bool {
    let mut out = Fixed {
        held: [0; 128],
        count: 0,
    };
    let mut input = ADD_FIVE.as_bytes();
    let result = run_script(alloc, &mut input, &mut out);
    let report = b"true\nworked 1\nvalue 8\nstage 0 value 3\nstage 1 value 8\n".as_slice();
    let fault = b"fault 9 memory\n".as_slice();
    holds(rt, out.count <= 128, out.count);
    let written = &out.held[..out.count];
    if result == Ok(()) {
        holds(rt, written == report, "report");
        true
    } else {
        holds(rt, result == Err(ScriptFault::NoMemory), "memory");
        holds(rt, written == fault, "fault");
        false
    }
}

#[test]
fn refused_memory_is_told(rt: HostRuntime) {
    if !check_refused(&rt, rt.alloc()) {
        holds(
            &rt,
            check_refused(&rt, rt.alloc()),
            "the next run has memory",
        );
    }
}
