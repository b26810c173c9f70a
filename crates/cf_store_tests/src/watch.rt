//! Rows of calls, each with who is gone behind it.
use crate::checks::holds;
use cf_watch::{Beat, Watch};
use std::alloc::AllocError;
use std::process::Abort;

/// A call of a watch, or the question whether a session is gone, with its answer.
#[derive(Clone, Copy)]
enum Step {
    /// The moments of the question and of the answer, and the counts of sessions 1 and 2.
    Answer(u64, u64, u64, u64),
    Silence,
    Notice(u64),
    Gone(u64, bool),
}

use Step::*;

/// The second session beats, and the first doesn't. Slow answers don't count, nor more than 50 between two of them.
const ONE_GOES: [Step; 10] = [
    Answer(0, 10, 7, 7),
    Answer(60, 200, 7, 8),
    Answer(900, 900, 7, 9),
    Gone(1, false),
    Answer(901, 901, 7, 10),
    Gone(1, true),
    Gone(2, false),
    Gone(3, false),
    Answer(902, 902, 8, 10),
    Gone(1, false),
];

/// A silence forgets all, and a clock that goes back counts nothing.
const FORGETS: [Step; 12] = [
    Answer(0, 0, 7, 7),
    Answer(50, 50, 7, 7),
    Answer(100, 100, 7, 7),
    Answer(20, 20, 7, 7),
    Gone(1, false),
    Answer(21, 21, 7, 7),
    Gone(1, true),
    Silence,
    Gone(1, false),
    Answer(500, 500, 7, 7),
    Answer(600, 600, 7, 7),
    Gone(1, false),
];

/// A session that never beats counts from the answer behind its notice on.
const NEVER_BEATS: [Step; 10] = [
    Answer(0, 0, 7, 7),
    Notice(3),
    Answer(50, 50, 7, 7),
    Notice(3),
    Answer(100, 100, 7, 7),
    Answer(150, 150, 7, 7),
    Gone(1, true),
    Gone(3, false),
    Answer(151, 151, 7, 7),
    Gone(3, true),
];

static CASES: [(&str, &[Step]); 3] = [
    ("one goes, and one stays", &ONE_GOES),
    ("a silence forgets", &FORGETS),
    ("one never beats", &NEVER_BEATS),
];

/// The counts of sessions 1 and 2.
fn beats(first: u64, second: u64) -> [Beat; 2] {
    [
        Beat {
            session: 1,
            count: first,
        },
        Beat {
            session: 2,
            count: second,
        },
    ]
}

/// Takes a step, and says whether a question is answered so.
fn is_answered(watch: &mut Watch, step: Step) -> Result<bool, AllocError> {
    match step {
        Answer(asked, now, first, second) => watch.take_answer(asked, now, &beats(first, second))?,
        Silence => watch.take_silence(),
        Notice(session) => watch.notice(session)?,
        Gone(session, is_so) => return Ok(watch.is_gone(session) == is_so),
    }
    Ok(true)
}

/// The watch takes these steps, and each question is answered as it says.
fn take(rt: &impl Abort, watch: &mut Watch, name: &'static str, steps: &[Step]) {
    for (at, step) in steps.iter().enumerate() {
        let is_so = is_answered(watch, *step).unwrap_or(false);
        holds(rt, is_so, (name, at));
    }
}

#[test]
fn tells_who_is_gone(rt: HostRuntime) {
    for (name, steps) in &CASES {
        let mut watch = Watch::new(rt.alloc(), 100);
        take(&rt, &mut watch, *name, *steps);
        drop(watch);
    }
}
