//! What a work of session 1 tells in a request of two stages, call by call: a supply, and an apply of it.
use crate::checks::{holds, must};
use cf_due::{Act, NoAct};
use cf_forms::{Args, Form, Of};
use cf_notes::{EndsWith, Note};
use cf_outcome::{Cause, Outcome, Value};
use cf_part::{Entry, Fault, Part, Question, Shown};
use cf_plan::{Plan, PlanBuilder};
use cf_row::TOKENS;
use cf_turn::{Told, Turn, Work};
use cf_watch::Watch;
use std::alloc::Global;
use std::process::Abort;

/// One call: a turn at a moment, with what it tells; or another one. Of entries at a put's place it is told whether they
/// are the put's own; of a first timer behind which moment of the store's clock it comes.
#[derive(Clone, Copy)]
enum Move {
    AsksRead(u64, usize),
    AsksPut(u64, usize),
    AsksClose(u64, usize),
    Tells(u64, Told),
    Shows(u64, Shown),
    Calls(u64, u16, u32, Args),
    Rests(u64),
    RestsUnclaimed,
    AsksPutBy(u64, usize),
    Busy(usize),
    TimerBehind(u64, u64),
    Acts(Act),
    Ends,
    Hears(usize),
    Reads,
    Sees(Entry),
    Stands,
    Meets(Entry, bool),
    Refuses(u64),
    Loses(u64),
    Closes(bool),
    Breaks,
    Finishes(u16, EndsWith),
}

use Move::*;

/// The number of each act and of each end, and the moment until which its user waits.
const NUMBER: u64 = 5;

const UNTIL: u64 = 1000;

const SETTLED: Told = Told::Not(NoAct::Settled { is_as_asked: false });

const COMPLETE: Act = Act::Complete { stage: 0 };

const LIMIT: Act = Act::Limit {
    stage: 0,
    moment: 50,
    gives: false,
};

/// The word of COMPLETE, if nothing stands yet, as session 1 puts it.
const OWN: Entry = Entry {
    word: 0x0100000100000001,
    token: TOKENS,
};

/// Session 2 cancels the supply, or puts a word that changes nothing.
const CANCELLED: Entry = Entry {
    word: 0x0300000000000000,
    token: 2 * TOKENS,
};

const FAULT: Outcome = Outcome::Fault {
    cause: Cause::Cancelled,
    wrapped: false,
};

const OTHER: Entry = Entry {
    word: 0x0600000000000000,
    token: 2 * TOKENS,
};

const STANDS: Told = Told::Stands { stage: 0 };

/// A ready stage is claimed, called and finished with the next claim; a finish that was lost is put again; and the flow
/// is closed.
const FLOWS: [Move; 19] = [
    AsksRead(0, 0),
    Reads,
    AsksPut(0, 0),
    Stands,
    Calls(0, 0, 7, Args::None),
    Rests(0),
    Finishes(0, EndsWith::Gives),
    AsksPut(0, 1),
    Loses(0),
    Rests(19),
    AsksPut(20, 1),
    Stands,
    Calls(20, 1, 8, Args::One(Value::Int(2))),
    Finishes(1, EndsWith::NoValue),
    AsksPut(20, 3),
    Stands,
    AsksClose(20, 4),
    Closes(true),
    Rests(20),
];

/// A stage was cancelled behind this session's claim, before its function was called: it isn't called, and a finish closes
/// the claim.
const CLOSED: [Move; 11] = [
    AsksRead(0, 0),
    Reads,
    AsksPut(0, 0),
    Stands,
    Hears(2),
    AsksRead(0, 1),
    Sees(CANCELLED),
    AsksPut(0, 2),
    Stands,
    AsksClose(0, 3),
    Closes(true),
];

/// An act stands, one comes too late, and one attaches a stage.
const ACTS: [Move; 14] = [
    AsksRead(0, 0),
    Reads,
    Acts(COMPLETE),
    AsksPut(0, 0),
    Stands,
    Tells(0, STANDS),
    Shows(0, Shown::Outcome(Outcome::Value(Value::Int(1)))),
    Acts(Act::Fail { stage: 0 }),
    Tells(0, SETTLED),
    Acts(Act::Attach {
        form: Form::Apply,
        of: Of::One(0),
        function: Some(9),
    }),
    AsksPut(0, 1),
    Stands,
    Tells(0, Told::Stands { stage: 2 }),
    Rests(0),
];

/// An act whose place was taken is put again, or told why it can't be. One that had landed before is told so.
const AGAIN: [Move; 8] = [
    AsksRead(0, 0),
    Reads,
    Acts(COMPLETE),
    AsksPut(0, 0),
    Meets(OTHER, false),
    AsksPut(0, 1),
    Stands,
    Tells(0, STANDS),
];

const TAKEN: [Move; 7] = [
    AsksRead(0, 0),
    Reads,
    Acts(COMPLETE),
    AsksPut(0, 0),
    Meets(CANCELLED, false),
    Shows(0, Shown::Outcome(FAULT)),
    Tells(0, SETTLED),
];

const LANDED: [Move; 8] = [
    AsksRead(0, 0),
    Reads,
    Acts(COMPLETE),
    AsksPut(0, 0),
    Loses(0),
    AsksPut(20, 0),
    Meets(OWN, true),
    Tells(20, STANDS),
];

/// An act is refused.
const REFUSED: [Move; 7] = [
    AsksRead(0, 0),
    Reads,
    Acts(COMPLETE),
    AsksPut(0, 0),
    Refuses(0),
    Tells(0, Told::Refused),
    Rests(0),
];

/// Behind a missing answer it isn't refused: it is put until it stands, or until its user waits no longer.
const DOUBTED: [Move; 11] = [
    AsksRead(0, 0),
    Reads,
    Acts(COMPLETE),
    AsksPut(0, 0),
    Loses(0),
    AsksPut(20, 0),
    Refuses(20),
    Rests(20),
    AsksPut(40, 0),
    Stands,
    Tells(40, STANDS),
];

const LATE: [Move; 9] = [
    AsksRead(0, 0),
    Reads,
    Acts(COMPLETE),
    AsksPut(0, 0),
    Loses(980),
    Tells(UNTIL, Told::Unknown),
    AsksPut(UNTIL, 0),
    Refuses(UNTIL),
    Rests(UNTIL),
];

/// A fault is told to all.
const BROKEN: [Move; 7] = [
    Acts(COMPLETE),
    Ends,
    Breaks,
    Tells(0, Told::Ended(Fault::Dropped)),
    Tells(0, Told::Ended(Fault::Dropped)),
    Shows(0, Shown::Fault(Fault::Dropped)),
    Rests(0),
];

/// A user ends the request, which is closed once all is seen.
const ENDED: [Move; 10] = [
    AsksRead(0, 0),
    Reads,
    Ends,
    AsksClose(0, 0),
    Closes(false),
    AsksRead(0, 0),
    Reads,
    AsksClose(0, 0),
    Closes(true),
    Tells(0, Told::Closed),
];

/// What rests goes on once a thread is free, and once a timer has come.
const TIMED: [Move; 22] = [
    AsksRead(0, 0),
    Reads,
    Acts(LIMIT),
    AsksPut(0, 0),
    Stands,
    Tells(0, STANDS),
    RestsUnclaimed,
    RestsUnclaimed,
    Busy(0),
    TimerBehind(0, 50),
    TimerBehind(49, 50),
    TimerBehind(50, u64::MAX),
    AsksPut(0, 1),
    Busy(1),
    Stands,
    Calls(0, 0, 7, Args::None),
    Busy(1),
    Rests(0),
    Rests(0),
    Busy(1),
    TimerBehind(0, 50),
    AsksPutBy(50, 2),
];

/// The name of a case, whether its request is a flow, and what is done.
type Case = (&'static str, bool, &'static [Move]);

static CASES: [Case; 12] = [
    ("flows", true, &FLOWS),
    ("closed", true, &CLOSED),
    ("acts", false, &ACTS),
    ("again", false, &AGAIN),
    ("taken", false, &TAKEN),
    ("landed", false, &LANDED),
    ("refused", false, &REFUSED),
    ("doubted", false, &DOUBTED),
    ("late", false, &LATE),
    ("broken", false, &BROKEN),
    ("ended", false, &ENDED),
    ("timed", true, &TIMED),
];

/// The work of session 1, where somebody waits for the supply.
fn work_of(rt: &impl Abort, alloc: Global, is_flow: bool) -> Work {
    let mut builder = PlanBuilder::new(alloc);
    must(rt, builder.stage(Form::Supply, &[], Some(0)));
    must(rt, builder.stage(Form::Apply, &[0], Some(1)));
    let plan: Plan = must(rt, builder.build());
    holds(rt, plan.has_place(1) && plan.stages() == 2, "plan");
    let notes = [Note::Calls { function: 7 }, Note::Calls { function: 8 }];
    let part = must(rt, Part::new(alloc, &plan, &notes, 1, 1, 0, is_flow));
    let mut work = Work::new(alloc, part);
    holds(rt, work.part().has_place(0), "supply");
    work.wants(0);
    if is_flow {
        work.lets_go(0);
    }
    work.told_length(0);
    work
}

/// Whether a read is answered: these entries stand there.
fn reads(work: &mut Work, entries: &[Entry], notes: &[Note]) -> bool {
    match work.part().asked() {
        Some(Question::Read { .. }) => {
            entries.len() == notes.len() && work.read(0, entries, notes).is_ok()
        }
        _ => false,
    }
}

/// Whether a put is answered.
fn is_put_answered(work: &mut Work, answer: Move) -> bool {
    match (work.part().asked(), answer) {
        (Some(Question::Put { .. }), Stands) => work.stands(),
        (Some(Question::Put { .. }), Refuses(now)) => work.refused(now),
        (Some(Question::Put { .. }), Meets(first, landed)) => {
            return work.others(0, &[first], &[Note::Nothing]) == Ok(landed);
        }
        _ => return false,
    }
    true
}

/// Whether a close is answered.
fn closes(work: &mut Work, is_closed: bool) -> bool {
    let Some(Question::Close { .. }) = work.part().asked() else {
        return false;
    };
    work.closed(is_closed);
    true
}

/// Whether a function is running, and has ended.
fn finishes(work: &mut Work, stage: u16, answer: EndsWith) -> bool {
    if !work.part().is_running(stage) {
        return false;
    }
    work.ended(stage, answer);
    true
}

/// What a turn at a moment has to tell, by a call that is a turn.
fn told_in(call: Move) -> Option<(u64, Option<Turn>)> {
    let (now, turn) = match call {
        AsksRead(now, at) => (now, Turn::Ask(Question::Read { at })),
        AsksPut(now, at) => (now, Turn::Ask(Question::Put { at })),
        AsksClose(now, at) => (now, Turn::Ask(Question::Close { at })),
        Tells(now, told) => (
            now,
            Turn::Tell {
                number: NUMBER,
                told,
            },
        ),
        Shows(now, shown) => (now, Turn::Show { stage: 0, shown }),
        Calls(now, stage, function, args) => (
            now,
            Turn::Call {
                stage,
                function,
                args,
            },
        ),
        Rests(now) => return Some((now, None)),
        _ => return None,
    };
    Some((now, Some(turn)))
}

/// Makes a call that is no turn. It says whether it may be made, and is answered so.
fn is_made(work: &mut Work, call: Move) -> bool {
    match call {
        Acts(act) => {
            act.fits() && work.reserve(1).is_ok() && work.asks(NUMBER, act, UNTIL).is_ok()
        }
        Ends => work.ends(NUMBER, UNTIL).is_ok(),
        Reads => reads(work, &[], &[]),
        Sees(entry) => reads(work, &[entry], &[Note::Nothing]),
        Stands | Refuses(_) | Meets(..) => is_put_answered(work, call),
        Closes(is_closed) => closes(work, is_closed),
        Finishes(stage, answer) => finishes(work, stage, answer),
        Loses(now) => {
            work.unknown(now);
            true
        }
        Busy(threads) => work.busy() == threads,
        TimerBehind(clock, moment) => work.first_timer(clock) == moment,
        Breaks => {
            work.breaks(Fault::Dropped);
            true
        }
        Hears(words) => {
            work.told_length(words);
            true
        }
        _ => false,
    }
}

/// Makes a turn, and compares what it tells, or makes another call. A stage may be claimed in a flow.
fn is_answered(work: &mut Work, watch: &Watch, call: Move) -> bool {
    match call {
        RestsUnclaimed => work.turn(0, watch, 0, false).is_none(),
        AsksPutBy(clock, at) => {
            work.turn(0, watch, clock, true) == Some(Turn::Ask(Question::Put { at }))
        }
        _ => is_told(work, watch, call),
    }
}

/// The same of a turn before a timer comes, or of another call.
fn is_told(work: &mut Work, watch: &Watch, call: Move) -> bool {
    match told_in(call) {
        Some((now, wanted)) => {
            let may_claim = work.part().is_flow();
            work.turn(now, watch, 0, may_claim) == wanted
        }
        None => is_made(work, call),
    }
}

/// Makes calls, one after another.
fn make_all(rt: &impl Abort, work: &mut Work, watch: &Watch, name: &'static str, calls: &[Move]) {
    for (at, call) in calls.iter().enumerate() {
        holds(rt, is_answered(work, watch, *call), (name, at));
    }
}

#[test]
fn tells_what_is_to_be_done(rt: HostRuntime) {
    let watch = Watch::new(rt.alloc(), 100);
    for (name, is_flow, calls) in &CASES {
        let mut work = work_of(&rt, rt.alloc(), *is_flow);
        make_all(&rt, &mut work, &watch, *name, *calls);
        drop(work);
    }
}

#[test]
fn grows_beside_a_question(rt: HostRuntime) {
    let watch = Watch::new(rt.alloc(), 100);
    let mut work = work_of(&rt, rt.alloc(), false);
    make_all(&rt, &mut work, &watch, "asks", &[AsksRead(0, 0)]);
    holds(&rt, !work.part().has_place(4), "no places");
    holds(&rt, work.part().view().ledger().has_place(2), "place");
    must(&rt, work.grow(rt.alloc(), 2));
    holds(&rt, work.part().has_place(4), "places");
    make_all(&rt, &mut work, &watch, "goes on", &[Reads, Rests(0)]);
    drop(work);
}
