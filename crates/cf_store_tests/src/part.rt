//! What a part of session 1 does in a request of one stage with a function, call by call.
use crate::checks::{holds, must};
use cf_forms::{Args, Form};
use cf_ledger::{LedgerFault, Misfit};
use cf_notes::{EndsWith, Note, Owed, Source, Timer, Want, function_of, timer_of};
use cf_outcome::{Outcome, Value};
use cf_part::{Fault, Part, PutOf, Question, Shown, Step};
use cf_plan::{Plan, PlanBuilder};
use cf_row::{Entry, TOKENS};
use std::alloc::Global;
use std::process::Abort;

/// One call, with what it answers last, where that is compared.
#[derive(Clone, Copy)]
enum Move {
    Hears(usize),
    Plans(u64, Note, PutOf),
    Asks(u64, Option<Question>),
    Reads(u64, Option<(u64, Note)>),
    Stands,
    Meets(Entry, Note, bool),
    Misses(Entry, Misfit),
    Waits(u64),
    Refuses(u64),
    Closes,
    Breaks,
    Ends,
    Tells(Option<Step>),
    TellsAt(u64, Option<Step>),
    Unreads(u64),
    Owes(Option<Owed>),
    Faults(Option<Fault>),
    Calls(u16, Option<u32>),
    Times(u16, u64, u64),
}

use Move::*;

/// Caller 0 claims stage 0, and finishes it with the value at place 2. Caller 1 claims it, or completes it with 7.
const CLAIM: u64 = 0x0400000000000000;

const FINISH: u64 = 0x0500000100000002;

const COMPLETE: u64 = 0x0101000100000007;

/// Caller 0 or 1 ticks, caller 0 attaches an apply of stage 0, caller 1 does, too, and completes stage 5, which isn't there.
const TICK: u64 = 0x0600000000000000;

const OTHER_TICK: u64 = 0x0601000000000000;

const ATTACH: u64 = 0x0700000103000001;

const OTHER_ATTACH: u64 = 0x0701000103000001;

const STRAY: u64 = 0x0101005100000007;

const FINISHING: PutOf = PutOf::Finish { stage: 0 };

const READ: Option<Question> = Some(Question::Read { at: 0 });

const PUT: Option<Question> = Some(Question::Put { at: 0 });

const NEXT_READ: Option<Question> = Some(Question::Read { at: 1 });

const FINISH_PUT: Option<Question> = Some(Question::Put { at: 1 });

const TICK_PUT: Option<Question> = Some(Question::Put { at: 2 });

const CALL: Option<Step> = Some(Step::Call {
    stage: 0,
    args: Args::None,
});

/// Stage 0 times out at this moment.
const LIMIT_40: Note = Note::Timer {
    stage: 0,
    moment: 40,
    gives: false,
};

const LIMIT_50: Note = Note::Timer {
    stage: 0,
    moment: 50,
    gives: false,
};

const SHOW: Option<Step> = Some(Step::Show {
    stage: 0,
    shown: Shown::Outcome(Outcome::Value(Value::Int(2))),
});

/// What the function came to is owed, or an error in its place.
const VALUE: Option<Owed> = Some(Owed {
    answer: EndsWith::Gives,
    is_error: false,
});

const ERROR: Option<Owed> = Some(Owed {
    answer: EndsWith::Gives,
    is_error: true,
});

/// No function was called.
const NO_VALUE: Option<Owed> = Some(Owed {
    answer: EndsWith::NoValue,
    is_error: false,
});

/// The value is put until it stands: as it is where no answer came, and behind a refusal of it and of the error. Where its
/// payload can't be read it is shown again, a pause later.
const KEEPS: [Move; 34] = [
    Asks(0, READ),
    Asks(0, None),
    Reads(0, None),
    Tells(None),
    Plans(CLAIM, Note::Nothing, PutOf::Rest),
    Asks(0, PUT),
    Stands,
    Owes(NO_VALUE),
    Tells(CALL),
    Tells(None),
    Owes(None),
    Ends,
    Owes(VALUE),
    Plans(FINISH, Note::Nothing, FINISHING),
    Asks(0, FINISH_PUT),
    Waits(0),
    Asks(19, None),
    Asks(20, FINISH_PUT),
    Refuses(20),
    Owes(ERROR),
    Plans(FINISH, Note::Nothing, FINISHING),
    Asks(20, FINISH_PUT),
    Refuses(20),
    Owes(VALUE),
    Plans(FINISH, Note::Nothing, FINISHING),
    Asks(39, None),
    Asks(40, FINISH_PUT),
    Stands,
    Tells(SHOW),
    Tells(None),
    Unreads(40),
    TellsAt(59, None),
    TellsAt(60, SHOW),
    Closes,
];

/// Another session's claim stands where this one's was to stand, so nothing is called, and who waits sees the fault.
const MEETS: [Move; 10] = [
    Asks(0, READ),
    Reads(0, None),
    Plans(CLAIM, Note::Nothing, PutOf::Rest),
    Asks(0, PUT),
    Meets(
        Entry {
            word: CLAIM,
            token: 2 * TOKENS,
        },
        Note::Nothing,
        false,
    ),
    Tells(None),
    Faults(None),
    Breaks,
    Faults(Some(Fault::Dropped)),
    Tells(Some(Step::Show {
        stage: 0,
        shown: Shown::Fault(Fault::Dropped),
    })),
];

/// What runs is stopped once, where another caller has completed the stage. Nobody waits for that.
const STOPS: [Move; 11] = [
    Asks(0, READ),
    Reads(0, None),
    Plans(CLAIM, Note::Nothing, PutOf::Rest),
    Asks(0, PUT),
    Stands,
    Tells(CALL),
    Hears(2),
    Asks(0, NEXT_READ),
    Reads(0, Some((COMPLETE, Note::Nothing))),
    Tells(Some(Step::Stop { stage: 0 })),
    Tells(None),
];

/// A note comes with a read; with a put that stands; with one that had landed before, in the place of which its own
/// entry is met; and with an entry before another one that doesn't fit.
const NOTES: [Move; 21] = [
    Calls(0, Some(7)),
    Asks(0, READ),
    Reads(0, Some((OTHER_TICK, LIMIT_40))),
    Times(0, 40, 1),
    Plans(ATTACH, Note::Calls { function: 8 }, PutOf::Act),
    Asks(0, FINISH_PUT),
    Calls(1, None),
    Stands,
    Calls(1, Some(8)),
    Plans(TICK, LIMIT_50, PutOf::Act),
    Asks(0, TICK_PUT),
    Waits(0),
    Asks(20, TICK_PUT),
    Meets(
        Entry {
            word: TICK,
            token: TOKENS + 1,
        },
        LIMIT_50,
        true,
    ),
    Times(0, 50, 3),
    Faults(None),
    Plans(TICK, Note::Nothing, PutOf::Rest),
    Asks(20, Some(Question::Put { at: 3 })),
    Misses(
        Entry {
            word: STRAY,
            token: 2 * TOKENS,
        },
        Misfit {
            place: 1,
            why: LedgerFault::NoStage,
        },
    ),
    Times(0, 40, 4),
    Faults(Some(Fault::Broken)),
];

/// A stage is attached, and room is made for more while that is put.
const ATTACHES: [Move; 5] = [
    Asks(0, READ),
    Reads(0, None),
    Plans(ATTACH, Note::Calls { function: 8 }, PutOf::Act),
    Asks(0, PUT),
    Calls(1, None),
];

/// The put stands, and another session has attached a stage more than there was room for.
const GROWN: [Move; 7] = [
    Stands,
    Calls(1, Some(8)),
    Hears(2),
    Asks(0, NEXT_READ),
    Reads(0, Some((OTHER_ATTACH, Note::Calls { function: 9 }))),
    Calls(2, Some(9)),
    Faults(None),
];

/// The name of a case, whether somebody waits for stage 0, and what is done.
type Case = (&'static str, bool, &'static [Move]);

static CASES: [Case; 4] = [
    ("keeps", true, &KEEPS),
    ("meets", true, &MEETS),
    ("stops", false, &STOPS),
    ("notes", false, &NOTES),
];

/// The part of session 1, where somebody waits for stage 0, or nobody does any more.
fn part_of(rt: &impl Abort, alloc: Global, is_wanted: bool) -> Part {
    let mut builder = PlanBuilder::new(alloc);
    must(rt, builder.stage(Form::Supply, &[], Some(0)));
    let plan: Plan = must(rt, builder.build());
    holds(rt, plan.has_place(1) && plan.stages() == 1, "plan");
    let notes = [Note::Calls { function: 7 }];
    let mut part = must(rt, Part::new(alloc, &plan, &notes, 1, 1, 0, false));
    part.wants(0);
    if !is_wanted {
        part.lets_go(0);
    }
    part
}

/// Whether a put of one word is planned.
fn plans(part: &mut Part, word: u64, note: Note, of: PutOf) -> bool {
    let want = Want {
        word,
        note,
        source: Source::Nothing,
    };
    part.may_plan(u64::MAX)
        && part.plan(&[want], of).is_ok()
        && part.wants_of_put() == [want].as_slice()
        && part.put_of() == of
}

/// Whether a read is answered with nothing, or with a word of another session's and its note.
fn reads(part: &mut Part, now: u64, other: Option<(u64, Note)>) -> bool {
    match (part.asked(), other) {
        (Some(Question::Read { .. }), None) => part.read(now, &[], &[]).is_ok(),
        (Some(Question::Read { .. }), Some((word, note))) => {
            part.read(now, &[by_other(word)], &[note]).is_ok()
        }
        _ => false,
    }
}

/// A word that session 2 has put.
const fn by_other(word: u64) -> Entry {
    Entry {
        word,
        token: 2 * TOKENS,
    }
}

/// Whether a put is answered.
fn is_put_answered(part: &mut Part, answer: Move) -> bool {
    match (part.asked(), answer) {
        (Some(Question::Put { .. }), Stands) => part.stands(),
        (Some(Question::Put { .. }), Refuses(now)) => part.refused(now),
        (Some(Question::Put { .. }), Meets(first, note, landed)) => {
            return part.others(0, &[first], &[note]) == Ok(landed);
        }
        (Some(Question::Put { .. }), Misses(stray, wanted)) => {
            // (behind another session's tick with a note, where the put was to stand)
            let entries = [by_other(OTHER_TICK), stray];
            return part.others(0, &entries, &[LIMIT_40, Note::Nothing]) == Err(wanted);
        }
        _ => return false,
    }
    true
}

/// Whether the request is closed, since nothing is under way.
fn closes(part: &mut Part) -> bool {
    if !part.may_plan(u64::MAX) {
        return false;
    }
    part.close();
    let Some(Question::Close { .. }) = part.asked() else {
        return false;
    };
    part.closed(true);
    part.is_closed() && !part.is_flow()
}

/// Whether the function of stage 0 is running, and gives a value.
fn ends(part: &mut Part) -> bool {
    if !part.is_running(0) {
        return false;
    }
    part.ended(0, EndsWith::Gives);
    true
}

/// Tells a part what it answers nothing to.
fn tell(part: &mut Part, call: Move) -> bool {
    match call {
        Hears(words) => part.told_length(words),
        Waits(now) => part.unknown(now),
        Breaks => part.breaks(Fault::Dropped),
        Unreads(now) if part.has_place(0) => {
            part.unread(now, 0);
            return part.wanted().first() == Some(&Some(now.saturating_add(20)));
        }
        _ => return false,
    }
    true
}

/// Makes a call. It says whether the call may be made, and is answered so.
fn is_answered(part: &mut Part, call: Move) -> bool {
    match call {
        Plans(word, note, of) => plans(part, word, note, of),
        Asks(now, wanted) => part.question(now) == wanted,
        Reads(now, other) => reads(part, now, other),
        Stands | Refuses(_) | Meets(..) | Misses(..) => is_put_answered(part, call),
        Closes => closes(part),
        Ends => ends(part),
        Tells(wanted) => part.next(0) == wanted,
        TellsAt(now, wanted) => part.next(now) == wanted,
        Owes(wanted) => part.owed().first() == Some(&wanted),
        Faults(wanted) => part.fault() == wanted,
        Calls(stage, wanted) => function_of(part.notes(), stage) == wanted,
        Times(stage, moment, place) => is_timed(part, stage, moment, place),
        Hears(_) | Waits(_) | Breaks | Unreads(_) => tell(part, call),
    }
}

/// Whether a stage times out at this moment, by the entry at this place.
fn is_timed(part: &Part, stage: u16, moment: u64, place: u64) -> bool {
    let timer = Timer {
        moment,
        gives: false,
        place,
    };
    timer_of(part.notes(), stage) == Some(timer)
}

/// Makes calls, one after another.
fn make_all(rt: &impl Abort, part: &mut Part, name: &'static str, calls: &[Move]) {
    for (at, call) in calls.iter().enumerate() {
        holds(rt, is_answered(part, *call), (name, at));
    }
}

#[test]
fn does_what_is_to_be_done(rt: HostRuntime) {
    for (name, is_wanted, calls) in &CASES {
        let mut part = part_of(&rt, rt.alloc(), *is_wanted);
        make_all(&rt, &mut part, *name, *calls);
        drop(part);
    }
}

#[test]
fn grows_beside_a_put(rt: HostRuntime) {
    let mut part = part_of(&rt, rt.alloc(), false);
    make_all(&rt, &mut part, "attaches", &ATTACHES);
    holds(&rt, !part.has_place(3), "no places");
    holds(&rt, part.view().ledger().has_place(2), "place");
    must(&rt, part.grow(rt.alloc(), 2));
    holds(&rt, part.has_place(3), "places");
    make_all(&rt, &mut part, "grown", &GROWN);
    drop(part);
}
