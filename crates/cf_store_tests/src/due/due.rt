//! What is due of a request of three stages, as rows: a source, which may be a promise, a supply, and an apply of the supply.
use crate::checks::{holds, must};
use cf_due::{Due, Finishing, next_due};
use cf_forms::Form;
use cf_notes::{EndsWith, Note, Noted, Owed, Source, Timer, Want};
use cf_plan::{Plan, PlanBuilder};
use cf_row::{Entry, Row, TOKENS};
use cf_watch::Watch;
use std::alloc::Global;
use std::process::Abort;

/// Session 1, for which words are put, and session 2.
const OWN: u64 = TOKENS;

const OTHERS: u64 = 2 * TOKENS;

/// Caller 0 claims the supply, and completes it with the payload at place 5.
const CLAIM: u64 = 0x0400001000000000;

const COMPLETE: u64 = 0x0100001100000005;

/// What is known beside the row.
#[derive(Clone, Copy)]
struct Case {
    seen: Option<Entry>,
    supply: Noted,
    source: Noted,
    owed: Option<Owed>,
    is_gone: bool,
    clock: u64,
    may_claim: bool,
    due: Option<Due>,
}

/// A stage that has no function, and of which nothing else was noted.
const PLAIN: Noted = Noted {
    function: None,
    tries: None,
    promise: None,
    given: None,
    timer: None,
    abandoned: None,
};

/// One whose function is known.
const KNOWN: Noted = Noted {
    function: Some(7),
    ..PLAIN
};

/// A word without a note.
const WORD: Want = Want {
    word: CLAIM,
    note: Note::Nothing,
    source: Source::Nothing,
};

/// Nothing was put, and the function of the supply is known.
const START: Case = Case {
    seen: None,
    supply: KNOWN,
    source: PLAIN,
    owed: None,
    is_gone: false,
    clock: 0,
    may_claim: true,
    due: Some(Due::Claim(WORD)),
};

/// Session 1 has the supply.
const CLAIMED: Case = Case {
    seen: Some(Entry {
        word: CLAIM,
        token: OWN,
    }),
    due: None,
    ..START
};

/// Session 2 has the supply, or has completed it.
const ANOTHERS: Case = Case {
    seen: Some(Entry {
        word: CLAIM,
        token: OTHERS,
    }),
    due: None,
    ..START
};

const COMPLETED: Case = Case {
    seen: Some(Entry {
        word: COMPLETE,
        token: OTHERS,
    }),
    may_claim: false,
    due: None,
    ..START
};

const GAVE: Owed = Owed {
    answer: EndsWith::Gives,
    is_error: false,
};

/// Its function gave the apply. That settles a promise only where it composes one.
const LINKS: Owed = Owed {
    answer: EndsWith::Links { stage: 2 },
    is_error: false,
};

const COMPOSES: Noted = Noted {
    promise: Some(0),
    ..KNOWN
};

/// The finish of the supply with the payload at place 2.
const FINISH: Want = Want {
    word: 0x0500001100000002,
    note: Note::Nothing,
    source: Source::Ended { stage: 1 },
};

/// A timer at moment 10.
const TIMES_OUT: Timer = Timer {
    moment: 10,
    gives: false,
    place: 3,
};

const GETS: Timer = Timer {
    gives: true,
    ..TIMES_OUT
};

static CASES: [Case; 18] = [
    START,
    Case {
        may_claim: false,
        due: None,
        ..START
    },
    Case {
        supply: Noted {
            function: Some(0),
            ..PLAIN
        },
        due: None,
        ..START
    },
    CLAIMED,
    Case {
        owed: Some(GAVE),
        due: Some(Due::Finish(Finishing {
            stage: 1,
            finish: FINISH,
            claim: Some(Want {
                word: 0x0400002000000000,
                ..WORD
            }),
        })),
        ..CLAIMED
    },
    Case {
        owed: Some(GAVE),
        may_claim: false,
        due: Some(Due::Finish(Finishing {
            stage: 1,
            finish: FINISH,
            claim: None,
        })),
        ..CLAIMED
    },
    Case {
        supply: COMPOSES,
        owed: Some(LINKS),
        due: Some(Due::Finish(Finishing {
            stage: 1,
            finish: Want {
                word: 0x0500001300000000,
                note: Note::Gives { stage: 2 },
                source: Source::Nothing,
            },
            claim: None,
        })),
        ..CLAIMED
    },
    Case {
        owed: Some(LINKS),
        due: Some(Due::Finish(Finishing {
            stage: 1,
            finish: Want {
                word: 0x0500001200000002,
                note: Note::Nothing,
                source: Source::Error { stage: 1 },
            },
            claim: None,
        })),
        ..CLAIMED
    },
    Case {
        owed: Some(GAVE),
        ..ANOTHERS
    },
    ANOTHERS,
    Case {
        is_gone: true,
        due: Some(Due::Abandon(Want {
            word: 0x0201001000000002,
            note: Note::Abandons,
            source: Source::Gone { stage: 1 },
        })),
        ..ANOTHERS
    },
    COMPLETED,
    Case {
        source: Noted {
            given: Some(1),
            ..PLAIN
        },
        due: Some(Due::Link(Want {
            word: 0x0101000100000005,
            ..WORD
        })),
        ..COMPLETED
    },
    Case {
        supply: COMPOSES,
        due: Some(Due::Cancel(Want {
            word: 0x0301000000000000,
            ..WORD
        })),
        ..COMPLETED
    },
    Case {
        source: Noted {
            timer: Some(TIMES_OUT),
            ..PLAIN
        },
        clock: 9,
        ..COMPLETED
    },
    Case {
        source: Noted {
            timer: Some(TIMES_OUT),
            ..PLAIN
        },
        clock: 10,
        due: Some(Due::Timer(Want {
            word: 0x0801000000000000,
            ..WORD
        })),
        ..COMPLETED
    },
    Case {
        source: Noted {
            timer: Some(GETS),
            ..PLAIN
        },
        clock: 10,
        due: Some(Due::Timer(Want {
            word: 0x0101000100000003,
            ..WORD
        })),
        ..COMPLETED
    },
    Case {
        may_claim: true,
        due: Some(Due::Claim(Want {
            word: 0x0401002000000000,
            ..WORD
        })),
        ..COMPLETED
    },
];

/// The plan of the three stages.
fn plan_of(rt: &impl Abort, alloc: Global) -> Plan {
    let mut builder = PlanBuilder::new(alloc);
    must(rt, builder.stage(Form::Source, &[], None));
    must(rt, builder.stage(Form::Supply, &[], Some(0)));
    must(rt, builder.stage(Form::Apply, &[1], Some(1)));
    must(rt, builder.build())
}

/// The row of session 1, with room for so many stages more, which has seen this entry.
pub(crate) fn row_of(rt: &impl Abort, alloc: Global, room: u16, seen: Option<Entry>) -> Row {
    let plan = plan_of(rt, alloc);
    holds(rt, plan.has_place(room), "place");
    let mut row = must(rt, Row::new(alloc, &plan, room, 1, 1));
    drop(plan);
    if let Some(entry) = seen {
        let _ = must(rt, row.saw(entry));
    }
    row
}

/// A watch that knows session 2, which is gone or isn't.
fn watch_of(rt: &impl Abort, alloc: Global, is_gone: bool) -> Watch {
    let mut watch = Watch::new(alloc, 100);
    must(rt, watch.notice(2));
    if is_gone {
        for asked in [0, 1, 60, 120, 180] {
            must(rt, watch.take_answer(asked, asked, &[]));
        }
    }
    watch
}

/// What is due in a case, by this row and this watch.
fn due_in(row: &Row, watch: &Watch, case: &Case) -> Option<Due> {
    let notes = [case.source, case.supply, KNOWN];
    let owed = [None, case.owed, None];
    next_due(
        row.replica(),
        &notes,
        &owed,
        watch,
        case.clock,
        case.may_claim,
    )
}

#[test]
fn tells_what_is_due(rt: HostRuntime) {
    for (at, case) in CASES.iter().enumerate() {
        let watch = watch_of(&rt, rt.alloc(), case.is_gone);
        let row = row_of(&rt, rt.alloc(), 0, case.seen);
        let due = due_in(&row, &watch, case);
        drop(row);
        drop(watch);
        holds(&rt, due == case.due, at);
    }
}
