//! What acts put in a row of a source, a supply that session 2 has claimed, and an apply of it. Session 1 has number 1.
use crate::checks::holds;
use crate::due::due::row_of;
use cf_due::{Act, Acting, NoAct, act_on};
use cf_forms::{Form, Of};
use cf_notes::{Note, Noted, Source, Want};
use cf_row::{Entry, Row, TOKENS};
use std::alloc::Global;
use std::process::Abort;

/// What session 2 has put, an act where there is room for so many stages, and what comes of it.
struct Case {
    seen: u64,
    act: Act,
    room: u16,
    told: Result<Acting, NoAct>,
}

/// The claim of the supply, and its cancellation.
const CLAIM: u64 = 0x0400001000000000;

const CANCEL: u64 = 0x0300001000000000;

/// An attach of a stage that composes, behind the supply.
const COMPOSE: Act = Act::Attach {
    form: Form::Compose,
    of: Of::One(1),
    function: Some(9),
};

/// One word without note and payload.
const WORD: Want = Want {
    word: 0x0301000000000000,
    note: Note::Nothing,
    source: Source::Nothing,
};

const PLAIN: Noted = Noted {
    function: None,
    tries: None,
    promise: None,
    given: None,
    timer: None,
    abandoned: None,
};

static CASES: [Case; 16] = [
    Case {
        seen: CLAIM,
        act: Act::Complete { stage: 0 },
        room: 0,
        told: Ok(Acting {
            first: Want {
                word: 0x0101000100000002,
                note: Note::Nothing,
                source: Source::Given,
            },
            second: None,
        }),
    },
    Case {
        seen: CLAIM,
        act: Act::Complete { stage: 3 },
        room: 0,
        told: Err(NoAct::NoStage),
    },
    Case {
        seen: CLAIM,
        act: Act::Fail { stage: 0 },
        room: 0,
        told: Ok(Acting {
            first: Want {
                word: 0x0201000000000002,
                note: Note::Nothing,
                source: Source::Given,
            },
            second: None,
        }),
    },
    Case {
        seen: CLAIM,
        act: Act::Cancel {
            stage: 0,
            only_idle: true,
        },
        room: 0,
        told: Ok(Acting {
            first: WORD,
            second: None,
        }),
    },
    Case {
        seen: CLAIM,
        act: Act::Cancel {
            stage: 1,
            only_idle: true,
        },
        room: 0,
        told: Err(NoAct::Runs),
    },
    Case {
        seen: CLAIM,
        act: Act::Cancel {
            stage: 1,
            only_idle: false,
        },
        room: 0,
        told: Ok(Acting {
            first: Want {
                word: 0x0301001000000000,
                note: Note::Nothing,
                source: Source::Nothing,
            },
            second: None,
        }),
    },
    Case {
        seen: CLAIM,
        act: Act::Limit {
            stage: 0,
            moment: 40,
            gives: true,
        },
        room: 0,
        told: Ok(Acting {
            first: Want {
                word: 0x0601000000000000,
                note: Note::Timer {
                    stage: 0,
                    moment: 40,
                    gives: true,
                },
                source: Source::Given,
            },
            second: None,
        }),
    },
    Case {
        seen: CLAIM,
        act: Act::Attach {
            form: Form::Apply,
            of: Of::One(0),
            function: Some(9),
        },
        room: 1,
        told: Ok(Acting {
            first: Want {
                word: 0x0701000103000003,
                note: Note::Calls { function: 9 },
                source: Source::Nothing,
            },
            second: None,
        }),
    },
    Case {
        seen: CLAIM,
        act: Act::Attach {
            form: Form::Source,
            of: Of::None,
            function: None,
        },
        room: 1,
        told: Ok(Acting {
            first: Want {
                word: 0x0701000000000000,
                note: Note::Nothing,
                source: Source::Nothing,
            },
            second: None,
        }),
    },
    Case {
        seen: CLAIM,
        act: COMPOSE,
        room: 2,
        told: Ok(Acting {
            first: Want {
                word: 0x0701000000000000,
                note: Note::Nothing,
                source: Source::Nothing,
            },
            second: Some(Want {
                word: 0x070100110c000004,
                note: Note::Composes {
                    function: 9,
                    promise: 3,
                },
                source: Source::Nothing,
            }),
        }),
    },
    Case {
        seen: CLAIM,
        act: COMPOSE,
        room: 1,
        told: Err(NoAct::NoRoom),
    },
    Case {
        seen: CLAIM,
        act: Act::Again { stage: 1 },
        room: 1,
        told: Ok(Acting {
            first: Want {
                word: 0x070100110f000003,
                note: Note::Tries { of: 1 },
                source: Source::Nothing,
            },
            second: None,
        }),
    },
    Case {
        seen: CLAIM,
        act: Act::Again { stage: 0 },
        room: 1,
        told: Err(NoAct::NoTry),
    },
    Case {
        seen: CLAIM,
        act: Act::Again { stage: 1 },
        room: 0,
        told: Err(NoAct::NoRoom),
    },
    Case {
        seen: CANCEL,
        act: Act::Fail { stage: 1 },
        room: 0,
        told: Err(NoAct::Settled { is_as_asked: false }),
    },
    Case {
        seen: CANCEL,
        act: Act::Cancel {
            stage: 1,
            only_idle: true,
        },
        room: 0,
        told: Err(NoAct::Settled { is_as_asked: true }),
    },
];

/// Whether an act comes to what a case says, by this row.
fn is_told(row: &Row, case: &Case) -> bool {
    let supply = Noted {
        function: Some(7),
        ..PLAIN
    };
    let apply = Noted {
        function: Some(8),
        ..PLAIN
    };
    let notes = [PLAIN, supply, apply];
    case.act.fits() && act_on(row.replica(), &notes, case.act) == case.told
}

#[test]
fn tells_what_acts_put(rt: HostRuntime) {
    for (at, case) in CASES.iter().enumerate() {
        let seen = Entry {
            word: case.seen,
            token: 2 * TOKENS,
        };
        let row = row_of(&rt, rt.alloc(), case.room, Some(seen));
        let is_so = is_told(&row, case);
        drop(row);
        holds(&rt, is_so, at);
    }
}
