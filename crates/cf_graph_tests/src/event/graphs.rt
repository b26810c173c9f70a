//! What events do to graphs, as rows.
use crate::graph::plans::{NONE, Rows, SOURCE};
use crate::graph::steps::{Case, Step};
use cf_event::{Event, Reply};
use cf_forms::{Args, Form};
use cf_model::{Attached, Claimed, Ticked};
use cf_outcome::Value;

/// A source, and an anyOf of it.
const PAIR: Rows = Rows {
    stages: &[SOURCE, (Form::AnyOf, &[0], None)],
    ..NONE
};

const COMPLETES: Event = Event::Complete {
    who: 0,
    stage: 0,
    value: Value::Nil,
};

/// With these turns before the completion and before the tick behind it, so many are counted.
macro_rules! counts {
    ($nudges:expr, $turns:expr) => {
        Case {
            name: "turns are taken before their event",
            rows: &PAIR,
            room: None,
            steps: &[&[
                Step::Replays(COMPLETES, $nudges),
                Step::Turns($turns),
            ]],
        }
    };
}

const SUPPLY: Rows = Rows {
    stages: &[(Form::Supply, &[], Some(0))],
    ..NONE
};

/// A claim is granted, and a tick behind a later one is past. There may be more turns than events.
const CLAIMS: [Step; 3] = [
    Step::Event(
        Event::Claim { who: 1, stage: 0 },
        Reply::Claim(Claimed::Granted(Args::None)),
    ),
    Step::Replays(Event::Tick { who: 0, moment: 5 }, &[2, 3, 4]),
    Step::Event(Event::Tick { who: 1, moment: 4 }, Reply::Tick(Ticked::Past)),
];

const ONE_SOURCE: Rows = Rows {
    stages: &[SOURCE],
    ..NONE
};

/// Words name stages that words before them attach.
const WORDS: [Step; 7] = [
    Step::Word(0x0402001000000000, None),
    Step::Word(0x0700000103000006, Some(Reply::Attach(Attached::At(1)))),
    Step::Word(0x0700001110000000, Some(Reply::Attach(Attached::At(2)))),
    Step::Word(
        0x0700000000000000,
        Some(Reply::Attach(Attached::StagesFull)),
    ),
    Step::Word(0x0101000100000005, Some(Reply::Flag(true))),
    Step::Word(
        0x0402001000000000,
        Some(Reply::Claim(Claimed::Granted(Args::One(Value::Int(5))))),
    ),
    Step::Stages(3),
];

pub(crate) static CASES: [Case; 6] = [
    counts!(&[], 0),
    counts!(&[9], 0),
    counts!(&[9, 0], 0),
    counts!(&[0, 9], 1),
    Case {
        name: "claims and ticks",
        rows: &SUPPLY,
        room: None,
        steps: &[&CLAIMS],
    },
    Case {
        name: "words name attached stages",
        rows: &ONE_SOURCE,
        room: Some(2),
        steps: &[&WORDS],
    },
];
