//! Events and their words.
use crate::checks::holds;
use cf_event::{Event, decode, encode, is_event};
use cf_forms::{Answer, Form, Of};
use cf_model::Failure;
use cf_outcome::Value;
use std::process::Abort;

/// What is known of an event or a word.
#[derive(Clone, Copy)]
enum Row {
    /// An event has this word.
    Word(Event, u64),
    /// A word is no event's.
    NoEvent(u64),
    /// Whether an event has a word. It has none if a number in it is too great.
    HasWord(Event, bool),
}

/// Whether the attaching of a stage by a caller has a word.
macro_rules! attaches {
    ($who:expr, $form:expr, $of:expr, $function:expr, $has:expr) => {
        Row::HasWord(
            Event::Attach {
                who: $who,
                form: $form,
                of: $of,
                function: $function,
            },
            $has,
        )
    };
}

static ROWS: [Row; 41] = [
    Row::Word(
        Event::Complete {
            who: 0,
            stage: 0,
            value: Value::Nil,
        },
        0x0100000000000000,
    ),
    Row::Word(
        Event::Complete {
            who: 63,
            stage: 4095,
            value: Value::Int(-2147483648),
        },
        0x013ffff180000000,
    ),
    Row::Word(
        Event::Fail {
            who: 1,
            stage: 2,
            code: 4294967295,
        },
        0x02010020ffffffff,
    ),
    Row::Word(Event::Cancel { who: 1, stage: 0 }, 0x0301000000000000),
    Row::Word(Event::Claim { who: 0, stage: 1 }, 0x0400001000000000),
    Row::Word(
        Event::FailAs {
            who: 63,
            stage: 4095,
            failure: Failure::TimedOut(0),
        },
        0x083ffff000000000,
    ),
    Row::Word(
        Event::FailAs {
            who: 1,
            stage: 0,
            failure: Failure::TimedOut(7),
        },
        0x0801000000000007,
    ),
    Row::Word(
        Event::FailAs {
            who: 0,
            stage: 2,
            failure: Failure::BadAnswer(4294967295),
        },
        0x08000021ffffffff,
    ),
    Row::Word(
        Event::Finish {
            who: 2,
            stage: 5,
            answer: Answer::Give(Value::Int(-1)),
        },
        0x05020051ffffffff,
    ),
    Row::Word(
        Event::Finish {
            who: 0,
            stage: 1,
            answer: Answer::Throw(7),
        },
        0x0500001200000007,
    ),
    Row::Word(
        Event::Finish {
            who: 0,
            stage: 3,
            answer: Answer::Link(1),
        },
        0x0500003300000001,
    ),
    Row::Word(Event::Tick { who: 0, moment: 20 }, 0x0600000000000014),
    Row::Word(
        Event::Attach {
            who: 0,
            form: Form::Source,
            of: Of::None,
            function: None,
        },
        0x0700000000000000,
    ),
    Row::Word(
        Event::Attach {
            who: 0,
            form: Form::Apply,
            of: Of::One(0),
            function: Some(0),
        },
        0x0700000103000000,
    ),
    Row::Word(
        Event::Attach {
            who: 63,
            form: Form::Combine,
            of: Of::Two(2, 4095),
            function: Some(4095),
        },
        0x073f002206ffffff,
    ),
    Row::Word(
        Event::Attach {
            who: 0,
            form: Form::AnyOf,
            of: Of::None,
            function: None,
        },
        0x0700000011000000,
    ),
    Row::Word(
        Event::Attach {
            who: 0,
            form: Form::ExceptionallyCompose,
            of: Of::One(0),
            function: Some(2),
        },
        0x0700000112000002,
    ),
    // Words of no event.
    Row::NoEvent(0x0000000000000000),
    Row::NoEvent(0x0100000000000001),
    Row::NoEvent(0x0100000200000000),
    Row::NoEvent(0x0140000000000000),
    Row::NoEvent(0x0500000300010000),
    Row::NoEvent(0x0600001000000000),
    Row::NoEvent(0x0700000000000001),
    Row::NoEvent(0x0700001000000000),
    Row::NoEvent(0x0700000003000000),
    Row::NoEvent(0x0700000303000000),
    Row::NoEvent(0x0700000113000002),
    Row::NoEvent(0x0740000000000000),
    Row::NoEvent(0x0800000200000000),
    Row::NoEvent(0x0840000000000001),
    Row::NoEvent(0x0900000000000000),
    // Numbers that are too great.
    Row::HasWord(
        Event::FailAs {
            who: 0,
            stage: 4096,
            failure: Failure::TimedOut(7),
        },
        false,
    ),
    Row::HasWord(Event::Cancel { who: 64, stage: 0 }, false),
    Row::HasWord(
        Event::Claim {
            who: 0,
            stage: 4096,
        },
        false,
    ),
    attaches!(63, Form::RunBoth, Of::Two(4095, 4095), Some(4095), true),
    attaches!(64, Form::RunBoth, Of::Two(0, 0), Some(0), false),
    attaches!(0, Form::RunBoth, Of::Two(4096, 0), Some(0), false),
    attaches!(0, Form::RunBoth, Of::Two(0, 4096), Some(0), false),
    attaches!(0, Form::RunBoth, Of::Two(0, 0), Some(4096), false),
    attaches!(0, Form::AnyOf, Of::One(4096), None, false),
];

/// Whether this is the word of an event.
fn has_word(event: &Event, word: u64) -> bool {
    is_event(event) && encode(event) == word && decode(word) == Some(*event)
}

/// Whether a word is an event's, which then has this word.
pub(crate) fn is_word(rt: &impl Abort, word: u64) -> bool {
    match decode(word) {
        None => false,
        Some(event) => {
            holds(rt, is_event(&event) && encode(&event) == word, word);
            true
        }
    }
}

/// How many words that differ from this one in one bit are an event's.
fn count_near(rt: &impl Abort, word: u64) -> u32 {
    let mut good: u32 = 0;
    for bit in 0..64u32 {
        if is_word(rt, word ^ (1 << bit)) {
            good = good.saturating_add(1);
        }
    }
    good
}

/// Whether a row is so.
fn is_so(row: Row) -> bool {
    match row {
        Row::Word(event, word) => has_word(&event, word),
        Row::NoEvent(word) => decode(word).is_none(),
        Row::HasWord(event, has) => is_event(&event) == has,
    }
}

/// A word that differs from a good one in one bit is the word of its event, or of none. Says how many are an event's.
fn count_near_row(rt: &impl Abort, row: Row) -> u32 {
    match row {
        Row::Word(_, word) => count_near(rt, word),
        _ => 0,
    }
}

#[test]
fn each_event_has_its_word(rt: HostRuntime) {
    let mut good: u32 = 0;
    for (at, row) in ROWS.iter().enumerate() {
        holds(&rt, is_so(*row), at);
        good = good.saturating_add(count_near_row(&rt, *row));
    }
    holds(&rt, good == 621, good);
}
