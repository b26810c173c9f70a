//! What a process of session 1 with one thread does in requests of one stage with a function, call by call.
use crate::checks::{holds, must};
use cf_due::Act;
use cf_forms::{Args, Form};
use cf_host::{Host, Length, Look, NoAnswer, NoCall, Order};
use cf_notes::{EndsWith, Note};
use cf_outcome::{Outcome, Value};
use cf_part::{Entry, Fault, Question, Shown};
use cf_plan::{Plan, PlanBuilder};
use cf_turn::Told;
use std::alloc::Global;
use std::process::Abort;

/// One call, with what it answers last, where that is compared.
#[derive(Clone, Copy)]
enum Move {
    Tells(u64, Order),
    Beats(u64, u64),
    News(u64, usize),
    Opened(u64),
    Reads(u64),
    Stands(u64),
    Refuses(u64, u64),
    Loses(u64),
    Closes(u64),
    Waits(u64, u64),
    Drops(u64),
    Ends(u64),
    Unfit(u64, NoAnswer),
    Wants(u64),
    Unread(u64, u64),
    Grows(u64, u16),
    NoPlace(u64, u16),
    Limits(u64, u64),
    NotOpen(u64),
    Stirs(u64),
    Stops,
}

use Move::*;

/// Both requests have no words yet.
static LENGTHS: [Length; 2] = [
    Length {
        request: 9,
        words: 0,
    },
    Length {
        request: 10,
        words: 0,
    },
];

/// Session 2 fails stage 0.
const FAIL: Entry = Entry {
    word: 2 << 56 | 1 << 48 | 2,
    token: 2 << 23,
};

const BEATS: Order = Order::Beats { ticket: 1 };

const NEWS: Order = Order::News {
    ticket: 2,
    look: Look::Whole,
};

const OPEN: Order = Order::Open {
    ticket: 3,
    request: 9,
};

const READ: Order = Order::Row {
    ticket: 4,
    request: 9,
    question: Question::Read { at: 0 },
};

const CLAIM: Order = Order::Row {
    ticket: 5,
    request: 9,
    question: Question::Put { at: 0 },
};

const CALL: Order = Order::Call {
    ticket: 6,
    request: 9,
    stage: 0,
    function: 7,
    args: Args::None,
};

const FINISH: Order = Order::Row {
    ticket: 7,
    request: 9,
    question: Question::Put { at: 1 },
};

const SHOW: Order = Order::Show {
    request: 9,
    stage: 0,
    shown: Shown::Outcome(Outcome::Value(Value::Int(2))),
};

const CLOSE: Order = Order::Row {
    ticket: 8,
    request: 9,
    question: Question::Close { at: 2 },
};

/// A request of which a look tells is opened, read, claimed, called, finished and closed. Its value is shown again, since
/// it couldn't be read.
const WORKS: [Move; 30] = [
    NotOpen(9),
    Tells(0, BEATS),
    Tells(0, NEWS),
    Tells(0, Order::Sleep { until: u64::MAX }),
    Beats(0, 1),
    News(2, 1),
    Tells(0, OPEN),
    Tells(0, Order::Sleep { until: 200 }),
    Opened(3),
    Wants(9),
    Tells(0, READ),
    Reads(4),
    Tells(0, CLAIM),
    Grows(9, 4),
    NoPlace(9, 4096),
    Unfit(6, NoAnswer::NoTicket),
    Stands(5),
    Unfit(5, NoAnswer::NoTicket),
    Tells(0, CALL),
    Unfit(6, NoAnswer::Unfit),
    Ends(6),
    Tells(0, FINISH),
    Stands(7),
    Tells(0, SHOW),
    Unread(0, 9),
    Tells(0, CLOSE),
    Closes(8),
    Tells(19, Order::Sleep { until: 200 }),
    Tells(20, SHOW),
    Tells(0, Order::Sleep { until: 200 }),
];

/// One thread claims in one of two requests, and in the other one once the first function has ended.
const SHARES: [Move; 20] = [
    Tells(0, BEATS),
    Tells(0, NEWS),
    Beats(0, 1),
    News(2, 2),
    Tells(0, OPEN),
    Tells(
        0,
        Order::Open {
            ticket: 4,
            request: 10,
        },
    ),
    Opened(3),
    Opened(4),
    Tells(
        0,
        Order::Row {
            ticket: 5,
            request: 9,
            question: Question::Read { at: 0 },
        },
    ),
    Tells(
        0,
        Order::Row {
            ticket: 6,
            request: 10,
            question: Question::Read { at: 0 },
        },
    ),
    Reads(5),
    Reads(6),
    Tells(
        0,
        Order::Row {
            ticket: 7,
            request: 9,
            question: Question::Put { at: 0 },
        },
    ),
    Tells(0, Order::Sleep { until: 200 }),
    Refuses(0, 7),
    Tells(
        0,
        Order::Row {
            ticket: 8,
            request: 10,
            question: Question::Put { at: 0 },
        },
    ),
    Tells(20, Order::Sleep { until: 200 }),
    Drops(8),
    Tells(
        20,
        Order::Row {
            ticket: 9,
            request: 9,
            question: Question::Put { at: 0 },
        },
    ),
    Tells(20, Order::Sleep { until: 200 }),
];

/// Beats and looks that stay without an answer are asked for again; so is a plan.
const WAITS: [Move; 16] = [
    Tells(0, BEATS),
    Waits(5, 1),
    Tells(5, NEWS),
    Waits(6, 2),
    Tells(6, Order::Sleep { until: 25 }),
    Tells(25, Order::Beats { ticket: 3 }),
    Tells(
        26,
        Order::News {
            ticket: 4,
            look: Look::Whole,
        },
    ),
    Beats(26, 3),
    News(4, 1),
    Tells(
        26,
        Order::Open {
            ticket: 5,
            request: 9,
        },
    ),
    Waits(30, 5),
    Tells(30, Order::Sleep { until: 50 }),
    Tells(
        50,
        Order::Open {
            ticket: 6,
            request: 9,
        },
    ),
    Drops(6),
    Stirs(50),
    Tells(
        50,
        Order::News {
            ticket: 7,
            look: Look::Since(3),
        },
    ),
];

/// A process that is stopped claims nothing, and looks at the store's clock when a timer comes.
const TIMES: [Move; 17] = [
    Stops,
    Tells(0, BEATS),
    Tells(0, NEWS),
    Beats(0, 1),
    News(2, 1),
    Tells(0, OPEN),
    Opened(3),
    Tells(0, READ),
    Reads(4),
    Tells(0, Order::Sleep { until: 200 }),
    Limits(0, 5),
    Tells(
        0,
        Order::Row {
            ticket: 6,
            request: 9,
            question: Question::Put { at: 0 },
        },
    ),
    Stands(6),
    Tells(
        0,
        Order::Tell {
            ticket: 5,
            told: Told::Stands { stage: 0 },
        },
    ),
    Tells(0, Order::Sleep { until: 100 }),
    Tells(99, Order::Sleep { until: 100 }),
    Tells(100, Order::Beats { ticket: 7 }),
];

/// A look at all is due with each beat. A request that somebody waits for, and of which it doesn't tell, is read: it was
/// dropped.
const MISSES: [Move; 19] = [
    Stops,
    Tells(0, BEATS),
    Tells(0, NEWS),
    Beats(0, 1),
    News(2, 1),
    Tells(0, OPEN),
    Opened(3),
    Wants(9),
    Tells(0, READ),
    Reads(4),
    Tells(0, Order::Sleep { until: 200 }),
    Tells(2000, Order::Beats { ticket: 5 }),
    Tells(
        2000,
        Order::News {
            ticket: 6,
            look: Look::Whole,
        },
    ),
    Beats(2000, 5),
    News(6, 0),
    Tells(
        2000,
        Order::News {
            ticket: 7,
            look: Look::Since(3),
        },
    ),
    Tells(
        2000,
        Order::Row {
            ticket: 8,
            request: 9,
            question: Question::Read { at: 0 },
        },
    ),
    Drops(8),
    Tells(
        0,
        Order::Show {
            request: 9,
            stage: 0,
            shown: Shown::Fault(Fault::Dropped),
        },
    ),
];

/// Others have failed a stage of this session's. It claims nothing before it has beaten, which it does at once.
const LOSES: [Move; 23] = [
    Tells(0, BEATS),
    Tells(0, NEWS),
    Beats(0, 1),
    News(2, 2),
    Tells(0, OPEN),
    Tells(
        0,
        Order::Open {
            ticket: 4,
            request: 10,
        },
    ),
    Opened(3),
    Opened(4),
    Tells(
        0,
        Order::Row {
            ticket: 5,
            request: 9,
            question: Question::Read { at: 0 },
        },
    ),
    Tells(
        0,
        Order::Row {
            ticket: 6,
            request: 10,
            question: Question::Read { at: 0 },
        },
    ),
    Reads(5),
    Reads(6),
    Tells(
        0,
        Order::Row {
            ticket: 7,
            request: 9,
            question: Question::Put { at: 0 },
        },
    ),
    Stands(7),
    Tells(
        0,
        Order::Call {
            ticket: 8,
            request: 9,
            stage: 0,
            function: 7,
            args: Args::None,
        },
    ),
    Ends(8),
    Tells(
        0,
        Order::Row {
            ticket: 9,
            request: 9,
            question: Question::Put { at: 1 },
        },
    ),
    Loses(9),
    Tells(
        0,
        Order::Row {
            ticket: 10,
            request: 9,
            question: Question::Put { at: 2 },
        },
    ),
    Tells(0, Order::Beats { ticket: 11 }),
    Tells(0, Order::Sleep { until: 200 }),
    Beats(0, 11),
    Tells(
        0,
        Order::Row {
            ticket: 12,
            request: 10,
            question: Question::Put { at: 0 },
        },
    ),
];

/// What is done, by name.
static CASES: [(&str, &[Move]); 6] = [
    ("loses", &LOSES),
    ("misses", &MISSES),
    ("works", &WORKS),
    ("shares", &SHARES),
    ("waits", &WAITS),
    ("times", &TIMES),
];

/// A plan of one stage with a function.
fn plan_of(rt: &impl Abort, alloc: Global) -> Plan {
    let mut builder = PlanBuilder::new(alloc);
    must(rt, builder.stage(Form::Supply, &[], Some(0)));
    must(rt, builder.build())
}

/// Whether a request of this plan is opened, in which one stage calls function 7. It is a flow's.
fn opens(host: &mut Host, plan: &Plan, ticket: u64) -> bool {
    let notes = [Note::Calls { function: 7 }];
    host.opened(ticket, plan, &notes, 1, true).is_ok()
}

/// Whether a limit of the request's stage is asked for, by this ticket.
fn limits(host: &mut Host, now: u64, ticket: u64) -> bool {
    let act = Act::Limit {
        stage: 0,
        moment: 5100,
        gives: false,
    };
    host.act(now, 9, act) == Ok(ticket)
}

/// Whether a request has no place for one stage behind its room, and has it with room for so many more.
fn grows(host: &mut Host, request: u64, more: u16) -> bool {
    let last = more.saturating_add(1);
    let lacks = host.wants(request, last) == Err(NoCall::Unfit);
    let grows = host.grow(request, more).is_ok();
    lacks & grows & host.wants(request, last).is_ok() & host.lets_go(request, last).is_ok()
}

/// Whether a user's call is answered so.
fn is_asked(host: &mut Host, call: Move) -> bool {
    match call {
        Wants(request) => host.wants(request, 0).is_ok(),
        Unread(now, request) => host.unread(now, request, 0).is_ok(),
        Grows(request, more) => grows(host, request, more),
        NoPlace(request, more) => host.grow(request, more) == Err(NoCall::Unfit),
        NotOpen(request) => host.wants(request, 0) == Err(NoCall::NotOpen),
        Limits(now, ticket) => limits(host, now, ticket),
        Stirs(now) => {
            host.stirred(now);
            true
        }
        Stops => {
            host.stop();
            true
        }
        _ => false,
    }
}

/// Whether an answer about a row is taken so.
fn is_row_answered(host: &mut Host, call: Move) -> bool {
    match call {
        Reads(ticket) => host.entries(0, ticket, &[], &[]).is_ok(),
        Stands(ticket) => host.stands(ticket).is_ok(),
        Refuses(now, ticket) => host.refused(now, ticket).is_ok(),
        Loses(ticket) => host.entries(0, ticket, &[FAIL], &[Note::Nothing]).is_ok(),
        Closes(ticket) => host.closed(ticket, true).is_ok(),
        Drops(ticket) => host.dropped(ticket).is_ok(),
        Ends(ticket) => host.ended(ticket, EndsWith::Gives).is_ok(),
        Unfit(ticket, why) => host.stands(ticket) == Err(why),
        _ => is_asked(host, call),
    }
}

/// Whether a turn at this moment tells so.
fn tells(host: &mut Host, now: u64, wanted: Order) -> bool {
    match host.turn(now) {
        Ok(told) => told == wanted,
        Err(_) => false,
    }
}

/// Whether a call is answered so.
fn is_answered(host: &mut Host, plan: &Plan, call: Move) -> bool {
    match call {
        Tells(now, wanted) => tells(host, now, wanted),
        Beats(now, ticket) => host.beats(now, ticket, &[], 5000).is_ok(),
        News(ticket, many) => host.news(0, ticket, &LENGTHS[..many.min(2)], 3).is_ok(),
        Waits(now, ticket) => host.unknown(now, ticket).is_ok(),
        Opened(ticket) => opens(host, plan, ticket),
        _ => is_row_answered(host, call),
    }
}

/// Makes calls, one after another.
fn make_all(rt: &impl Abort, host: &mut Host, plan: &Plan, name: &'static str, calls: &[Move]) {
    for (at, call) in calls.iter().enumerate() {
        holds(rt, is_answered(host, plan, *call), (name, at));
    }
}

#[test]
fn does_what_is_to_be_done(rt: HostRuntime) {
    let plan = plan_of(&rt, rt.alloc());
    for (name, calls) in &CASES {
        let mut host = Host::new(rt.alloc(), 1, 1, 10000, true);
        make_all(&rt, &mut host, &plan, *name, *calls);
        drop(host);
    }
}
