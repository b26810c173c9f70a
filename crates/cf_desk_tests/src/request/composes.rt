//! Composes whose functions answer stages that aren't lower.
use crate::request::steps::{Case, Step, play};
use cf_forms::{Args, LimitKind};
use cf_ledger::{Finish, LedgerFault, Reply, StepFault, Taken};
use cf_model::Attached;
use cf_outcome::{Cause, Outcome, Value};
use cf_request::{Composed, Composing, Deadline, Next};

/// Caller 0 gives source 0 the number 5.
const COMPLETE_0: u64 = 0x0100000100000005;
/// It gives stage 9 the number 6.
const COMPLETE_9: u64 = 0x0100009100000006;
/// It gives stage 7 the number 6.
const COMPLETE_7: u64 = 0x0100007100000006;
/// It cancels source 1, and stage 8.
const CANCEL_1: u64 = 0x0300001000000000;

const CANCEL_8: u64 = 0x0300008000000000;
/// It attaches a source.
const ATTACH: u64 = 0x0700000000000000;

const SETTLED: Result<Reply, LedgerFault> = Ok(Reply::Flag(true));

/// The compose that is attached first, and the one behind it.
const FIRST: Composed = Composed { relay: 7, stage: 8 };

const SECOND: Composed = Composed {
    relay: 9,
    stage: 10,
};

/// Caller 7 claims a compose of source 0.
const TAKES_8: Result<Next, StepFault> = Ok(Next {
    finish: None,
    taken: Some(Taken {
        stage: 8,
        function: Some(3),
        args: Args::One(Value::Int(5)),
        word: 0x0407008000000000,
    }),
});

const TAKES_10: Result<Next, StepFault> = Ok(Next {
    finish: None,
    taken: Some(Taken {
        stage: 10,
        function: Some(3),
        args: Args::One(Value::Int(5)),
        word: 0x040700a000000000,
    }),
});

/// It finishes a compose with a link to its relay.
const LINKS_8: Result<Finish, StepFault> = Ok(Finish {
    late: false,
    word: 0x0507008300000007,
});

const LINKS_8_LATE: Result<Finish, StepFault> = Ok(Finish {
    late: true,
    word: 0x0507008300000007,
});

const LINKS_10: Result<Finish, StepFault> = Ok(Finish {
    late: false,
    word: 0x050700a300000009,
});

/// A compose isn't attached for each reason, and then it is, and its function answers a source that came later.
const LATER: [Step; 22] = [
    Step::Compose(64, Composing::Compose, 0, 3, 3, Err(LedgerFault::NoEvent)),
    Step::Compose(7, Composing::Compose, 0, 4096, 3, Err(LedgerFault::NoEvent)),
    Step::Compose(7, Composing::Compose, 7, 3, 3, Err(LedgerFault::NoStage)),
    Step::Len(0),
    Step::Compose(7, Composing::Compose, 0, 3, 3, Ok(FIRST)),
    Step::Len(2),
    Step::Compose(7, Composing::Compose, 0, 3, 3, Err(LedgerFault::NoRoom)),
    Step::Apply(ATTACH, 0, Ok(Reply::Attach(Attached::At(9)))),
    Step::Apply(COMPLETE_0, 0, SETTLED),
    Step::Ready(3, 1),
    Step::Link(7, FIRST, 9, Err(StepFault::NotHeld)),
    Step::Next(7, 3, None, TAKES_8),
    Step::Link(64, FIRST, 9, Err(StepFault::NoCaller)),
    Step::Link(7, FIRST, 10, Err(StepFault::NoStage)),
    Step::Link(
        7,
        Composed { relay: 8, stage: 8 },
        9,
        Err(StepFault::NoStage),
    ),
    Step::Link(8, FIRST, 9, Err(StepFault::NotHeld)),
    Step::Len(5),
    Step::Link(7, FIRST, 9, LINKS_8),
    Step::Told(&[0]),
    Step::Apply(COMPLETE_9, 0, SETTLED),
    Step::Told(&[0, 9, 7, 8]),
    Step::Ends(8, Outcome::Value(Value::Int(6))),
];

/// The stage that the function answers is settled by then.
const SETTLED_BY_THEN: [Step; 6] = [
    Step::Compose(7, Composing::Compose, 0, 3, 3, Ok(FIRST)),
    Step::Apply(CANCEL_1, 0, SETTLED),
    Step::Apply(COMPLETE_0, 0, SETTLED),
    Step::Next(7, 3, None, TAKES_8),
    Step::Link(7, FIRST, 1, LINKS_8),
    Step::Ends(8, PASSED_ON),
];

/// It comes too late to matter.
const LATE: Deadline = Deadline {
    stage: 3,
    moment: 9,
    kind: LimitKind::Timeout(0),
};

/// There are so many relays and deadlines, and there is memory for more.
const AMONG_MANY: [Step; 9] = [
    Step::FollowOften(2, 3, 1_500),
    Step::DeadlineOften(LATE, 1_500),
    Step::Compose(7, Composing::Compose, 0, 3, 3, Ok(FIRST)),
    Step::Apply(COMPLETE_0, 0, SETTLED),
    Step::Next(7, 3, None, TAKES_8),
    Step::Link(7, FIRST, 1, LINKS_8),
    Step::Pass(9, Ok(())),
    Step::Told(&[0, 3, 2]),
    Step::Reserve(70_000),
];

/// Somebody has cancelled the compose by then.
const TOO_LATE: [Step; 6] = [
    Step::Compose(7, Composing::Compose, 0, 3, 3, Ok(FIRST)),
    Step::Apply(COMPLETE_0, 0, SETTLED),
    Step::Next(7, 3, None, TAKES_8),
    Step::Apply(CANCEL_8, 0, SETTLED),
    Step::Link(7, FIRST, 1, LINKS_8_LATE),
    Step::Ends(8, CANCELLED),
];

/// Two composes answer each other. They stay open until somebody settles a relay.
const IN_A_CIRCLE: [Step; 9] = [
    Step::Compose(7, Composing::Compose, 0, 3, 3, Ok(FIRST)),
    Step::Compose(7, Composing::Compose, 0, 3, 3, Ok(SECOND)),
    Step::Apply(COMPLETE_0, 0, SETTLED),
    Step::Next(7, 3, None, TAKES_8),
    Step::Next(7, 3, None, TAKES_10),
    Step::Link(7, FIRST, 10, LINKS_8),
    Step::Link(7, SECOND, 8, LINKS_10),
    Step::Apply(COMPLETE_7, 0, SETTLED),
    Step::Told(&[0, 7, 8, 9, 10]),
];

/// A compose answers itself. It stays open until somebody settles its relay.
const BY_ITSELF: [Step; 7] = [
    Step::Compose(7, Composing::Compose, 0, 3, 3, Ok(FIRST)),
    Step::Apply(COMPLETE_0, 0, SETTLED),
    Step::Next(7, 3, None, TAKES_8),
    Step::Link(7, FIRST, 8, LINKS_8),
    Step::Told(&[0]),
    Step::Apply(COMPLETE_7, 0, SETTLED),
    Step::Told(&[0, 7, 8]),
];

/// The function of an exceptional compose isn't called where there is no fault.
const NO_FAULT: [Step; 5] = [
    Step::Compose(7, Composing::ExceptionallyCompose, 0, 3, 3, Ok(FIRST)),
    Step::Apply(COMPLETE_0, 0, SETTLED),
    Step::Ready(3, 0),
    Step::Told(&[0, 8]),
    Step::Ends(8, Outcome::Value(Value::Int(5))),
];

/// A cancellation, as it is passed on, and as it is.
const PASSED_ON: Outcome = Outcome::Fault {
    cause: Cause::Cancelled,
    wrapped: true,
};

const CANCELLED: Outcome = Outcome::Fault {
    cause: Cause::Cancelled,
    wrapped: false,
};

static CASES: [Case; 7] = [
    Case {
        name: "a compose answers what came later",
        room: 3,
        parts: &[&LATER],
    },
    Case {
        name: "what is settled by then",
        room: 2,
        parts: &[&SETTLED_BY_THEN],
    },
    Case {
        name: "among many relays",
        room: 2,
        parts: &[&AMONG_MANY],
    },
    Case {
        name: "a compose that is cancelled",
        room: 2,
        parts: &[&TOO_LATE],
    },
    Case {
        name: "two in a circle",
        room: 4,
        parts: &[&IN_A_CIRCLE],
    },
    Case {
        name: "a compose answers itself",
        room: 2,
        parts: &[&BY_ITSELF],
    },
    Case {
        name: "no fault",
        room: 2,
        parts: &[&NO_FAULT],
    },
];

#[test]
fn composes_answer_any_stage(rt: HostRuntime) {
    play(&rt, rt.alloc(), &CASES);
}
