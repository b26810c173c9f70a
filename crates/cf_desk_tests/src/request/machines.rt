use crate::request::steps::{Case, Step, play};
use cf_forms::{Answer, Args, LimitKind};
use cf_ledger::{Finish, Held, LedgerFault, Reply, StepFault, Taken};
use cf_model::Attached;
use cf_outcome::{Cause, Outcome, Value};
use cf_request::{Deadline, Gathering, MachineFault, Next};

/// Caller 0 gives sources 0 and 1 the number 5.
const COMPLETE_0: u64 = 0x0100000100000005;

const COMPLETE_1: u64 = 0x0100001100000005;
/// It cancels source 0.
const CANCEL_0: u64 = 0x0300000000000000;
/// It fails source 0 as timed out, or with a bad answer.
const TIMED_OUT_0: u64 = 0x0800000000000000;

const BAD_ANSWER_0: u64 = 0x0800000100000000;
/// The same with a code.
const TIMED_OUT_0_BY_7: u64 = 0x0800000000000007;

const BAD_ANSWER_0_BY_THE_LAST: u64 = 0x08000001ffffffff;
/// It attaches an apply of source 1 by function 3.
const ATTACH: u64 = 0x0700001103000003;
/// It claims stage 9, which isn't there.
const NO_STAGE: u64 = 0x0400009000000000;

const SETTLED: Result<Reply, LedgerFault> = Ok(Reply::Flag(true));

/// Nothing was held, and nothing is to be done.
const IDLE: Result<Next, StepFault> = Ok(Next {
    finish: None,
    taken: None,
});

/// The first apply is claimed by caller 7.
const TAKES: Result<Next, StepFault> = Ok(Next {
    finish: None,
    taken: Some(Taken {
        stage: 4,
        function: Some(0),
        args: Args::One(Value::Int(5)),
        word: 0x0407004000000000,
    }),
});

/// It is finished with 6, and nothing else is ready in lane 2.
const HELD: Option<Held> = Some(Held {
    stage: 4,
    answer: Answer::Give(Value::Int(6)),
});

const FINISHES: Result<Next, StepFault> = Ok(Next {
    finish: Some(Finish {
        late: false,
        word: 0x0507004100000006,
    }),
    taken: None,
});

/// A stage that isn't there, held.
const FAR: Option<Held> = Some(Held {
    stage: 9,
    answer: Answer::Give(Value::Nil),
});

const BY_LANES: [Step; 21] = [
    Step::Next(7, 1, None, IDLE),
    Step::Apply(COMPLETE_0, 0, SETTLED),
    Step::Ready(1, 1),
    Step::Ready(2, 0),
    Step::Next(7, 2, None, IDLE),
    Step::Next(64, 1, None, Err(StepFault::NoCaller)),
    Step::Next(7, 1, FAR, Err(StepFault::NoStage)),
    Step::Next(7, 1, HELD, Err(StepFault::NotHeld)),
    Step::Next(7, 1, None, TAKES),
    Step::Ready(1, 0),
    Step::Next(7, 2, HELD, FINISHES),
    Step::Ready(1, 1),
    Step::Told(&[0, 4]),
    Step::Took(1),
    Step::Told(&[4]),
    Step::Apply(0, 0, Err(LedgerFault::NoEvent)),
    Step::Apply(NO_STAGE, 0, Err(LedgerFault::NoStage)),
    Step::Apply(COMPLETE_1, 0, SETTLED),
    Step::Told(&[4, 1]),
    Step::Took(9),
    Step::Told(&[]),
];

const ATTACHES: [Step; 5] = [
    Step::Apply(ATTACH, 3, Ok(Reply::Attach(Attached::At(7)))),
    Step::Apply(ATTACH, 3, Err(LedgerFault::NoRoom)),
    Step::Apply(COMPLETE_1, 0, SETTLED),
    Step::Ready(2, 1),
    Step::Ready(3, 1),
];

/// Once there is room, all is as it was, and one more is attached.
const GROWN: [Step; 7] = [
    Step::Grow(16),
    Step::Told(&[1]),
    Step::Len(2),
    Step::Ready(2, 1),
    Step::Ready(3, 1),
    Step::Apply(ATTACH, 3, Ok(Reply::Attach(Attached::At(8)))),
    Step::Ready(3, 2),
];

/// It cancels source 2.
const CANCEL_2: u64 = 0x0300002000000000;

/// Stages 7, 8 and 9 gather four, one of them twice.
const GATHERS: [Step; 12] = [
    Step::Gather(64, Gathering::AllOf, &[7], Err(LedgerFault::NoEvent)),
    Step::Gather(7, Gathering::AllOf, &[0, 1, 7], Err(LedgerFault::NoStage)),
    Step::Gather(
        7,
        Gathering::AllOf,
        &[0, 1, 2, 3, 0],
        Err(LedgerFault::NoRoom),
    ),
    Step::Len(0),
    Step::Gather(7, Gathering::AllOf, &[0, 1, 2, 1], Ok(9)),
    Step::Gather(7, Gathering::AnyOf, &[], Err(LedgerFault::NoRoom)),
    Step::Len(3),
    Step::Apply(COMPLETE_0, 0, SETTLED),
    Step::Apply(CANCEL_2, 0, SETTLED),
    Step::Apply(COMPLETE_1, 0, SETTLED),
    Step::Told(&[0, 2, 1, 7, 8, 9]),
    Step::Ends(9, PASSED_ON),
];

/// A cancellation, as it is passed on.
const PASSED_ON: Outcome = Outcome::Fault {
    cause: Cause::Cancelled,
    wrapped: true,
};

const CANCELLED: Outcome = Outcome::Fault {
    cause: Cause::Cancelled,
    wrapped: false,
};

const TIMED_OUT: Outcome = Outcome::Fault {
    cause: Cause::TimedOut(0),
    wrapped: false,
};

const BAD_ANSWER: Outcome = Outcome::Fault {
    cause: Cause::BadAnswer(0),
    wrapped: false,
};

const TIMED_OUT_BY_7: Outcome = Outcome::Fault {
    cause: Cause::TimedOut(7),
    wrapped: false,
};

const BAD_ANSWER_BY_THE_LAST: Outcome = Outcome::Fault {
    cause: Cause::BadAnswer(u32::MAX),
    wrapped: false,
};

/// Source 2 follows source 0, and source 1 follows source 2.
const FOLLOWS: [Step; 4] = [
    Step::Follow(1, 2, Ok(())),
    Step::Follow(2, 0, Ok(())),
    Step::Follow(2, 7, Err(MachineFault::NoStage)),
    Step::Follow(7, 2, Err(MachineFault::NoStage)),
];

/// Both relays end as source 0 does by this word, by two words more, and so does one that follows later.
macro_rules! relays_end {
    ($name:expr, $word:expr, $outcome:expr) => {
        Case {
            name: $name,
            room: 1,
            parts: &[
                &FOLLOWS,
                &[
                    Step::Apply($word, 0, SETTLED),
                    Step::Ends(2, $outcome),
                    Step::Ends(1, $outcome),
                    Step::Len(3),
                    Step::Follow(3, 1, Ok(())),
                    Step::Ends(3, $outcome),
                ],
            ],
        }
    };
}

/// Stage 1 times out at moment 30, and stage 2 at 20.
const LAST: Deadline = Deadline {
    stage: 1,
    moment: 30,
    kind: LimitKind::Timeout(0),
};

const SECOND: Deadline = Deadline {
    stage: 2,
    moment: 20,
    kind: LimitKind::Timeout(0),
};

/// Stage 3 times out at moment 25. Before that it has followed source 0.
const LATE: Deadline = Deadline {
    stage: 3,
    moment: 25,
    kind: LimitKind::Timeout(0),
};

const NO_DEADLINE: Deadline = Deadline {
    stage: 7,
    moment: 20,
    kind: LimitKind::Timeout(0),
};

/// Source 0 is given 5 at moment 20.
const GIVES: Deadline = Deadline {
    stage: 0,
    moment: 20,
    kind: LimitKind::Give(Value::Int(5)),
};

const BY_MOMENTS: [Step; 17] = [
    Step::NextDeadline(None),
    Step::Deadline(LAST, Ok(())),
    Step::Deadline(GIVES, Ok(())),
    Step::Deadline(SECOND, Ok(())),
    Step::Deadline(NO_DEADLINE, Err(MachineFault::NoStage)),
    Step::NextDeadline(Some(GIVES)),
    Step::Pass(19, Ok(())),
    Step::Told(&[]),
    Step::Follow(3, 0, Ok(())),
    Step::Deadline(LATE, Ok(())),
    Step::Pass(29, Ok(())),
    Step::Told(&[0, 3, 2]),
    Step::Ends(3, Outcome::Value(Value::Int(5))),
    Step::Ends(2, TIMED_OUT),
    Step::NextDeadline(Some(LAST)),
    Step::Pass(28, Err(MachineFault::Past)),
    Step::Pass(29, Ok(())),
];

/// It is set once moment 29 has passed, so it is due at once.
const PAST: Deadline = Deadline {
    stage: 5,
    moment: 20,
    kind: LimitKind::Timeout(0),
};

const AT_ONCE: [Step; 5] = [
    Step::Deadline(PAST, Ok(())),
    Step::NextDeadline(Some(Deadline {
        stage: 5,
        moment: 29,
        kind: LimitKind::Timeout(0),
    })),
    Step::Pass(29, Ok(())),
    Step::Ends(5, TIMED_OUT),
    Step::NextDeadline(Some(LAST)),
];

/// Stage 2 times out at moment 20 with code 7.
const CODED: Deadline = Deadline {
    stage: 2,
    moment: 20,
    kind: LimitKind::Timeout(7),
};

/// Source 3 follows source 1, and that follows stage 2. Both time out with its code.
const BY_A_CODE: [Step; 9] = [
    Step::Follow(1, 2, Ok(())),
    Step::Follow(3, 1, Ok(())),
    Step::Deadline(CODED, Ok(())),
    Step::NextDeadline(Some(CODED)),
    Step::Pass(20, Ok(())),
    Step::Words(&[0x083f002000000007, 0x083f001000000007, 0x083f003000000007]),
    Step::Ends(2, TIMED_OUT_BY_7),
    Step::Ends(1, TIMED_OUT_BY_7),
    Step::Ends(3, TIMED_OUT_BY_7),
];

/// There is no place for the ninth. So the first, whose stage is settled, is forgotten.
const MANY: [Step; 15] = [
    Step::Apply(COMPLETE_0, 0, SETTLED),
    Step::Deadline(GIVES, Ok(())),
    Step::Deadline(LAST, Ok(())),
    Step::Deadline(LAST, Ok(())),
    Step::Deadline(LAST, Ok(())),
    Step::Deadline(LAST, Ok(())),
    Step::Deadline(LAST, Ok(())),
    Step::Deadline(LAST, Ok(())),
    Step::Deadline(LAST, Ok(())),
    Step::Deadline(SECOND, Ok(())),
    Step::NextDeadline(Some(SECOND)),
    Step::Pass(20, Ok(())),
    Step::NextDeadline(Some(LAST)),
    Step::Pass(30, Ok(())),
    Step::NextDeadline(None),
];

const THROWN: Outcome = Outcome::Fault {
    cause: Cause::Thrown(40),
    wrapped: false,
};

/// A handle whose apply has failed is ready in the same lane, and fails too.
const REFUSES: [Step; 6] = [
    Step::Apply(COMPLETE_0, 0, SETTLED),
    Step::Apply(COMPLETE_1, 0, SETTLED),
    Step::Refuse(1, 40),
    Step::Told(&[0, 1, 4, 6]),
    Step::Ends(6, THROWN),
    Step::Ready(2, 1),
];

/// Source 1 follows source 3. All that is open then is cancelled, and the applies with their sources.
const CANCELS: [Step; 9] = [
    Step::Follow(1, 3, Ok(())),
    Step::Apply(COMPLETE_0, 0, SETTLED),
    Step::CancelAll(64, Err(StepFault::NoCaller)),
    Step::Told(&[0]),
    Step::CancelAll(7, Ok(())),
    Step::Told(&[0, 1, 5, 2, 3, 4, 6]),
    Step::Ends(1, CANCELLED),
    Step::Ends(4, CANCELLED),
    Step::CancelAll(7, Ok(())),
];

/// Source 1 follows source 0, which gets 5 at moment 20. Stage 7 is attached, and so there is no room left. Then all of
/// that is gone.
const AGAIN: [Step; 16] = [
    Step::Follow(1, 0, Ok(())),
    Step::Deadline(GIVES, Ok(())),
    Step::Deadline(LAST, Ok(())),
    Step::Apply(ATTACH, 3, Ok(Reply::Attach(Attached::At(7)))),
    Step::Pass(25, Ok(())),
    Step::Took(1),
    Step::Ready(3, 1),
    Step::Restart,
    Step::Len(0),
    Step::Told(&[]),
    Step::Ready(3, 0),
    Step::NextDeadline(None),
    Step::Pass(1, Ok(())),
    Step::Apply(COMPLETE_0, 0, SETTLED),
    Step::Told(&[0]),
    Step::Next(7, 1, None, TAKES),
];

static CASES: [Case; 15] = [
    Case {
        name: "runs by lanes",
        room: 1,
        parts: &[&BY_LANES],
    },
    Case {
        name: "attached stages have lanes",
        room: 1,
        parts: &[&ATTACHES, &GROWN],
    },
    Case {
        name: "gathers any number",
        room: 3,
        parts: &[&GATHERS],
    },
    relays_end!(
        "relays end as a number",
        COMPLETE_0,
        Outcome::Value(Value::Int(5))
    ),
    relays_end!("relays end as a cancellation", CANCEL_0, CANCELLED),
    relays_end!("relays end as a time-out", TIMED_OUT_0, TIMED_OUT),
    relays_end!("relays end as a bad answer", BAD_ANSWER_0, BAD_ANSWER),
    relays_end!(
        "relays end as a time-out's code",
        TIMED_OUT_0_BY_7,
        TIMED_OUT_BY_7
    ),
    relays_end!(
        "relays end as a bad answer's code",
        BAD_ANSWER_0_BY_THE_LAST,
        BAD_ANSWER_BY_THE_LAST
    ),
    Case {
        name: "moments come in order",
        room: 1,
        parts: &[&BY_MOMENTS, &AT_ONCE],
    },
    Case {
        name: "a deadline has a code",
        room: 1,
        parts: &[&BY_A_CODE],
    },
    Case {
        name: "settled deadlines make place",
        room: 1,
        parts: &[&MANY],
    },
    Case {
        name: "a refused lane fails",
        room: 1,
        parts: &[&REFUSES],
    },
    Case {
        name: "all is cancelled",
        room: 1,
        parts: &[&CANCELS],
    },
    Case {
        name: "all starts again",
        room: 1,
        parts: &[&AGAIN, &ATTACHES],
    },
];

#[test]
fn machines_answer_so(rt: HostRuntime) {
    play(&rt, rt.alloc(), &CASES);
}
