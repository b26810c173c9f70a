use crate::request::steps::{Case, Step, play};
use cf_forms::{Args, LimitKind};
use cf_ledger::{LedgerFault, Reply, StepFault, Taken};
use cf_outcome::{Cause, Outcome, Value};
use cf_request::{Deadline, JoinFault, Next};

/// Caller 0 gives source 0, 1 or 2 the number 5, 6 or 7.
const COMPLETE_0: u64 = 0x0100000100000005;

const COMPLETE_1: u64 = 0x0100001100000006;

const COMPLETE_2: u64 = 0x0100002100000007;
/// It cancels source 0.
const CANCEL_0: u64 = 0x0300000000000000;
/// It fails sources as timed out, each with its code.
const TIMED_OUT_0: u64 = 0x0800000000000001;

const TIMED_OUT_1: u64 = 0x0800001000000002;

const SETTLED: Result<Reply, LedgerFault> = Ok(Reply::Flag(true));

const NIL: Outcome = Outcome::Value(Value::Nil);

const FIVE: Outcome = Outcome::Value(Value::Int(5));

const SEVEN: Outcome = Outcome::Value(Value::Int(7));

const CANCELLED: Outcome = Outcome::Fault {
    cause: Cause::Cancelled,
    wrapped: false,
};

const BY_CODE_1: Outcome = Outcome::Fault {
    cause: Cause::TimedOut(1),
    wrapped: false,
};

const BY_CODE_2: Outcome = Outcome::Fault {
    cause: Cause::TimedOut(2),
    wrapped: false,
};

/// Source 3 is the first success of three.
const FIRST_SUCCESS: [Step; 7] = [
    Step::Join(3, 1, &[0, 1, 2], Ok(())),
    Step::Apply(TIMED_OUT_0, 0, SETTLED),
    Step::Apply(TIMED_OUT_1, 0, SETTLED),
    Step::Told(&[0, 4, 1, 5]),
    Step::Apply(COMPLETE_2, 0, SETTLED),
    Step::Told(&[0, 4, 1, 5, 2, 3]),
    Step::Ends(3, SEVEN),
];

/// The last that fails decides it.
const ALL_FAIL: [Step; 5] = [
    Step::Join(3, 1, &[0, 1], Ok(())),
    Step::Apply(TIMED_OUT_0, 0, SETTLED),
    Step::Apply(TIMED_OUT_1, 0, SETTLED),
    Step::Told(&[0, 4, 1, 5, 3]),
    Step::Ends(3, BY_CODE_2),
];

/// All have to have values. The first that fails decides it.
const ALL_OR_FAIL: [Step; 4] = [
    Step::Join(3, 3, &[0, 1, 2], Ok(())),
    Step::Apply(TIMED_OUT_0, 0, SETTLED),
    Step::Told(&[0, 4, 3]),
    Step::Ends(3, BY_CODE_1),
];

const ALL: [Step; 5] = [
    Step::Join(3, 2, &[0, 1], Ok(())),
    Step::Apply(COMPLETE_1, 0, SETTLED),
    Step::Told(&[1]),
    Step::Apply(COMPLETE_0, 0, SETTLED),
    Step::Ends(3, NIL),
];

/// Two of three have values before two have failed.
const QUORUM: [Step; 6] = [
    Step::Join(3, 2, &[0, 1, 2], Ok(())),
    Step::Apply(COMPLETE_0, 0, SETTLED),
    Step::Apply(TIMED_OUT_1, 0, SETTLED),
    Step::Told(&[0, 1, 5]),
    Step::Apply(COMPLETE_2, 0, SETTLED),
    Step::Ends(3, NIL),
];

/// Source 0 stands twice, and counts twice.
const TWICE: [Step; 4] = [
    Step::Join(3, 2, &[0, 1, 0], Ok(())),
    Step::Apply(COMPLETE_0, 0, SETTLED),
    Step::Told(&[0, 3]),
    Step::Ends(3, NIL),
];

/// Stages 0 and 4 fail by one word. Stage 4 comes behind, so it decides the join.
const BY_ONE_WORD: [Step; 4] = [
    Step::Join(3, 1, &[4, 0], Ok(())),
    Step::Apply(CANCEL_0, 0, SETTLED),
    Step::Told(&[0, 4, 3]),
    Step::Ends(3, CANCELLED),
];

/// It is set once both have failed. Source 0 did so last.
const SET_LATE: [Step; 5] = [
    Step::Apply(TIMED_OUT_1, 0, SETTLED),
    Step::Apply(TIMED_OUT_0, 0, SETTLED),
    Step::Join(3, 1, &[0, 1], Ok(())),
    Step::Told(&[1, 5, 0, 4, 3]),
    Step::Ends(3, BY_CODE_1),
];

/// Source 3 joins source 2, which joins sources 0 and 1.
const OF_A_JOIN: [Step; 5] = [
    Step::Join(3, 1, &[2], Ok(())),
    Step::Join(2, 1, &[0, 1], Ok(())),
    Step::Apply(COMPLETE_0, 0, SETTLED),
    Step::Told(&[0, 2, 3]),
    Step::Ends(3, FIVE),
];

/// Each waits for the other, until somebody settles one.
const IN_A_CIRCLE: [Step; 6] = [
    Step::Join(3, 1, &[2], Ok(())),
    Step::Join(2, 2, &[3, 1], Ok(())),
    Step::Apply(COMPLETE_1, 0, SETTLED),
    Step::Told(&[1]),
    Step::Apply(COMPLETE_2, 0, SETTLED),
    Step::Ends(3, SEVEN),
];

/// Nothing is set by these.
const REFUSED: [Step; 7] = [
    Step::Join(7, 1, &[0], Err(JoinFault::NoStage)),
    Step::Join(3, 1, &[7], Err(JoinFault::NoStage)),
    Step::Join(3, 0, &[0, 1, 7], Err(JoinFault::NoStage)),
    Step::Join(3, 0, &[0], Err(JoinFault::NoQuorum)),
    Step::Join(3, 3, &[0, 1], Err(JoinFault::NoQuorum)),
    Step::Apply(COMPLETE_0, 0, SETTLED),
    Step::Told(&[0]),
];

/// Source 0 gets 5 at moment 20, and source 3 is to be settled by then, too.
const GIVES: Deadline = Deadline {
    stage: 0,
    moment: 20,
    kind: LimitKind::Give(Value::Int(5)),
};

const BY_THEN: Deadline = Deadline {
    stage: 3,
    moment: 20,
    kind: LimitKind::Timeout(0),
};

/// A join is settled before a stage whose moment has come, too.
const BY_MOMENTS: [Step; 5] = [
    Step::Join(3, 1, &[1, 0], Ok(())),
    Step::Deadline(GIVES, Ok(())),
    Step::Deadline(BY_THEN, Ok(())),
    Step::Pass(20, Ok(())),
    Step::Ends(3, FIVE),
];

/// Source 0 is cancelled first, which decides the join before source 1 is cancelled.
const CANCELS: [Step; 3] = [
    Step::Join(3, 2, &[0, 1], Ok(())),
    Step::CancelAll(7, Ok(())),
    Step::Told(&[0, 4, 3, 1, 5, 2, 6]),
];

/// What a join makes ready is claimed in the same call. Stage 4 applies function 0 to source 0.
const READY_AT_ONCE: [Step; 3] = [
    Step::Join(0, 1, &[3, 2], Ok(())),
    Step::Apply(COMPLETE_2, 0, SETTLED),
    Step::Next(
        7,
        1,
        None,
        Ok(Next {
            finish: None,
            taken: Some(Taken {
                stage: 4,
                function: Some(0),
                args: Args::One(Value::Int(7)),
                word: 0x0407004000000000,
            }),
        }),
    ),
];

/// There is no join in a request that starts again, and growing leaves the one that is set then.
const AGAIN: [Step; 9] = [
    Step::Join(3, 1, &[0, 1], Ok(())),
    Step::Restart,
    Step::Apply(COMPLETE_0, 0, SETTLED),
    Step::Told(&[0]),
    Step::Join(3, 2, &[0, 1], Ok(())),
    Step::Grow(17),
    Step::Told(&[0]),
    Step::Apply(COMPLETE_1, 0, SETTLED),
    Step::Ends(3, NIL),
];

const OPEN: Result<Next, StepFault> = Ok(Next {
    finish: None,
    taken: None,
});

/// Somebody settles it first.
const SETTLED_BEFORE: [Step; 5] = [
    Step::Join(2, 1, &[0, 1], Ok(())),
    Step::Apply(COMPLETE_2, 0, SETTLED),
    Step::Next(7, 3, None, OPEN),
    Step::Apply(COMPLETE_0, 0, SETTLED),
    Step::Ends(2, SEVEN),
];

/// A machine with room for one stage more takes these steps.
macro_rules! case {
    ($name:expr, $steps:expr) => {
        Case {
            name: $name,
            room: 1,
            parts: &[$steps],
        }
    };
}

static CASES: [Case; 16] = [
    case!("the first success", &FIRST_SUCCESS),
    case!("all fail", &ALL_FAIL),
    case!("all or fail at once", &ALL_OR_FAIL),
    case!("all", &ALL),
    case!("a quorum", &QUORUM),
    case!("a source that stands twice", &TWICE),
    case!("two fail by one word", &BY_ONE_WORD),
    case!("a join that is set late", &SET_LATE),
    case!("a join of a join", &OF_A_JOIN),
    case!("two in a circle", &IN_A_CIRCLE),
    case!("joins that are refused", &REFUSED),
    case!("before a deadline", &BY_MOMENTS),
    case!("all is cancelled", &CANCELS),
    case!("ready at once", &READY_AT_ONCE),
    case!("a join starts again", &AGAIN),
    case!("settled before", &SETTLED_BEFORE),
];

#[test]
fn joins_end_so(rt: HostRuntime) {
    play(&rt, rt.alloc(), &CASES);
}
