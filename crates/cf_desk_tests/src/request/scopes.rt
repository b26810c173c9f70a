use crate::request::steps::{Case, Step, play};
use cf_forms::{Answer, Args, LimitKind};
use cf_ledger::{Finish, Held, LedgerFault, Reply, StepFault, Taken};
use cf_outcome::{Cause, Outcome, Value};
use cf_request::{Deadline, MachineFault, Next, ScopeFault};

/// Caller 0 attaches a source, and an apply of source 0 or of a stage that isn't there.
const SOURCE: u64 = 0x0700000000000000;

const APPLY_0: u64 = 0x0700000103000000;

const APPLY_99: u64 = 0x0700063103000000;
/// It gives source 0, 1 or 2 the number 5, 6 or 7.
const COMPLETE_0: u64 = 0x0100000100000005;

const COMPLETE_1: u64 = 0x0100001100000006;

const COMPLETE_2: u64 = 0x0100002100000007;

const SETTLED: Result<Reply, LedgerFault> = Ok(Reply::Flag(true));

const FIVE: Outcome = Outcome::Value(Value::Int(5));

const SEVEN: Outcome = Outcome::Value(Value::Int(7));

const CANCELLED: Outcome = Outcome::Fault {
    cause: Cause::Cancelled,
    wrapped: false,
};

const BY_TIME: Outcome = Outcome::Fault {
    cause: Cause::TimedOut(9),
    wrapped: false,
};

/// Caller 7 ends source 3, which is a scope, and the machine's own caller cancels what is of it.
const ENDS: [Step; 7] = [
    Step::PutIn(5, 3, Ok(())),
    Step::PutIn(0, 3, Ok(())),
    Step::EndScope(7, 3, Ok(())),
    Step::Told(&[3, 5, 0, 4]),
    Step::Ends(5, CANCELLED),
    Step::Ends(0, CANCELLED),
    Step::Words(&[0x0307003000000000, 0x033F005000000000, 0x033F000000000000]),
];

/// Stage 7 is a scope within source 3, and stage 8 within stage 7.
const NESTED: [Step; 6] = [
    Step::AttachIn(SOURCE, 0, 3, Ok(7)),
    Step::AttachIn(SOURCE, 0, 7, Ok(8)),
    Step::PutIn(0, 8, Ok(())),
    Step::PutIn(2, 3, Ok(())),
    Step::EndScope(7, 3, Ok(())),
    Step::Told(&[3, 7, 8, 0, 4, 2]),
];

/// An inner scope ends alone.
const INNER: [Step; 6] = [
    Step::AttachIn(SOURCE, 0, 3, Ok(7)),
    Step::PutIn(0, 7, Ok(())),
    Step::PutIn(2, 3, Ok(())),
    Step::EndScope(7, 7, Ok(())),
    Step::Told(&[7, 0, 4]),
    Step::PutIn(1, 3, Ok(())),
];

/// A scope ends with a stage, whatever that ends as.
const ENDS_WITH: [Step; 5] = [
    Step::PutIn(0, 3, Ok(())),
    Step::EndsWith(3, 2, Ok(())),
    Step::Apply(COMPLETE_2, 0, SETTLED),
    Step::Told(&[2, 3, 0, 4]),
    Step::Ends(3, CANCELLED),
];

/// The stage is settled already.
const ENDS_AT_ONCE: [Step; 4] = [
    Step::PutIn(0, 3, Ok(())),
    Step::Apply(COMPLETE_2, 0, SETTLED),
    Step::EndsWith(3, 2, Ok(())),
    Step::Told(&[2, 3, 0, 4]),
];

/// The deadline of a scope.
const BY_THEN: Deadline = Deadline {
    stage: 3,
    moment: 20,
    kind: LimitKind::Timeout(9),
};

const TIMES_OUT: [Step; 6] = [
    Step::PutIn(0, 3, Ok(())),
    Step::Deadline(BY_THEN, Ok(())),
    Step::Pass(20, Ok(())),
    Step::Told(&[3, 0, 4]),
    Step::Ends(3, BY_TIME),
    Step::Ends(0, CANCELLED),
];

/// What is settled before keeps its outcome. To end a scope once more does nothing.
const SETTLED_BEFORE: [Step; 7] = [
    Step::PutIn(0, 3, Ok(())),
    Step::Apply(COMPLETE_0, 0, SETTLED),
    Step::EndScope(7, 3, Ok(())),
    Step::Told(&[0, 3]),
    Step::Ends(0, FIVE),
    Step::EndScope(7, 3, Ok(())),
    Step::Len(2),
];

/// Nothing is done by these.
const REFUSED: [Step; 17] = [
    Step::PutIn(9, 3, Err(ScopeFault::NoStage)),
    Step::PutIn(0, 9, Err(ScopeFault::NoStage)),
    Step::EndsWith(9, 3, Err(MachineFault::NoStage)),
    Step::EndsWith(3, 9, Err(MachineFault::NoStage)),
    Step::EndScope(64, 3, Err(StepFault::NoCaller)),
    Step::EndScope(7, 9, Err(StepFault::NoStage)),
    Step::AttachIn(SOURCE, 0, 9, Err(ScopeFault::NoStage)),
    Step::AttachIn(APPLY_99, 0, 3, Err(ScopeFault::NoStage)),
    Step::AttachIn(COMPLETE_0, 0, 3, Err(ScopeFault::NoEvent)),
    Step::AttachIn(0, 0, 3, Err(ScopeFault::NoEvent)),
    Step::Len(0),
    Step::AttachIn(SOURCE, 0, 3, Ok(7)),
    Step::AttachIn(SOURCE, 0, 3, Ok(8)),
    Step::AttachIn(SOURCE, 0, 3, Err(ScopeFault::NoRoom)),
    Step::EndScope(7, 3, Ok(())),
    Step::PutIn(0, 3, Err(ScopeFault::ScopeEnded)),
    Step::AttachIn(SOURCE, 0, 3, Err(ScopeFault::ScopeEnded)),
];

/// What is attached in a scope has its lane. Once the scope has ended, none of it is claimed.
const RUNS_NONE: [Step; 7] = [
    Step::Apply(COMPLETE_0, 0, SETTLED),
    Step::AttachIn(APPLY_0, 3, 3, Ok(7)),
    Step::Ready(3, 1),
    Step::EndScope(7, 3, Ok(())),
    Step::Ready(3, 0),
    Step::Next(7, 3, None, NONE),
    Step::Ends(7, CANCELLED),
];

const NONE: Result<Next, StepFault> = Ok(Next {
    finish: None,
    taken: None,
});

/// Stage 4 is claimed when its scope ends. Its finish comes too late.
const LATE: [Step; 5] = [
    Step::PutIn(4, 3, Ok(())),
    Step::Apply(COMPLETE_0, 0, SETTLED),
    Step::Next(
        7,
        1,
        None,
        Ok(Next {
            finish: None,
            taken: Some(Taken {
                stage: 4,
                function: Some(0),
                args: Args::One(Value::Int(5)),
                word: 0x0407004000000000,
            }),
        }),
    ),
    Step::EndScope(0, 3, Ok(())),
    Step::Next(
        7,
        3,
        Some(Held {
            stage: 4,
            answer: Answer::Give(Value::Int(1)),
        }),
        Ok(Next {
            finish: Some(Finish {
                late: true,
                word: 0x0507004100000001,
            }),
            taken: None,
        }),
    ),
];

/// Source 2, which is outside, is the first success of two that are cancelled.
const JOIN_OUTSIDE: [Step; 6] = [
    Step::Join(2, 1, &[0, 1], Ok(())),
    Step::PutIn(0, 3, Ok(())),
    Step::PutIn(1, 3, Ok(())),
    Step::EndScope(7, 3, Ok(())),
    Step::Told(&[3, 0, 4, 1, 5, 2]),
    Step::Ends(2, CANCELLED),
];

/// A join that is decided in time isn't cancelled.
const JOIN_WITHIN: [Step; 5] = [
    Step::Join(1, 1, &[2, 0], Ok(())),
    Step::PutIn(1, 3, Ok(())),
    Step::Apply(COMPLETE_2, 0, SETTLED),
    Step::EndScope(7, 3, Ok(())),
    Step::Ends(1, SEVEN),
];

/// There is no scope in a request that starts again, and growing leaves the one that is set then.
const AGAIN: [Step; 9] = [
    Step::PutIn(0, 3, Ok(())),
    Step::Restart,
    Step::EndScope(7, 3, Ok(())),
    Step::Told(&[3]),
    Step::Restart,
    Step::PutIn(0, 3, Ok(())),
    Step::Grow(18),
    Step::EndScope(7, 3, Ok(())),
    Step::Told(&[3, 0, 4]),
];

/// All is cancelled, also scopes.
const CANCELS: [Step; 4] = [
    Step::PutIn(0, 3, Ok(())),
    Step::CancelAll(7, Ok(())),
    Step::Told(&[0, 4, 1, 5, 2, 3, 6]),
    Step::PutIn(0, 3, Err(ScopeFault::ScopeEnded)),
];

/// A machine with room for two stages more takes these steps.
macro_rules! case {
    ($name:expr, $steps:expr) => {
        Case {
            name: $name,
            room: 2,
            parts: &[$steps],
        }
    };
}

static CASES: [Case; 14] = [
    case!("a scope ends", &ENDS),
    case!("scopes within scopes", &NESTED),
    case!("an inner scope ends", &INNER),
    case!("a scope ends with a stage", &ENDS_WITH),
    case!("a scope ends at once", &ENDS_AT_ONCE),
    case!("a scope times out", &TIMES_OUT),
    case!("settled before", &SETTLED_BEFORE),
    case!("refused", &REFUSED),
    case!("nothing is run", &RUNS_NONE),
    case!("a finish comes late", &LATE),
    case!("a join outside", &JOIN_OUTSIDE),
    case!("a join within", &JOIN_WITHIN),
    case!("a scope starts again", &AGAIN),
    case!("all is cancelled", &CANCELS),
];

#[test]
fn scopes_end_so(rt: HostRuntime) {
    play(&rt, rt.alloc(), &CASES);
}
