//! Two callers that take turns.
use crate::desk::desks::{Opening, SMALL};
use crate::desk::ends::End;
use crate::desk::steps::{Case, Step, Turn, play};
use cf_desk::{Ask, Call, DeskFault, Joined, Rec, Told};
use cf_forms::{Answer, Args};
use cf_model::{Claimed, Event, Failure, Finished, Reply, Ticked};
use cf_outcome::{Cause, Now, Outcome, Value};

const SETTLED: Outcome = Outcome::Value(Value::Int(5));

const COMPLETES: Call = Call::Complete(0, Value::Int(5));

const NOW: Ask = Ask::Now(0, Value::Nil);

const GOT: Told = Told::Now(Now::Got(Value::Int(5)));

const OUTCOME: Ask = Ask::Outcome(0);

const TOLD: Told = Told::Outcome(Some(SETTLED));

const CLAIMED: Reply = Reply::Claim(Claimed::Granted(Args::None));

const FINISHES: Call = Call::Finish(1, Answer::Give(Value::Int(4)));

const JOINED: [Turn; 6] = [
    Turn::Together(&[COMPLETES], &[]),
    Turn::Second(Step::Reads(NOW, Ok(GOT))),
    Turn::Second(Step::Has(1, 3)),
    Turn::Together(&[Call::Tick(0)], &[]),
    Turn::Second(Step::Reads(OUTCOME, Ok(TOLD))),
    Turn::Second(Step::Has(2, 2)),
];

const READS: [End; 1] = [End::Records(
    1,
    &[
        Rec::Saw {
            place: 1,
            ask: NOW,
            told: GOT,
        },
        Rec::Saw {
            place: 2,
            ask: OUTCOME,
            told: TOLD,
        },
    ],
)];

/// What the log of two words has.
const TWO_EVENTS: [Event; 2] = [
    Event::Complete {
        who: 0,
        stage: 0,
        value: Value::Int(5),
    },
    Event::Cancel { who: 0, stage: 0 },
];

const FULL_LOG: [Turn; 5] = [
    Turn::First(Step::Acts(COMPLETES, Ok(Reply::Flag(true)))),
    Turn::First(Step::Acts(Call::Cancel(0), Ok(Reply::Flag(false)))),
    Turn::First(Step::Acts(Call::Tick(5), Err(DeskFault::LogFull))),
    Turn::First(Step::Acts(Call::Claim(2), Err(DeskFault::NoStage))),
    Turn::First(Step::Reads(OUTCOME, Ok(TOLD))),
];

const FULL_LOG_ENDS: [End; 2] = [End::Keeps(0, 3), End::History(&TWO_EVENTS)];

/// What the pass with room for two records keeps.
const TWO_RECORDS: [Rec; 2] = [
    Rec::Saw {
        place: 0,
        ask: OUTCOME,
        told: Told::Outcome(None),
    },
    Rec::Did {
        place: 1,
        call: COMPLETES,
        reply: Reply::Flag(true),
    },
];

const FULL_PASS: [Turn; 5] = [
    Turn::First(Step::Joins(0, 2, Ok(Joined::NotYet))),
    Turn::First(Step::Acts(COMPLETES, Ok(Reply::Flag(true)))),
    Turn::Second(Step::Acts(Call::Tick(0), Ok(Reply::Tick(Ticked::Fired(0))))),
    Turn::First(Step::Reads(NOW, Err(DeskFault::PassFull))),
    Turn::First(Step::Acts(Call::Tick(1), Err(DeskFault::PassFull))),
];

const TIMED_OUT: Cause = Cause::TimedOut(7);

const TIMES_OUT: Call = Call::FailAs(0, Failure::TimedOut(7));

const BAD_ANSWER: Call = Call::FailAs(1, Failure::BadAnswer(8));

/// The first caller fails the source and the supply with codes, and the second one reads them.
const CODES: [Turn; 5] = [
    Turn::First(Step::Acts(TIMES_OUT, Ok(Reply::Flag(true)))),
    Turn::First(Step::Acts(BAD_ANSWER, Ok(Reply::Flag(true)))),
    Turn::Second(Step::Reads(NOW, Ok(Told::Now(Now::Completion(TIMED_OUT))))),
    Turn::Second(Step::Joins(0, 0, Ok(Joined::Completion(TIMED_OUT)))),
    Turn::Second(Step::Reads(Ask::Outcome(1), Ok(Told::Outcome(Some(FAILED))))),
];

const FAILED: Outcome = Outcome::Fault {
    cause: Cause::BadAnswer(8),
    wrapped: false,
};

const CODES_ENDS: [End; 1] = [End::History(&[
    Event::FailAs {
        who: 0,
        stage: 0,
        failure: Failure::TimedOut(7),
    },
    Event::FailAs {
        who: 0,
        stage: 1,
        failure: Failure::BadAnswer(8),
    },
])];

const MEETING: [Turn; 12] = [
    Turn::First(Step::Acts(COMPLETES, Ok(Reply::Flag(true)))),
    Turn::First(Step::Has(1, 3)),
    Turn::Second(Step::Has(0, 4)),
    Turn::Meet,
    Turn::First(Step::Has(1, 3)),
    Turn::Second(Step::Has(1, 4)),
    Turn::Second(Step::Acts(Call::Cancel(0), Ok(Reply::Flag(false)))),
    Turn::First(Step::Has(1, 3)),
    Turn::Second(Step::Has(2, 3)),
    Turn::Meet,
    Turn::First(Step::Has(2, 3)),
    Turn::Second(Step::Has(2, 3)),
];

const HEEDING: [Turn; 12] = [
    Turn::First(Step::Acts(COMPLETES, Ok(Reply::Flag(true)))),
    Turn::Second(Step::Has(0, 4)),
    Turn::SecondHeeds(&[Call::Tick(0)]),
    Turn::First(Step::Has(2, 2)),
    Turn::Second(Step::Has(1, 4)),
    Turn::Second(Step::Acts(Call::Cancel(0), Ok(Reply::Flag(false)))),
    Turn::First(Step::Has(2, 2)),
    Turn::Second(Step::Has(3, 3)),
    Turn::SecondHeeds(&[]),
    Turn::Second(Step::Has(3, 3)),
    Turn::FirstHeeds(&[]),
    Turn::First(Step::Has(3, 2)),
];

const WORKING: [Turn; 5] = [
    Turn::First(Step::FindsReady(Some(1))),
    Turn::First(Step::Acts(Call::Claim(1), Ok(CLAIMED))),
    Turn::First(Step::Acts(FINISHES, Ok(Reply::Finish(Finished::Won)))),
    Turn::First(Step::FindsReady(None)),
    Turn::First(Step::Joins(1, 0, Ok(Joined::Value(Value::Int(4))))),
];

const TOLD_OF_SIZES: [Turn; 6] = [
    Turn::DeskIsFor(4, 2, 4),
    Turn::First(Step::Is(0)),
    Turn::Second(Step::Is(1)),
    Turn::DeskHas(1, true),
    Turn::DeskHas(2, false),
    Turn::DeskFunction(1, Some(3)),
];

const HOLDING: [Turn; 12] = [
    Turn::First(Step::Holds(1, false)),
    Turn::First(Step::Acts(Call::Claim(1), Ok(CLAIMED))),
    Turn::First(Step::Holds(1, true)),
    Turn::First(Step::Holds(0, false)),
    Turn::First(Step::Holds(2, false)),
    Turn::First(Step::Holds(65535, false)),
    Turn::Second(Step::Acts(Call::Cancel(1), Ok(Reply::Flag(true)))),
    Turn::Second(Step::Holds(1, false)),
    Turn::Meet,
    Turn::First(Step::Holds(1, true)),
    Turn::First(Step::Acts(FINISHES, Ok(Reply::Finish(Finished::Late)))),
    Turn::First(Step::Holds(1, false)),
];

static CASES: [Case; 9] = [
    Case {
        name: "reads what a joined thread did",
        opening: SMALL,
        turns: &JOINED,
        ends: &READS,
    },
    Case {
        name: "a full log refuses calls and answers reads",
        opening: Opening { log: 2, ..SMALL },
        turns: &FULL_LOG,
        ends: &FULL_LOG_ENDS,
    },
    Case {
        name: "a full pass is told before a full log",
        opening: Opening {
            log: 2,
            calls: 2,
            ..SMALL
        },
        turns: &FULL_PASS,
        ends: &[End::Records(0, &TWO_RECORDS)],
    },
    Case {
        name: "failures have codes",
        opening: SMALL,
        turns: &CODES,
        ends: &CODES_ENDS,
    },
    Case {
        name: "meet levels",
        opening: SMALL,
        turns: &MEETING,
        ends: &[End::Events(2)],
    },
    Case {
        name: "a notice is heeded on another thread",
        opening: SMALL,
        turns: &HEEDING,
        ends: &[End::Events(3)],
    },
    Case {
        name: "a caller does the ready work",
        opening: SMALL,
        turns: &WORKING,
        ends: &[End::Events(2)],
    },
    Case {
        name: "a desk and its passes tell what they are",
        opening: Opening { calls: 7, ..SMALL },
        turns: &TOLD_OF_SIZES,
        ends: &[],
    },
    Case {
        name: "a claim is held by its caller until it finishes",
        opening: SMALL,
        turns: &HOLDING,
        ends: &[End::Events(3)],
    },
];

#[test]
fn two_callers_take_turns(rt: HostRuntime) {
    play(&rt, rt.alloc(), &CASES);
}
