//! Stages that callers attach: who sees them, and which are refused.
use crate::desk::beside::Work;
use crate::desk::desks::{GROWING, Opening, SMALL};
use crate::desk::ends::End;
use crate::desk::steps::{Case, Step, Turn, play};
use cf_desk::{Ask, Call, DeskFault, Joined, Rec, Told};
use cf_forms::{Answer, Args, Form, Of};
use cf_model::{Attached, Claimed, Event, Finished, Reply, Ticked};
use cf_outcome::{Now, Outcome, Value};

/// The call that attaches a source.
pub(crate) const ATTACHES: Call = Call::Attach(Form::Source, Of::None, None);

const FULL: Reply = Reply::Attach(Attached::StagesFull);

const AT_ONE: Reply = Reply::Attach(Attached::At(1));

const BAD: Result<Reply, DeskFault> = Err(DeskFault::BadAttach);

const SEEING: [Turn; 3] = [
    Turn::Together(&[ATTACHES, Call::Complete(1, Value::Int(4))], &[]),
    Turn::Second(Step::Reads(
        Ask::Now(1, Value::Nil),
        Ok(Told::Now(Now::Got(Value::Int(4)))),
    )),
    Turn::Second(Step::Has(2, 7)),
];

const SEEN: [End; 1] = [End::Records(
    0,
    &[
        Rec::Did {
            place: 1,
            call: ATTACHES,
            reply: AT_ONE,
        },
        Rec::Did {
            place: 2,
            call: Call::Complete(1, Value::Int(4)),
            reply: Reply::Flag(true),
        },
    ],
)];

/// Stages that don't fit, with a log and a pass of one place, and one that does.
const FITTING: [Turn; 12] = [
    Turn::First(Step::Acts(Call::Attach(Form::Apply, Of::None, Some(0)), BAD)),
    Turn::First(Step::Acts(Call::Attach(Form::Apply, Of::Two(0, 0), Some(0)), BAD)),
    Turn::First(Step::Acts(Call::Attach(Form::Apply, Of::One(0), None), BAD)),
    Turn::First(Step::Acts(Call::Attach(Form::Source, Of::None, Some(0)), BAD)),
    Turn::First(Step::Acts(Call::Attach(Form::Apply, Of::One(0), Some(1)), BAD)),
    Turn::First(Step::Acts(
        Call::Attach(Form::Apply, Of::One(9), Some(7)),
        Err(DeskFault::NoStage),
    )),
    Turn::First(Step::Acts(
        Call::Attach(Form::Combine, Of::Two(0, 1), Some(0)),
        Err(DeskFault::NoStage),
    )),
    Turn::First(Step::Has(0, 1)),
    Turn::First(Step::Acts(Call::Attach(Form::Apply, Of::One(0), Some(0)), Ok(AT_ONE))),
    Turn::First(Step::KnowsFunction(1, Some(0))),
    Turn::First(Step::Acts(Call::Attach(Form::Apply, Of::One(1), Some(1)), BAD)),
    Turn::First(Step::Acts(
        Call::Attach(Form::Apply, Of::One(1), Some(0)),
        Err(DeskFault::PassFull),
    )),
];

/// A stage with this function is attached to a desk without room that has so many functions, and this is replied.
macro_rules! has_a_word {
    ($name:expr, $functions:expr, $function:expr, $reply:expr) => {
        Case {
            name: $name,
            opening: Opening {
                calls: 1,
                room: Some((0, $functions)),
                ..GROWING
            },
            turns: &[Turn::First(Step::Acts(
                Call::Attach(Form::Apply, Of::One(0), Some($function)),
                $reply,
            ))],
            ends: &[],
        }
    };
}

/// What a desk keeps of stages that it has no room for.
const ATTACHED: [Event; 2] = [
    Event::Attach {
        who: 0,
        form: Form::Source,
        of: Of::None,
        function: None,
    },
    Event::Attach {
        who: 1,
        form: Form::Apply,
        of: Of::One(0),
        function: Some(3),
    },
];

const WITHOUT_ROOM: [Turn; 7] = [
    Turn::DeskIsFor(4, 2, 4),
    Turn::First(Step::Acts(ATTACHES, Ok(FULL))),
    Turn::First(Step::Has(1, 3)),
    Turn::First(Step::Acts(Call::Attach(Form::Apply, Of::One(0), Some(4)), BAD)),
    Turn::First(Step::Has(1, 3)),
    Turn::Second(Step::Acts(Call::Attach(Form::Apply, Of::One(0), Some(3)), Ok(FULL))),
    Turn::Second(Step::Knows(2, false)),
];

const WITHOUT_ROOM_ENDS: [End; 2] = [End::Stages(2), End::History(&ATTACHED)];

const THRICE: [Call; 3] = [ATTACHES; 3];

const BOTH_ATTACH: Turn = Turn::Together(&[ATTACHES], &[ATTACHES]);

/// All but the last of so many places are taken by these calls, and then each caller attaches a stage on a thread of its own.
macro_rules! gets_the_last_room {
    ($name:expr, $room:expr, $before:expr, $all:expr) => {
        Case {
            name: $name,
            opening: Opening {
                calls: 3,
                room: Some(($room, 0)),
                ..GROWING
            },
            turns: &[Turn::First(Step::ActsAll($before)), BOTH_ATTACH],
            ends: &[
                End::InOrder(&THRICE, &THRICE, $all),
                End::Events($all),
                End::Replied(Reply::Attach(Attached::At($room)), 1),
                End::Replied(FULL, 1),
                End::Stages($room + 1),
            ],
        }
    };
}

const FULL_PASS: Result<Reply, DeskFault> = Err(DeskFault::PassFull);

/// A full pass doesn't know the stage that the other caller attaches, until a call names it.
const LOOKING: [Turn; 13] = [
    Turn::Second(Step::Acts(Call::Tick(0), Ok(Reply::Tick(Ticked::Fired(0))))),
    Turn::Second(Step::Acts(Call::Complete(1, Value::Nil), Err(DeskFault::NoStage))),
    Turn::Second(Step::Reads(Ask::Now(1, Value::Nil), Err(DeskFault::NoStage))),
    Turn::Second(Step::Joins(1, 2, Err(DeskFault::NoStage))),
    Turn::First(Step::Acts(ATTACHES, Ok(AT_ONE))),
    Turn::Second(Step::Knows(1, false)),
    Turn::Second(Step::Acts(Call::Tick(1), FULL_PASS)),
    Turn::Second(Step::Has(1, 0)),
    Turn::Second(Step::Acts(Call::Complete(1, Value::Nil), FULL_PASS)),
    Turn::Second(Step::Has(2, 0)),
    Turn::Second(Step::KnowsFunction(1, None)),
    Turn::Second(Step::Reads(Ask::Now(1, Value::Nil), Err(DeskFault::PassFull))),
    Turn::Second(Step::Joins(1, 2, Err(DeskFault::PassFull))),
];

/// The second caller knows the stage that the first one attached once it has looked for events of others so.
macro_rules! finds {
    ($name:expr, $looks:expr) => {
        Case {
            name: $name,
            opening: GROWING,
            turns: &[
                Turn::First(Step::Acts(ATTACHES, Ok(AT_ONE))),
                Turn::Second(Step::Knows(1, false)),
                Turn::Second($looks),
                Turn::Second(Step::Knows(1, true)),
            ],
            ends: &[],
        }
    };
}

/// A supply is attached and done, while the other caller joins it.
const SUPPLIES: Work = Work {
    before: &[Call::Attach(Form::Supply, Of::None, Some(5))],
    after: &[Call::Claim(1), Call::Finish(1, Answer::Give(Value::Int(6)))],
    stage: 1,
};

const SAW: [Rec; 1] = [Rec::Saw {
    place: 3,
    ask: Ask::Outcome(1),
    told: Told::Outcome(Some(Outcome::Value(Value::Int(6)))),
}];

const JOINING: [Turn; 5] = [
    Turn::Second(Step::Knows(0, true)),
    Turn::Second(Step::Knows(1, false)),
    Turn::SecondJoins(SUPPLIES),
    Turn::Second(Step::KnowsFunction(1, Some(5))),
    Turn::Second(Step::Knows(2, false)),
];

const JOINED: [End; 3] = [
    End::Replied(Reply::Claim(Claimed::Granted(Args::None)), 1),
    End::Replied(Reply::Finish(Finished::Won), 1),
    End::Records(1, &SAW),
];

static CASES: [Case; 19] = [
    Case {
        name: "attach seen",
        opening: GROWING,
        turns: &SEEING,
        ends: &SEEN,
    },
    Case {
        name: "what does not fit is refused",
        opening: Opening {
            calls: 1,
            room: Some((1, 1)),
            ..GROWING
        },
        turns: &FITTING,
        ends: &[End::Events(1)],
    },
    Case {
        name: "a desk without room attaches nothing",
        opening: SMALL,
        turns: &WITHOUT_ROOM,
        ends: &WITHOUT_ROOM_ENDS,
    },
    Case {
        name: "a full pass looks for a stage that it does not know",
        opening: Opening {
            calls: 1,
            ..GROWING
        },
        turns: &LOOKING,
        ends: &[End::Events(2)],
    },
    Case {
        name: "join sees an attached stage",
        opening: Opening {
            calls: 3,
            room: Some((1, 6)),
            ..GROWING
        },
        turns: &JOINING,
        ends: &JOINED,
    },
    has_a_word!("no functions", 0, 0, BAD),
    has_a_word!("function 4,095 of 4,095", 4_095, 4_095, BAD),
    has_a_word!("function 4,095 of 4,096", 4_096, 4_095, Ok(FULL)),
    has_a_word!("function 4,095 of 65,536", 65_536, 4_095, Ok(FULL)),
    has_a_word!("function 4,096", 65_536, 4_096, BAD),
    has_a_word!("function 65,535", 65_536, 65_535, BAD),
    has_a_word!("the most functions", u32::MAX, 0, Ok(FULL)),
    gets_the_last_room!("the only room", 1, &[], 2),
    gets_the_last_room!("the second room", 2, &[ATTACHES], 3),
    gets_the_last_room!("the third room", 3, &[ATTACHES, ATTACHES], 4),
    finds!(
        "a call looks",
        Step::Acts(Call::Cancel(1), Ok(Reply::Flag(true)))
    ),
    finds!(
        "a question looks",
        Step::Reads(Ask::Outcome(1), Ok(Told::Outcome(None)))
    ),
    finds!("a join looks", Step::Joins(1, 0, Ok(Joined::NotYet))),
    finds!("who asks for work looks", Step::FindsReady(None)),
];

#[test]
fn callers_attach_stages(rt: HostRuntime) {
    play(&rt, rt.alloc(), &CASES);
}
