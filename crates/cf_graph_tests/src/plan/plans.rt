//! Plans of every kind of size, and what is refused.
use crate::plan::many::{Ends, Many, Stages};
use crate::plan::rows::{Ask, Case, Step, check, check_each};
use cf_forms::{Form, Limit, LimitKind};
use cf_outcome::Value;
use cf_plan::{MAX_EDGES, PlanFault};

/// A builder that is told of no room, and does nothing.
const NONE: Case<'static> = Case {
    name: "",
    room: None,
    steps: &[],
    again: false,
    asks: &[],
};

const SOURCE: Step<'static> = Step::Stage(Form::Source, &[], None, Ok(0));

const GIVE: LimitKind = LimitKind::Give(Value::Int(1));

const LIMITS: [Limit; 3] = [
    Limit {
        stage: 0,
        at: 10,
        kind: GIVE,
    },
    Limit {
        stage: 1,
        at: 10,
        kind: LimitKind::Timeout(7),
    },
    Limit {
        stage: 0,
        at: 12,
        kind: LimitKind::Timeout(4294967295),
    },
];

const FIRING_ORDER: Case<'static> = Case {
    name: "limits stand in firing order",
    steps: &[
        SOURCE,
        Step::Stage(Form::Source, &[], None, Ok(1)),
        Step::Limit(0, 12, LimitKind::Timeout(4294967295), Ok(())),
        Step::Limit(0, 10, GIVE, Ok(())),
        Step::Limit(1, 10, LimitKind::Timeout(7), Ok(())),
        Step::Limits(&LIMITS),
    ],
    asks: &[Ask::Limits(&LIMITS)],
    ..NONE
};

const ACCEPTED: Case<'static> = Case {
    name: "a plan is what was accepted",
    steps: &[
        SOURCE,
        Step::Stage(Form::Combine, &[0, 0], Some(9), Ok(1)),
        Step::Stage(Form::AnyOf, &[1, 0, 1], None, Ok(2)),
        Step::Stages(3),
    ],
    asks: &[
        Ask::Stages(3),
        Ask::Edges(5),
        Ask::Form(2, Form::AnyOf),
        Ask::Function(1, Some(9)),
        Ask::Function(2, None),
        Ask::Sources(2, &[1, 0, 1]),
        Ask::Dependents(0, &[1, 1, 2]),
        Ask::Dependents(1, &[2, 2]),
        Ask::Dependents(2, &[]),
    ],
    ..NONE
};

const REFUSED: Case<'static> = Case {
    name: "a refused stage leaves the builder",
    steps: &[
        SOURCE,
        Step::Stage(Form::Apply, &[0, 1], None, Err(PlanFault::WrongSourceCount)),
        Step::Stage(Form::Apply, &[1], None, Err(PlanFault::SourceNotLower)),
        Step::Stage(Form::Apply, &[0], None, Err(PlanFault::FunctionMissing)),
        Step::Stage(Form::AllOf, &[0], Some(0), Err(PlanFault::FunctionUnwanted)),
        Step::Limit(1, 5, LimitKind::Timeout(0), Err(PlanFault::NoSuchStage)),
        Step::Stage(Form::Apply, &[0], Some(0), Ok(1)),
        Step::Limit(1, 5, LimitKind::Timeout(0), Ok(())),
    ],
    ..NONE
};

/// A stage takes all edges that there may be, and no stage behind it takes one. As many limits are added as there may
/// be, and no limit behind them is taken.
const TOO_MANY: Case<'static> = Case {
    name: "too many are refused",
    steps: &[
        SOURCE,
        Step::Names(MAX_EDGES, Ok(1)),
        Step::Stage(Form::AllOf, &[0], None, Err(PlanFault::TooManyEdges)),
        Step::Stage(Form::AllOf, &[], None, Ok(2)),
        Step::Limited(Many::Falling, 4_096),
        Step::Limit(0, 0, LimitKind::Timeout(0), Err(PlanFault::TooManyLimits)),
        Step::Limit(3, 0, LimitKind::Timeout(0), Err(PlanFault::NoSuchStage)),
    ],
    asks: &[
        Ask::Edges(16_384),
        Ask::LimitsAre(Ends::Rise(1, 4_096), 4_096),
    ],
    ..NONE
};

/// It takes no stage more, and is built and walked.
const LARGEST: Case<'static> = Case {
    name: "the largest plan",
    steps: &[
        Step::Adds(Stages::Largest, 4_096),
        Step::Stage(Form::Source, &[], None, Err(PlanFault::TooManyStages)),
    ],
    asks: &[Ask::Stages(4_096), Ask::Walks(16_384)],
    ..NONE
};

/// Each stage of it has a limit, too, and no limit behind them is taken.
const FULLEST: Case<'static> = Case {
    name: "the fullest plan",
    steps: &[
        Step::Adds(Stages::Largest, 4_096),
        Step::Limited(Many::Each, 4_096),
        Step::Limit(
            4_095,
            u32::MAX,
            LimitKind::Timeout(0),
            Err(PlanFault::TooManyLimits),
        ),
        Step::Limit(
            4_096,
            u32::MAX,
            LimitKind::Timeout(0),
            Err(PlanFault::NoSuchStage),
        ),
    ],
    asks: &[
        Ask::Stages(4_096),
        Ask::Edges(16_384),
        Ask::LimitsAre(Ends::OfEach, 4_096),
    ],
    ..NONE
};

const MOMENTS: Case<'static> = Case {
    name: "moments reach from the least to the greatest",
    steps: &[SOURCE, Step::Limited(Many::Powers, 96)],
    asks: &[Ask::LimitsAre(Ends::Rise(0, u32::MAX), 96)],
    ..NONE
};

const STARTING: Case<'static> = Case {
    name: "stages that start are told",
    steps: &[
        SOURCE,
        Step::Stage(Form::Supply, &[], Some(0), Ok(1)),
        Step::Stage(Form::AllOf, &[], None, Ok(2)),
        Step::Stage(Form::AnyOf, &[], None, Ok(3)),
        Step::Stage(Form::Apply, &[1], Some(1), Ok(4)),
        Step::Stage(Form::AllOf, &[2], None, Ok(5)),
        Step::Stage(Form::RunAsync, &[], Some(2), Ok(6)),
        Step::Stage(Form::Source, &[], None, Ok(7)),
    ],
    asks: &[Ask::Starts(&[1, 2, 6])],
    ..NONE
};

const NOTHING_STARTS: Case<'static> = Case {
    name: "no stage starts",
    steps: &[SOURCE],
    asks: &[Ask::Starts(&[])],
    ..NONE
};

/// Once the room is made, none of the stages is refused.
const ROOMY: Case<'static> = Case {
    name: "stages within their room take no memory",
    room: Some((3, 4)),
    steps: &[
        Step::Stages(0),
        Step::Limits(&[]),
        SOURCE,
        Step::Stage(Form::Apply, &[0], Some(4), Ok(1)),
        Step::Stage(Form::AnyOf, &[0, 1, 0], None, Ok(2)),
    ],
    again: true,
    asks: &[Ask::Stages(3), Ask::Edges(4)],
};

/// A plan of three stages and a limit. Where a growth is refused, it is tried again.
const AGAIN: Case<'static> = Case {
    name: "a refused growth can be tried again",
    steps: &[
        Step::StageAgain(Form::Source, &[], None, 0),
        Step::StageAgain(Form::Apply, &[0], Some(4), 1),
        Step::StageAgain(Form::AnyOf, &[0, 1, 0], None, 2),
        Step::LimitAgain,
    ],
    again: true,
    asks: &[
        Ask::Stages(3),
        Ask::Dependents(0, &[1, 2, 2]),
        Ask::Dependents(1, &[2]),
        Ask::LimitsAre(Ends::Rise(5, 5), 1),
    ],
    ..NONE
};

/// 100 stages, whose builder has another room than they need: room is no bound.
const HUNDRED: Case<'static> = Case {
    name: "no room",
    room: Some((0, 0)),
    steps: &[
        Step::Adds(Stages::FewNamed, 100),
        Step::Limit(99, 1, LimitKind::Timeout(0), Ok(())),
    ],
    asks: &[Ask::Stages(100), Ask::Edges(197)],
    ..NONE
};

const LITTLE_ROOM: Case<'static> = Case {
    name: "little room",
    room: Some((1, 1)),
    ..HUNDRED
};

const MOST_ROOM: Case<'static> = Case {
    name: "the most room",
    room: Some((u16::MAX, u16::MAX)),
    ..HUNDRED
};

static CASES: [Case<'static>; 15] = [
    FIRING_ORDER,
    ACCEPTED,
    REFUSED,
    TOO_MANY,
    LARGEST,
    FULLEST,
    MOMENTS,
    STARTING,
    NOTHING_STARTS,
    HUNDRED,
    LITTLE_ROOM,
    MOST_ROOM,
    COPIED,
    ROOMY,
    AGAIN,
];

#[test]
fn plans_are_what_was_accepted(rt: HostRuntime) {
    check_each(&rt, rt.alloc(), &CASES);
}

/// Numbers of edges from none up to the most, and those beside the powers of two that blocks grow by.
static EDGES: [usize; 12] = [
    0, 1, 2, 255, 256, 257, 4_095, 4_096, 4_097, 8_192, 16_383, 16_384,
];

const FULL: Result<u16, PlanFault> = Err(PlanFault::TooManyEdges);

/// A source, and a stage that names it as often as said. One edge more than there may be, in one stage or in two, is
/// refused.
#[test]
fn every_number_of_edges_is_built(rt: HostRuntime) {
    for edges in &EDGES {
        let case = Case {
            name: "edges",
            steps: &[
                SOURCE,
                Step::Names(MAX_EDGES + 1, FULL),
                Step::Names(*edges, Ok(1)),
                Step::Names((MAX_EDGES + 1).saturating_sub(*edges), FULL),
            ],
            asks: &[
                Ask::Stages(2),
                Ask::Edges(*edges as u32),
                Ask::Names(1, *edges),
                Ask::IsNamed(0, *edges),
            ],
            ..NONE
        };
        check(&rt, rt.alloc(), &case);
    }
}

static STAGES: [u16; 8] = [0, 1, 2, 63, 64, 65, 4_095, 4_096];

/// So many supplies, which all start.
#[test]
fn every_number_of_stages_is_built(rt: HostRuntime) {
    for stages in &STAGES {
        let case = Case {
            name: "stages",
            steps: &[Step::Adds(Stages::Supplies, *stages)],
            asks: &[
                Ask::Stages(*stages),
                Ask::Edges(0),
                Ask::Start(*stages as usize),
            ],
            ..NONE
        };
        check(&rt, rt.alloc(), &case);
    }
}

const COPIED: Case<'static> = Case {
    name: "a plan has many copies at once",
    steps: &[SOURCE, Step::Names(3, Ok(1))],
    asks: &[Ask::Copies(20_000)],
    ..NONE
};

/// Edges, room, and whether a plan with so many edges has place for it.
static PLACES: [(usize, u16, bool); 10] = [
    (0, 0, true),
    (0, 4_094, true),
    (0, 4_095, false),
    (0, 65_535, false),
    (16_384, 0, true),
    (16_384, 1, false),
    (16_383, 1, false),
    (16_382, 1, true),
    (16_000, 192, true),
    (16_000, 193, false),
];

/// Stages and room are at most 4,096, and edges and twice the room at most 16,384.
#[test]
fn stages_edges_and_room_are_bounded(rt: HostRuntime) {
    for (edges, room, has) in &PLACES {
        let case = Case {
            name: "place",
            steps: &[SOURCE, Step::Names(*edges, Ok(1))],
            asks: &[Ask::HasPlace(*room, *has)],
            ..NONE
        };
        check(&rt, rt.alloc(), &case);
    }
}
