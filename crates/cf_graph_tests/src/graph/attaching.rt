//! Stages that are attached: what they take at once, and what they wait for.
use crate::graph::plans::{NONE, Rows, SOURCE};
use crate::graph::steps::{Case, Step, fault, granted, value};
use cf_forms::{Answer, Args, Form, Of};
use cf_model::{Attached, Claimed, Event, Finished, Reply};
use cf_outcome::{Cause, Outcome, Value};

const TWO_SOURCES: Rows = Rows {
    stages: &[SOURCE, SOURCE],
    ..NONE
};

/// An anyOf of stages 1 and 0 is attached as stage 2.
const ATTACHES_ANY_OF: Step = Step::Attach(Form::AnyOf, Of::Two(1, 0), None, Attached::At(2));

/// An applyToEither of stages 0 and 1 is attached as stage 2.
const ATTACHES_EITHER: Step = Step::Attach(
    Form::ApplyEither,
    Of::Two(0, 1),
    Some(0),
    Attached::At(2),
);

/// A thenCombine of stages 0 and 1 is attached as stage 2.
const ATTACHES_COMBINE: Step = Step::Attach(Form::Combine, Of::Two(0, 1), Some(0), Attached::At(2));

const ANY_OF: [Step; 6] = [
    Step::Complete(0, 1, true),
    Step::Complete(1, 2, true),
    ATTACHES_ANY_OF,
    Step::Turns(1),
    Step::Claim(2, Claimed::Settled),
    value!(2, 2),
];

const EITHER: [Step; 6] = [
    Step::Complete(1, 5, true),
    ATTACHES_EITHER,
    Step::Turns(1),
    Step::Complete(0, 4, true),
    granted!(2, 5),
    Step::Outcome(2, None),
];

const EITHER_FAILS: [Step; 6] = [
    Step::Complete(1, 5, true),
    Step::Fail(0, 7, true),
    ATTACHES_EITHER,
    Step::Turns(1),
    Step::Claim(2, Claimed::Settled),
    fault!(2, Cause::Thrown(7), true),
];

const LATER: [Step; 6] = [
    ATTACHES_EITHER,
    Step::Turns(0),
    Step::Complete(1, 6, true),
    Step::Complete(0, 4, true),
    granted!(2, 6),
    Step::Outcome(2, None),
];

const COMBINE_WAITS: [Step; 5] = [
    Step::Complete(1, 2, true),
    ATTACHES_COMBINE,
    Step::Turns(1),
    Step::Claim(2, Claimed::NotReady),
    Step::Outcome(2, None),
];

const COMBINE_IS_READY: [Step; 6] = [
    Step::Complete(1, 2, true),
    ATTACHES_COMBINE,
    Step::Turns(1),
    Step::Complete(0, 1, true),
    Step::Claim(2, Claimed::Granted(Args::Two(Value::Int(1), Value::Int(2)))),
    Step::Outcome(2, None),
];

const TAKEN_TWICE: [Step; 5] = [
    Step::Complete(0, 3, true),
    Step::Attach(Form::Combine, Of::Two(0, 0), Some(0), Attached::At(2)),
    Step::Turns(1),
    Step::Claim(2, Claimed::Granted(Args::Two(Value::Int(3), Value::Int(3)))),
    Step::Outcome(2, None),
];

const CALLED: Claimed = Claimed::Granted(Args::None);

const NIL: Option<Outcome> = Some(Outcome::Value(Value::Nil));

const SOURCE_STARTS: [Step; 4] = [
    Step::Attach(Form::Source, Of::None, None, Attached::At(2)),
    Step::Turns(0),
    Step::Claim(2, Claimed::NotReady),
    Step::Outcome(2, None),
];

const SUPPLY_STARTS: [Step; 4] = [
    Step::Attach(Form::Supply, Of::None, Some(0), Attached::At(2)),
    Step::Turns(1),
    Step::Claim(2, CALLED),
    Step::Outcome(2, None),
];

const RUN_ASYNC_STARTS: [Step; 4] = [
    Step::Attach(Form::RunAsync, Of::None, Some(0), Attached::At(2)),
    Step::Turns(1),
    Step::Claim(2, CALLED),
    Step::Outcome(2, None),
];

const ALL_OF_STARTS: [Step; 4] = [
    Step::Attach(Form::AllOf, Of::None, None, Attached::At(2)),
    Step::Turns(1),
    Step::Claim(2, Claimed::Settled),
    Step::Outcome(2, NIL),
];

const ANY_OF_STARTS: [Step; 4] = [
    Step::Attach(Form::AnyOf, Of::None, None, Attached::At(2)),
    Step::Turns(0),
    Step::Claim(2, Claimed::NotReady),
    Step::Outcome(2, None),
];

const FULL: [Step; 14] = [
    Step::Complete(0, 1, true),
    Step::Complete(1, 2, true),
    ATTACHES_ANY_OF,
    value!(2, 2),
    Step::Attach(Form::Apply, Of::One(2), Some(9), Attached::At(3)),
    Step::Has(3, true),
    Step::ClaimBy(5, 3, Claimed::Granted(Args::One(Value::Int(2)))),
    Step::Function(3, Some(9)),
    Step::Turns(2),
    Step::Attach(Form::AllOf, Of::None, None, Attached::StagesFull),
    Step::Turns(2),
    Step::Stages(4),
    Step::Has(4, false),
    Step::PlanStages(2),
];

const TREATED_FIRST: [Step; 5] = [
    Step::Fail(0, 7, true),
    Step::Attach(Form::Apply, Of::One(1), Some(0), Attached::At(2)),
    Step::Turns(2),
    Step::Nudge(3, 0),
    fault!(2, Cause::Thrown(7), true),
];

const SOURCE_AND_APPLY: Rows = Rows {
    stages: &[SOURCE, (Form::Apply, &[0], Some(0))],
    ..NONE
};

/// A source is attached as stage 2.
const ATTACHES_SOURCE: Step = Step::Attach(Form::Source, Of::None, None, Attached::At(2));

/// A compose of stage 0 is attached as stage 3.
const ATTACHES_COMPOSE: Step = Step::Attach(Form::Compose, Of::One(0), Some(0), Attached::At(3));

/// The compose answers with a lower stage, or with itself.
const LINKED_LOWER: [Step; 6] = [
    Step::Complete(0, 1, true),
    ATTACHES_SOURCE,
    ATTACHES_COMPOSE,
    granted!(3, 1),
    Step::Finish(3, Answer::Link(1), Finished::Won),
    Step::Outcome(3, None),
];

const LINKED_TO_ITSELF: [Step; 6] = [
    Step::Complete(0, 1, true),
    ATTACHES_SOURCE,
    ATTACHES_COMPOSE,
    granted!(3, 1),
    Step::Finish(3, Answer::Link(3), Finished::Won),
    fault!(3, Cause::BadAnswer(0), true),
];

const FOLLOWED: [Step; 7] = [
    Step::Complete(0, 1, true),
    ATTACHES_SOURCE,
    ATTACHES_COMPOSE,
    granted!(3, 1),
    Step::Finish(3, Answer::Link(2), Finished::Won),
    Step::Complete(2, 8, true),
    value!(3, 8),
];

/// Caller 3 attaches an apply of stage 1.
const ATTACHES: Event = Event::Attach {
    who: 3,
    form: Form::Apply,
    of: Of::One(1),
    function: Some(8),
};

const BY_EVENTS: [Step; 5] = [
    Step::Complete(1, 6, true),
    Step::Event(ATTACHES, Reply::Attach(Attached::At(2))),
    Step::Function(2, Some(8)),
    granted!(2, 6),
    Step::Event(ATTACHES, Reply::Attach(Attached::StagesFull)),
];

pub(crate) static CASES: [Case; 18] = [
    Case {
        name: "an anyOf takes its first argument",
        rows: &TWO_SOURCES,
        room: Some(1),
        steps: &[&ANY_OF],
    },
    Case {
        name: "an either takes what is there",
        rows: &TWO_SOURCES,
        room: Some(1),
        steps: &[&EITHER],
    },
    Case {
        name: "an either takes its first argument",
        rows: &TWO_SOURCES,
        room: Some(1),
        steps: &[&EITHER_FAILS],
    },
    Case {
        name: "the first that settles later",
        rows: &TWO_SOURCES,
        room: Some(1),
        steps: &[&LATER],
    },
    Case {
        name: "both sources are waited for",
        rows: &TWO_SOURCES,
        room: Some(1),
        steps: &[&COMBINE_WAITS],
    },
    Case {
        name: "both sources are there",
        rows: &TWO_SOURCES,
        room: Some(1),
        steps: &[&COMBINE_IS_READY],
    },
    Case {
        name: "one source is taken twice",
        rows: &TWO_SOURCES,
        room: Some(1),
        steps: &[&TAKEN_TWICE],
    },
    Case {
        name: "what waits is treated first",
        rows: &SOURCE_AND_APPLY,
        room: Some(1),
        steps: &[&TREATED_FIRST],
    },
    Case {
        name: "a compose links lower",
        rows: &TWO_SOURCES,
        room: Some(2),
        steps: &[&LINKED_LOWER],
    },
    Case {
        name: "a compose links to itself",
        rows: &TWO_SOURCES,
        room: Some(2),
        steps: &[&LINKED_TO_ITSELF],
    },
    Case {
        name: "a link to an attached stage",
        rows: &TWO_SOURCES,
        room: Some(2),
        steps: &[&FOLLOWED],
    },
    // Stages of no source, a full graph, and what callers do as events, which has the same answers.
    Case {
        name: "a source",
        rows: &TWO_SOURCES,
        room: Some(1),
        steps: &[&SOURCE_STARTS],
    },
    Case {
        name: "a supply",
        rows: &TWO_SOURCES,
        room: Some(1),
        steps: &[&SUPPLY_STARTS],
    },
    Case {
        name: "a runAsync",
        rows: &TWO_SOURCES,
        room: Some(1),
        steps: &[&RUN_ASYNC_STARTS],
    },
    Case {
        name: "an allOf",
        rows: &TWO_SOURCES,
        room: Some(1),
        steps: &[&ALL_OF_STARTS],
    },
    Case {
        name: "an anyOf",
        rows: &TWO_SOURCES,
        room: Some(1),
        steps: &[&ANY_OF_STARTS],
    },
    Case {
        name: "a full graph",
        rows: &TWO_SOURCES,
        room: Some(2),
        steps: &[&FULL],
    },
    Case {
        name: "events",
        rows: &TWO_SOURCES,
        room: Some(1),
        steps: &[&BY_EVENTS],
    },
];
