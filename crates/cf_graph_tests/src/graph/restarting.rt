//! Graphs that start again, beside new ones.
use crate::graph::plans::{NONE, Rows, SOURCE};
use crate::graph::steps::{Case, Step, fault, granted, value};
use cf_forms::{Answer, Args, Form, Limit, LimitKind, Of};
use cf_model::{Attached, Claimed, Finished, Ticked};
use cf_outcome::Cause;

const LIMITS: [Limit; 1] = [Limit {
    stage: 1,
    at: 5,
    kind: LimitKind::Timeout(7),
}];

/// Two sources, a supply, an apply and a compose of the first source, and a limit on the second.
const ROWS: Rows = Rows {
    stages: &[
        SOURCE,
        SOURCE,
        (Form::Supply, &[], Some(0)),
        (Form::Apply, &[0], Some(1)),
        (Form::Compose, &[0], Some(2)),
    ],
    limits: &LIMITS,
    ..NONE
};

/// A new graph answers so, up to an open claim of stage 3 and a link of stage 4 to stage 1.
const NEW: [Step; 15] = [
    Step::Turns(0),
    Step::Stages(5),
    Step::Tick(0, Ticked::Fired(0)),
    Step::LowestReady(Some(2)),
    Step::Turns(1),
    Step::Outcome(0, None),
    Step::Outcome(1, None),
    Step::Finish(3, Answer::Throw(1), Finished::NotYours),
    Step::Claim(3, Claimed::NotReady),
    Step::Complete(0, 3, true),
    granted!(3, 3),
    granted!(4, 3),
    Step::Finish(4, Answer::Link(1), Finished::Won),
    Step::Outcome(4, None),
    Step::Turns(3),
];

/// The room of a graph that was found new is filled: the first stage takes what its sources have, and the second waits
/// for stages 1 and 4.
const FILLS: [Step; 6] = [
    Step::Attach(Form::AnyOf, Of::Two(1, 0), None, Attached::At(5)),
    value!(5, 3),
    Step::Attach(Form::RunEither, Of::Two(4, 1), Some(3), Attached::At(6)),
    Step::Outcome(6, None),
    Step::Attach(Form::Supply, Of::None, Some(4), Attached::StagesFull),
    Step::Turns(4),
];

/// The limit of a graph that was found new settles stage 1, and so all that waits for it.
const EXPIRES: [Step; 4] = [
    Step::Tick(7, Ticked::Fired(1)),
    Step::Tick(6, Ticked::Past),
    fault!(1, Cause::TimedOut(7), false),
    fault!(4, Cause::TimedOut(7), true),
];

const RESTARTED: [&[Step]; 13] = [
    &NEW,
    &[Step::Restart],
    &NEW,
    &FILLS,
    &[Step::Restart, Step::Has(5, false)],
    &NEW,
    &FILLS,
    &EXPIRES,
    &[fault!(6, Cause::TimedOut(7), true)],
    &[Step::Restart, Step::Restart],
    &NEW,
    &EXPIRES,
    &[Step::PlanStages(5)],
];

/// The graph is full, and restarts.
const FULL: [Step; 2] = [
    Step::Attach(Form::AllOf, Of::None, None, Attached::StagesFull),
    Step::Restart,
];

const WITHOUT_ROOM: [&[Step]; 7] = [&NEW, &EXPIRES, &FULL, &NEW, &EXPIRES, &FULL, &NEW];

const EMPTY: [Step; 3] = [Step::Restart, Step::Stages(0), Step::LowestReady(None)];

/// The room of a graph of 4,080 stages is filled. It restarts, takes so many turns, and restarts twice more.
macro_rules! filled {
    ($taken:expr) => {
        [
            Step::AttachesSources(4080, 4096),
            Step::Stages(4096),
            Step::Restart,
            Step::Stages(4080),
            Step::Nudge($taken, $taken),
            Step::Turns($taken),
            Step::Restart,
            Step::Nudge(5000, 4080),
            Step::Claim(4079, Claimed::Granted(Args::None)),
            Step::LowestReady(Some(0)),
            Step::Restart,
        ]
    };
}

const FILLED: [&[Step]; 4] = [&filled!(2000), &filled!(4080), &filled!(0), &filled!(4080)];

const SUPPLIES: Rows = Rows {
    alike: &[(4080, (Form::Supply, &[], Some(0)))],
    ..NONE
};

pub(crate) static CASES: [Case; 4] = [
    Case {
        name: "a graph with room",
        rows: &ROWS,
        room: Some(2),
        steps: &RESTARTED,
    },
    Case {
        name: "a graph without room",
        rows: &ROWS,
        room: None,
        steps: &WITHOUT_ROOM,
    },
    Case {
        name: "an empty graph",
        rows: &NONE,
        room: None,
        steps: &[&EMPTY],
    },
    // Marks and ready stages are left over, in all words of their sets.
    Case {
        name: "the greatest graph",
        rows: &SUPPLIES,
        room: Some(16),
        steps: &FILLED,
    },
];
