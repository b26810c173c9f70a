//! What is done to the machine of a request and asked of it, as rows: a call, and what it is answered.
use crate::checks::{holds, must};
use crate::plans::{Row, plan_of};
use cf_forms::Form;
use cf_ledger::{Finish, Held, LedgerFault, Reply, Stage, StepFault};
use cf_outcome::Outcome;
use cf_request::{
    Composed, Composing, Deadline, Gathering, Join, JoinFault, Machine, MachineFault, Next,
    ScopeFault,
};
use std::alloc::Global;
use std::process::Abort;

/// A call of `Machine` with its answer last.
#[derive(Clone, Copy)]
pub(crate) enum Step {
    /// Memory for so many words.
    Reserve(usize),
    /// A word, and the lane of a stage that it attaches.
    Apply(u64, u8, Result<Reply, LedgerFault>),
    /// A caller, how it gathers, and what.
    Gather(u8, Gathering, &'static [u16], Result<u16, LedgerFault>),
    /// A caller, the form, the source, the function, and the lane.
    Compose(u8, Composing, u16, u16, u8, Result<Composed, LedgerFault>),
    /// A caller, a compose that it holds, and the stage that its function answered.
    Link(u8, Composed, u16, Result<Finish, StepFault>),
    /// A caller, the lane that it asks, and what it holds.
    Next(u8, u8, Option<Held>, Result<Next, StepFault>),
    Ready(u8, u16),
    /// A relay, and the stage that it follows.
    Follow(u16, u16, Result<(), MachineFault>),
    /// A join, how many of its sources it wants, and these.
    Join(u16, u16, &'static [u16], Result<(), JoinFault>),
    /// A word, the lane and the scope of the stage that it attaches.
    AttachIn(u64, u8, u16, Result<u16, ScopeFault>),
    /// A stage, and its scope.
    PutIn(u16, u16, Result<(), ScopeFault>),
    /// A scope, and the stage that it ends with.
    EndsWith(u16, u16, Result<(), MachineFault>),
    /// A caller, and the scope that it ends.
    EndScope(u8, u16, Result<(), StepFault>),
    /// A relay, and the stage that it follows, so many times.
    FollowOften(u16, u16, usize),
    Deadline(Deadline, Result<(), MachineFault>),
    /// The same so many times.
    DeadlineOften(Deadline, usize),
    Pass(u64, Result<(), MachineFault>),
    NextDeadline(Option<Deadline>),
    /// A lane and a code.
    Refuse(u8, u32),
    CancelAll(u8, Result<(), StepFault>),
    Restart,
    /// Room for stages, and so much of it then.
    Grow(u16),
    Told(&'static [u16]),
    Took(usize),
    /// A stage that is settled, with its outcome.
    Ends(u16, Outcome),
    Len(usize),
    /// All words of its ledger.
    Words(&'static [u64]),
}

/// Whether a call is answered so.
fn is_answered(alloc: Global, machine: &mut Machine, step: Step) -> bool {
    match step {
        Step::Reserve(words) => machine.reserve(words).is_ok(),
        Step::Apply(word, lane, answer) => {
            lane < machine.lanes() && machine.apply(word, lane) == answer
        }
        Step::Gather(who, how, sources, answer) => machine.gather(who, how, sources) == answer,
        Step::Compose(who, how, source, function, lane, answer) => {
            lane < machine.lanes() && machine.compose(who, how, source, function, lane) == answer
        }
        Step::Link(who, composed, stage, answer) => machine.link(who, composed, stage) == answer,
        Step::Next(who, lane, held, answer) => {
            lane < machine.lanes() && machine.next(who, lane, held) == answer
        }
        Step::Ready(lane, answer) => lane < machine.lanes() && machine.ready(lane) == answer,
        Step::Follow(relay, stage, answer) => machine.follow(relay, stage) == answer,
        Step::Join(stage, wanted, sources, answer) => {
            joins(alloc, machine, stage, wanted, sources, answer)
        }
        Step::AttachIn(word, lane, scope, answer) => {
            lane < machine.lanes() && machine.attach_in(word, lane, scope) == answer
        }
        Step::PutIn(stage, scope, answer) => machine.put_in(stage, scope) == answer,
        Step::EndsWith(scope, stage, answer) => machine.ends_with(scope, stage) == answer,
        Step::EndScope(who, scope, answer) => machine.end_scope(who, scope) == answer,
        Step::FollowOften(relay, stage, times) => follows_often(machine, relay, stage, times),
        Step::Deadline(deadline, answer) => machine.deadline(deadline) == answer,
        Step::DeadlineOften(deadline, times) => is_set_often(machine, deadline, times),
        Step::Pass(moment, answer) => machine.pass(moment) == answer,
        Step::NextDeadline(answer) => machine.next_deadline() == answer,
        Step::Refuse(lane, code) => { lane < machine.lanes() && machine.refuse(lane, code).is_ok() }
        Step::CancelAll(who, answer) => machine.cancel_all(who) == answer,
        Step::Restart => {
            machine.restart();
            true
        }
        Step::Grow(room) => machine.grow(alloc).is_ok() && machine.ledger().room() == room,
        Step::Told(answer) => machine.told() == answer,
        Step::Took(count) => {
            machine.took(count);
            true
        }
        Step::Ends(i, outcome) => {
            i < machine.ledger().stages() && machine.ledger().stage(i) == Stage::Settled(outcome)
        }
        Step::Len(answer) => machine.ledger().len() == answer,
        Step::Words(answer) => machine.ledger().words() == answer,
    }
}

/// Whether a join is set so.
fn joins(
    alloc: Global,
    machine: &mut Machine,
    stage: u16,
    wanted: u16,
    sources: &[u16],
    answer: Result<(), JoinFault>,
) -> bool {
    let mut others = Vec::new(alloc);
    for source in sources.iter().skip(1) {
        if others.push(*source).is_err() {
            return false;
        }
    }
    let Some(source) = sources.first() else {
        return false;
    };
    let join = Join {
        stage,
        wanted,
        source: *source,
        others,
        cancels: false,
    };
    machine.join(join) == answer
}

/// Whether a relay is set so many times.
fn follows_often(machine: &mut Machine, relay: u16, stage: u16, times: usize) -> bool {
    for _ in 0..times {
        if machine.follow(relay, stage).is_err() {
            return false;
        }
    }
    true
}

/// Whether a deadline is set so many times.
fn is_set_often(machine: &mut Machine, deadline: Deadline, times: usize) -> bool {
    for _ in 0..times {
        if machine.deadline(deadline).is_err() {
            return false;
        }
    }
    true
}

/// Four sources, an apply of each of the first two, and a handle of the first apply.
static STAGES: [Row<'static>; 7] = [
    (Form::Source, &[], None),
    (Form::Source, &[], None),
    (Form::Source, &[], None),
    (Form::Source, &[], None),
    (Form::Apply, &[0], Some(0)),
    (Form::Apply, &[1], Some(1)),
    (Form::Handle, &[4], Some(2)),
];

/// The applies are lane 1's and lane 2's, and the handle is lane 1's. There are four lanes.
static LANES: [u8; 7] = [0, 0, 0, 0, 1, 2, 1];

/// The machine's own caller.
const OWN: u8 = 63;

/// A machine of these stages with so much room, and the parts of what it does.
#[derive(Clone, Copy)]
pub(crate) struct Case {
    pub(crate) name: &'static str,
    pub(crate) room: u16,
    pub(crate) parts: &'static [&'static [Step]],
}

/// A machine of these stages, with room for so many more.
fn opened(rt: &impl Abort, alloc: Global, room: u16) -> Machine {
    let plan = plan_of(rt, alloc, &STAGES);
    holds(rt, plan.has_place(room), "place");
    holds(rt, plan.stages() == 7, "stages");
    must(rt, Machine::new(alloc, &plan, room, &LANES, 4, OWN))
}

/// The machine takes the steps of a case, and each is answered as it says.
fn take(rt: &impl Abort, alloc: Global, machine: &mut Machine, case: &Case) {
    for (part, steps) in case.parts.iter().enumerate() {
        for (at, step) in steps.iter().enumerate() {
            holds(
                rt,
                is_answered(alloc, machine, *step),
                (case.name, part, at),
            );
        }
    }
}

/// The machine of each case takes its steps.
pub(crate) fn play(rt: &impl Abort, alloc: Global, cases: &[Case]) {
    for case in cases {
        let mut machine = opened(rt, alloc, case.room);
        take(rt, alloc, &mut machine, case);
        drop(machine);
    }
}
