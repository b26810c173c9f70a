//! What is done to a builder, and what a plan is asked, as rows that tests take.
use crate::checks::{holds, must};
use crate::plan::many::{Ends, Many, Stages, adds_limits, adds_stages, limits_are, names, walked};
use crate::plan::place::copies;
use cf_forms::{Form, Limit, LimitKind};
use cf_plan::{Plan, PlanBuilder, PlanFault};
use std::alloc::Global;
use std::process::Abort;

/// A call of a builder with its answer last.
#[derive(Clone, Copy)]
pub(crate) enum Step<'a> {
    Stage(Form, &'a [u16], Option<u16>, Result<u16, PlanFault>),
    /// A stage is added. Where a growth is refused, there are as many stages as before, and the same call again
    /// succeeds.
    StageAgain(Form, &'a [u16], Option<u16>, u16),
    /// An allOf names stage 0 so often.
    Names(usize, Result<u16, PlanFault>),
    /// So many stages are added by this rule, to none.
    Adds(Stages, u16),
    Limit(u16, u32, LimitKind, Result<(), PlanFault>),
    /// A limit of stage 1 is added. Where a growth is refused, there is none, and the same call again succeeds.
    LimitAgain,
    /// So many limits are added by this rule.
    Limited(Many, u16),
    Stages(u16),
    Limits(&'a [Limit]),
}

/// A question for a plan with its answer last.
#[derive(Clone, Copy)]
pub(crate) enum Ask<'a> {
    Stages(u16),
    Edges(u32),
    Form(u16, Form),
    Function(u16, Option<u16>),
    Sources(u16, &'a [u16]),
    Dependents(u16, &'a [u16]),
    /// A stage has so many sources.
    Names(u16, usize),
    /// A stage has so many dependents.
    IsNamed(u16, usize),
    /// Each dependent names its stage as often as it stands there, in rising order, and there are so many in all.
    Walks(usize),
    Limits(&'a [Limit]),
    /// So many limits, which are like this.
    LimitsAre(Ends, usize),
    Starts(&'a [u16]),
    /// So many stages start.
    Start(usize),
    /// It has place for so much room, or hasn't.
    HasPlace(u16, bool),
    /// It can be copied so often, while all copies are kept.
    Copies(u32),
}

/// A plan: what its builder does, and what it is asked then.
#[derive(Clone, Copy)]
pub(crate) struct Case<'a> {
    pub(crate) name: &'static str,
    /// For how many stages and edges the builder has room from the start, if it is told.
    pub(crate) room: Option<(u16, u16)>,
    pub(crate) steps: &'a [Step<'a>],
    /// Whether the plan is built once more where memory was refused it.
    pub(crate) again: bool,
    pub(crate) asks: &'a [Ask<'a>],
}

/// Whether these are the same limits in the same order.
pub(crate) fn are_same(limits: &[Limit], others: &[Limit]) -> bool {
    limits == others
}

/// Adds a stage. Where a growth is refused, there are as many stages as before, and it is tried again.
fn stage_again(
    builder: &mut PlanBuilder,
    form: Form,
    of: &[u16],
    function: Option<u16>,
    number: u16,
) -> Result<u16, PlanFault> {
    let answer = builder.stage(form, of, function);
    if answer == Err(PlanFault::NoMemory) && builder.stages() == number {
        builder.stage(form, of, function)
    } else {
        answer
    }
}

/// Adds a limit in the same way.
fn limit_again(builder: &mut PlanBuilder) -> Result<(), PlanFault> {
    let answer = builder.limit(1, 5, LimitKind::Timeout(0));
    if answer == Err(PlanFault::NoMemory) && builder.limits().is_empty() {
        builder.limit(1, 5, LimitKind::Timeout(0))
    } else {
        answer
    }
}

/// Whether a call is answered so.
fn is_taken(alloc: Global, builder: &mut PlanBuilder, step: Step<'_>) -> bool {
    match step {
        Step::Stage(form, of, function, answer) => builder.stage(form, of, function) == answer,
        Step::StageAgain(form, of, function, number) => {
            stage_again(builder, form, of, function, number) == Ok(number)
        }
        Step::Names(count, answer) => names(alloc, builder, count) == answer,
        Step::Adds(stages, count) => adds_stages(builder, stages, count),
        Step::Limit(stage, at, kind, answer) => builder.limit(stage, at, kind) == answer,
        Step::LimitAgain => limit_again(builder) == Ok(()),
        Step::Limited(many, count) => adds_limits(builder, many, count),
        Step::Stages(answer) => builder.stages() == answer,
        Step::Limits(answer) => are_same(builder.limits(), answer),
    }
}

/// Whether a question is answered so.
fn is_answered(alloc: Global, plan: &Plan, ask: Ask<'_>) -> bool {
    match ask {
        Ask::Stages(answer) => plan.stages() == answer,
        Ask::Edges(answer) => plan.edges() == answer,
        Ask::Form(i, answer) => i < plan.stages() && plan.form(i) == answer,
        Ask::Function(i, answer) => i < plan.stages() && plan.function(i) == answer,
        Ask::Sources(i, answer) => i < plan.stages() && plan.sources(i) == answer,
        Ask::Dependents(i, answer) => i < plan.stages() && plan.dependents(i) == answer,
        Ask::Names(i, count) => i < plan.stages() && plan.sources(i).len() == count,
        Ask::IsNamed(i, count) => i < plan.stages() && plan.dependents(i).len() == count,
        Ask::Walks(count) => walked(plan) == Some(count),
        Ask::Limits(answer) => are_same(plan.limits(), answer),
        Ask::LimitsAre(ends, count) => limits_are(plan.limits(), ends, count),
        Ask::Starts(answer) => plan.starts() == answer,
        Ask::Start(count) => plan.starts().len() == count,
        Ask::HasPlace(room, answer) => plan.has_place(room) == answer,
        Ask::Copies(times) => copies(alloc, plan, times),
    }
}

/// The plan of a case, whose builder answers each call as it says.
fn built(rt: &impl Abort, alloc: Global, case: &Case<'_>) -> Result<Plan, PlanFault> {
    let mut builder = match case.room {
        None => PlanBuilder::new(alloc),
        Some((stages, edges)) => PlanBuilder::with_room(alloc, stages, edges)?,
    };
    for (at, step) in case.steps.iter().enumerate() {
        holds(
            rt,
            is_taken(alloc, &mut builder, *step),
            (case.name, "step", at),
        );
    }
    builder.build()
}

/// The same. Where it may be, it is built once more if memory was refused it.
fn built_again(rt: &impl Abort, alloc: Global, case: &Case<'_>) -> Plan {
    match built(rt, alloc, case) {
        Err(PlanFault::NoMemory) if case.again => must(rt, built(rt, alloc, case)),
        told => must(rt, told),
    }
}

/// The copy of the plan of a case, made in the same way.
fn copied_again(rt: &impl Abort, plan: &Plan, again: bool) -> Plan {
    match plan.copy() {
        Err(PlanFault::NoMemory) if again => must(rt, plan.copy()),
        told => must(rt, told),
    }
}

/// Each question is answered as the case says.
fn check_asks(rt: &impl Abort, alloc: Global, plan: &Plan, case: &Case<'_>) {
    for (at, ask) in case.asks.iter().enumerate() {
        holds(
            rt,
            is_answered(alloc, plan, *ask),
            (case.name, "question", at),
        );
    }
}

/// Each question is answered as it says by the plan of a case, and by its copy.
pub(crate) fn check(rt: &impl Abort, alloc: Global, case: &Case<'_>) {
    let plan = built_again(rt, alloc, case);
    check_asks(rt, alloc, &plan, case);
    let copy = copied_again(rt, &plan, case.again);
    check_asks(rt, alloc, &copy, case);
    drop((plan, copy));
}

/// The same of each of these.
pub(crate) fn check_each(rt: &impl Abort, alloc: Global, cases: &[Case<'_>]) {
    for case in cases {
        check(rt, alloc, case);
    }
}
