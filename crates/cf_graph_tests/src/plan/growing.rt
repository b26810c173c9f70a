//! Plans to which stages are attached, beside plans that were built whole.
use crate::checks::{holds, must};
use crate::plan::rows::are_same;
use cf_forms::{Form, LimitKind, Of, fits_form};
use cf_plan::{GrowingPlan, MAX_STAGES, Plan, PlanBuilder, PlanFault};
use std::alloc::{AllocError, Global};
use std::process::Abort;

/// A stage that is attached to the one plan and added to the other: its form, its sources as each takes them, and its
/// function.
#[derive(Clone, Copy)]
struct Row<'a>(Form, Of, &'a [u16], Option<u16>);

/// What is done to a plan and asked of it, with the answer last.
#[derive(Clone, Copy)]
enum Step {
    /// These stages are attached.
    Attach(&'static [Row<'static>]),
    /// It is the plan that is built whole of the opening and these stages.
    IsOf(&'static [Row<'static>]),
    /// A stage has these dependents, so many of them in the opening.
    Dependents(u16, usize, &'static [u16]),
    Restart,
    /// Room, stages and edges.
    Is(u16, u16, u32),
    /// The stages and the edges of the opening.
    OpeningIs(u16, u32),
}

/// Attaches a stage where it fits and there is room, and says whether it did.
fn attaches(plan: &mut GrowingPlan, row: Row<'_>) -> bool {
    let Row(form, of, _, function) = row;
    let fits = fits_form(form, of.count(), function.is_some());
    if fits && of.are_below(plan.stages()) && plan.room() > 0 {
        plan.attach(form, of, function);
        true
    } else {
        false
    }
}

/// Attaches these stages, and says whether it did.
fn attaches_all(plan: &mut GrowingPlan, rows: &[Row<'_>]) -> bool {
    for row in rows {
        if !attaches(plan, *row) {
            return false;
        }
    }
    true
}

/// Whether these are a stage's dependents in rising order: those of the opening, and behind them those that were
/// attached, the newest of which is told first.
fn has_dependents(plan: &GrowingPlan, i: u16, named: &[u16]) -> bool {
    if i >= plan.stages() {
        return false;
    }
    let first = plan.dependents(i);
    let (opening, attached) = named.split_at(first.len().min(named.len()));
    let mut later = plan.attached_dependents(i);
    let mut right = opening == first;
    for k in attached.iter().rev() {
        right = later.pop() == Some(*k) && right;
    }
    right && later.pop().is_none() && later.pop().is_none()
}

/// Whether a stage is there and has the form, the function, the sources and the dependents that it has in the plan that
/// was built whole.
fn is_same(plan: &GrowingPlan, whole: &Plan, i: u16) -> bool {
    i < plan.stages()
        && i < whole.stages()
        && plan.form(i) == whole.form(i)
        && plan.function(i) == whole.function(i)
        && plan.sources(i) == whole.sources(i)
        && has_dependents(plan, i, whole.dependents(i))
}

/// Whether the plan is the one that was built whole: it has as many stages and edges, the same limits, and each stage
/// as it is there.
fn is_whole(plan: &GrowingPlan, whole: &Plan) -> bool {
    for i in 0..whole.stages() {
        if !is_same(plan, whole, i) {
            return false;
        }
    }
    plan.stages() == whole.stages()
        && plan.edges() == whole.edges()
        && are_same(plan.limits(), whole.limits())
}

const SOURCE: Row<'static> = Row(Form::Source, Of::None, &[], None);

static OPENING: [Row<'static>; 3] = [SOURCE, SOURCE, Row(Form::Apply, Of::One(0), &[0], Some(4))];

/// The builder takes these stages.
fn put(builder: &mut PlanBuilder, rows: &[Row<'_>]) -> Result<(), PlanFault> {
    for Row(form, _, of, function) in rows {
        builder.stage(*form, of, *function)?;
    }
    Ok(())
}

/// The plan that is built whole of two sources, an apply, a limit, and these stages.
fn whole(alloc: Global, rows: &[Row<'_>]) -> Result<Plan, PlanFault> {
    let mut builder = PlanBuilder::new(alloc);
    put(&mut builder, &OPENING)?;
    builder.limit(2, 5, LimitKind::Timeout(0))?;
    put(&mut builder, rows)?;
    builder.build()
}

/// Whether the plan is the one that is built whole of the opening and these stages.
fn is_of(alloc: Global, plan: &GrowingPlan, rows: &[Row<'_>]) -> bool {
    match whole(alloc, rows) {
        Ok(whole) => is_whole(plan, &whole),
        Err(_) => false,
    }
}

/// Whether a step is answered so.
fn is_answered(alloc: Global, plan: &mut GrowingPlan, step: Step) -> bool {
    match step {
        Step::Attach(rows) => attaches_all(plan, rows),
        Step::IsOf(rows) => is_of(alloc, plan, rows),
        Step::Dependents(i, count, named) => {
            i < plan.stages() && plan.dependents(i).len() == count && has_dependents(plan, i, named)
        }
        Step::Restart => {
            plan.restart();
            true
        }
        Step::Is(room, stages, edges) => {
            plan.room() == room && plan.stages() == stages && plan.edges() == edges
        }
        Step::OpeningIs(stages, edges) => {
            plan.opening().stages() == stages && plan.opening().edges() == edges
        }
    }
}

/// The plan takes these steps, and each is answered as it says.
fn take(rt: &impl Abort, alloc: Global, plan: &mut GrowingPlan, steps: &[Step]) {
    for (at, step) in steps.iter().enumerate() {
        holds(rt, is_answered(alloc, plan, *step), ("step", at));
    }
}

/// The plan with room for so many stages.
fn with_room(
    rt: &impl Abort,
    alloc: Global,
    plan: Plan,
    room: u16,
) -> Result<GrowingPlan, AllocError> {
    holds(rt, plan.has_place(room), room);
    GrowingPlan::new(alloc, plan, room)
}

/// The opening with room for four stages. Where memory is refused, it is asked for again.
fn with_four(rt: &impl Abort, alloc: Global) -> GrowingPlan {
    match with_room(rt, alloc, must(rt, whole(alloc, &[])), 4) {
        Ok(plan) => plan,
        Err(_) => must(rt, with_room(rt, alloc, must(rt, whole(alloc, &[])), 4)),
    }
}

const EACH_COUNT: [Row<'static>; 4] = [
    Row(Form::Combine, Of::Two(0, 0), &[0, 0], Some(7)),
    Row(Form::AnyOf, Of::Two(3, 1), &[3, 1], None),
    Row(Form::ExceptionallyCompose, Of::One(3), &[3], Some(8)),
    Row(Form::Supply, Of::None, &[], Some(0)),
];

const BEHIND: [Step; 4] = [
    Step::Attach(&EACH_COUNT),
    Step::IsOf(&EACH_COUNT),
    Step::Is(0, 7, 6),
    Step::OpeningIs(3, 1),
];

/// Two stages are attached to stage 1, of which the second names it twice and comes first.
const NEWEST_FIRST: [Step; 3] = [
    Step::Attach(&[
        Row(Form::Apply, Of::One(1), &[1], Some(0)),
        Row(Form::AllOf, Of::Two(1, 1), &[1, 1], None),
    ]),
    Step::Is(2, 5, 4),
    Step::Dependents(1, 0, &[3, 4, 4]),
];

/// Three stages are attached, after which there is room for one more and there are five edges.
const THREE: [Row<'static>; 3] = [
    Row(Form::Supply, Of::None, &[], Some(0)),
    Row(Form::Combine, Of::Two(1, 3), &[1, 3], Some(7)),
    Row(Form::AllOf, Of::Two(4, 1), &[4, 1], None),
];

const FOUR_ALIKE: [Row<'static>; 4] = [Row(Form::AllOf, Of::Two(0, 0), &[0, 0], None); 4];

const ATTACHES_THREE: Step = Step::Attach(&THREE);

const HAS_THREE: Step = Step::Is(1, 6, 5);

/// It is the opening again, with room for four stages.
const IS_NEW: Step = Step::Is(4, 3, 1);

/// The plan is restarted as it is, and three times after three stages were attached.
const RESTARTED: [Step; 21] = [
    Step::Restart,
    IS_NEW,
    Step::IsOf(&[]),
    ATTACHES_THREE,
    HAS_THREE,
    Step::Restart,
    IS_NEW,
    Step::IsOf(&[]),
    ATTACHES_THREE,
    HAS_THREE,
    Step::Restart,
    IS_NEW,
    Step::IsOf(&[]),
    ATTACHES_THREE,
    HAS_THREE,
    Step::Restart,
    IS_NEW,
    Step::IsOf(&[]),
    Step::Attach(&FOUR_ALIKE),
    Step::Is(0, 7, 9),
    Step::IsOf(&FOUR_ALIKE),
];

/// Stages are attached behind the opening, the newest comes first, and a restart takes out what was attached.
static PARTS: [&[Step]; 3] = [&BEHIND, &NEWEST_FIRST, &RESTARTED];

#[test]
fn attached_stages_are_those_of_a_whole_plan(rt: HostRuntime) {
    for steps in &PARTS {
        let mut plan = with_four(&rt, rt.alloc());
        take(&rt, rt.alloc(), &mut plan, steps);
        drop(plan);
    }
}

/// Adds a source to both plans, and an allOf of stage `i / 2` and the last, `i - 1`, for each `i` from 1 on below
/// 4,096. Says whether it did.
fn adds_most(plan: &mut GrowingPlan, builder: &mut PlanBuilder) -> bool {
    if !attaches(plan, SOURCE) || builder.stage(Form::Source, &[], None) != Ok(0) {
        return false;
    }
    for i in 1..4_096u16 {
        let of = [i / 2, i - 1];
        let row = Row(Form::AllOf, Of::Two(i / 2, i - 1), &of, None);
        if !attaches(plan, row) || builder.stage(Form::AllOf, &of, None) != Ok(i) {
            return false;
        }
    }
    true
}

#[test]
fn as_many_are_attached_as_there_may_be(rt: HostRuntime) {
    let empty = must(&rt, PlanBuilder::new(rt.alloc()).build());
    let mut plan = must(&rt, with_room(&rt, rt.alloc(), empty, MAX_STAGES as u16));
    let mut builder = PlanBuilder::new(rt.alloc());
    holds(&rt, adds_most(&mut plan, &mut builder), "most");
    let whole = must(&rt, builder.build());
    let is_same = is_whole(&plan, &whole) && plan.room() == 0 && plan.edges() == 8_190;
    drop((plan, whole));
    holds(&rt, is_same, "whole");
}
