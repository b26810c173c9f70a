//! Plans of a few stages from rows, and of many alike.
use crate::checks::must;
use cf_forms::Form;
use cf_plan::{Plan, PlanBuilder};
use std::alloc::Global;
use std::process::Abort;

/// A stage: its form, its sources and the number of its function.
pub(crate) type Row<'a> = (Form, &'a [u16], Option<u16>);

/// A source.
pub(crate) const SOURCE: [Row<'static>; 1] = [(Form::Source, &[], None)];

/// A source, and a stage that is ready with function 3.
pub(crate) const SOURCE_AND_SUPPLY: [Row<'static>; 2] = [
    (Form::Source, &[], None),
    (Form::Supply, &[], Some(3)),
];

/// A source, and an apply of it by function 0.
pub(crate) static SOURCE_AND_APPLY: [Row<'static>; 2] = [
    (Form::Source, &[], None),
    (Form::Apply, &[0], Some(0)),
];

/// The stages of a plan.
#[derive(Clone, Copy)]
pub(crate) enum Stages {
    These(&'static [Row<'static>]),
    /// So many supplies, each with the function of its number.
    Supplies(u16),
}

/// The plan of these stages.
pub(crate) fn plan_of(rt: &impl Abort, alloc: Global, rows: &[Row<'_>]) -> Plan {
    let mut builder = PlanBuilder::new(alloc);
    for (form, of, function) in rows {
        must(rt, builder.stage(*form, of, *function));
    }
    must(rt, builder.build())
}

/// A plan of so many supplies, each with the function of its number.
pub(crate) fn supplies(rt: &impl Abort, alloc: Global, count: u16) -> Plan {
    let mut builder = PlanBuilder::new(alloc);
    for i in 0..count {
        must(rt, builder.stage(Form::Supply, &[], Some(i)));
    }
    must(rt, builder.build())
}

/// The plan that has these stages.
pub(crate) fn plan_with(rt: &impl Abort, alloc: Global, stages: Stages) -> Plan {
    match stages {
        Stages::These(rows) => plan_of(rt, alloc, rows),
        Stages::Supplies(count) => supplies(rt, alloc, count),
    }
}
