//! Plans from rows, and those of many sources.
use crate::checks::must;
use cf_forms::{Form, Limit, LimitKind};
use cf_outcome::Value;
use cf_plan::{Plan, PlanBuilder, PlanFault};
use std::alloc::Global;
use std::process::Abort;

/// A stage: its form, its sources and the number of its function.
pub(crate) type Row<'a> = (Form, &'a [u16], Option<u16>);

pub(crate) const SOURCE: Row<'static> = (Form::Source, &[], None);

/// The stages of a plan, and its limits.
#[derive(Clone, Copy)]
pub(crate) struct Rows {
    pub(crate) stages: &'static [Row<'static>],
    /// Behind those, so many of each of these.
    pub(crate) alike: &'static [(u16, Row<'static>)],
    /// Behind those, so many applies, of which the first follows stage 0, and each other one the next stage.
    pub(crate) chain: u16,
    pub(crate) limits: &'static [Limit],
    /// So many limits of stage 0, one at each moment from 0 on.
    pub(crate) gifts: u16,
}

/// No stage.
pub(crate) const NONE: Rows = Rows {
    stages: &[],
    alike: &[],
    chain: 0,
    limits: &[],
    gifts: 0,
};

/// The plan of these stages with these limits, or why there is none.
pub(crate) fn plan_or_fault(alloc: Global, rows: &Rows) -> Result<Plan, PlanFault> {
    let mut builder = PlanBuilder::new(alloc);
    put(&mut builder, rows)?;
    builder.build()
}

/// The builder takes a stage so many times.
fn put_each(builder: &mut PlanBuilder, count: u16, row: Row<'_>) -> Result<(), PlanFault> {
    let (form, of, function) = row;
    for _ in 0..count {
        builder.stage(form, of, function)?;
    }
    Ok(())
}

/// The builder takes a chain of so many applies.
fn put_chain(builder: &mut PlanBuilder, count: u16) -> Result<(), PlanFault> {
    for i in 0..count {
        builder.stage(Form::Apply, &[i], Some(0))?;
    }
    Ok(())
}

/// The builder takes a limit of stage 0 at each of so many moments.
fn put_gifts(builder: &mut PlanBuilder, count: u16) -> Result<(), PlanFault> {
    for at in 0..count {
        builder.limit(0, u32::from(at), LimitKind::Give(Value::Int(1)))?;
    }
    Ok(())
}

/// The builder takes these stages and limits.
fn put(builder: &mut PlanBuilder, rows: &Rows) -> Result<(), PlanFault> {
    for row in rows.stages {
        put_each(builder, 1, *row)?;
    }
    for (count, row) in rows.alike {
        put_each(builder, *count, *row)?;
    }
    put_chain(builder, rows.chain)?;
    for limit in rows.limits {
        builder.limit(limit.stage, limit.at, limit.kind)?;
    }
    put_gifts(builder, rows.gifts)
}

/// The plan of these stages with these limits.
pub(crate) fn plan_of(rt: &impl Abort, alloc: Global, rows: &Rows) -> Plan {
    must(rt, plan_or_fault(alloc, rows))
}

/// So many sources and one allOf over all of them.
pub(crate) fn all_of(rt: &impl Abort, alloc: Global, sources: u16) -> Plan {
    let mut builder = PlanBuilder::new(alloc);
    let mut of = Vec::new(alloc);
    for i in 0..sources {
        must(rt, builder.stage(Form::Source, &[], None));
        must(rt, of.push(i));
    }
    must(rt, builder.stage(Form::AllOf, of.as_slice(), None));
    must(rt, builder.build())
}
