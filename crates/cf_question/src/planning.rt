//! The plan of a question, in which stages may share a function.
use cf_plan::{Plan, PlanBuilder, PlanFault};
use std::alloc::Global;

/// The number of each stage's function: its own, or that of the stage with which it shares one.
fn number(plan: &Plan, shared: &[Option<u64>], i: u16) -> Option<u16> {
    match shared.get(i as usize) {
        Some(Some(k)) if *k < u64::from(plan.stages()) => plan.function(*k as u16),
        _ if i < plan.stages() => plan.function(i),
        _ => None,
    }
}

/// The plan with its shared functions.
pub(crate) fn with_shared(
    alloc: Global,
    plan: &Plan,
    shared: &[Option<u64>],
) -> Result<Plan, PlanFault> {
    let mut builder = PlanBuilder::new(alloc);
    for i in 0..plan.stages() {
        let function = number(plan, shared, i);
        builder.stage(plan.form(i), plan.sources(i), function)?;
    }
    for limit in plan.limits() {
        builder.limit(limit.stage, limit.at, limit.kind)?;
    }
    builder.build()
}
