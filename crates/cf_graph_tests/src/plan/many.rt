//! Many stages and limits by rule, and what is counted of them.
use cf_forms::{Form, Limit, LimitKind};
use cf_plan::{Plan, PlanBuilder, PlanFault};
use std::alloc::Global;

/// By which rule stages are added.
#[derive(Clone, Copy)]
pub(crate) enum Stages {
    /// Up to 4,096 stages with 16,384 edges. Each but the first names three stages, one of them twice, and the last one
    /// four more.
    Largest,
    /// Supplies, each with the greatest number of a function.
    Supplies,
    /// The first names no stage, the second one and the others two.
    FewNamed,
}

/// Adds the stage of this number by a rule.
fn add(builder: &mut PlanBuilder, stages: Stages, i: u16) -> Result<u16, PlanFault> {
    let last = i.saturating_sub(1);
    let (form, of, count, function) = match stages {
        Stages::Largest => {
            let of = [last, i / 2, 0, last, 3, 1, 2, 0];
            match i {
                0 => (Form::Source, of, 0, None),
                4_095 => (Form::AllOf, of, 8, None),
                _ => (Form::AllOf, of, 4, None),
            }
        }
        Stages::Supplies => (Form::Supply, [0; 8], 0, Some(u16::MAX)),
        Stages::FewNamed => (Form::AllOf, [0; 8], (i as usize).min(2), None),
    };
    builder.stage(form, &of[..count], function)
}

/// Whether so many stages are added by a rule, to none.
pub(crate) fn adds_stages(builder: &mut PlanBuilder, stages: Stages, count: u16) -> bool {
    for i in 0..count {
        if add(builder, stages, i) != Ok(i) {
            return false;
        }
    }
    true
}

/// What an allOf is answered that names stage 0 so often.
pub(crate) fn names(
    alloc: Global,
    builder: &mut PlanBuilder,
    count: usize,
) -> Result<u16, PlanFault> {
    let of = vec![in alloc; 0u16; count]?;
    builder.stage(Form::AllOf, &of, None)
}

/// By which rule limits are added.
#[derive(Clone, Copy)]
pub(crate) enum Many {
    /// Of stage 0, the latest first, from 4,096 on.
    Falling,
    /// Of stage 0, at each power of two, one before it, and as far from the greatest moment.
    Powers,
    /// Of each stage, the earliest of the last.
    Each,
}

/// The stage and the moment of the limit of this number by a rule.
fn limit_by(many: Many, i: u16) -> (u16, u32) {
    let number = u32::from(i);
    match many {
        Many::Falling => (0, 4_096u32.saturating_sub(number)),
        Many::Powers => {
            let power = 1u32 << (number / 3 % 32);
            let at = match number % 3 {
                0 => power - 1,
                1 => power,
                _ => u32::MAX - (power - 1),
            };
            (0, at)
        }
        Many::Each => (i, u32::MAX - number),
    }
}

/// Whether so many limits are added by a rule.
pub(crate) fn adds_limits(builder: &mut PlanBuilder, many: Many, count: u16) -> bool {
    for i in 0..count {
        let (stage, at) = limit_by(many, i);
        if builder.limit(stage, at, LimitKind::Timeout(0)).is_err() {
            return false;
        }
    }
    true
}

/// How often a number stands in a list.
fn count_of(numbers: &[u16], number: u16) -> usize {
    let mut count = 0usize;
    for n in numbers {
        if *n == number {
            count = count.wrapping_add(1);
        }
    }
    count
}

/// Whether each dependent names the stage as often as it stands there, in rising order, and how many there are in all.
pub(crate) fn walked(plan: &Plan) -> Option<usize> {
    let mut total = 0usize;
    for i in 0..plan.stages() {
        let dependents = plan.dependents(i);
        let mut last = 0;
        for k in dependents {
            if *k < last || count_of(dependents, *k) != count_of(plan.sources(*k), i) {
                return None;
            }
            last = *k;
        }
        total = total.saturating_add(dependents.len());
    }
    Some(total)
}

/// What the limits of a plan are like.
#[derive(Clone, Copy)]
pub(crate) enum Ends {
    /// They rise from this moment to this one.
    Rise(u32, u32),
    /// They are those of each stage, of which the earliest stands first.
    OfEach,
}

/// The moments of the first and of the last limit, where none is before the one that stands before it.
fn rising(limits: &[Limit]) -> Option<(u32, u32)> {
    let first = limits.first()?.at;
    let mut last = first;
    for limit in limits {
        if limit.at < last {
            return None;
        }
        last = limit.at;
    }
    Some((first, last))
}

/// Whether these are limits of each stage, of which the earliest stands first.
fn are_of_each(limits: &[Limit]) -> bool {
    for (i, limit) in limits.iter().enumerate() {
        let stage = limit.stage;
        if stage as usize != 4_095usize.saturating_sub(i) || limit.at != u32::MAX - stage as u32 {
            return false;
        }
    }
    true
}

/// Whether these are so many limits, which are like this.
pub(crate) fn limits_are(limits: &[Limit], ends: Ends, count: usize) -> bool {
    limits.len() == count
        && match ends {
            Ends::Rise(first, last) => rising(limits) == Some((first, last)),
            Ends::OfEach => are_of_each(limits),
        }
}
