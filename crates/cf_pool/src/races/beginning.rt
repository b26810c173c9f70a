//! How a race begins: caller 0 does the steps, and then it meets each other caller.
ghost use Rattle.std.specs.Prelude.{◌≡◌, ◌+◌, ◌<◌, ◌≤◌, All, IfOk, length, vec_len};
ghost use Rattle.cf_desk.specs.Views.{IsOf};
ghost use Rattle.cf_pool.specs.Beginnings.{HasDoneSteps, HasTaken, HaveBegun, IsApart, IsIdle};
ghost use Rattle.cf_pool.specs.Races.{IsRaceDesk, IsStep};

use crate::races::RaceTerms;
use cf_desk::{Call, Desk, DeskGrowth, DeskSizes, Pass};
use cf_model::Event;
use std::alloc::{AllocError, Global};

/// How many functions a race knows: as many as stages can name.
const FUNCTIONS: u32 = 65_536;

/// Opens a desk of these sizes for a race, and begins the race: the desk, and its passes, caller 0's first.
pub(crate) fn begin(
    alloc: Global,
    terms: RaceTerms<'_>,
    sizes: DeskSizes,
) -> Result<(Desk, Vec<Pass>), AllocError>
    requires steps { All IsStep terms.steps.now × (length terms.steps.now < sizes.calls) }
    ensures desk { IfOk result (λ r. IsRaceDesk terms.entry sizes r.0) }
    ensures passes { IfOk result (λ r. All (IsOf r.0) r.1.items × (vec_len r.1 ≡ sizes.callers)) }
    ensures begun { IfOk result (λ r. HaveBegun r.0 terms.entry.steps.now sizes.calls r.1.items) }
{
    let RaceTerms {
        plan,
        room,
        steps,
        workers: _,
    } = terms;
    let growth = DeskGrowth {
        room,
        functions: FUNCTIONS,
    };
    let (desk, mut passes) = match Desk::open_growing(alloc, plan, sizes, growth) {
        Ok(opened) => opened,
        Err(_) => return Err(AllocError),
    };
    let first = passes.remove(0);
    let passes = begin_with(alloc, &desk, first, passes, steps)?;
    Ok((desk, passes))
}

/// Begins a race at its desk: caller 0 does the steps, and meets the others. Of the passes caller 0's comes first.
fn begin_with(
    alloc: Global,
    desk: &Desk,
    mut first: Pass,
    others: Vec<Pass>,
    steps: &[Event],
) -> Result<Vec<Pass>, AllocError>
    requires first { HasTaken desk.now steps.now 0 first }
    requires others { All (IsIdle desk.now first.calls) others.items }
    requires steps { All IsStep steps.now }
    ensures count { IfOk result (λ passes. vec_len passes ≡ vec_len others + 1) }
    ensures begun { IfOk result (λ passes. HaveBegun desk.now steps.now first.calls passes.items) }
{
    take_steps(desk, &mut first, steps);
    let mut passes = meet_others(alloc, desk, &mut first, others)?;
    passes.insert(0, first)?;
    Ok(passes)
}

/// Does the steps in order, up to the first that is refused. In a race none is: all that caller 0 has then seen is its own,
/// as it learns where it meets the others, so each step fits, and the log is longer than the steps.
fn take_steps(desk: &Desk, pass: &mut Pass, steps: &[Event])
    requires pass { HasTaken desk.now steps.now 0 pass.old }
    requires steps { All IsStep steps.now }
    ensures took { HasDoneSteps desk.now steps.now pass.new }
    ensures calls { pass.new.calls ≡ pass.old.calls }
{
    for step in steps {
        match desk.act(pass, Call::of(step)) {
            Ok(_) => {}
            Err(_) => return,
        }
    }
}

/// Lets caller 0 meet the others, so that it is known that none of them stands in what it has seen.
fn meet_others(
    alloc: Global,
    desk: &Desk,
    first: &mut Pass,
    others: Vec<Pass>,
) -> Result<Vec<Pass>, AllocError>
    requires first { first.old.table ≡ desk.now.table }
    requires others { All (IsIdle desk.now first.old.calls) others.items }
    ensures first { first.new ≡ first.old }
    ensures count { IfOk result (λ met. vec_len met ≡ vec_len others) }
    ensures apart { IfOk result (λ met. All (IsApart desk.now first.old.calls first.old.known.seen) met.items) }
{
    let mut met = Vec::new(alloc);
    let mut rest = others.into_iter();
    'next: while let Some(mut other) = rest.next() {
        desk.meet(first, &mut other);
        met.push(other)?;
    }
    Ok(met)
}
