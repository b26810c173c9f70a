//! What all stages become by what their sources give.
ghost use Rattle.std.specs.Prelude.{◌≡◌, [], IfOk, length, map};
ghost use Rattle.cf_model.specs.States.{due_state, new_states, next_of, outcome_in, outcome_of};

use crate::forms::follows;
use crate::plan::ReferencePlan;
use cf_forms::{Due, Form};
use cf_model::Stage;
use cf_outcome::{Outcome, wrap};
use std::alloc::{AllocError, Global};

/// The new states of all stages, made one after another. It fails only where there is no memory.
pub fn new_stages(
    alloc: Global,
    plan: &ReferencePlan,
    stages: &[Stage],
) -> Result<Vec<Stage>, AllocError>
    requires { length stages.now ≡ length plan.now.stages }
    ensures { IfOk result (λ new. new.items ≡ new_states [] plan.now.stages stages.now) }
{
    let mut new = Vec::new(alloc);
    for i in 0..plan.stages() {
        let stage = next(
            alloc,
            &new,
            plan.form(i),
            plan.sources(i),
            stages[i as usize],
        )?;
        new.push(stage)?;
    }
    Ok(new)
}

/// The new state of a stage, given the new states of all stages below it.
fn next(
    alloc: Global,
    below: &[Stage],
    form: Form,
    sources: &[u16],
    stage: Stage,
) -> Result<Stage, AllocError>
    ensures { IfOk result (λ new. new ≡ next_of below.now form sources.now stage) }
{
    match stage {
        Stage::Pending => {
            let outcomes = outcomes_of(alloc, below, sources)?;
            Ok(due_stage(follows(form, &outcomes)))
        }
        Stage::Linked(j) => match outcome_in(below, j) {
            Some(o) => Ok(Stage::Settled(wrap(o))),
            None => Ok(stage),
        },
        _ => Ok(stage),
    }
}

/// What a pending stage becomes.
fn due_stage(due: Due) -> Stage
    ensures { result ≡ due_state due }
{
    match due {
        Due::Waits => Stage::Pending,
        Due::Settles(o) => Stage::Settled(o),
        Due::Needs(args) => Stage::Ready(args),
    }
}

/// The outcome of each source, or none.
fn outcomes_of(
    alloc: Global,
    below: &[Stage],
    sources: &[u16],
) -> Result<Vec<Option<Outcome>>, AllocError>
    ensures { IfOk result (λ outcomes. outcomes.items ≡ map (outcome_in below.now) sources.now) }
{
    let mut outcomes = Vec::new(alloc);
    for j in sources {
        outcomes.push(outcome_in(below, *j))?;
    }
    Ok(outcomes)
}

/// The outcome of one of these stages, if it is there and settled.
pub fn outcome_in(stages: &[Stage], j: u16) -> Option<Outcome>
    ensures { result ≡ outcome_in stages.now j }
{
    match stages.get(j as usize) {
        None => None,
        Some(stage) => outcome(*stage),
    }
}

/// The outcome of a settled stage.
pub fn outcome(stage: Stage) -> Option<Outcome>
    ensures { result ≡ outcome_of stage }
{
    match stage {
        Stage::Settled(o) => Some(o),
        _ => None,
    }
}
