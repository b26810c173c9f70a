//! The reference graph: how it begins, and what it tells without a change.
mod answering;
mod attaching;
mod changes;
mod limits;

ghost use Rattle.std.specs.Prelude.{◌≡◌, ◌<◌, ◌≤◌, ◌↔◌, IfOk, IsTrue, None, is_some, length, map, position, replicate, slice_get, true};
ghost use Rattle.cf_forms.specs.Plans.{function_at, has_place, with_room};
ghost use Rattle.cf_model.specs.declared.stage.Stage.TheVariants.{Pending};
ghost use Rattle.cf_model.specs.States.{is_ready, lowest_ready_of, outcome_at, outcome_of, stage_at, start};

use crate::plan::ReferencePlan;
use crate::stages::{new_stages, outcome};
use cf_forms::Limit;
use cf_model::Stage;
use cf_outcome::Outcome;
use cf_plan::Plan;
use std::alloc::{AllocError, Global};
use std::marker::Model;

/// The reference graph of a plan. A contract sees it as its `State`, as it does the graph.
#[derive(Drop)]
pub struct ReferenceGraph {
    plan: ReferencePlan,
    stages: Vec<Stage>,
    claims: Vec<Option<u8>>,
    moment: u32,
    used: usize,
}

impl Model for ReferenceGraph {
    ghost use Rattle.cf_model.specs.States.{State};

    ghost Value = { State };

    ghost use Rattle.cf_reference.specs.References.{IsInStep};

    ghost view = { λ g. record {
      plan = g.plan;
      stages = g.stages.items;
      claims = g.claims.items;
      moment = g.moment;
      used = g.used;
    } };

    ghost invariant = { λ g. IsInStep g.plan g.stages.items g.claims.items g.used };
}

impl ReferenceGraph {
    /// The reference graph of a plan, at its start. It fails only where there is no memory.
    pub fn start(alloc: Global, plan: Plan) -> Result<ReferenceGraph, AllocError>
        ensures { IfOk result (λ reference. reference ≡ start plan) }
    {
        // A plan that was built is within its bounds.
        let _known = plan.stages();
        ReferenceGraph::start_growing(alloc, plan, 0)
    }

    /// The reference graph of a plan, at its start, with room for so many stages that are attached later. It fails only where
    /// there is no memory.
    pub fn start_growing(alloc: Global, plan: Plan, room: u16) -> Result<ReferenceGraph, AllocError>
        requires place { has_place plan.stages room ≡ true }
        ensures { IfOk result (λ reference. reference ≡ start (with_room plan room)) }
    {
        let plan = ReferencePlan::new(alloc, plan, room)?;
        let count = plan.stages() as usize;
        let pending = pending(alloc, count)?;
        let stages = new_stages(alloc, &plan, &pending)?;
        let claims = no_claims(alloc, count)?;
        Ok(ReferenceGraph {
            plan,
            stages,
            claims,
            moment: 0,
            used: 0,
        })
    }

    /// How many stages there are by now.
    pub fn stages(&self) -> u16
        ensures { result ≡ length self.now.plan.stages }
    {
        self.plan.stages()
    }

    /// Whether there is such a stage by now.
    pub fn has(&self, i: u16) -> bool
        ensures { IsTrue result ↔ (i < length self.now.plan.stages) }
    {
        i < self.plan.stages()
    }

    /// The outcome of a stage, if it is settled.
    pub fn outcome(&self, i: u16) -> Option<Outcome>
        requires { i < length self.now.plan.stages }
        ensures { result ≡ outcome_at self.now i }
    {
        outcome(self.stages[i as usize])
    }

    /// The state of a stage.
    pub fn stage(&self, i: u16) -> Stage
        requires { i < length self.now.plan.stages }
        ensures { result ≡ stage_at self.now i }
    {
        self.stages[i as usize]
    }

    /// The outcomes of all stages. It fails only where there is no memory.
    pub fn outcomes(&self, alloc: Global) -> Result<Vec<Option<Outcome>>, AllocError>
        ensures { IfOk result (λ outcomes. outcomes.items ≡ map outcome_of self.now.stages) }
    {
        outcomes(alloc, &self.stages)
    }

    /// The number of a stage's function, if its form has one.
    pub fn function(&self, i: u16) -> Option<u16>
        requires { i < length self.now.plan.stages }
        ensures { result ≡ function_at self.now.plan.stages i }
    {
        self.plan.function(i)
    }

    /// The first limit that isn't used.
    pub fn next_limit(&self) -> Option<Limit>
        ensures limit { result ≡ slice_get self.now.plan.limits self.now.used }
        ensures left { IsTrue (is_some result) ↔ (self.now.used < length self.now.plan.limits) }
    {
        self.plan.limits().get(self.used).copied()
    }

    /// The last accepted moment.
    pub fn moment(&self) -> u32
        ensures { result ≡ self.now.moment }
    {
        self.moment
    }

    /// The same graph again. It fails only where there is no memory.
    pub fn copy(&self, alloc: Global) -> Result<ReferenceGraph, AllocError>
        ensures { IfOk result (λ reference. reference ≡ self.now) }
    {
        let stages = Vec::from_slice(alloc, &self.stages)?;
        let claims = Vec::from_slice(alloc, &self.claims)?;
        let plan = self.plan.copy(alloc)?;
        Ok(ReferenceGraph {
            plan,
            stages,
            claims,
            moment: self.moment,
            used: self.used,
        })
    }

    /// Whether it is the same graph in the same state.
    pub fn is_same(&self, other: &ReferenceGraph) -> bool
        ensures { IsTrue result ↔ (self.now ≡ other.now) }
    {
        if self.moment != other.moment || self.used != other.used {
            return false;
        }
        if !same_states(&self.stages, &other.stages) {
            return false;
        }
        same_claims(&self.claims, &other.claims) && self.plan.is_same(&other.plan)
    }

    /// The lowest ready stage, or none where no stage is ready.
    pub fn lowest_ready(&self) -> Option<u16>
        ensures { result ≡ lowest_ready_of self.now }
    {
        first_ready(&self.stages)
    }
}

/// So many stages that are pending.
fn pending(alloc: Global, count: usize) -> Result<Vec<Stage>, AllocError>
    ensures { IfOk result (λ stages. stages.items ≡ replicate count Pending) }
{
    vec![in alloc; Stage::Pending; count]
}

/// So many stages without a claim.
fn no_claims(alloc: Global, count: usize) -> Result<Vec<Option<u8>>, AllocError>
    ensures { IfOk result (λ claims. claims.items ≡ replicate count None) }
{
    vec![in alloc; None; count]
}

/// Whether they are the same states.
fn same_states(a: &[Stage], b: &[Stage]) -> bool
    ensures { IsTrue result ↔ (a.now ≡ b.now) }
{
    a == b
}

/// Whether they are the same claims.
fn same_claims(a: &[Option<u8>], b: &[Option<u8>]) -> bool
    ensures { IsTrue result ↔ (a.now ≡ b.now) }
{
    a == b
}

/// The outcomes of these stages.
fn outcomes(alloc: Global, stages: &[Stage]) -> Result<Vec<Option<Outcome>>, AllocError>
    ensures { IfOk result (λ outcomes. outcomes.items ≡ map outcome_of stages.now) }
{
    let mut outcomes = Vec::with_capacity(alloc, stages.len())?;
    for stage in stages {
        outcomes.push(outcome(*stage))?;
    }
    Ok(outcomes)
}

/// The lowest ready stage.
fn first_ready(stages: &[Stage]) -> Option<u16>
    requires { length stages.now ≤ 4096 }
    ensures { result ≡ position is_ready stages.now }
{
    for (i, stage) in stages.iter().enumerate() {
        if ready(*stage) {
            return Some(i as u16);
        }
    }
    None
}

/// Whether a stage is ready.
fn ready(stage: Stage) -> bool
    ensures { result ≡ is_ready stage }
{
    matches!(stage, Stage::Ready(_))
}
