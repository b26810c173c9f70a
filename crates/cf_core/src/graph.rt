//! The graph: what it keeps, how it begins, and what it tells.
mod answering;
mod attaching;
mod claims;
pub(crate) mod lending;
mod limits;
mod restarting;
mod settling;
mod sweeping;
mod telling;
mod working;

ghost use Rattle.std.specs.Prelude.{◌≡◌, ◌+◌, ◌<◌, ◌≤◌, ◌↔◌, IfOk, IfSome, IsTrue, None, length, nat_lt, replicate, true, vec_capacity};
ghost use Rattle.cf_outcome.specs.Outcomes.{now_of};
ghost use Rattle.cf_forms.specs.Plans.{IsGrowing, function_at, has_place, opening_of, with_room};
ghost use Rattle.cf_model.specs.States.{lowest_ready_of, outcome_at, start};
ghost use Rattle.cf_model.specs.Graphs.{CountsTurns, NoneLeftFor, NoneLeftUpTo, most_turns};

use crate::stages::Stages;
use cf_outcome::{Now, Outcome, Value, now_of};
use cf_plan::{GrowingPlan, Plan};
use std::alloc::{AllocError, Global};
use std::marker::Model;

/// Why a graph could not be made.
#[derive(Clone, Copy, Debug, PartialEq, Eq)]
pub enum GraphFault {
    /// There is no memory for its stages.
    NoMemory,
}

impl From<AllocError> for GraphFault {
    ghost use Rattle.cf_core.specs.declared.graph.GraphFault.TheVariants.{NoMemory};

    ghost from_gives = { λ _ fault. fault ≡ NoMemory };

    fn from(_refused: AllocError) -> GraphFault {
        GraphFault::NoMemory
    }
}

impl From<GraphFault> for AllocError {
    fn from(_fault: GraphFault) -> AllocError {
        AllocError
    }
}

/// A graph of stages, of which each is pending, ready, claimed, linked or settled.
///
/// A contract sees four things of it: its state, in which all consequences have come to pass, whether they were worked
/// out yet or not; how many turns were taken; the lowest stage that a turn is left for; and what is kept of each stage
/// until then.
#[derive(Drop)]
pub struct Graph {
    plan: GrowingPlan,
    stages: Stages,
    claims: Vec<Option<u8>>,
    moment: u32,
    used: usize,
}

impl Model for Graph {
    ghost use Rattle.cf_model.specs.Graphs.{Graph};

    ghost Value = { Graph };

    ghost use Rattle.std.specs.Prelude.{position};
    ghost use Rattle.std.specs.Vec.{vec_capacity};
    ghost use Rattle.cf_core.specs.Keeping.SoundStages.{settled_view_of};
    ghost use Rattle.cf_core.specs.Keeping.Treatment.{stages_of};
    ghost use Rattle.cf_core.specs.Keeping.Graphs.{IsInStep};

    ghost view = { λ g. record {
      state = record {
        plan = g.plan;
        stages = settled_view_of g.plan.stages g.stages;
        claims = g.claims.items;
        moment = g.moment;
        used = g.used;
      };
      turns = g.stages.turns;
      left = position (λ b. b) g.stages.marks;
      kept = stages_of g.stages.kept.items;
    } };

    ghost invariant = { λ g. IsInStep g.plan g.stages g.claims.items (vec_capacity g.claims) g.used };
}

impl Graph {
    /// The graph of a plan, at its start. It takes all the memory that the graph will ever need, and fails only where there
    /// is none.
    #[tactic(auto, using(cf_forms::proofs::PlanLemmas::place_for_none))]
    pub fn new(alloc: Global, plan: Plan) -> Result<Graph, GraphFault>
        ensures start { IfOk result (λ graph. graph.state ≡ start plan) }
        ensures turns { IfOk result (λ graph. graph.turns ≡ 0) }
    {
        // A plan that was built is within its bounds.
        let _known = plan.stages();
        Graph::new_growing(alloc, plan, 0)
    }

    /// The graph of a plan, at its start, with room for so many stages that are attached later. It takes all the memory
    /// that the graph will ever need, for these stages too, and fails only where there is none.
    pub fn new_growing(alloc: Global, plan: Plan, room: u16) -> Result<Graph, GraphFault>
        requires place { has_place plan.stages room ≡ true }
        ensures start { IfOk result (λ graph. graph.state ≡ start (with_room plan room)) }
        ensures turns { IfOk result (λ graph. graph.turns ≡ 0) }
    {
        Ok(graph_of(alloc, plan, room)?)
    }

    /// The graph of a plan that the caller keeps, at its start, with room for so many stages that are attached later.
    /// It fails only where there is no memory.
    pub fn growing_of(alloc: Global, plan: &Plan, room: u16) -> Result<Graph, AllocError>
        requires place { has_place plan.now.stages room ≡ true }
        ensures start { IfOk result (λ graph. graph.state ≡ start (with_room plan.now room)) }
        ensures turns { IfOk result (λ graph. graph.turns ≡ 0) }
    {
        graph_of(alloc, plan.share()?, room)
    }

    /// The plan that it was opened with.
    pub fn plan(&self) -> &Plan
        ensures { result.now ≡ opening_of self.now.state.plan }
    {
        self.plan.opening()
    }

    /// How many stages there are by now, the attached ones too.
    pub fn stages(&self) -> u16
        ensures count { result ≡ length self.now.state.plan.stages }
        ensures growing { IsGrowing self.now.state.plan }
        ensures all_stages { length self.now.state.stages ≡ length self.now.state.plan.stages }
        ensures all_claims { length self.now.state.claims ≡ length self.now.state.plan.stages }
        ensures all_kept { length self.now.kept ≡ length self.now.state.plan.stages }
        ensures worked_out { self.now.left ≡ None → self.now.kept ≡ self.now.state.stages }
    {
        self.plan.stages()
    }

    /// How many stages may still be attached.
    pub fn room(&self) -> u16
        ensures { result ≡ self.now.state.plan.room }
    {
        self.plan.room()
    }

    /// The number of a stage's function, if its form has one.
    pub fn function(&self, i: u16) -> Option<u16>
        requires { i < length self.now.state.plan.stages }
        ensures { result ≡ function_at self.now.state.plan.stages i }
    {
        self.plan.function(i)
    }

    /// Whether there is such a stage by now.
    pub fn has(&self, i: u16) -> bool
        ensures told { result ≡ nat_lt i (length self.now.state.plan.stages) }
        ensures has { IsTrue result ↔ (i < length self.now.state.plan.stages) }
    {
        i < self.plan.stages()
    }

    /// What a caller that asks for the present state of a stage is told (`CompletableFuture.getNow`).
    pub fn now(&mut self, i: u16, absent: Value) -> Now
        requires { i < length self.old.state.plan.stages }
        ensures told { result ≡ now_of (outcome_at self.old.state i) absent }
        ensures unchanged { self.new.state ≡ self.old.state }
        ensures rests { NoneLeftUpTo i self.old.left → self.new ≡ self.old }
        ensures counted { CountsTurns self.old self.new }
    {
        now_of(self.outcome(i), absent)
    }

    /// The outcome of a stage, if it is settled.
    pub fn outcome(&mut self, i: u16) -> Option<Outcome>
        requires { i < length self.old.state.plan.stages }
        ensures told { result ≡ outcome_at self.old.state i }
        ensures unchanged { self.new.state ≡ self.old.state }
        ensures rests { NoneLeftUpTo i self.old.left → self.new ≡ self.old }
        ensures counted { CountsTurns self.old self.new }
    {
        if let Some(o) = self.stages.outcome(i) {
            return Some(o);
        }
        self.stages.treat_up_to(&self.plan, i);
        self.stages.outcome(i)
    }

    /// The lowest ready stage, or none where no stage is ready.
    pub fn lowest_ready(&mut self) -> Option<u16>
        ensures told { result ≡ lowest_ready_of self.old.state }
        ensures there { IfSome result (λ i. i < length self.old.state.plan.stages) }
        ensures unchanged { self.new.state ≡ self.old.state }
        ensures rests { NoneLeftFor result self.old.left → self.new ≡ self.old }
        ensures counted { CountsTurns self.old self.new }
    {
        self.stages.lowest_ready(&self.plan)
    }

    /// Takes at most `k` of the turns that are left, and says how many it took: fewer than `k` only where none is left
    /// then. It changes no answer but that of `turns`.
    pub fn nudge(&mut self, k: u32) -> u32
        ensures at_most { result ≤ k }
        ensures all { result < k → self.new.left ≡ None }
        ensures unchanged { self.new.state ≡ self.old.state }
        ensures counted { self.new.turns ≡ self.old.turns + result }
        ensures few { self.new.turns ≤ most_turns self.new.state.plan.stages }
    {
        self.stages.nudge(&self.plan, k)
    }

    /// How many turns were taken so far, since the graph was opened or was last restarted.
    pub fn turns(&self) -> u64
        ensures told { result ≡ self.now.turns }
        ensures few { result ≤ most_turns self.now.state.plan.stages }
    {
        self.stages.turns()
    }
}

/// The graph of a plan with room for so many stages.
fn graph_of(alloc: Global, plan: Plan, room: u16) -> Result<Graph, AllocError>
    requires place { has_place plan.stages room ≡ true }
    ensures start { IfOk result (λ graph. graph.state ≡ start (with_room plan room)) }
    ensures turns { IfOk result (λ graph. graph.turns ≡ 0) }
{
    let plan = GrowingPlan::new(alloc, plan, room)?;
    let stages = Stages::new(alloc, &plan)?;
    let claims = no_claims(alloc, plan.stages(), room)?;
    Ok(Graph {
        plan,
        stages,
        claims,
        moment: 0,
        used: 0,
    })
}

/// So many stages that nobody has a claim of, with room for more.
fn no_claims(alloc: Global, count: u16, room: u16) -> Result<Vec<Option<u8>>, AllocError>
    ensures claims { IfOk result (λ claims. claims.items ≡ replicate count None) }
    ensures room { IfOk result (λ claims. count + room ≤ vec_capacity claims) }
{
    let mut claims = unclaimed(alloc, count)?;
    claims.reserve(room as usize)?;
    Ok(claims)
}

/// So many stages that nobody has a claim of.
fn unclaimed(alloc: Global, count: u16) -> Result<Vec<Option<u8>>, AllocError>
    ensures { IfOk result (λ claims. claims.items ≡ replicate count None) }
{
    vec![in alloc; None; count as usize]
}
