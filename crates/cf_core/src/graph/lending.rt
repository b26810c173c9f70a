//! A graph that is lent to a sweep, which stops at each function and goes on.
ghost use Rattle.std.specs.Prelude.{◌≡◌, ◌≤◌, ◌<◌, ◌↔◌, IfNone, IfSome, IsTrue, None, Some, is_some, length, option_map, true};
ghost use Rattle.cf_core.specs.declared.graph.lending.Stop.{Stop};
ghost use Rattle.cf_model.specs.States.{lowest_ready_of};
ghost use Rattle.cf_core.specs.Keeping.Sound.{StayTaken};
ghost use Rattle.cf_core.specs.Keeping.SoundStages.{IsReadyIn, SameRoom, SameView, lowest_ready_in};
ghost use Rattle.cf_core.specs.Keeping.Sweeps.{AreAllSwept, AreSwept, IsReadyWith};
ghost use Rattle.cf_core.specs.Keeping.Lending.{LandsAnswer, StopsAt};

use crate::graph::Graph;
use crate::graph::sweeping::land_next;
use crate::stages::Stages;
use cf_forms::{Answer, Args};
use cf_plan::GrowingPlan;
use std::marker::Model;

/// Where a sweep stops: the lowest ready stage, its function, and what that is to be called with.
#[derive(Clone, Copy, Debug, PartialEq, Eq)]
pub struct Stop {
    pub stage: u16,
    pub function: Option<u16>,
    pub args: Args,
}

/// A graph in a sweep. It goes up through all stages once, and stops at each that is ready, until its function has answered.
///
/// A contract sees the graph's state, how many turns were taken, how many stages are behind the sweep, and at which
/// stage it stands.
#[derive(Drop)]
pub struct Sweep {
    plan: GrowingPlan,
    stages: Stages,
    claims: Vec<Option<u8>>,
    moment: u32,
    used: usize,
    behind: u16,
    args: Option<Args>,
}

impl Model for Sweep {
    ghost use Rattle.cf_core.specs.Keeping.Lending.{Sweep};

    ghost Value = { Sweep };

    ghost use Rattle.std.specs.Option.{option_map};
    ghost use Rattle.std.specs.Vec.{vec_capacity};
    ghost use Rattle.cf_core.specs.Keeping.SoundStages.{settled_view_of};
    ghost use Rattle.cf_core.specs.Keeping.Lending.{IsUnderWay};

    ghost view = { λ g. record {
      state = record {
        plan = g.plan;
        stages = settled_view_of g.plan.stages g.stages;
        claims = g.claims.items;
        moment = g.moment;
        used = g.used;
      };
      turns = g.stages.turns;
      behind = g.behind;
      stands = option_map (λ x. g.behind) g.args;
    } };

    ghost invariant = { λ g. IsUnderWay g.plan g.stages g.claims.items (vec_capacity g.claims) g.used g.behind g.args };
}

impl Sweep {
    /// Begins the sweep of a graph.
    pub fn begin(graph: Graph) -> Sweep
        ensures same { result.state ≡ graph.state }
        ensures counted { result.turns ≡ graph.turns }
        ensures first { result.behind ≡ 0 }
        ensures free { result.stands ≡ None }
    {
        let Graph {
            plan,
            stages,
            claims,
            moment,
            used,
        } = graph;
        Sweep {
            plan,
            stages,
            claims,
            moment,
            used,
            behind: 0,
            args: None,
        }
    }

    /// The stage that it stands at, if any.
    #[inline(always)]
    pub fn stands(&self) -> Option<u16>
        ensures { result ≡ self.now.stands }
    {
        match self.args {
            None => None,
            Some(_) => Some(self.behind),
        }
    }

    /// Goes on to the lowest ready stage, and stands there. Where none is ready, all stages are behind it.
    #[inline(always)]
    pub fn next(&mut self) -> Option<Stop>
        requires free { self.old.stands ≡ None }
        ensures stops { IfSome result (λ stop. StopsAt self.old.state stop) }
        ensures none { IfNone result (lowest_ready_of self.old.state ≡ None) }
        ensures same { self.new.state ≡ self.old.state }
        ensures stands { self.new.stands ≡ option_map (λ (stop : Stop). stop.stage) result }
        ensures over { IfNone result (self.new.behind ≡ length self.new.state.plan.stages) }
        ensures counted { self.old.turns ≤ self.new.turns }
    {
        match go_on(&mut self.stages, &self.plan, self.behind) {
            None => {
                self.behind = self.plan.stages();
                None
            }
            Some((stage, args)) => {
                self.behind = stage;
                self.args = Some(args);
                Some(Stop {
                    stage,
                    function: self.plan.function(stage),
                    args,
                })
            }
        }
    }

    /// The stage that it stands at lands with its function's answer, as if any caller had claimed and finished it.
    #[inline(always)]
    pub fn land(&mut self, answer: Answer)
        requires stands { is_some self.old.stands ≡ true }
        ensures landed { LandsAnswer self.old answer self.new }
        ensures free { self.new.stands ≡ None }
        ensures counted { self.old.turns ≤ self.new.turns }
    {
        if let Some(args) = self.args {
            let m = self.behind;
            self.claims[m as usize] = None;
            land_next(&mut self.stages, &self.plan, m, args, answer);
            self.behind = m + 1;
            self.args = None;
        }
    }

    /// Whether all stages are behind it.
    #[inline(always)]
    pub fn is_over(&self) -> bool
        ensures { IsTrue result ↔ (self.now.behind ≡ length self.now.state.plan.stages) }
    {
        self.behind == self.plan.stages()
    }

    /// Gives the graph back. No stage is ready then.
    pub fn end(self) -> Graph
        requires over { self.behind ≡ length self.state.plan.stages }
        ensures same { result.state ≡ self.state }
        ensures none { lowest_ready_of result.state ≡ None }
        ensures counted { result.turns ≡ self.turns }
    {
        let Sweep {
            plan,
            stages,
            claims,
            moment,
            used,
            behind: _,
            args: _,
        } = self;
        let mut stages = stages;
        stages.end_sweep(&plan);
        Graph {
            plan,
            stages,
            claims,
            moment,
            used,
        }
    }
}

/// Goes up from a stage on, and treats each stage, up to the first that is ready. It says which stage that is, and what
/// its function is to be called with.
#[inline(always)]
fn go_on(stages: &mut Stages, plan: &GrowingPlan, from: u16) -> Option<(u16, Args)>
    requires swept { AreSwept plan.now.stages from from stages.old }
    requires within { from ≤ length plan.now.stages }
    ensures there { IfSome result (λ found. found.0 < length plan.now.stages) }
    ensures with_args { IfSome result (λ found. IsReadyWith plan.now.stages found.0 found.1 stages.new) }
    ensures lowest { IfSome result (λ found. lowest_ready_in plan.now.stages stages.new ≡ Some found.0) }
    ensures ready { IfSome result (λ found. IsReadyIn plan.now.stages stages.new found.0 found.1) }
    ensures none { IfNone result (lowest_ready_in plan.now.stages stages.new ≡ None) }
    ensures swept { IfNone result (AreAllSwept plan.now.stages stages.new) }
    ensures same { SameView plan.now.stages stages.old stages.new }
    ensures taken { StayTaken stages.old.kept.items stages.new.kept.items }
    ensures counted { stages.old.turns ≤ stages.new.turns }
    ensures room { SameRoom stages.old stages.new }
{
    for m in from..plan.stages() {
        if let Some(args) = stages.next_swept::<Stop>(plan, m) {
            return Some((m, args));
        }
    }
    None
}
