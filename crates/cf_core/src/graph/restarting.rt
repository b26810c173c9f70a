//! The call by which a graph starts again.
ghost use Rattle.std.specs.Prelude.{◌≡◌, ◌≤◌, None, length, replicate, vec_capacity};
ghost use Rattle.cf_forms.specs.Plans.{reopened};
ghost use Rattle.cf_model.specs.States.{start};

use crate::graph::Graph;

impl Graph {
    /// Starts again: the graph is at the start of the plan that it was opened with, and its room is free again. Turns are
    /// counted from there. It takes no memory.
    pub fn restart(&mut self)
        ensures start { self.new.state ≡ start (reopened self.old.state.plan) }
        ensures turns { self.new.turns ≡ 0 }
    {
        self.plan.restart();
        self.stages.restart(&self.plan);
        unclaim(&mut self.claims, self.plan.stages());
        self.moment = 0;
        self.used = 0;
    }
}

/// Keeps so many stages, of which nobody has a claim.
fn unclaim(claims: &mut Vec<Option<u8>>, count: u16)
    requires { count ≤ length claims.old.items }
    ensures claims { claims.new.items ≡ replicate count None }
    ensures room { vec_capacity claims.new ≡ vec_capacity claims.old }
{
    claims.truncate(count as usize);
    claims.fill(None);
}
