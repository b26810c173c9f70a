//! The call by which a graph grows.
ghost use Rattle.std.specs.Prelude.{◌≡◌, ◌<◌, All, is_some, length, true};
ghost use Rattle.cf_forms.specs.Plans.{attached_stage, fits_form, sources_of};
ghost use Rattle.cf_model.specs.Events.{attaching};
ghost use Rattle.cf_model.specs.Graphs.{CountsTurns, MovesOnly, RestsAttaching};

use crate::graph::Graph;
use cf_forms::{Form, Of};
use cf_model::Attached;

impl Graph {
    /// Attaches a stage to others, in a step of its own, if there is room for one. It takes at once what its sources hold:
    /// where several of them have settled, the first in argument order decides, whenever they did.
    ///
    /// All that waits for treatment is treated first. It takes no memory.
    pub fn attach(&mut self, form: Form, of: Of, function: Option<u16>) -> Attached
        requires fits { fits_form form (length (sources_of of)) (is_some function) ≡ true }
        requires sources { All (λ j. j < length self.old.state.plan.stages) (sources_of of) }
        ensures told { (result, self.new.state) ≡ attaching self.old.state (attached_stage form of function) }
        ensures rests { RestsAttaching form (sources_of of) self.old self.new }
        ensures alone { MovesOnly (length self.old.state.plan.stages) self.old self.new }
        ensures counted { CountsTurns self.old self.new }
    {
        if self.plan.room() == 0 {
            return Attached::StagesFull;
        }
        let d = self.plan.stages();
        self.stages.treat_all(&self.plan);
        self.stages.attach(&self.plan, form, of);
        self.plan.attach(form, of, function);
        self.claims.push_reserved(None);
        Attached::At(d)
    }
}
