//! The call by which the graph grows.
ghost use Rattle.std.specs.Prelude.{◌≡◌, ◌<◌, true, All, IfOk, is_some, length};
ghost use Rattle.cf_forms.specs.Plans.{attached_stage, fits_form, sources_of};
ghost use Rattle.cf_model.specs.States.{appended};
ghost use Rattle.cf_model.specs.Events.{attaching};

use crate::graph::ReferenceGraph;
use cf_forms::{Form, Of};
use cf_model::{Attached, Stage};
use std::alloc::{AllocError, Global};

impl ReferenceGraph {
    /// Attaches a stage, if there is room for one.
    pub fn attach(
        &mut self,
        alloc: Global,
        form: Form,
        of: Of,
        function: Option<u16>,
    ) -> Result<Attached, AllocError>
        requires fits { fits_form form (length (sources_of of)) (is_some function) ≡ true }
        requires sources { All (λ j. j < length self.old.plan.stages) (sources_of of) }
        ensures { IfOk result (λ done. (done, self.new) ≡ attaching self.old (attached_stage form of function)) }
    {
        if self.plan.room() == 0 {
            return Ok(Attached::StagesFull);
        }
        let number = self.plan.stages();
        self.append(alloc, form, of, function)?;
        self.flow(alloc)?;
        Ok(Attached::At(number))
    }

    /// Puts a stage that is pending behind the others.
    fn append(
        &mut self,
        alloc: Global,
        form: Form,
        of: Of,
        function: Option<u16>,
    ) -> Result<(), AllocError>
        requires room { 0 < self.old.plan.room }
        requires fits { fits_form form (length (sources_of of)) (is_some function) ≡ true }
        requires sources { All (λ j. j < length self.old.plan.stages) (sources_of of) }
        ensures { IfOk result (λ _. self.new ≡ appended self.old (attached_stage form of function)) }
    {
        self.stages.reserve(1)?;
        self.claims.reserve(1)?;
        self.plan.attach(alloc, form, of, function)?;
        self.stages.push_reserved(Stage::Pending);
        self.claims.push_reserved(None);
        Ok(())
    }
}
