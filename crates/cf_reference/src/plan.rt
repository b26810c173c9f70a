//! A plan that grows: the one that it was opened with, and a list of the stages that were attached.
ghost use Rattle.std.specs.Prelude.{◌≡◌, ◌<◌, ◌↔◌, All, IfOk, IsTrue, OnErr, is_some, length, true};
ghost use Rattle.cf_forms.specs.Plans.{IsGrowing, and_stage, attached_stage, fits_form, form_at, function_at, has_place, sources_at, sources_of, with_room};

use cf_forms::{Form, Limit, Of};
use cf_plan::Plan;
use std::alloc::{AllocError, Global};
use std::marker::Model;

/// A stage as it is planned.
#[derive(Drop)]
pub(crate) struct ReferenceStage {
    form: Form,
    sources: Vec<u16>,
    function: Option<u16>,
}

impl Model for ReferenceStage {
    ghost use Rattle.cf_forms.specs.Plans.{PlannedStage};

    ghost Value = { PlannedStage };

    ghost view = { λ s. record { form = s.form; sources = s.sources.items; function = s.function } };
}

/// A plan with room for stages that are attached later. A contract sees it as it does a plan. Its copies share the memory of the
/// opening.
#[derive(Drop)]
pub struct ReferencePlan {
    opening: Plan,
    attached: Vec<ReferenceStage>,
    room: u16,
}

impl Model for ReferencePlan {
    ghost use Rattle.cf_forms.specs.Plans.{Planned};

    ghost Value = { Planned };

    ghost use Rattle.cf_forms.specs.Plans.{IsGrowing};
    ghost use Rattle.cf_reference.specs.References.{grown};

    ghost view = { λ p. grown p.opening p.attached.items p.room };

    ghost invariant = { λ p. IsGrowing (grown p.opening p.attached.items p.room) };
}

impl ReferencePlan {
    /// The plan with room for so many stages. It fails only where there is no memory.
    pub fn new(alloc: Global, opening: Plan, room: u16) -> Result<ReferencePlan, AllocError>
        requires place { has_place opening.stages room ≡ true }
        ensures { IfOk result (λ plan. plan ≡ with_room opening room) }
    {
        // A plan that was built is within its bounds, and opened with all its stages.
        let _known = opening.stages();
        Ok(ReferencePlan {
            opening,
            attached: Vec::new(alloc),
            room,
        })
    }

    /// How many stages it has by now.
    pub fn stages(&self) -> u16
        ensures count { result ≡ length self.now.stages }
        ensures growing { IsGrowing self.now }
    {
        self.opening.stages() + self.attached.len() as u16
    }

    /// How many stages may still be attached.
    pub fn room(&self) -> u16
        ensures { result ≡ self.now.room }
    {
        self.room
    }

    /// The form of a stage.
    pub fn form(&self, i: u16) -> Form
        requires { i < length self.now.stages }
        ensures { result ≡ form_at self.now.stages i }
    {
        let opened = self.opening.stages();
        if i < opened {
            self.opening.form(i)
        } else {
            self.attached[(i - opened) as usize].form
        }
    }

    /// The sources of a stage, which are lower.
    pub fn sources(&self, i: u16) -> &[u16]
        requires { i < length self.now.stages }
        ensures sources { result.now ≡ sources_at self.now.stages i }
        ensures lower { All (λ j. j < i) result.now }
    {
        let opened = self.opening.stages();
        if i < opened {
            self.opening.sources(i)
        } else {
            &self.attached[(i - opened) as usize].sources
        }
    }

    /// The number of a stage's function, if its form has one.
    pub fn function(&self, i: u16) -> Option<u16>
        requires { i < length self.now.stages }
        ensures { result ≡ function_at self.now.stages i }
    {
        let opened = self.opening.stages();
        if i < opened {
            self.opening.function(i)
        } else {
            self.attached[(i - opened) as usize].function
        }
    }

    /// The same plan again.
    pub fn copy(&self, alloc: Global) -> Result<ReferencePlan, AllocError>
        ensures { IfOk result (λ plan. plan ≡ self.now) }
    {
        let attached = copied_stages(alloc, &self.attached)?;
        let opening = self.opening.share()?;
        Ok(ReferencePlan {
            opening,
            attached,
            room: self.room,
        })
    }

    /// The limits in firing order.
    pub fn limits(&self) -> &[Limit]
        ensures { result.now ≡ self.now.limits }
    {
        self.opening.limits()
    }

    /// Whether it is the same plan.
    pub fn is_same(&self, other: &ReferencePlan) -> bool
        ensures { IsTrue result ↔ (self.now ≡ other.now) }
    {
        if self.room != other.room {
            return false;
        }
        if !same_plans(&self.opening, &other.opening) {
            return false;
        }
        same_stages(&self.attached, &other.attached)
    }

    /// Puts a stage behind the others.
    pub fn attach(
        &mut self,
        alloc: Global,
        form: Form,
        of: Of,
        function: Option<u16>,
    ) -> Result<(), AllocError>
        requires room { 0 < self.old.room }
        requires fits { fits_form form (length (sources_of of)) (is_some function) ≡ true }
        requires sources { All (λ j. j < length self.old.stages) (sources_of of) }
        ensures attached { IfOk result (λ _. self.new ≡ and_stage self.old (attached_stage form of function)) }
        ensures unchanged { OnErr result (self.new ≡ self.old) }
    {
        let stage = attached(alloc, form, of, function)?;
        self.attached.push(stage)?;
        self.room -= 1;
        Ok(())
    }
}

/// The same stages again.
fn copied_stages(
    alloc: Global,
    stages: &[ReferenceStage],
) -> Result<Vec<ReferenceStage>, AllocError>
    ensures { IfOk result (λ copies. copies.items ≡ stages.now) }
{
    let mut copies = Vec::with_capacity(alloc, stages.len())?;
    for i in 0..stages.len() {
        copies.push(copied_stage(alloc, &stages[i])?)?;
    }
    Ok(copies)
}

/// The same stage again.
fn copied_stage(alloc: Global, stage: &ReferenceStage) -> Result<ReferenceStage, AllocError>
    ensures { IfOk result (λ copy. copy ≡ stage.now) }
{
    planned(alloc, stage.form, &stage.sources, stage.function)
}

/// Whether it is the same plan.
fn same_plans(a: &Plan, b: &Plan) -> bool
    ensures same { IsTrue result → a.now ≡ b.now }
    ensures all { a.now.stages ≡ b.now.stages → a.now.limits ≡ b.now.limits → IsTrue result }
{
    if a.stages() != b.stages() || !same_limits(a.limits(), b.limits()) {
        return false;
    }
    for i in 0..a.stages() {
        if !same_planned(a, b, i) {
            return false;
        }
    }
    true
}

/// Whether both have the same stage at a place.
fn same_planned(a: &Plan, b: &Plan, i: u16) -> bool
    requires first { i < length a.now.stages }
    requires other { i < length b.now.stages }
    ensures form { IsTrue result → form_at a.now.stages i ≡ form_at b.now.stages i }
    ensures sources { IsTrue result → sources_at a.now.stages i ≡ sources_at b.now.stages i }
    ensures function { IsTrue result → function_at a.now.stages i ≡ function_at b.now.stages i }
    ensures all { a.now.stages ≡ b.now.stages → IsTrue result }
{
    a.form(i) == b.form(i) && a.function(i) == b.function(i) && a.sources(i) == b.sources(i)
}

/// Whether they are the same limits.
fn same_limits(a: &[Limit], b: &[Limit]) -> bool
    ensures { IsTrue result ↔ (a.now ≡ b.now) }
{
    a == b
}

/// Whether they are the same stages.
fn same_stages(a: &[ReferenceStage], b: &[ReferenceStage]) -> bool
    ensures { IsTrue result ↔ (a.now ≡ b.now) }
{
    if a.len() != b.len() {
        return false;
    }
    for i in 0..a.len() {
        if !same_stage(&a[i], &b[i]) {
            return false;
        }
    }
    true
}

/// Whether they are the same stage.
fn same_stage(a: &ReferenceStage, b: &ReferenceStage) -> bool
    ensures { IsTrue result ↔ (a.now ≡ b.now) }
{
    a.form == b.form && a.function == b.function && a.sources.as_slice() == b.sources.as_slice()
}

/// An attached stage.
fn attached(
    alloc: Global,
    form: Form,
    of: Of,
    function: Option<u16>,
) -> Result<ReferenceStage, AllocError>
    ensures { IfOk result (λ stage. stage ≡ attached_stage form of function) }
{
    match of {
        Of::None => planned(alloc, form, &[], function),
        Of::One(a) => planned(alloc, form, &[a], function),
        Of::Two(a, b) => planned(alloc, form, &[a, b], function),
    }
}

/// A stage with these sources.
fn planned(
    alloc: Global,
    form: Form,
    sources: &[u16],
    function: Option<u16>,
) -> Result<ReferenceStage, AllocError>
    ensures { IfOk result (λ stage. stage ≡ record { form = form; sources = sources.now; function = function }) }
{
    let sources = Vec::from_slice(alloc, sources)?;
    Ok(ReferenceStage {
        form,
        sources,
        function,
    })
}
