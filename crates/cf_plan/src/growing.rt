//! Plans to which stages are attached.
ghost use Rattle.std.specs.Prelude.{◌≡◌, ℕ, ◌+◌, ◌*◌, ◌<◌, ◌≤◌, ◌++◌, true, All, IfOk, is_some, length, reverse};
ghost use Rattle.cf_plan.specs.Growing.{attached_of, opening_dependents};
ghost use Rattle.cf_forms.specs.Plans.{AreBelow, IsGrowing, and_stage, attached_stage, dependents_of, edges_of, fits_form, form_at, function_at, has_place, opening_of, reopened, sources_at, sources_of, with_room};

use crate::attached_lists::{AttachedDependents, AttachedLists};
use crate::plan::Plan;
use cf_forms::{Form, Limit, Of};
use std::alloc::{AllocError, Global};
use std::marker::Model;

/// A stage that was attached. Its sources are the first `count` of the two.
#[derive(Clone, Copy)]
pub(crate) struct AttachedRow {
    form: Form,
    function: Option<u16>,
    sources: [u16; 2],
    count: u16,
}

/// A plan to which stages may be attached, as many as it has room for. The room is made at the opening, so that attaching
/// takes no memory.
///
/// The plan that it was opened with stays as it is, so the dependents of a stage stand in two places: those of the
/// opening in one slice, in rising order, and those attached since in a list, the newest first. Where there is no room,
/// there are no such lists, and no memory but the opening's is taken.
#[derive(Drop)]
pub struct GrowingPlan {
    opening: Plan,
    rows: Vec<AttachedRow>,
    lists: AttachedLists,
    room: u16,
}

impl Model for GrowingPlan {
    ghost use Rattle.cf_forms.specs.Plans.{Planned};

    ghost Value = { Planned };

    ghost use Rattle.std.specs.Vec.{vec_capacity};
    ghost use Rattle.cf_plan.specs.Growing.{AreGrowing, grown_of};

    ghost view = { λ p. grown_of p.opening p.rows.items p.room };

    ghost invariant = { λ p.
        AreGrowing p.opening p.rows.items p.lists.heads.items p.lists.cells.items p.room
        (vec_capacity p.rows) (vec_capacity p.lists.cells) };
}

impl GrowingPlan {
    /// The plan with room for so many stages, which together with its own are at most `MAX_STAGES`; with two edges for
    /// each, its edges are at most `MAX_EDGES`. It fails only where there is no memory.
    pub fn new(alloc: Global, opening: Plan, room: u16) -> Result<GrowingPlan, AllocError>
        requires place { has_place opening.stages room ≡ true }
        ensures { IfOk result (λ plan. plan ≡ with_room opening room) }
    {
        let stages = opening.stages() as usize;
        let count = match room {
            0 => 0,
            _ => stages + room as usize,
        };
        let rows = Vec::with_capacity(alloc, room as usize)?;
        let lists = AttachedLists::new(alloc, count, 2 * room as usize)?;
        Ok(GrowingPlan {
            opening,
            rows,
            lists,
            room,
        })
    }

    /// The plan that it was opened with.
    pub fn opening(&self) -> &Plan
        ensures { result.now ≡ opening_of self.now }
    {
        &self.opening
    }

    /// How many stages it has by now, at most `MAX_STAGES` with those for which there is room.
    pub fn stages(&self) -> u16
        ensures count { result ≡ length self.now.stages }
        ensures growing { IsGrowing self.now }
    {
        self.opening.stages() + self.rows.len() as u16
    }

    /// How many stages may still be attached.
    pub fn room(&self) -> u16
        ensures { result ≡ self.now.room }
    {
        self.room
    }

    /// The form of stage i.
    pub fn form(&self, i: u16) -> Form
        requires { i < length self.now.stages }
        ensures { result ≡ form_at self.now.stages i }
    {
        let opened = self.opening.stages();
        if i < opened {
            self.opening.form(i)
        } else {
            self.rows[(i - opened) as usize].form
        }
    }

    /// The sources of stage i, in the order of its arguments: each is below it, and one may stand twice.
    pub fn sources(&self, i: u16) -> &[u16]
        requires { i < length self.now.stages }
        ensures sources { result.now ≡ sources_at self.now.stages i }
        ensures lower { All (λ j. j < i) result.now }
    {
        let opened = self.opening.stages();
        if i < opened {
            self.opening.sources(i)
        } else {
            let row = &self.rows[(i - opened) as usize];
            &row.sources[..row.count as usize]
        }
    }

    /// The number of stage i's function, if its form has one.
    pub fn function(&self, i: u16) -> Option<u16>
        requires { i < length self.now.stages }
        ensures { result ≡ function_at self.now.stages i }
    {
        let opened = self.opening.stages();
        if i < opened {
            self.opening.function(i)
        } else {
            self.rows[(i - opened) as usize].function
        }
    }

    /// The limits in firing order: those of the opening.
    pub fn limits(&self) -> &[Limit]
        ensures { result.now ≡ self.now.limits }
    {
        self.opening.limits()
    }

    /// How many edges it has by now.
    pub fn edges(&self) -> u32
        ensures { result ≡ edges_of self.now.stages }
    {
        self.opening.edges() + self.lists.cells() as u32
    }

    /// The stages of the opening that name stage i as a source, in rising order, once for each mention.
    pub fn dependents(&self, i: u16) -> &[u16]
        requires { i < length self.now.stages }
        ensures dependents { result.now ≡ opening_dependents self.now i }
        ensures above { All (λ k. i < k) result.now }
        ensures below { All (λ k. k < length self.now.stages) result.now }
    {
        if i < self.opening.stages() {
            self.opening.dependents(i)
        } else {
            &[]
        }
    }

    /// The attached stages that name stage i as a source, the newest first, once for each mention. In reverse order
    /// they are the dependents of stage i that follow those of the opening.
    pub fn attached_dependents(&self, i: u16) -> AttachedDependents<'_>
        requires { i < length self.now.stages }
        ensures rest { dependents_of self.now.stages i ≡ opening_dependents self.now i ++ reverse result }
        ensures above { All (λ k. i < k) result }
        ensures below { All (λ k. k < length self.now.stages) result }
    {
        if self.rows.is_empty() {
            self.lists.none()
        } else {
            self.lists.list(i)
        }
    }

    /// Attaches a stage. Its number is how many stages there were before.
    pub fn attach(&mut self, form: Form, of: Of, function: Option<u16>)
        requires room { 0 < self.old.room }
        requires fits { fits_form form (length (sources_of of)) (is_some function) ≡ true }
        requires sources { AreBelow (length self.old.stages) of }
        ensures { self.new ≡ and_stage self.old (attached_stage form of function) }
    {
        let number = self.opening.stages() + self.rows.len() as u16;
        self.rows.push_reserved(row_of(form, of, function));
        self.room -= 1;
        match of {
            Of::None => {}
            Of::One(a) => self.lists.push(a, number),
            Of::Two(a, b) => {
                self.lists.push(a, number);
                self.lists.push(b, number);
            }
        }
    }

    /// Takes out all attached stages: the plan is as it was opened, with its room free again. It takes no memory, and
    /// does nothing where no stage was attached.
    pub fn restart(&mut self)
        ensures { self.new ≡ reopened self.old }
    {
        let attached = self.rows.len();
        if attached > 0 {
            // A plan that was built is within its bounds.
            let _known = self.opening.stages();
            self.room += attached as u16;
            self.rows.clear();
            self.lists.clear();
        }
    }
}

/// The row of an attached stage.
fn row_of(form: Form, of: Of, function: Option<u16>) -> AttachedRow
    ensures stage { attached_of result ≡ attached_stage form of function }
    ensures count { result.count ≡ length (sources_of of) }
{
    let (sources, count) = match of {
        Of::None => ([0, 0], 0),
        Of::One(a) => ([a, 0], 1),
        Of::Two(a, b) => ([a, b], 2),
    };
    AttachedRow {
        form,
        function,
        sources,
        count,
    }
}
