//! Plans, and what is asked of them.
ghost use Rattle.std.specs.Prelude.{◌≡◌, ℕ, ◌<◌, ◌≤◌, All, IfOk, IsOkUnless, length};
ghost use Rattle.cf_forms.specs.Plans.{IsBuilt, IsRising, dependents_of, edges_of, form_at, function_at, has_place, mentions, plan_of, sources_at, starts_of};
ghost use Rattle.cf_plan.specs.Rows.{ArePlanned, planned_of};

use crate::builder::{MAX_EDGES, MAX_STAGES};
use crate::dependents::Dependents;
use crate::faults::PlanFault;
use crate::rows::Row;
use crate::starting::starts_of;
use cf_forms::{Form, Limit};
use std::alloc::{AllocError, Global};
use std::marker::Model;
use std::sync::Arc;

/// The blocks of memory that a plan stands in.
#[derive(Drop)]
struct Blocks {
    rows: Vec<Row>,
    sources: Vec<u16>,
    limits: Vec<Limit>,
    dependents: Dependents,
    starts: Vec<u16>,
}

impl Model for Blocks {
    ghost use Rattle.cf_forms.specs.Plans.{Planned};

    ghost Value = { Planned };

    ghost use Rattle.std.specs.Prelude.{◌≡◌};
    ghost use Rattle.cf_forms.specs.Plans.{starts_of};
    ghost use Rattle.cf_plan.specs.Rows.{AreDependents, ArePlanned, planned_of, stages_of};

    ghost view = { λ p. planned_of p.rows.items p.sources.items p.limits.items };

    ghost invariant = { λ p.
        ArePlanned p.rows.items p.sources.items p.limits.items
        × AreDependents p.dependents.starts.items p.dependents.block.items (stages_of p.sources.items p.rows.items)
        × (p.starts.items ≡ starts_of (stages_of p.sources.items p.rows.items)) };
}

/// A plan, which no longer changes: its stages in order, and its limits in firing order. Its copies share one memory.
#[derive(Drop)]
pub struct Plan {
    blocks: Arc<Blocks, Global>,
}

impl Model for Plan {
    ghost use Rattle.std.specs.Arc.{arc_value};
    ghost use Rattle.cf_forms.specs.Plans.{IsBuilt, Planned};

    ghost Value = { Planned };

    ghost view = { λ p. arc_value p.blocks };

    ghost invariant = { λ p. IsBuilt (arc_value p.blocks) };
}

impl Plan {
    /// The plan of these rows, whose dependents and starts are computed.
    pub(crate) fn of_rows(
        rows: Vec<Row>,
        sources: Vec<u16>,
        limits: Vec<Limit>,
    ) -> Result<Plan, PlanFault>
        requires { ArePlanned rows.items sources.items limits.items }
        ensures built { IfOk result (λ plan. plan ≡ planned_of rows.items sources.items limits.items) }
        ensures refused { IsOkUnless result PlanFault.NoMemory }
    {
        let alloc = *rows.allocator();
        let dependents = Dependents::new(alloc, &rows, &sources)?;
        let starts = starts_of(alloc, &rows, &sources)?;
        let blocks = Blocks {
            rows,
            sources,
            limits,
            dependents,
            starts,
        };
        let blocks = Arc::new(alloc, blocks)?;
        Ok(Plan { blocks })
    }

    /// How many stages it has, at most `MAX_STAGES`. They are numbered from 0 on.
    pub fn stages(&self) -> u16
        ensures count { result ≡ length self.now.stages }
        ensures few { result ≤ 4096 }
        ensures built { IsBuilt self.now }
        ensures whole { self.now ≡ plan_of self.now.stages self.now.limits }
    {
        self.blocks.rows.len() as u16
    }

    /// The form of stage i.
    pub fn form(&self, i: u16) -> Form
        requires { i < length self.now.stages }
        ensures { result ≡ form_at self.now.stages i }
    {
        self.blocks.rows[i as usize].form
    }

    /// The sources of stage i, in the order of its arguments: each is below it, and one may stand twice.
    pub fn sources(&self, i: u16) -> &[u16]
        requires { i < length self.now.stages }
        ensures sources { result.now ≡ sources_at self.now.stages i }
        ensures lower { All (λ j. j < i) result.now }
    {
        let blocks = &*self.blocks;
        let row = blocks.rows[i as usize];
        &blocks.sources[row.first as usize..row.end as usize]
    }

    /// The dependents of stage i: in rising order each stage that names it as a source, once for each mention. They are
    /// the converse of `sources`: stage k stands there as often as its sources name stage i.
    pub fn dependents(&self, i: u16) -> &[u16]
        requires { i < length self.now.stages }
        ensures dependents { result.now ≡ dependents_of self.now.stages i }
        ensures above { All (λ k. i < k) result.now }
        ensures below { All (λ k. k < length self.now.stages) result.now }
        ensures rising { IsRising result.now }
        ensures converse { (k : ℕ) → mentions k result.now ≡ mentions i (sources_at self.now.stages k) }
    {
        self.blocks.dependents.of(i)
    }

    /// The stages that have something to take from the start on, when nothing has settled, in rising order: each supply and
    /// runAsync, and each allOf without sources.
    pub fn starts(&self) -> &[u16]
        ensures starts { result.now ≡ starts_of self.now.stages }
        ensures below { All (λ k. k < length self.now.stages) result.now }
        ensures rising { IsRising result.now }
    {
        self.blocks.starts.as_slice()
    }

    /// The number of stage i's function, if its form has one.
    pub fn function(&self, i: u16) -> Option<u16>
        requires { i < length self.now.stages }
        ensures { result ≡ function_at self.now.stages i }
    {
        self.blocks.rows[i as usize].function
    }

    /// The limits in firing order: by rising moment, and then as they were given. There are at most `MAX_LIMITS`.
    pub fn limits(&self) -> &[Limit]
        ensures { result.now ≡ self.now.limits }
    {
        self.blocks.limits.as_slice()
    }

    /// How many edges it has, at most `MAX_EDGES`: each mention of a source is one.
    pub fn edges(&self) -> u32
        ensures count { result ≡ edges_of self.now.stages }
        ensures few { result ≤ 16384 }
    {
        self.blocks.sources.len() as u32
    }

    /// Whether there is place for so much room: with so many stages more, of two sources each, it has at most `MAX_STAGES`
    /// stages and `MAX_EDGES` edges.
    pub fn has_place(&self, room: u16) -> bool
        ensures { result ≡ has_place self.now.stages room }
    {
        self.stages() as usize + room as usize <= MAX_STAGES
            && self.edges() as usize + 2 * room as usize <= MAX_EDGES
    }

    /// The same plan again. Both share one memory, so it takes none. It fails only where more copies are alive than a
    /// memory could hold.
    pub fn copy(&self) -> Result<Plan, PlanFault>
        ensures same { IfOk result (λ plan. plan ≡ self.now) }
        ensures refused { IsOkUnless result PlanFault.NoMemory }
    {
        Ok(self.share()?)
    }

    /// What `copy` gives, for a caller with another error for want of memory.
    pub fn share(&self) -> Result<Plan, AllocError>
        ensures same { IfOk result (λ plan. plan ≡ self.now) }
    {
        let blocks = Arc::try_clone(&self.blocks)?;
        Ok(Plan { blocks })
    }
}
