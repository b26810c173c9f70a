//! Plans of stages: which stages there are, and what each names as its sources.
//!
//! A `PlanBuilder` builds a plan, call by call. The plan is the list of the calls that were accepted: each stage with
//! its form, its sources (all of them lower stages) and its function's number, and the limits in firing order. The
//! sources of all stages stand in one block, and so do their dependents, so both are looked up as slices.
//!
//! A `GrowingPlan` is a built plan with room for stages that are attached later, each with at most two sources.
//! Attached stages are numbered after those of the opening. The dependents of the opening's stages stay where they are;
//! beside them each stage has a list of the attached stages that name it. A restart takes all attached stages out
//! again.
#![tactic(auto)]

mod attached_lists;
mod builder;
mod dependents;
mod faults;
mod growing;
pub mod laws;
mod limits;
mod plan;
mod rows;
mod starting;

pub use attached_lists::AttachedDependents;
pub use builder::{MAX_EDGES, MAX_LIMITS, MAX_STAGES, PlanBuilder};
pub use faults::PlanFault;
pub use growing::GrowingPlan;
pub use plan::Plan;
