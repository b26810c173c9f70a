//! A slow and obvious graph, with which tests compare the real one.
//!
//! Each definition that decides what a graph answers has a small program here, whose contract is that definition:
//! `follows` (what a stage takes from its sources), `new_stages` (what all stages become once one is settled), and
//! `ReferenceGraph`, whose calls are the state at the opening and the answer to each kind of event. It is written to be read,
//! and shares no code with the graph. Each step makes all stages anew, one after another, in a new vector, from a
//! list of the outcomes of their sources, and looks for the lowest ready stage from the front. So a step takes memory
//! and time for all stages and edges.
//!
//! A test compares the graph with it. This shows that what keeps the graph fast changes no answer, even where a
//! definition says less than was meant.
#![tactic(auto)]

mod forms;
mod graph;
mod plan;
mod stages;

pub use forms::follows;
pub use graph::ReferenceGraph;
pub use plan::ReferencePlan;
pub use stages::new_stages;
