//! Laws of stages that a machine of a request gathers.
//!
//! `Machine::gather` of `cf_request` attaches a row of stages, of which the last is the root, and each has two sources at
//! most. Its laws say that the root has what one stage of the form over all sources would have, if each of them has what
//! its two sources give. Here stands what becomes of the root over any row of calls that come behind.
//!
//! `specs/Roots` says it.
#![tactic(auto)]

pub mod laws;
