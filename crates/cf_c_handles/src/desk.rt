//! The callers of a desk, which is a graph that they share.

pub mod caller;
pub mod completing;
pub mod noticing;
pub mod opening;
pub mod stepping;
