//! Tests of the graph of a plan, by its public calls alone. They stand in a crate of their own, since a crate that has
//! tests is proved twice, with them and without.
//!
//! A test is a plan and a table of steps, which one loop takes (`steps`): the proof of a test is then that of its
//! table.

mod attaching;
mod by_events;
mod graphs;
mod noting;
pub(crate) mod plans;
mod restarting;
pub(crate) mod steps;
mod sweeping;
mod working;
