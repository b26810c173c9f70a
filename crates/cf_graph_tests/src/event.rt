//! Tests of events and their words, by the public calls of `cf_event` alone.

mod attaching;
pub(crate) mod graphs;
mod words;
