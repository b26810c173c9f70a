//! Tests of workers, runs and races, by their public calls alone.

mod attached;
mod ends;
mod pools;
mod races;
mod recorded;
mod stopped;
mod watched;
mod workers;
