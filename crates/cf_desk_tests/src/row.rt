//! Tests of two sessions at a row in a store, by public calls alone. A test is a table of steps, which one loop takes. Two
//! processes at a request of a store, too.

mod processes;
mod rows;
mod steps;
