//! Tests of the machine of a request, by its public calls alone. A test is a table of steps, which one loop takes.

mod composes;
mod joins;
mod machines;
mod scopes;
mod steps;
mod threads;
