//! Tests of the ledger, by its public calls alone. A test is a plan and a table of steps, which one loop takes.

mod ledgers;
mod steps;
