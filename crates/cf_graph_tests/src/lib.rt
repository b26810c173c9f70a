//! Tests of what one caller can do, through public calls alone: sets of numbers, outcomes, plans, events, the graph, the reference graph
//! beside it, and the search of all orders; and tests of scripts: how they are read, and what is printed where no program
//! can show it. They have a crate of their own because a crate with tests is proved twice, with them and without.
//!
//! Most tests are a table of steps that one loop goes through. The proof of such a test is that of its table.
#![tactic(auto)]

#[cfg(test)]
mod bits;
#[cfg(test)]
mod checks;
#[cfg(test)]
mod event;
#[cfg(test)]
mod explore;
#[cfg(test)]
mod functions;
#[cfg(test)]
mod graph;
#[cfg(test)]
mod outcome;
#[cfg(test)]
mod plan;
#[cfg(test)]
mod reading;
#[cfg(test)]
mod reference;
#[cfg(test)]
mod script;
