//! The graph against the reference graph, on plans and calls that are made by rule, with turns taken between the calls. The tests
//! use public calls alone, and stand in a crate of their own, since a crate that has tests is proved twice, with them and
//! without.

mod attaching;
mod both;
mod calls;
mod opened;
mod plans;
