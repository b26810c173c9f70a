//! Tests of scripts by the public calls alone, as far as a program can't show it: devices that fail or move one byte a call,
//! want of memory, the line of each fault, and what a gate sees of a race. What scripts print stands in `tests` at the top.
//! They stand in a crate of their own, since a crate that has tests is proved twice, with them and without.

mod bytes;
mod devices;
mod faults;
mod gates;
mod names;
mod races;
mod reports;
mod scripts;
mod telling;
