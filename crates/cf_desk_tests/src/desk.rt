//! Tests of the desk, and of the example that shares one, by their public calls alone. They stand in a crate of their own,
//! since a crate that has tests is proved twice, with them and without.

mod beside;
mod bounds;
mod desks;
mod ends;
mod example;
mod growing;
mod heeding;
mod late;
mod listing;
mod room;
mod steps;
mod threads;
mod turns;
