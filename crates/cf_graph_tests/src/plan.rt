//! Tests of plans and of the tables of forms, by their public calls alone. They stand in a crate of their own, since a
//! crate that has tests is proved twice, with them and without.

mod growing;
mod many;
mod naming;
mod place;
mod plans;
mod rows;
mod tables;
