//! Tests of reading, by its public calls alone. They stand in a crate of their own, since a crate that has tests is proved
//! twice, with them and without.

mod growing;
mod reading;
mod texts;
