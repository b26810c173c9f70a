//! Small programs, with all that they can come to. The tests use public calls alone, and stand in a crate of their own, since a
//! crate that has tests is proved twice, with them and without.

mod programs;
mod rows;
