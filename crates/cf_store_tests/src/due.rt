//! What is due, and what acts put.
mod acts;
mod due;
