//! Laws that tie a search of all orders to what the callers of a desk were told.
//!
//! A closed desk of `cf_desk` promises that what its callers were told is one history (`IsOneHistory` of `cf_event`).
//! `cf_explore` searches all orders of a program's steps. Take a program whose callers make just the calls that the
//! desk's callers made, with a worker for each caller that only worked. Then that history is one of the program's
//! orders, and each caller is told in it what it was told on the desk. So a search that saw all orders tells the
//! outcomes that the desk closed with. And where the search finds no order that decides a condition, as one of what
//! must never be, no situation that the history comes to decides it.
//!
//! `specs/Tellings` says what such a program and such an order are.
#![tactic(auto)]

pub mod laws;
