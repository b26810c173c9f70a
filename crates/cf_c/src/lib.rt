//! The calls of the C library: proved completable futures for C.
//!
//! A handle is a pointer that C keeps and never looks into. Each call takes out what stands behind its handle, asks
//! it, and puts it back. `cf_c_handles` says what it is asked, and how the answer looks to C.
//!
//! | Module | Calls of |
//! |---|---|
//! | `handle` | any handle |
//! | `plan` | a plan that is being built |
//! | `graph` | a graph that one caller has alone |
//! | `ledger` | a graph with the words of all that was done to it |
//! | `request` | one request of a service as a machine, which tells each settled stage once |
//! | `row` | one session's view of a row in a store |
//! | `host` | all requests of a store that a process works on, as a machine |
//! | `history` | what happened to a request, told for people and for the programs |
//! | `opening`, `desk` | the callers of a graph that several share: how it is opened, and what each of them is asked |
//! | `close` | a desk that is being closed, and a closed one with its records |
//! | `events` | events and their words |
//! | `texts` | reports of scripts, outcomes and codes as texts |
#![tactic(auto)]

mod close;
mod desk;
mod events;
mod graph;
mod handle;
mod history;
mod host;
mod ledger;
mod opening;
mod plan;
mod request;
mod row;
mod texts;
