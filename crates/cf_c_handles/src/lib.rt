//! What stands behind the handles of C, what each is asked, and how the answers look to C.
//!
//! A handle is a pointer that C keeps and never looks into. A call of `cf_c` takes out what stands behind it, asks it
//! through a function of this crate, and puts it back. A handle may go to another thread, but is in one call at a
//! time.
//!
//! | Module | What C has |
//! |---|---|
//! | `handle` | the handle, and what may stand behind it |
//! | `plan` | a plan that is being built |
//! | `graph` | a graph that one caller has alone |
//! | `ledger` | a graph with the words of all that was done to it |
//! | `request` | one request of a service as a machine, which tells each settled stage once |
//! | `row` | one session's view of a row in a store |
//! | `host` | all requests of a store that a process works on, as a machine |
//! | `history` | what happened to a request, told for people and for the programs |
//! | `desk` | the callers of a graph that several share: how it is opened, and what each of them is asked |
//! | `close` | a desk that is being closed, and a closed one with its records |
//! | `values` | values, replies and events |
//! | `texts` | reports of scripts, outcomes and codes as texts |
//! | `code` | what a call answers |
#![tactic(auto)]

pub mod close;
pub mod code;
pub mod desk;
pub mod graph;
pub mod handle;
pub mod history;
pub mod host;
pub mod ledger;
pub mod plan;
pub mod request;
pub mod row;
pub mod texts;
pub mod values;
