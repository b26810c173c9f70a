//! Which sessions are gone, by their beats alone: a machine without I/O, clock or threads.
//!
//! Each session of a store counts up while it lives, and each asks now and then for all counts. A session is gone whose
//! count stays the same for more than a lease. Time counts only while the store is known to answer: from an answer to the
//! next question, and half a lease of that at most. So neither a slow answer nor a process that slept makes another one
//! gone. A silence, which is a question without an answer, forgets all: nobody could beat then. Moments are milliseconds
//! of this process's clock; where it goes back, nothing counts.
#![tactic(auto)]

mod beat;
pub mod laws;
mod sight;
mod watch;

pub use beat::Beat;
pub use watch::Watch;
