//! What a thread does under the lock.
use cf_request::{Held, StepFault, Taken};

/// A thread's turn: what it held, and what the machine's `next` answered. Slips know turns.
#[derive(Clone, Copy)]
pub struct Turn {
    pub held: Option<Held>,
    pub next: Result<Option<Taken>, StepFault>,
}
