//! What happens between a claim and the function.

/// Is called after each claim that a worker was granted, before the stage's function runs.
pub trait Gate {
    /// This worker is about to run the function of this stage.
    fn before(&self, stage: u16, worker: u8);
}

/// Lets each worker go on at once.
#[derive(Clone, Copy, Debug, Drop)]
pub struct NoGate;

impl Gate for NoGate {
    fn before(&self, _stage: u16, _worker: u8) {}
}
