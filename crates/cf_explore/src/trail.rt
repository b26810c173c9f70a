//! How each situation was come to.
use crate::step::Move;

/// How a situation was come to: the number of the one before it, and the move between them. The start has number 0.
#[derive(Clone, Copy, Drop)]
pub struct Trace {
    pub before: u32,
    pub by: Move,
}
