//! Orders, read back.
ghost use Rattle.std.specs.Prelude.{IfOk};
ghost use Rattle.cf_explore.specs.Found.{IsOrderOf};

use crate::found::{Found, Witness};
use crate::step::Move;
use std::alloc::{AllocError, Global};

impl Found {
    /// The moves of an order that was found, first to last. It fails only where there is no memory.
    pub fn order(&self, alloc: Global, witness: Witness) -> Result<Vec<Move>, AllocError>
        ensures { IfOk result (λ order. IsOrderOf self.now.trail.items witness order.items) }
    {
        let mut order = Vec::new(alloc);
        let mut number = witness.number;
        for step in 0..witness.moves {
            match self.trail.get(number as usize) {
                None => return Ok(order),
                Some(trace) => {
                    order.push(trace.by)?;
                    number = trace.before;
                }
            }
        }
        order.reverse();
        Ok(order)
    }
}
