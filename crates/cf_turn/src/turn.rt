//! What a process does next in a request.
use crate::wish::Told;
use cf_forms::Args;
use cf_part::{Question, Shown};

/// What a process does next in a request.
#[derive(Clone, Copy, Debug, PartialEq, Eq)]
pub enum Turn {
    /// Tell the user of the act with this number what became of it.
    Tell {
        number: u64,
        told: Told,
    },
    /// Tell those who wait for this stage.
    Show {
        stage: u16,
        shown: Shown,
    },
    /// The stage was settled otherwise: its function may end.
    Stop {
        stage: u16,
    },
    /// Call this function with these arguments, the stage's. Of a stage of which no note tells a function it is 0.
    Call {
        stage: u16,
        function: u32,
        args: Args,
    },
    /// Ask the store this about the request's row.
    Ask(Question),
}
