//! A call of a request as a row, as C has it.
use crate::values::task::CfTask;
use crate::values::{CfReply, CfValue};

/// A call of a request: a word (0), a step (1), a relay (2), a deadline (3), a moment (4), a refused lane (5), or that all is
/// cancelled (6).
///
/// | Call | It is given | It tells |
/// |---|---|---|
/// | word | `word`, `lane` | `reply` |
/// | step | `who`, `lane`, `task` | `task` |
/// | relay | `relay`, `stage` | |
/// | deadline | `stage`, `moment`, `kind`, `code`, `value` | |
/// | moment | `moment` | |
/// | refused lane | `lane`, `code` | |
/// | all cancelled | `who` | |
#[repr(C)]
#[derive(Clone, Copy)]
pub struct CfRequestCall {
    pub call: u32,
    pub who: u8,
    pub lane: u8,
    pub stage: u16,
    pub relay: u16,
    pub code: u32,
    pub word: u64,
    pub moment: u64,
    pub kind: u32,
    pub value: CfValue,
    pub reply: CfReply,
    pub task: CfTask,
}
