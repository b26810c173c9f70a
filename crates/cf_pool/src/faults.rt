//! Why a run of workers tells a fault.
use crate::pool::{Left, Unbegun};
use cf_desk::DeskFault;

/// Why a run doesn't end with all workers done. The faults are numbered 1 and 3.
#[derive(Drop)]
pub enum PoolFault<W> {
    /// 1: memory was refused. Nothing has begun, and all that was handed in comes back.
    NoMemory(Unbegun<W>),
    /// 1: a thread was refused. Its worker has worked on the caller's, and this is what the run leaves.
    NoThread(Left<W>),
    /// 3: the fault of the lowest caller that met one, with what the run leaves.
    Desk(DeskFault, Left<W>),
}
