//! Why the callers couldn't take their turns.
use cf_desk::{CloseFault, DeskFault, OpenFault};
use std::alloc::AllocError;

/// Why the callers couldn't take their turns.
#[derive(Clone, Copy, Debug, Drop, PartialEq, Eq)]
pub enum Fault {
    /// Memory was refused.
    NoMemory,
    /// The desk couldn't be opened.
    Open(OpenFault),
    /// A call was refused.
    Call(DeskFault),
    /// The desk couldn't be closed. No call answers it.
    Close(CloseFault),
}

impl From<AllocError> for Fault {
    fn from(_: AllocError) -> Fault {
        Fault::NoMemory
    }
}

impl From<OpenFault> for Fault {
    fn from(fault: OpenFault) -> Fault {
        Fault::Open(fault)
    }
}

impl From<DeskFault> for Fault {
    fn from(fault: DeskFault) -> Fault {
        Fault::Call(fault)
    }
}

impl From<CloseFault> for Fault {
    fn from(fault: CloseFault) -> Fault {
        Fault::Close(fault)
    }
}
