//! How the callers of a desk are given back, and how it is closed.
ghost use Rattle.std.specs.Prelude.{◌≡◌, All, MatchOption, MatchResult, length};
ghost use Rattle.std.specs.Arc.{arc_value};
ghost use Rattle.cf_c_handles.specs.Closed.{IsClosed};
ghost use Rattle.cf_c_handles.specs.Closings.{ClosingRefuses, EndsOrStays, HasMore, IsBegun, LacksPasses};

use crate::code::Code;
use crate::desk::caller::is_one_desk;
use crate::handle::object::{Caller, ClosedDesk, Closing};
use cf_desk::{Desk, Pass};
use std::alloc::Global;
use std::sync::Arc;

impl Closing {
    /// Begins to close the desk of a caller. Where memory is refused, the caller comes back.
    pub(crate) fn of(alloc: Global, caller: Caller) -> Result<Closing, Caller>
        ensures { MatchResult result (IsBegun caller) (λ back. back ≡ caller) }
    {
        let callers = usize::from(caller.desk.callers());
        let Ok(mut passes) = Vec::with_capacity(alloc, callers.max(1)) else {
            return Err(caller);
        };
        let Caller { desk, pass } = caller;
        passes.push_reserved(pass);
        Ok(Closing { desk, passes })
    }

    /// Why a caller isn't taken, if it isn't.
    pub(crate) fn refusal(&self, caller: &Caller) -> Option<Code>
        ensures { MatchOption result (LacksPasses self.now) (ClosingRefuses self.now) }
    {
        if !is_one_desk(&self.desk, &caller.desk) {
            return Some(Code::OtherDesk);
        }
        if self.passes.len() >= usize::from(self.desk.callers()) {
            return Some(Code::Full);
        }
        None
    }

    /// Keeps a caller's pass. Its share of the desk is given up.
    pub(crate) fn add(&mut self, caller: Caller)
        requires desk { (arc_value caller.desk).table ≡ (arc_value self.old.desk).table }
        requires room { LacksPasses self.old }
        ensures { HasMore self.old caller self.new }
    {
        let Caller { desk, pass } = caller;
        drop(desk);
        self.passes.push_reserved(pass);
    }

    /// Closes the desk. If callers are missing, or something still holds the desk, the closing comes back.
    pub(crate) fn end(self) -> Result<ClosedDesk, (Closing, Code)>
        ensures { EndsOrStays self result }
    {
        if self.passes.len() != usize::from(self.desk.callers()) {
            return Err((self, Code::NotAll));
        }
        let Closing { desk, passes } = self;
        match Arc::try_unwrap(desk) {
            Ok(desk) => Ok(closed_of(desk, passes)),
            Err(desk) => Err((Closing { desk, passes }, Code::StillShared)),
        }
    }
}

/// Closes a desk, all of whose passes were given back.
fn closed_of(desk: Desk, passes: Vec<Pass>) -> ClosedDesk
    requires own { All (λ p. p.table ≡ desk.table) passes.items }
    requires all { length passes.items ≡ desk.setting.callers }
    ensures { IsClosed desk passes.items result.closed }
{
    // A log has fewer than 65,536 words.
    let _known = desk.words();
    match desk.close(passes) {
        Ok(closed) => ClosedDesk { closed },
        Err(_) => unreachable!(),
    }
}
