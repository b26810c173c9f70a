//! Any row of calls of a request's machine, as data, and time that passes behind it. What is concluded follows from the
//! contracts of the machine's calls, and from laws.
ghost use Rattle.std.specs.Prelude.{OnOk};
ghost use Rattle.std.specs.Bool.{OnTrue};
ghost use Rattle.cf_example.specs.Calls.{HasSet, IsRow, MakesAll, PassesAfter};

use cf_model::laws::settled_stages_keep_their_outcomes;
use cf_request::laws::calls_add_behind;
use cf_request::{Deadline, Held, Machine, MachineFault};
use std::alloc::Global;

/// A call of a machine. `gather`, `compose` and `link` do what rows of these do.
#[derive(Clone, Copy)]
pub enum MachineCall {
    /// Memory for so many words.
    Reserve(usize),
    /// A word, and the lane of a stage that it attaches.
    Apply(u64, u8),
    /// A caller, the lane that it asks, and what it holds.
    Next(u8, u8, Option<Held>),
    /// A relay, and the stage that it follows.
    Follow(u16, u16),
    SetDeadline(Deadline),
    NextDeadline,
    Pass(u64),
    /// A lane and a code.
    Refuse(u8, u32),
    CancelAll(u8),
    Took(usize),
    Grow,
}

/// Why a row of calls has stopped.
#[derive(Clone, Copy, Debug, PartialEq, Eq)]
pub enum RowFault {
    /// The call at this place was refused.
    Call(usize),
    /// Time couldn't pass.
    Pass(MachineFault),
}

/// Makes these calls, one after another, and then lets time pass up to a moment. No stage is open then that has a
/// deadline up to it, whichever calls they were, and whatever they settled, forgot or let pass between. It stops at the
/// first call that is refused.
pub fn pass_after(
    alloc: Global,
    machine: &mut Machine,
    calls: &[MachineCall],
    moment: u64,
) -> Result<(), RowFault>
    ensures { OnOk result (PassesAfter calls.now moment machine.old machine.new) }
{
    settled_stages_keep_their_outcomes();
    calls_add_behind();
    make_all(alloc, machine, calls)?;
    match machine.pass(moment) {
        Ok(()) => Ok(()),
        Err(fault) => Err(RowFault::Pass(fault)),
    }
}

/// Makes these calls, one after another, up to the first that is refused.
fn make_all(alloc: Global, machine: &mut Machine, calls: &[MachineCall]) -> Result<(), RowFault>
    ensures { OnOk result (MakesAll calls.now machine.old machine.new) }
{
    settled_stages_keep_their_outcomes();
    calls_add_behind();
    for (place, call) in calls.iter().enumerate() {
        if !make(alloc, machine, *call) {
            return Err(RowFault::Call(place));
        }
    }
    Ok(())
}

/// Makes a call, and says whether it was done.
pub fn make(alloc: Global, machine: &mut Machine, call: MachineCall) -> bool
    ensures row { IsRow machine.old machine.new }
    ensures set { OnTrue result (HasSet call machine.new) }
{
    match call {
        MachineCall::Reserve(words) => machine.reserve(words).is_ok(),
        MachineCall::Apply(word, lane) => {
            lane < machine.lanes() && machine.apply(word, lane).is_ok()
        }
        MachineCall::Next(who, lane, held) => {
            lane < machine.lanes() && machine.next(who, lane, held).is_ok()
        }
        MachineCall::Follow(relay, stage) => machine.follow(relay, stage).is_ok(),
        MachineCall::SetDeadline(deadline) => machine.deadline(deadline).is_ok(),
        MachineCall::NextDeadline => {
            let _ = machine.next_deadline();
            true
        }
        MachineCall::Pass(moment) => machine.pass(moment).is_ok(),
        MachineCall::Refuse(lane, code) => {
            lane < machine.lanes() && machine.refuse(lane, code).is_ok()
        }
        MachineCall::CancelAll(who) => machine.cancel_all(who).is_ok(),
        MachineCall::Took(count) => {
            machine.took(count);
            true
        }
        MachineCall::Grow => machine.grow(alloc).is_ok(),
    }
}
