//! What a ledger behind a handle is asked, or the ledger of a request or of a view of a row.
ghost use Rattle.cf_c_handles.specs.Ledgers.{Grows, OfLedger, StartsAgain, TellsFunction, TellsReady, TellsStage, TellsStages};

use crate::code::Code;
use crate::handle::object::Object;
use crate::values::stage::{CfStage, as_stage};
use cf_ledger::Ledger;
use std::alloc::Global;

/// Asks a ledger, or that of a request or of a view of a row.
macro_rules! of_ledger {
    ($held:expr, $ledger:ident => $ask:expr) => {
        match $held {
            crate::handle::object::Object::Ledger($ledger) => $ask,
            crate::handle::object::Object::Request(machine) => {
                let $ledger = machine.ledger();
                $ask
            }
            crate::handle::object::Object::Row(row) => {
                let $ledger = row.replica().ledger();
                $ask
            }
            _ => Err(crate::code::Code::WrongKind),
        }
    };
}

pub(crate) use of_ledger;

/// The lowest ready stage of a ledger from a number on.
pub fn ready(held: &mut Object, from: u16) -> Result<u16, Code>
    ensures { OfLedger (TellsReady from) held.old result held.new }
{
    of_ledger!(held, ledger => first_ready(ledger, from))
}

fn first_ready(ledger: &Ledger, from: u16) -> Result<u16, Code>
    ensures { TellsReady from ledger.now result }
{
    match ledger.next_ready(from) {
        Some(stage) => Ok(stage),
        None => Err(Code::Nothing),
    }
}

/// What a stage of a ledger is.
pub fn stage(held: &mut Object, stage: u16) -> Result<CfStage, Code>
    ensures { OfLedger (TellsStage stage) held.old result held.new }
{
    of_ledger!(held, ledger => stage_now(ledger, stage))
}

/// What a stage of this ledger is.
pub(crate) fn stage_now(ledger: &Ledger, stage: u16) -> Result<CfStage, Code>
    ensures { TellsStage stage ledger.now result }
{
    if stage >= ledger.stages() {
        return Err(Code::NoStage);
    }
    let claimant = ledger.claimant(stage);
    Ok(as_stage(ledger.stage(stage), claimant))
}

/// The number of a stage's function.
pub fn function(held: &mut Object, stage: u16) -> Result<u16, Code>
    ensures { OfLedger (TellsFunction stage) held.old result held.new }
{
    of_ledger!(held, ledger => function_of(ledger, stage))
}

fn function_of(ledger: &Ledger, stage: u16) -> Result<u16, Code>
    ensures { TellsFunction stage ledger.now result }
{
    if stage >= ledger.stages() {
        return Err(Code::NoStage);
    }
    ledger.function(stage).ok_or(Code::Nothing)
}

/// How many stages a ledger has by now.
pub fn stages(held: &mut Object) -> Result<u16, Code>
    ensures { OfLedger TellsStages held.old result held.new }
{
    of_ledger!(held, ledger => Ok(ledger.stages()))
}

/// Makes room in a ledger for so many stages more.
pub fn grow(alloc: Global, held: &mut Object, more: u16) -> Result<(), Code>
    ensures { Grows more held.old result held.new }
{
    let Object::Ledger(ledger) = held else {
        return Err(Code::WrongKind);
    };
    if !ledger.has_place(more) {
        return Err(Code::Room);
    }
    match ledger.grow(alloc, more) {
        Ok(()) => Ok(()),
        Err(_) => Err(Code::NoMemory),
    }
}

/// Starts a ledger again.
pub fn restart(held: &mut Object) -> Result<(), Code>
    ensures { StartsAgain held.old result held.new }
{
    let Object::Ledger(ledger) = held else {
        return Err(Code::WrongKind);
    };
    ledger.restart();
    Ok(())
}
