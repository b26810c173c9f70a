//! A graph with the words of all that was done to it.
ghost use Rattle.std.specs.Prelude.{◌≡◌};
ghost use Rattle.cf_c_handles.specs.Ledgers.{LedgerFrom, LedgerOf, word_code};

pub mod asking;
pub mod stepping;
pub mod telling;

use crate::code::Code;
use crate::handle::object::Object;
use cf_ledger::{Ledger, LedgerFault};
use std::alloc::Global;

/// The ledger of a plan with so much room.
pub fn ledger_of(alloc: Global, held: &Object, room: u16) -> Result<Object, Code>
    ensures { LedgerOf room held.now result }
{
    let Object::Plan(plan) = held else {
        return Err(Code::WrongKind);
    };
    if !plan.has_place(room) {
        return Err(Code::Room);
    }
    Ok(Object::Ledger(Ledger::new(alloc, plan, room)?))
}

/// The ledger of a plan with so much room, and of these words.
pub fn ledger_from(
    alloc: Global,
    held: &Object,
    room: u16,
    words: &[u64],
    place: &mut usize,
) -> Result<Object, Code>
    ensures { LedgerFrom room words.now held.now place.old result place.new }
{
    let Object::Plan(plan) = held else {
        return Err(Code::WrongKind);
    };
    if !plan.has_place(room) {
        return Err(Code::Room);
    }
    match Ledger::of_words(alloc, plan, room, words) {
        Ok(ledger) => Ok(Object::Ledger(ledger)),
        Err(misfit) => match misfit.why {
            LedgerFault::NoMemory => Err(Code::NoMemory),
            LedgerFault::NoEvent => {
                *place = misfit.place;
                Err(Code::NoWord)
            }
            LedgerFault::NoStage => {
                *place = misfit.place;
                Err(Code::NoStage)
            }
            LedgerFault::NoRoom => {
                *place = misfit.place;
                Err(Code::NoRoom)
            }
        },
    }
}

/// The code of the fault for which a word isn't done.
#[inline(always)]
pub(crate) fn word_code(fault: LedgerFault) -> Code
    ensures { result ≡ word_code fault }
{
    match fault {
        LedgerFault::NoMemory => Code::NoMemory,
        LedgerFault::NoEvent => Code::NoWord,
        LedgerFault::NoStage => Code::NoStage,
        LedgerFault::NoRoom => Code::NoRoom,
    }
}
