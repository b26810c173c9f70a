//! Places for the words to come.
ghost use Rattle.std.specs.Prelude.{◌≡◌, ◌<◌, ◌≤◌, ◌^◌, OnErr, OnOk};
ghost use Rattle.cf_ledger.specs.Books.{HasPlaces, IsBook, ledger_in};

use crate::rows::make_room;
use crate::writing::Book;
use std::alloc::AllocError;

/// Finds places for so many words more, each of which may change all stages. It fails only where there is no memory.
/// The places that were there stay.
#[inline(always)]
pub(crate) fn make_places(book: &mut Book, count: usize) -> Result<(), AllocError>
    requires kept { IsBook book.old }
    requires few { count ≤ 2 ^ 51 }
    ensures places { OnOk result (HasPlaces count book.new) }
    ensures kept { IsBook book.new }
    ensures graph { book.new.graph ≡ book.old.graph }
    ensures same { ledger_in book.new ≡ ledger_in book.old }
    ensures short { OnErr result (book.old.free < count) }
{
    make_room(&mut book.words, count)?;
    book.news
        .reserve(count, count * book.changed.bound() as usize)?;
    Ok(())
}
