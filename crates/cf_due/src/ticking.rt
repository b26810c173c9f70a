//! A word that leaves the graph as it is.
ghost use Rattle.cf_due.specs.Acts.{TicksBehind};

use cf_event::{Event, encode};
use cf_row::Replica;

/// The tick at no moment, beside which a note may stand.
pub(crate) fn tick_word(view: &Replica) -> u64
    ensures { TicksBehind view.now result }
{
    let who = view.number();
    encode(&Event::Tick { who, moment: 0 })
}
