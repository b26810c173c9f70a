//! Changing calls as C has them, as events, and the words of events.
ghost use Rattle.std.specs.Prelude.{◌≡◌, IfOk, Ok};
ghost use Rattle.cf_c_handles.specs.Answers.{HandleGives};
ghost use Rattle.cf_c_handles.specs.EventWords.{GivesWord, HasWord, event_at, event_of, told_event};

use crate::handle::give;
use cf_c_handles::values::event::{CfEvent, event_at, event_of, told_event, word_of};

/// The word of an event.
#[unsafe(no_mangle)]
pub extern "C" fn cf_word_of_event(event: &CfEvent, word: &mut u64) -> u32
    ensures { GivesWord (event_of event.entry.now) result word.old word.new }
{
    give(word_of(event_of(*event)), word)
}

/// The event of a word. `cf_word_of_event` gives the same word for it.
#[unsafe(no_mangle)]
#[tactic(auto, using(cf_c_handles::proofs::EventsBack::back_given))]
pub extern "C" fn cf_event_of(word: u64, event: &mut CfEvent) -> u32
    ensures told { HandleGives (told_event (event_at word)) result event.old event.new }
    ensures back { IfOk (event_at word) (λ e. (event_of event.new ≡ Ok e) × HasWord e word) }
{
    give(told_event(event_at(word)), event)
}
