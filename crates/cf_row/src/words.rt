//! Which words a session may put.
ghost use Rattle.std.specs.Prelude.{◌≡◌, ◌+◌, ◌*◌, ◌≤◌, IfErr, IfNone, IfSome, OnOk, None, Some};
ghost use Rattle.std.specs.Bool.{OnFalse, OnTrue};
ghost use Rattle.cf_event.specs.Decoding.{event_of};
ghost use Rattle.cf_ledger.specs.Ledgers.{AreTaken};
ghost use Rattle.cf_model.specs.States.{start};
ghost use Rattle.cf_row.specs.Puts.{AreWordsBehind, AreWordsFor, IsNoPut, IsWordFor, MayPut, attached_by, end_of_tokens};
ghost use Rattle.cf_row.specs.Rows.{history_of};

use crate::entry::TOKENS;
use crate::faults::PutFault;
use crate::replica::Replica;
use cf_event::decode;
use cf_model::Event;

/// Whether a session may put these words behind all that it has seen, with tokens from this one on. Memory for them is
/// not looked at.
pub(crate) fn check(replica: &Replica, next: u64, words: &[u64]) -> Result<(), PutFault>
    requires first { replica.now.session * 8388608 ≤ next }
    requires last { next ≤ end_of_tokens replica.now.session }
    ensures may { OnOk result (MayPut replica.now next words.now) }
    ensures why { IfErr result (λ fault. IsNoPut replica.now next words.now fault) }
{
    let used = next - replica.session() * TOKENS;
    if words.len() as u64 > TOKENS - used {
        return Err(PutFault::NoTokens);
    }
    if !are_behind(replica, replica.number(), words) {
        return Err(PutFault::NoWord);
    }
    Ok(())
}

/// Whether these are words of events of this caller that the graph takes behind all that was seen. It took all of that.
fn are_behind(replica: &Replica, who: u8, words: &[u64]) -> bool
    ensures are { OnTrue result (AreWordsBehind replica.now who words.now) }
    ensures none { OnFalse result (¬ AreWordsBehind replica.now who words.now) }
    ensures taken { AreTaken (start replica.now.plan) (history_of replica.now.seen) }
{
    let ledger = replica.ledger();
    are_for(words, who, ledger.stages(), ledger.room())
}

/// Whether these are words of events of this caller that a graph of so many stages, with room for so many more, takes
/// one after another.
fn are_for(words: &[u64], who: u8, stages: u16, room: u16) -> bool
    requires few { stages + room ≤ 4096 }
    ensures are { OnTrue result (AreWordsFor who stages room words.now) }
    ensures none { OnFalse result (¬ AreWordsFor who stages room words.now) }
{
    let mut there = stages;
    let mut left = room;
    for word in words {
        let Some(more) = attached_for(*word, who, there, left) else {
            return false;
        };
        there += more;
        left -= more;
    }
    true
}

/// How many stages a word attaches, if it is such a word.
fn attached_for(word: u64, who: u8, stages: u16, room: u16) -> Option<u16>
    ensures is { IfSome result (λ more. IsWordFor who stages room word) }
    ensures count { IfSome result (λ more. more ≡ attached_by (event_of word)) }
    ensures none { IfNone result (¬ IsWordFor who stages room word) }
{
    let Some(event) = decode(word) else {
        return None;
    };
    let more = attached_by(&event);
    if event.who() != who || !event.fits(stages) || more > room {
        return None;
    }
    Some(more)
}

/// How many stages an event attaches.
fn attached_by(event: &Event) -> u16
    ensures { result ≡ attached_by (Some event.now) }
{
    match *event {
        Event::Attach { .. } => 1,
        _ => 0,
    }
}
