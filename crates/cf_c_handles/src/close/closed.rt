//! What a closed desk tells, and its records as C has them.
ghost use Rattle.std.specs.Prelude.{◌≡◌, length, option_and_then, option_copied, option_map, slice_get};
ghost use Rattle.cf_event.specs.Words.{word_of};
ghost use Rattle.cf_c_handles.specs.Records.{CallHasWord, CallsHaveWords, as_record, bare, count_told, kept_of, record_of, with_ask, with_told};

use crate::handle::object::ClosedDesk;
use crate::values::{
    CfNow, CfOutcome, CfReply, CfValue, as_now, as_outcome, as_reply, as_value, no_reply,
};
use cf_core::Graph;
use cf_desk::{Ask, Kept, Rec, Told, event_by};
use cf_event::encode;
use cf_outcome::Value;

/// What a caller was told: a changing call as the word of its event (kind 0), with its reply, or a look (1).
///
/// The `place` of a changing call is the number of events in the history up to its own, which counts too. The `place` of a look is
/// the number of events that were seen. A look at the `stage` asked for its outcome (`asked` is 0), or for what it gives at present,
/// with `absent` in its place if it isn't settled (1). What a record doesn't have is 0.
#[repr(C)]
#[derive(Clone, Copy)]
pub struct CfRecord {
    pub kind: u32,
    pub place: u32,
    pub word: u64,
    pub reply: CfReply,
    pub asked: u32,
    pub stage: u16,
    pub absent: CfValue,
    pub outcome: CfOutcome,
    pub now: CfNow,
}

impl ClosedDesk {
    /// How many events its history has.
    pub(crate) fn events(&self) -> u16
        ensures { result ≡ length self.now.closed.history.items }
    {
        self.closed.history.len() as u16
    }

    /// The word of the event at a place, if there is one.
    #[tactic(auto, using(crate::proofs::ClosedLemmas::event_at))]
    pub(crate) fn word(&self, place: u16) -> Option<u64>
        ensures { result ≡ option_map word_of (slice_get self.now.closed.history.items place) }
    {
        match item_at(self.closed.history.as_slice(), place) {
            None => None,
            Some(event) => Some(encode(&event)),
        }
    }

    /// How many records a caller has, if it gave a pass back.
    pub(crate) fn records(&self, caller: u8) -> Option<u16>
        ensures { result ≡ option_map count_told (kept_of self.now.closed.passes.items caller) }
    {
        match kept_of(self.closed.passes.as_slice(), caller) {
            None => None,
            Some(kept) => Some(count_told(kept)),
        }
    }

    /// A caller's record at a place, if there is one.
    #[tactic(auto, using(crate::proofs::ClosedLemmas::kept_at))]
    pub(crate) fn record(&self, caller: u8, at: u16) -> Option<CfRecord>
        ensures { result ≡ option_and_then (record_of at) (kept_of self.now.closed.passes.items caller) }
    {
        match kept_of(self.closed.passes.as_slice(), caller) {
            None => None,
            Some(kept) => record_of(kept, at),
        }
    }

    /// The graph as all events leave it.
    pub(crate) fn into_graph(self) -> Graph
        ensures { result ≡ self.closed.graph }
    {
        self.closed.graph
    }
}

/// What the first of these passes that is this caller's has kept.
fn kept_of(passes: &[Kept], caller: u8) -> Option<&Kept>
    ensures { option_copied result ≡ kept_of passes.now caller }
{
    passes.iter().find(|kept| kept.caller == caller)
}

/// How many records a pass has kept, 65,535 at most.
fn count_told(kept: &Kept) -> u16
    ensures { result ≡ count_told kept.now }
{
    let count = kept.records.len();
    if count < 65_535 { count as u16 } else { 65_535 }
}

/// The record of a pass at a place, if there is one.
#[tactic(auto, using(crate::proofs::ClosedLemmas::call_of))]
fn record_of(kept: &Kept, at: u16) -> Option<CfRecord>
    requires { CallsHaveWords kept.now }
    ensures { result ≡ record_of at kept.now }
{
    match item_at(kept.records.as_slice(), at) {
        None => None,
        Some(record) => Some(as_record(kept.caller, record)),
    }
}

/// The item at a place, if there is one.
fn item_at<T: Copy>(items: &[T], place: u16) -> Option<T>
    ensures { result ≡ slice_get items.now place }
{
    if (place as usize) < items.len() {
        Some(items[place as usize])
    } else {
        None
    }
}

/// A record of this caller for C.
#[tactic(auto, using(crate::proofs::ClosedLemmas::has_word))]
pub(crate) fn as_record(caller: u8, kept: Rec) -> CfRecord
    requires { CallHasWord caller kept }
    ensures { result ≡ as_record caller kept }
{
    match kept {
        Rec::Did { place, call, reply } => CfRecord {
            word: encode(&event_by(caller, call)),
            reply: as_reply(reply),
            ..bare(0, place)
        },
        Rec::Saw { place, ask, told } => with_told(told, with_ask(ask, bare(1, place))),
    }
}

/// A record with what was asked.
fn with_ask(ask: Ask, bare: CfRecord) -> CfRecord
    ensures { result ≡ with_ask ask bare }
{
    match ask {
        Ask::Outcome(stage) => CfRecord {
            asked: 0,
            stage,
            ..bare
        },
        Ask::Now(stage, absent) => CfRecord {
            asked: 1,
            stage,
            absent: as_value(absent),
            ..bare
        },
    }
}

/// A record with what was told.
fn with_told(told: Told, asked: CfRecord) -> CfRecord
    ensures { result ≡ with_told told asked }
{
    match told {
        Told::Outcome(outcome) => CfRecord {
            outcome: as_outcome(outcome),
            ..asked
        },
        Told::Now(now) => CfRecord {
            now: as_now(now),
            ..asked
        },
    }
}

/// A record of this kind and place, with nothing else.
fn bare(kind: u32, place: u16) -> CfRecord
    ensures { result ≡ bare kind place }
{
    let nothing = as_outcome(None);
    CfRecord {
        kind,
        place: u32::from(place),
        word: 0,
        reply: no_reply(),
        asked: 0,
        stage: 0,
        absent: as_value(Value::Nil),
        outcome: nothing,
        now: CfNow {
            kind: 0,
            outcome: nothing,
        },
    }
}
