//! What two sessions do at one row and are told, as rows: whose step it is, and a call with its answer last.
use crate::checks::{holds, must};
use crate::plans::{SOURCE_AND_APPLY, plan_of};
use cf_outcome::Outcome;
use cf_row::{Claim, Entry, Held, LedgerFault, PutFault, Reply, Row, TOKENS};
use std::alloc::Global;
use std::process::Abort;

/// What an engine does with a put. In each case it says that the put stands.
#[derive(Clone, Copy, PartialEq, Eq)]
pub(crate) enum Engine {
    /// It keeps the premises.
    Sound,
    /// It puts where something stands.
    Overwrites,
    /// It puts the first entry alone.
    Tears,
    /// It puts nothing.
    Loses,
}

/// A call of a session's `Row`, or its put to the store.
#[derive(Clone, Copy)]
pub(crate) enum Step {
    Plan(&'static [u64], Result<(), PutFault>),
    /// The store is asked for the put, and says whether it did it.
    Ask(bool),
    /// Words are planned, such an engine says that they stand, and the session is told so.
    Lands(Engine, &'static [u64]),
    /// The entry at the put's place is met.
    Met(bool),
    GiveUp,
    /// All that stands behind what was seen is seen.
    Sees,
    /// The first entry behind what was seen is seen.
    Saw(Result<Reply, LedgerFault>),
    /// For each caller a session puts a word.
    Crowd,
    /// Memory for so many entries.
    Reserve(usize),
    /// Room for so many stages more.
    Grow(u16),
    /// Whether the session put this entry of those that it has seen.
    IsOwn(usize, bool),
    /// How many records the session has.
    Records(usize),
    /// A session that has put something already puts a word, with a token of its own.
    Others(u64),
    /// The session's number.
    Number(u8),
    /// The number of this session.
    NumberOf(u64, Option<u8>),
    /// The lowest stage from a number on whose claim is open, and whose it is.
    OpenClaim(u16, Option<Claim>),
    /// The lowest stage from a number on that a session has.
    Held(u64, u16, Option<u16>),
    /// The word that fails the lowest stage that a session has, by code 9.
    Abandon(u64, Option<u64>),
    /// The word that finishes a stage.
    Finish(Held, Option<u64>),
    /// The lowest stage that the session could claim next, behind the finish of this one.
    NextClaim(Option<Held>, Option<u16>),
    Outcome(u16, Option<Outcome>),
}

/// Puts a group behind so many entries, if just so many stand.
fn put(store: &mut Vec<Entry>, place: usize, group: &[Entry]) -> bool {
    place == store.len() && store.extend_from_slice(group).is_ok()
}

/// Does so by such an engine.
fn put_by(engine: Engine, store: &mut Vec<Entry>, place: usize, group: &[Entry]) -> bool {
    match engine {
        Engine::Sound => put(store, place, group),
        Engine::Overwrites => {
            store.truncate(place);
            put(store, place, group)
        }
        Engine::Tears => !group.is_empty() && put(store, place, &group[..1]),
        Engine::Loses => place == store.len(),
    }
}

/// What stands behind so many entries.
fn read(store: &[Entry], from: usize) -> &[Entry] {
    if from <= store.len() {
        &store[from..]
    } else {
        &[]
    }
}

/// The first of 64 words, each by its caller, that give the source the number 5.
const COMPLETE: u64 = 0x0100000100000005;

/// What a word has more than that of the caller before.
const CALLER: u64 = 0x0001000000000000;

/// For each caller a session puts a word.
fn crowd(store: &mut Vec<Entry>) -> bool {
    for who in 0..64u64 {
        let entry = Entry {
            word: COMPLETE + who * CALLER,
            token: (20 + who) * TOKENS,
        };
        if store.push(entry).is_err() {
            return false;
        }
    }
    true
}

/// The eighth of those sessions puts a word.
fn put_by_another(store: &mut Vec<Entry>, word: u64) -> bool {
    let entry = Entry {
        word,
        token: 27 * TOKENS + 1,
    };
    store.push(entry).is_ok()
}

/// Words are planned, an engine says that they stand, and the session is told so.
fn lands(engine: Engine, store: &mut Vec<Entry>, row: &mut Row, words: &[u64]) -> bool {
    let place = row.replica().seen().len();
    if !row.put().is_empty() || row.plan(words).is_err() {
        return false;
    }
    let stands = put_by(engine, store, place, row.put());
    row.landed();
    stands
}

/// Whether a call that asks the store, or tells what stands there, is answered so.
fn is_told(store: &mut Vec<Entry>, row: &mut Row, step: Step) -> bool {
    let place = row.replica().seen().len();
    match step {
        Step::Ask(answer) => put(store, place, row.put()) == answer,
        Step::Lands(engine, words) => lands(engine, store, row, words),
        Step::Met(answer) => {
            place < store.len() && !row.put().is_empty() && row.met(store[place]) == answer
        }
        Step::Sees => row.put().is_empty() && row.saw_all(read(store, place)).is_ok(),
        Step::Saw(answer) => {
            place < store.len() && row.put().is_empty() && row.saw(store[place]) == answer
        }
        Step::Crowd => crowd(store),
        Step::Others(word) => put_by_another(store, word),
        _ => is_answered(row, step),
    }
}

/// Whether a call of the session alone is answered so.
fn is_answered(row: &mut Row, step: Step) -> bool {
    match step {
        Step::Plan(words, answer) => row.put().is_empty() && row.plan(words) == answer,
        Step::GiveUp => {
            row.give_up();
            true
        }
        Step::Reserve(more) => row.reserve(more).is_ok(),
        Step::Outcome(stage, answer) => {
            stage < row.replica().ledger().stages() && row.outcome(stage) == Ok(answer)
        }
        _ => is_known(row, step),
    }
}

/// Whether the session knows so.
fn is_known(row: &Row, step: Step) -> bool {
    let replica = row.replica();
    match step {
        Step::IsOwn(at, answer) => {
            at < replica.seen().len() && replica.seen()[at].is_of(replica.session()) == answer
        }
        Step::Records(answer) => replica.records().len() == answer,
        Step::Number(answer) => replica.number() == answer,
        Step::NumberOf(session, answer) => replica.number_of(session) == answer,
        Step::OpenClaim(from, answer) => replica.open_claim(from) == answer,
        Step::Held(session, from, answer) => replica.held(session, from) == answer,
        _ => goes_on(row, step),
    }
}

/// Whether it is told so what is put next.
fn goes_on(row: &Row, step: Step) -> bool {
    let replica = row.replica();
    match step {
        Step::Abandon(session, answer) => replica.abandon(session, 0, 9) == answer,
        Step::Finish(held, answer) => replica.finish(held) == answer,
        Step::NextClaim(ended, answer) => replica.next_claim(ended, 0) == answer,
        _ => false,
    }
}

/// Whether there is room for so many stages more.
fn grows(alloc: Global, row: &mut Row, more: u16) -> bool {
    row.put().is_empty() && row.replica().ledger().has_place(more) && row.grow(alloc, more).is_ok()
}

/// Whether a step is answered as it says.
fn is_so(alloc: Global, store: &mut Vec<Entry>, row: &mut Row, step: Step) -> bool {
    match step {
        Step::Grow(more) => grows(alloc, row, more),
        _ => is_told(store, row, step),
    }
}

/// The two sessions, 7 and 9, take these steps at an empty row, and each is answered as it says. The second has this
/// token first.
pub(crate) fn take(rt: &impl Abort, alloc: Global, token: u32, steps: &[(u8, Step)]) {
    let plan = plan_of(rt, alloc, &SOURCE_AND_APPLY);
    holds(rt, plan.has_place(1), "place");
    holds(rt, token <= 8_388_608, "token");
    let mut first = must(rt, Row::new(alloc, &plan, 1, 7, 0));
    let mut second = must(rt, Row::new(alloc, &plan, 1, 9, token));
    let mut store = Vec::new(alloc);
    for (at, (who, step)) in steps.iter().enumerate() {
        let row = if *who == 0 { &mut first } else { &mut second };
        holds(rt, is_so(alloc, &mut store, row, *step), ("step", at));
    }
    drop(store);
    drop(second);
    drop(first);
    drop(plan);
}
