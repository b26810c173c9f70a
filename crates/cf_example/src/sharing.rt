//! Two sessions that share a request by a row in a store: each sees what stands there, and claims what is ready. What is
//! concluded follows from the contracts of a session's view, and from a law of rows.
ghost use Rattle.std.specs.Prelude.{◌≡◌, ◌≢◌, [], IfOk, IfSome, OnOk};
ghost use Rattle.std.specs.Bool.{OnFalse, OnTrue};
ghost use Rattle.cf_row.specs.Grants.{IsGrantedTo};
ghost use Rattle.cf_row.specs.Rows.{Replays};
ghost use Rattle.cf_example.specs.Sharing.{GoesOn, HaveNoneInCommon, Holds, Knows, Share};

use crate::rows::Store;
use cf_event::{LAST_CALLER, encode};
use cf_model::Event;
use cf_row::Row;
use cf_row::laws::claims_are_one_sessions;
use std::alloc::{AllocError, Global};

/// The greatest number of a stage.
const LAST_STAGE: u16 = 4095;

/// Lets two sessions claim stages of a row in turns, so many times, and answers which ones each of them was granted. No
/// stage is both sessions', whatever stood in the row before, and also where both have one caller's number.
pub fn share(
    alloc: Global,
    store: &mut Store,
    first: &mut Row,
    second: &mut Row,
    turns: usize,
) -> Result<(Vec<u16>, Vec<u16>), AllocError>
    requires knows { Knows store.old first.old × Knows store.old second.old }
    requires plan { second.old.replica.plan ≡ first.old.replica.plan }
    requires sessions { first.old.replica.session ≢ second.old.replica.session }
    ensures { IfOk result (λ taken. HaveNoneInCommon taken.0.items taken.1.items) }
{
    claims_are_one_sessions();
    let mut ones = Vec::new(alloc);
    let mut others = Vec::new(alloc);
    for _turn in 0..turns {
        take_turns(store, first, second, &mut ones, &mut others)?;
    }
    Ok((ones, others))
}

/// Each of two sessions takes a stage, if it can, and notes it.
fn take_turns(
    store: &mut Store,
    first: &mut Row,
    second: &mut Row,
    ones: &mut Vec<u16>,
    others: &mut Vec<u16>,
) -> Result<(), AllocError>
    requires { Share store.old first.old second.old ones.old.items others.old.items }
    ensures { OnOk result (Share store.new first.new second.new ones.new.items others.new.items) }
{
    take_turn(store, first, ones)?;
    take_turn(store, second, others)
}

/// A session takes a stage, if it can, and notes it.
fn take_turn(store: &mut Store, row: &mut Row, taken: &mut Vec<u16>) -> Result<(), AllocError>
    requires { Holds store.old row.old taken.old.items }
    ensures goes_on { OnOk result (GoesOn store.old row.old store.new row.new) }
    ensures holds { OnOk result (Holds store.new row.new taken.new.items) }
{
    if let Some(stage) = take_stage(store, row) {
        taken.push(stage)?;
    }
    Ok(())
}

/// A session sees what stands in the row, and claims the lowest stage that is ready. It answers the stage whose claim
/// was granted to it.
pub fn take_stage(store: &mut Store, row: &mut Row) -> Option<u16>
    requires { Knows store.old row.old }
    ensures goes_on { GoesOn store.old row.old store.new row.new }
    ensures granted { IfSome result (λ i. IsGrantedTo row.new.replica row.new.replica.session i) }
{
    see_all(store, row);
    let stage = row.replica().next_claim(None, 0)?;
    let who = row.replica().number();
    if who > LAST_CALLER || stage > LAST_STAGE {
        return None;
    }
    put_word(store, row, encode(&Event::Claim { who, stage }));
    let replica = row.replica();
    replica.held(replica.session(), stage)
}

/// Lets a session see what stands in the row, up to the first entry that its graph doesn't take.
fn see_all(store: &Store, row: &mut Row)
    requires { Knows store.now row.old }
    ensures { GoesOn store.now row.old store.now row.new }
{
    let place = row.replica().seen().len();
    let _ = row.saw_all(store.read(place));
}

/// Puts a session's word behind all that it has seen, if nothing else stands there and the graph takes it.
fn put_word(store: &mut Store, row: &mut Row, word: u64)
    requires { Knows store.old row.old }
    ensures { GoesOn store.old row.old store.new row.new }
{
    if row.plan(&[word]).is_err() {
        return;
    }
    let place = row.replica().seen().len();
    match store.put(place, row.put()) {
        Ok(stands) => end_put(row, stands),
        Err(_) => row.give_up(),
    }
}

/// The put stands, or else it is given up.
fn end_put(row: &mut Row, stands: bool)
    ensures stood { OnTrue stands (Replays row.old.replica row.old.put row.new.replica) }
    ensures lost { OnFalse stands (row.new.replica ≡ row.old.replica) }
    ensures none { row.new.put ≡ [] }
{
    if stands {
        row.landed();
    } else {
        row.give_up();
    }
}
