//! Stages that follow another stage of the same request.
ghost use Rattle.std.specs.Prelude.{◌≡◌, ◌⊎◌, ◌+◌, ◌^◌, ◌≤◌, ◌<◌, IfNone, IfSome, length, take, true};
ghost use Rattle.cf_ledger.specs.Ledgers.{state_of};
ghost use Rattle.cf_request.specs.Machines.{CatchesUp};
ghost use Rattle.cf_request.specs.Relays.{AreLookedAt, AreMarked, AreThere, IsBehindAt, IsRelayDue, MayCatchUp, MayCatchUpWith, MaySettle, NoneBehind, NoneFollowed, is_in_flags, open_relays};
ghost use Rattle.cf_request.specs.Settling.{IsOpen};
ghost use Rattle.cf_request.specs.Tallies.{TalliesFit};

use crate::joins::{Join, due_by};
use crate::settling::{Due, settle};
use crate::tallies::{Tallies, note};
use crate::teller::Teller;
use cf_bits::BitSet;

/// Which stages follow which: the joins.
///
/// The set of the stages that are followed is kept beside them, so that a call that settles none of them notes none,
/// and how many joins are open at most, for each of which a call finds memory.
#[derive(Drop)]
pub(crate) struct Relays {
    pub follows: Vec<Join>,
    pub followed: BitSet,
    pub waiting: usize,
}

/// A relay that is open though its stage is settled: its place among all, and what it is settled with.
#[derive(Drop)]
pub(crate) struct Behind {
    pub place: usize,
    pub due: Due,
}

/// Settles all relays whose stages are settled, and those that follow these. It looks at relays only if a stage that
/// wasn't noted before may decide one. It takes no memory but that of a word for each relay that is open, and tells how
/// many are open at most then.
#[inline(always)]
pub(crate) fn catch_up(
    teller: &mut Teller,
    relays: &Relays,
    tallies: &mut Tallies,
    seen: usize,
    who: u8,
) -> usize
    requires caller { who ≤ 63 }
    requires may { MayCatchUp teller.old relays.now seen }
    requires tallied { TalliesFit relays.now.follows.items relays.now.followed tallies.old teller.old }
    requires noted { tallies.old.noted ≤ length teller.old.taken + seen }
    ensures settled { CatchesUp who relays.now.follows.items teller.old teller.new }
    ensures counted { open_relays teller.new relays.now ≤ result }
    ensures fewer { result ≤ relays.now.waiting }
    ensures memory { teller.old.ledger.free ≤ teller.new.ledger.free + open_relays teller.old relays.now }
    ensures tallied { TalliesFit relays.now.follows.items relays.now.followed tallies.new teller.new }
{
    let _seen = seen;
    if relays.waiting == 0 {
        return relays.waiting;
    }
    let is_due = note(teller, &relays.followed, tallies);
    if is_due {
        return settle_behind(teller, relays, who);
    }
    relays.waiting
}

/// The same where a join may be behind only if another is known to be.
pub(crate) fn catch_up_with(teller: &mut Teller, relays: &Relays, is_due: bool, who: u8) -> usize
    requires caller { who ≤ 63 }
    requires may { MayCatchUpWith teller.old relays.now is_due }
    ensures settled { CatchesUp who relays.now.follows.items teller.old teller.new }
    ensures counted { open_relays teller.new relays.now ≤ result }
    ensures fewer { result ≤ relays.now.waiting }
{
    if !is_due {
        return relays.waiting;
    }
    settle_behind(teller, relays, who)
}

/// Settles all relays whose stages are settled, and those that follow these. It looks at all relays, and goes on behind
/// the one that it has settled, unless a stage is followed that this has settled.
fn settle_behind(teller: &mut Teller, relays: &Relays, who: u8) -> usize
    requires caller { who ≤ 63 }
    requires may { MaySettle teller.old relays.now }
    requires marked { AreMarked relays.now.followed relays.now.follows.items }
    ensures settled { CatchesUp who relays.now.follows.items teller.old teller.new }
    ensures counted { open_relays teller.new relays.now ≤ result }
    ensures fewer { result ≤ relays.now.waiting }
    ensures memory { teller.old.ledger.free ≤ teller.new.ledger.free + open_relays teller.old relays.now }
{
    let mut waiting = relays.waiting;
    let mut from: usize = 0;
    while let Some(behind) = first_from(teller, relays, from) {
        let seen = teller.told().len();
        settle(teller, who, &behind.due);
        from = next_place(relays, behind.place, &teller.told()[seen..]);
        waiting = waiting.saturating_sub(1);
    }
    waiting
}

/// The place from which a join may be behind, once the one at a place is settled and these are told.
fn next_place(relays: &Relays, place: usize, news: &[u16]) -> usize
    requires few { place < 2 ^ 63 }
    ensures next { result ≡ place + 1 ⊎ result ≡ 0 }
    ensures none { result ≡ place + 1 → NoneFollowed relays.now.followed news.now }
{
    if none_followed(&relays.followed, news) {
        place + 1
    } else {
        0
    }
}

/// The first relay that is open though its stage is settled. It looks at relays only if a stage is followed that is told
/// behind so many that were looked at.
#[inline(always)]
pub(crate) fn first_behind(teller: &Teller, relays: &Relays, seen: usize) -> Option<Due>
    requires there { AreThere (state_of teller.now.ledger) relays.now.follows.items }
    requires marked { AreMarked relays.now.followed relays.now.follows.items }
    requires seen { AreLookedAt seen teller.now.told relays.now.follows.items (state_of teller.now.ledger).stages }
    ensures is_open { IfSome result (λ d. IsOpen (state_of teller.now.ledger) d.stage) }
    ensures due { IfSome result (λ d. IsRelayDue relays.now.follows.items teller.now d) }
    ensures none { IfNone result (NoneBehind relays.now.follows.items (state_of teller.now.ledger).stages) }
{
    if none_followed(&relays.followed, &teller.told()[seen..]) {
        return None;
    }
    let behind = first_from(teller, relays, 0)?;
    Some(behind.due)
}

/// Whether none of these stages is followed.
#[inline(always)]
fn none_followed(followed: &BitSet, stages: &[u16]) -> bool
    ensures { result ≡ true → NoneFollowed followed.now stages.now }
{
    for stage in stages {
        if is_followed(followed, *stage) {
            return false;
        }
    }
    true
}

/// Whether a stage is followed.
#[inline(always)]
pub(crate) fn is_followed(followed: &BitSet, i: u16) -> bool
    ensures { result ≡ is_in_flags followed.now i }
{
    if i >= followed.bound() {
        return false;
    }
    followed.contains(i)
}

/// The first of these relays that is open though its stage is settled, where none is that stands before a place.
fn first_from(teller: &Teller, relays: &Relays, from: usize) -> Option<Behind>
    requires there { AreThere (state_of teller.now.ledger) relays.now.follows.items }
    requires before { NoneBehind (take from relays.now.follows.items) (state_of teller.now.ledger).stages }
    ensures is_open { IfSome result (λ b. IsOpen (state_of teller.now.ledger) b.due.stage) }
    ensures behind { IfSome result (IsBehindAt relays.now.follows.items teller.now) }
    ensures none { IfNone result (NoneBehind relays.now.follows.items (state_of teller.now.ledger).stages) }
{
    for place in from..relays.follows.len() {
        if let Some(due) = due_by(teller, &relays.follows[place]) {
            return Some(Behind { place, due });
        }
    }
    None
}
