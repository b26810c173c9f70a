//! How many more values and failures a join can get before it may be decided.
//!
//! So a word that settles a source of a join counts its sources anew only if that may decide it. What a join has to
//! spare stands at its first source, whose number stands at each other one. A source that stands twice in a join, or is
//! one of another join, has nothing to spare, nor has any join that it is of.
ghost use Rattle.std.specs.Prelude.{◌≡◌, ◌⊎◌, ℕ, ◌+◌, ◌-◌, ◌<◌, ◌≤◌, ◌∷◌, ◌++◌, [], All, List, cond, false, length, slice_set, true};
ghost use Rattle.cf_ledger.specs.Ledgers.{stages_of, state_of};
ghost use Rattle.cf_model.specs.States.{outcome_in};
ghost use Rattle.cf_request.specs.Joins.{IsJoin, has_failed, has_value, sources_of};
ghost use Rattle.cf_request.specs.Relays.{AreMarked, MarksAll, is_in_flags};
ghost use Rattle.cf_request.specs.Tallies.{AreLed, AreLess, Empties, HasLeft, HaveLeft, IsLessAt, IsSpared, IsSpent, Spends, TalliesFit, led_by, left_to, no_spare, spare_at};
ghost use Rattle.cf_request.specs.Telling.{IsOnce, order_in};
ghost use Rattle.cf_request.specs.declared.joins.Join.{Join};

use crate::joins::{Join, left_of};
use crate::relays::is_followed;
use crate::teller::Teller;
use cf_bits::BitSet;
use cf_outcome::Outcome;

/// Of a source: the first source of its join, and if it is that itself, how many values and how many failures more the
/// join can get until one of them may decide it.
#[derive(Clone, Copy)]
pub(crate) struct Spare {
    pub first: u16,
    pub values: u16,
    pub failures: u16,
}

/// What is to spare at each stage, as far as there was memory for it, by so many of the settled stages, the first ones.
#[derive(Drop)]
pub(crate) struct Tallies {
    pub spares: Vec<Spare>,
    pub noted: usize,
}

/// Notes all settled stages, and tells whether one that wasn't noted before may decide a join.
#[inline(always)]
pub(crate) fn note(teller: &Teller, followed: &BitSet, tallies: &mut Tallies) -> bool
    requires within { tallies.old.noted ≤ length (order_in teller.now) }
    requires led { AreLed followed.now tallies.old.spares.items }
    ensures all { tallies.new.noted ≡ length (order_in teller.now) }
    ensures once { IsOnce (state_of teller.now.ledger) (order_in teller.now) }
    ensures led { AreLed followed.now tallies.new.spares.items }
    ensures tallied { (follows : List Join) → AreMarked followed.now follows
        → TalliesFit follows followed.now tallies.old teller.now
        → TalliesFit follows followed.now tallies.new teller.now }
    ensures left { result ≡ false
        → HaveLeft followed.now tallies.new.spares.items (order_in teller.now) tallies.old.noted tallies.new.noted }
{
    let order = teller.settled();
    let mut is_due = false;
    let mut place = tallies.noted;
    while place < order.len() {
        let is_spent = note_one(teller, followed, &mut tallies.spares, order[place]);
        is_due = is_due | is_spent;
        place += 1;
    }
    tallies.noted = place;
    is_due
}

/// Notes one settled stage, and tells whether it may decide a join.
#[inline(always)]
fn note_one(teller: &Teller, followed: &BitSet, spares: &mut Vec<Spare>, stage: u16) -> bool
    requires there { stage < stages_of teller.now.ledger }
    ensures spends { is_in_flags followed.now stage ≡ true
        → Spends stage (outcome_in (state_of teller.now.ledger).stages stage) spares.old.items spares.new.items }
    ensures none { is_in_flags followed.now stage ≡ false → spares.new.items ≡ spares.old.items }
    ensures left { result ≡ false → HasLeft followed.now spares.new.items stage }
{
    if !is_followed(followed, stage) {
        return false;
    }
    note_followed(teller, spares, stage)
}

/// The same where it is a source, in a call of its own.
#[inline(never)]
fn note_followed(teller: &Teller, spares: &mut Vec<Spare>, stage: u16) -> bool
    requires there { stage < stages_of teller.now.ledger }
    ensures spends { Spends stage (outcome_in (state_of teller.now.ledger).stages stage)
        spares.old.items spares.new.items }
    ensures left { result ≡ false → ¬ IsSpent (left_to spares.new.items stage) }
{
    let outcome = teller.outcome(stage);
    spend(spares, stage, outcome)
}

/// A source has this outcome, so that its join has less to spare. It tells whether that is nothing.
#[inline(always)]
fn spend(spares: &mut Vec<Spare>, stage: u16, outcome: Option<Outcome>) -> bool
    ensures spends { Spends stage outcome spares.old.items spares.new.items }
    ensures left { result ≡ false → ¬ IsSpent (left_to spares.new.items stage) }
{
    let first = spare_at(spares, stage).first;
    let left = spent(spare_at(spares, first), outcome);
    put(spares, first, left);
    left.values == 0 || left.failures == 0
}

/// With one value or one failure less.
#[inline(always)]
fn spent(spare: Spare, outcome: Option<Outcome>) -> Spare
    ensures first { result.first ≡ spare.first }
    ensures values { result.values ≡ spare.values - cond (has_value outcome) 1 0 }
    ensures failures { result.failures ≡ spare.failures - cond (has_failed outcome) 1 0 }
{
    match outcome {
        None => spare,
        Some(Outcome::Value(_)) => Spare {
            first: spare.first,
            values: spare.values.saturating_sub(1),
            failures: spare.failures,
        },
        Some(Outcome::Fault { .. }) => Spare {
            first: spare.first,
            values: spare.values,
            failures: spare.failures.saturating_sub(1),
        },
    }
}

/// What is kept at a stage.
#[inline(always)]
fn spare_at(spares: &Vec<Spare>, i: u16) -> Spare
    ensures { result ≡ spare_at spares.now.items i }
{
    if (i as usize) < spares.len() {
        spares[i as usize]
    } else {
        no_spare()
    }
}

/// Where nothing is kept.
fn no_spare() -> Spare
    ensures { result ≡ no_spare }
{
    led_by(65535)
}

/// Keeps this at a stage, if there is a place for it.
#[inline(always)]
fn put(spares: &mut Vec<Spare>, i: u16, spare: Spare)
    ensures { spares.new.items ≡ slice_set spares.old.items i spare }
{
    if (i as usize) < spares.len() {
        spares[i as usize] = spare;
    }
}

/// A join is set: its sources are followed, and it is tallied.
pub(crate) fn tally(teller: &Teller, followed: &mut BitSet, tallies: &mut Tallies, join: &Join)
    requires flags { length followed.old ≡ 4096 }
    requires there { All (λ i. i < 4096) (sources_of join.now) }
    requires join { IsJoin (stages_of teller.now.ledger) join.now }
    requires within { tallies.old.noted ≤ length (order_in teller.now) }
    requires led { AreLed followed.old tallies.old.spares.items }
    ensures marks { MarksAll (sources_of join.now) followed.old followed.new }
    ensures tallied { (follows : List Join) → AreMarked followed.old follows
        → TalliesFit follows followed.old tallies.old teller.now
        → TalliesFit (follows ++ join.now ∷ []) followed.new tallies.new teller.now }
{
    let _due = note(teller, followed, tallies);
    make_places(&mut tallies.spares, teller.stages() as usize);
    let left = left_of(teller, join);
    mark_sources(followed, &mut tallies.spares, join, left);
}

/// Makes a place for each of so many stages, as far as there is memory.
#[tactic(auto, using(crate::proofs::Tallied::spare_push))]
fn make_places(spares: &mut Vec<Spare>, count: usize)
    ensures { (i : ℕ) → spare_at spares.new.items i ≡ spare_at spares.old.items i }
{
    while spares.len() < count {
        match spares.push(no_spare()) {
            Ok(()) => {}
            Err(_) => return,
        }
    }
}

/// Notes that the sources of a join are followed. If they are all different, and of no other join, it has so much to
/// spare, and else nothing.
fn mark_sources(followed: &mut BitSet, spares: &mut Vec<Spare>, join: &Join, left: Spare)
    requires flags { length followed.old ≡ 4096 }
    requires there { All (λ i. i < 4096) (sources_of join.now) }
    requires led { AreLed followed.old spares.old.items }
    requires first { left.first ≡ join.now.source }
    ensures marks { MarksAll (sources_of join.now) followed.old followed.new }
    ensures led { AreLed followed.new spares.new.items }
    ensures less { AreLess followed.old spares.old.items spares.new.items }
    ensures spared { IsSpared spares.new.items join.now left }
{
    let first = join.source;
    let mut is_alone = mark(followed, spares, first, first);
    for source in &join.others {
        let is_own = mark(followed, spares, *source, first);
        is_alone = is_alone & is_own;
    }
    if is_alone {
        put(spares, first, left);
    } else {
        empty_at(spares, first);
    }
}

/// A stage is followed as a source of the join with this first source. It tells whether it wasn't followed before; if it
/// was, the join that it is of has nothing to spare from now on.
fn mark(followed: &mut BitSet, spares: &mut Vec<Spare>, stage: u16, first: u16) -> bool
    requires there { stage < length followed.old }
    ensures was { is_in_flags followed.old stage ≡ true
        → (followed.new ≡ followed.old) × Empties stage spares.old.items spares.new.items × (result ≡ false) }
    ensures wasnt { is_in_flags followed.old stage ≡ false
        → (followed.new ≡ slice_set followed.old stage true)
        × (spares.new.items ≡ slice_set spares.old.items stage (led_by first)) }
    ensures own { result ≡ true → (is_in_flags followed.old stage ≡ false) × (stage < length spares.old.items) }
{
    if followed.contains(stage) {
        empty(spares, stage);
        return false;
    }
    followed.insert(stage);
    put(spares, stage, led_by(first));
    (stage as usize) < spares.len()
}

/// The join with this first source has nothing to spare, as far as that stands here.
fn led_by(first: u16) -> Spare
    ensures { result ≡ led_by first }
{
    Spare {
        first,
        values: 0,
        failures: 0,
    }
}

/// What a stage's join has to spare is nothing from now on.
fn empty(spares: &mut Vec<Spare>, stage: u16)
    ensures { Empties stage spares.old.items spares.new.items }
{
    let first = spare_at(spares, stage).first;
    empty_at(spares, first);
}

/// Nothing is to spare here from now on.
fn empty_at(spares: &mut Vec<Spare>, i: u16)
    ensures { spares.new.items ≡ slice_set spares.old.items i (led_by (spare_at spares.old.items i).first) }
{
    let first = spare_at(spares, i).first;
    put(spares, i, led_by(first));
}
