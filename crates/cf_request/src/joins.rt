//! Stages that end by what other stages of the same request end as.
ghost use Rattle.std.specs.Prelude.{◌≡◌, ◌↔◌, ◌+◌, ◌^◌, ◌<◌, ◌≤◌, cond, false, IfErr, IfNone, IfSome, IsTrue, OnOk, length};
ghost use Rattle.cf_outcome.specs.declared.outcome.Outcome.TheVariants.{Fault};
ghost use Rattle.cf_ledger.specs.Ledgers.{stages_of, state_of};
ghost use Rattle.cf_model.specs.States.{outcome_in};
ghost use Rattle.cf_request.specs.Joins.{AreAllThere, IsDecided, IsDueBy, IsJoin, IsQuorum, IsUndecided, MayNotJoin, ending_by, ending_of, failures_by, has_failed, has_value, sources_of, times_in, value_by, values_by};
ghost use Rattle.cf_request.specs.Relays.{IsNotBehind};
ghost use Rattle.cf_request.specs.Settling.{IsOpen};
ghost use Rattle.cf_request.specs.Tallies.{MaySpare};
ghost use Rattle.cf_request.specs.Telling.{order_in};

use crate::faults::JoinFault;
use crate::settling::Due;
use crate::tallies::Spare;
use crate::teller::Teller;
use cf_outcome::{Cause, Outcome, Value};

/// A stage that ends as soon as it is decided what a number of other stages come to.
///
/// The others, of which there is one at least, are its sources. One that stands twice counts twice. The stage ends with
/// a value once so many of them have values as are wanted: with the value of the one that decides it if one is wanted,
/// else with nil. It ends with a raw fault of the same cause once so many have failed that the others are too few. One
/// that cancels is cancelled in either case.
#[derive(Drop)]
pub struct Join {
    pub stage: u16,
    pub wanted: u16,
    pub source: u16,
    pub others: Vec<u16>,
    pub cancels: bool,
}

/// How many sources have values, and how many have failed.
#[derive(Clone, Copy)]
struct Tally {
    values: usize,
    failures: usize,
}

/// What a join ends with, if it is open and decided.
pub(crate) fn due_by(teller: &Teller, join: &Join) -> Option<Due>
    requires join { IsJoin (stages_of teller.now.ledger) join.now }
    ensures is_open { IfSome result (λ d. IsOpen (state_of teller.now.ledger) d.stage) }
    ensures due { IfSome result (λ d.
        IsDueBy (state_of teller.now.ledger).stages (order_in teller.now) join.now d) }
    ensures none { IfNone result (IsNotBehind (state_of teller.now.ledger).stages join.now) }
{
    if teller.outcome(join.stage).is_some() {
        return None;
    }
    let Some(outcome) = decided(teller, join) else {
        return None;
    };
    Some(Due {
        stage: join.stage,
        outcome: ending(join, outcome),
    })
}

/// The outcome of the stage that decides a join, if it is decided. It looks at each source, and if it is decided at the
/// settled stages from the last one back to the one that decides it.
fn decided(teller: &Teller, join: &Join) -> Option<Outcome>
    requires join { IsJoin (stages_of teller.now.ledger) join.now }
    ensures decided { IfSome result (λ o.
        IsDecided (state_of teller.now.ledger).stages (order_in teller.now) join.now o) }
    ensures none { IfNone result (IsUndecided (outcome_in (state_of teller.now.ledger).stages) join.now) }
{
    if join.others.is_empty() {
        return decided_by_one(teller, join);
    }
    let tally = tally_of(teller, join);
    if is_undecided(join, tally) {
        return None;
    }
    decided_in_order(teller, join, tally)
}

/// The same where it has one source.
fn decided_by_one(teller: &Teller, join: &Join) -> Option<Outcome>
    requires join { IsJoin (stages_of teller.now.ledger) join.now }
    requires one { length (sources_of join.now) ≡ 1 }
    ensures decided { IfSome result (λ o.
        IsDecided (state_of teller.now.ledger).stages (order_in teller.now) join.now o) }
    ensures none { IfNone result (IsUndecided (outcome_in (state_of teller.now.ledger).stages) join.now) }
{
    let _known = teller.settled();
    teller.outcome(join.source)
}

/// The same where it is decided, and all its sources are counted: by a look at the settled stages, from the last one back
/// to the one without which it is undecided.
fn decided_in_order(teller: &Teller, join: &Join, all: Tally) -> Option<Outcome>
    requires join { IsJoin (stages_of teller.now.ledger) join.now }
    requires values { all.values ≡ values_by (outcome_in (state_of teller.now.ledger).stages) (sources_of join.now) }
    requires failures { all.failures
        ≡ failures_by (outcome_in (state_of teller.now.ledger).stages) (sources_of join.now) }
    requires decided { ¬ IsUndecided (outcome_in (state_of teller.now.ledger).stages) join.now }
    ensures decided { IfSome result (λ o.
        IsDecided (state_of teller.now.ledger).stages (order_in teller.now) join.now o) }
    ensures none { IfNone result (IsUndecided (outcome_in (state_of teller.now.ledger).stages) join.now) }
{
    let order = teller.settled();
    let mut tally = all;
    let mut place = order.len();
    while place > 0 {
        place -= 1;
        let by = order[place];
        let outcome = teller.outcome(by);
        let times = times_in(join, by);
        tally = without(tally, outcome, times);
        if is_undecided(join, tally) {
            return outcome;
        }
    }
    None
}

/// How many sources of a join have values by now, and how many have failed.
fn tally_of(teller: &Teller, join: &Join) -> Tally
    requires join { IsJoin (stages_of teller.now.ledger) join.now }
    ensures values { result.values
        ≡ values_by (outcome_in (state_of teller.now.ledger).stages) (sources_of join.now) }
    ensures failures { result.failures
        ≡ failures_by (outcome_in (state_of teller.now.ledger).stages) (sources_of join.now) }
{
    let none = Tally {
        values: 0,
        failures: 0,
    };
    let mut tally = counted(none, teller.outcome(join.source));
    for source in &join.others {
        let outcome = teller.outcome(*source);
        tally = counted(tally, outcome);
    }
    tally
}

/// How many values and failures more a join can get until one of them may decide it, or none where it is decided.
pub(crate) fn left_of(teller: &Teller, join: &Join) -> Spare
    requires join { IsJoin (stages_of teller.now.ledger) join.now }
    ensures first { result.first ≡ join.now.source }
    ensures left { MaySpare (outcome_in (state_of teller.now.ledger).stages) join.now result }
{
    let tally = tally_of(teller, join);
    if !is_undecided(join, tally) {
        return Spare {
            first: join.source,
            values: 0,
            failures: 0,
        };
    }
    let wanted = join.wanted as usize;
    Spare {
        first: join.source,
        values: at_most(wanted - tally.values),
        failures: at_most(2 + join.others.len() - wanted - tally.failures),
    }
}

/// So many, or as many as there can be.
fn at_most(count: usize) -> u16
    ensures { result ≤ count }
{
    count.min(65535) as u16
}

/// With one source more.
fn counted(tally: Tally, outcome: Option<Outcome>) -> Tally
    requires values { tally.values + 1 < 2 ^ 64 }
    requires failures { tally.failures + 1 < 2 ^ 64 }
    ensures values { result.values ≡ tally.values + cond (has_value outcome) 1 0 }
    ensures failures { result.failures ≡ tally.failures + cond (has_failed outcome) 1 0 }
{
    match outcome {
        None => tally,
        Some(Outcome::Value(_)) => Tally {
            values: tally.values + 1,
            failures: tally.failures,
        },
        Some(Outcome::Fault { .. }) => Tally {
            values: tally.values,
            failures: tally.failures + 1,
        },
    }
}

/// Without a stage that is counted, and stands so often among the sources.
fn without(tally: Tally, outcome: Option<Outcome>, times: usize) -> Tally
    requires values { cond (has_value outcome) times 0 ≤ tally.values }
    requires failures { cond (has_failed outcome) times 0 ≤ tally.failures }
    ensures values { tally.values ≡ result.values + cond (has_value outcome) times 0 }
    ensures failures { tally.failures ≡ result.failures + cond (has_failed outcome) times 0 }
{
    match outcome {
        None => tally,
        Some(Outcome::Value(_)) => Tally {
            values: tally.values - times,
            failures: tally.failures,
        },
        Some(Outcome::Fault { .. }) => Tally {
            values: tally.values,
            failures: tally.failures - times,
        },
    }
}

/// Whether a join is undecided by so much: fewer have values than it wants, and it can spare those that have failed.
fn is_undecided(join: &Join, tally: Tally) -> bool
    requires enough { join.now.wanted ≤ length (sources_of join.now) }
    ensures { IsTrue result ↔ (tally.values < join.now.wanted)
        × (join.now.wanted + tally.failures ≤ length (sources_of join.now)) }
{
    let wanted = join.wanted as usize;
    tally.values < wanted && tally.failures <= 1 + join.others.len() - wanted
}

/// How often a stage stands among the sources of a join.
fn times_in(join: &Join, stage: u16) -> usize
    ensures { result ≡ times_in stage (sources_of join.now) }
{
    let mut count: usize = if join.source == stage { 1 } else { 0 };
    for source in &join.others {
        if *source == stage {
            count += 1;
        }
    }
    count
}

/// What a join ends with by a stage with this outcome.
fn ending(join: &Join, outcome: Outcome) -> Outcome
    ensures { result ≡ ending_by join.now outcome }
{
    if join.cancels {
        return raw(Cause::Cancelled);
    }
    ending_of(join, outcome)
}

/// The same where it doesn't cancel.
fn ending_of(join: &Join, outcome: Outcome) -> Outcome
    ensures { result ≡ ending_of join.now outcome }
{
    match outcome {
        Outcome::Value(value) => Outcome::Value(value_of(join, value)),
        Outcome::Fault { cause, .. } => raw(cause),
    }
}

/// A raw fault of this cause.
fn raw(cause: Cause) -> Outcome
    ensures { result ≡ Fault cause false }
{
    Outcome::Fault {
        cause,
        wrapped: false,
    }
}

/// The value itself, if a join wants one alone.
fn value_of(join: &Join, value: Value) -> Value
    ensures { result ≡ value_by join.now value }
{
    if join.wanted == 1 { value } else { Value::Nil }
}

/// Whether a stage can be a join. It is refused for the first of: a stage that isn't there, a number that is 0 or more
/// than all.
pub(crate) fn check_join(teller: &Teller, join: &Join) -> Result<(), JoinFault>
    ensures may { OnOk result (IsJoin (stages_of teller.now.ledger) join.now) }
    ensures few { OnOk result (stages_of teller.now.ledger ≤ 4096) }
    ensures why { IfErr result (λ fault. MayNotJoin (stages_of teller.now.ledger) join.now fault) }
{
    if !are_all_there(join, teller.stages()) {
        return Err(JoinFault::NoStage);
    }
    if !is_quorum(join) {
        return Err(JoinFault::NoQuorum);
    }
    Ok(())
}

/// Whether a join and its sources are among so many stages.
fn are_all_there(join: &Join, stages: u16) -> bool
    ensures { IsTrue result ↔ AreAllThere stages join.now }
{
    if join.stage >= stages || join.source >= stages {
        return false;
    }
    for source in &join.others {
        if *source >= stages {
            return false;
        }
    }
    true
}

/// Whether a join wants one of its sources at least, and all at most.
fn is_quorum(join: &Join) -> bool
    ensures { IsTrue result ↔ IsQuorum join.now }
{
    0 < join.wanted && join.wanted as usize <= 1 + join.others.len()
}
