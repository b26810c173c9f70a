//! Which stage is to be told of next.
ghost use Rattle.std.specs.Prelude.{◌≡◌, ◌≢◌, ◌⊎◌, ◌<◌, ◌≤◌, All, IfNone, IfSome, None, Some, is_some, length, true};
ghost use Rattle.std.specs.Bool.{OnFalse, OnTrue};
ghost use Rattle.cf_model.specs.States.{outcome_at};
ghost use Rattle.cf_ledger.specs.Ledgers.{stages_of as ledger_stages, state_of as ledger_state};
ghost use Rattle.cf_row.specs.Grants.{IsGrantedTo};
ghost use Rattle.cf_row.specs.Rows.{stages_of};
ghost use Rattle.cf_part.specs.Answers.{IsRunningIn};
ghost use Rattle.cf_part.specs.Parts.{is_waited};
ghost use Rattle.cf_part.specs.Steps.{IsGrantedWith, IsToCall, IsToShow, IsToStop, NoneToCall, NoneToShow, NoneToStop, ShowsIn, grant_of, is_time};

use crate::progress::Progress;
use crate::question::Fault;
use crate::step::Shown;
use cf_event::Record;
use cf_forms::Args;
use cf_ledger::Ledger;
use cf_model::{Claimed, Event, Reply};
use cf_row::Replica;

/// The lowest stage that somebody waits for, for which it is time, and that is settled; behind a fault, the lowest that somebody waits
/// for.
pub(crate) fn to_show(
    wanted: &[Option<u64>],
    is_broken: bool,
    now: u64,
    ledger: &Ledger,
) -> Option<u16>
    requires few { length wanted.now ≤ 4096 }
    ensures is { IfSome result (λ i. IsToShow wanted.now is_broken now (ledger_state ledger.now) i) }
    ensures there { IfSome result (λ i. i < length wanted.now) }
    ensures stage { IfSome result (λ i. (is_broken ≡ true) ⊎ (i < ledger_stages ledger.now)) }
    ensures lowest { IfSome result (λ i. NoneToShow wanted.now is_broken now (ledger_state ledger.now) i) }
    ensures none { IfNone result (NoneToShow wanted.now is_broken now (ledger_state ledger.now) (length wanted.now)) }
{
    for stage in 0..wanted.len() as u16 {
        if is_to_show(wanted, is_broken, now, ledger, stage) {
            return Some(stage);
        }
    }
    None
}

/// Whether somebody waits for a stage, it is time, and the stage is settled; or there is a fault.
fn is_to_show(
    wanted: &[Option<u64>],
    is_broken: bool,
    now: u64,
    ledger: &Ledger,
    stage: u16,
) -> bool
    requires { stage < length wanted.now }
    ensures is { OnTrue result (IsToShow wanted.now is_broken now (ledger_state ledger.now) stage) }
    ensures there { OnTrue result ((is_broken ≡ true) ⊎ (stage < ledger_stages ledger.now)) }
    ensures none { OnFalse result (¬ IsToShow wanted.now is_broken now (ledger_state ledger.now) stage) }
{
    is_time(is_broken, now, wanted[stage as usize]) && (is_broken || is_settled(ledger, stage))
}

/// Whether somebody who waits is told by now.
fn is_time(is_broken: bool, now: u64, wanted: Option<u64>) -> bool
    ensures { result ≡ is_time is_broken now wanted }
{
    match wanted {
        Some(from) => is_broken || from <= now,
        None => false,
    }
}

/// Whether a stage is there and settled.
fn is_settled(ledger: &Ledger, stage: u16) -> bool
    ensures settled { OnTrue result (outcome_at (ledger_state ledger.now) stage ≢ None) }
    ensures there { OnTrue result (stage < ledger_stages ledger.now) }
    ensures open { OnFalse result (outcome_at (ledger_state ledger.now) stage ≡ None) }
{
    stage < ledger.stages() && ledger.outcome(stage).is_some()
}

/// Whether somebody waits for a stage.
pub(crate) fn is_waited(wanted: &[Option<u64>]) -> bool
    ensures { result ≡ is_waited wanted.now }
{
    for from in wanted {
        if from.is_some() {
            return true;
        }
    }
    false
}

/// The lowest stage whose function runs and that is settled.
pub(crate) fn to_stop(calls: &[Progress], ledger: &Ledger) -> Option<u16>
    requires few { length calls.now ≤ 4096 }
    ensures is { IfSome result (λ i. IsToStop calls.now (ledger_state ledger.now) i) }
    ensures there { IfSome result (λ i. i < length calls.now) }
    ensures lowest { IfSome result (λ i. NoneToStop calls.now (ledger_state ledger.now) i) }
    ensures none { IfNone result (NoneToStop calls.now (ledger_state ledger.now) (length calls.now)) }
{
    for stage in 0..calls.len() as u16 {
        if is_to_stop(calls, ledger, stage) {
            return Some(stage);
        }
    }
    None
}

/// Whether the function of a stage runs, and that is settled.
fn is_to_stop(calls: &[Progress], ledger: &Ledger, stage: u16) -> bool
    requires { stage < length calls.now }
    ensures is { OnTrue result (IsToStop calls.now (ledger_state ledger.now) stage) }
    ensures none { OnFalse result (¬ IsToStop calls.now (ledger_state ledger.now) stage) }
{
    match calls[stage as usize] {
        Progress::Runs => is_settled(ledger, stage),
        _ => false,
    }
}

/// The lowest stage that the session has and whose function wasn't called.
pub(crate) fn to_call(calls: &[Progress], replica: &Replica) -> Option<u16>
    requires places { stages_of replica.now ≤ length calls.now }
    ensures is { IfSome result (λ i. IsToCall calls.now replica.now i) }
    ensures there { IfSome result (λ i. i < stages_of replica.now) }
    ensures lowest { IfSome result (λ i. NoneToCall calls.now replica.now i) }
    ensures none { IfNone result (NoneToCall calls.now replica.now (stages_of replica.now)) }
{
    let session = replica.session();
    let mut from = 0;
    while let Some(stage) = replica.held(session, from) {
        if is_new(calls[stage as usize]) {
            return Some(stage);
        }
        from = stage + 1;
    }
    None
}

/// Whether a function wasn't called.
fn is_new(call: Progress) -> bool
    ensures new { OnTrue result (call ≡ Progress.NotCalled) }
    ensures other { OnFalse result (call ≢ Progress.NotCalled) }
{
    match call {
        Progress::NotCalled => true,
        _ => false,
    }
}

/// Whether the function of a stage was called and hasn't ended.
pub(crate) fn is_running(calls: &[Progress], stage: u16) -> bool
    ensures runs { OnTrue result (IsRunningIn calls.now stage) }
    ensures none { OnFalse result (¬ IsRunningIn calls.now stage) }
{
    let place = stage as usize;
    if place >= calls.len() {
        return false;
    }
    match calls[place] {
        Progress::Runs | Progress::Stopped => true,
        Progress::NotCalled | Progress::Ended => false,
    }
}

/// What the claim of a stage was granted with, by a session's records.
pub(crate) fn args_of(records: &[Record], stage: u16) -> Option<Args>
    ensures is { IfSome result (λ args. IsGrantedWith records.now stage args) }
    ensures none { IfNone result (All (λ r. grant_of stage r ≡ None) records.now) }
{
    for record in records {
        match grant_of(record, stage) {
            Some(args) => return Some(args),
            None => {}
        }
    }
    None
}

/// What the claim of a stage was granted with, if a record is of that.
fn grant_of(entry: &Record, stage: u16) -> Option<Args>
    ensures { result ≡ grant_of stage entry.now }
{
    match *entry {
        Record::Did { event, reply, .. } => match (event, reply) {
            (Event::Claim { stage: claimed, .. }, Reply::Claim(Claimed::Granted(args)))
                if claimed == stage => Some(args),
            _ => None,
        },
        _ => None,
    }
}

/// What the session's claim of a stage was granted with, which it has.
pub(crate) fn args_for(replica: &Replica, stage: u16) -> Args
    requires { IsGrantedTo replica.now replica.now.session stage }
    ensures { IsGrantedWith replica.now.records stage result }
{
    let _ = replica.ledger();
    let Some(args) = args_of(replica.records(), stage) else {
        unreachable!();
    };
    args
}

/// What those are told who wait for a stage: the fault, if there is one, or else its outcome.
pub(crate) fn shown(ledger: &Ledger, fault: Option<Fault>, stage: u16) -> Shown
    requires there { (is_some fault ≡ true) ⊎ (stage < ledger_stages ledger.now) }
    requires settled { (is_some fault ≡ true) ⊎ (outcome_at (ledger_state ledger.now) stage ≢ None) }
    ensures { ShowsIn (ledger_state ledger.now) fault stage result }
{
    if let Some(fault) = fault {
        return Shown::Fault(fault);
    }
    let Some(outcome) = ledger.outcome(stage) else {
        unreachable!();
    };
    Shown::Outcome(outcome)
}
