//! Stages that gather any number of others.
//!
//! A stage that is attached has at most two sources. So one stage more joins each further source with what is gathered
//! so far.
ghost use Rattle.std.specs.Prelude.{◌≡◌, ◌↔◌, ◌+◌, ◌-◌, ◌<◌, ◌≤◌, All, IfErr, IfOk, IsTrue, length};
ghost use Rattle.cf_forms.specs.Plans.{sources_of};
ghost use Rattle.cf_ledger.specs.Ledgers.{stages_of, state_of};
ghost use Rattle.cf_request.specs.Attaching.{TellsAttach, TellsAttaches};
ghost use Rattle.cf_request.specs.Gathering.{MayGather, MayNotGather, attaches, first_two, form_of, gathers, joins, stages_for};

use crate::attaching::attach as attach_stage;
use crate::teller::Teller;
use cf_event::LAST_CALLER;
use cf_forms::{Form, Of};
use cf_ledger::LedgerFault;

/// When a stage over any number of sources settles.
#[derive(Clone, Copy, Debug, PartialEq, Eq)]
pub enum Gathering {
    /// Once all of them are settled: `allOf`.
    AllOf,
    /// Once one of them is settled: `anyOf`.
    AnyOf,
}

/// How many stages a caller may attach to gather these sources. It is refused for the first of: its caller's number, a
/// source that isn't there, the room.
pub(crate) fn check_gathering(
    teller: &Teller,
    who: u8,
    sources: &[u16],
) -> Result<usize, LedgerFault>
    ensures may { IfOk result (λ count. MayGather who sources.now (state_of teller.now.ledger)) }
    ensures count { IfOk result (λ count. count ≡ stages_for sources.now) }
    ensures why { IfErr result (λ fault. MayNotGather who sources.now (state_of teller.now.ledger) fault) }
{
    if who > LAST_CALLER {
        return Err(LedgerFault::NoEvent);
    }
    if !are_below(sources, teller.stages()) {
        return Err(LedgerFault::NoStage);
    }
    let count = stages_for(sources);
    if count > teller.ledger().room() as usize {
        return Err(LedgerFault::NoRoom);
    }
    Ok(count)
}

/// Whether each of these is one of so many stages.
fn are_below(sources: &[u16], stages: u16) -> bool
    ensures { IsTrue result ↔ All (λ i. i < stages) sources.now }
{
    sources.iter().all(|i| *i < stages)
}

/// How many stages gather these sources.
fn stages_for(sources: &[u16]) -> usize
    ensures { result ≡ stages_for sources.now }
{
    1 + sources.len().saturating_sub(2)
}

/// Attaches the stages that gather these sources, where memory was found for as many words. It tells the last one.
pub(crate) fn gather(teller: &mut Teller, who: u8, how: Gathering, sources: &[u16]) -> u16
    requires may { MayGather who sources.now (state_of teller.old.ledger) }
    requires memory { stages_for sources.now ≤ teller.old.ledger.free }
    ensures tells { TellsAttaches 0
        (gathers who how (stages_of teller.old.ledger) sources.now) teller.old teller.new }
    ensures root { result + 1 ≡ stages_of teller.new.ledger }
{
    let first = attach(teller, who, how, first_two(sources));
    join(teller, who, how, first, &sources[sources.len().min(2)..])
}

/// The first two of these, or as many as there are.
fn first_two(sources: &[u16]) -> Of
    ensures { result ≡ first_two sources.now }
{
    if sources.len() >= 2 {
        return Of::Two(sources[0], sources[1]);
    }
    if sources.len() == 1 {
        return Of::One(sources[0]);
    }
    Of::None
}

/// Attaches one stage more for each of these sources, which joins it with the stage before. It tells the last one.
fn join(teller: &mut Teller, who: u8, how: Gathering, before: u16, sources: &[u16]) -> u16
    requires caller { who ≤ 63 }
    requires before { before + 1 ≡ stages_of teller.old.ledger }
    requires there { All (λ i. i < stages_of teller.old.ledger) sources.now }
    requires room { length sources.now ≤ (state_of teller.old.ledger).plan.room }
    requires memory { length sources.now ≤ teller.old.ledger.free }
    ensures tells { TellsAttaches 0
        (joins who how (stages_of teller.old.ledger) before sources.now) teller.old teller.new }
    ensures root { result + 1 ≡ stages_of teller.new.ledger }
{
    let mut root = before;
    for source in sources {
        root = attach(teller, who, how, Of::Two(root, *source));
    }
    root
}

/// Attaches one stage over these, where memory was found for a word.
fn attach(teller: &mut Teller, who: u8, how: Gathering, of: Of) -> u16
    requires caller { who ≤ 63 }
    requires there { All (λ i. i < stages_of teller.old.ledger) (sources_of of) }
    requires room { 0 < (state_of teller.old.ledger).plan.room }
    requires memory { 0 < teller.old.ledger.free }
    ensures tells { TellsAttach 0 (attaches who how of) teller.old teller.new }
    ensures at { result ≡ stages_of teller.old.ledger }
    ensures next { stages_of teller.new.ledger ≡ result + 1 }
    ensures room { (state_of teller.new.ledger).plan.room + 1 ≡ (state_of teller.old.ledger).plan.room }
    ensures memory { teller.new.ledger.free + 1 ≡ teller.old.ledger.free }
{
    attach_stage(teller, who, form_of(how), of, None, 0)
}

/// The form of each stage that gathers so.
fn form_of(how: Gathering) -> Form
    ensures { result ≡ form_of how }
{
    match how {
        Gathering::AllOf => Form::AllOf,
        Gathering::AnyOf => Form::AnyOf,
    }
}
