//! The verdict over a whole history.
ghost use Rattle.std.specs.Prelude.{◌≡◌, ◌+◌, ◌↔◌, IfNone, IfOk, Some, length, true};
ghost use Rattle.cf_forms.specs.Plans.{has_place, with_room};
ghost use Rattle.cf_model.specs.States.{start};
ghost use Rattle.cf_model.specs.Events.{state_after};
ghost use Rattle.cf_model.specs.Ranges.{EventsFit};
ghost use Rattle.cf_event.specs.Decoding.{decoded};
ghost use Rattle.cf_history.specs.Callers.{IsJudged};
ghost use Rattle.cf_history.specs.declared.verdict.Verdict.TheVariants.{Fits};
ghost use Rattle.cf_history.specs.Histories.{FitsOneGraph, said};
ghost use Rattle.cf_history.specs.Verdicts.{IsEnd, IsVerdict, JudgesCallers, JudgesOutcomes, JudgesWords};

use crate::caller::{Judged, judge_caller};
use crate::events::{find_unfit, read_events};
use crate::history::{Caller, History};
use crate::outcomes::first_other;
use crate::verdict::{Unfit, Verdict};
use cf_core::Graph;
use cf_event::Record;
use cf_model::Event;
use cf_outcome::Outcome;
use cf_plan::Plan;
use std::alloc::{AllocError, Global};

/// Whether the records of a history are those of one sequential graph, which begins with this plan and has room for `room`
/// more stages. It fails only for want of memory.
#[tactic(auto, using(crate::proofs::Whole::both_ways))]
pub fn check(
    alloc: Global,
    plan: &Plan,
    room: u16,
    history: &History,
) -> Result<Verdict, AllocError>
    requires place { has_place plan.now.stages room ≡ true }
    ensures fits { IfOk result (λ verdict. (verdict ≡ Fits) ↔ FitsOneGraph (with_room plan.now room) history.now) }
    ensures tells { IfOk result (λ verdict. IsVerdict (with_room plan.now room) history.now verdict) }
{
    verdict(alloc, plan, room, history)
}

/// The verdict.
fn verdict(alloc: Global, plan: &Plan, room: u16, history: &History) -> Result<Verdict, AllocError>
    requires place { has_place plan.now.stages room ≡ true }
    ensures { IfOk result (λ verdict. IsVerdict (with_room plan.now room) history.now verdict) }
{
    let events = read_events(alloc, &history.words)?;
    verdict_on(alloc, plan, room, &events, history)
}

/// The verdict where these are the events of the words, up to the first that is no event's.
fn verdict_on(
    alloc: Global,
    plan: &Plan,
    room: u16,
    events: &[Event],
    history: &History,
) -> Result<Verdict, AllocError>
    requires place { has_place plan.now.stages room ≡ true }
    requires read { events.now ≡ decoded history.now.words.items }
    ensures { IfOk result (λ verdict. IsVerdict (with_room plan.now room) history.now verdict) }
{
    let mut graph = Graph::growing_of(alloc, plan, room)?;
    let verdict = judge_events(alloc, plan, room, &mut graph, events, history);
    drop(graph);
    verdict
}

/// The same by a graph at its start.
fn judge_events(
    alloc: Global,
    plan: &Plan,
    room: u16,
    graph: &mut Graph,
    events: &[Event],
    history: &History,
) -> Result<Verdict, AllocError>
    requires place { has_place plan.now.stages room ≡ true }
    requires start { graph.old.state ≡ start (with_room plan.now room) }
    requires read { events.now ≡ decoded history.now.words.items }
    ensures { IfOk result (λ verdict. IsVerdict (with_room plan.now room) history.now verdict) }
{
    let words = history.words.as_slice();
    let callers = history.callers.as_slice();
    match judge_words(graph, events, words, callers.len(), history.functions) {
        Some(told) => Ok(told),
        None => {
            let on_callers = judge_callers(alloc, plan, room, events, callers)?;
            match on_callers {
                Some(told) => Ok(told),
                None => Ok(judge_end(graph, history)),
            }
        }
    }
}

/// The verdict on the first word that can't stand there, if there is one. Else the graph has done all events.
fn judge_words(
    graph: &mut Graph,
    events: &[Event],
    words: &[u64],
    callers: usize,
    functions: u32,
) -> Option<Verdict>
    requires { events.now ≡ decoded words.now }
    ensures found { JudgesWords callers functions graph.old.state words.now events.now result }
    ensures state { IfNone result (graph.new.state ≡ state_after graph.old.state events.now) }
{
    match find_unfit(graph, events, callers, functions) {
        Some((k, why)) => Some(Verdict::Event { place: k + 1, why }),
        None => {
            if events.len() < words.len() {
                Some(Verdict::Event {
                    place: events.len() + 1,
                    why: Unfit::NoEvent,
                })
            } else {
                None
            }
        }
    }
}

/// The verdict on the first caller whose records don't fit these events, if there is one.
fn judge_callers(
    alloc: Global,
    plan: &Plan,
    room: u16,
    events: &[Event],
    callers: &[Caller],
) -> Result<Option<Verdict>, AllocError>
    requires place { has_place plan.now.stages room ≡ true }
    requires fits { EventsFit (start (with_room plan.now room)) events.now }
    ensures { IfOk result (JudgesCallers (start (with_room plan.now room)) events.now callers.now) }
{
    for (caller, own) in callers.iter().enumerate() {
        let judged = judge_one(alloc, plan, room, events, caller, &own.records)?;
        match judged {
            Judged::Fits => {}
            Judged::Record { record, why } => {
                return Ok(Some(Verdict::Record {
                    caller,
                    record,
                    why,
                }));
            }
            Judged::Missing { place } => return Ok(Some(Verdict::Missing { caller, place })),
        }
    }
    Ok(None)
}

/// What is found of one caller, read along these events from the start of the plan.
fn judge_one(
    alloc: Global,
    plan: &Plan,
    room: u16,
    events: &[Event],
    caller: usize,
    records: &[Record],
) -> Result<Judged, AllocError>
    requires place { has_place plan.now.stages room ≡ true }
    requires fits { EventsFit (start (with_room plan.now room)) events.now }
    ensures { IfOk result (IsJudged caller (start (with_room plan.now room)) events.now records.now) }
{
    let mut graph = Graph::growing_of(alloc, plan, room)?;
    let judged = judge_caller(&mut graph, events, caller, records);
    drop(graph);
    Ok(judged)
}

/// The verdict where all records fit.
fn judge_end(graph: &mut Graph, history: &History) -> Verdict
    ensures { IsEnd graph.old.state (said history.now) result }
{
    match judge_outcomes(graph, history) {
        Some(told) => told,
        None => Verdict::Fits,
    }
}

/// The verdict on the outcomes that a history says, where they aren't those of the graph.
fn judge_outcomes(graph: &mut Graph, history: &History) -> Option<Verdict>
    ensures { JudgesOutcomes graph.old.state (said history.now) result }
{
    match &history.outcomes {
        None => None,
        Some(outcomes) => judge_said(graph, outcomes),
    }
}

/// The same of outcomes that are said.
fn judge_said(graph: &mut Graph, outcomes: &[Option<Outcome>]) -> Option<Verdict>
    ensures { JudgesOutcomes graph.old.state (Some outcomes.now) result }
{
    let count = graph.stages() as usize;
    if outcomes.len() != count {
        return Some(Verdict::Stages { count });
    }
    let (stage, outcome) = first_other(graph, outcomes)?;
    Some(Verdict::Outcome { stage, outcome })
}
