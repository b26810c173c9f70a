//! The replies that nobody knows, by the sequential graph.
ghost use Rattle.std.specs.Prelude.{◌≡◌, ◌↔◌, [], All, IfOk, IsTrue, false, get_or, map, true};
ghost use Rattle.cf_forms.specs.Plans.{has_place, with_room};
ghost use Rattle.cf_model.specs.Ranges.{EventsFit};
ghost use Rattle.cf_model.specs.States.{start};
ghost use Rattle.cf_model.specs.declared.events.Reply.TheVariants.{Flag};
ghost use Rattle.cf_event.specs.Decoding.{decoded};
ghost use Rattle.cf_event.specs.Words.{IsEvent};
ghost use Rattle.cf_history.specs.Shared.{AreFilledBy, AreReplies, AreTaken, Fills, FitsJustAs, FitsWithSomeReplies, HasGraphsReplies, HaveGraphsReplies, IsSharedVerdict, all_filled, entries_of, filled, merged_all, records_of, replies_at};
ghost use Rattle.cf_history.specs.declared.verdict.Verdict.TheVariants.{Fits};

use crate::checking::check;
use crate::events::{find_unfit, read_events};
use crate::history::{Caller, History};
use crate::merging::merge_all;
use crate::shared::{Entry, Session, SharedCaller, SharedHistory};
use crate::verdict::Verdict;
use cf_core::Graph;
use cf_event::Record;
use cf_model::{Event, Reply};
use cf_plan::Plan;
use std::alloc::{AllocError, Global};

/// Whether some replies, put in where none is known, make what sessions tell a history of one sequential graph, with the
/// verdict of `check`. It fails only for want of memory.
pub fn check_shared(
    alloc: Global,
    plan: &Plan,
    room: u16,
    shared: SharedHistory,
) -> Result<Verdict, AllocError>
    requires place { has_place plan.now.stages room ≡ true }
    ensures fits { IfOk result (λ verdict. (verdict ≡ Fits) ↔ FitsWithSomeReplies (with_room plan.now room) shared) }
    ensures tells { IfOk result (λ verdict. IsSharedVerdict (with_room plan.now room) shared verdict) }
{
    let history = fill_in(alloc, plan, room, shared)?;
    let verdict = check(alloc, plan, room, &history);
    drop(history);
    verdict
}

/// What sessions tell, as a history. The records of a caller are those of its sessions, by their places. A reply that nobody
/// knows is the sequential graph's, if the words are events that it takes. It fails only for want of memory.
pub fn fill_in(
    alloc: Global,
    plan: &Plan,
    room: u16,
    shared: SharedHistory,
) -> Result<History, AllocError>
    requires place { has_place plan.now.stages room ≡ true }
    ensures fills { IfOk result (λ history. Fills shared history) }
    ensures replies { IfOk result (λ history. HasGraphsReplies (with_room plan.now room) shared history) }
    ensures fits { IfOk result (FitsJustAs (with_room plan.now room) shared) }
{
    let history = filled_in(alloc, plan, room, shared)?;
    Ok(history)
}

/// The same history.
fn filled_in(
    alloc: Global,
    plan: &Plan,
    room: u16,
    shared: SharedHistory,
) -> Result<History, AllocError>
    requires place { has_place plan.now.stages room ≡ true }
    ensures fills { IfOk result (λ history. Fills shared history) }
    ensures replies { IfOk result (λ history. HasGraphsReplies (with_room plan.now room) shared history) }
{
    match filled_callers(alloc, plan, room, &shared) {
        Ok(callers) => Ok(of_callers(shared, callers)),
        Err(refused) => {
            drop(shared);
            Err(refused)
        }
    }
}

/// The same records, by their callers.
fn filled_callers(
    alloc: Global,
    plan: &Plan,
    room: u16,
    shared: &SharedHistory,
) -> Result<Vec<Caller>, AllocError>
    requires place { has_place plan.now.stages room ≡ true }
    ensures fills { IfOk result (λ callers. AreFilledBy shared.now callers.items) }
    ensures replies { IfOk result (λ callers. HaveGraphsReplies (with_room plan.now room) shared.now callers.items) }
{
    let callers = shared.callers.as_slice();
    let replies = known_replies(
        alloc,
        plan,
        room,
        &shared.words,
        callers.len(),
        shared.functions,
    )?;
    let filled = fill_callers(alloc, &replies, callers)?;
    Ok(filled)
}

/// What sessions tell, with these for its callers.
fn of_callers(shared: SharedHistory, callers: Vec<Caller>) -> History
    ensures callers { result.callers ≡ callers }
    ensures functions { result.functions ≡ shared.functions }
    ensures words { result.words ≡ shared.words }
    ensures outcomes { result.outcomes ≡ shared.outcomes }
{
    let SharedHistory {
        functions,
        words,
        callers: _,
        outcomes,
    } = shared;
    History {
        functions,
        words,
        callers,
        outcomes,
    }
}

/// What the graph replies to the events of these words, by their places, where it takes them.
fn known_replies(
    alloc: Global,
    plan: &Plan,
    room: u16,
    words: &[u64],
    callers: usize,
    functions: u32,
) -> Result<Vec<Reply>, AllocError>
    requires place { has_place plan.now.stages room ≡ true }
    ensures { IfOk result (λ v. AreReplies callers functions (with_room plan.now room) (decoded words.now) v.items) }
{
    let events = read_events(alloc, words)?;
    replies_where_fit(alloc, plan, room, &events, callers, functions)
}

/// What the graph of a plan replies to these events that have words, where it takes them.
fn replies_where_fit(
    alloc: Global,
    plan: &Plan,
    room: u16,
    events: &[Event],
    callers: usize,
    functions: u32,
) -> Result<Vec<Reply>, AllocError>
    requires place { has_place plan.now.stages room ≡ true }
    requires words { All IsEvent events.now }
    ensures { IfOk result (λ v. AreReplies callers functions (with_room plan.now room) events.now v.items) }
{
    if all_fit(alloc, plan, room, events, callers, functions)? {
        replies_anew(alloc, plan, room, events)
    } else {
        Ok(Vec::new(alloc))
    }
}

/// Whether the graph of a plan takes these events that have words.
fn all_fit(
    alloc: Global,
    plan: &Plan,
    room: u16,
    events: &[Event],
    callers: usize,
    functions: u32,
) -> Result<bool, AllocError>
    requires place { has_place plan.now.stages room ≡ true }
    requires words { All IsEvent events.now }
    ensures { IfOk result (λ fit. IsTrue fit ↔ AreTaken callers functions (with_room plan.now room) events.now) }
{
    let mut graph = Graph::growing_of(alloc, plan, room)?;
    let unfit = find_unfit(&mut graph, events, callers, functions);
    drop(graph);
    match unfit {
        Some((_k, _why)) => Ok(false),
        None => Ok(true),
    }
}

/// What the graph of a plan replies to these events.
fn replies_anew(
    alloc: Global,
    plan: &Plan,
    room: u16,
    events: &[Event],
) -> Result<Vec<Reply>, AllocError>
    requires place { has_place plan.now.stages room ≡ true }
    requires fits { EventsFit (start (with_room plan.now room)) events.now }
    ensures { IfOk result (λ replies. replies.items ≡ replies_at (start (with_room plan.now room)) events.now) }
{
    let mut graph = Graph::growing_of(alloc, plan, room)?;
    let replies = replies_of(alloc, &mut graph, events);
    drop(graph);
    replies
}

/// What a graph replies to each of these events, behind one that stands for place 0.
fn replies_of(alloc: Global, graph: &mut Graph, events: &[Event]) -> Result<Vec<Reply>, AllocError>
    requires { EventsFit graph.old.state events.now }
    ensures { IfOk result (λ replies. replies.items ≡ replies_at graph.old.state events.now) }
{
    let mut replies = Vec::new(alloc);
    replies.push(Reply::Flag(false))?;
    for event in events {
        replies.push(graph.answer(event))?;
    }
    Ok(replies)
}

/// The records of each of these callers.
fn fill_callers(
    alloc: Global,
    replies: &[Reply],
    callers: &[SharedCaller],
) -> Result<Vec<Caller>, AllocError>
    ensures { IfOk result (λ filled. records_of filled.items ≡ all_filled replies.now (entries_of callers.now)) }
{
    let mut told = Vec::new(alloc);
    for caller in callers {
        let records = fill_caller(alloc, replies, &caller.sessions)?;
        told.push(Caller { records })?;
    }
    Ok(told)
}

/// The records of a caller of these sessions.
fn fill_caller(
    alloc: Global,
    replies: &[Reply],
    sessions: &[Session],
) -> Result<Vec<Record>, AllocError>
    ensures { IfOk result (λ records. records.items ≡ map (filled replies.now) (merged_all [] sessions.now)) }
{
    let entries = merge_all(alloc, sessions)?;
    fill(alloc, replies, &entries)
}

/// These entries with the replies at their places.
fn fill(alloc: Global, replies: &[Reply], entries: &[Entry]) -> Result<Vec<Record>, AllocError>
    ensures { IfOk result (λ records. records.items ≡ map (filled replies.now) entries.now) }
{
    let mut records = Vec::new(alloc);
    for entry in entries {
        records.push(filled(replies, entry))?;
    }
    Ok(records)
}

/// An entry with the reply at its place.
fn filled(replies: &[Reply], entry: &Entry) -> Record
    ensures { result ≡ filled replies.now entry.now }
{
    match *entry {
        Entry::Known(record) => record,
        Entry::Unanswered { place, event } => Record::Did {
            place,
            event,
            reply: reply_at(replies, place),
        },
    }
}

/// The reply at a place, and any where there is none.
fn reply_at(replies: &[Reply], place: usize) -> Reply
    ensures { result ≡ get_or replies.now place (Flag false) }
{
    if place < replies.len() {
        replies[place]
    } else {
        Reply::Flag(false)
    }
}
