//! One caller's records, read along a history.
ghost use Rattle.std.specs.Prelude.{◌≡◌, ◌<◌, ◌≤◌, ◌↔◌, [], IsTrue, length, take, drop};
ghost use Rattle.cf_model.specs.Ranges.{AskFits, EventsFit};
ghost use Rattle.cf_event.specs.Events.{own};
ghost use Rattle.cf_event.specs.Words.{IsEvent};
ghost use Rattle.cf_history.specs.Records.{state_in};
ghost use Rattle.cf_history.specs.Callers.{IsJudged};
ghost use Rattle.cf_history.specs.Verdicts.{IsNext, IsOwnAt, IsRead};
ghost use Rattle.cf_event.specs.declared.record.Record.TheVariants.{Did, Saw};

use crate::verdict::Misfit;
use cf_core::Graph;
use cf_event::{Record, encode, is_event};
use cf_model::{Ask, Event, Reply, Told};

/// What is found of one caller.
#[derive(Clone, Copy)]
pub(crate) enum Judged {
    /// All its records fit, and each of its events is one of them.
    Fits,
    /// This record doesn't fit, and those before it do.
    Record { record: usize, why: Misfit },
    /// Its records fit, and its event at this place is none of them.
    Missing { place: usize },
}

/// Reads a caller's records along a history, from the state of the graph on.
pub(crate) fn judge_caller(
    graph: &mut Graph,
    history: &[Event],
    caller: usize,
    records: &[Record],
) -> Judged
    requires { EventsFit graph.old.state history.now }
    ensures { IsJudged caller graph.old.state history.now records.now result }
{
    let mut at = 0;
    for (k, record) in records.iter().enumerate() {
        match judge_record(graph, &history[at..], at, caller, record) {
            Ok(()) => at = record.place(),
            Err(why) => return Judged::Record { record: k, why },
        }
    }
    let rest = &history[at..];
    let none = pass_by(graph, rest, rest.len(), caller);
    if none < rest.len() {
        Judged::Missing {
            place: at + none + 1,
        }
    } else {
        Judged::Fits
    }
}

/// Reads one record, where `at` events have come, and leaves the graph as the events up to the record's place do.
fn judge_record(
    graph: &mut Graph,
    rest: &[Event],
    at: usize,
    caller: usize,
    told: &Record,
) -> Result<(), Misfit>
    requires { EventsFit graph.old.state rest.now }
    ensures { IsRead caller graph.old.state rest.now at told.now result graph.new.state }
{
    match *told {
        Record::Did {
            place,
            event,
            reply,
        } => judge_call(graph, rest, at, caller, place, event, reply),
        Record::Saw { place, ask, told } => {
            judge_question(graph, rest, at, caller, place, ask, told)
        }
    }
}

/// Reads the record of a changing call.
fn judge_call(
    graph: &mut Graph,
    rest: &[Event],
    at: usize,
    caller: usize,
    place: usize,
    event: Event,
    reply: Reply,
) -> Result<(), Misfit>
    requires { EventsFit graph.old.state rest.now }
    ensures { IsRead caller graph.old.state rest.now at (Did place event reply) result graph.new.state }
{
    if place <= at {
        return Err(Misfit::Before);
    }
    let n = place - at - 1;
    if n >= rest.len() {
        return Err(Misfit::Behind);
    }
    let passed = pass_by(graph, rest, n, caller);
    if passed < n {
        return Err(Misfit::Skips(at + passed + 1));
    }
    if !is_own_at(rest, n, &event, caller) {
        return Err(Misfit::Other);
    }
    let given = graph.answer(&event);
    if is_reply(given, reply) {
        Ok(())
    } else {
        Err(Misfit::Reply(given))
    }
}

/// Whether the event behind the first `n` is this one, and is the caller's.
fn is_own_at(rest: &[Event], n: usize, event: &Event, caller: usize) -> bool
    requires { n < length rest.now }
    ensures { IsTrue result ↔ IsOwnAt caller rest.now n event.now }
{
    let there = rest[n];
    event.who() as usize == caller && is_same(&there, event)
}

/// Whether two events are the same one that has a word.
fn is_same(there: &Event, event: &Event) -> bool
    ensures { IsTrue result ↔ ((there.now ≡ event.now) × IsEvent event.now) }
{
    is_event(event) && is_event(there) && encode(there) == encode(event)
}

/// Whether the reply that was given is the one that is told.
fn is_reply(given: Reply, told: Reply) -> bool
    ensures { IsTrue result ↔ (given ≡ told) }
{
    given == told
}

/// Reads the record of a question.
fn judge_question(
    graph: &mut Graph,
    rest: &[Event],
    at: usize,
    caller: usize,
    place: usize,
    ask: Ask,
    told: Told,
) -> Result<(), Misfit>
    requires { EventsFit graph.old.state rest.now }
    ensures { IsRead caller graph.old.state rest.now at (Saw place ask told) result graph.new.state }
{
    if place < at {
        return Err(Misfit::Before);
    }
    let n = place - at;
    if n > rest.len() {
        return Err(Misfit::Behind);
    }
    let passed = pass_by(graph, rest, n, caller);
    if passed < n {
        return Err(Misfit::Skips(at + passed + 1));
    }
    if !knows(graph, ask) {
        return Err(Misfit::NoStage);
    }
    let given = graph.tell(ask);
    if given == told {
        Ok(())
    } else {
        Err(Misfit::Told(given))
    }
}

/// Does the first `most` of these events to the graph, but none from the first one on that is the caller's: how many it did.
fn pass_by(graph: &mut Graph, rest: &[Event], most: usize, caller: usize) -> usize
    requires fits { EventsFit graph.old.state rest.now }
    requires there { most ≤ length rest.now }
    ensures at_most { result ≤ most }
    ensures others { own caller (take result rest.now) ≡ [] }
    ensures state { graph.new.state ≡ state_in graph.old.state rest.now result }
    ensures fits { EventsFit graph.new.state (drop result rest.now) }
    ensures next { result < most → IsNext caller rest.now result }
{
    for i in 0..most {
        let event = rest[i];
        if event.who() as usize == caller {
            return i;
        }
        graph.answer(&event);
    }
    most
}

/// Whether the stage that is asked about is there.
fn knows(graph: &Graph, ask: Ask) -> bool
    ensures { IsTrue result ↔ AskFits (length graph.now.state.plan.stages) ask }
{
    let (Ask::Now(stage, _) | Ask::Outcome(stage)) = ask;
    graph.has(stage)
}
