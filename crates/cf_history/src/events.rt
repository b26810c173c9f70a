//! The words of a history as events that the graph takes.
ghost use Rattle.std.specs.Prelude.{◌≡◌, ◌<◌, ◌↔◌, All, IfNone, IfOk, IfSome, IsTrue, length};
ghost use Rattle.cf_model.specs.Events.{state_after};
ghost use Rattle.cf_event.specs.Decoding.{decoded};
ghost use Rattle.cf_event.specs.Words.{IsEvent};
ghost use Rattle.cf_event.specs.Events.{NamesFunction};
ghost use Rattle.cf_history.specs.Verdicts.{FindsUnfit, JudgesEvent};

use crate::verdict::Unfit;
use cf_core::Graph;
use cf_event::{decode, is_function};
use cf_model::Event;
use std::alloc::{AllocError, Global};

/// The events of these words, up to the first word that is no event's.
pub(crate) fn read_events(alloc: Global, words: &[u64]) -> Result<Vec<Event>, AllocError>
    ensures { IfOk result (λ events. events.items ≡ decoded words.now) }
{
    let mut events = Vec::new(alloc);
    for (i, word) in words.iter().enumerate() {
        match decode(*word) {
            None => return Ok(events),
            Some(event) => events.push(event)?,
        }
    }
    Ok(events)
}

/// Does events that have words to a graph, up to the first that it doesn't take: how many it did, and why not that one.
pub(crate) fn find_unfit(
    graph: &mut Graph,
    events: &[Event],
    callers: usize,
    functions: u32,
) -> Option<(usize, Unfit)>
    requires { All IsEvent events.now }
    ensures found { FindsUnfit callers functions graph.old.state events.now result }
    ensures within { IfSome result (λ u. u.0 < length events.now) }
    ensures state { IfNone result (graph.new.state ≡ state_after graph.old.state events.now) }
{
    for (i, event) in events.iter().enumerate() {
        match unfit(graph, event, callers, functions) {
            Some(why) => return Some((i, why)),
            None => graph.answer(event),
        };
    }
    None
}

/// Why an event that has a word can't stand here, if it can't.
fn unfit(graph: &Graph, event: &Event, callers: usize, functions: u32) -> Option<Unfit>
    requires { IsEvent event.now }
    ensures { JudgesEvent callers functions graph.now.state event.now result }
{
    if event.who() as usize >= callers {
        return Some(Unfit::NoCaller);
    }
    if !event.fits(graph.stages()) {
        return Some(Unfit::NoStage);
    }
    if !names_function(event, functions) {
        return Some(Unfit::NoFunction);
    }
    None
}

/// Whether the function that an event names, if it names one, is one of so many.
fn names_function(event: &Event, functions: u32) -> bool
    ensures { IsTrue result ↔ NamesFunction functions event.now }
{
    match *event {
        Event::Attach { function, .. } => is_function(function, functions),
        _ => true,
    }
}
