//! What a graph behind a handle is asked.
ghost use Rattle.std.specs.Prelude.{◌≡◌, MatchOption, None, Some, if◌then◌else◌};
ghost use Rattle.cf_c_handles.specs.declared.code.Code.TheVariants.{NoStage};
ghost use Rattle.cf_model.specs.Ranges.{EventFits};
ghost use Rattle.cf_c_handles.specs.Graphs.{GraphAnswers, Asked, GraphRefuses, Restarts, RestsAlways, RestsAt, RestsAtReady, function_told, now_told, outcome_told, ready_told, stages_told, turns_told};

use crate::code::Code;
use crate::handle::object::Object;
use crate::values::{CfNow, CfOutcome, CfReply, as_now, as_outcome, as_reply};
use cf_forms::fits_form;
use cf_model::Event;
use cf_outcome::Value;

/// Hands a graph an event, unless there is a reason why there is none.
#[inline(always)]
pub fn answer(held: &mut Object, event: Result<Event, Code>) -> Result<CfReply, Code>
    ensures { GraphAnswers event held.old result held.new }
{
    let Object::Graph(graph) = held else {
        return Err(Code::WrongKind);
    };
    let event = match event {
        Ok(event) => event,
        Err(code) => return Err(code),
    };
    match refusal_of(graph.stages(), &event) {
        Some(code) => Err(code),
        None => Ok(as_reply(graph.answer(&event))),
    }
}

/// Why an event isn't done to a graph of so many stages, if it isn't.
#[inline(always)]
fn refusal_of(stages: u16, event: &Event) -> Option<Code>
    ensures { MatchOption result (EventFits stages event.now) (GraphRefuses stages event.now) }
{
    match *event {
        Event::Complete { stage, .. } => unless(stage < stages),
        Event::Fail { stage, .. } => unless(stage < stages),
        Event::FailAs { stage, .. } => unless(stage < stages),
        Event::Cancel { stage, .. } => unless(stage < stages),
        Event::Claim { stage, .. } => unless(stage < stages),
        Event::Finish { stage, .. } => unless(stage < stages),
        Event::Tick { .. } => None,
        Event::Attach {
            form,
            of,
            function,
            ..
        } => {
            if !of.are_below(stages) {
                return Some(Code::NoStage);
            }
            if !fits_form(form, of.count(), function.is_some()) {
                return Some(Code::BadAttach);
            }
            None
        }
    }
}

/// The outcome of a stage of a graph.
#[inline(always)]
pub fn outcome(held: &mut Object, stage: u16) -> Result<CfOutcome, Code>
    ensures { Asked (outcome_told stage) (RestsAt stage) held.old result held.new }
{
    let Object::Graph(graph) = held else {
        return Err(Code::WrongKind);
    };
    if !graph.has(stage) {
        return Err(Code::NoStage);
    }
    Ok(as_outcome(graph.outcome(stage)))
}

/// What a stage of a graph gives at present.
#[inline(always)]
pub fn now(held: &mut Object, stage: u16, absent: Value) -> Result<CfNow, Code>
    ensures { Asked (now_told stage absent) (RestsAt stage) held.old result held.new }
{
    let Object::Graph(graph) = held else {
        return Err(Code::WrongKind);
    };
    if !graph.has(stage) {
        return Err(Code::NoStage);
    }
    Ok(as_now(graph.now(stage, absent)))
}

/// The lowest ready stage of a graph.
#[inline(always)]
pub fn lowest_ready(held: &mut Object) -> Result<u16, Code>
    ensures { Asked ready_told RestsAtReady held.old result held.new }
{
    let Object::Graph(graph) = held else {
        return Err(Code::WrongKind);
    };
    graph.lowest_ready().ok_or(Code::Nothing)
}

/// The number of a stage's function.
#[inline(always)]
pub fn function(held: &mut Object, stage: u16) -> Result<u16, Code>
    ensures { Asked (function_told stage) RestsAlways held.old result held.new }
{
    let Object::Graph(graph) = held else {
        return Err(Code::WrongKind);
    };
    if !graph.has(stage) {
        return Err(Code::NoStage);
    }
    graph.function(stage).ok_or(Code::Nothing)
}

/// How many stages a graph has by now.
#[inline(always)]
pub fn stages(held: &mut Object) -> Result<u16, Code>
    ensures { Asked stages_told RestsAlways held.old result held.new }
{
    match held {
        Object::Graph(graph) => Ok(graph.stages()),
        _ => Err(Code::WrongKind),
    }
}

/// How many turns a graph has taken.
#[inline(always)]
pub fn turns(held: &mut Object) -> Result<u64, Code>
    ensures { Asked turns_told RestsAlways held.old result held.new }
{
    match held {
        Object::Graph(graph) => Ok(graph.turns()),
        _ => Err(Code::WrongKind),
    }
}

/// Starts a graph again.
#[inline(always)]
pub fn restart(held: &mut Object) -> Result<(), Code>
    ensures { Restarts held.old result held.new }
{
    match held {
        Object::Graph(graph) => {
            graph.restart();
            Ok(())
        }
        _ => Err(Code::WrongKind),
    }
}

/// Refuses a stage that isn't there.
#[inline(always)]
fn unless(there: bool) -> Option<Code>
    ensures { result ≡ (if there then None else Some NoStage) }
{
    if there { None } else { Some(Code::NoStage) }
}
