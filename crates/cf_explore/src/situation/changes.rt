//! The changes of a situation. Each fails only where there is no memory, and the situation isn't to be used any more then.
ghost use Rattle.std.specs.Prelude.{◌≡◌, ◌+◌, ◌<◌, ◌++◌, [], ◌∷◌, IfOk, false, is_some, slice_set, true};
ghost use Rattle.cf_model.specs.Events.{claiming, finishing, ticking};
ghost use Rattle.cf_model.specs.States.{outcome_at};
ghost use Rattle.cf_explore.specs.declared.step.Step.TheVariants.{Join};
ghost use Rattle.cf_explore.specs.Programs.{hand_at, place_at};
ghost use Rattle.cf_model.specs.Calls.{event_by};
ghost use Rattle.cf_explore.specs.Moves.{calling, claim_answer, claim_by, finish_by, finished, hand_of, is_settled, marked, next_moment, once_more, onward, stepped, ticked};

use crate::situation::Situation;
use crate::step::{Hand, Place};
use cf_forms::Answer;
use cf_model::{Attached, Call, Claimed, Reply, event_by};
use cf_reference::ReferenceGraph;
use std::alloc::{AllocError, Global};

impl Situation {
    /// A caller goes on to its next step.
    pub(crate) fn go_on(&mut self, c: u8)
        requires { (place_at self.old c).at < 65535 }
        ensures { self.new ≡ onward self.old c }
    {
        let place = self.place(c);
        put(
            &mut self.places,
            c as usize,
            Place {
                at: place.at + 1,
                looks: 0,
            },
        );
    }

    /// A caller has looked once more in its step.
    pub(crate) fn look_again(&mut self, c: u8)
        requires { (place_at self.old c).looks < 65535 }
        ensures { self.new ≡ once_more self.old c }
    {
        let place = self.place(c);
        put(
            &mut self.places,
            c as usize,
            Place {
                at: place.at,
                looks: place.looks + 1,
            },
        );
    }

    /// A caller's call, which changes nothing where the graph doesn't take it.
    pub(crate) fn call(&mut self, alloc: Global, c: u8, call: Call) -> Result<(), AllocError>
        ensures situation { IfOk result (λ _. self.new ≡ calling self.old c call) }
        ensures places { IfOk result (λ _. self.new.places ≡ self.old.places) }
    {
        let event = event_by(c, call);
        if event.fits(self.graph.stages()) {
            let reply = self.graph.answer(alloc, &event)?;
            mark(&mut self.called, c, call, reply)?;
        }
        Ok(())
    }

    /// A caller looks whether a stage is settled, and goes on where it is, or where it has looked so often.
    pub(crate) fn join(&mut self, c: u8, i: u16, most: u16)
        requires { (place_at self.old c).at < 65535 }
        ensures { self.new ≡ stepped self.old c (Join i most) }
    {
        let place = self.place(c);
        if settled(&self.graph, i) || place.looks as u32 + 1 >= most as u32 {
            self.go_on(c);
        } else {
            self.look_again(c);
        }
    }

    /// It is the moment of the next unused limit.
    pub(crate) fn tick(&mut self, alloc: Global) -> Result<(), AllocError>
        ensures { IfOk result (λ _. self.new ≡ ticked self.old) }
    {
        tick(alloc, &mut self.graph)
    }

    /// A worker, who is this caller, claims a stage.
    pub(crate) fn claim(&mut self, w: u8, who: u8, i: u16)
        ensures { self.new ≡ claim_by self.old w i (claim_answer self.old.state who i) }
    {
        let answer = claim(&mut self.graph, who, i);
        put_hand(&mut self.hands, w as usize, hand_of(i, answer));
    }

    /// A worker, who is this caller, finishes the stage whose function answered.
    pub(crate) fn finish(&mut self, alloc: Global, w: u8, who: u8) -> Result<(), AllocError>
        ensures { IfOk result (λ _. self.new ≡ finish_by self.old w who (hand_at self.old w)) }
    {
        if let Hand::Called(i, given) = self.hand(w) {
            finish(alloc, &mut self.graph, who, i, given)?;
            put_hand(&mut self.hands, w as usize, Hand::Idle);
        }
        Ok(())
    }
}

/// Writes a place, if it is there.
fn put(places: &mut [Place], c: usize, place: Place)
    ensures { places.new ≡ slice_set places.old c place }
{
    if c < places.len() {
        places[c] = place;
    }
}

/// Writes a hand, if it is there.
pub(crate) fn put_hand(hands: &mut [Hand], w: usize, hand: Hand)
    ensures { hands.new ≡ slice_set hands.old w hand }
{
    if w < hands.len() {
        hands[w] = hand;
    }
}

/// Says that a stage's function was called, if the stage is there.
pub(crate) fn put_called(called: &mut [bool], i: usize)
    ensures { called.new ≡ slice_set called.old i true }
{
    if i < called.len() {
        called[i] = true;
    }
}

/// What a worker has in hand once its claim of a stage is answered.
fn hand_of(i: u16, answer: Claimed) -> Hand
    ensures { result ≡ hand_of i answer }
{
    match answer {
        Claimed::Granted(args) => Hand::Granted(i, args),
        _ => Hand::Idle,
    }
}

/// Claims a stage, which isn't ready where it isn't there.
fn claim(graph: &mut ReferenceGraph, who: u8, i: u16) -> Claimed
    ensures { (result, graph.new) ≡ claim_answer graph.old who i }
{
    if i < graph.stages() {
        graph.claim(who, i)
    } else {
        Claimed::NotReady
    }
}

/// Whether a stage is settled. One that isn't there isn't.
fn settled(graph: &ReferenceGraph, i: u16) -> bool
    ensures { result ≡ is_settled graph.now i }
{
    if i < graph.stages() {
        graph.outcome(i).is_some()
    } else {
        false
    }
}

/// It is the moment of the next unused limit.
fn tick(alloc: Global, graph: &mut ReferenceGraph) -> Result<(), AllocError>
    ensures { IfOk result (λ _. graph.new ≡ (ticking graph.old (next_moment graph.old)).1) }
{
    let moment = next_moment(graph);
    let _ticked = graph.tick(alloc, moment)?;
    Ok(())
}

/// The moment of the next unused limit, or else the moment that it is.
pub(crate) fn next_moment(graph: &ReferenceGraph) -> u32
    ensures { result ≡ next_moment graph.now }
{
    match graph.next_limit() {
        Some(limit) => limit.at,
        None => graph.moment(),
    }
}

/// Finishes a stage. One that isn't there isn't claimed.
fn finish(
    alloc: Global,
    graph: &mut ReferenceGraph,
    who: u8,
    i: u16,
    given: Answer,
) -> Result<(), AllocError>
    ensures { IfOk result (λ _. graph.new ≡ finished graph.old who i given) }
{
    if i < graph.stages() {
        let _finished = graph.finish(alloc, who, i, given)?;
        Ok(())
    } else {
        Ok(())
    }
}

/// Says of a stage whose claim was granted that its function was called, and of one that was attached that it wasn't.
fn mark(called: &mut Vec<bool>, who: u8, call: Call, reply: Reply) -> Result<(), AllocError>
    ensures { IfOk result (λ _. called.new.items ≡ marked called.old.items (event_by who call) reply) }
{
    match (call, reply) {
        (Call::Claim(i), Reply::Claim(Claimed::Granted(_))) => put_called(called, i as usize),
        (Call::Attach(_, _, _), Reply::Attach(Attached::At(_))) => called.push(false)?,
        _ => {}
    }
    Ok(())
}
