//! A situation that the program has come to.
pub(crate) mod changes;

ghost use Rattle.std.specs.Prelude.{◌≡◌, ◌≤◌, true, IfOk, List, length, map, replicate};
ghost use Rattle.cf_model.specs.States.{outcome_of};
ghost use Rattle.cf_explore.specs.Programs.{hand_at, place_at};

use crate::step::{Hand, Place};
use cf_outcome::Outcome;
use cf_reference::ReferenceGraph;
use std::alloc::{AllocError, Global};
use std::marker::Model;

/// The graph's state, how far each caller has come, what each worker has in hand, and for each stage whether its function was
/// called.
#[derive(Drop)]
pub struct Situation {
    pub(crate) graph: ReferenceGraph,
    pub(crate) places: Vec<Place>,
    pub(crate) hands: Vec<Hand>,
    pub(crate) called: Vec<bool>,
}

impl Model for Situation {
    ghost use Rattle.cf_explore.specs.Programs.{Situated, situated};

    ghost Value = { Situated };

    ghost view = { λ s. situated s.graph s.places.items s.hands.items s.called.items };
}

impl Situation {
    /// The same situation again. It fails only where there is no memory.
    pub fn copy(&self, alloc: Global) -> Result<Situation, AllocError>
        ensures { IfOk result (λ s. s ≡ self.now) }
    {
        let places = Vec::from_slice(alloc, &self.places)?;
        let hands = Vec::from_slice(alloc, &self.hands)?;
        let called = Vec::from_slice(alloc, &self.called)?;
        let graph = self.graph.copy(alloc)?;
        Ok(Situation {
            graph,
            places,
            hands,
            called,
        })
    }

    /// Whether it is the same situation.
    pub(crate) fn is_same(&self, other: &Situation) -> bool
        ensures same { result ≡ true → self.now ≡ other.now }
        ensures other { self.now ≡ other.now → result ≡ true }
    {
        if !same_places(&self.places, &other.places) {
            return false;
        }
        if !same_hands(&self.hands, &other.hands) {
            return false;
        }
        same_marks(&self.called, &other.called) && self.graph.is_same(&other.graph)
    }

    /// The graph.
    pub fn graph(&self) -> &ReferenceGraph
        ensures { result.now ≡ self.now.state }
    {
        &self.graph
    }

    /// A caller's place.
    pub fn place(&self, c: u8) -> Place
        ensures { result ≡ place_at self.now c }
    {
        match self.places.get(c as usize) {
            Some(place) => *place,
            None => Place { at: 0, looks: 0 },
        }
    }

    /// What a worker has in hand.
    pub(crate) fn hand(&self, w: u8) -> Hand
        ensures { result ≡ hand_at self.now w }
    {
        match self.hands.get(w as usize) {
            Some(hand) => *hand,
            None => Hand::Idle,
        }
    }
}

/// Whether they are the same places.
fn same_places(a: &[Place], b: &[Place]) -> bool
    ensures same { result ≡ true → a.now ≡ b.now }
    ensures other { a.now ≡ b.now → result ≡ true }
{
    a == b
}

/// Whether they are the same hands.
fn same_hands(a: &[Hand], b: &[Hand]) -> bool
    ensures same { result ≡ true → a.now ≡ b.now }
    ensures other { a.now ≡ b.now → result ≡ true }
{
    a == b
}

/// Whether the same functions were called.
fn same_marks(a: &[bool], b: &[bool]) -> bool
    ensures same { result ≡ true → a.now ≡ b.now }
    ensures other { a.now ≡ b.now → result ≡ true }
{
    a == b
}
