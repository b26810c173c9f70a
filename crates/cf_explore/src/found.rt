//! What a search has found.
use crate::step::Move;
use crate::trail::Trace;
use cf_outcome::Outcome;

/// One end: the outcomes of all stages, how many orders lead to it (counted up to 2^128 - 1), and one of the shortest of these.
#[derive(Drop)]
pub struct End {
    pub outcomes: Vec<Option<Outcome>>,
    pub orders: u128,
    pub witness: Witness,
}

/// An order: how many moves it has, and the number of the situation that it leads to (`Found::order`).
#[derive(Clone, Copy, Drop)]
pub struct Witness {
    pub moves: u32,
    pub number: u32,
}

/// What a search has found.
#[derive(Drop)]
pub struct Found {
    /// The distinct ends of all orders that were seen.
    pub ends: Vec<End>,
    /// For each condition a shortest order that decides it, if one was seen. Such an order shows that `never` or `always`
    /// doesn't hold, or that `possible` does.
    pub decisions: Vec<Option<Witness>>,
    /// All orders of fewer moves than this were seen.
    pub moves: u32,
    /// Whether these are all orders.
    pub whole: bool,
    /// For the number of each situation: the number of the one before it, and the move between them.
    pub trail: Vec<Trace>,
}
