//! Searches all orders in which callers' calls can come on one graph.
//!
//! Whatever threads do on a desk is one history, in which each caller's calls keep their order. So whatever a program
//! of callers and workers can come to, under any schedule, the sequential graph comes to by taking their steps in
//! some order.
//!
//! A `Program` has a plan, the steps of each caller, a number of workers, and a clock. A worker claims any ready
//! stage, calls its function and finishes it. A `Situation` is what some order has led to: the graph's state, how far
//! each caller has come, what each worker has in hand, and which stages' functions were called.
//!
//! The search goes layer by layer. Layer k has the situations that orders of k moves lead to, each with the number of
//! these orders. Equal situations are merged, which is right because the next moves depend on the situation alone.
//! Each situation has a number. For each number the trail keeps the situation before it and the move between them. So
//! an order that leads to a situation can be read back, and the order that is found first is a shortest one.
//!
//! The definitions stand in `specs/`. They are read in this order: `Programs`, `Moves` (which moves there are, and
//! where each leads), `Orders`, `Conditions` (what is asked), `Layers` (what a layer is), `Spreads` (what the calls
//! say that make one), `Found` (what is told).
#![tactic(auto)]

mod condition;
mod ends;
mod facts;
mod found;
mod hash;
mod layer;
mod moves;
mod order;
mod program;
mod search;
mod situation;
mod step;
mod trail;

pub use condition::{Condition, Fact, How, Is, When};
pub use found::{End, Found, Witness};
pub use layer::{Entry, Layer};
pub use program::{Caller, MAX_CALLERS, Program};
pub use search::Search;
pub use situation::Situation;
pub use step::{Hand, Move, Place, Step};
pub use trail::Trace;
