//! Reads a question about all orders in which callers' steps can come, and tells what was found.
//!
//! A *question* is a script with `callers` in place of `steps`: a list of steps for each caller, a number of workers,
//! a clock that may be free, and what must hold. It is read by the reading of scripts. The callers' steps, one list
//! after another, become the steps of a script (`joined`), so each form, function and step is what it is there. What
//! `cf_explore` finds is told as text or as JSON (`telling`, `json`). An order is told as an account, which
//! `cf_look check` judges, or as a script, which `cf run` does again (`witness`).
#![tactic(auto)]

mod ends;
mod facts;
mod fault;
mod joined;
mod json;
mod planning;
mod question;
mod reading;
mod telling;
mod witness;

pub use ends::{Grouped, grouped_by};
pub use fault::{QuestionFault, Spot};
pub use json::json_of;
pub use question::Question;
pub use reading::read_question;
pub use telling::{Standing, standing_of, text_of};
pub use witness::{OrderShape, witness_of, witnesses};
