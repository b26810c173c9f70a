//! Forms of stages: what each takes from its sources, and where a finish lands.
//!
//! The forms are those of Java SE 17's `CompletionStage` and `CompletableFuture`. Three tables say what a stage of a
//! form does when its sources settle, and what becomes of its function's answer: `due_one`, `due_two` and `landing`.
//!
//! A stage's function is a `StageFn`, whose answers depend on its arguments alone. `Functions` stands for all functions
//! of a plan, called by their numbers, with one memory that a call may change. A list of `StageFn` is a `Functions`
//! (`Each`), and so is a boxed closure (`Closure`) and any type that says what its calls do.
//!
//! `specs/Plans.antt` defines what a plan is, as a list of stages and limits, and what is true of each plan that was
//! built. `cf_plan` builds and keeps plans.
#![tactic(auto)]

mod fitting;
mod forms;
mod functions;
mod limits;
mod naming;
mod tables;

pub use fitting::{calls_function, fits_form, takes_count};
pub use forms::{Answer, Args, Due, Form, Landing, Of};
pub use functions::{Closure, Each, Functions, StageFn};
pub use limits::{Limit, LimitKind};
pub use tables::{composes, due_one, due_two, is_decided_by_first, landing, starts};
