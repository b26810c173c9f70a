//! Scripts: what they ask for, and what is printed.
//!
//! A script is a JSON text with a plan of stages, their functions, limits and steps. `cf_script_reading` makes it of bytes, or
//! tells the first fault in them. This crate runs a script over a `Graph` and prints its report: a line for each step,
//! then a line for each stage. The input is read and checked whole before anything is printed; the report is made whole
//! in memory, and then written.
//!
//! `specs/Reports.antt` says what a script prints by what the graph's model answers to the events and questions of its
//! steps, and `specs/Working.antt` what the step `work` does. `run_script` is proved to write that report, or the line
//! of the fault that the input has, for any reader and any writer that tell their bytes; `race_script` writes the lines
//! of the stages as a race may leave them. What both print alike is in `specs/Printing.antt`.
#![tactic(auto)]

pub mod laws;
mod printing;
mod race;
mod report;
mod run;
mod steps;

pub use cf_plan::PlanFault;
pub use cf_pool::{Gate, NoGate};
pub use cf_script_reading::{Func, Part, ReadingFault, Script, Step, read_race, read_script};
pub use cf_text::ScriptFault;
pub use race::race_script;
pub use run::run_script;
pub use steps::{StepAnswer, do_step};
