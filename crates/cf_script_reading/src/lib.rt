//! What a script asks for: bytes are read as a plan, its functions and its steps, or as the first fault in them.
//!
//! A script is a JSON object (RFC 8259). Its bytes are read in pieces, to the end or to the first byte that is too
//! many, and no further. `serde_json` makes them a JSON value. Then this value is checked in one fixed order: the
//! top, the version, the room, the three arrays, each stage, each limit, the place for the room, each step. The first
//! thing that is wrong is the fault that is told.
//!
//! A script from version 2 on may ask for room and attach stages in its steps. So each step is read with what those
//! before it leave: the stages that there are then, the room that is left, and the functions so far
//! (`src/progress.rt`).
//!
//! `specs/Reading.antt` has that order as a definition over the JSON value, and `read_script` is proved to give what
//! it gives. A script that is to be raced is read the same way, but may have fewer kinds of steps (`src/purpose.rt`).
//! Which element of a step is what stands in one table (`src/elements.rt`), which other readers of scripts ask.
#![tactic(auto)]

mod attaching;
mod draft;
mod elements;
mod fault;
mod forms;
mod func;
mod functions;
mod input;
mod laws;
mod limits;
mod parts;
mod progress;
mod purpose;
mod reading;
mod refused;
mod script;
mod stages;
mod step_parsers;
mod steps;
mod version;

pub use elements::{Element, elements_of, stage_place};
pub use fault::{Part, ReadingFault};
pub use func::Func;
pub use input::{MAX_BYTES, read_input};
pub use laws::{races_are_read_as_runs, stages_stand_where_told};
pub use parts::{u16_of, u32_of, value};
pub use reading::{read_race, read_script, script_of};
pub use script::{Script, Step, WORKER};
pub use steps::MAX_STEPS;
