//! Draws the plan of a script as a text in the language of Graphviz, with each stage's form, function and limits, and
//! what became of it after the steps.
//!
//! A script is read as `cf run` reads it, and refused for the same fault, which is proved. Its steps are done over a
//! `Graph`, as the report does them, which is proved too (`run.rt`). Then each stage is a node. Its shape says what
//! kind of form it has (`kinds.rt`), its line and colour say what became of it (`fate.rt`), so the picture can be
//! read without colours too. Edges go from sources to the stages that name them (`edges.rt`), and limits stand beside
//! their stages (`limits.rt`).
//!
//! All words in a picture come from fixed tables, and the rest are numbers, except for the names of stages. In a name
//! each character that could end a label is written otherwise (`names.rt`).
#![tactic(auto)]

mod drawing;
mod edges;
mod fate;
mod functions;
mod kinds;
mod limits;
mod names;
mod notes;
mod run;
mod stages;

pub use drawing::draw_script;
