//! How what happened to a request is told.
//!
//! A `Tale` is made of a plan and the words of its events (`tale.rt`). The events are done again over a `Ledger`. So
//! each reply, and each change of a stage, is the proved graph's; nothing here settles anything. Each stage is noted
//! with the place at which it settled and the stage from which its outcome came (`noting.rt`). `People` is what a host
//! or an account says for people alone: names, times, and what values and errors stand for.
//!
//! `tell` tells the same tale as lines or in one line (`lines.rt`), as an account that `cf_look check` judges
//! (`account.rt`), as a script that `cf run` does again, and as what that prints (`script.rt`). `cf_page` makes pages
//! and traces of it. Events and outcomes have one wording for all of these (`saying.rt`).
//!
//! A text of others can't look like another line, nor end the string that it stands in (`text.rt`).
#![tactic(auto)]

mod account;
mod kinds;
mod laws;
mod lines;
mod noting;
mod parts;
mod people;
mod saying;
mod script;
mod tale;
mod text;

pub use kinds::{Kind, tell};
pub use laws::texts_are_shown;
pub use noting::{Link, Notes, Run, Seen};
pub use people::People;
pub use saying::{
    write_bare_name, write_caller, write_event, write_event_alone, write_name, write_outcome,
    write_passed,
};
pub use tale::{Entry, Tale, tale_of};
pub use text::{Text, Within};
