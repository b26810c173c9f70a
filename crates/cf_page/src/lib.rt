//! Shows people what the words of a request did: as a page, as a trace or as a list of spans.
//!
//! A scene is made of a plan and the words of its events (`scene.rt`): they are a `Tale` of `cf_telling`, which does
//! them again and has the words for them. Then the stages are laid out in layers (`layout.rt`).
//!
//! A scene is written as a page (`page.rt`), which is a fixed text with the scene as JSON in its middle, as a trace
//! for Chrome's viewer and Perfetto (`trace.rt`), or as OpenTelemetry's spans (`spans.rt`). What an account says in
//! words of its own (`People`) goes into these only as JSON strings.
#![tactic(auto)]

mod changes;
mod layout;
mod page;
mod scene;
mod script;
mod spans;
mod template;
mod trace;

pub use page::page_of;
pub use scene::{Scene, scene_of};
pub use script::words_of;
pub use spans::spans_of;
pub use trace::trace_of;
