//! What a stage of a completable future can end as, and how that is written.
//!
//! A stage settles with an `Outcome`: a value, or a fault with its cause. A fault keeps whether it stands inside a
//! completion exception. As the API documentation of Java SE 17's `CompletableFuture` has it, a fault is `wrapped` in
//! each stage that takes it over from another, and raw in the stage that was failed, cancelled or timed out itself.
//! `Now` is what a caller that asks for the present state is told. Each type's `Display` is its text in scripts'
//! reports, and `write_outcome` writes an outcome's text to any writer, without memory.
#![tactic(auto)]

mod now;
mod outcome;
mod short;
mod text;
mod write;

pub use now::{Now, now_of};
pub use outcome::{Cause, Outcome, Value, is_cancelled, is_exceptional, wrap};
pub use short::{SHORT_ROOM, ShortText};
pub use write::{WriteFault, write_outcome, write_text};
