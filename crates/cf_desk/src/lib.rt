//! A graph of stages that callers on different threads share, without a lock.
//!
//! The desk is one row of 64-bit words. Each holds the word of one event, or 0 while it is empty. A call that changes the
//! graph exchanges the next empty word, by a compare-and-exchange, for its own; a call that reads loads words until it
//! finds an empty one. So the row holds one order of all callers' calls, and each pass has seen a first part of it. A pass
//! keeps a graph of its own, applies to it each event that it sees, and answers from it. No call waits for another.
//!
//! A desk may be opened with room for stages that callers attach while they share it (`Desk::open_growing`). Then a pass
//! may not know a stage yet that another caller has attached. A call on such a stage lets the pass look first, and is
//! refused if the stage still isn't there.
//!
//! | Part | What it is |
//! |---|---|
//! | desk (`Desk`) | what callers share: the plan that it was opened with and the room, the number of callers, and the row |
//! | row | the desk's words, in one table of `atomic_table`; the row's rule is `RowKept` in `specs/Rule` |
//! | log | the events of the filled words, in order |
//! | place | a position in the log: in the record of a changing call how many events there were, its own included; in that of a question how many the pass had seen |
//! | pass (`Pass`) | what one caller holds: a seat, a graph of its own, and records |
//! | seat | a pass's hold on the row, which carries its view from step to step |
//! | view | what each pass that a seat stands for knows (`CallerView`); it exists in proofs alone |
//! | notice (`Notice`) | what a pass had seen, for another pass on another thread to catch up with |
//! | record (`Rec`) | what a pass keeps of one call: the call, its place and its answer; with its caller it is a `Record` of `cf_event` |
//! | closed desk (`Closed`) | the history, each pass's caller and records (`Kept`), and the graph |
#![tactic(auto)]

mod calls;
mod desk;
mod faults;
mod functions;
pub mod laws;
mod notice;
mod opened;
mod pass;
mod row;
mod sizes;

pub use calls::{Closed, Joined, Kept, Rec};
pub use cf_model::{Ask, Call, Told, event_by};
pub use desk::Desk;
pub use faults::{CloseFault, DeskFault, OpenFault};
pub use notice::Notice;
pub use pass::Pass;
pub use sizes::{DeskGrowth, DeskSizes};
