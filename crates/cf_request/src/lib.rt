//! One request of a service as a machine without threads, clocks and objects: what is to be done next, and who has to
//! be told what.
//!
//! A `Machine` keeps the ledger of one request, and four things beside it: which stages were settled and not yet taken
//! by its host, which lane is to run each stage's function, which stages end by what others end as, and by which moments
//! stages have to be settled. Its host says what happened, by a word as a ledger takes it, or that a moment has come.
//! It asks for each lane what there is to run, and which moment comes next. The machine runs nothing, waits for
//! nothing and reads no clock.
//!
//! It is made of layers. A `Teller` is a ledger that also keeps a row of all settled stages, in the order of the
//! events that settled them: the host has taken the front of it, and what stands behind is told. It also keeps for each
//! lane the set of its ready stages, into which it writes the news of each word. Three loops settle open stages one at
//! a time, each by a word: joins that are decided, stages whose moment has come, and stages that end at once, which are
//! the ready ones of a lane that is refused, or all that are open. A machine does what it is asked, and then settles the
//! joins. A relay, which follows one stage, is a join of one.
#![tactic(auto)]

mod attaching;
mod composing;
mod deadlines;
mod faults;
mod gathering;
mod growing;
mod joins;
mod lanes;
pub mod laws;
mod machine;
mod ready;
mod refusals;
mod relays;
mod scopes;
mod settling;
mod tallies;
mod teller;

pub use cf_ledger::{Event, Finish, Held, Ledger, LedgerFault, Reply, StepFault, Taken};
pub use composing::{Composed, Composing};
pub use deadlines::Deadline;
pub use faults::{JoinFault, MachineFault, ScopeFault};
pub use gathering::Gathering;
pub use joins::Join;
pub use machine::{Machine, Next};
