//! Explains a script in words: why `cf run` would refuse it, where the fault is, and what would be right there. Of a
//! script that would run it tells what nobody reads in it, and which steps and limits can never do anything.
//!
//! The verdict comes from `cf_script_reading`, which is asked first. It is proved that `explain` calls a script
//! refused exactly where `read_script` refuses its bytes, and for the same fault. Only then is the JSON value walked,
//! to find the member that caused the fault (`refusing.rt` and what it calls). That this place lies in the part that
//! the fault names is proved too. So a walk that went astray would name a wrong member there, and could never change
//! the verdict. The bytes are made a JSON value once. Their text is gone through a second time for what that value
//! has lost: members that are given twice (`twice.rt`).
//!
//! Tables say what may stand where, and by which names: functions, answers, kinds and members in `vocabulary.rt`, and
//! the steps in `steps.rt`. What each element of a step is, `elements_of` of `cf_script_reading` says.
#![tactic(auto)]

mod behind;
mod counts;
mod explaining;
mod fitting;
mod functions;
mod idle;
mod names;
mod oddity;
mod place;
mod planned;
mod reason;
mod refusing;
mod remark;
mod shapes;
mod stages;
mod steps;
mod twice;
mod unread;
mod verdict;
mod vocabulary;
mod wanted;
mod written;

pub use explaining::explain;
pub use names::stage_name;
pub use oddity::Oddity;
pub use place::{Area, PathStep, Place};
pub use reason::{Reason, Why};
pub use remark::{Idle, Remark};
pub use verdict::{Explanation, Refusal, Verdict};
pub use vocabulary::Words;
pub use wanted::Wanted;
