//! What is said of a script.
ghost use Rattle.std.specs.Prelude.{◌≡◌};
ghost use Rattle.cf_explain.specs.Verdicts.{verdict_of};

use crate::place::Place;
use crate::reason::Why;
use crate::remark::Remark;
use cf_script_reading::ReadingFault;
use std::fmt;

/// Why a script is refused, and which part of it causes that.
#[derive(Drop)]
pub struct Refusal {
    /// The fault that `cf run` would tell.
    pub fault: ReadingFault,
    /// The place in the script that caused it.
    pub place: Place,
    /// What is wrong there.
    pub why: Why,
}

/// What is wrong with a script, and what is odd about it.
#[derive(Drop)]
pub struct Explanation {
    /// Why it is refused, if it is.
    pub refusal: Option<Refusal>,
    /// What is odd about it, in the order of its parts. Where it is refused, nothing is said of its steps and limits.
    pub remarks: Vec<Remark>,
}

/// A script, judged.
#[derive(Clone, Copy)]
pub enum Verdict {
    /// Nothing is wrong with it, and nothing odd about it.
    Right,
    /// It would be refused.
    Refused,
    /// It would be run, and something about it is odd.
    Odd,
}

impl Explanation {
    /// The verdict.
    pub fn verdict(&self) -> Verdict
        ensures { result ≡ verdict_of self.now.refusal self.now.remarks.items }
    {
        if self.refusal.is_some() {
            Verdict::Refused
        } else if self.remarks.is_empty() {
            Verdict::Right
        } else {
            Verdict::Odd
        }
    }
}

/// The place and what is wrong there.
impl fmt::Display for Refusal {
    fn fmt<W: fmt::Write>(&self, f: &mut fmt::Formatter<W>) -> fmt::Result {
        write!(f, "{}: {}", self.place, self.why)
    }
}
