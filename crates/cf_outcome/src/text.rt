//! The texts of values, causes, outcomes and of what a caller is told.
use crate::now::Now;
use crate::outcome::{Cause, Outcome, Value};
use std::fmt;

impl fmt::Display for Value {
    ghost use Rattle.std.specs.Prelude.{Some};
    ghost use Rattle.cf_outcome.specs.Texts.{value_text};

    ghost output = { λ v. Some (value_text v) };

    fn fmt<W: fmt::Write>(&self, f: &mut fmt::Formatter<W>) -> fmt::Result {
        match self {
            Value::Nil => write!(f, "nil"),
            Value::Int(n) => write!(f, "{n}"),
        }
    }
}

impl fmt::Display for Cause {
    ghost use Rattle.std.specs.Prelude.{Some};
    ghost use Rattle.cf_outcome.specs.Texts.{cause_text};

    ghost output = { λ c. Some (cause_text c) };

    fn fmt<W: fmt::Write>(&self, f: &mut fmt::Formatter<W>) -> fmt::Result {
        match self {
            Cause::Thrown(code) => write!(f, "thrown {code}"),
            Cause::Cancelled => write!(f, "cancelled"),
            Cause::TimedOut(0) => write!(f, "timeout"),
            Cause::TimedOut(code) => write!(f, "timeout {code}"),
            Cause::BadAnswer(0) => write!(f, "badanswer"),
            Cause::BadAnswer(code) => write!(f, "badanswer {code}"),
        }
    }
}

impl fmt::Display for Outcome {
    ghost use Rattle.std.specs.Prelude.{Some};
    ghost use Rattle.cf_outcome.specs.Texts.{outcome_text};

    ghost output = { λ o. Some (outcome_text o) };

    fn fmt<W: fmt::Write>(&self, f: &mut fmt::Formatter<W>) -> fmt::Result {
        match self {
            Outcome::Value(v) => write!(f, "value {v}"),
            Outcome::Fault { cause, wrapped } => {
                if *wrapped {
                    write!(f, "fault {cause} wrapped")
                } else {
                    write!(f, "fault {cause} raw")
                }
            }
        }
    }
}

impl fmt::Display for Now {
    ghost use Rattle.std.specs.Prelude.{Some};
    ghost use Rattle.cf_outcome.specs.Texts.{now_text};

    ghost output = { λ n. Some (now_text n) };

    fn fmt<W: fmt::Write>(&self, f: &mut fmt::Formatter<W>) -> fmt::Result {
        match self {
            Now::Absent(v) => write!(f, "absent {v}"),
            Now::Got(v) => write!(f, "value {v}"),
            Now::Completion(cause) => write!(f, "completion {cause}"),
            Now::Cancellation => write!(f, "cancellation"),
        }
    }
}
