//! Why a text is no question.
use cf_plan::PlanFault;
use cf_script_reading::ReadingFault;
use cf_text::ScriptFault;
use std::alloc::{AllocError, AllocFailed};
use std::fmt;

/// Where something is wrong that only a question has.
#[derive(Clone, Copy, Drop)]
pub enum Spot {
    /// `callers` is no array of arrays, or they are too many with the workers.
    Callers,
    /// The steps of this caller are no array, or too many.
    Caller(usize),
    /// This step of this caller is none.
    Step(usize, usize),
    /// `workers` is no whole number of 0 to 32.
    Workers,
    /// `clock` is given and isn't `"free"`.
    Clock,
    /// What must hold is no array: `never`, `always`, `possible`.
    Conditions(&'static str),
    /// This condition is no array of facts.
    Condition(&'static str, usize),
    /// This fact of this condition is none.
    Fact(&'static str, usize, usize),
    /// The stage of this number shares its function with one that has none, or doesn't stand before it.
    Same(usize),
}

/// Why a text is no question.
#[derive(Drop)]
pub enum QuestionFault {
    /// There was no memory.
    NoMemory,
    /// What a script has, too, is wrong with it.
    Script(ReadingFault),
    /// What only a question has.
    At(Spot),
    /// Its plan with shared functions is refused.
    Plan(PlanFault),
}

impl From<AllocError> for QuestionFault {
    fn from(_refused: AllocError) -> QuestionFault {
        QuestionFault::NoMemory
    }
}

impl<T: Drop> From<AllocFailed<T>> for QuestionFault {
    fn from(_refused: AllocFailed<T>) -> QuestionFault {
        QuestionFault::NoMemory
    }
}

impl From<PlanFault> for QuestionFault {
    fn from(fault: PlanFault) -> QuestionFault {
        match fault {
            PlanFault::NoMemory => QuestionFault::NoMemory,
            _ => QuestionFault::Plan(fault),
        }
    }
}

impl fmt::Display for Spot {
    fn fmt<W: fmt::Write>(&self, f: &mut fmt::Formatter<W>) -> fmt::Result {
        f.write_str(self.member())?;
        for place in self.places().iter().flatten() {
            write!(f, "[{place}]")?;
        }
        match self {
            Spot::Same(_) => f.write_str(".fn"),
            _ => Ok(()),
        }
    }
}

impl Spot {
    /// The member of a question that it is in.
    fn member(self) -> &'static str {
        match self {
            Spot::Callers | Spot::Caller(_) | Spot::Step(_, _) => "callers",
            Spot::Workers => "workers",
            Spot::Clock => "clock",
            Spot::Conditions(how) | Spot::Condition(how, _) | Spot::Fact(how, _, _) => how,
            Spot::Same(_) => "stages",
        }
    }

    /// At which place of that member, and at which of what stands there.
    fn places(self) -> [Option<usize>; 2] {
        match self {
            Spot::Caller(c) => [Some(c), None],
            Spot::Step(c, k) => [Some(c), Some(k)],
            Spot::Condition(_, k) => [Some(k), None],
            Spot::Fact(_, k, n) => [Some(k), Some(n)],
            Spot::Same(i) => [Some(i), None],
            _ => [None, None],
        }
    }

    /// What would be right there.
    pub fn wanted(self) -> &'static str {
        match self {
            Spot::Callers => "a list of lists of steps, with the workers at most 62",
            Spot::Caller(_) => "a list of at most 20,000 steps",
            Spot::Step(_, _) => {
                "one of complete, fail, cancel, tick, claim, finish, attach, now, outcome, join, of stages that are there"
            }
            Spot::Workers => "a whole number of 0 to 32",
            Spot::Clock => "\"free\"",
            Spot::Conditions(_) => "a list of conditions",
            Spot::Condition(_, _) => "a list of facts",
            Spot::Fact(_, _, _) => {
                "at (first alone), stage, called, notcalled, calls or callsatleast, of stages that are there"
            }
            Spot::Same(_) => "the number of an earlier stage with a function",
        }
    }
}

impl fmt::Display for QuestionFault {
    fn fmt<W: fmt::Write>(&self, f: &mut fmt::Formatter<W>) -> fmt::Result {
        match self {
            QuestionFault::NoMemory => f.write_str("no memory"),
            QuestionFault::Script(fault) => write!(f, "{}", ScriptFault::from(*fault)),
            QuestionFault::Plan(fault) => write!(f, "plan: {fault}"),
            QuestionFault::At(spot) => write!(f, "{spot}: wanted {}", spot.wanted()),
        }
    }
}
