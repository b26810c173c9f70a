//! Why a script isn't done, and the line that says so.
ghost use Rattle.std.specs.Prelude.{◌≡◌, ◌+◌, ◌++◌, ◌<◌, ◌≤◌, length};
ghost use Rattle.std.specs.Fmt.{decimal};
ghost use Rattle.cf_script_reading.specs.Faults.{part_text};
ghost use Rattle.cf_text.specs.Faults.{fault_line, fault_text, plan_number};

use cf_outcome::ShortText;
use cf_plan::PlanFault;
use cf_script_reading::{Part, ReadingFault};
use std::alloc::AllocError;
use std::error::Error;
use std::{fmt, str};

/// Why a script isn't run or raced.
#[derive(Clone, Copy, Debug, PartialEq, Eq)]
pub enum ScriptFault {
    /// It has more than 1,048,576 bytes.
    TooLong,
    /// It is no JSON text: bad UTF-8, wrong syntax, an early end, or arrays and objects nested over 127 deep.
    NotJson,
    /// A part has the wrong shape.
    Shape(Part),
    /// The builder of plans refused the stage, or for `NoSuchStage` and `TooManyLimits` the limit, at this position.
    Plan(PlanFault, u32),
    /// What stands as the function of the stage at this position is no function.
    Function(u32),
    /// What stands as the step at this position is no step, or there are more than 20,000.
    Step(u32),
    /// The reader failed, for whatever cause.
    Read,
    /// The writer failed or took no byte. Nothing more is written then.
    Write,
    /// Memory was refused.
    NoMemory,
    /// A race of this script would need more than 65,535 words.
    RaceSize,
}

impl From<ReadingFault> for ScriptFault {
    ghost use Rattle.cf_text.specs.Faults.{fault_of_reading};

    ghost from_gives = { λ e fault. fault ≡ fault_of_reading e };

    fn from(e: ReadingFault) -> ScriptFault {
        match e {
            ReadingFault::TooLong => ScriptFault::TooLong,
            ReadingFault::NotJson => ScriptFault::NotJson,
            ReadingFault::Shape(part) => ScriptFault::Shape(part),
            ReadingFault::Plan(refusal, k) => ScriptFault::Plan(refusal, k),
            ReadingFault::Function(k) => ScriptFault::Function(k),
            ReadingFault::Step(k) => ScriptFault::Step(k),
            ReadingFault::Read => ScriptFault::Read,
            ReadingFault::NoMemory => ScriptFault::NoMemory,
        }
    }
}

/// Memory that was refused.
impl From<AllocError> for ScriptFault {
    ghost use Rattle.cf_text.specs.declared.fault.ScriptFault.TheVariants.{NoMemory};

    ghost from_gives = { λ _ fault. fault ≡ NoMemory };

    fn from(_refused: AllocError) -> ScriptFault {
        ScriptFault::NoMemory
    }
}

/// The line of a fault. The longest, `fault 3 shape stage 4294967295`, has 31 bytes with its line feed. So the line always fits,
/// and takes no memory: want of memory can be told too.
pub fn line_of(fault: ScriptFault) -> ShortText
    ensures { result ≡ fault_line fault }
{
    let mut text = text_of(fault);
    text.push("\n");
    text
}

/// The line of a fault, without its line feed.
fn text_of(fault: ScriptFault) -> ShortText
    ensures text { result ≡ fault_text fault }
    ensures short { length result < 48 }
{
    let mut text = ShortText::new();
    match fault {
        ScriptFault::TooLong => text.push("fault 1 too long"),
        ScriptFault::NotJson => text.push("fault 2 not json"),
        ScriptFault::Shape(part) => {
            text.push("fault 3 shape ");
            push_part(&mut text, part);
        }
        ScriptFault::Plan(refusal, k) => {
            text.push("fault 4 plan ");
            push_refusal(&mut text, refusal);
            text.push(" at ");
            text.push_number(k);
        }
        ScriptFault::Function(k) => {
            text.push("fault 5 function ");
            text.push_number(k);
        }
        ScriptFault::Step(k) => {
            text.push("fault 6 step ");
            text.push_number(k);
        }
        ScriptFault::Read => text.push("fault 7 read"),
        ScriptFault::Write => text.push("fault 8 write"),
        ScriptFault::NoMemory => text.push("fault 9 memory"),
        ScriptFault::RaceSize => text.push("fault 10 race size"),
    }
    text
}

/// Puts the name of a part behind the text, and its position where it has one.
fn push_part(text: &mut ShortText, part: Part)
    requires { length text.old + 17 ≤ 48 }
    ensures text { text.new ≡ text.old ++ part_text part }
    ensures short { length (part_text part) ≤ 17 }
{
    text.push(part.name());
    if let Some(k) = part.position() {
        text.push(" ");
        text.push_number(k);
    }
}

/// Puts the number of a refusal behind the text.
fn push_refusal(text: &mut ShortText, refusal: PlanFault)
    requires { length text.old + 10 ≤ 48 }
    ensures text { text.new ≡ text.old ++ decimal (plan_number refusal) }
    ensures short { length (decimal (plan_number refusal)) ≤ 10 }
{
    text.push_number(u32::from(number_of(refusal)));
}

/// The number of a refusal, as the line tells it.
fn number_of(refusal: PlanFault) -> u8
    ensures { result ≡ plan_number refusal }
{
    match refusal {
        PlanFault::TooManyStages => 1,
        PlanFault::SourceNotLower => 2,
        PlanFault::WrongSourceCount => 3,
        PlanFault::FunctionMissing => 4,
        PlanFault::FunctionUnwanted => 5,
        PlanFault::TooManyEdges => 6,
        PlanFault::NoSuchStage => 7,
        PlanFault::NoMemory => 8,
        PlanFault::TooManyLimits => 9,
    }
}

/// The line of a fault, without its line feed.
impl fmt::Display for ScriptFault {
    ghost use Rattle.std.specs.Prelude.{Some};
    ghost use Rattle.cf_text.specs.Faults.{fault_text};

    ghost output = { λ e. Some (fault_text e) };

    fn fmt<W: fmt::Write>(&self, f: &mut fmt::Formatter<W>) -> fmt::Result {
        let text = text_of(*self);
        match str::from_utf8(text.as_bytes()) {
            Ok(text) => write!(f, "{text}"),
            Err(_) => Err(fmt::Error),
        }
    }
}

impl Error for ScriptFault {}
