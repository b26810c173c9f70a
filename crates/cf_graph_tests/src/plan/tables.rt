//! The tables of forms: what a stage does by its sources, where an answer lands, which stages fit their form, and what names
//! forms and faults have.
ghost use Rattle.std.specs.Prelude.{◌≡◌};

use crate::checks::{holds, is_shown};
use crate::functions::Always;
use crate::plan::naming::{NAMES, is_named};
use crate::plan::place::BELOW;
use cf_forms::{
    Answer, Args, Due, Form, Landing, Of, StageFn, calls_function, due_one, due_two, fits_form,
    is_decided_by_first, landing, takes_count,
};
use cf_outcome::{Cause, Outcome, Value, WriteFault};
use cf_plan::PlanFault;
use std::alloc::Global;
use std::process::Abort;

const RAW: Outcome = Outcome::Fault {
    cause: Cause::TimedOut(7),
    wrapped: false,
};

const WRAPPED: Outcome = Outcome::Fault {
    cause: Cause::TimedOut(7),
    wrapped: true,
};

const THROWN: Outcome = Outcome::Fault {
    cause: Cause::Thrown(7),
    wrapped: true,
};

const BAD: Outcome = Outcome::Fault {
    cause: Cause::BadAnswer(0),
    wrapped: true,
};

const INT: Value = Value::Int(3);

const THREE: Outcome = Outcome::Value(INT);

const NIL: Outcome = Outcome::Value(Value::Nil);

const GIVES: Answer = Answer::Give(INT);

const THROWS: Answer = Answer::Throw(7);

/// Calls any function.
fn answer_of<F: StageFn>(function: &F, args: &Args) -> Answer
    ensures { result ≡ F.meaning function.now args.now }
{
    function.call(args)
}

#[test]
fn a_function_answers_by_its_meaning(rt: HostRuntime) {
    let always = Always { answer: GIVES };
    let answer = answer_of(&always, &Args::One(Value::Nil));
    holds(&rt, answer == GIVES, answer);
}

/// What is known of a form, or of a name.
#[derive(Clone, Copy)]
pub(super) enum Row {
    /// A form, the outcome of the source that decides, and what the stage does.
    One(Form, Outcome, Due),
    /// A form, the outcomes of both sources, and what the stage does.
    Two(Form, Outcome, Outcome, Due),
    /// The form of stage 5, the outcome of the source that decided, the answer, and where that lands.
    Lands(Form, Option<Outcome>, Answer, Landing),
    /// A form, sources, whether there is a function, and whether the stage fits.
    Fits(Form, Of, bool, bool),
    /// A form's number, the form, its name, whether its function answers with a stage, and whether the first settled source
    /// decides it.
    Named(u8, Form, &'static str, bool, bool),
    /// No form has this number.
    NoNumber(u32),
    /// No form has this name.
    NoName(&'static str),
    /// Sources, a number of stages, and whether the sources are below it.
    Below(Of, u16, bool),
    /// A fault, and its name.
    Fault(PlanFault, &'static str),
}

const ONE: [Row; 20] = [
    Row::One(Form::Apply, THREE, Due::Needs(Args::One(INT))),
    Row::One(Form::Apply, RAW, Due::Settles(WRAPPED)),
    Row::One(Form::Accept, WRAPPED, Due::Settles(WRAPPED)),
    Row::One(Form::ThenRun, THREE, Due::Needs(Args::None)),
    Row::One(Form::ThenRun, RAW, Due::Settles(WRAPPED)),
    Row::One(Form::ApplyEither, THREE, Due::Needs(Args::One(INT))),
    Row::One(Form::AcceptEither, RAW, Due::Settles(WRAPPED)),
    Row::One(Form::RunEither, THREE, Due::Needs(Args::None)),
    Row::One(Form::Compose, THREE, Due::Needs(Args::One(INT))),
    Row::One(Form::Compose, RAW, Due::Settles(WRAPPED)),
    Row::One(Form::Handle, THREE, Due::Needs(Args::Got(THREE))),
    Row::One(Form::Handle, RAW, Due::Needs(Args::Got(RAW))),
    Row::One(Form::WhenComplete, RAW, Due::Needs(Args::Got(RAW))),
    Row::One(Form::Exceptionally, THREE, Due::Settles(THREE)),
    Row::One(Form::Exceptionally, RAW, Due::Needs(Args::Got(RAW))),
    Row::One(Form::ExceptionallyCompose, THREE, Due::Settles(THREE)),
    Row::One(Form::ExceptionallyCompose, RAW, Due::Needs(Args::Got(RAW))),
    Row::One(
        Form::ExceptionallyCompose,
        WRAPPED,
        Due::Needs(Args::Got(WRAPPED)),
    ),
    Row::One(Form::AnyOf, THREE, Due::Settles(THREE)),
    Row::One(Form::AnyOf, RAW, Due::Settles(WRAPPED)),
];

const TWO: [Row; 6] = [
    Row::Two(
        Form::Combine,
        THREE,
        NIL,
        Due::Needs(Args::Two(INT, Value::Nil)),
    ),
    Row::Two(
        Form::AcceptBoth,
        THREE,
        NIL,
        Due::Needs(Args::Two(INT, Value::Nil)),
    ),
    Row::Two(Form::RunBoth, THREE, NIL, Due::Needs(Args::None)),
    Row::Two(Form::Combine, THREE, RAW, Due::Settles(WRAPPED)),
    Row::Two(Form::Combine, RAW, THROWN, Due::Settles(WRAPPED)),
    Row::Two(Form::RunBoth, THROWN, RAW, Due::Settles(THROWN)),
];

const ANSWERS: [Row; 15] = [
    Row::Lands(Form::Supply, None, GIVES, Landing::Settles(THREE)),
    Row::Lands(Form::Apply, Some(NIL), GIVES, Landing::Settles(THREE)),
    Row::Lands(Form::Accept, Some(NIL), GIVES, Landing::Settles(NIL)),
    Row::Lands(Form::RunAsync, None, THROWS, Landing::Settles(THROWN)),
    Row::Lands(
        Form::Apply,
        Some(NIL),
        Answer::Link(1),
        Landing::Settles(BAD),
    ),
    Row::Lands(Form::Compose, Some(NIL), Answer::Link(4), Landing::Links(4)),
    Row::Lands(
        Form::Compose,
        Some(NIL),
        Answer::Link(5),
        Landing::Settles(BAD),
    ),
    Row::Lands(Form::Compose, Some(NIL), GIVES, Landing::Settles(BAD)),
    Row::Lands(
        Form::ExceptionallyCompose,
        Some(RAW),
        Answer::Link(4),
        Landing::Links(4),
    ),
    Row::Lands(
        Form::ExceptionallyCompose,
        Some(RAW),
        Answer::Link(5),
        Landing::Settles(BAD),
    ),
    Row::Lands(
        Form::ExceptionallyCompose,
        Some(RAW),
        GIVES,
        Landing::Settles(BAD),
    ),
    Row::Lands(
        Form::ExceptionallyCompose,
        Some(RAW),
        THROWS,
        Landing::Settles(THROWN),
    ),
    Row::Lands(Form::WhenComplete, Some(NIL), GIVES, Landing::Settles(NIL)),
    Row::Lands(
        Form::WhenComplete,
        Some(NIL),
        THROWS,
        Landing::Settles(THROWN),
    ),
    Row::Lands(
        Form::WhenComplete,
        Some(RAW),
        THROWS,
        Landing::Settles(WRAPPED),
    ),
];

const FITTING: [Row; 12] = [
    Row::Fits(Form::Source, Of::None, false, true),
    Row::Fits(Form::Source, Of::None, true, false),
    Row::Fits(Form::Supply, Of::None, true, true),
    Row::Fits(Form::Apply, Of::One(0), true, true),
    Row::Fits(Form::Apply, Of::One(0), false, false),
    Row::Fits(Form::Apply, Of::Two(0, 1), true, false),
    Row::Fits(Form::RunEither, Of::Two(1, 1), true, true),
    Row::Fits(Form::RunEither, Of::None, true, false),
    Row::Fits(Form::AllOf, Of::Two(0, 1), false, true),
    Row::Fits(Form::AnyOf, Of::One(0), true, false),
    Row::Fits(Form::ExceptionallyCompose, Of::One(0), true, true),
    Row::Fits(Form::ExceptionallyCompose, Of::None, true, false),
];

const FAULTS: [Row; 9] = [
    Row::Fault(PlanFault::TooManyStages, "TooManyStages"),
    Row::Fault(PlanFault::SourceNotLower, "SourceNotLower"),
    Row::Fault(PlanFault::WrongSourceCount, "WrongSourceCount"),
    Row::Fault(PlanFault::FunctionMissing, "FunctionMissing"),
    Row::Fault(PlanFault::FunctionUnwanted, "FunctionUnwanted"),
    Row::Fault(PlanFault::TooManyEdges, "TooManyEdges"),
    Row::Fault(PlanFault::NoSuchStage, "NoSuchStage"),
    Row::Fault(PlanFault::NoMemory, "NoMemory"),
    Row::Fault(PlanFault::TooManyLimits, "TooManyLimits"),
];

static TABLES: [&[Row]; 7] = [&ONE, &TWO, &ANSWERS, &FITTING, &NAMES, &BELOW, &FAULTS];

/// Whether a stage with these sources fits its form so.
fn fits_so(form: Form, of: Of, has_function: bool, fits: bool) -> bool {
    let by_parts = takes_count(form, of.count() as usize) & (calls_function(form) == has_function);
    (fits_form(form, of.count(), has_function) == fits) & (by_parts == fits)
}

/// Whether a row is so.
fn is_so(rt: &impl Abort, alloc: Global, row: Row) -> bool {
    match row {
        Row::One(form, outcome, due) => due_one(form, outcome) == due,
        Row::Two(form, first, second, due) => due_two(form, first, second) == due,
        Row::Lands(form, source, answer, lands) => landing(form, 5, source, answer) == lands,
        Row::Fits(form, of, has_function, fits) => fits_so(form, of, has_function, fits),
        Row::Named(number, form, name, answers_a_stage, takes_the_first) => {
            is_named(form, number, name, answers_a_stage)
                & (is_decided_by_first(form) == takes_the_first)
        }
        Row::NoNumber(number) => Form::numbered(number).is_none(),
        Row::NoName(name) => Form::named(name).is_none(),
        Row::Below(of, stages, is_below) => of.are_below(stages) == is_below,
        Row::Fault(fault, name) => is_shown(rt, alloc, &fault, name),
    }
}

#[test]
fn the_tables_are_right(rt: HostRuntime) {
    for (table, rows) in TABLES.iter().enumerate() {
        for (at, row) in rows.iter().enumerate() {
            holds(&rt, is_so(&rt, rt.alloc(), *row), (table, at));
        }
    }
    let name = "WriteFault";
    holds(&rt, is_shown(&rt, rt.alloc(), &WriteFault, name), name);
}
