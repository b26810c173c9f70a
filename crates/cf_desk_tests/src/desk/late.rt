//! A desk leaves all work that nobody's question needs; and the texts of its faults.
use crate::checks::{holds, is_shown};
use crate::desk::desks::Opening;
use crate::desk::ends::End;
use crate::desk::steps::{Case, Step, Turn, play};
use crate::plans::Row;
use cf_desk::{Ask, Call, CloseFault, DeskFault, OpenFault, Told};
use cf_forms::Form;
use cf_model::Reply;
use cf_outcome::{Outcome, Value};

/// A source and three stages, each of which follows the one before.
const CHAIN: [Row<'static>; 4] = [
    (Form::Source, &[], None),
    (Form::AnyOf, &[0], None),
    (Form::AnyOf, &[1], None),
    (Form::AnyOf, &[2], None),
];

/// A desk over the chain.
const CHAINED: Opening = Opening {
    rows: &CHAIN,
    log: 4,
    calls: 4,
    room: None,
    second_first: false,
};

/// The same, closed with the second caller's pass first.
const SECOND_FIRST: Opening = Opening {
    second_first: true,
    ..CHAINED
};

const COMPLETES: Turn = Turn::First(Step::Acts(
    Call::Complete(0, Value::Int(1)),
    Ok(Reply::Flag(true)),
));

const READS: Turn = Turn::Second(Step::Reads(
    Ask::Outcome(0),
    Ok(Told::Outcome(Some(Outcome::Value(Value::Int(1))))),
));

/// The second caller reads what the first one completed, and before it ticks, or doesn't.
const READ: [Turn; 2] = [COMPLETES, READS];

const TICKED: [Turn; 3] = [
    COMPLETES,
    Turn::Second(Step::ActsAll(&[Call::Tick(1)])),
    READS,
];

/// The callers meet behind that, or the second one heeds what the first has seen.
const MET: [Turn; 2] = [COMPLETES, Turn::Meet];

const HEEDED: [Turn; 2] = [COMPLETES, Turn::SecondHeeds(&[])];

/// Nothing of the chain was treated, and all of it is then.
const LEFT: [End; 2] = [End::Turns(0), End::Nudge(9, 3)];

/// Nothing of the chain is treated in these turns.
macro_rules! leaves {
    ($name:expr, $opening:expr, $turns:expr) => {
        Case {
            name: $name,
            opening: $opening,
            turns: $turns,
            ends: &LEFT,
        }
    };
}

static CASES: [Case; 7] = [
    leaves!("read", CHAINED, &READ),
    leaves!("read, the second pass first", SECOND_FIRST, &READ),
    leaves!("ticked", CHAINED, &TICKED),
    leaves!("met", CHAINED, &MET),
    leaves!("heeded", CHAINED, &HEEDED),
    leaves!("met, the second pass first", SECOND_FIRST, &MET),
    leaves!("heeded, the second pass first", SECOND_FIRST, &HEEDED),
];

#[test]
fn leaves_what_nobody_asks_for(rt: HostRuntime) {
    play(&rt, rt.alloc(), &CASES);
}

static OPEN_FAULTS: [(OpenFault, &str); 6] = [
    (OpenFault::NoMemory, "NoMemory"),
    (OpenFault::Callers, "Callers"),
    (OpenFault::Log, "Log"),
    (OpenFault::Calls, "Calls"),
    (OpenFault::Room, "Room"),
    (OpenFault::Functions, "Functions"),
];

static DESK_FAULTS: [(DeskFault, &str); 4] = [
    (DeskFault::NoStage, "NoStage"),
    (DeskFault::BadAttach, "BadAttach"),
    (DeskFault::LogFull, "LogFull"),
    (DeskFault::PassFull, "PassFull"),
];

#[test]
fn the_text_of_a_fault_is_its_name(rt: HostRuntime) {
    for (fault, name) in &OPEN_FAULTS {
        holds(&rt, is_shown(&rt, rt.alloc(), fault, name), name);
    }
    for (fault, name) in &DESK_FAULTS {
        holds(&rt, is_shown(&rt, rt.alloc(), fault, name), name);
    }
    let name = "Mismatch";
    holds(
        &rt,
        is_shown(&rt, rt.alloc(), &CloseFault::Mismatch, name),
        name,
    );
}
