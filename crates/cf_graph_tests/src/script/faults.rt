//! The line of each fault.
use crate::checks::{holds, is_shown};
use cf_script::{Part, PlanFault, ScriptFault};

type Row = (ScriptFault, &'static str);

/// The longest line of each fault where it tells a number, of which no script is long enough for the greatest. That of a
/// writer that failed is never written.
const LONGEST: [Row; 10] = [
    (ScriptFault::TooLong, "fault 1 too long"),
    (ScriptFault::NotJson, "fault 2 not json"),
    (
        ScriptFault::Shape(Part::Stage(u32::MAX)),
        "fault 3 shape stage 4294967295",
    ),
    (
        ScriptFault::Plan(PlanFault::TooManyLimits, u32::MAX),
        "fault 4 plan 9 at 4294967295",
    ),
    (
        ScriptFault::Function(u32::MAX),
        "fault 5 function 4294967295",
    ),
    (ScriptFault::Step(u32::MAX), "fault 6 step 4294967295"),
    (ScriptFault::Read, "fault 7 read"),
    (ScriptFault::Write, "fault 8 write"),
    (ScriptFault::NoMemory, "fault 9 memory"),
    (ScriptFault::RaceSize, "fault 10 race size"),
];

/// Each part that has the wrong shape.
const PARTS: [Row; 8] = [
    (ScriptFault::Shape(Part::Top), "fault 3 shape top"),
    (ScriptFault::Shape(Part::Version), "fault 3 shape cf"),
    (ScriptFault::Shape(Part::Room), "fault 3 shape room"),
    (ScriptFault::Shape(Part::Stages), "fault 3 shape stages"),
    (ScriptFault::Shape(Part::Limits), "fault 3 shape limits"),
    (ScriptFault::Shape(Part::Steps), "fault 3 shape steps"),
    (ScriptFault::Shape(Part::Stage(0)), "fault 3 shape stage 0"),
    (ScriptFault::Shape(Part::Limit(9)), "fault 3 shape limit 9"),
];

/// Each refusal of a plan.
const REFUSALS: [Row; 9] = [
    (
        ScriptFault::Plan(PlanFault::TooManyStages, 0),
        "fault 4 plan 1 at 0",
    ),
    (
        ScriptFault::Plan(PlanFault::SourceNotLower, 0),
        "fault 4 plan 2 at 0",
    ),
    (
        ScriptFault::Plan(PlanFault::WrongSourceCount, 0),
        "fault 4 plan 3 at 0",
    ),
    (
        ScriptFault::Plan(PlanFault::FunctionMissing, 0),
        "fault 4 plan 4 at 0",
    ),
    (
        ScriptFault::Plan(PlanFault::FunctionUnwanted, 0),
        "fault 4 plan 5 at 0",
    ),
    (
        ScriptFault::Plan(PlanFault::TooManyEdges, 0),
        "fault 4 plan 6 at 0",
    ),
    (
        ScriptFault::Plan(PlanFault::NoSuchStage, 0),
        "fault 4 plan 7 at 0",
    ),
    (
        ScriptFault::Plan(PlanFault::NoMemory, 0),
        "fault 4 plan 8 at 0",
    ),
    (
        ScriptFault::Plan(PlanFault::TooManyLimits, 0),
        "fault 4 plan 9 at 0",
    ),
];

static LINES: [&[Row]; 3] = [&LONGEST, &PARTS, &REFUSALS];

#[test]
fn each_fault_has_its_line(rt: HostRuntime) {
    for rows in &LINES {
        for (fault, line) in *rows {
            holds(&rt, is_shown(&rt, rt.alloc(), fault, line), line);
        }
    }
}
