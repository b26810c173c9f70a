//! The text of each part of a script, and of each reason why bytes are none.
use crate::checks::{holds, is_shown};
use cf_plan::PlanFault;
use cf_script_reading::{Part, ReadingFault};
use std::alloc::Global;
use std::fmt::Display;
use std::process::Abort;

/// Each of these is written so.
fn check<T: Display>(rt: &impl Abort, alloc: Global, rows: &[(T, &str)]) {
    for (said, text) in rows {
        holds(rt, is_shown(rt, alloc, said, text), text);
    }
}

static PARTS: [(Part, &str); 10] = [
    (Part::Top, "top"),
    (Part::Version, "cf"),
    (Part::Room, "room"),
    (Part::Stages, "stages"),
    (Part::Limits, "limits"),
    (Part::Steps, "steps"),
    (Part::Stage(0), "stage 0"),
    (Part::Stage(4294967295), "stage 4294967295"),
    (Part::Limit(0), "limit 0"),
    (Part::Limit(4294967295), "limit 4294967295"),
];

#[test]
fn each_part_has_its_text(rt: HostRuntime) {
    check(&rt, rt.alloc(), &PARTS);
}

static FAULTS: [(ReadingFault, &str); 9] = [
    (ReadingFault::TooLong, "TooLong"),
    (ReadingFault::NotJson, "NotJson"),
    (ReadingFault::Shape(Part::Top), "Shape(top)"),
    (ReadingFault::Shape(Part::Limit(7)), "Shape(limit 7)"),
    (
        ReadingFault::Plan(PlanFault::SourceNotLower, 4294967295),
        "Plan(SourceNotLower, 4294967295)",
    ),
    (ReadingFault::Function(5), "Function(5)"),
    (ReadingFault::Step(20000), "Step(20000)"),
    (ReadingFault::Read, "Read"),
    (ReadingFault::NoMemory, "NoMemory"),
];

#[test]
fn each_fault_has_its_text(rt: HostRuntime) {
    check(&rt, rt.alloc(), &FAULTS);
}
