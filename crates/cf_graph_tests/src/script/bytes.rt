//! Scripts that are read and written one byte a call.
use crate::checks::{holds, must};
use crate::script::devices::{Dripping, Sipping, Then};
use crate::script::reports::{ADD_FIVE, ADD_FIVE_REPORT, lines};
use cf_script::{Part, ScriptFault, run_script};
use std::io::ErrorKind;
use std::process::Abort;

/// A script, the lines of its report, separated by ` / `, and what the run answers.
struct Row {
    name: &'static str,
    script: &'static str,
    report: &'static str,
    ended: Result<(), ScriptFault>,
}

static ROWS: [Row; 9] = [
    Row {
        name: "an empty plan prints no byte",
        script: r#"{"cf":1,"stages":[]}"#,
        report: "",
        ended: Ok(()),
    },
    Row {
        name: "a source and an apply",
        script: ADD_FIVE,
        report: ADD_FIVE_REPORT,
        ended: Ok(()),
    },
    Row {
        name: "a fault goes down a chain, wrapped once",
        script: r#"{"cf":1,"stages":[{"form":"source"},{"form":"apply","of":[0],"fn":{"add":1}},{"form":"apply","of":[1],"fn":{"add":1}}],"steps":[["fail",0,7],["now",0],["now",2]]}"#,
        report: "true / completion thrown 7 / completion thrown 7 / stage 0 fault thrown 7 raw / stage 1 fault thrown 7 wrapped / stage 2 fault thrown 7 wrapped",
        ended: Ok(()),
    },
    Row {
        name: "a time-out's code goes down a chain, and a limit's to who claims",
        script: r#"{"cf":3,"stages":[{"form":"source"},{"form":"apply","of":[0],"fn":{"add":1}},{"form":"source"},{"form":"handle","of":[2],"fn":{"rescue":0}}],"limits":[{"stage":2,"at":5,"kind":"timeout","code":4294967295}],"steps":[["failAs",0,"badanswer",7],["now",1],["tick",5],["claim",1,3]]}"#,
        report: "true / completion badanswer 7 / fired 1 / granted got fault timeout 4294967295 raw / stage 0 fault badanswer 7 raw / stage 1 fault badanswer 7 wrapped / stage 2 fault timeout 4294967295 raw / stage 3 pending",
        ended: Ok(()),
    },
    Row {
        name: "claims hand out nothing, two values or an outcome",
        script: r#"{"cf":1,"stages":[{"form":"supply","fn":{"const":4}},{"form":"source"},{"form":"combine","of":[1,1],"fn":"sum"},{"form":"handle","of":[1],"fn":{"rescue":0}}],"steps":[["complete",1,-6],["claim",5,0],["claim",5,2],["claim",5,3],["finish",5,0,{"link":0}]]}"#,
        report: "true / granted none / granted two -6 -6 / granted got value -6 / won / stage 0 fault badanswer wrapped / stage 1 value -6 / stage 2 pending / stage 3 pending",
        ended: Ok(()),
    },
    Row {
        name: "a step may name a stage that an earlier one attached, and a limit fires before",
        script: r#"{"cf":2,"room":1,"stages":[{"form":"source"}],"limits":[{"stage":0,"at":5,"kind":"value","value":1}],"steps":[["tick",5],["attach",{"form":"handle","of":[0],"fn":{"add":1}}],["claim",7,1],["cancel",1],["finish",7,1,{"give":1}],["now",1]]}"#,
        report: "fired 1 / attached 1 / granted got value 1 / true / late / cancellation / stage 0 value 1 / stage 1 fault cancelled raw",
        ended: Ok(()),
    },
    Row {
        name: "an empty input",
        script: "",
        report: "fault 2 not json",
        ended: Err(ScriptFault::NotJson),
    },
    Row {
        name: "an unknown form",
        script: r#"{"cf":1,"stages":[{"form":"obtrude"}]}"#,
        report: "fault 3 shape stage 0",
        ended: Err(ScriptFault::Shape(Part::Stage(0))),
    },
    Row {
        name: "nothing is printed before all steps are checked",
        script: r#"{"cf":1,"stages":[{"form":"source"}],"steps":[["cancel",0],["cancel",1]]}"#,
        report: "fault 6 step 1",
        ended: Err(ScriptFault::Step(1)),
    },
];

/// Runs a script with devices that move one byte a call.
fn check_bytes(
    rt: &(impl Abort + AllocGlobal),
    name: &str,
    script: &str,
    printed: &str,
    ended: Result<(), ScriptFault>,
) {
    let mut sips = Sipping {
        held: Vec::new(rt.alloc()),
        calls: u64::MAX,
        then: Then::Fails,
        flushes: true,
    };
    let mut drips = Dripping {
        rest: script.as_bytes(),
        calls: u64::MAX,
        kind: ErrorKind::Other,
    };
    let gave = run_script(rt.alloc(), &mut drips, &mut sips);
    holds(rt, sips.held.as_slice() == printed.as_bytes(), name);
    holds(rt, gave == ended, name);
}

#[test]
fn texts_move_a_byte_a_call(rt: HostRuntime) {
    for row in &ROWS {
        let printed = lines(&rt, rt.alloc(), row.report);
        check_bytes(&rt, row.name, row.script, printed.as_str(), row.ended);
    }
}

/// `head`, then `item` so many times, then `tail`.
fn repeated(
    rt: &(impl Abort + AllocGlobal),
    head: &str,
    item: &str,
    times: u32,
    tail: &str,
) -> String {
    let mut text = String::new(rt.alloc());
    must(rt, text.push_str(head));
    for _ in 0..times {
        must(rt, text.push_str(item));
    }
    must(rt, text.push_str(tail));
    text
}

#[test]
fn the_most_steps_move_a_byte_a_call(rt: HostRuntime) {
    let head = r#"{"cf":1,"stages":[],"steps":["#;
    let script = repeated(&rt, head, r#"["work"],"#, 19_999, r#"["work"]]}"#);
    let printed = repeated(&rt, "", "worked 0\n", 20_000, "");
    let name = "20,000 steps";
    check_bytes(&rt, name, script.as_str(), printed.as_str(), Ok(()));
}

#[test]
fn a_byte_too_many_is_told_a_byte_a_call(rt: HostRuntime) {
    let script = repeated(&rt, r#"{"cf":1,"stages":[]}"#, " ", 1_048_557, "");
    let printed = "fault 1 too long\n";
    let ended = Err(ScriptFault::TooLong);
    check_bytes(&rt, "one byte too many", script.as_str(), printed, ended);
}
