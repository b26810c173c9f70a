//! The texts in which one history is told.
ghost use Rattle.std.specs.Prelude.{◌≡◌, true};
ghost use Rattle.cf_forms.specs.Plans.{has_place};

use crate::checks::{holds, must};
use cf_forms::{Form, Limit, LimitKind};
use cf_outcome::Value;
use cf_plan::{Plan, PlanBuilder};
use cf_telling::{Kind, People, Tale, tale_of, tell};
use std::alloc::Global;
use std::process::Abort;

/// A worker loads, charges in vain, says sorry and attaches a stage, which another caller cancels.
static WORDS: [u64; 9] = [
    0x0401000000000000,
    0x0501000100000000,
    0x0401001000000000,
    0x0501001200000000,
    0x0401002000000000,
    0x0501002100000001,
    0x0701002104000007,
    0x0302003000000000,
    0x0101003100000002,
];

static NAMES: [&str; 3] = ["load", "charge", ""];

static LANES: [&str; 2] = ["request", "worker"];

static VALUES: [&str; 2] = ["49 \"euros\"", "sorry,\n9.000 ms  nobody pays"];

static ERRORS: [&str; 1] = ["card declined"];

static TEXTS: [(Kind, &str); 5] = [
    (Kind::Lines, LINES),
    (Kind::Line, LINE),
    (Kind::Report, REPORT),
    (Kind::Script, SCRIPT),
    (Kind::Account, ACCOUNT),
];

const LINES: &str = r#"order 17; paid by card: 9 events, 4 stages
    0.000 ms  worker claims 0 load and calls it
    1.250 ms  worker finishes 0 load, which gave 49 "euros"
              0 load ends: 49 "euros"
    2.500 ms  worker claims 1 charge and calls it with 49 "euros"
    3.750 ms  worker finishes 1 charge, which failed with card declined
              1 charge ends: card declined
    5.000 ms  worker claims 2 exceptionally and calls it with card declined
    6.250 ms  worker finishes 2 exceptionally, which gave sorry,\n9.000 ms  nobody pays
              2 exceptionally ends: sorry,\n9.000 ms  nobody pays
    7.500 ms  worker attaches 3 accept behind 2 exceptionally
    8.750 ms  caller 2 cancels 3 accept
              3 accept ends: cancelled
   10.000 ms  worker completes 3 accept with 2: too late
"#;

const LINE: &str =
    r#"order 17\u003b paid by card: 9 events, 4 stages in 10.000 ms; 2 failed: 1 charge by card declined; 0 open"#;

const REPORT: &str = r#"granted none
won
granted one 0
won
granted got fault thrown 0 wrapped
won
attached 3
true
false
stage 0 value 0
stage 1 fault thrown 0 wrapped
stage 2 value 1
stage 3 fault cancelled raw
"#;

const SCRIPT: &str =
    r#"{"cf":2,"room":1,"stages":[{"form":"supply","fn":{"const":0}},{"form":"apply","of":[0],"fn":{"const":1}},{"form":"exceptionally","of":[1],"fn":{"const":2}}],"steps":[["claim",1,0],["finish",1,0,{"give":0}],["claim",1,1],["finish",1,1,{"throw":0}],["claim",1,2],["finish",1,2,{"give":1}],["attach",{"form":"accept","of":[2],"fn":{"const":7}}],["cancel",3],["complete",3,2]]}
"#;

const ACCOUNT: &str =
    r#"{"plan":{"cf":2,"room":1,"stages":[{"form":"supply","fn":{"const":0}},{"form":"apply","of":[0],"fn":{"const":1}},{"form":"exceptionally","of":[1],"fn":{"const":2}}]},"functions":4096,"events":["288511851128422400","360569449461317632","288511919847899136","360569522475761664","288511988567375872","360569586900271105","504684775043235847","216735938225635328","72339279468036098"],"callers":[[],[["did",1,"288511851128422400","granted none"],["did",2,"360569449461317632","won"],["outcome",2,0,"value 0"],["did",3,"288511919847899136","granted one 0"],["did",4,"360569522475761664","won"],["outcome",4,1,"fault thrown 0 wrapped"],["did",5,"288511988567375872","granted got fault thrown 0 wrapped"],["did",6,"360569586900271105","won"],["outcome",6,2,"value 1"],["did",7,"504684775043235847","attached 3"],["did",9,"72339279468036098","false"]],[["did",8,"216735938225635328","true"],["outcome",8,3,"fault cancelled raw"]]],"outcomes":["value 0","fault thrown 0 wrapped","value 1","fault cancelled raw"],"name":"order 17; paid by card","names":["load","charge",""],"times":[5000000,6250000,7500000,8750000,10000000,11250000,12500000,13750000,15000000],"lanes":["request","worker"],"values":["49 \u0022euros\u0022","sorry,\u000a9.000 ms  nobody pays"],"errors":["card declined"]}
"#;

/// One caller times a stage out, another fails it with a bad answer in vain, and a limit fires, each with a code.
static CODED_WORDS: [u64; 5] = [
    0x0801001000000001,
    0x0802001100000007,
    0x0800000000000000,
    0x0601000000000005,
    0x0802004100000001,
];

static CODED_ERRORS: [&str; 2] = ["card declined", "late"];

static CODED_TEXTS: [(Kind, &str); 5] = [
    (Kind::Lines, CODED_LINES),
    (Kind::Line, CODED_LINE),
    (Kind::Report, CODED_REPORT),
    (Kind::Script, CODED_SCRIPT),
    (Kind::Account, CODED_ACCOUNT),
];

const CODED_LINES: &str = r#"a history: 5 events, 5 stages
caller 1 times out 1 source, late
              1 source ends: timed out, late
              3 apply ends: timed out, late, passed on
caller 2 fails 1 source with a bad answer, code 7: too late
caller 0 times out 0 source
              0 source ends: timed out
caller 1 lets it be 5: 1 limit fires
              2 source ends: timed out, code 4294967295
caller 2 fails 4 source with a bad answer, late
              4 source ends: a bad answer, late
"#;

const CODED_LINE: &str =
    "a history: 5 events, 5 stages; 5 failed: 1 source by timed out, late; 0 open";

const CODED_REPORT: &str = r#"true
false
true
fired 1
true
stage 0 fault timeout raw
stage 1 fault timeout 1 raw
stage 2 fault timeout 4294967295 raw
stage 3 fault timeout 1 wrapped
stage 4 fault badanswer 1 raw
"#;

const CODED_SCRIPT: &str =
    r#"{"cf":3,"room":1,"stages":[{"form":"source"},{"form":"source"},{"form":"source"},{"form":"apply","of":[1],"fn":{"const":0}},{"form":"source"}],"limits":[{"stage":2,"at":5,"kind":"timeout","code":4294967295},{"stage":0,"at":9,"kind":"timeout"},{"stage":0,"at":9,"kind":"value","value":null},{"stage":4,"at":9,"kind":"value","value":-3}],"steps":[["failAs",1,"timeout",1],["failAs",1,"badanswer",7],["failAs",0,"timeout"],["tick",5],["failAs",4,"badanswer",1]]}
"#;

const CODED_ACCOUNT: &str =
    r#"{"plan":{"cf":2,"room":1,"stages":[{"form":"source"},{"form":"source"},{"form":"source"},{"form":"apply","of":[1],"fn":{"const":0}},{"form":"source"}],"limits":[{"stage":2,"at":5,"kind":"timeout","code":4294967295},{"stage":0,"at":9,"kind":"timeout"},{"stage":0,"at":9,"kind":"value","value":null},{"stage":4,"at":9,"kind":"value","value":-3}]},"functions":4096,"events":["576742295999610881","577023775271288839","576460752303423488","432627039204278277","577023981429719041"],"callers":[[["did",3,"576460752303423488","true"],["outcome",3,0,"fault timeout raw"]],[["did",1,"576742295999610881","true"],["outcome",1,1,"fault timeout 1 raw"],["outcome",1,3,"fault timeout 1 wrapped"],["did",4,"432627039204278277","fired 1"],["outcome",4,2,"fault timeout 4294967295 raw"]],[["did",2,"577023775271288839","false"],["did",5,"577023981429719041","true"],["outcome",5,4,"fault badanswer 1 raw"]]],"outcomes":["fault timeout raw","fault timeout 1 raw","fault timeout 4294967295 raw","fault timeout 1 wrapped","fault badanswer 1 raw"],"names":[],"times":[],"lanes":[],"values":[],"errors":["card declined","late"]}
"#;

/// A plan of a supply, an apply and what handles its fault, which has place for one stage more.
fn plan(rt: &impl Abort, alloc: Global) -> Plan
    ensures { has_place result.stages 1 ≡ true }
{
    let mut builder = PlanBuilder::new(alloc);
    must(rt, builder.stage(Form::Supply, &[], Some(0)));
    must(rt, builder.stage(Form::Apply, &[0], Some(1)));
    must(rt, builder.stage(Form::Exceptionally, &[1], Some(2)));
    let plan = must(rt, builder.build());
    holds(rt, plan.has_place(1), "place");
    plan
}

fn tale(rt: &impl Abort, alloc: Global) -> Tale {
    let plan = plan(rt, alloc);
    must(rt, tale_of(alloc, &plan, 1, &WORDS))
}

fn push_all(rt: &impl Abort, alloc: Global, texts: &mut Vec<String>, said: &[&str]) {
    for text in said {
        let text = must(rt, String::from_str(alloc, text));
        must(rt, texts.push(text));
    }
}

/// What is said of it: one of the values would look like a line of its own.
fn people(rt: &impl Abort, alloc: Global) -> People {
    let mut people = People::new(alloc);
    must(rt, people.name.push_str("order 17; paid by card"));
    push_all(rt, alloc, &mut people.names, &NAMES);
    push_all(rt, alloc, &mut people.lanes, &LANES);
    push_all(rt, alloc, &mut people.values, &VALUES);
    push_all(rt, alloc, &mut people.errors, &ERRORS);
    for k in 0..9u64 {
        must(rt, people.times.push(5_000_000 + k * 1_250_000));
    }
    people
}

/// The tale is told so in each of its kinds.
fn check(rt: &impl Abort, alloc: Global, tale: &Tale, people: &People, texts: &[(Kind, &str)]) {
    for (kind, text) in texts {
        let told = must(rt, tell(alloc, tale, people, *kind));
        holds(rt, told.as_str() == *text, kind);
    }
}

#[test]
fn a_history_is_told_in_each_of_its_kinds(rt: HostRuntime) {
    let tale = tale(&rt, rt.alloc());
    let people = people(&rt, rt.alloc());
    check(&rt, rt.alloc(), &tale, &people, &TEXTS);
}

/// Limits of a source, of one more and of a third: of each kind, with a code and without one.
static LIMITS: [Limit; 4] = [
    Limit {
        stage: 2,
        at: 5,
        kind: LimitKind::Timeout(4_294_967_295),
    },
    Limit {
        stage: 0,
        at: 9,
        kind: LimitKind::Timeout(0),
    },
    Limit {
        stage: 0,
        at: 9,
        kind: LimitKind::Give(Value::Nil),
    },
    Limit {
        stage: 4,
        at: 9,
        kind: LimitKind::Give(Value::Int(-3)),
    },
];

/// A plan of four sources and an apply, with these limits and place for one stage more.
fn limited_plan(rt: &impl Abort, alloc: Global) -> Plan
    ensures { has_place result.stages 1 ≡ true }
{
    let mut builder = PlanBuilder::new(alloc);
    must(rt, builder.stage(Form::Source, &[], None));
    must(rt, builder.stage(Form::Source, &[], None));
    must(rt, builder.stage(Form::Source, &[], None));
    must(rt, builder.stage(Form::Apply, &[1], Some(0)));
    must(rt, builder.stage(Form::Source, &[], None));
    for limit in &LIMITS {
        must(rt, builder.limit(limit.stage, limit.at, limit.kind));
    }
    let plan = must(rt, builder.build());
    holds(rt, plan.has_place(1), "place");
    plan
}

fn coded_tale(rt: &impl Abort, alloc: Global) -> Tale {
    let plan = limited_plan(rt, alloc);
    must(rt, tale_of(alloc, &plan, 1, &CODED_WORDS))
}

#[test]
fn a_history_tells_the_codes_of_time_outs_and_bad_answers(rt: HostRuntime) {
    let tale = coded_tale(&rt, rt.alloc());
    let mut people = People::new(rt.alloc());
    push_all(&rt, rt.alloc(), &mut people.errors, &CODED_ERRORS);
    check(&rt, rt.alloc(), &tale, &people, &CODED_TEXTS);
}
