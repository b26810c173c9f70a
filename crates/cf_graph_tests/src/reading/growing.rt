//! Scripts of version 2: room, and steps that attach stages.
use crate::checks::{holds, must};
use crate::reading::reading::{Parts, is_read};
use cf_forms::{Form, Of};
use cf_model::{Ask, Event};
use cf_outcome::Value;
use cf_plan::PlanFault;
use cf_script_reading::{Func, Part, ReadingFault, Script, Step, read_race, read_script};
use std::alloc::Global;
use std::process::Abort;

/// Adds a piece so often, with commas between.
fn add_pieces(rt: &impl Abort, text: &mut String, piece: &str, count: u32) {
    for i in 0..count {
        if i > 0 {
            must(rt, text.push_str(","));
        }
        must(rt, text.push_str(piece));
    }
}

/// Why a text in which one piece stands so often, with commas between, is refused, if it is.
fn refused(
    rt: &impl Abort,
    alloc: Global,
    before: &str,
    piece: &str,
    count: u32,
    after: &str,
) -> Option<ReadingFault> {
    let mut text = must(rt, String::from_str(alloc, before));
    add_pieces(rt, &mut text, piece, count);
    must(rt, text.push_str(after));
    read_script(alloc, text.as_bytes()).err()
}

/// How often a piece stands in a text, what stands behind, and why the text is refused, if it is.
type Row = (u32, &'static str, Option<ReadingFault>);

/// Texts with the same front: what stands in it, and each of these pieces as often as each row says.
struct Texts {
    before: &'static str,
    pieces: &'static [&'static str],
    rows: &'static [Row],
}

/// These texts are read, or refused so.
fn check(rt: &impl Abort, alloc: Global, texts: &Texts) {
    for piece in texts.pieces {
        for (count, after, fault) in texts.rows {
            let told = refused(rt, alloc, texts.before, piece, *count, after);
            holds(rt, told == *fault, (texts.before, piece, count, after));
        }
    }
}

const FIRST: Option<ReadingFault> = Some(ReadingFault::Step(0));

const SECOND: Option<ReadingFault> = Some(ReadingFault::Step(1));

const THIRD: Option<ReadingFault> = Some(ReadingFault::Step(2));

const ROOM: Option<ReadingFault> = Some(ReadingFault::Shape(Part::Room));

const STAGES: Option<ReadingFault> = Some(ReadingFault::Shape(Part::Stages));

/// Room is a whole number up to 4,096.
const WRONG_ROOMS: [&str; 10] = [
    "4097",
    "-1",
    "null",
    "\"x\"",
    "1.5",
    "true",
    "{}",
    "[]",
    "65536",
    "4294967296",
];

const FITTING_ROOMS: [&str; 3] = ["0", "1", "4096"];

/// Stages and room together are at most 4,096, edges and twice the room at most 16,384.
const SOURCES: [Row; 2] = [(4_000, "]}", None), (4_001, "]}", ROOM)];

const EDGES: [Row; 3] = [
    (16_382, "]}]}", None),
    (16_383, "]}]}", ROOM),
    (16_384, "]}]}", ROOM),
];

/// In version 1 room is a word like any other.
const UNREAD_ROOMS: [&str; 7] = ["\"x\"", "1", "4096", "4097", "-1", "null", "[]"];

const WRONG_SHAPES: [&str; 12] = [
    r#"["attach"]"#,
    r#"["attach",{"form":"source"},0]"#,
    r#"["attached",{"form":"source"}]"#,
    r#"["attach",0]"#,
    r#"["attach",[]]"#,
    r#"["attach",{}]"#,
    r#"["attach",{"form":0}]"#,
    r#"["attach",{"form":"walk"}]"#,
    r#"["attach",{"form":"source","of":0}]"#,
    r#"["attach",{"form":"source","of":null}]"#,
    r#"["attach",{"form":"allOf","of":[0,"1"]}]"#,
    r#"["attach",{"form":"apply","of":[0],"fn":null}]"#,
];

const WRONG_FORMS: [&str; 12] = [
    r#"["attach",{"form":"allOf","of":[0,1,0]}]"#,
    r#"["attach",{"form":"allOf","of":[2]}]"#,
    r#"["attach",{"form":"allOf","of":[0,2]}]"#,
    r#"["attach",{"form":"allOf","of":[-1]}]"#,
    r#"["attach",{"form":"allOf","of":[65536]}]"#,
    r#"["attach",{"form":"apply","of":[0]}]"#,
    r#"["attach",{"form":"apply","of":[0],"fn":"walk"}]"#,
    r#"["attach",{"form":"apply","of":[0,1],"fn":"neg"}]"#,
    r#"["attach",{"form":"combine","of":[0],"fn":"sum"}]"#,
    r#"["attach",{"form":"source","of":[0]}]"#,
    r#"["attach",{"form":"source","fn":"neg"}]"#,
    r#"["attach",{"form":"supply","fn":{"add":1,"mul":2}}]"#,
];

const FITTING_ATTACHES: [&str; 10] = [
    r#"["attach",{"form":"source"}]"#,
    r#"["attach",{"form":"source","of":[],"who":7}]"#,
    r#"["attach",{"form":"allOf"}]"#,
    r#"["attach",{"form":"anyOf","of":[]}]"#,
    r#"["attach",{"form":"allOf","of":[1,1]}]"#,
    r#"["attach",{"form":"anyOf","of":[1]}]"#,
    r#"["attach",{"form":"runAsync","fn":"neg"}]"#,
    r#"["attach",{"form":"compose","of":[1],"fn":{"goto":65535}}]"#,
    r#"["attach",{"form":"exceptionallyCompose","of":[0],"fn":{"goto":1}}]"#,
    r#"["attach",{"form":"runEither","of":[1,0],"fn":{"rescue":null}}]"#,
];

/// The step that attaches a source.
const ATTACHES: &str = r#"["attach",{"form":"source"}]"#;

/// A step names a stage that was attached before it, as far as there was room.
const ONCE_ATTACHED: [Row; 9] = [
    (0, r#"["outcome",1]]}"#, FIRST),
    (1, r#",["outcome",1]]}"#, None),
    (1, r#",["outcome",2]]}"#, SECOND),
    (2, r#",["claim",0,1],["now",1]]}"#, None),
    (2, r#",["complete",2,1]]}"#, THIRD),
    (1, r#",["attach",{"form":"allOf","of":[0,1]}]]}"#, None),
    (2, r#",["attach",{"form":"allOf","of":[1]}]]}"#, None),
    (2, r#",["attach",{"form":"allOf","of":[2]}]]}"#, THIRD),
    (0, r#"["attach",{"form":"allOf","of":[1]}]]}"#, FIRST),
];

/// Functions are numbered on through the steps, up to 4,095, also of stages for which there is no room.
const STAGES_AND_STEPS: [Row; 5] = [
    (
        4_095,
        r#"],"steps":[["attach",{"form":"supply","fn":"neg"}]]}"#,
        None,
    ),
    (
        4_095,
        r#"],"steps":[["attach",{"form":"supply","fn":"neg"}],["attach",{"form":"supply","fn":"neg"}]]}"#,
        SECOND,
    ),
    (
        4_095,
        r#"],"steps":[["attach",{"form":"source"}],["attach",{"form":"supply","fn":"neg"}]]}"#,
        None,
    ),
    (
        4_096,
        r#"],"steps":[["attach",{"form":"supply","fn":"neg"}]]}"#,
        FIRST,
    ),
    (
        4_096,
        r#"],"steps":[["attach",{"form":"source"}],["attach",{"form":"supply","fn":"neg"}]]}"#,
        SECOND,
    ),
];

const STEPS: [Row; 2] = [
    (4_096, "]}", None),
    (4_097, "]}", Some(ReadingFault::Step(4_096))),
];

/// Attaches count as steps.
const COUNTED: [Row; 4] = [
    (20_000, "]}", None),
    (20_001, "]}", Some(ReadingFault::Step(20_000))),
    (4_096, r#",["outcome",4095]]}"#, None),
    (
        4_095,
        r#",["outcome",4095]]}"#,
        Some(ReadingFault::Step(4_095)),
    ),
];

/// What stands before the steps of a script of two sources and room for two stages.
const ROOMY: &str = r#"{"cf":2,"room":2,"stages":[{"form":"source"},{"form":"source"}],"steps":["#;

/// The step that attaches a supply.
const ATTACHES_SUPPLY: &str = r#"["attach",{"form":"supply","fn":"neg"}]"#;

static TEXTS: [Texts; 14] = [
    Texts {
        before: r#"{"cf":2,"stages":0,"room":"#,
        pieces: &WRONG_ROOMS,
        rows: &[(1, "}", ROOM)],
    },
    Texts {
        before: r#"{"cf":2,"stages":0,"room":"#,
        pieces: &FITTING_ROOMS,
        rows: &[(1, "}", STAGES)],
    },
    Texts {
        before: r#"{"cf":2,"stages":[],"room":"#,
        pieces: &FITTING_ROOMS,
        rows: &[(1, "}", None)],
    },
    Texts {
        before: r#"{"cf":2,"room":96,"stages":["#,
        pieces: &[r#"{"form":"source"}"#],
        rows: &SOURCES,
    },
    Texts {
        before: r#"{"cf":2,"room":1,"stages":[{"form":"source"},{"form":"allOf","of":["#,
        pieces: &["0"],
        rows: &EDGES,
    },
    Texts {
        before: r#"{"cf":1,"stages":[{"form":"source"}],"room":"#,
        pieces: &UNREAD_ROOMS,
        rows: &[(1, "}", None)],
    },
    Texts {
        before: ROOMY,
        pieces: &WRONG_SHAPES,
        rows: &[(1, "]}", FIRST)],
    },
    Texts {
        before: ROOMY,
        pieces: &WRONG_FORMS,
        rows: &[(1, "]}", FIRST)],
    },
    Texts {
        before: ROOMY,
        pieces: &FITTING_ATTACHES,
        rows: &[(1, "]}", None)],
    },
    Texts {
        before: r#"{"cf":2,"room":1,"stages":[{"form":"source"}],"steps":["#,
        pieces: &[ATTACHES],
        rows: &ONCE_ATTACHED,
    },
    Texts {
        // A stage for which there is no room is there for no later step.
        before: r#"{"cf":2,"stages":[{"form":"source"}],"steps":["#,
        pieces: &[ATTACHES],
        rows: &[(1, r#",["outcome",1]]}"#, SECOND)],
    },
    Texts {
        before: r#"{"cf":2,"room":0,"stages":["#,
        pieces: &[r#"{"form":"supply","fn":"neg"}"#],
        rows: &STAGES_AND_STEPS,
    },
    Texts {
        before: r#"{"cf":2,"room":7,"stages":[],"steps":["#,
        pieces: &[ATTACHES_SUPPLY],
        rows: &STEPS,
    },
    Texts {
        before: r#"{"cf":2,"room":4096,"stages":[],"steps":["#,
        pieces: &[ATTACHES],
        rows: &COUNTED,
    },
];

#[test]
fn texts_are_read_or_refused(rt: HostRuntime) {
    for texts in &TEXTS {
        check(&rt, rt.alloc(), texts);
    }
}

/// A text, and why it is refused.
type Refused = (&'static str, ReadingFault);

/// Room is checked in its place.
const IN_PLACE: [Refused; 8] = [
    (
        r#"{"cf":4,"room":-1,"stages":[]}"#,
        ReadingFault::Shape(Part::Version),
    ),
    (
        r#"{"cf":0,"stages":[]}"#,
        ReadingFault::Shape(Part::Version),
    ),
    (
        r#"{"cf":"2","stages":[]}"#,
        ReadingFault::Shape(Part::Version),
    ),
    (
        r#"{"cf":2,"room":4096,"stages":[{"form":"source"}],"steps":0}"#,
        ReadingFault::Shape(Part::Steps),
    ),
    (
        r#"{"cf":2,"room":4096,"stages":[{"form":"source"},{}]}"#,
        ReadingFault::Shape(Part::Stage(1)),
    ),
    (
        r#"{"cf":2,"room":4096,"stages":[{"form":"source"}],"limits":[0]}"#,
        ReadingFault::Shape(Part::Limit(0)),
    ),
    (
        r#"{"cf":2,"room":4096,"stages":[{"form":"source"}],"steps":[0]}"#,
        ReadingFault::Shape(Part::Room),
    ),
    (
        r#"{"cf":2,"room":4096,"stages":[{"form":"source"}]}"#,
        ReadingFault::Shape(Part::Room),
    ),
];

/// Version 1 is read as if there were no other. It knows neither room nor attach.
const VERSION_ONE: [Refused; 4] = [
    (
        r#"{"cf":1,"stages":[{"form":"source"}],"steps":[["attach",{"form":"source"}]]}"#,
        ReadingFault::Step(0),
    ),
    (
        r#"{"cf":1,"room":1,"stages":[{"form":"source"}],"steps":[["work"],["outcome",1]]}"#,
        ReadingFault::Step(1),
    ),
    (
        r#"{"cf":1,"stages":[{"form":"source"},{"form":"source"},{"form":"exceptionallyCompose","of":[0],"fn":{"goto":1}}]}"#,
        ReadingFault::Shape(Part::Stage(2)),
    ),
    (r#"{"cf":1,"room":-1}"#, ReadingFault::Shape(Part::Stages)),
];

/// Limits speak of the stages of the opening.
const LIMITED: [Refused; 1] = [(
    r#"{"cf":2,"room":1,"stages":[{"form":"source"}],"limits":[{"stage":1,"at":1,"kind":"timeout"}],"steps":[["attach",{"form":"source"}]]}"#,
    ReadingFault::Plan(PlanFault::NoSuchStage, 0),
)];

static REFUSED: [&[Refused]; 3] = [&IN_PLACE, &VERSION_ONE, &LIMITED];

#[test]
fn texts_are_refused_for_what_is_wrong(rt: HostRuntime) {
    for rows in &REFUSED {
        for (text, fault) in *rows {
            let told = read_script(rt.alloc(), text.as_bytes()).err();
            holds(&rt, told == Some(*fault), text);
        }
    }
}

const ATTACHED: &str =
    r#"{"cf":2,"room":2,"stages":[{"form":"source"},{"form":"apply","of":[0],"fn":{"add":5}}],
        "steps":[["attach",{"form":"source"}],["attach",{"form":"combine","of":[2,1],"fn":"sum"}],
        ["attach",{"form":"handle","of":[3],"fn":"neg"}],["outcome",3],["attach",{"form":"supply","of":[],"fn":{"const":4}}]]}"#;

/// What that script is read as.
const PARTS: Parts = Parts {
    stages: 2,
    limits: &[],
    room: 2,
    functions: &[
        Func::Add(5),
        Func::Sum,
        Func::Neg,
        Func::Const(Value::Int(4)),
    ],
    steps: &[
        Step::Does(Event::Attach {
            who: 0,
            form: Form::Source,
            of: Of::None,
            function: None,
        }),
        Step::Does(Event::Attach {
            who: 0,
            form: Form::Combine,
            of: Of::Two(2, 1),
            function: Some(1),
        }),
        Step::Does(Event::Attach {
            who: 0,
            form: Form::Handle,
            of: Of::One(3),
            function: Some(2),
        }),
        Step::Asks(Ask::Outcome(3)),
        Step::Does(Event::Attach {
            who: 0,
            form: Form::Supply,
            of: Of::None,
            function: Some(3),
        }),
    ],
};

#[test]
fn reads_attached_stages(rt: HostRuntime) {
    let script = must(&rt, read_script(rt.alloc(), ATTACHED.as_bytes()));
    holds(&rt, is_read(script, PARTS), "attached");
}

/// Whether a script is read that has so much room and so many steps.
fn has(script: Script, wanted: u16, count: usize) -> bool {
    let (_, room, _, steps) = script.into_parts();
    room == wanted && steps.len() == count
}

/// A race attaches, and takes no work. A script of version 1 has no room.
#[test]
fn room_and_steps_are_read(rt: HostRuntime) {
    let plain = r#"{"cf":1,"room":7,"stages":[{"form":"source"}]}"#;
    let script = must(&rt, read_script(rt.alloc(), plain.as_bytes()));
    holds(&rt, has(script, 0, 0), plain);
    let text =
        r#"{"cf":2,"room":1,"stages":[],"steps":[["attach",{"form":"source"}],["complete",0,3]]}"#;
    let script = must(&rt, read_race(rt.alloc(), text.as_bytes()));
    holds(&rt, has(script, 1, 2), text);
    let worked =
        r#"{"cf":2,"room":1,"stages":[],"steps":[["attach",{"form":"source"}],["work"],["complete",1,3]]}"#;
    let refused = read_race(rt.alloc(), worked.as_bytes()).err();
    holds(&rt, refused == Some(ReadingFault::Step(1)), worked);
}
