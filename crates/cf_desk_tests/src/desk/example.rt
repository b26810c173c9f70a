//! That two callers take their turns. tests/check.rows has what the closed desk hands out as an account, which is judged.
use crate::checks::{must, same};
use crate::desk::ends::{End, check_ends};
use crate::plans::{SOURCE_AND_APPLY, plan_of};
use cf_desk::{Ask, Call, Closed, Rec, Told};
use cf_example::take_turns;
use cf_forms::{Form, Of};
use cf_model::{Attached, Event, Reply};
use cf_outcome::{Outcome, Value};
use std::alloc::Global;
use std::process::Abort;

const THREE: Value = Value::Int(3);

const HISTORY: [Event; 3] = [
    Event::Complete {
        who: 0,
        stage: 0,
        value: THREE,
    },
    Event::Cancel { who: 1, stage: 0 },
    Event::Attach {
        who: 1,
        form: Form::Apply,
        of: Of::One(0),
        function: Some(0),
    },
];

/// What each caller was told of stage 0 in the end.
const SAW: Rec = Rec::Saw {
    place: 3,
    ask: Ask::Outcome(0),
    told: Told::Outcome(Some(Outcome::Value(THREE))),
};

const FIRST: [Rec; 2] = [
    Rec::Did {
        place: 1,
        call: Call::Complete(0, THREE),
        reply: Reply::Flag(true),
    },
    SAW,
];

const SECOND: [Rec; 3] = [
    Rec::Did {
        place: 2,
        call: Call::Cancel(0),
        reply: Reply::Flag(false),
    },
    Rec::Did {
        place: 3,
        call: Call::Attach(Form::Apply, Of::One(0), Some(0)),
        reply: Reply::Attach(Attached::At(2)),
    },
    SAW,
];

/// The closed desk of two callers over a source and what is applied to it.
fn taken(rt: &impl Abort, alloc: Global) -> Closed {
    let plan = plan_of(rt, alloc, &SOURCE_AND_APPLY);
    must(rt, take_turns(alloc, plan, THREE))
}

static ENDS: [End; 4] = [
    End::Stages(3),
    End::History(&HISTORY),
    End::Records(0, &FIRST),
    End::Records(1, &SECOND),
];

/// What a closed desk's graph holds of stage 0.
fn settled(closed: &mut Closed) -> Option<Outcome> {
    if closed.graph.has(0) {
        closed.graph.outcome(0)
    } else {
        None
    }
}

#[test]
fn the_first_of_two_settles(rt: HostRuntime) {
    let mut closed = taken(&rt, rt.alloc());
    same(&rt, settled(&mut closed), Some(Outcome::Value(THREE)));
    check_ends(&rt, &mut closed, "example", &ENDS);
    drop(closed);
}
