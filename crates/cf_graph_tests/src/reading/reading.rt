//! What scripts are read as, what is refused, and the ten functions.
use crate::checks::{holds, must};
use cf_forms::{Answer, Args, Limit, LimitKind, StageFn};
use cf_model::{Ask, Event, Failure};
use cf_outcome::{Cause, Outcome, Value};
use cf_plan::PlanFault;
use cf_script_reading::{
    Func, MAX_BYTES, Part, ReadingFault, Script, Step, read_input, read_script,
};
use std::alloc::Global;
use std::io;
use std::io::{ErrorKind, Read};
use std::process::Abort;

const NOTHING: Args = Args::None;

const NIL: Args = Args::One(Value::Nil);

const ZERO: Args = Args::One(Value::Int(0));

const SEVEN: Args = Args::One(Value::Int(7));

const MINUS_SEVEN: Args = Args::Got(Outcome::Value(Value::Int(-7)));

const MOST: Args = Args::One(Value::Int(2147483647));

const LEAST: Args = Args::Two(Value::Int(-2147483648), Value::Int(-1));

const THROWN: Args = Args::Got(Outcome::Fault {
    cause: Cause::Thrown(9),
    wrapped: true,
});

const CANCELLED: Args = Args::Got(Outcome::Fault {
    cause: Cause::Cancelled,
    wrapped: false,
});

/// Functions with arguments, and the numbers that they give, those of Java's `int`.
static NUMBERS: [(Func, Args, i32); 18] = [
    (Func::Add(5), NOTHING, 5),
    (Func::Add(5), NIL, 5),
    (Func::Add(1), MOST, -2147483648),
    (Func::Add(-1), LEAST, 2147483647),
    (Func::Mul(3), MINUS_SEVEN, -21),
    (Func::Mul(2147483647), MOST, 1),
    (Func::Mul(-1), LEAST, -2147483648),
    (Func::Div(2), SEVEN, 3),
    (Func::Div(2), MINUS_SEVEN, -3),
    (Func::Div(-2), SEVEN, -3),
    (Func::Div(-1), LEAST, -2147483648),
    (Func::Neg, SEVEN, -7),
    (Func::Neg, LEAST, -2147483648),
    (Func::Sum, LEAST, 2147483647),
    (Func::Sum, MINUS_SEVEN, -7),
    (Func::Const(Value::Int(1)), THROWN, 1),
    (Func::Rescue(Value::Int(4)), CANCELLED, 4),
    (Func::Rescue(Value::Int(4)), MINUS_SEVEN, -7),
];

/// Functions with arguments, and what else they answer.
static OTHERS: [(Func, Args, Answer); 16] = [
    (Func::Add(5), THROWN, Answer::Throw(9)),
    (Func::Mul(3), CANCELLED, Answer::Throw(0)),
    (Func::Div(0), SEVEN, Answer::Throw(0)),
    (Func::Div(0), THROWN, Answer::Throw(9)),
    (Func::Neg, THROWN, Answer::Throw(9)),
    (Func::Sum, CANCELLED, Answer::Throw(0)),
    (Func::Const(Value::Nil), SEVEN, Answer::Give(Value::Nil)),
    (Func::Throw(4294967295), SEVEN, Answer::Throw(4294967295)),
    (Func::Throw(3), CANCELLED, Answer::Throw(3)),
    (Func::Goto(65535), THROWN, Answer::Link(65535)),
    (Func::Select(1, 2), ZERO, Answer::Link(1)),
    (Func::Select(1, 2), NIL, Answer::Link(1)),
    (Func::Select(1, 2), SEVEN, Answer::Link(2)),
    (Func::Select(1, 2), THROWN, Answer::Throw(9)),
    (Func::Rescue(Value::Int(4)), NIL, Answer::Give(Value::Nil)),
    (
        Func::Rescue(Value::Int(4)),
        NOTHING,
        Answer::Give(Value::Nil),
    ),
];

#[test]
fn functions_give_numbers(rt: HostRuntime) {
    for (f, args, number) in &NUMBERS {
        let answer = Answer::Give(Value::Int(*number));
        holds(&rt, f.call(args) == answer, (f, "of", args));
    }
}

#[test]
fn functions_answer(rt: HostRuntime) {
    for (f, args, answer) in &OTHERS {
        holds(&rt, f.call(args) == *answer, (f, "of", args));
    }
}

/// Gives a few bytes a call at most, fails at one call alone, and keeps how much it was asked for at most, and how often at
/// its end.
#[derive(Drop)]
struct Stumbling<'a> {
    rest: &'a [u8],
    piece: usize,
    fails_at: usize,
    kind: ErrorKind,
    calls: usize,
    asked: usize,
    ends: usize,
}

impl<'a> Read for Stumbling<'a> {
    fn read(&mut self, buf: &mut [u8]) -> io::Result<usize> {
        let call = self.calls;
        self.calls = call.wrapping_add(1);
        self.asked = self.asked.max(buf.len());
        if call == self.fails_at {
            return Err(io::Error::from(self.kind));
        }
        let count = self.piece.min(buf.len()).min(self.rest.len());
        if count == 0 {
            self.ends = self.ends.wrapping_add(1);
        }
        buf[..count].copy_from_slice(&self.rest[..count]);
        self.rest = &self.rest[count..];
        Ok(count)
    }
}

/// A text that comes in pieces of so many bytes, and whose call of this number fails.
fn pieces<'a>(rest: &'a [u8], piece: usize, fails_at: usize, kind: ErrorKind) -> Stumbling<'a> {
    Stumbling {
        rest,
        piece,
        fails_at,
        kind,
        calls: 0,
        asked: 0,
        ends: 0,
    }
}

/// How many bytes are read.
fn length_read<R: Read>(alloc: Global, input: &mut R) -> Result<usize, ReadingFault> {
    match read_input(alloc, input) {
        Ok(found) => Ok(found.len()),
        Err(fault) => Err(fault),
    }
}

/// Three pieces of three bytes.
const THREE_PIECES: &[u8] = b"{\"cf\":12}";

/// Whether those are read, and the end is asked for once, or a failed read is the last, where the call of this number fails.
/// Each call asks for 4,096 bytes.
fn stops_in_time(alloc: Global, fails_at: usize) -> bool {
    let mut input = pieces(THREE_PIECES, 3, fails_at, ErrorKind::Interrupted);
    let read = length_read(alloc, &mut input);
    let stopped = if fails_at <= 3 {
        read == Err(ReadingFault::Read) && input.calls == fails_at.saturating_add(1)
    } else {
        read == Ok(THREE_PIECES.len()) && input.calls == 4 && input.ends == 1
    };
    stopped && input.asked == 4_096
}

#[test]
fn asks_for_pieces_up_to_the_end_or_a_failure(rt: HostRuntime) {
    for fails_at in 0..6usize {
        holds(&rt, stops_in_time(rt.alloc(), fails_at), fails_at);
    }
}

const SHORT: &[u8] = b"{\"cf\":1}";

/// Whether that text is read a byte a call, or refused where a call up to its end fails.
fn reads_whole_unless_it_fails(alloc: Global, fails_at: usize, kind: ErrorKind) -> bool {
    match read_input(alloc, &mut pieces(SHORT, 1, fails_at, kind)) {
        Ok(found) => fails_at > SHORT.len() && found.as_slice() == SHORT,
        Err(fault) => fails_at <= SHORT.len() && fault == ReadingFault::Read,
    }
}

#[test]
fn reads_whole_or_not(rt: HostRuntime) {
    for fails_at in 0..12usize {
        for kind in [ErrorKind::Interrupted, ErrorKind::Other] {
            holds(
                &rt,
                reads_whole_unless_it_fails(rt.alloc(), fails_at, kind),
                fails_at,
            );
        }
    }
}

/// How many of so many blanks are read, and how many are left then.
fn blanks_read(
    rt: &impl Abort,
    alloc: Global,
    count: usize,
) -> (Result<usize, ReadingFault>, usize) {
    let blanks = must(rt, vec![in alloc; b' '; count]);
    let mut input = blanks.as_slice();
    let read = length_read(alloc, &mut input);
    (read, input.len())
}

/// How many blanks there are, how many are read, and how many are left: of one byte too many and two more, that one is read.
static BLANKS: [(usize, Result<usize, ReadingFault>, usize); 2] = [
    (MAX_BYTES, Ok(MAX_BYTES), 0),
    (MAX_BYTES + 3, Err(ReadingFault::TooLong), 2),
];

#[test]
fn as_many_bytes_are_read_as_there_may_be(rt: HostRuntime) {
    for (count, read, left) in &BLANKS {
        holds(
            &rt,
            blanks_read(&rt, rt.alloc(), *count) == (*read, *left),
            count,
        );
    }
}

const LIMIT: ReadingFault = ReadingFault::Shape(Part::Limit(0));

/// Faults that no row of whole scripts has.
static REFUSED: [(&[u8], ReadingFault); 15] = [
    (
        b"{\"cf\":1,\"stages\":[],\"\xff\":1}",
        ReadingFault::NotJson,
    ),
    (b"{\"cf\":1,\n\"stages\":[}", ReadingFault::NotJson),
    (b"\n\n\n", ReadingFault::NotJson),
    (b"{\"cf\":1,\"stages\":[],\"limits\":[0]}", LIMIT),
    (
        b"{\"cf\":1,\"stages\":[{\"form\":\"source\"}],\"limits\":[{\"at\":1,\"kind\":\"timeout\"}]}",
        LIMIT,
    ),
    (
        b"{\"cf\":1,\"stages\":[{\"form\":\"source\"}],\"limits\":[{\"stage\":0,\"at\":-1,\"kind\":\"timeout\"}]}",
        LIMIT,
    ),
    (
        b"{\"cf\":1,\"stages\":[{\"form\":\"source\"}],\"limits\":[{\"stage\":0,\"at\":1}]}",
        LIMIT,
    ),
    (
        b"{\"cf\":1,\"stages\":[{\"form\":\"source\"}],\"limits\":[{\"stage\":0,\"at\":1,\"kind\":\"walk\"}]}",
        LIMIT,
    ),
    (
        b"{\"cf\":1,\"stages\":[{\"form\":\"source\"}],\"limits\":[{\"stage\":0,\"at\":1,\"kind\":\"value\"}]}",
        LIMIT,
    ),
    (
        b"{\"cf\":1,\"stages\":[{\"form\":\"source\"}],\"limits\":[{\"stage\":0,\"at\":1,\"kind\":\"timeout\",\"code\":null}]}",
        LIMIT,
    ),
    (
        b"{\"cf\":1,\"stages\":[{\"form\":\"source\"}],\"limits\":[{\"stage\":0,\"at\":1,\"kind\":\"timeout\",\"code\":4294967296}]}",
        LIMIT,
    ),
    (
        b"{\"cf\":3,\"stages\":[{\"form\":\"source\"}],\"steps\":[[\"failAs\",0,\"timeout\",7],[\"failAs\",0,\"timeout\",-1]]}",
        ReadingFault::Step(1),
    ),
    (
        b"{\"cf\":1,\"stages\":[{\"form\":\"source\"},{\"form\":\"apply\",\"of\":[0,0],\"fn\":\"neg\"}]}",
        ReadingFault::Plan(PlanFault::WrongSourceCount, 1),
    ),
    (
        b"{\"cf\":1,\"stages\":[],\"steps\":[0]}",
        ReadingFault::Step(0),
    ),
    (
        b"{\"cf\":1,\"stages\":[],\"steps\":[[\"work\"],[]]}",
        ReadingFault::Step(1),
    ),
];

/// Whether these bytes are refused so.
fn is_refused(alloc: Global, bytes: &[u8], fault: ReadingFault) -> bool {
    read_script(alloc, bytes).err() == Some(fault)
}

#[test]
fn refuses_for_what_is_wrong(rt: HostRuntime) {
    for (at, (bytes, fault)) in REFUSED.iter().enumerate() {
        holds(&rt, is_refused(rt.alloc(), bytes, *fault), ("text", at));
    }
}

const SCRIPT: &str =
    "{\"cf\":1,\"stages\":[{\"form\":\"source\"},{\"form\":\"apply\",\"of\":[0],\"fn\":{\"add\":5}}],\
\"limits\":[{\"stage\":1,\"at\":9,\"kind\":\"timeout\"}],\"steps\":[[\"complete\",0,3],[\"work\"],[\"now\",1]]}";

/// What a script is read as: so many stages, these limits, so much room, these functions and these steps.
#[derive(Clone, Copy)]
pub(crate) struct Parts {
    pub(crate) stages: u16,
    pub(crate) limits: &'static [Limit],
    pub(crate) room: u16,
    pub(crate) functions: &'static [Func],
    pub(crate) steps: &'static [Step],
}

/// Whether a script is read as that.
pub(crate) fn is_read(script: Script, parts: Parts) -> bool {
    let (plan, room, functions, steps) = script.into_parts();
    plan.stages() == parts.stages
        && plan.limits() == parts.limits
        && room == parts.room
        && functions.as_slice() == parts.functions
        && steps.as_slice() == parts.steps
}

const PARTS: Parts = Parts {
    stages: 2,
    limits: &[Limit {
        stage: 1,
        at: 9,
        kind: LimitKind::Timeout(0),
    }],
    room: 0,
    functions: &[Func::Add(5)],
    steps: &[
        Step::Does(Event::Complete {
            who: 0,
            stage: 0,
            value: Value::Int(3),
        }),
        Step::Work,
        Step::Asks(Ask::Now(1, Value::Nil)),
    ],
};

const CODED: &str =
    r#"{"cf":3,"stages":[{"form":"source"}],"limits":[{"stage":0,"at":9,"kind":"timeout","code":4294967295},{"stage":0,"at":9,"kind":"value","value":null,"code":"unread"}],"steps":[["failAs",0,"timeout",7],["failAs",0,"badanswer",4294967295],["failAs",0,"timeout",0],["failAs",0,"badanswer"]]}"#;

const CODED_PARTS: Parts = Parts {
    stages: 1,
    limits: &[
        Limit {
            stage: 0,
            at: 9,
            kind: LimitKind::Timeout(4_294_967_295),
        },
        Limit {
            stage: 0,
            at: 9,
            kind: LimitKind::Give(Value::Nil),
        },
    ],
    room: 0,
    functions: &[],
    steps: &[
        Step::Does(Event::FailAs {
            who: 0,
            stage: 0,
            failure: Failure::TimedOut(7),
        }),
        Step::Does(Event::FailAs {
            who: 0,
            stage: 0,
            failure: Failure::BadAnswer(4_294_967_295),
        }),
        Step::Does(Event::FailAs {
            who: 0,
            stage: 0,
            failure: Failure::TimedOut(0),
        }),
        Step::Does(Event::FailAs {
            who: 0,
            stage: 0,
            failure: Failure::BadAnswer(0),
        }),
    ],
};

static READ: [(&str, Parts); 2] = [(SCRIPT, PARTS), (CODED, CODED_PARTS)];

#[test]
fn reads_a_script(rt: HostRuntime) {
    for (text, parts) in &READ {
        let script = must(&rt, read_script(rt.alloc(), text.as_bytes()));
        holds(&rt, is_read(script, *parts), text);
    }
}
