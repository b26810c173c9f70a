use crate::row::steps::{Engine, Step, take};
use cf_forms::{Answer, Args};
use cf_model::Claimed;
use cf_outcome::{Cause, Outcome, Value};
use cf_row::{Claim, Held, LedgerFault, PutFault, Reply};

/// Caller 0, or 1, gives the source the number 5.
const COMPLETE_BY_0: u64 = 0x0100000100000005;

const COMPLETE_BY_1: u64 = 0x0101000100000005;

/// Caller 0, or 1, claims the apply, and gives it the number 6.
const CLAIM_BY_0: u64 = 0x0400001000000000;

const FINISH_BY_0: u64 = 0x0500001100000006;

const CLAIM_BY_1: u64 = 0x0401001000000000;

const FINISH_BY_1: u64 = 0x0501001100000006;

/// Caller 0 fails the apply with code 9, and caller 1 cancels it.
const FAIL_BY_0: u64 = 0x0200001000000009;

const CANCEL_BY_1: u64 = 0x0301001000000000;

/// Caller 0 lets the apply time out with code 11, and caller 1 then says that it has a bad answer with code 12.
const TIME_OUT_BY_0: u64 = 0x080000100000000b;

const BAD_ANSWER_BY_1: u64 = 0x080100110000000c;

/// Caller 0 attaches an apply of the source by function 3, which is stage 2, and claims it.
const ATTACH_BY_0: u64 = 0x0700000103000003;

const CLAIM_2_BY_0: u64 = 0x0400002000000000;

/// Caller 7 claims the apply.
const CLAIM_BY_7: u64 = 0x0407001000000000;

const FIVE: Args = Args::One(Value::Int(5));

/// Caller 7 fails the apply with code 9.
const FAIL_BY_7: u64 = 0x0207001000000009;

/// Caller 0 attaches an apply, a whenComplete, an exceptionally or a compose of the apply by function 3.
const APPLY_2: u64 = 0x0700001103000003;

const WHEN_COMPLETE_2: u64 = 0x070000110e000003;

const EXCEPTIONALLY_2: u64 = 0x070000110f000003;

const COMPOSE_3: u64 = 0x070000110c000003;

/// And an apply of stage 2 or 3.
const APPLY_3: u64 = 0x0700002103000003;

const APPLY_4: u64 = 0x0700003103000003;

/// Caller 0 fails the source with code 9, and attaches a source.
const FAIL_0: u64 = 0x0200000000000009;

const SOURCE_2: u64 = 0x0700000000000000;

/// Caller 0 completes stage 2 with 5.
const COMPLETE_2: u64 = 0x0100002100000005;

/// Caller 0 claims stage 3, and finishes it by a link to stage 2.
const CLAIM_3_BY_0: u64 = 0x0400003000000000;

const LINK_3_TO_2: u64 = 0x0500003300000002;

const CLAIM_4_BY_0: u64 = 0x0400004000000000;

const LINKED: Held = Held {
    stage: 3,
    answer: Answer::Link(2),
};

/// What the apply's function came to.
const GAVE: Held = Held {
    stage: 1,
    answer: Answer::Give(Value::Int(6)),
};

const THREW: Held = Held {
    stage: 1,
    answer: Answer::Throw(9),
};

/// A whenComplete gave nothing, and a compose did so.
const NOTHING_2: Held = Held {
    stage: 2,
    answer: Answer::Give(Value::Nil),
};

const NOTHING_3: Held = Held {
    stage: 3,
    answer: Answer::Give(Value::Nil),
};

/// Bits that no event has.
const NO_WORD: u64 = 0xff00000000000000;

/// The claim of the apply, granted to a session.
const BY_9: Claim = Claim {
    stage: 1,
    session: 9,
};

const BY_27: Claim = Claim {
    stage: 1,
    session: 27,
};

const DONE: Result<(), PutFault> = Ok(());

const SETTLED: Result<Reply, LedgerFault> = Ok(Reply::Flag(true));

const SIX: Outcome = Outcome::Value(Value::Int(6));

const NINE: Outcome = Outcome::Fault {
    cause: Cause::Thrown(9),
    wrapped: false,
};

const CANCELLED: Outcome = Outcome::Fault {
    cause: Cause::Cancelled,
    wrapped: false,
};

const TIMED_OUT: Outcome = Outcome::Fault {
    cause: Cause::TimedOut(11),
    wrapped: false,
};

/// Both plan for the first place with number 0. The first session's put stands, but its answer is lost. The second
/// session meets it. Its next put lands, but its answer is lost, and is asked for again.
const DOUBTS: [(u8, Step); 15] = [
    (0, Step::Plan(&[COMPLETE_BY_0], DONE)),
    (1, Step::Plan(&[COMPLETE_BY_0], DONE)),
    (0, Step::Ask(true)),
    (0, Step::GiveUp),
    (1, Step::Ask(false)),
    (1, Step::Met(false)),
    (1, Step::Sees),
    (1, Step::IsOwn(0, false)),
    (1, Step::Records(0)),
    (1, Step::Plan(&[COMPLETE_BY_0], Err(PutFault::NoWord))),
    (1, Step::Plan(&[COMPLETE_BY_1], DONE)),
    (1, Step::Ask(true)),
    (1, Step::Ask(false)),
    (1, Step::Met(true)),
    (1, Step::Sees),
];

/// The first session plans again for the first place, and meets its own first put there. The new one is lost.
const FINDS: [(u8, Step); 9] = [
    (0, Step::Plan(&[COMPLETE_BY_0], DONE)),
    (0, Step::Ask(true)),
    (0, Step::GiveUp),
    (0, Step::Plan(&[COMPLETE_BY_0], DONE)),
    (0, Step::Ask(false)),
    (0, Step::Met(false)),
    (0, Step::Sees),
    (0, Step::IsOwn(0, true)),
    (0, Step::Records(1)),
];

/// The second session claims the apply, and is gone. The first finds its claim, and fails the stage. The claim is open
/// until the second session finishes it, which is too late.
const GONE: [(u8, Step); 12] = [
    (0, Step::Number(0)),
    (0, Step::Lands(Engine::Sound, &[COMPLETE_BY_0])),
    (1, Step::Saw(SETTLED)),
    (1, Step::Number(1)),
    (1, Step::Lands(Engine::Sound, &[CLAIM_BY_1])),
    (0, Step::NumberOf(9, None)),
    (0, Step::Sees),
    (0, Step::NumberOf(9, Some(1))),
    (0, Step::Lands(Engine::Sound, &[FAIL_BY_0])),
    (1, Step::Sees),
    (1, Step::Lands(Engine::Sound, &[FINISH_BY_1])),
    (1, Step::Outcome(1, Some(NINE))),
];

/// The first session lets the apply time out with a code. The second one reads it, and its own bad answer comes too late.
const CODED: [(u8, Step); 5] = [
    (0, Step::Lands(Engine::Sound, &[TIME_OUT_BY_0])),
    (0, Step::Outcome(1, Some(TIMED_OUT))),
    (1, Step::Saw(SETTLED)),
    (1, Step::Lands(Engine::Sound, &[BAD_ANSWER_BY_1])),
    (1, Step::Outcome(1, Some(TIMED_OUT))),
];

/// A group attaches a stage and claims it. Then there is no room for another one before it is made. The second session
/// has two tokens.
const GROUPS: [(u8, Step); 11] = [
    (
        0,
        Step::Lands(Engine::Sound, &[COMPLETE_BY_0, ATTACH_BY_0, CLAIM_2_BY_0]),
    ),
    (0, Step::Records(3)),
    (0, Step::Plan(&[ATTACH_BY_0], Err(PutFault::NoWord))),
    (0, Step::Grow(1)),
    (0, Step::Reserve(70_000)),
    (0, Step::Plan(&[ATTACH_BY_0], DONE)),
    (1, Step::Sees),
    (1, Step::Plan(&[NO_WORD], Err(PutFault::NoWord))),
    (
        1,
        Step::Plan(
            &[CLAIM_BY_1, CLAIM_BY_1, CLAIM_BY_1],
            Err(PutFault::NoTokens),
        ),
    ),
    (1, Step::Lands(Engine::Sound, &[CLAIM_BY_1, FINISH_BY_1])),
    (1, Step::Plan(&[CLAIM_BY_1], Err(PutFault::NoTokens))),
];

/// Others have all numbers. The first session shares 7, and the second 9, each its own. Each entry is recorded by whose
/// it is, and not by its number: of the two claims by caller 7 the first session's own isn't granted.
const CROWDED: [(u8, Step); 12] = [
    (0, Step::Crowd),
    (0, Step::Sees),
    (0, Step::Number(7)),
    (0, Step::Plan(&[COMPLETE_BY_0], Err(PutFault::NoWord))),
    (0, Step::Others(CLAIM_BY_7)),
    (0, Step::Saw(Ok(Reply::Claim(Claimed::Granted(FIVE))))),
    (0, Step::Records(0)),
    (0, Step::Lands(Engine::Sound, &[CLAIM_BY_7])),
    (0, Step::Records(1)),
    (0, Step::Number(7)),
    (1, Step::Sees),
    (1, Step::Number(9)),
];

/// The second session has the apply until the first fails it, and its claim is open until it finishes.
const HELD: [(u8, Step); 16] = [
    (0, Step::Lands(Engine::Sound, &[COMPLETE_BY_0])),
    (1, Step::Sees),
    (1, Step::OpenClaim(0, None)),
    (1, Step::Lands(Engine::Sound, &[CLAIM_BY_1])),
    (0, Step::Sees),
    (0, Step::Held(9, 0, Some(1))),
    (0, Step::Held(9, 2, None)),
    (0, Step::Held(7, 0, None)),
    (0, Step::OpenClaim(1, Some(BY_9))),
    (0, Step::Abandon(9, Some(FAIL_BY_0))),
    (0, Step::Lands(Engine::Sound, &[FAIL_BY_0])),
    (0, Step::Abandon(9, None)),
    (0, Step::Held(9, 0, None)),
    (0, Step::OpenClaim(0, Some(BY_9))),
    (1, Step::Sees),
    (1, Step::Lands(Engine::Sound, &[FINISH_BY_1])),
];

/// Caller 7 is several sessions. Of their claims of the apply one is granted, to session 27, and stays its.
const WHOSE: [(u8, Step); 13] = [
    (0, Step::Crowd),
    (0, Step::Sees),
    (0, Step::Others(CLAIM_BY_7)),
    (0, Step::Saw(Ok(Reply::Claim(Claimed::Granted(FIVE))))),
    (0, Step::Held(27, 0, Some(1))),
    (0, Step::Held(7, 0, None)),
    (0, Step::Lands(Engine::Sound, &[CLAIM_BY_7])),
    (0, Step::Held(27, 0, Some(1))),
    (0, Step::Held(7, 0, None)),
    (0, Step::OpenClaim(0, Some(BY_27))),
    (0, Step::Finish(GAVE, None)),
    (0, Step::NextClaim(Some(GAVE), None)),
    (0, Step::Abandon(27, Some(FAIL_BY_7))),
];

/// The first session has the apply, and an apply of that is attached. Its claim is put behind the finish, and granted. By
/// a fault that apply isn't called, and behind another's stage, or one that nobody has, none is ready.
const NEXT: [(u8, Step); 17] = [
    (0, Step::NextClaim(None, None)),
    (0, Step::Lands(Engine::Sound, &[COMPLETE_BY_0, APPLY_2])),
    (0, Step::NextClaim(None, Some(1))),
    (0, Step::Finish(GAVE, None)),
    (0, Step::NextClaim(Some(GAVE), Some(1))),
    (0, Step::Lands(Engine::Sound, &[CLAIM_BY_0])),
    (1, Step::Sees),
    (1, Step::Finish(GAVE, None)),
    (1, Step::NextClaim(Some(GAVE), None)),
    (0, Step::NextClaim(None, None)),
    (0, Step::NextClaim(Some(THREW), None)),
    (0, Step::Finish(GAVE, Some(FINISH_BY_0))),
    (0, Step::NextClaim(Some(GAVE), Some(2))),
    (0, Step::Lands(Engine::Sound, &[FINISH_BY_0, CLAIM_2_BY_0])),
    (0, Step::Held(7, 0, Some(2))),
    (0, Step::Finish(GAVE, None)),
    (0, Step::NextClaim(Some(GAVE), None)),
];

/// An exceptionally goes on with a fault, and not with a value. Once another has failed the apply, a finish is late, and
/// goes with the claim of what is ready by then.
const CATCHES: [(u8, Step); 11] = [
    (
        0,
        Step::Lands(Engine::Sound, &[COMPLETE_BY_0, EXCEPTIONALLY_2]),
    ),
    (1, Step::Sees),
    (1, Step::Lands(Engine::Sound, &[CLAIM_BY_1])),
    (1, Step::NextClaim(Some(GAVE), None)),
    (1, Step::NextClaim(Some(THREW), Some(2))),
    (0, Step::Sees),
    (0, Step::Lands(Engine::Sound, &[FAIL_BY_0, CLAIM_2_BY_0])),
    (1, Step::Sees),
    (1, Step::Finish(GAVE, Some(FINISH_BY_1))),
    (1, Step::NextClaim(Some(THREW), None)),
    (1, Step::Lands(Engine::Sound, &[FINISH_BY_1])),
];

/// A whenComplete of a fault ends as that, whatever its function gives. So an apply of it isn't called.
const KEEPS: [(u8, Step); 7] = [
    (0, Step::Grow(1)),
    (0, Step::Lands(Engine::Sound, &[WHEN_COMPLETE_2, APPLY_3])),
    (0, Step::Lands(Engine::Sound, &[FAIL_0])),
    (0, Step::NextClaim(None, Some(2))),
    (0, Step::Lands(Engine::Sound, &[CLAIM_2_BY_0])),
    (0, Step::NextClaim(Some(NOTHING_2), None)),
    (0, Step::Finish(NOTHING_2, Some(0x0500002000000000))),
];

/// A compose that links to a stage goes on where that is settled.
const LINKS: [(u8, Step); 10] = [
    (0, Step::Grow(2)),
    (
        0,
        Step::Lands(Engine::Sound, &[SOURCE_2, COMPOSE_3, APPLY_4]),
    ),
    (0, Step::Lands(Engine::Sound, &[COMPLETE_BY_0, CLAIM_BY_0])),
    (0, Step::Lands(Engine::Sound, &[FINISH_BY_0, CLAIM_3_BY_0])),
    (0, Step::NextClaim(Some(LINKED), None)),
    (0, Step::NextClaim(Some(NOTHING_3), None)),
    (0, Step::Lands(Engine::Sound, &[COMPLETE_2])),
    (0, Step::NextClaim(Some(LINKED), Some(4))),
    (0, Step::Finish(LINKED, Some(LINK_3_TO_2))),
    (0, Step::Lands(Engine::Sound, &[LINK_3_TO_2, CLAIM_4_BY_0])),
];

/// An engine overwrites: the second session doesn't know that the first has finished the apply, and is told that it has
/// cancelled it.
const OVERWRITTEN: [(u8, Step); 6] = [
    (0, Step::Lands(Engine::Sound, &[COMPLETE_BY_0])),
    (1, Step::Sees),
    (0, Step::Lands(Engine::Sound, &[CLAIM_BY_0, FINISH_BY_0])),
    (0, Step::Outcome(1, Some(SIX))),
    (1, Step::Lands(Engine::Overwrites, &[CANCEL_BY_1])),
    (1, Step::Outcome(1, Some(CANCELLED))),
];

/// An engine tears a group: the finish doesn't stand.
const TORN: [(u8, Step); 6] = [
    (0, Step::Lands(Engine::Sound, &[COMPLETE_BY_0])),
    (0, Step::Lands(Engine::Tears, &[CLAIM_BY_0, FINISH_BY_0])),
    (0, Step::Outcome(1, Some(SIX))),
    (1, Step::Sees),
    (1, Step::Lands(Engine::Sound, &[CANCEL_BY_1])),
    (1, Step::Outcome(1, Some(CANCELLED))),
];

/// An engine tells that a put stands, and loses it.
const LOST: [(u8, Step); 6] = [
    (0, Step::Lands(Engine::Sound, &[COMPLETE_BY_0])),
    (1, Step::Sees),
    (0, Step::Lands(Engine::Loses, &[CLAIM_BY_0, FINISH_BY_0])),
    (0, Step::Outcome(1, Some(SIX))),
    (1, Step::Lands(Engine::Sound, &[CANCEL_BY_1])),
    (1, Step::Outcome(1, Some(CANCELLED))),
];

/// The second session's first token in each of them.
static TESTS: [(u32, &[(u8, Step)]); 15] = [
    (0, &DOUBTS),
    (0, &FINDS),
    (0, &GONE),
    (0, &CODED),
    (8_388_606, &GROUPS),
    (0, &CROWDED),
    (0, &HELD),
    (0, &WHOSE),
    (0, &NEXT),
    (0, &CATCHES),
    (0, &KEEPS),
    (0, &LINKS),
    (0, &OVERWRITTEN),
    (0, &TORN),
    (0, &LOST),
];

#[test]
fn two_sessions_know_what_stands(rt: HostRuntime) {
    for (token, steps) in &TESTS {
        take(&rt, rt.alloc(), *token, steps);
    }
}
