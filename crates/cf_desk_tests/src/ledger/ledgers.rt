ghost use Rattle.std.specs.Prelude.{◌≡◌, true};
ghost use Rattle.cf_forms.specs.Plans.{has_place};

use crate::checks::holds;
use crate::ledger::steps::{Case, Step, plan, play};
use cf_forms::{Answer, Args};
use cf_ledger::{Finish, Held, Ledger, LedgerFault, Misfit, Reply, Stage, StepFault, Taken};
use cf_model::{Attached, Claimed, Finished};
use cf_outcome::{Outcome, Value};
use cf_plan::Plan;
use std::alloc::Global;

/// The source is given 5.
const COMPLETE: u64 = 0x0100000100000005;

const CLAIM: u64 = 0x0400001000000000;
/// The apply's function gives 6.
const FINISH: u64 = 0x0500001100000006;
/// An apply of the source, by function 0.
const ATTACH: u64 = 0x0700000103000000;
/// A claim of stage 9.
const NO_STAGE: u64 = 0x0400009000000000;

/// All that is done in the first case, in order.
const WORDS: [u64; 6] = [COMPLETE, COMPLETE, CLAIM, FINISH, ATTACH, ATTACH];

/// What the graph of these words is like.
const AFTER: [Step; 19] = [
    Step::Words(&WORDS),
    Step::Outcome(0, Some(Outcome::Value(Value::Int(5)))),
    Step::Outcome(1, Some(Outcome::Value(Value::Int(6)))),
    Step::Outcome(2, None),
    Step::LowestReady(Some(2)),
    Step::Stages(4),
    Step::Room(1),
    Step::Function(3, Some(0)),
    Step::Len(6),
    Step::News(0, &[0, 1]),
    Step::News(1, &[]),
    Step::News(2, &[1]),
    Step::News(3, &[1]),
    Step::News(4, &[2]),
    Step::Stage(2, Stage::Ready(Args::One(Value::Int(5)))),
    Step::Stage(1, Stage::Settled(Outcome::Value(Value::Int(6)))),
    Step::Claimant(2, None),
    Step::NextReady(3, Some(3)),
    Step::NextReady(4, None),
];

/// What each word of the first case is answered, and those between them that are refused.
const STEPS: [Step; 13] = [
    Step::LowestReady(None),
    Step::Apply(COMPLETE, Ok(Reply::Flag(true))),
    Step::Apply(0, Err(LedgerFault::NoEvent)),
    Step::Apply(COMPLETE, Ok(Reply::Flag(false))),
    Step::Apply(NO_STAGE, Err(LedgerFault::NoStage)),
    Step::LowestReady(Some(1)),
    Step::Apply(
        CLAIM,
        Ok(Reply::Claim(Claimed::Granted(Args::One(Value::Int(5))))),
    ),
    Step::Claimant(1, Some(0)),
    Step::Apply(FINISH, Ok(Reply::Finish(Finished::Won))),
    Step::Apply(ATTACH, Ok(Reply::Attach(Attached::At(2)))),
    Step::Apply(ATTACH, Err(LedgerFault::NoRoom)),
    Step::Grow(2),
    Step::Apply(ATTACH, Ok(Reply::Attach(Attached::At(3)))),
];

/// Words of which one can't be done with room for one stage: the place of the first, and why.
static MISFITS: [(&[u64], usize, LedgerFault); 4] = [
    (&[0], 0, LedgerFault::NoEvent),
    (&[COMPLETE, CLAIM, NO_STAGE, 0], 2, LedgerFault::NoStage),
    (&[ATTACH, ATTACH, ATTACH], 1, LedgerFault::NoRoom),
    (&[CLAIM, CLAIM, CLAIM, 1], 3, LedgerFault::NoEvent),
];

/// Whether these words are refused so.
fn is_misfit(alloc: Global, plan: &Plan, words: &[u64], misfit: Misfit) -> bool
    requires { has_place plan.now.stages 1 ≡ true }
{
    Ledger::of_words(alloc, plan, 1, words).err() == Some(misfit)
}

#[test]
fn the_first_misfit_is_told(rt: HostRuntime) {
    let plan = plan(&rt, rt.alloc(), 1);
    for (words, place, why) in &MISFITS {
        let misfit = Misfit {
            place: *place,
            why: *why,
        };
        holds(&rt, is_misfit(rt.alloc(), &plan, words, misfit), misfit);
    }
    drop(plan);
}

/// The apply, held, whose function has given 6.
const HELD: Option<Held> = Some(Held {
    stage: 1,
    answer: Answer::Give(Value::Int(6)),
});

/// A stage that isn't there, held.
const FAR: Option<Held> = Some(Held {
    stage: 9,
    answer: Answer::Give(Value::Nil),
});

/// A step that does nothing.
const IDLE: cf_ledger::Step = cf_ledger::Step {
    finish: None,
    taken: None,
};

/// A step that takes the apply.
const TAKES: cf_ledger::Step = cf_ledger::Step {
    finish: None,
    taken: Some(Taken {
        stage: 1,
        function: Some(0),
        args: Args::One(Value::Int(5)),
        word: CLAIM,
    }),
};

/// A step that finishes it in time, and one that comes late.
const WON: cf_ledger::Step = cf_ledger::Step {
    finish: Some(Finish {
        late: false,
        word: FINISH,
    }),
    taken: None,
};

const LATE: cf_ledger::Step = cf_ledger::Step {
    finish: Some(Finish {
        late: true,
        word: FINISH,
    }),
    taken: None,
};

/// The second word is none.
const MISFIT: Misfit = Misfit {
    place: 1,
    why: LedgerFault::NoEvent,
};

/// The apply is cancelled.
const CANCEL: u64 = 0x0300001000000000;

/// One request by steps; what is refused between them; and it is started again, and its words done in rows.
const BY_STEPS: [Step; 19] = [
    Step::Reserve(3),
    Step::Apply(COMPLETE, Ok(Reply::Flag(true))),
    Step::Next(0, None, 2, Ok(IDLE)),
    Step::Next(64, None, 0, Err(StepFault::NoCaller)),
    Step::Next(0, FAR, 0, Err(StepFault::NoStage)),
    Step::Next(0, HELD, 0, Err(StepFault::NotHeld)),
    Step::Next(0, None, 0, Ok(TAKES)),
    Step::Next(1, HELD, 0, Err(StepFault::NotHeld)),
    Step::Len(2),
    Step::Next(0, HELD, 0, Ok(WON)),
    Step::News(2, &[1]),
    Step::Restart,
    Step::Reserve(70_000),
    Step::Len(0),
    Step::ApplyAll(&[COMPLETE, 0, CLAIM], Err(MISFIT)),
    Step::ApplyAll(&[CLAIM, CANCEL], Ok(())),
    Step::Next(0, HELD, 0, Ok(LATE)),
    Step::Len(4),
    Step::Words(&[COMPLETE, CLAIM, CANCEL, FINISH]),
];

static CASES: [Case; 3] = [
    Case {
        name: "words are done and written",
        room: 1,
        words: &[],
        parts: &[&STEPS, &AFTER],
    },
    Case {
        name: "a ledger is made of its words",
        room: 3,
        words: &WORDS,
        parts: &[&AFTER],
    },
    Case {
        name: "a step finishes and takes",
        room: 0,
        words: &[],
        parts: &[&BY_STEPS],
    },
];

#[test]
fn ledgers_answer_so(rt: HostRuntime) {
    play(&rt, rt.alloc(), &CASES);
}
