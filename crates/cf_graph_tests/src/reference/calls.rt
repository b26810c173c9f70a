//! Calls that are made by numbers.
use cf_forms::Answer;
use cf_model::{Event, Failure};
use cf_outcome::Value;

/// Completes, fails or cancels a stage, or lets it be a moment, by the upper bits of a number.
fn settling(who: u8, stage: u16, x: u32) -> Event {
    let code = x >> 14 & 3;
    match x >> 20 & 3 {
        0 => {
            let value = Value::Int(code as i32);
            Event::Complete { who, stage, value }
        }
        1 => failing(who, stage, code, x >> 12 & 3),
        2 => Event::Cancel { who, stage },
        _ => Event::Tick { who, moment: code },
    }
}

/// Fails a stage with a code, as timed out or with a bad answer, both with a code of their own.
fn failing(who: u8, stage: u16, code: u32, own: u32) -> Event {
    let failure = match code {
        2 => Failure::TimedOut(own),
        3 => Failure::BadAnswer(own),
        _ => return Event::Fail { who, stage, code },
    };
    Event::FailAs {
        who,
        stage,
        failure,
    }
}

/// Finishes a stage with an answer by the bits of a number.
pub(crate) fn finishing(who: u8, stage: u16, x: u32) -> Event {
    let answer = match x >> 12 & 3 {
        0 => Answer::Throw(x >> 14 & 3),
        1 | 2 => Answer::Link((x >> 14 & 3) as u16),
        _ => Answer::Give(Value::Int((x >> 14 & 3) as i32)),
    };
    Event::Finish { who, stage, answer }
}

/// The caller of the call of a number.
pub(crate) fn caller_of(x: u32) -> u8 {
    (x >> 11 & 1) as u8
}

/// The call of a number on one of so many stages.
pub(crate) fn call_of(stages: u16, x: u32) -> Event {
    let who = caller_of(x);
    let stage = if stages == 0 {
        0
    } else {
        (x >> 24) as u16 % stages
    };
    match x >> 16 & 15 {
        0..=4 => settling(who, stage, x),
        5..=9 => Event::Claim { who, stage },
        _ => finishing(who, stage, x),
    }
}
