//! What the texts of replies and outcomes mean: those of a script's report.
use cf_forms::Args;
use cf_model::{Attached, Claimed, Finished, Reply, Ticked};
use cf_outcome::{Cause, Now, Outcome, Value};

/// The word in this place, empty where there is none.
fn word<'a>(words: &[&'a str], i: usize) -> &'a str {
    match words.get(i) {
        Some(word) => *word,
        None => "",
    }
}

/// The words from this place on.
fn behind<'a, 'b>(words: &'b [&'a str], i: usize) -> &'b [&'a str] {
    if i <= words.len() { &words[i..] } else { &[] }
}

/// The number that is this one word.
fn number(words: &[&str]) -> Option<u32> {
    if words.len() == 1 {
        word(words, 0).parse().ok()
    } else {
        None
    }
}

fn value(text: &str) -> Option<Value> {
    if text == "nil" {
        return Some(Value::Nil);
    }
    Some(Value::Int(text.parse().ok()?))
}

/// The value that is this one word.
fn alone(words: &[&str]) -> Option<Value> {
    if words.len() == 1 {
        value(word(words, 0))
    } else {
        None
    }
}

fn cause(words: &[&str]) -> Option<Cause> {
    match word(words, 0) {
        "thrown" => Some(Cause::Thrown(number(behind(words, 1))?)),
        "cancelled" if words.len() == 1 => Some(Cause::Cancelled),
        "timeout" => Some(Cause::TimedOut(code(words)?)),
        "badanswer" => Some(Cause::BadAnswer(code(words)?)),
        _ => None,
    }
}

/// The code behind a cause's word, 0 where there is none.
fn code(words: &[&str]) -> Option<u32> {
    if words.len() == 1 {
        Some(0)
    } else {
        number(behind(words, 1))
    }
}

/// The outcome of these words.
pub(crate) fn outcome(words: &[&str]) -> Option<Outcome> {
    match word(words, 0) {
        "value" => Some(Outcome::Value(alone(behind(words, 1))?)),
        "fault" => fault(behind(words, 1)),
        _ => None,
    }
}

fn fault(words: &[&str]) -> Option<Outcome> {
    if words.is_empty() {
        return None;
    }
    let last = words.len() - 1;
    let wrapped = match word(words, last) {
        "raw" => false,
        "wrapped" => true,
        _ => return None,
    };
    let cause = cause(&words[..last])?;
    Some(Outcome::Fault { cause, wrapped })
}

/// The outcome of these words, or none where they say `pending`.
pub(crate) fn settled(words: &[&str]) -> Option<Option<Outcome>> {
    if words.len() == 1 && word(words, 0) == "pending" {
        return Some(None);
    }
    Some(Some(outcome(words)?))
}

/// What a question for the present state is told by these words.
pub(crate) fn now(words: &[&str]) -> Option<Now> {
    let rest = behind(words, 1);
    match word(words, 0) {
        "absent" => Some(Now::Absent(alone(rest)?)),
        "value" => Some(Now::Got(alone(rest)?)),
        "completion" => Some(Now::Completion(cause(rest)?)),
        "cancellation" if words.len() == 1 => Some(Now::Cancellation),
        _ => None,
    }
}

/// Whether these words say that nobody knows the reply.
pub(crate) fn is_unknown(words: &[&str]) -> bool {
    words.len() == 1 && word(words, 0) == "unknown"
}

/// The reply of these words.
pub(crate) fn reply(words: &[&str]) -> Option<Reply> {
    if words.len() == 1 {
        return lone(word(words, 0));
    }
    let rest = behind(words, 1);
    match word(words, 0) {
        "granted" => Some(Reply::Claim(Claimed::Granted(args(rest)?))),
        "fired" => Some(Reply::Tick(Ticked::Fired(u16::try_from(number(rest)?).ok()?))),
        "attached" => Some(Reply::Attach(Attached::At(u16::try_from(number(rest)?).ok()?))),
        _ => None,
    }
}

/// The reply of one word.
fn lone(text: &str) -> Option<Reply> {
    match text {
        "true" => Some(Reply::Flag(true)),
        "false" => Some(Reply::Flag(false)),
        "past" => Some(Reply::Tick(Ticked::Past)),
        "stagesfull" => Some(Reply::Attach(Attached::StagesFull)),
        _ => taken(text),
    }
}

/// The same of a claim or a finish.
fn taken(text: &str) -> Option<Reply> {
    match text {
        "settled" => Some(Reply::Claim(Claimed::Settled)),
        "taken" => Some(Reply::Claim(Claimed::Taken)),
        "notready" => Some(Reply::Claim(Claimed::NotReady)),
        "won" => Some(Reply::Finish(Finished::Won)),
        "late" => Some(Reply::Finish(Finished::Late)),
        "notyours" => Some(Reply::Finish(Finished::NotYours)),
        _ => None,
    }
}

/// The granted arguments of these words.
fn args(words: &[&str]) -> Option<Args> {
    let rest = behind(words, 1);
    match word(words, 0) {
        "none" if words.len() == 1 => Some(Args::None),
        "one" => Some(Args::One(alone(rest)?)),
        "two" if words.len() == 3 => {
            Some(Args::Two(value(word(words, 1))?, value(word(words, 2))?))
        }
        "got" => Some(Args::Got(outcome(rest)?)),
        _ => None,
    }
}
