//! The word of an event, and the event of a word.
ghost use Rattle.std.specs.Prelude.{◌≡◌, ◌<◌, ◌≤◌, ◌^◌, ◌↔◌, IfSome, IsTrue, Some, option_and_then};
ghost use Rattle.cf_outcome.specs.declared.outcome.Value.TheVariants.{Int};
ghost use Rattle.cf_forms.specs.declared.forms.Answer.TheVariants.{Give};
ghost use Rattle.cf_model.specs.declared.events.Event.{Event};
ghost use Rattle.cf_model.specs.declared.events.Event.TheVariants.{Claim as Claims, Complete as Completes, Finish as Finishes};
ghost use Rattle.cf_event.specs.Words.{IsEvent, answer_low, answer_tag, failure_low, failure_tag, value_low, value_tag, word_of, word_with};
ghost use Rattle.cf_event.specs.Decoding.{answer_with, claim_of, completing_of, event_of, event_with, failure_with, giving_of, value_with};

use crate::attaching::{attach_low, attach_with, count_of, first_of, is_stage, second_of};
use cf_forms::Answer;
use cf_model::{Event, Failure};
use cf_outcome::Value;

/// The greatest caller that a word has room for.
pub const LAST_CALLER: u8 = 63;

/// The greatest stage that a word has room for.
const LAST_STAGE: u16 = 4095;

/// Whether an event has a word: its caller is at most 63, each stage and function that it names at most 4,095, and a stage
/// that it attaches fits its form.
pub fn is_event(e: &Event) -> bool
    ensures { IsTrue result ↔ IsEvent e.now }
{
    let e = *e;
    match e {
        Event::Complete { who, stage, .. } => has_room(who, stage),
        Event::Fail { who, stage, .. } => has_room(who, stage),
        Event::FailAs { who, stage, .. } => has_room(who, stage),
        Event::Cancel { who, stage } => has_room(who, stage),
        Event::Claim { who, stage } => has_room(who, stage),
        Event::Finish { who, stage, .. } => has_room(who, stage),
        Event::Tick { who, .. } => has_room(who, 0),
        Event::Attach {
            who,
            form,
            of,
            function,
        } => {
            has_room(who, first_of(of))
                && has_room(who, second_of(of))
                && is_stage(form, of, function)
        }
    }
}

/// Whether a word has room for this caller and this stage.
fn has_room(who: u8, stage: u16) -> bool
    ensures { IsTrue result ↔ ((who ≤ 63) × (stage ≤ 4095)) }
{
    who <= LAST_CALLER && stage <= LAST_STAGE
}

/// The word of an event. It is never 0.
#[inline(always)]
#[tactic(auto, using(crate::proofs::WordLemmas::event_of_own_word))]
pub fn encode(e: &Event) -> u64
    requires { IsEvent e.now }
    ensures word { result ≡ word_of e.now }
    ensures filled { 0 < result }
    ensures back { event_of result ≡ Some e.now }
{
    match *e {
        Event::Complete { who, stage, value } => {
            word(1, who, stage, value_tag(value), value_low(value))
        }
        Event::Fail { who, stage, code } => word(2, who, stage, 0, code),
        Event::FailAs {
            who,
            stage,
            failure,
        } => word(8, who, stage, failure_tag(failure), failure_low(failure)),
        Event::Cancel { who, stage } => word(3, who, stage, 0, 0),
        Event::Claim { who, stage } => word(4, who, stage, 0, 0),
        Event::Finish { who, stage, answer } => {
            word(5, who, stage, answer_tag(answer), answer_low(answer))
        }
        Event::Tick { who, moment } => word(6, who, 0, 0, moment),
        Event::Attach {
            who,
            form,
            of,
            function,
        } => {
            let low = attach_low(form, of, function);
            word(7, who, first_of(of), count_of(of), low)
        }
    }
}

/// The event of a word, or nothing where the word is no event's.
#[inline(always)]
#[tactic(auto, unfolding(crate::specs::Decoding::event_of))]
pub fn decode(w: u64) -> Option<Event>
    ensures value { result ≡ event_of w }
    ensures found { IfSome result (λ e. IsEvent e × (word_of e ≡ w)) }
    ensures every { (e : Event) → IsEvent e → word_of e ≡ w → result ≡ Some e }
{
    let kind = (w / KIND) as u8;
    let who = (w / WHO % 256) as u8;
    let stage = (w / STAGE % 4096) as u16;
    let tag = (w / TAG % 16) as u8;
    let low = (w % TAG) as u32;
    event_with(kind, who, stage, tag, low)
}

/// The caller and the stage of a claim's word, or nothing where the word is another. It looks at the bits that `decode`
/// looks at, and tells claims apart by one comparison.
#[inline(always)]
#[tactic(auto, using(crate::proofs::WordLemmas::claim_there, crate::proofs::WordLemmas::claim_named, crate::proofs::WordLemmas::no_claim))]
pub fn claim_of(w: u64) -> Option<(u8, u16)>
    ensures claim { result ≡ option_and_then claim_of (event_of w) }
    ensures named { IfSome result (λ c. word_of (Claims c.0 c.1) ≡ w) }
{
    if w / HEAD != 16 || w % STAGE != 0 {
        return None;
    }
    Some(((w / WHO % 64) as u8, (w / STAGE % 4096) as u16))
}

/// The caller, the stage and the value of a finish's word whose function gave a value, or nothing where the word is
/// another.
#[inline(always)]
#[tactic(auto, using(crate::proofs::WordLemmas::giving_there, crate::proofs::WordLemmas::giving_named, crate::proofs::WordLemmas::nil_there, crate::proofs::WordLemmas::nil_named, crate::proofs::WordLemmas::no_giving))]
pub fn giving_of(w: u64) -> Option<(u8, u16, Value)>
    ensures giving { result ≡ option_and_then giving_of (event_of w) }
    ensures named { IfSome result (λ f. word_of (Finishes f.0 f.1 (Give f.2)) ≡ w) }
{
    if w / HEAD != 20 {
        return None;
    }
    let who = (w / WHO % 64) as u8;
    let stage = (w / STAGE % 4096) as u16;
    if w / TAG % 16 == 1 {
        return Some((who, stage, Value::Int(((w % TAG) as u32).cast_signed())));
    }
    if w % STAGE != 0 {
        return None;
    }
    Some((who, stage, Value::Nil))
}

/// The caller, the stage and the number of a completion's word, or nothing where the word is another, or completes a stage
/// without a number.
#[inline(always)]
#[tactic(auto, using(crate::proofs::WordLemmas::completing_there, crate::proofs::WordLemmas::completing_named, crate::proofs::WordLemmas::no_completing))]
pub fn completing_of(w: u64) -> Option<(u8, u16, i32)>
    ensures completing { result ≡ option_and_then completing_of (event_of w) }
    ensures named { IfSome result (λ f. word_of (Completes f.0 f.1 (Int f.2)) ≡ w) }
{
    if w / HEAD != 4 || w / TAG % 16 != 1 {
        return None;
    }
    let number = ((w % TAG) as u32).cast_signed();
    Some(((w / WHO % 64) as u8, (w / STAGE % 4096) as u16, number))
}

/// The event with these fields, if there is one.
#[inline(always)]
fn event_with(kind: u8, who: u8, stage: u16, tag: u8, low: u32) -> Option<Event>
    ensures { result ≡ event_with kind who stage tag low }
{
    if who > LAST_CALLER {
        return None;
    }
    match kind {
        1 => Some(Event::Complete {
            who,
            stage,
            value: value_with(tag, low)?,
        }),
        2 if tag == 0 => Some(Event::Fail {
            who,
            stage,
            code: low,
        }),
        3 if tag == 0 && low == 0 => Some(Event::Cancel { who, stage }),
        4 if tag == 0 && low == 0 => Some(Event::Claim { who, stage }),
        5 => Some(Event::Finish {
            who,
            stage,
            answer: answer_with(tag, low)?,
        }),
        6 if tag == 0 && stage == 0 => Some(Event::Tick { who, moment: low }),
        7 => attach_with(who, stage, tag, low),
        8 => Some(Event::FailAs {
            who,
            stage,
            failure: failure_with(tag, low)?,
        }),
        _ => None,
    }
}

/// One in each field of a word.
const KIND: u64 = 1 << 56;

/// A word's kind, and the two bits behind it, which no caller uses.
const HEAD: u64 = 1 << 54;

const WHO: u64 = 1 << 48;

const STAGE: u64 = 1 << 36;

const TAG: u64 = 1 << 32;

/// The word of these fields.
fn word(kind: u8, who: u8, stage: u16, tag: u8, low: u32) -> u64
    requires caller { who ≤ 63 }
    requires stage { stage ≤ 4095 }
    requires tag { tag < 16 }
    ensures { result ≡ word_with kind who stage tag low }
{
    kind as u64 * KIND + who as u64 * WHO + stage as u64 * STAGE + tag as u64 * TAG + low as u64
}

/// The tag of a value.
fn value_tag(v: Value) -> u8
    ensures value { result ≡ value_tag v }
    ensures small { result < 16 }
{
    match v {
        Value::Nil => 0,
        Value::Int(_) => 1,
    }
}

/// The low half of a value.
fn value_low(v: Value) -> u32
    ensures { result ≡ value_low v }
{
    match v {
        Value::Nil => 0,
        Value::Int(z) => z.cast_unsigned(),
    }
}

/// The tag of a failure.
fn failure_tag(f: Failure) -> u8
    ensures value { result ≡ failure_tag f }
    ensures small { result < 16 }
{
    match f {
        Failure::TimedOut(_) => 0,
        Failure::BadAnswer(_) => 1,
    }
}

/// The low half of a failure.
fn failure_low(f: Failure) -> u32
    ensures { result ≡ failure_low f }
{
    match f {
        Failure::TimedOut(code) | Failure::BadAnswer(code) => code,
    }
}

/// The tag of an answer.
fn answer_tag(a: Answer) -> u8
    ensures value { result ≡ answer_tag a }
    ensures small { result < 16 }
{
    match a {
        Answer::Give(v) => value_tag(v),
        Answer::Throw(_) => 2,
        Answer::Link(_) => 3,
    }
}

/// The low half of an answer.
fn answer_low(a: Answer) -> u32
    ensures { result ≡ answer_low a }
{
    match a {
        Answer::Give(v) => value_low(v),
        Answer::Throw(code) => code,
        Answer::Link(j) => j as u32,
    }
}

/// The value with this tag and low half, if there is one.
fn value_with(tag: u8, low: u32) -> Option<Value>
    ensures { result ≡ value_with tag low }
{
    match tag {
        0 if low == 0 => Some(Value::Nil),
        1 => Some(Value::Int(low.cast_signed())),
        _ => None,
    }
}

/// The failure with this tag and low half, if there is one.
fn failure_with(tag: u8, low: u32) -> Option<Failure>
    ensures { result ≡ failure_with tag low }
{
    match tag {
        0 => Some(Failure::TimedOut(low)),
        1 => Some(Failure::BadAnswer(low)),
        _ => None,
    }
}

/// The answer with this tag and low half, if there is one.
fn answer_with(tag: u8, low: u32) -> Option<Answer>
    ensures { result ≡ answer_with tag low }
{
    match tag {
        2 => Some(Answer::Throw(low)),
        3 if low < 1 << 16 => Some(Answer::Link(low as u16)),
        3 => None,
        _ => Some(Answer::Give(value_with(tag, low)?)),
    }
}
