//! A number for each situation, for looking it up. Equal situations have equal numbers; no clause needs it.
use crate::situation::Situation;
use crate::step::Hand;
use cf_forms::{Answer, Args};
use cf_model::Stage;
use cf_outcome::{Cause, Outcome, Value};

/// One number more.
fn mix(hash: u64, x: u64) -> u64 {
    let h = (hash ^ x).wrapping_mul(0x9e37_79b9_7f4a_7c15);
    h ^ (h >> 29)
}

fn value(v: Value) -> u64 {
    match v {
        Value::Nil => 1,
        Value::Int(n) => (n as i64).wrapping_add(4_294_967_296) as u64,
    }
}

fn cause(c: Cause) -> u64 {
    match c {
        Cause::Thrown(code) => (code as u64).wrapping_add(8),
        Cause::Cancelled => 2,
        Cause::TimedOut(code) => mix(3, code as u64),
        Cause::BadAnswer(code) => mix(4, code as u64),
    }
}

fn outcome(o: Outcome) -> u64 {
    match o {
        Outcome::Value(v) => mix(1, value(v)),
        Outcome::Fault { cause: c, wrapped } => mix(if wrapped { 2 } else { 3 }, cause(c)),
    }
}

fn args(a: Args) -> u64 {
    match a {
        Args::None => 5,
        Args::One(v) => mix(6, value(v)),
        Args::Two(v, w) => mix(mix(7, value(v)), value(w)),
        Args::Got(o) => mix(8, outcome(o)),
    }
}

fn stage(s: Stage) -> u64 {
    match s {
        Stage::Pending => 9,
        Stage::Ready(a) => mix(10, args(a)),
        Stage::Claimed => 11,
        Stage::Linked(j) => mix(12, j as u64),
        Stage::Settled(o) => mix(13, outcome(o)),
    }
}

fn hand(h: Hand) -> u64 {
    match h {
        Hand::Idle => 14,
        Hand::Granted(i, a) => mix(mix(15, i as u64), args(a)),
        Hand::Called(i, Answer::Give(v)) => mix(mix(16, i as u64), value(v)),
        Hand::Called(i, Answer::Throw(code)) => mix(mix(17, i as u64), code as u64),
        Hand::Called(i, Answer::Link(j)) => mix(mix(18, i as u64), j as u64),
    }
}

/// The number of a situation.
pub(crate) fn hash_of(s: &Situation) -> u64 {
    let mut hash = 0u64;
    for place in &s.places {
        hash = mix(hash, (place.at as u64) << 16 | place.looks as u64);
    }
    for h in &s.hands {
        hash = mix(hash, hand(*h));
    }
    for called in &s.called {
        hash = mix(hash, *called as u64);
    }
    for i in 0..s.graph.stages() {
        hash = mix(hash, stage(s.graph.stage(i)));
    }
    hash
}
