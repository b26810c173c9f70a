//! Whether facts and conditions hold in a situation.
ghost use Rattle.std.specs.Prelude.{◌≡◌, ◌<◌, ◌≤◌, ◌==◌, false, IfOk, Some, if◌then◌else◌, length};
ghost use Rattle.std.specs.Option.{option_map_or};
ghost use Rattle.cf_outcome.specs.declared.outcome.Value.TheVariants.{Int};
ghost use Rattle.cf_outcome.specs.declared.outcome.Cause.TheVariants.{BadAnswer, Thrown, TimedOut};
ghost use Rattle.std.specs.List.{list_all};
ghost use Rattle.cf_explore.specs.Conditions.{calls_among, calls_of, decides, decides_by, gives_value, has_cause, is_call_of, is_fact, is_so, is_time, outcome_if_there, same_cause, same_value, was_called};

use crate::condition::{Condition, Fact, How, Is, When};
use crate::program::Program;
use crate::situation::Situation;
use cf_outcome::{Cause, Outcome, Value, is_cancelled, is_exceptional};
use std::alloc::{AllocError, Global};

impl Program {
    /// Whether a situation decides a condition. It fails only where there is no memory.
    #[tactic(auto, unfolding(crate::specs::Conditions::decides))]
    pub(crate) fn decides(
        &self,
        alloc: Global,
        condition: &Condition,
        s: &Situation,
    ) -> Result<bool, AllocError>
        ensures { IfOk result (λ so. so ≡ decides self.now condition.now s.now) }
    {
        if self.is_time(alloc, s, condition.when)? {
            Ok(decides_by(condition.how, are_facts(&condition.facts, s)))
        } else {
            Ok(false)
        }
    }

    /// Whether a condition is looked at in a situation.
    fn is_time(&self, alloc: Global, s: &Situation, when: When) -> Result<bool, AllocError>
        ensures { IfOk result (λ now. now ≡ is_time self.now s.now when) }
    {
        match when {
            When::End => self.is_end(alloc, s),
            When::Before(c, j) => Ok(self.step(s, c).is_some() && s.place(c).at == j),
        }
    }
}

/// Whether it decides a condition that all facts hold, or that they don't.
fn decides_by(how: How, all: bool) -> bool
    ensures { result ≡ decides_by how all }
{
    match how {
        How::Always => !all,
        _ => all,
    }
}

/// Whether all of these facts hold.
fn are_facts(facts: &[Fact], s: &Situation) -> bool
    ensures { result ≡ list_all (is_fact s.now) facts.now }
{
    for fact in facts {
        if !is_fact(s, *fact) {
            return false;
        }
    }
    true
}

/// Whether a fact holds.
fn is_fact(s: &Situation, fact: Fact) -> bool
    ensures { result ≡ is_fact s.now fact }
{
    match fact {
        Fact::Stage(i, what) => is_so(what, outcome(s, i)),
        Fact::Called(i) => was_called(s, i),
        Fact::NotCalled(i) => !was_called(s, i),
        Fact::Exactly(f, n) => calls_of(s, f) == n,
        Fact::AtLeast(f, n) => calls_of(s, f) >= n,
    }
}

/// The outcome of a stage, none where it isn't there.
fn outcome(s: &Situation, i: u16) -> Option<Outcome>
    ensures { result ≡ outcome_if_there s.now i }
{
    if i < s.graph.stages() {
        s.graph.outcome(i)
    } else {
        None
    }
}

/// Whether a stage's function was called.
fn was_called(s: &Situation, i: u16) -> bool
    ensures { result ≡ was_called s.now i }
{
    match s.called.get(i as usize) {
        None => false,
        Some(called) => *called,
    }
}

/// For how many stages a function was called.
fn calls_of(s: &Situation, f: u16) -> u16
    ensures { result ≡ calls_of s.now f }
{
    let mut calls = 0;
    for i in 0..s.graph.stages() {
        calls += one_if(is_call_of(s, f, i));
    }
    calls
}

/// 1 where it holds, and else 0.
fn one_if(holds: bool) -> u16
    ensures is { result ≡ (if holds then 1 else 0) }
    ensures most { result ≤ 1 }
{
    if holds { 1 } else { 0 }
}

/// Whether a stage has this function, and it was called.
fn is_call_of(s: &Situation, f: u16, i: u16) -> bool
    requires { i < length s.now.state.plan.stages }
    ensures { result ≡ is_call_of s.now f i }
{
    was_called(s, i) && has_function(s.graph.function(i), f)
}

/// Whether it is this function.
fn has_function(function: Option<u16>, f: u16) -> bool
    ensures { result ≡ option_map_or (λ g. g == f) function false }
{
    match function {
        None => false,
        Some(g) => g == f,
    }
}

/// Whether a stage with this outcome, or none, is so.
fn is_so(what: Is, o: Option<Outcome>) -> bool
    ensures { result ≡ is_so what o }
{
    match o {
        None => matches!(what, Is::Pending),
        Some(o) => settled_so(what, o),
    }
}

/// Whether a settled stage is so.
fn settled_so(what: Is, o: Outcome) -> bool
    ensures { result ≡ is_so what (Some o) }
{
    match what {
        Is::Pending => false,
        Is::Settled => true,
        Is::Value(v) => gives_value(v, o),
        Is::AnyValue => !is_exceptional(o),
        Is::Fault(cause) => has_cause(cause, o),
        Is::AnyFault => is_exceptional(o),
        Is::Cancelled => is_cancelled(o),
    }
}

/// Whether it is this value.
fn gives_value(v: Value, o: Outcome) -> bool
    ensures { result ≡ gives_value v o }
{
    match o {
        Outcome::Value(w) => same_value(v, w),
        Outcome::Fault { .. } => false,
    }
}

/// Whether it is a fault of this cause.
fn has_cause(cause: Cause, o: Outcome) -> bool
    ensures { result ≡ has_cause cause o }
{
    match o {
        Outcome::Value(_) => false,
        Outcome::Fault { cause: other, .. } => same_cause(cause, other),
    }
}

/// Whether two values are the same.
fn same_value(v: Value, w: Value) -> bool
    ensures { result ≡ same_value v w }
{
    match v {
        Value::Nil => matches!(w, Value::Nil),
        Value::Int(a) => is_int(w, a),
    }
}

/// Whether a value is this number.
fn is_int(v: Value, a: i32) -> bool
    ensures { result ≡ same_value (Int a) v }
{
    match v {
        Value::Nil => false,
        Value::Int(b) => a == b,
    }
}

/// Whether two causes are the same.
fn same_cause(a: Cause, b: Cause) -> bool
    ensures { result ≡ same_cause a b }
{
    match a {
        Cause::Thrown(code) => is_thrown(b, code),
        Cause::Cancelled => matches!(b, Cause::Cancelled),
        Cause::TimedOut(code) => is_timed_out(b, code),
        Cause::BadAnswer(code) => is_bad_answer(b, code),
    }
}

/// Whether it is this thrown code.
fn is_thrown(cause: Cause, a: u32) -> bool
    ensures { result ≡ same_cause (Thrown a) cause }
{
    match cause {
        Cause::Thrown(b) => a == b,
        _ => false,
    }
}

/// Whether it is a time-out of this code.
fn is_timed_out(cause: Cause, a: u32) -> bool
    ensures { result ≡ same_cause (TimedOut a) cause }
{
    match cause {
        Cause::TimedOut(b) => a == b,
        _ => false,
    }
}

/// Whether it is a bad answer of this code.
fn is_bad_answer(cause: Cause, a: u32) -> bool
    ensures { result ≡ same_cause (BadAnswer a) cause }
{
    match cause {
        Cause::BadAnswer(b) => a == b,
        _ => false,
    }
}
