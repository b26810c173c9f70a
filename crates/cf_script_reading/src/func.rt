//! The functions that a script can give its stages, and what they answer.
ghost use Rattle.std.specs.Prelude.{◌≡◌};
ghost use Rattle.cf_script_reading.specs.Functions.{first_argument, number_of, quotient, sum_of, thrown_again};

use cf_forms::{Answer, Args, StageFn};
use cf_outcome::{Cause, Outcome, Value};

/// The function of a stage, as a script writes it.
///
/// Its operand is the number of the first argument, which is a value or an outcome that is one. The operand of nothing and of nil
/// is 0. Sums, products, quotients and negation wrap to 32 bits as Java's `int` does. Called with an
/// outcome that is a fault, each except `Const`, `Throw`, `Goto` and `Rescue` throws: the fault's own code if one was thrown,
/// and 0 if none was.
#[derive(Clone, Copy, Debug, PartialEq, Eq)]
pub enum Func {
    /// The operand and this number together.
    Add(i32),
    /// The operand times this number.
    Mul(i32),
    /// The operand divided by this number, towards zero; throws 0 where the number is 0.
    Div(i32),
    /// The operand with the other sign.
    Neg,
    /// The sum of two arguments, or the operand.
    Sum,
    /// This value.
    Const(Value),
    /// Throws this code.
    Throw(u32),
    /// Links to this stage.
    Goto(u16),
    /// Links to the first stage where the operand is 0, and else to the second.
    Select(u16, u16),
    /// This value in place of a fault, and else the first argument itself.
    Rescue(Value),
}

impl StageFn for Func {
    ghost use Rattle.cf_script_reading.specs.Functions.{func_answer};

    ghost meaning = { func_answer };

    fn call(&self, args: &Args) -> Answer {
        match (*self, *args) {
            (Func::Const(v), _) => Answer::Give(v),
            (Func::Throw(code), _) => Answer::Throw(code),
            (Func::Goto(j), _) => Answer::Link(j),
            (Func::Rescue(v), Args::Got(Outcome::Fault { .. })) => Answer::Give(v),
            (Func::Rescue(_), args) => Answer::Give(first_of(args)),
            (_, Args::Got(Outcome::Fault { cause, .. })) => thrown_for(cause),
            (Func::Add(k), args) => give(number(first_of(args)).wrapping_add(k)),
            (Func::Mul(k), args) => give(number(first_of(args)).wrapping_mul(k)),
            (Func::Div(k), args) => divided(args, k),
            (Func::Neg, args) => give(number(first_of(args)).wrapping_neg()),
            (Func::Sum, args) => give(total(args)),
            (Func::Select(i, j), args) => {
                Answer::Link(if number(first_of(args)) == 0 { i } else { j })
            }
        }
    }
}

/// A number as the answer.
fn give(n: i32) -> Answer
    ensures { result ≡ Answer.Give (Value.Int n) }
{
    Answer::Give(Value::Int(n))
}

/// The number of a value, 0 of nil.
fn number(v: Value) -> i32
    ensures { result ≡ number_of v }
{
    match v {
        Value::Nil => 0,
        Value::Int(n) => n,
    }
}

/// The first argument, nil where there is none.
fn first_of(args: Args) -> Value
    ensures { result ≡ first_argument args }
{
    match args {
        Args::One(v) | Args::Two(v, _) | Args::Got(Outcome::Value(v)) => v,
        Args::None | Args::Got(Outcome::Fault { .. }) => Value::Nil,
    }
}

/// The sum of two arguments, or the operand.
fn total(args: Args) -> i32
    ensures { result ≡ sum_of args }
{
    match args {
        Args::Two(v, w) => number(v).wrapping_add(number(w)),
        _ => number(first_of(args)),
    }
}

/// The operand over `k`.
fn divided(args: Args, k: i32) -> Answer
    ensures { result ≡ quotient args k }
{
    if k == 0 {
        Answer::Throw(0)
    } else {
        give(number(first_of(args)).wrapping_div(k))
    }
}

/// What is thrown where a number was wanted and a fault with this cause came.
fn thrown_for(cause: Cause) -> Answer
    ensures { result ≡ thrown_again cause }
{
    match cause {
        Cause::Thrown(code) => Answer::Throw(code),
        _ => Answer::Throw(0),
    }
}
