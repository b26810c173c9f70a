//! Functions of stages, in the words of a script.
use cf_outcome::Value;
use cf_script_reading::Func;
use std::alloc::AllocError;

/// Adds a function, behind a blank.
pub(crate) fn write_function(text: &mut String, function: Func) -> Result<(), AllocError> {
    match function {
        Func::Add(k) => write!(text, " add {k}"),
        Func::Mul(k) => write!(text, " mul {k}"),
        Func::Div(k) => write!(text, " div {k}"),
        Func::Neg => write!(text, " neg"),
        Func::Sum => write!(text, " sum"),
        Func::Const(v) => write_valued(text, "const", v),
        Func::Throw(code) => write!(text, " throw {code}"),
        Func::Goto(j) => write!(text, " goto {j}"),
        Func::Select(i, j) => write!(text, " select {i} {j}"),
        Func::Rescue(v) => write_valued(text, "rescue", v),
    }
}

/// Adds a word and a value, which is `null` or a number.
fn write_valued(text: &mut String, word: &str, v: Value) -> Result<(), AllocError> {
    match v {
        Value::Nil => write!(text, " {word} null"),
        Value::Int(n) => write!(text, " {word} {n}"),
    }
}
