//! The functions of stages, as a script writes them.
ghost use Rattle.std.specs.Prelude.{◌≡◌, ◌≤◌, IsOkUnless, OnErr, OnOk, length, option_map};
ghost use Rattle.serde_json.specs.View.{view};
ghost use Rattle.cf_script_reading.specs.Funcs.{func_of, function_said, given_func, member_func, number_func, select_of, word_func};
ghost use Rattle.cf_script_reading.specs.Stages.{number_after, with_function};

use crate::fault::ReadingFault;
use crate::func::Func;
use crate::parts::{int, len, member, u16_in, u16_of, u32_of, value};
use serde_json::Value as Json;

/// The function that is one word.
#[tactic(auto, unfolding(crate::specs::Funcs::word_func))]
fn of_word(word: &str) -> Option<Func>
    ensures { result ≡ word_func word.now }
{
    match word {
        "neg" => Some(Func::Neg),
        "sum" => Some(Func::Sum),
        _ => None,
    }
}

/// Two stages, of which the operand selects one.
#[tactic(auto, unfolding(crate::specs::Funcs::select_of))]
fn select(json: &Json) -> Option<Func>
    ensures { result ≡ select_of (view json.now) }
{
    if len(json) != 2 {
        return None;
    }
    Some(Func::Select(u16_in(json, 0)?, u16_in(json, 1)?))
}

/// The function of this name that works on a number.
#[tactic(auto, unfolding(crate::specs::Funcs::number_func))]
fn of_number(name: &str, json: &Json) -> Option<Func>
    ensures { result ≡ number_func name.now (view json.now) }
{
    match name {
        "add" => Some(Func::Add(int(json)?)),
        "mul" => Some(Func::Mul(int(json)?)),
        "div" => Some(Func::Div(int(json)?)),
        _ => None,
    }
}

/// The function of this name that answers what it is given.
#[tactic(auto, unfolding(crate::specs::Funcs::given_func))]
fn of_given(name: &str, json: &Json) -> Option<Func>
    ensures { result ≡ given_func name.now (view json.now) }
{
    match name {
        "const" => Some(Func::Const(value(json)?)),
        "throw" => Some(Func::Throw(u32_of(json)?)),
        "goto" => Some(Func::Goto(u16_of(json)?)),
        "select" => select(json),
        "rescue" => Some(Func::Rescue(value(json)?)),
        _ => None,
    }
}

/// The function that is an object of one member.
#[tactic(auto, unfolding(crate::specs::Funcs::member_func))]
fn of_member(json: &Json) -> Option<Func>
    ensures { result ≡ member_func (view json.now) }
{
    let (name, content) = member(json)?;
    match of_number(name, content) {
        Some(f) => Some(f),
        None => of_given(name, content),
    }
}

/// A function.
#[tactic(auto, unfolding(crate::specs::Funcs::func_of))]
fn func(json: &Json) -> Option<Func>
    ensures { result ≡ func_of (view json.now) }
{
    match json.as_str() {
        Some(word) => of_word(word),
        None => of_member(json),
    }
}

/// The function that stands in a stage, if one does.
pub(crate) fn function(said: Option<&Json>) -> Option<Option<Func>>
    ensures { result ≡ function_said (option_map (λ d. view d.now) said.entry) }
{
    match said {
        None => Some(None),
        Some(json) => Some(Some(func(json)?)),
    }
}

/// The number of a stage's function, which is the count of the functions before it.
pub(crate) fn number_after(functions: &[Func], function: Option<Func>) -> Option<u16>
    requires { length functions.now ≤ 4096 }
    ensures { result ≡ number_after functions.now function }
{
    match function {
        None => None,
        Some(_) => Some(functions.len() as u16),
    }
}

/// Takes a stage's function, if it has one.
pub(crate) fn keep(functions: &mut Vec<Func>, function: Option<Func>) -> Result<(), ReadingFault>
    ensures ok { OnOk result (functions.new.items ≡ with_function functions.old.items function) }
    ensures err { OnErr result (functions.new.items ≡ functions.old.items) }
    ensures refused { IsOkUnless result ReadingFault.NoMemory }
{
    match function {
        None => Ok(()),
        Some(f) => Ok(functions.push(f)?),
    }
}
