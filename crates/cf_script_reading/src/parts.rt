//! Numbers, values and the parts of arrays and objects in a JSON value.
ghost use Rattle.std.specs.Prelude.{◌≡◌, option_map};
ghost use Rattle.serde_json.specs.View.{members_view, view};
ghost use Rattle.cf_script_reading.specs.Parts.{elements, int_of, lone, number_at, only_member, up_to, value_at, value_of};

use cf_outcome::Value;
use serde_json::{Map, Value as Json};

/// A whole number from 0 to 63.
pub(crate) fn caller(json: &Json) -> Option<u8>
    ensures { result ≡ up_to 63 (view json.now) }
{
    let n = json.as_i64()?;
    if 0 <= n && n <= 63 {
        Some(n as u8)
    } else {
        None
    }
}

/// A whole number of 16 bits.
pub fn u16_of(json: &Json) -> Option<u16>
    ensures { result ≡ up_to 65535 (view json.now) }
{
    let n = json.as_i64()?;
    if 0 <= n && n <= 65_535 {
        Some(n as u16)
    } else {
        None
    }
}

/// A whole number of 32 bits.
pub fn u32_of(json: &Json) -> Option<u32>
    ensures { result ≡ up_to 4294967295 (view json.now) }
{
    let n = json.as_i64()?;
    if 0 <= n && n <= 4_294_967_295 {
        Some(n as u32)
    } else {
        None
    }
}

/// A whole number of 32 bits with a sign.
pub(crate) fn int(json: &Json) -> Option<i32>
    ensures { result ≡ int_of (view json.now) }
{
    let n = json.as_i64()?;
    if -2_147_483_648 <= n && n <= 2_147_483_647 {
        Some(n as i32)
    } else {
        None
    }
}

/// `null`, or a whole number.
pub fn value(json: &Json) -> Option<Value>
    ensures { result ≡ value_of (view json.now) }
{
    if json.is_null() {
        return Some(Value::Nil);
    }
    Some(Value::Int(int(json)?))
}

/// How many elements an array has, 0 of what is none.
#[tactic(auto, using(crate::proofs::Counts::items_counted))]
pub(crate) fn len(json: &Json) -> usize
    ensures { result ≡ elements (view json.now) }
{
    match json.as_array() {
        Some(list) => list.len(),
        None => 0,
    }
}

/// The whole number of 16 bits in place `i`.
pub(crate) fn u16_in(json: &Json, i: usize) -> Option<u16>
    ensures { result ≡ number_at 65535 i (view json.now) }
{
    u16_of(json.get(i)?)
}

/// The whole number of 32 bits in place `i`.
pub(crate) fn u32_in(json: &Json, i: usize) -> Option<u32>
    ensures { result ≡ number_at 4294967295 i (view json.now) }
{
    u32_of(json.get(i)?)
}

/// The value in place `i`.
pub(crate) fn value_in(json: &Json, i: usize) -> Option<Value>
    ensures { result ≡ value_at i (view json.now) }
{
    value(json.get(i)?)
}

/// The name and the content of a member, where there is exactly one.
#[tactic(auto, using(crate::proofs::Counts::lone_first, crate::proofs::Counts::lone_none))]
fn lone_of(members: &Map<String, Json>) -> Option<(&str, &Json)>
    ensures { option_map (λ p. (p.0.now, view p.1.now)) result
        ≡ lone (members_view members.now.entries) }
{
    if members.len() != 1 {
        return None;
    }
    let (name, content) = members.first_key_value()?;
    Some((name.as_str(), content))
}

/// The name and the content of an object's one member, where it has exactly one.
pub(crate) fn member(json: &Json) -> Option<(&str, &Json)>
    ensures { option_map (λ p. (p.0.now, view p.1.now)) result ≡ only_member (view json.now) }
{
    lone_of(json.as_object()?)
}
