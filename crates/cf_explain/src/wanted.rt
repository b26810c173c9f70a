//! What is to stand in some place.
use crate::vocabulary::Words;
use serde_json::Value as Json;
use std::fmt;

/// What is to stand in some place.
#[derive(Clone, Copy)]
pub enum Wanted {
    /// A JSON object.
    Object,
    /// An array.
    Array,
    /// The number of a version.
    Version,
    /// A whole number from 0 to this one.
    UpTo(u32),
    /// A whole number of 32 bits with a sign.
    Int,
    /// `null`, or a whole number of 32 bits with a sign.
    Value,
    /// One of so many stages, numbered from 0 on.
    Stage(u32),
    /// Two stages.
    Pair,
    /// One of these words, as a text.
    One(Words),
    /// An object of exactly one member, which has one of these names.
    Lone(Words),
    /// A function.
    Function,
}

impl Wanted {
    /// Whether the value is a number, a pair, an object or an array as it is wanted. Of words and of what stands in
    /// objects this says nothing.
    pub(crate) fn takes(self, json: &Json) -> bool {
        match self {
            Wanted::Object | Wanted::Lone(_) => json.is_object(),
            Wanted::Array => json.is_array(),
            Wanted::Version => within(json, 1, 3),
            Wanted::UpTo(most) => within(json, 0, i64::from(most)),
            Wanted::Int => within(json, -2_147_483_648, 2_147_483_647),
            Wanted::Value => json.is_null() || within(json, -2_147_483_648, 2_147_483_647),
            Wanted::Stage(count) => within(json, 0, i64::from(count) - 1),
            Wanted::Pair => is_pair(json),
            Wanted::One(_) => json.is_string(),
            Wanted::Function => json.is_string() || json.is_object(),
        }
    }
}

/// Whether it is a whole number in this range.
fn within(json: &Json, least: i64, most: i64) -> bool {
    match json.as_i64() {
        Some(n) => least <= n && n <= most,
        None => false,
    }
}

/// Whether it is an array of two numbers of 16 bits.
fn is_pair(json: &Json) -> bool {
    match json.as_array().map(Vec::as_slice) {
        Some([one, other]) => within(one, 0, 65_535) && within(other, 0, 65_535),
        _ => false,
    }
}

impl Wanted {
    /// How it is written where that is the same text each time.
    fn text(self) -> Option<&'static str> {
        match self {
            Wanted::Object => Some("an object"),
            Wanted::Array => Some("an array"),
            Wanted::Version => Some("1, 2 or 3"),
            Wanted::Int => Some("a whole number, -2147483648 to 2147483647"),
            Wanted::Value => Some("null or a whole number, -2147483648 to 2147483647"),
            Wanted::Stage(0) => Some("a stage, and none is there"),
            Wanted::Stage(1) => Some("stage 0, the only one that is there"),
            Wanted::Pair => Some("an array of two stages, each 0 to 65535"),
            _ => None,
        }
    }
}

impl fmt::Display for Wanted {
    fn fmt<W: fmt::Write>(&self, f: &mut fmt::Formatter<W>) -> fmt::Result {
        match self.text() {
            Some(text) => f.write_str(text),
            None => numbered(f, *self),
        }
    }
}

/// Writes one whose text has a number or words in it.
fn numbered<W: fmt::Write>(f: &mut fmt::Formatter<W>, wanted: Wanted) -> fmt::Result {
    match wanted {
        Wanted::UpTo(most) => write!(f, "a whole number, 0 to {most}"),
        Wanted::Stage(count) => stages(f, count),
        Wanted::One(words) => write!(f, "a text, {words}"),
        Wanted::Lone(words) => write!(f, "an object of exactly one member, {words}"),
        _ => function(f),
    }
}

fn stages<W: fmt::Write>(f: &mut fmt::Formatter<W>, count: u32) -> fmt::Result {
    let most = count.saturating_sub(1);
    write!(f, "a stage that is there, 0 to {most}")
}

fn function<W: fmt::Write>(f: &mut fmt::Formatter<W>) -> fmt::Result {
    write!(
        f,
        "a text, {}, or an object of exactly one member, {}",
        Words::PlainFunctions,
        Words::Functions
    )
}
