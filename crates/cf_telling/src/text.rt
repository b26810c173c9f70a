//! A text that is written piece by piece, and texts of others in it.
ghost use Rattle.std.specs.Prelude.{◌≡◌, ◌<◌, [], ◌∷◌, ◌++◌, IfOk, OnErr, OnOk, encode_utf8_all, false, string_bytes, true};
ghost use Rattle.std.specs.Char.{digit_char};
ghost use Rattle.cf_telling.specs.Escapes.{by_number, escape, is_special, written_as};
ghost use Rattle.cf_telling.specs.Parts.{failing_text, limit_text};
ghost use Rattle.cf_telling.specs.Texts.{Adds, written};
ghost use Rattle.cf_telling.specs.declared.text.Within.TheVariants.{Json, Lines};

use crate::parts::{push_failing, push_limit};
use cf_forms::Limit;
use cf_model::{Ask, Failure, Reply, Told};
use cf_outcome::Outcome;
use cf_text::{is_shown, write_did, write_reply, write_saw, write_settled};
use std::alloc::{AllocError, Global};
use std::fmt::Display;
use std::marker::Model;

/// Where a text is read. That says which characters a text of others may not have there.
#[derive(Clone, Copy)]
pub enum Within {
    /// In strings of JSON, also in a page: none may end the string or the script that it stands in.
    Json,
    /// In lines: none may end the line, or look as if it did.
    Lines,
    /// In one line, in which semicolons part what is told.
    OneLine,
}

/// A text that is written piece by piece. Once memory is refused it takes nothing more, which `check` and `whole` tell: so no
/// piece has an answer of its own.
#[derive(Drop)]
pub struct Text {
    text: String,
    within: Within,
    is_short: bool,
}

impl Model for Text {
    ghost use Rattle.cf_telling.specs.Texts.{Written};

    ghost Value = { Written };

    ghost use Rattle.std.specs.Prelude.{string_bytes};

    ghost view = { λ t. record {
      bytes = string_bytes t.text;
      within = t.within;
      is_short = t.is_short;
    } };
}

impl Text {
    /// Of no piece.
    pub fn new(alloc: Global, within: Within) -> Text
        ensures { result ≡ record { bytes = []; within = within; is_short = false } }
    {
        Text {
            text: String::new(alloc),
            within,
            is_short: false,
        }
    }

    /// Adds a piece.
    pub fn add(&mut self, piece: &str)
        ensures { Adds piece.now self.old self.new }
    {
        if self.is_short {
            return;
        }
        match self.text.push_str(piece) {
            Ok(()) => {}
            Err(_) => self.is_short = true,
        }
    }

    /// Adds a value.
    pub fn add_value<D: Display + Drop>(&mut self, value: D) {
        self.add_with("", value);
    }

    /// Adds a piece, and a value behind it.
    pub fn add_with<D: Display + Drop>(&mut self, piece: &str, value: D) {
        if !self.is_short && write!(self.text, "{piece}{value}").is_err() {
            self.is_short = true;
        }
    }

    /// Adds 16 hexadecimal digits.
    pub fn add_hex(&mut self, number: u64) {
        if !self.is_short && write!(self.text, "{number:016x}").is_err() {
            self.is_short = true;
        }
    }

    /// Adds so many thousandths: 1234 as 1.234.
    pub fn add_thousandths(&mut self, count: u64) {
        let (whole, rest) = (count / 1_000, count % 1_000);
        if !self.is_short && write!(self.text, "{whole}.{rest:03}").is_err() {
            self.is_short = true;
        }
    }

    /// The same so that points stand one below the other, up to five digits before them.
    pub(crate) fn add_column(&mut self, count: u64) {
        let (whole, rest) = (count / 1_000, count % 1_000);
        if !self.is_short && write!(self.text, "{whole:>5}.{rest:03}").is_err() {
            self.is_short = true;
        }
    }

    /// Adds the record of an event as accounts have it.
    pub(crate) fn add_did(&mut self, place: usize, word: u64, reply: Reply) {
        if !self.is_short && write_did(&mut self.text, place, word, reply).is_err() {
            self.is_short = true;
        }
    }

    /// Adds the record of a stage whose outcome was told, as accounts have it.
    pub(crate) fn add_saw(&mut self, place: usize, stage: u16, outcome: Outcome) {
        let (ask, told) = (Ask::Outcome(stage), Told::Outcome(Some(outcome)));
        if !self.is_short && write_saw(&mut self.text, place, ask, told).is_err() {
            self.is_short = true;
        }
    }

    /// Adds a step that fails a stage so, without its end.
    pub(crate) fn add_failing(&mut self, stage: u16, failure: Failure)
        ensures { Adds (failing_text stage failure) self.old self.new }
    {
        if self.is_short {
            return;
        }
        match push_failing(&mut self.text, stage, failure) {
            Ok(()) => {}
            Err(_) => self.is_short = true,
        }
    }

    /// Adds a limit.
    pub(crate) fn add_limit(&mut self, limit: Limit)
        ensures { Adds (limit_text limit) self.old self.new }
    {
        if self.is_short {
            return;
        }
        match push_limit(&mut self.text, limit) {
            Ok(()) => {}
            Err(_) => self.is_short = true,
        }
    }

    /// Adds what a stage holds, in the words of reports.
    pub(crate) fn add_settled(&mut self, outcome: Option<Outcome>) {
        if !self.is_short && write_settled(&mut self.text, outcome).is_err() {
            self.is_short = true;
        }
    }

    /// Adds a reply in the words of reports.
    pub fn add_reply(&mut self, reply: Reply) {
        if !self.is_short && write_reply(&mut self.text, reply).is_err() {
            self.is_short = true;
        }
    }

    /// Adds a comma, but before the first.
    pub fn add_comma(&mut self, k: usize) {
        if k > 0 {
            self.add(",");
        }
    }

    /// Adds a text of others as a JSON string.
    pub fn add_string(&mut self, said: &str) {
        self.add("\"");
        self.add_inside(said);
        self.add("\"");
    }

    /// Adds a text of others. Each of its characters is written as one that may stand there.
    pub fn add_inside(&mut self, said: &str)
        ensures { Adds (written self.old.within said.now) self.old self.new }
    {
        for c in said.chars() {
            self.add_char(c);
        }
    }

    /// Adds so many characters of a text of others as a JSON string.
    pub(crate) fn add_beginning(&mut self, said: &str, most: usize) {
        self.add("\"");
        for (k, c) in said.chars().enumerate() {
            if k < most {
                self.add_char(c);
            }
        }
        self.add("\"");
    }

    /// Adds a character of a text of others.
    fn add_char(&mut self, c: char)
        ensures { Adds (encode_utf8_all (written_as self.old.within c)) self.old self.new }
    {
        if self.is_short {
            return;
        }
        match push_char(&mut self.text, self.within, c) {
            Ok(()) => {}
            Err(_) => self.is_short = true,
        }
    }

    /// Adds what another text has.
    pub fn add_text(&mut self, other: &Text) {
        self.is_short = self.is_short || other.is_short;
        self.add(&other.text);
    }

    /// Fails where memory was refused for a piece.
    pub fn check(&self) -> Result<(), AllocError>
        ensures whole { OnOk result (self.now.is_short ≡ false) }
        ensures short { OnErr result (self.now.is_short ≡ true) }
    {
        if self.is_short {
            Err(AllocError)
        } else {
            Ok(())
        }
    }

    /// All of it, unless memory was refused for a piece.
    pub fn whole(self) -> Result<String, AllocError>
        ensures text { IfOk result (λ text. string_bytes text ≡ self.bytes) }
        ensures whole { OnOk result (self.is_short ≡ false) }
        ensures short { OnErr result (self.is_short ≡ true) }
    {
        if self.is_short {
            Err(AllocError)
        } else {
            Ok(self.text)
        }
    }
}

/// Adds a character of a text of others. What it may not have stands there as JSON writes it.
fn push_char(text: &mut String, within: Within, c: char) -> Result<(), AllocError>
    ensures { OnOk result (string_bytes text.new ≡ string_bytes text.old ++ encode_utf8_all (written_as within c)) }
{
    let number = u32::from(c);
    if is_shown(number) && !is_special(within, number) {
        text.push(c)
    } else {
        push_escape(text, within, number)
    }
}

/// Whether the character of this number, which is shown, could end there what a text of others stands in.
fn is_special(within: Within, number: u32) -> bool
    ensures { result ≡ is_special within number }
{
    match within {
        Within::Json => is_special_in_json(number),
        Within::Lines => false,
        Within::OneLine => number == 59,
    }
}

fn is_special_in_json(number: u32) -> bool
    ensures { result ≡ is_special Json number }
{
    number == 34
        || number == 92
        || number == 60
        || number == 62
        || number == 38
        || number == 39
        || number == 96
}

/// Adds what stands for a character.
fn push_escape(text: &mut String, within: Within, number: u32) -> Result<(), AllocError>
    ensures { OnOk result (string_bytes text.new ≡ string_bytes text.old ++ encode_utf8_all (escape within number)) }
{
    match within {
        Within::Json => push_number(text, number),
        Within::Lines | Within::OneLine => push_short(text, number),
    }
}

/// The same in lines.
fn push_short(text: &mut String, number: u32) -> Result<(), AllocError>
    ensures { OnOk result (string_bytes text.new ≡ string_bytes text.old ++ encode_utf8_all (escape Lines number)) }
{
    if number == 10 {
        push_pair(text, '\\', 'n')
    } else if number == 13 {
        push_pair(text, '\\', 'r')
    } else if number == 9 {
        push_pair(text, '\\', 't')
    } else {
        push_number(text, number)
    }
}

/// Adds a character by its number.
fn push_number(text: &mut String, number: u32) -> Result<(), AllocError>
    ensures { OnOk result (string_bytes text.new ≡ string_bytes text.old ++ encode_utf8_all (by_number number)) }
{
    push_pair(text, '\\', 'u')?;
    push_pair(text, digit(number / 4096 % 16), digit(number / 256 % 16))?;
    push_pair(text, digit(number / 16 % 16), digit(number % 16))
}

fn push_pair(text: &mut String, first: char, second: char) -> Result<(), AllocError>
    ensures { OnOk result (string_bytes text.new ≡ string_bytes text.old ++ encode_utf8_all (first ∷ second ∷ [])) }
{
    text.push(first)?;
    text.push(second)
}

/// A hexadecimal digit.
fn digit(number: u32) -> char
    requires { number < 16 }
    ensures { result ≡ digit_char number }
{
    char::from_digit(number, 16).unwrap_or('0')
}
