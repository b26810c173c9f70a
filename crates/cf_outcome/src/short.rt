//! Texts that are short enough to be made without memory.
ghost use Rattle.std.specs.Prelude.{◌≡◌, ◌+◌, ◌<◌, ◌≤◌, [], ◌∷◌, ◌++◌, length};
ghost use Rattle.std.specs.Fmt.{decimal};
ghost use Rattle.cf_outcome.specs.Texts.{value_text, code_text, cause_text, outcome_text, now_text};

use crate::now::Now;
use crate::outcome::{Cause, Outcome, Value};
use std::marker::Model;

/// How many bytes a short text has room for: an outcome's, with words before it and a line feed behind it.
pub const SHORT_ROOM: usize = 48;

/// A text of at most `SHORT_ROOM` bytes. Contracts see it as its bytes. Putting something into it can't fail: the
/// caller shows that there is room.
#[derive(Drop)]
pub struct ShortText {
    bytes: [u8; SHORT_ROOM],
    len: usize,
}

impl Model for ShortText {
    ghost use Rattle.std.specs.Prelude.{ℕ, ◌≤◌, List, take};

    ghost Value = { List ℕ };

    ghost view = { λ t. take t.len t.bytes };

    ghost invariant = { λ t. t.len ≤ 48 };
}

impl ShortText {
    /// The empty text.
    pub fn new() -> ShortText
        ensures { result ≡ [] }
    {
        ShortText {
            bytes: [0; SHORT_ROOM],
            len: 0,
        }
    }

    /// The bytes that were put into it.
    pub fn as_bytes(&self) -> &[u8]
        ensures { result.now ≡ self.now }
    {
        &self.bytes[..self.len]
    }

    /// Puts this part behind the text.
    pub fn push(&mut self, part: &str)
        requires { length self.old + length part.now ≤ 48 }
        ensures { self.new ≡ self.old ++ part.now }
    {
        let end = self.len + part.len();
        self.bytes[self.len..end].copy_from_slice(part.as_bytes());
        self.len = end;
    }

    /// Puts a number behind the text, of which the longest, `4294967295`, has 10 bytes.
    #[tactic(auto, using(crate::proofs::Lengths::number_is_short))]
    pub fn push_number(&mut self, n: u32)
        requires { length self.old + 10 ≤ 48 }
        ensures text { self.new ≡ self.old ++ decimal n }
        ensures short { length (decimal n) ≤ 10 }
    {
        self.push_digits(n);
    }

    /// Puts the digits behind the text: the last one goes behind those before it.
    #[tactic(auto, using(crate::proofs::Lengths::length_decimal_digit, crate::proofs::Lengths::length_decimal_step, std::proofs::lemmas::Fmt::decimal_digit))]
    fn push_digits(&mut self, n: u32)
        requires { length self.old + length (decimal n) ≤ 48 }
        ensures { self.new ≡ self.old ++ decimal n }
    {
        if n < 10 {
            self.push_digit(n as u8);
        } else {
            self.push_digits(n / 10);
            self.push_digit((n % 10) as u8);
        }
    }

    fn push_digit(&mut self, digit: u8)
        requires room { length self.old < 48 }
        requires digit { digit < 10 }
        ensures { self.new ≡ self.old ++ (48 + digit) ∷ [] }
    {
        self.bytes[self.len] = b'0' + digit;
        self.len += 1;
    }

    /// Puts a value behind the text, of which the longest, `-2147483648`, has 11 bytes.
    pub fn push_value(&mut self, v: Value)
        requires { length self.old + 11 ≤ 48 }
        ensures text { self.new ≡ self.old ++ value_text v }
        ensures short { length (value_text v) ≤ 11 }
    {
        match v {
            Value::Nil => self.push("nil"),
            Value::Int(n) => {
                if n < 0 {
                    self.push("-");
                }
                self.push_number(n.unsigned_abs());
            }
        }
    }

    /// Puts a code behind the text, with a space before it, unless it is 0. The longest has 11 bytes.
    fn push_code(&mut self, code: u32)
        requires { length self.old + 11 ≤ 48 }
        ensures text { self.new ≡ self.old ++ code_text code }
        ensures short { length (code_text code) ≤ 11 }
    {
        if code != 0 {
            self.push(" ");
            self.push_number(code);
        }
    }

    /// Puts a cause behind the text, of which the longest, `badanswer 4294967295`, has 20 bytes.
    pub fn push_cause(&mut self, c: Cause)
        requires { length self.old + 20 ≤ 48 }
        ensures text { self.new ≡ self.old ++ cause_text c }
        ensures short { length (cause_text c) ≤ 20 }
    {
        match c {
            Cause::Thrown(code) => {
                self.push("thrown ");
                self.push_number(code);
            }
            Cause::Cancelled => self.push("cancelled"),
            Cause::TimedOut(code) => {
                self.push("timeout");
                self.push_code(code);
            }
            Cause::BadAnswer(code) => {
                self.push("badanswer");
                self.push_code(code);
            }
        }
    }

    /// Puts an outcome behind the text, of which the longest, `fault badanswer 4294967295 wrapped`, has 34 bytes.
    pub fn push_outcome(&mut self, o: Outcome)
        requires { length self.old + 34 ≤ 48 }
        ensures text { self.new ≡ self.old ++ outcome_text o }
        ensures short { length (outcome_text o) ≤ 34 }
    {
        match o {
            Outcome::Value(v) => {
                self.push("value ");
                self.push_value(v);
            }
            Outcome::Fault { cause, wrapped } => {
                self.push("fault ");
                self.push_cause(cause);
                self.push(if wrapped { " wrapped" } else { " raw" });
            }
        }
    }

    /// Puts what a caller is told behind the text. The longest, `completion badanswer 4294967295`, has 31 bytes.
    pub fn push_now(&mut self, told: Now)
        requires { length self.old + 31 ≤ 48 }
        ensures text { self.new ≡ self.old ++ now_text told }
        ensures short { length (now_text told) ≤ 31 }
    {
        match told {
            Now::Absent(v) => {
                self.push("absent ");
                self.push_value(v);
            }
            Now::Got(v) => {
                self.push("value ");
                self.push_value(v);
            }
            Now::Completion(cause) => {
                self.push("completion ");
                self.push_cause(cause);
            }
            Now::Cancellation => self.push("cancellation"),
        }
    }
}
