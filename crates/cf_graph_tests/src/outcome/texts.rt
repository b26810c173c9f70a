//! Outcomes, what becomes of them, and their texts, in memory, cut short and where a writer stumbles.
use crate::checks::{holds, is_shown};
use cf_outcome::{
    Cause, Now, Outcome, SHORT_ROOM, ShortText, Value, WriteFault, is_cancelled, is_exceptional,
    now_of, wrap, write_outcome, write_text,
};
use std::alloc::Global;
use std::io;
use std::io::{ErrorKind, Write};
use std::process::Abort;

const RAW_CANCEL: Outcome = Outcome::Fault {
    cause: Cause::Cancelled,
    wrapped: false,
};

const WRAPPED_CANCEL: Outcome = Outcome::Fault {
    cause: Cause::Cancelled,
    wrapped: true,
};

const THREE: Outcome = Outcome::Value(Value::Int(3));

/// What is known of an outcome, or of a text.
#[derive(Clone, Copy)]
enum Row {
    /// An outcome, as it is wrapped, and whether it is cancelled and exceptional.
    Outcome(Outcome, Outcome, bool, bool),
    /// What is told of an outcome, with this value where there is none.
    Now(Option<Outcome>, Value, Now),
    /// A value as it is written, and as its outcome is.
    Value(Value, &'static str, &'static str),
    /// A cause as it is written raw and wrapped.
    Fault(Cause, &'static str, &'static str),
    /// What a caller is told, as it is written.
    Told(Now, &'static str),
}

static ROWS: [Row; 33] = [
    Row::Outcome(THREE, THREE, false, false),
    Row::Outcome(RAW_CANCEL, WRAPPED_CANCEL, true, true),
    Row::Outcome(WRAPPED_CANCEL, WRAPPED_CANCEL, false, true),
    Row::Now(Some(THREE), Value::Nil, Now::Got(Value::Int(3))),
    Row::Now(Some(RAW_CANCEL), Value::Nil, Now::Cancellation),
    Row::Now(
        Some(WRAPPED_CANCEL),
        Value::Nil,
        Now::Completion(Cause::Cancelled),
    ),
    Row::Now(None, Value::Int(-1), Now::Absent(Value::Int(-1))),
    Row::Value(Value::Nil, "nil", "value nil"),
    Row::Value(Value::Int(0), "0", "value 0"),
    Row::Value(Value::Int(9), "9", "value 9"),
    Row::Value(Value::Int(10), "10", "value 10"),
    Row::Value(Value::Int(-1), "-1", "value -1"),
    Row::Value(Value::Int(2147483647), "2147483647", "value 2147483647"),
    Row::Value(Value::Int(-2147483648), "-2147483648", "value -2147483648"),
    Row::Fault(
        Cause::Thrown(0),
        "fault thrown 0 raw",
        "fault thrown 0 wrapped",
    ),
    Row::Fault(
        Cause::Thrown(7),
        "fault thrown 7 raw",
        "fault thrown 7 wrapped",
    ),
    Row::Fault(
        Cause::Thrown(4294967295),
        "fault thrown 4294967295 raw",
        "fault thrown 4294967295 wrapped",
    ),
    Row::Fault(
        Cause::Cancelled,
        "fault cancelled raw",
        "fault cancelled wrapped",
    ),
    Row::Fault(
        Cause::TimedOut(0),
        "fault timeout raw",
        "fault timeout wrapped",
    ),
    Row::Fault(
        Cause::TimedOut(7),
        "fault timeout 7 raw",
        "fault timeout 7 wrapped",
    ),
    Row::Fault(
        Cause::BadAnswer(0),
        "fault badanswer raw",
        "fault badanswer wrapped",
    ),
    Row::Fault(
        Cause::BadAnswer(4294967295),
        "fault badanswer 4294967295 raw",
        "fault badanswer 4294967295 wrapped",
    ),
    Row::Told(Now::Absent(Value::Int(4)), "absent 4"),
    Row::Told(Now::Absent(Value::Nil), "absent nil"),
    Row::Told(Now::Got(Value::Nil), "value nil"),
    Row::Told(Now::Got(Value::Int(-4)), "value -4"),
    Row::Told(Now::Completion(Cause::Thrown(7)), "completion thrown 7"),
    Row::Told(Now::Completion(Cause::Cancelled), "completion cancelled"),
    Row::Told(Now::Completion(Cause::TimedOut(0)), "completion timeout"),
    Row::Told(Now::Completion(Cause::TimedOut(7)), "completion timeout 7"),
    Row::Told(Now::Completion(Cause::BadAnswer(0)), "completion badanswer"),
    Row::Told(
        Now::Completion(Cause::BadAnswer(4294967295)),
        "completion badanswer 4294967295",
    ),
    Row::Told(Now::Cancellation, "cancellation"),
];

/// Whether an outcome is written so, to a writer and as a text.
fn is_written(rt: &impl Abort, alloc: Global, outcome: Outcome, text: &str) -> bool {
    let mut out: Vec<u8> = Vec::new(alloc);
    let written = write_outcome(&mut out, outcome).is_ok();
    let is_same = out.as_slice() == text.as_bytes();
    drop(out);
    written & is_same & is_shown(rt, alloc, &outcome, text)
}

fn fault(cause: Cause, wrapped: bool) -> Outcome {
    Outcome::Fault { cause, wrapped }
}

/// Whether this is the short text of what a caller is told.
fn is_short(told: Now, text: &str) -> bool {
    let mut short = ShortText::new();
    short.push_now(told);
    short.as_bytes() == text.as_bytes()
}

/// Whether a row is so.
fn is_so(rt: &impl Abort, alloc: Global, row: Row) -> bool {
    match row {
        Row::Outcome(outcome, wrapped, cancelled, exceptional) => {
            (wrap(outcome) == wrapped)
                & (is_cancelled(outcome) == cancelled)
                & (is_exceptional(outcome) == exceptional)
        }
        Row::Now(outcome, absent, now) => now_of(outcome, absent) == now,
        Row::Value(value, text, whole) => {
            is_shown(rt, alloc, &value, text) & is_written(rt, alloc, Outcome::Value(value), whole)
        }
        Row::Fault(cause, raw, wrapped) => {
            is_written(rt, alloc, fault(cause, false), raw)
                & is_written(rt, alloc, fault(cause, true), wrapped)
        }
        Row::Told(told, text) => is_shown(rt, alloc, &told, text) & is_short(told, text),
    }
}

#[test]
fn outcomes_are_told_and_written_so(rt: HostRuntime) {
    for (at, row) in ROWS.iter().enumerate() {
        holds(&rt, is_so(&rt, rt.alloc(), *row), at);
    }
}

/// Whether the longest has room behind as much as there is room for.
fn has_room() -> bool {
    let mut short = ShortText::new();
    short.push("granted got 12");
    short.push_outcome(fault(Cause::BadAnswer(4294967295), true));
    short.as_bytes().len() == SHORT_ROOM
}

/// Takes so many bytes a call, and holds the first of them. One call of `write` fails or takes nothing, and the first flush
/// may fail. The next call would go on, so a writer of texts that tries again is found out.
#[derive(Drop)]
struct Stumbling {
    a_call: usize,
    held: [u8; 32],
    len: usize,
    writes: usize,
    stumbles_at: usize,
    fails: bool,
    flushes: usize,
    flush_fails: bool,
    len_at_flush: usize,
}

impl Write for Stumbling {
    fn write(&mut self, buf: &[u8]) -> io::Result<usize> {
        let call = self.writes;
        self.writes = call.wrapping_add(1);
        if call == self.stumbles_at {
            return if self.fails {
                Err(io::Error::from(ErrorKind::Interrupted))
            } else {
                Ok(0)
            };
        }
        if buf.is_empty() || self.len >= 32 {
            return Ok(0);
        }
        self.held[self.len] = buf[0];
        let taken = buf.len().min(self.a_call);
        self.len = self.len.wrapping_add(taken);
        Ok(taken)
    }

    fn flush(&mut self) -> io::Result<()> {
        self.flushes = self.flushes.wrapping_add(1);
        self.len_at_flush = self.len;
        if self.flush_fails && self.flushes == 1 {
            return Err(io::Error::from(ErrorKind::Interrupted));
        }
        Ok(())
    }
}

/// A writer that takes so many bytes a call, and whose call of this number stumbles.
fn stumbles_once(a_call: usize, stumbles_at: usize, fails: bool, flush_fails: bool) -> Stumbling {
    Stumbling {
        a_call,
        held: [0; 32],
        len: 0,
        writes: 0,
        stumbles_at,
        fails,
        flushes: 0,
        flush_fails,
        len_at_flush: 0,
    }
}

const TEXT: &[u8] = b"fault cancelled raw";

/// Writes the same text by either function.
fn write_it(out: &mut Stumbling, as_outcome: bool) -> Result<(), WriteFault> {
    if as_outcome {
        write_outcome(out, RAW_CANCEL)
    } else {
        write_text(out, TEXT)
    }
}

/// What a writer took is a front of the text. Behind a write that failed, or took no byte, nothing is written or flushed.
fn ended_at(out: &Stumbling, stumbles_at: usize) -> bool {
    let whole = TEXT.len();
    out.len == stumbles_at.min(whole)
        && out.writes == stumbles_at.saturating_add(1).min(whole)
        && out.flushes == (stumbles_at >= whole) as usize
        && TEXT.starts_with(&out.held[..out.len.min(32)])
}

/// Whether a write that stumbles at this call ends there.
fn ends_at(stumbles_at: usize, fails: bool, as_outcome: bool) -> bool {
    let mut out = stumbles_once(1, stumbles_at, fails, false);
    let written = write_it(&mut out, as_outcome).is_ok();
    written == (stumbles_at >= TEXT.len()) && ended_at(&out, stumbles_at)
}

/// The same, by a number: its lowest bits tell whether it fails, and whether it writes an outcome.
fn ends_by(number: usize) -> bool {
    ends_at(number / 4, number & 1 == 1, number & 2 == 2)
}

/// Whether all that is left is handed over at once.
fn takes_all_at_once() -> bool {
    let mut out = stumbles_once(usize::MAX, usize::MAX, false, false);
    write_text(&mut out, &[b'x'; 9_000]).is_ok() & (out.writes == 1) & (out.len == 9_000)
}

/// Whether so many bytes were written one at a time and flushed once, behind the last.
fn is_flushed(out: &Stumbling, written: usize) -> bool {
    out.writes == written && out.flushes == 1 && out.len_at_flush == written
}

/// Whether the whole text is flushed once, behind its last byte, and a flush that fails is a fault.
fn flushes_once(flush_fails: bool, as_outcome: bool) -> bool {
    let mut out = stumbles_once(1, usize::MAX, false, flush_fails);
    let written = write_it(&mut out, as_outcome).is_ok();
    written != flush_fails && is_flushed(&out, TEXT.len())
}

/// The same of a text without a byte.
fn flushes_nothing(flush_fails: bool) -> bool {
    let mut out = stumbles_once(1, usize::MAX, false, flush_fails);
    let written = write_text(&mut out, b"").is_ok();
    written != flush_fails && is_flushed(&out, 0)
}

/// Whether each text is flushed once, whether that fails or not.
fn are_flushed_once(flush_fails: bool) -> bool {
    flushes_once(flush_fails, false)
        & flushes_once(flush_fails, true)
        & flushes_nothing(flush_fails)
}

/// Nothing follows a write that failed, or a text that was flushed.
#[test]
fn texts_are_written_and_flushed_once(rt: HostRuntime) {
    for number in 0..84usize {
        holds(&rt, ends_by(number), number);
    }
    let are_flushed = are_flushed_once(false) & are_flushed_once(true);
    holds(&rt, are_flushed & takes_all_at_once() & has_room(), "texts");
}
