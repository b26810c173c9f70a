//! A script as large as scripts may be, and what running it takes beside reading its bytes as JSON alone.
use crate::times::{Shown, Times, Work, measured};
use cf_script::run_script;
use serde_json::Value as Json;
use std::alloc::{AllocError, Global};
use std::io;
use std::time::{Clock, Instant};

const STAGES: u16 = 4096;

const SOURCES: u16 = 2049;

const STEPS: u16 = 20_000;

const BYTES: usize = 1_048_576;

const ROUNDS: u32 = 20;

/// Sources, and combines of two stages each up to the root; each source is completed, all functions are called, and the
/// other steps ask for outcomes. It is filled with blanks to 1 MiB.
pub(crate) fn script_text(alloc: Global) -> Result<String, AllocError> {
    let mut text = String::new(alloc);
    match write_script(&mut text) {
        Ok(()) => Ok(text),
        Err(refused) => Err(refused),
    }
}

fn write_script(text: &mut String) -> Result<(), AllocError> {
    text.reserve(BYTES)?;
    text.push_str("{\"cf\":1,\"stages\":[")?;
    write_stages(text)?;
    text.push_str("],\"steps\":[")?;
    write_steps(text)?;
    text.push_str("]}")?;
    fill(text)
}

fn write_stages(text: &mut String) -> Result<(), AllocError> {
    for i in 0..STAGES {
        if i > 0 {
            text.push_str(",")?;
        }
        write_stage(text, i)?;
    }
    Ok(())
}

/// Stage `i`: a source, or a combine.
fn write_stage(text: &mut String, i: u16) -> Result<(), AllocError> {
    if i < SOURCES {
        return text.push_str("{\"form\":\"source\"}");
    }
    let left = (i - SOURCES).saturating_mul(2);
    let right = left.saturating_add(1);
    write!(
        text,
        "{{\"fn\":\"sum\",\"form\":\"combine\",\"of\":[{left},{right}]}}"
    )
}

fn write_steps(text: &mut String) -> Result<(), AllocError> {
    for k in 0..STEPS {
        if k > 0 {
            text.push_str(",")?;
        }
        write_step(text, k)?;
    }
    Ok(())
}

/// Step `k`: it completes a source, calls all functions, or asks.
fn write_step(text: &mut String, k: u16) -> Result<(), AllocError> {
    let stage = k % STAGES;
    if k < SOURCES {
        write!(text, "[\"complete\",{stage},{k}]")
    } else if k == SOURCES {
        text.push_str("[\"work\"]")
    } else {
        write_question(text, k, stage)
    }
}

/// Step `k`, which asks for what a stage has.
fn write_question(text: &mut String, k: u16, stage: u16) -> Result<(), AllocError> {
    if k % 2 == 0 {
        write!(text, "[\"now\",{stage},-1]")
    } else {
        write!(text, "[\"outcome\",{stage}]")
    }
}

/// Adds blanks up to the length of the script.
fn fill(text: &mut String) -> Result<(), AllocError> {
    for _ in 0..BYTES {
        if text.len() >= BYTES {
            break;
        }
        text.push_str(" ")?;
    }
    Ok(())
}

/// The report of a script.
fn report(alloc: Global, text: &str) -> io::Result<Vec<u8>> {
    let mut out = Vec::new(alloc);
    let mut input = text.as_bytes();
    match run_script(alloc, &mut input, &mut out) {
        Ok(()) => Ok(out),
        Err(_) => Err(io::Error::other("the script was refused")),
    }
}

/// A sum over the bytes of the script's report, in which their order counts.
pub(crate) fn report_checksum(alloc: Global, text: &str) -> io::Result<u64> {
    let report = report(alloc, text)?;
    Ok(sum_of(report.as_slice()))
}

fn sum_of(bytes: &[u8]) -> u64 {
    let mut sum = 0u64;
    for byte in bytes {
        sum = sum.wrapping_mul(31).wrapping_add(u64::from(*byte));
    }
    sum
}

/// Reads the bytes as JSON and lets the value go again. It says whether they are JSON.
fn is_json(alloc: Global, text: &str) -> bool {
    let json = Json::from_slice(alloc, text.as_bytes());
    json.is_ok()
}

/// Reading bytes as JSON.
#[derive(Clone, Copy)]
struct ReadsJson<'a> {
    alloc: Global,
    text: &'a str,
}

impl<R: Clock> Work<R> for ReadsJson<'_> {
    fn round(&mut self, rt: &R, times: &mut Times) -> io::Result<()> {
        let start = Instant::now(rt)?;
        let read = is_json(self.alloc, self.text);
        times.add_since(rt, start)?;
        if read {
            Ok(())
        } else {
            Err(io::Error::other("the bytes are no JSON"))
        }
    }
}

/// What reading the bytes as JSON and letting the value go again took.
pub(crate) fn measured_json<R: Clock>(rt: &R, alloc: Global, text: &str) -> io::Result<Shown> {
    measured(rt, alloc, ROUNDS, 1, &mut ReadsJson { alloc, text })
}

/// Running a script.
#[derive(Clone, Copy)]
struct RunsScript<'a> {
    alloc: Global,
    text: &'a str,
}

impl<R: Clock> Work<R> for RunsScript<'_> {
    fn round(&mut self, rt: &R, times: &mut Times) -> io::Result<()> {
        let start = Instant::now(rt)?;
        drop(report(self.alloc, self.text)?);
        times.add_since(rt, start)
    }
}

/// What running the script took.
pub(crate) fn measured_script<R: Clock>(rt: &R, alloc: Global, text: &str) -> io::Result<Shown> {
    measured(rt, alloc, ROUNDS, 1, &mut RunsScript { alloc, text })
}
