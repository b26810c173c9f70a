//! What a gate is told in a race, and when functions are called.
ghost use Rattle.std.specs.Prelude.{◌<◌, ◌≤◌};

use crate::checks::{holds, must};
use cf_script::{Gate, race_script};
use std::alloc::Global;
use std::process::Abort;
use std::sync::Wait;
use std::sync::atomic::{AtomicBool, AtomicU32, Ordering};
use std::thread::{Threads, yield_now};

fn counters(rt: &impl Abort, alloc: Global, count: usize) -> Vec<AtomicU32> {
    let mut found = Vec::new(alloc);
    for _ in 0..count {
        must(rt, found.push(AtomicU32::new(0)));
    }
    found
}

/// Keeps each stage and worker that it is told, in order. The first of them wait until so many were told.
#[derive(Drop)]
struct Told {
    told: Vec<AtomicU32>,
    count: AtomicU32,
    together: u32,
    is_late: AtomicBool,
}

impl Told {
    /// Waits until so many were told, for at most 100,000,000 looks of whoever looks first. Each look lets another thread
    /// run, since a worker that hasn't started yet may stand behind all that wait for it.
    fn wait(&self) {
        for _ in 0..100_000_000u32 {
            if self.count.load(Ordering::SeqCst) >= self.together
                || self.is_late.load(Ordering::SeqCst)
            {
                return;
            }
            yield_now();
        }
        self.is_late.store(true, Ordering::SeqCst);
    }
}

impl Gate for Told {
    fn before(&self, stage: u16, worker: u8) {
        let at = self.count.fetch_add(1, Ordering::SeqCst);
        if let Some(told) = self.told.get(at as usize) {
            told.store(u32::from(stage) * 256 + u32::from(worker), Ordering::SeqCst);
        }
        if at < self.together {
            self.wait();
        }
    }
}

/// Stages 0 to 3 are never claimed: a source that isn't settled, one that fails, and an apply over each. 4 handles the
/// fault, 5 to 40 are supplies, and 41 to 44 applies over four of these.
const STAGES: usize = 45;

fn stages(rt: &impl Abort, alloc: Global) -> String {
    let mut text = String::new(alloc);
    push(
        rt,
        &mut text,
        r#"{"cf":1,"steps":[["fail",1,7]],"stages":[{"form":"source"},{"form":"source"}"#,
    );
    push(
        rt,
        &mut text,
        r#",{"form":"apply","of":[0],"fn":"neg"},{"form":"apply","of":[1],"fn":"neg"}"#,
    );
    push(rt, &mut text, r#",{"form":"handle","of":[1],"fn":"neg"}"#);
    for _ in 5..41 {
        push(rt, &mut text, r#",{"form":"supply","fn":{"const":4}}"#);
    }
    for source in 5..9 {
        push_apply(rt, &mut text, source);
    }
    push(rt, &mut text, "]}");
    text
}

fn push(rt: &impl Abort, text: &mut String, more: &str) {
    must(rt, text.push_str(more));
}

fn push_apply(rt: &impl Abort, text: &mut String, source: u16) {
    must(
        rt,
        write!(text, r#",{{"form":"apply","of":[{source}],"fn":"neg"}}"#),
    );
}

/// Checks that stages 4 to 44 were told once each, and of workers 1 to so many all, the first ones one each.
fn check_told(rt: &impl Abort, gate: &Told, workers: u8) {
    let mut stages = [false; STAGES];
    let mut first = [false; 33];
    for (at, word) in gate.told.iter().enumerate() {
        let word = word.load(Ordering::SeqCst);
        let stage = (word / 256) as usize;
        let worker = (word % 256) as usize;
        holds(
            rt,
            stage >= 4 && stage < STAGES,
            ("stage", stage, "is told"),
        );
        holds(rt, !stages[stage], ("stage", stage, "is told twice"));
        stages[stage] = true;
        holds(
            rt,
            worker >= 1 && worker <= workers as usize && worker < 33,
            worker,
        );
        holds(
            rt,
            at >= workers as usize || !first[worker],
            (worker, "is told twice"),
        );
        first[worker] = true;
    }
}

/// Races the script before a gate, which sees so many workers work at once.
fn race_before(
    rt: &(impl Abort + Threads + Wait + Sync + AllocGlobal),
    script: &str,
    gate: &Told,
    workers: u8,
)
    requires { (0 < workers) × (workers ≤ 32) }
{
    let mut out: Vec<u8> = Vec::new(rt.alloc());
    let mut input = script.as_bytes();
    let ended = race_script(rt, rt.alloc(), &mut input, &mut out, gate, workers);
    holds(rt, ended == Ok(()), "ended");
    holds(
        rt,
        !gate.is_late.load(Ordering::SeqCst),
        (workers, "work at once"),
    );
    let count = gate.count.load(Ordering::SeqCst);
    holds(rt, count == STAGES as u32 - 4, count);
}

fn check_gate(rt: &(impl Abort + Threads + Wait + Sync + AllocGlobal), script: &str, workers: u8)
    requires { (0 < workers) × (workers ≤ 32) }
{
    let gate = Told {
        told: counters(rt, rt.alloc(), STAGES - 4),
        count: AtomicU32::new(0),
        together: u32::from(workers),
        is_late: AtomicBool::new(false),
    };
    race_before(rt, script, &gate, workers);
    check_told(rt, &gate, workers);
    drop(gate);
}

#[test]
fn a_gate_is_told_each_claim_once(rt: HostRuntime) {
    let script = stages(&rt, rt.alloc());
    check_gate(&rt, script.as_str(), 1);
    check_gate(&rt, script.as_str(), 4);
    check_gate(&rt, script.as_str(), 32);
}
