//! Threads that run one request together.
ghost use Rattle.std.specs.Prelude.{◌≡◌, ◌<◌, vec_len};

use crate::checks::{holds, must, same};
use crate::plans::supplies;
use cf_forms::{Answer, Args, Functions};
use cf_ledger::Stage;
use cf_outcome::{Outcome, Value};
use cf_request::Machine;
use cf_threads::place::Place;
use cf_threads::team::{Left, run};
use std::alloc::Global;
use std::process::Abort;
use std::sync::Wait;
use std::thread::Threads;

/// How many stages there are.
const STAGES: u16 = 200;

/// All of them are of lane 0.
static LANES: [u8; 200] = [0; 200];

/// Functions that count their calls, and answer their numbers.
#[derive(Drop)]
struct Counts {
    calls: u32,
}

impl Functions for Counts {
    ghost calls = { λ m number args answer n. Unit {0} };

    fn call(&mut self, number: u16, _args: &Args) -> Answer {
        self.calls = self.calls.wrapping_add(1);
        Answer::Give(Value::Int(i32::from(number)))
    }
}

/// A machine of so many supplies.
fn opened(rt: &impl Abort, alloc: Global) -> Machine
    ensures { result.teller.lanes.count ≡ 1 }
{
    let plan = supplies(rt, alloc, STAGES);
    holds(rt, plan.has_place(0), "place");
    holds(rt, plan.stages() == STAGES, "stages");
    must(rt, Machine::new(alloc, &plan, 0, &LANES, 1, 63))
}

/// Functions for so many threads.
fn hands(rt: &impl Abort, alloc: Global, count: u16) -> Vec<Counts>
    ensures { vec_len result < 4096 }
{
    let mut hands = Vec::new(alloc);
    for _ in 0..count {
        must(rt, hands.push(Counts { calls: 0 }));
    }
    holds(rt, hands.len() < 4096, "hands");
    hands
}

/// All stages have their values, and there were as many calls as stages.
fn check(rt: &impl Abort, left: &Left<Counts>) {
    let mut calls = 0u32;
    for worker in left.workers.iter() {
        same(rt, worker.stopped.is_some(), false);
        calls = calls.wrapping_add(worker.functions.calls);
    }
    same(rt, calls, u32::from(STAGES));
    for stage in 0..STAGES {
        holds(rt, has_its_number(&left.machine, stage), stage);
    }
}

/// Whether a stage has its number as its value.
fn has_its_number(machine: &Machine, stage: u16) -> bool {
    let value = Outcome::Value(Value::Int(i32::from(stage)));
    stage < machine.ledger().stages() && machine.ledger().stage(stage) == Stage::Settled(value)
}

/// So many threads run all stages.
fn check_run<R: Threads + Wait + Sync + Abort>(rt: &R, alloc: Global, count: u16) {
    let machine = opened(rt, alloc);
    let hands = hands(rt, alloc, count);
    let place = Place { who: 0, lane: 0 };
    let left = must(rt, run(rt, alloc, machine, place, hands));
    check(rt, &left);
}

#[test]
fn threads_call_each_function_once(rt: HostRuntime) {
    check_run(&rt, rt.alloc(), 1);
    check_run(&rt, rt.alloc(), 4);
    check_run(&rt, rt.alloc(), 16);
}
