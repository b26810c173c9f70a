//! Single calls over a fan-out whose source is completed: of a graph, and of a desk's one caller. And completions of a graph's sources.
ghost use Rattle.std.specs.Prelude.{◌≡◌, All, IfOk};

use crate::desk::no_desk;
use crate::graphs::graph_of;
use crate::shape::{Shape, no_plan, plan_of};
use crate::times::{Shown, Times, Work, measured};
use cf_core::Graph;
use cf_desk::{Ask, Call, Desk, DeskSizes, Pass};
use cf_forms::Answer;
use cf_model::{Claimed, Finished, Reply, Told};
use cf_outcome::{Outcome, Value};
use cf_plan::Plan;
use std::alloc::Global;
use std::io::{Error, Result};
use std::time::{Clock, Instant};

/// How many stages the fan-out has: a source, and applies of it.
const STAGES: u16 = 512;

/// How often each kind of call is measured.
const ROUNDS: u32 = 300;

/// The caller that does all the work.
const WORKER: u8 = 0;

const SOURCE: Value = Value::Int(1);

const GIVEN: Value = Value::Int(2);

/// The kinds of calls whose rounds are alike.
#[derive(Clone, Copy)]
enum Kind {
    Ready,
    Claim,
    Finish,
    Outcome,
}

/// What a claim, a finish, a question for the lowest ready stage and one for an outcome took.
#[derive(Clone, Copy)]
pub(crate) struct Calls {
    pub(crate) ready: Shown,
    pub(crate) claim: Shown,
    pub(crate) finish: Shown,
    pub(crate) outcome: Shown,
}

/// The times of the rounds.
#[derive(Drop)]
struct Rounds {
    ready: Times,
    claim: Times,
    finish: Times,
    outcome: Times,
}

impl Rounds {
    fn new(alloc: Global) -> Rounds {
        Rounds {
            ready: Times::new(alloc),
            claim: Times::new(alloc),
            finish: Times::new(alloc),
            outcome: Times::new(alloc),
        }
    }

    fn reserve(&mut self) -> Result<()> {
        self.ready.reserve(ROUNDS)?;
        self.claim.reserve(ROUNDS)?;
        self.finish.reserve(ROUNDS)?;
        self.outcome.reserve(ROUNDS)
    }

    /// What each kind of call took.
    fn a_call(&mut self) -> Calls {
        Calls {
            ready: self.ready.a_part(STAGES - 1),
            claim: self.claim.a_part(STAGES - 1),
            finish: self.finish.a_part(STAGES - 1),
            outcome: self.outcome.a_part(STAGES - 1),
        }
    }
}

/// Notes a round from when it began until now, in which as many calls were to be answered rightly as there are applies.
fn note<R: Clock>(rt: &R, times: &mut Times, start: Instant, right: u16) -> Result<()> {
    times.add_since(rt, start)?;
    if right == STAGES - 1 {
        Ok(())
    } else {
        Err(Error::other("a call was answered otherwise"))
    }
}

fn ready_in(graph: &mut Graph) -> u16 {
    let mut right = 0u16;
    for _ in 1..STAGES {
        if graph.lowest_ready() == Some(1) {
            right = right.saturating_add(1);
        }
    }
    right
}

fn claimed_in(graph: &mut Graph) -> u16 {
    let mut right = 0u16;
    for i in 1..STAGES {
        if graph.has(i) {
            if let Claimed::Granted(_) = graph.claim(WORKER, i) {
                right = right.saturating_add(1);
            }
        }
    }
    right
}

fn finished_in(graph: &mut Graph) -> u16 {
    let mut right = 0u16;
    for i in 1..STAGES {
        if graph.has(i) {
            if graph.finish(WORKER, i, Answer::Give(GIVEN)) == Finished::Won {
                right = right.saturating_add(1);
            }
        }
    }
    right
}

fn outcomes_in(graph: &mut Graph) -> u16 {
    let mut right = 0u16;
    for i in 1..STAGES {
        if graph.has(i) {
            if graph.outcome(i) == Some(Outcome::Value(GIVEN)) {
                right = right.saturating_add(1);
            }
        }
    }
    right
}

/// How many calls of a kind a graph answers rightly.
fn right_in(graph: &mut Graph, kind: Kind) -> u16 {
    match kind {
        Kind::Ready => ready_in(graph),
        Kind::Claim => claimed_in(graph),
        Kind::Finish => finished_in(graph),
        Kind::Outcome => outcomes_in(graph),
    }
}

/// A round of one kind of call.
fn round_in<R: Clock>(rt: &R, times: &mut Times, graph: &mut Graph, kind: Kind) -> Result<()> {
    let start = Instant::now(rt)?;
    let right = right_in(graph, kind);
    note(rt, times, start, right)
}

/// A round of each kind of call.
fn call_graph<R: Clock>(rt: &R, rounds: &mut Rounds, graph: &mut Graph) -> Result<()> {
    graph.restart();
    if graph.has(0) {
        graph.complete(0, SOURCE);
    }
    round_in(rt, &mut rounds.ready, graph, Kind::Ready)?;
    round_in(rt, &mut rounds.claim, graph, Kind::Claim)?;
    round_in(rt, &mut rounds.finish, graph, Kind::Finish)?;
    round_in(rt, &mut rounds.outcome, graph, Kind::Outcome)
}

/// What each kind of call of a graph took.
pub(crate) fn measured_graph_calls<R: Clock>(rt: &R, alloc: Global) -> Result<Calls> {
    let mut graph = graph_of(alloc, Shape::FanOut, STAGES)?;
    let took = measured_graph(rt, alloc, &mut graph);
    drop(graph);
    took
}

fn measured_graph<R: Clock>(rt: &R, alloc: Global, graph: &mut Graph) -> Result<Calls> {
    let mut rounds = Rounds::new(alloc);
    graph_rounds(rt, &mut rounds, graph)
}

fn graph_rounds<R: Clock>(rt: &R, rounds: &mut Rounds, graph: &mut Graph) -> Result<Calls> {
    rounds.reserve()?;
    for _ in 0..ROUNDS {
        call_graph(rt, rounds, graph)?;
    }
    Ok(rounds.a_call())
}

fn completed_in(graph: &mut Graph) -> u16 {
    let mut right = 0u16;
    for i in 0..STAGES - 1 {
        if graph.has(i) {
            if graph.complete(i, GIVEN) {
                right = right.saturating_add(1);
            }
        }
    }
    right
}

/// Completions of all sources of an allOf, of which the last settles the allOf, too.
#[derive(Drop)]
struct Completes<'a> {
    graph: &'a mut Graph,
}

impl<R: Clock> Work<R> for Completes<'_> {
    fn round(&mut self, rt: &R, times: &mut Times) -> Result<()> {
        self.graph.restart();
        let start = Instant::now(rt)?;
        let completed = completed_in(self.graph);
        note(rt, times, start, completed)
    }
}

/// What a completion of a source took, of those of an allOf.
pub(crate) fn measured_completions<R: Clock>(rt: &R, alloc: Global) -> Result<Shown> {
    let mut graph = graph_of(alloc, Shape::AllOf, STAGES)?;
    let took = measured(
        rt,
        alloc,
        ROUNDS,
        STAGES - 1,
        &mut Completes { graph: &mut graph },
    );
    drop(graph);
    took
}

fn ready_on(desk: &Desk, p: &mut Pass) -> u16
    requires { p.old.table ≡ desk.now.table }
    ensures { p.new.table ≡ p.old.table }
{
    let mut right = 0u16;
    for _ in 1..STAGES {
        if desk.ready(p) == Some(1) {
            right = right.saturating_add(1);
        }
    }
    right
}

fn claimed_on(desk: &Desk, p: &mut Pass) -> u16
    requires { p.old.table ≡ desk.now.table }
    ensures { p.new.table ≡ p.old.table }
{
    let mut right = 0u16;
    for i in 1..STAGES {
        if let Ok(Reply::Claim(Claimed::Granted(_))) = desk.act(p, Call::Claim(i)) {
            right = right.saturating_add(1);
        }
    }
    right
}

fn finished_on(desk: &Desk, p: &mut Pass) -> u16
    requires { p.old.table ≡ desk.now.table }
    ensures { p.new.table ≡ p.old.table }
{
    let mut right = 0u16;
    for i in 1..STAGES {
        let call = Call::Finish(i, Answer::Give(GIVEN));
        if let Ok(Reply::Finish(Finished::Won)) = desk.act(p, call) {
            right = right.saturating_add(1);
        }
    }
    right
}

fn outcomes_on(desk: &Desk, p: &mut Pass) -> u16
    requires { p.old.table ≡ desk.now.table }
    ensures { p.new.table ≡ p.old.table }
{
    let mut right = 0u16;
    for i in 1..STAGES {
        if let Ok(Told::Outcome(Some(Outcome::Value(_)))) = desk.read(p, Ask::Outcome(i)) {
            right = right.saturating_add(1);
        }
    }
    right
}

/// How many calls of a kind a desk answers rightly.
fn right_on(desk: &Desk, p: &mut Pass, kind: Kind) -> u16
    requires { p.old.table ≡ desk.now.table }
    ensures { p.new.table ≡ p.old.table }
{
    match kind {
        Kind::Ready => ready_on(desk, p),
        Kind::Claim => claimed_on(desk, p),
        Kind::Finish => finished_on(desk, p),
        Kind::Outcome => outcomes_on(desk, p),
    }
}

/// A round of one kind of call.
fn round_on<R: Clock>(
    rt: &R,
    times: &mut Times,
    desk: &Desk,
    p: &mut Pass,
    kind: Kind,
) -> Result<()>
    requires { p.old.table ≡ desk.now.table }
    ensures { p.new.table ≡ p.old.table }
{
    let start = Instant::now(rt)?;
    let right = right_on(desk, p, kind);
    note(rt, times, start, right)
}

/// A round of each kind of call.
fn call_desk<R: Clock>(rt: &R, rounds: &mut Rounds, desk: &Desk, p: &mut Pass) -> Result<()>
    requires { p.old.table ≡ desk.now.table }
{
    let _ = desk.act(p, Call::Complete(0, SOURCE));
    round_on(rt, &mut rounds.ready, desk, p, Kind::Ready)?;
    round_on(rt, &mut rounds.claim, desk, p, Kind::Claim)?;
    round_on(rt, &mut rounds.finish, desk, p, Kind::Finish)?;
    round_on(rt, &mut rounds.outcome, desk, p, Kind::Outcome)
}

/// The same by the first pass.
fn call_first<R: Clock>(rt: &R, rounds: &mut Rounds, desk: &Desk, passes: &mut [Pass]) -> Result<()>
    requires { All (λ p. p.table ≡ desk.now.table) passes.old }
{
    match passes.first_mut() {
        Some(p) => call_desk(rt, rounds, desk, p),
        None => Err(Error::other("the desk has no caller")),
    }
}

/// A desk over the fan-out, and its one pass.
fn open(alloc: Global) -> Result<(Desk, Vec<Pass>)>
    ensures table { IfOk result (λ r. All (λ p. p.table ≡ r.0.table) r.1.items) }
{
    match plan_of(alloc, Shape::FanOut, STAGES) {
        Ok(plan) => open_of(alloc, plan),
        Err(_) => Err(no_plan()),
    }
}

fn open_of(alloc: Global, plan: Plan) -> Result<(Desk, Vec<Pass>)>
    ensures table { IfOk result (λ r. All (λ p. p.table ≡ r.0.table) r.1.items) }
{
    let sizes = DeskSizes {
        callers: 1,
        log: 2 * STAGES,
        calls: 3 * STAGES,
    };
    match Desk::open(alloc, plan, sizes) {
        Ok(opened) => Ok(opened),
        Err(_) => Err(no_desk()),
    }
}

/// The same of a desk that is opened for it.
fn call_new_desk<R: Clock>(rt: &R, alloc: Global, rounds: &mut Rounds) -> Result<()> {
    let (desk, mut passes) = open(alloc)?;
    let called = call_first(rt, rounds, &desk, passes.as_mut_slice());
    drop(passes);
    drop(desk);
    called
}

/// What each kind of call of a desk's one caller took.
pub(crate) fn measured_desk_calls<R: Clock>(rt: &R, alloc: Global) -> Result<Calls> {
    let mut rounds = Rounds::new(alloc);
    desk_rounds(rt, alloc, &mut rounds)
}

fn desk_rounds<R: Clock>(rt: &R, alloc: Global, rounds: &mut Rounds) -> Result<Calls> {
    rounds.reserve()?;
    for _ in 0..ROUNDS {
        call_new_desk(rt, alloc, rounds)?;
    }
    Ok(rounds.a_call())
}
