//! A whole race: from a reader's bytes to the lines of the stages that a writer gets.
ghost use Rattle.std.specs.Prelude.{◌≡◌, ◌+◌, ◌<◌, ◌≤◌, All, IfErr, IfOk, List, ℕ, length, string_bytes};
ghost use Rattle.cf_pool.specs.Races.{IsStep};
ghost use Rattle.cf_script_reading.specs.Input.{TakesAtMost};
ghost use Rattle.cf_script_reading.specs.Purposes.{IsForRace};
ghost use Rattle.cf_script_reading.specs.Scripts.{IsScript, StepFits};
ghost use Rattle.cf_script.specs.Reports.{stages_lines};
ghost use Rattle.cf_script.specs.Printing.{IsInput, Prints, given_by};
ghost use Rattle.cf_script.specs.Races.{IsRaceEnd, IsRaceRefused, RaceGives, events_of};

use crate::printing::print_given;
use crate::report::write_stages;
use cf_core::Graph;
use cf_model::Event;
use cf_pool::{Gate, RaceFault, RaceTerms, race, share};
use cf_script_reading::{MAX_BYTES, Script, Step, read_input, read_race};
use cf_text::ScriptFault;
use std::alloc::{AllocError, Global};
use std::io::{Read, Write};
use std::sync::Wait;
use std::thread::Threads;

/// The events of a race's steps.
fn events(alloc: Global, steps: &[Step]) -> Result<Vec<Event>, AllocError>
    ensures { IfOk result (λ v. v.items ≡ events_of steps.now) }
{
    let mut found = Vec::new(alloc);
    'steps: for step in steps {
        if let Step::Does(event) = *step {
            found.push(event)?;
        }
    }
    Ok(found)
}

/// The graph as a race of the script leaves it.
fn graph_of<R: Threads + Wait + Sync, G: Gate + Sync>(
    rt: &R,
    alloc: Global,
    script: Script,
    gate: &G,
    workers: u8,
) -> Result<Graph, ScriptFault>
    requires workers { (0 < workers) × (workers ≤ 32) }
    requires steps { All IsForRace script.steps }
    ensures ends { IfOk result (λ g. IsRaceEnd workers script g.state) }
    ensures refused { IfErr result (IsRaceRefused workers script) }
{
    let (plan, room, functions, steps) = script.into_parts();
    let events = events(alloc, &steps)?;
    let hands = share(alloc, &functions, gate, workers + 1)?;
    let terms = RaceTerms {
        plan,
        room,
        steps: &events,
        workers,
    };
    match race(rt, alloc, terms, hands) {
        Ok(left) => Ok(left.into_graph()),
        Err(RaceFault::NoMemory) => Err(ScriptFault::NoMemory),
        Err(RaceFault::Size) => Err(ScriptFault::RaceSize),
    }
}

/// The lines of all stages of a graph.
fn lines_of(alloc: Global, mut graph: Graph) -> Result<String, AllocError>
    ensures { IfOk result (λ text. string_bytes text ≡ stages_lines graph.state) }
{
    let mut text = String::new(alloc);
    write_stages(&mut text, &mut graph)?;
    Ok(text)
}

/// What a race gives for the script of the reader: the lines of its stages, or the fault that stands in its way.
fn raced<R: Threads + Wait + Sync, I: Read, G: Gate + Sync>(
    rt: &R,
    alloc: Global,
    r: &mut I,
    gate: &G,
    workers: u8,
) -> Result<String, ScriptFault>
    requires { (0 < workers) × (workers ≤ 32) }
    ensures gives { (input : List ℕ) × IsInput (I.remaining r.old) input × RaceGives workers input (given_by result) }
    ensures taken { TakesAtMost (MAX_BYTES + 1) (I.remaining r.old) (I.remaining r.new) }
{
    let input = read_input(alloc, r)?;
    let script = read_race(alloc, &input)?;
    let graph = graph_of(rt, alloc, script, gate, workers)?;
    Ok(lines_of(alloc, graph)?)
}

/// Reads a script to its end, or to the first byte that is too many, races it with 1 to 32 workers on threads of their
/// own, and writes the lines of its stages, the attached ones too.
///
/// Caller 0 does the steps, each of which is a `complete`, `fail`, `cancel` or `tick`, and in version 2 an `attach` too;
/// another is the fault `Step`. Then each worker claims ready stages, lets the gate pass, calls their functions and
/// finishes them, until none is ready. The faults are those of `run_script`, and `RaceSize` where the log of the race
/// would have more than 65,535 words, for whose number the room for stages counts as the stages do; a thread that was
/// refused is `NoMemory` too.
pub fn race_script<R: Threads + Wait + Sync, I: Read, W: Write, G: Gate + Sync>(
    rt: &R,
    alloc: Global,
    r: &mut I,
    w: &mut W,
    gate: &G,
    workers: u8,
) -> Result<(), ScriptFault>
    requires { (0 < workers) × (workers ≤ 32) }
    ensures prints { (input : List ℕ) × IsInput (I.remaining r.old) input
        × Prints (RaceGives workers input) result (W.contents w.old) (W.contents w.new) }
    ensures taken { TakesAtMost (MAX_BYTES + 1) (I.remaining r.old) (I.remaining r.new) }
{
    let given = raced(rt, alloc, r, gate, workers);
    print_given(w, given)
}
