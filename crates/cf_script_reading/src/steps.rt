//! The steps of a script.
ghost use Rattle.std.specs.Prelude.{◌≡◌, ◌≤◌, IfSome, OnOk, [], length};
ghost use Rattle.serde_json.specs.View.{items_view, view};
ghost use Rattle.cf_script_reading.specs.Checks.{ReadingGives, fold_items};
ghost use Rattle.cf_script_reading.specs.Steps.{NamesWithin, own_step, other_step, step_alone, step_for, step_named, step_next, step_said, step_worded};
ghost use Rattle.cf_script_reading.specs.ReadingProgress.{FitsNext, ReadingGoesOn, IsProgress};
ghost use Rattle.cf_script_reading.specs.Views.{progressed};
ghost use Rattle.cf_script_reading.specs.Purposes.{IsTaken};

use crate::attaching::attach;
use crate::fault::ReadingFault;
use crate::func::Func;
use crate::functions::keep;
use crate::progress::{Progress, extent_after};
use crate::purpose::Purpose;
use crate::script::Step;
use crate::step_parsers::{
    cancel, claim, complete, fail, fail_as, finish, now, nudge, outcome, tick, work,
};
use crate::version::Version;
use serde_json::Value as Json;

/// The most steps that a script has.
pub const MAX_STEPS: usize = 20_000;

/// A step of caller 0.
#[tactic(auto, unfolding(crate::specs::Steps::own_step))]
fn own(stages: u16, json: &Json, word: &str) -> Option<Step>
    ensures said { result ≡ own_step stages (view json.now) word.now }
    ensures fits { IfSome result (NamesWithin stages) }
{
    match word {
        "complete" => complete(stages, json),
        "fail" => fail(stages, json),
        "cancel" => cancel(stages, json),
        "tick" => tick(json),
        _ => None,
    }
}

/// Another step.
#[tactic(auto, unfolding(crate::specs::Steps::other_step))]
fn other(stages: u16, json: &Json, word: &str) -> Option<Step>
    ensures said { result ≡ other_step stages (view json.now) word.now }
    ensures fits { IfSome result (NamesWithin stages) }
{
    match word {
        "claim" => claim(stages, json),
        "finish" => finish(stages, json),
        "now" => now(stages, json),
        "outcome" => outcome(stages, json),
        "work" => work(json),
        "nudge" => nudge(json),
        _ => None,
    }
}

/// The step with this word.
#[tactic(auto, unfolding(crate::specs::Steps::step_named))]
fn named(stages: u16, json: &Json, word: &str) -> Option<Step>
    ensures said { result ≡ step_named stages (view json.now) word.now }
    ensures fits { IfSome result (NamesWithin stages) }
{
    match own(stages, json, word) {
        Some(step) => Some(step),
        None => other(stages, json, word),
    }
}

/// A step that brings no function.
#[tactic(auto, using(crate::proofs::ReadingProgress::fits_alone))]
fn alone(stages: u16, functions: &[Func], json: &Json, word: &str) -> Option<(Step, Option<Func>)>
    requires { length functions.now ≤ 4096 }
    ensures said { result ≡ step_alone stages (view json.now) word.now }
    ensures fits { IfSome result (FitsNext stages functions.now) }
{
    Some((named(stages, json, word)?, None))
}

/// The step with this word that comes after these.
#[tactic(auto, unfolding(crate::specs::Steps::step_worded))]
fn worded(
    version: Version,
    stages: u16,
    functions: &[Func],
    json: &Json,
    word: &str,
) -> Option<(Step, Option<Func>)>
    requires { length functions.now ≤ 4096 }
    ensures said { result ≡ step_worded version stages functions.now (view json.now) word.now }
    ensures fits { IfSome result (FitsNext stages functions.now) }
{
    match version {
        Version::One => alone(stages, functions, json, word),
        Version::Two => match word {
            "attach" => attach(stages, functions, json),
            _ => alone(stages, functions, json, word),
        },
        Version::Three => match word {
            "attach" => attach(stages, functions, json),
            "failAs" => Some((fail_as(stages, json)?, None)),
            _ => alone(stages, functions, json, word),
        },
    }
}

/// The step that comes after these.
fn step(version: Version, progress: &Progress, json: &Json) -> Option<(Step, Option<Func>)>
    ensures said { result ≡ step_said version (progressed progress.now) (view json.now) }
    ensures fits { IfSome result (FitsNext progress.now.stages progress.now.functions.items) }
{
    let word = json.get(0usize)?.as_str()?;
    worded(
        version,
        progress.stages,
        progress.functions.as_slice(),
        json,
        word,
    )
}

/// The step that comes after these, if it is taken.
fn step_taken(
    purpose: Purpose,
    version: Version,
    progress: &Progress,
    json: &Json,
) -> Option<(Step, Option<Func>)>
    ensures said { result ≡ step_for purpose version (progressed progress.now) (view json.now) }
    ensures fits { IfSome result (FitsNext progress.now.stages progress.now.functions.items) }
    ensures taken { IfSome result (λ s. IsTaken purpose s.0) }
{
    let (step, function) = step(version, progress, json)?;
    if purpose.takes(step) {
        Some((step, function))
    } else {
        None
    }
}

/// Takes the next step, of which there are at most `MAX_STEPS`.
#[tactic(auto, unfolding(crate::specs::Steps::step_next))]
fn add_step(
    purpose: Purpose,
    version: Version,
    progress: &mut Progress,
    json: &Json,
) -> Result<(), ReadingFault>
    ensures gives { ReadingGives (λ _. progressed progress.new) result
        (step_next purpose version (progressed progress.old) (view json.now)) }
    ensures goes_on { OnOk result (ReadingGoesOn purpose (progressed progress.old) (progressed progress.new)) }
{
    let k = progress.steps.len();
    if k >= MAX_STEPS {
        return Err(ReadingFault::Step(k as u32));
    }
    let Some((step, function)) = step_taken(purpose, version, progress, json) else {
        return Err(ReadingFault::Step(k as u32));
    };
    keep(&mut progress.functions, function)?;
    progress.steps.push(step)?;
    let (stages, room) = extent_after(step, progress.stages, progress.room);
    progress.stages = stages;
    progress.room = room;
    Ok(())
}

/// Reads the steps of an array, in order.
pub(crate) fn read_steps(
    purpose: Purpose,
    version: Version,
    progress: &mut Progress,
    list: &[Json],
) -> Result<(), ReadingFault>
    requires { progress.old.steps.items ≡ [] }
    ensures gives { ReadingGives (λ _. progressed progress.new) result
        (fold_items (step_next purpose version) (progressed progress.old) (items_view list.now)) }
    ensures leads { OnOk result (IsProgress purpose (record { stages = progress.old.stages; room = progress.old.room })
        (length progress.old.functions.items) (progressed progress.new)) }
{
    'steps: for json in list {
        if let Err(e) = add_step(purpose, version, progress, json) {
            return Err(e);
        }
    }
    Ok(())
}
