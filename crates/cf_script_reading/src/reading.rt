//! A script as a whole.
ghost use Rattle.std.specs.Prelude.{◌≡◌, ◌<◌, ◌≤◌, true, All, Err, IfOk, length, option_map};
ghost use Rattle.serde_json.specs.View.{items_view, view};
ghost use Rattle.cf_script_reading.specs.Checks.{ReadingGives};
ghost use Rattle.cf_script_reading.specs.Scripts.{FunctionFits};
ghost use Rattle.cf_script_reading.specs.Purposes.{IsForRace, IsTaken};
ghost use Rattle.cf_forms.specs.Plans.{has_place};
ghost use Rattle.cf_script_reading.specs.Reading.{drafted_of, items_said, race_reading, reading, reading_for, script_of, script_said};

use crate::draft::Draft;
use crate::fault::{Part, ReadingFault};
use crate::func::Func;
use crate::input::MAX_BYTES;
use crate::limits::read_limits;
use crate::progress::Progress;
use crate::purpose::Purpose;
use crate::script::Script;
use crate::stages::read_stages;
use crate::steps::read_steps;
use crate::version::{Version, room_said, version_of};
use cf_plan::Plan;
use serde_json::Value as Json;
use std::alloc::Global;

/// The items of an array, none where nothing is said.
fn items<'a>(said: Option<&'a Json>) -> Option<&'a [Json]>
    ensures { option_map (λ s. items_view s.now) result
        ≡ items_said (option_map (λ d. view d.now) said.entry) }
{
    match said {
        None => Some(&[]),
        Some(json) => Some(json.as_array()?.as_slice()),
    }
}

/// The plan and the functions that the stages and the limits make, where there is place for the room.
#[tactic(auto, unfolding(crate::specs::Reading::drafted_of))]
fn planned(
    alloc: Global,
    version: Version,
    room: u16,
    stages: &[Json],
    limits: &[Json],
) -> Result<(Plan, Vec<Func>), ReadingFault>
    ensures gives { ReadingGives (λ p. record { plan = p.0; functions = p.1.items }) result
        (drafted_of version room (items_view stages.now) (items_view limits.now)) }
    ensures numbered { IfOk result (λ p. All (FunctionFits (length p.1.items)) p.0.stages) }
    ensures few { IfOk result (λ p. length p.1.items ≤ 4096) }
    ensures place { IfOk result (λ p. has_place p.0.stages room ≡ true) }
{
    let Draft {
        mut plan,
        functions,
    } = read_stages(alloc, version, stages)?;
    read_limits(&mut plan, limits)?;
    let Ok(plan) = plan.build() else {
        return Err(ReadingFault::NoMemory);
    };
    if plan.has_place(room) {
        Ok((plan, functions))
    } else {
        Err(ReadingFault::Shape(Part::Room))
    }
}

/// What a JSON value says to what it is read for.
#[tactic(auto, unfolding(crate::specs::Reading::outline_of, crate::specs::Reading::script_of))]
fn script(alloc: Global, purpose: Purpose, json: &Json) -> Result<Script, ReadingFault>
    ensures says { ReadingGives (λ s. s) result (script_of purpose (view json.now)) }
    ensures taken { IfOk result (λ s. All (IsTaken purpose) s.steps) }
{
    if !json.is_object() {
        return Err(ReadingFault::Shape(Part::Top));
    }
    let Some(version) = version_of(json) else {
        return Err(ReadingFault::Shape(Part::Version));
    };
    let Some(room) = room_said(version, json.get("room")) else {
        return Err(ReadingFault::Shape(Part::Room));
    };
    let Some(stages) = json.get("stages").and_then(Json::as_array) else {
        return Err(ReadingFault::Shape(Part::Stages));
    };
    let Some(limits) = items(json.get("limits")) else {
        return Err(ReadingFault::Shape(Part::Limits));
    };
    let Some(steps) = items(json.get("steps")) else {
        return Err(ReadingFault::Shape(Part::Steps));
    };
    let (plan, functions) = planned(alloc, version, room, stages.as_slice(), limits)?;
    let mut progress = Progress {
        stages: plan.stages(),
        room,
        functions,
        steps: Vec::new(alloc),
    };
    read_steps(purpose, version, &mut progress, steps)?;
    Ok(Script::new(plan, room, progress.functions, progress.steps))
}

/// The script that a JSON value says, or the first fault in it. It is what `read_script` answers for a text of this value that
/// has at most `MAX_BYTES`. `TooLong`, `NotJson` and `Read` never come.
pub fn script_of(alloc: Global, json: &Json) -> Result<Script, ReadingFault>
    ensures { ReadingGives (λ s. s) result (script_said (view json.now)) }
{
    script(alloc, Purpose::Run, json)
}

/// The script that the bytes say, or the first fault in them.
///
/// The bytes are at most `MAX_BYTES`, UTF-8, and one JSON text (RFC 8259) that `serde_json` reads. Then the order of
/// checks is: the top, the version, the range of `room`, the arrays `stages`, `limits` and `steps`, each stage (its form
/// and sources, its function, the builder), each limit (its shape, the builder), the place for the room, each step. And
/// memory that is refused is `NoMemory`, wherever that happens. `Read` never comes.
pub fn read_script(alloc: Global, bytes: &[u8]) -> Result<Script, ReadingFault>
    ensures says { ReadingGives (λ s. s) result (reading bytes.now) }
    ensures long { 1048576 < length bytes.now → result ≡ Err ReadingFault.TooLong }
{
    read_for(alloc, Purpose::Run, bytes)
}

/// The same for a script that is raced: a step that isn't a `complete`, `fail`, `cancel`, `tick` or `attach` of
/// caller 0 is the fault `Step` where it stands in the order of steps.
pub fn read_race(alloc: Global, bytes: &[u8]) -> Result<Script, ReadingFault>
    ensures says { ReadingGives (λ s. s) result (race_reading bytes.now) }
    ensures raced { IfOk result (λ s. All IsForRace s.steps) }
    ensures long { 1048576 < length bytes.now → result ≡ Err ReadingFault.TooLong }
{
    read_for(alloc, Purpose::Race, bytes)
}

/// The script that the bytes say to what they are read for, or the first fault in them.
#[tactic(auto, using(crate::proofs::Texts::json_found, crate::proofs::Texts::json_missing), unfolding(crate::specs::Reading::outline))]
fn read_for(alloc: Global, purpose: Purpose, bytes: &[u8]) -> Result<Script, ReadingFault>
    ensures says { ReadingGives (λ s. s) result (reading_for purpose bytes.now) }
    ensures long { 1048576 < length bytes.now → result ≡ Err ReadingFault.TooLong }
    ensures taken { IfOk result (λ s. All (IsTaken purpose) s.steps) }
{
    if bytes.len() > MAX_BYTES {
        return Err(ReadingFault::TooLong);
    }
    match Json::from_slice(alloc, bytes) {
        Ok(json) => script(alloc, purpose, &json),
        Err(e) => {
            if e.is_memory() {
                Err(ReadingFault::NoMemory)
            } else {
                Err(ReadingFault::NotJson)
            }
        }
    }
}
