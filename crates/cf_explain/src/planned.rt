//! What the builder of plans refuses, found in the script.
ghost use Rattle.cf_explain.specs.Places.{IsIn};

use crate::place::Place;
use crate::reason::Reason;
use crate::refusing::{Finding, wrong_at};
use crate::stages::misfit;
use crate::wanted::Wanted;
use cf_plan::{MAX_EDGES, MAX_LIMITS, MAX_STAGES, PlanFault};
use serde_json::Value as Json;

/// What the builder refuses in stage or limit k, which is at this place.
pub(crate) fn plan_wrong(
    place: Place,
    refusal: PlanFault,
    k: usize,
    json: &Json,
) -> Option<Finding<'_>>
    ensures { IsIn place.area result }
{
    let stages = json.get("stages")?.as_array()?;
    match refusal {
        PlanFault::TooManyStages => wrong_at(place, Reason::TooMany(MAX_STAGES as u32, "stages")),
        PlanFault::TooManyEdges => {
            wrong_at(
                place.member("of"),
                Reason::TooMany(MAX_EDGES as u32, "edges"),
            )
        }
        PlanFault::SourceNotLower => source_too_high(place, k, stages.get(k)?),
        PlanFault::WrongSourceCount | PlanFault::FunctionMissing | PlanFault::FunctionUnwanted => {
            misfit(place, stages.get(k)?)
        }
        PlanFault::NoSuchStage => {
            let count = u32::try_from(stages.len()).ok()?;
            wrong_at(place.member("stage"), Reason::Wants(Wanted::Stage(count)))
        }
        PlanFault::TooManyLimits => wrong_at(place, Reason::TooMany(MAX_LIMITS as u32, "limits")),
        PlanFault::NoMemory => None,
    }
}

/// The first source that isn't below stage k.
fn source_too_high(place: Place, k: usize, stage: &Json) -> Option<Finding<'_>>
    ensures { IsIn place.area result }
{
    let number = u32::try_from(k).ok()?;
    let sources = stage.get("of")?.as_array()?;
    for (j, source) in sources.iter().enumerate() {
        if !Wanted::Stage(number).takes(source) {
            return wrong_at(place.member("of").item(j), Reason::NotLower(number));
        }
    }
    None
}
