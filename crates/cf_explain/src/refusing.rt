//! From a fault to the member of the script that it came by.
ghost use Rattle.std.specs.Prelude.{◌≡◌};
ghost use Rattle.cf_explain.specs.Places.{IsIn};

use crate::counts::element_of;
use crate::functions::function_wrong;
use crate::place::Place;
use crate::planned::plan_wrong;
use crate::reason::Reason;
use crate::shapes::shape_wrong;
use crate::steps::step_wrong;
use crate::vocabulary::Words;
use cf_script_reading::ReadingFault;
use serde_json::Value as Json;

/// A place, and what is wrong there.
#[derive(Clone, Copy)]
pub(crate) struct Finding<'a> {
    pub(crate) place: Place,
    pub(crate) why: Wrong<'a>,
}

/// What is wrong at a place.
#[derive(Clone, Copy)]
pub(crate) enum Wrong<'a> {
    /// Something that is told as it is found.
    Told(Reason),
    /// This word of the script, which is none of these.
    Unknown(&'a str, Words),
}

/// The place in this part of a script that is JSON by which the fault came, and what is wrong there.
pub(crate) fn found(fault: ReadingFault, place: Place, json: &Json) -> Option<Finding<'_>>
    ensures { IsIn place.area result }
{
    match fault {
        ReadingFault::Shape(part) => shape_wrong(place, part, json),
        ReadingFault::Plan(refusal, k) => plan_wrong(place, refusal, k as usize, json),
        ReadingFault::Function(k) => {
            let said = function_of(json, k as usize);
            function_wrong(place.member("fn"), said)
        }
        ReadingFault::Step(k) => step_wrong(place, k as usize, json),
        ReadingFault::TooLong
        | ReadingFault::NotJson
        | ReadingFault::Read
        | ReadingFault::NoMemory => None,
    }
}

/// What stands as the function of a stage.
fn function_of(json: &Json, k: usize) -> Option<&Json> {
    element_of(json, "stages", k)?.get("fn")
}

/// This is wrong at this place.
pub(crate) fn wrong_at<'a>(place: Place, why: Reason) -> Option<Finding<'a>>
    ensures { IsIn place.area result }
{
    Some(Finding {
        place,
        why: Wrong::Told(why),
    })
}
