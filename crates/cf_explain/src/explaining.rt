//! The explanation of a script.
ghost use Rattle.std.specs.Prelude.{◌≡◌, [], IfOk};
ghost use Rattle.serde_json.specs.View.{view};
ghost use Rattle.cf_script_reading.specs.Reading.{json_of, reading, script_said};
ghost use Rattle.cf_explain.specs.Remarks.{AreRemarked, AreRemarks, AreRemarksOn};
ghost use Rattle.cf_explain.specs.Places.{area_of};
ghost use Rattle.cf_explain.specs.Verdicts.{ExplainTells, refused_for};

use crate::behind::remark_behind;
use crate::idle::idle_steps;
use crate::place::{Place, area_of};
use crate::reason::{Reason, Why};
use crate::refusing::{Finding, Wrong, found};
use crate::remark::Remark;
use crate::verdict::{Explanation, Refusal};
use crate::written::remarks_on_writing;
use cf_script_reading::{MAX_BYTES, ReadingFault, Script, script_of};
use serde_json::Value as Json;
use std::alloc::{AllocError, Global};

/// Explains the script that the bytes ought to be: what is wrong with it, and what is odd about it.
///
/// The script is refused exactly where its reading refuses it, and for the same fault. The place that is told lies in the part
/// that the fault names. If the script is read, the remarks say first what is odd about how it is written, then which limits
/// never fire, in order, and then which steps never do anything. It fails only where memory is refused.
pub fn explain(alloc: Global, bytes: &[u8]) -> Result<Explanation, AllocError>
    ensures verdict { IfOk result (λ e. ExplainTells e.refusal (reading bytes.now)) }
    ensures remarks { IfOk result (λ e. AreRemarks (reading bytes.now) (json_of bytes.now) e.remarks.items) }
{
    if bytes.len() > MAX_BYTES {
        return Ok(unread(alloc, ReadingFault::TooLong, Reason::TooLong));
    }
    match Json::from_slice(alloc, bytes) {
        Ok(json) => explain_json(alloc, bytes, &json),
        Err(error) if error.is_memory() => Err(AllocError),
        Err(error) => Ok(unread(alloc, ReadingFault::NotJson, Reason::NotJson(error))),
    }
}

/// That bytes are refused whole, before anything in them is looked at.
fn unread(alloc: Global, fault: ReadingFault, why: Reason) -> Explanation
    ensures refused { ExplainTells result.refusal (refused_for fault) }
    ensures remarks { result.remarks.items ≡ [] }
{
    let place = Place::of(area_of(fault));
    let why = Why::Told(why);
    let refusal = Refusal { fault, place, why };
    Explanation {
        refusal: Some(refusal),
        remarks: Vec::new(alloc),
    }
}

/// What is wrong with a script that is this JSON value, and what is odd about it as these bytes write it.
fn explain_json(alloc: Global, bytes: &[u8], json: &Json) -> Result<Explanation, AllocError>
    ensures verdict { IfOk result (λ e. ExplainTells e.refusal (script_said (view json.now))) }
    ensures remarks { IfOk result (λ e. AreRemarksOn (view json.now) e.remarks.items) }
{
    match script_of(alloc, json) {
        Ok(script) => {
            let remarks = remarks_of(alloc, bytes, json, script)?;
            Ok(Explanation {
                refusal: None,
                remarks,
            })
        }
        Err(ReadingFault::NoMemory) => Err(AllocError),
        Err(fault) => {
            let Finding { place, why } = cause_of(fault, json);
            let why = why_of(alloc, why)?;
            let remarks = remarks_on_writing(alloc, bytes, json)?;
            Ok(Explanation {
                refusal: Some(Refusal { fault, place, why }),
                remarks,
            })
        }
    }
}

/// The place in a script by which this fault came, and what is wrong there.
fn cause_of(fault: ReadingFault, json: &Json) -> Finding<'_>
    ensures { result.place.area ≡ area_of fault }
{
    let place = Place::of(area_of(fault));
    match found(fault, place, json) {
        Some(finding) => finding,
        None => Finding {
            place,
            why: Wrong::Told(Reason::Unsaid),
        },
    }
}

/// What is wrong at a place, told without the script.
fn why_of(alloc: Global, wrong: Wrong<'_>) -> Result<Why, AllocError> {
    match wrong {
        Wrong::Told(reason) => Ok(Why::Told(reason)),
        Wrong::Unknown(word, words) => {
            let nearest = words.nearest(alloc, word)?;
            let word = String::from_str(alloc, word)?;
            Ok(Why::Unknown {
                word,
                words,
                nearest,
            })
        }
    }
}

/// What is odd about a script that is right.
fn remarks_of(
    alloc: Global,
    bytes: &[u8],
    json: &Json,
    script: Script,
) -> Result<Vec<Remark>, AllocError>
    ensures { IfOk result (λ v. AreRemarked (view json.now) script v.items) }
{
    let mut idle = idle_steps(alloc, script)?;
    let mut remarks = remarks_on_writing(alloc, bytes, json)?;
    remark_behind(alloc, json, &mut remarks)?;
    remarks.append(&mut idle)?;
    Ok(remarks)
}
