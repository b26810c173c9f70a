//! What the note of an entry says of the stages that are there.
ghost use Rattle.std.specs.Prelude.{◌≡◌};
ghost use Rattle.cf_notes.specs.Noting.{failed_by, finished_by, given_to, is_given, timed_by};

use crate::lookups::promise_of;
use crate::note::Note;
use crate::noted::{Noted, Timer};
use cf_forms::Answer;
use cf_model::{Finished, Reply};

/// Takes the note of a finish.
pub(crate) fn finish(stages: &mut [Noted], reply: &Reply, stage: u16, answer: Answer, note: Note)
    ensures { stages.new ≡ finished_by stages.old reply.now stage answer note }
{
    if let Reply::Finish(Finished::Won) = *reply {
        give(stages, stage, answer, note);
    }
}

/// Takes the note of a finish that has settled its stage, or has linked it.
fn give(stages: &mut [Noted], stage: u16, answer: Answer, note: Note)
    ensures { stages.new ≡ given_to stages.old stage answer note }
{
    let Answer::Link(promise) = answer else {
        return;
    };
    let Note::Gives { stage: given } = note else {
        return;
    };
    if is_given(stages, stage, promise, given) {
        let promise = promise as usize;
        if promise < stages.len() {
            stages[promise].given = Some(given);
        }
    }
}

/// Whether a stage composes this promise, and may give it the other stage.
fn is_given(stages: &[Noted], stage: u16, promise: u16, given: u16) -> bool
    ensures { result ≡ is_given stages.now stage promise given }
{
    promise_of(stages, stage) == Some(promise)
        && (given as usize) < stages.len()
        && given != promise
}

/// Takes the note of a fail.
pub(crate) fn fail(stages: &mut [Noted], reply: &Reply, stage: u16, code: u32, note: Note)
    ensures { stages.new ≡ failed_by stages.old reply.now stage code note }
{
    let (Reply::Flag(true), Note::Abandons) = (*reply, note) else {
        return;
    };
    let stage = stage as usize;
    if stage < stages.len() {
        stages[stage].abandoned = Some(code);
    }
}

/// Takes the note of a tick.
pub(crate) fn time(stages: &mut [Noted], place: u64, note: Note)
    ensures { stages.new ≡ timed_by stages.old place note }
{
    let Note::Timer {
        stage,
        moment,
        gives,
    } = note
    else {
        return;
    };
    let stage = stage as usize;
    if stage < stages.len() {
        stages[stage].timer = Some(Timer {
            moment,
            gives,
            place,
        });
    }
}
