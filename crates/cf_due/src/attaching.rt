//! Stages that a user attaches.
ghost use Rattle.std.specs.Prelude.{◌≡◌, ◌≤◌, IfErr, IfOk, OnOk, Some, is_some, length, true, unwrap_or};
ghost use Rattle.std.specs.Bool.{OnFalse, OnTrue};
ghost use Rattle.cf_forms.specs.Forms.{composes};
ghost use Rattle.cf_forms.specs.Plans.{AreBelow, fits_form, sources_of};
ghost use Rattle.cf_row.specs.Rows.{stages_of, state_of};
ghost use Rattle.cf_due.specs.Acts.{AttachesAlone, AttachesBoth, HasTryOf, IsAttaching, IsNoPlace, IsNoTry, TriesAgain, needed_by, tried_by};

use crate::acts::{Acting, NoAct};
use cf_event::{Event, encode};
use cf_forms::{Form, Of, composes};
use cf_notes::{Note, Noted, Source, Want, function_of, promise_of};
use cf_row::Replica;

/// The words that attach a stage, with its promise where it composes.
pub(crate) fn attach(
    view: &Replica,
    form: Form,
    of: Of,
    function: Option<u32>,
) -> Result<Acting, NoAct>
    requires { fits_form form (length (sources_of of)) (is_some function) ≡ true }
    ensures words { IfOk result (λ a. IsAttaching view.now (composes form) form of function a) }
    ensures none { IfErr result (λ why. IsNoPlace view.now of (needed_by form) why) }
{
    check_place(view, of, needed_by(form))?;
    Ok(attach_there(view, form, of, function))
}

/// The same where the sources are there, and room for the stages.
fn attach_there(view: &Replica, form: Form, of: Of, function: Option<u32>) -> Acting
    requires form { fits_form form (length (sources_of of)) (is_some function) ≡ true }
    requires there { AreBelow (stages_of view.now) of }
    requires room { needed_by form ≤ (state_of view.now).plan.room }
    ensures { IsAttaching view.now (composes form) form of function result }
{
    let number = view.ledger().stages();
    match function {
        None => attach_alone(view, form, of, None, Note::Nothing),
        Some(function) if composes(form) => compose(view, form, of, function),
        Some(function) => {
            let note = Note::Calls { function };
            attach_alone(view, form, of, Some(number), note)
        }
    }
}

/// The word that attaches a further try of a stage.
pub(crate) fn try_again(view: &Replica, notes: &[Noted], stage: u16) -> Result<Acting, NoAct>
    ensures words { IfOk result (λ a. TriesAgain view.now notes.now stage a) }
    ensures none { IfErr result (λ why. IsNoTry view.now notes.now stage why) }
{
    let number = view.ledger().stages();
    if stage >= number {
        return Err(NoAct::NoStage);
    }
    let tried = tried_by(notes, stage);
    if !has_try(notes, tried) {
        return Err(NoAct::NoTry);
    }
    check_place(view, Of::One(stage), 1)?;
    let note = Note::Tries { of: tried };
    Ok(attach_alone(
        view,
        Form::Exceptionally,
        Of::One(stage),
        Some(number),
        note,
    ))
}

/// For how many stages there has to be room.
fn needed_by(form: Form) -> u16
    ensures { result ≡ needed_by form }
{
    if composes(form) { 2 } else { 1 }
}

/// Whether the sources are there, and room for so many stages more.
fn check_place(view: &Replica, of: Of, more: u16) -> Result<(), NoAct>
    ensures there { OnOk result (AreBelow (stages_of view.now) of) }
    ensures room { OnOk result (more ≤ (state_of view.now).plan.room) }
    ensures none { IfErr result (λ why. IsNoPlace view.now of more why) }
{
    let ledger = view.ledger();
    if !of.are_below(ledger.stages()) {
        return Err(NoAct::NoStage);
    }
    if ledger.room() < more {
        return Err(NoAct::NoRoom);
    }
    Ok(())
}

/// The word that attaches a stage, alone.
fn attach_alone(view: &Replica, form: Form, of: Of, function: Option<u16>, note: Note) -> Acting
    requires form { fits_form form (length (sources_of of)) (is_some function) ≡ true }
    requires there { AreBelow (stages_of view.now) of }
    requires room { 1 ≤ (state_of view.now).plan.room }
    requires small { unwrap_or function 0 ≤ stages_of view.now }
    ensures { AttachesAlone view.now form of function note result }
{
    let _few = view.ledger().stages();
    let who = view.number();
    let event = Event::Attach {
        who,
        form,
        of,
        function,
    };
    let word = encode(&event);
    let source = Source::Nothing;
    Acting {
        first: Want { word, note, source },
        second: None,
    }
}

/// The words that attach a promise, and the stage that composes it.
fn compose(view: &Replica, form: Form, of: Of, function: u32) -> Acting
    requires form { fits_form form (length (sources_of of)) true ≡ true }
    requires there { AreBelow (stages_of view.now) of }
    requires room { 2 ≤ (state_of view.now).plan.room }
    ensures { AttachesBoth view.now form of function result }
{
    let promise = view.ledger().stages();
    let who = view.number();
    let source = Source::Nothing;
    let first = Event::Attach {
        who,
        form: Form::Source,
        of: Of::None,
        function: None,
    };
    let second = Event::Attach {
        who,
        form,
        of,
        function: Some(promise + 1),
    };
    Acting {
        first: Want {
            word: encode(&first),
            note: Note::Nothing,
            source,
        },
        second: Some(Want {
            word: encode(&second),
            note: Note::Composes { function, promise },
            source,
        }),
    }
}

/// The stage that a further try of a stage tries again.
fn tried_by(notes: &[Noted], stage: u16) -> u16
    ensures { result ≡ tried_by notes.now stage }
{
    match notes.get(stage as usize) {
        Some(noted) => noted.tries.unwrap_or(stage),
        None => stage,
    }
}

/// Whether a stage has a function, and doesn't compose.
fn has_try(notes: &[Noted], tried: u16) -> bool
    ensures has { OnTrue result (HasTryOf notes.now tried) }
    ensures none { OnFalse result (¬ HasTryOf notes.now tried) }
{
    function_of(notes, tried).is_some() && promise_of(notes, tried).is_none()
}
