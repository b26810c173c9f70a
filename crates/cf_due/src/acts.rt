//! What a user asks of a request, as words.
ghost use Rattle.std.specs.Prelude.{◌↔◌, [], IfErr, IfOk, IsTrue, OnOk, false};
ghost use Rattle.cf_due.specs.Acts.{CancelsAlone, IsActing, IsFitting, IsNoAct, IsNoCancel, IsNotOpen, SettlesAlone, TimesAlone};
ghost use Rattle.cf_due.specs.Settling.{IsOpen};

use crate::attaching::{attach, try_again};
use crate::settling::{place_of, settle_word};
use crate::ticking::tick_word;
use cf_forms::{Form, Of, fits_form};
use cf_notes::{Note, Noted, Source, Want};
use cf_outcome::{Cause, Outcome, Value, is_cancelled};
use cf_row::Replica;

/// What a user asks of a request.
#[derive(Clone, Copy, Debug, PartialEq, Eq)]
pub enum Act {
    /// To complete a stage with a payload, which stands at the place of the entry.
    Complete {
        stage: u16,
    },
    /// To fail a stage with an error, which stands there.
    Fail {
        stage: u16,
    },
    /// To cancel a stage, or only one whose function doesn't run anywhere.
    Cancel {
        stage: u16,
        only_idle: bool,
    },
    /// To settle a stage at a moment of the store's clock, in milliseconds, if it is open then: to complete it with a
    /// payload, which stands at the place of the entry, or to let it time out.
    Limit {
        stage: u16,
        moment: u64,
        gives: bool,
    },
    /// To attach a stage. One that composes comes behind its promise.
    Attach {
        form: Form,
        of: Of,
        function: Option<u32>,
    },
    /// To attach a further try of a stage.
    Again {
        stage: u16,
    },
}

impl Act {
    /// Whether an attached stage fits its form.
    pub fn fits(&self) -> bool
        ensures { IsTrue result ↔ IsFitting self.now }
    {
        match *self {
            Act::Attach { form, of, function } => fits_form(form, of.count(), function.is_some()),
            _ => true,
        }
    }
}

/// The words that an act puts: one, or two that have to stand together.
#[derive(Clone, Copy, Debug, PartialEq, Eq)]
pub struct Acting {
    pub first: Want,
    pub second: Option<Want>,
}

/// Why an act puts nothing.
#[derive(Clone, Copy, Debug, PartialEq, Eq)]
pub enum NoAct {
    /// A stage that it names isn't there.
    NoStage,
    /// There is no room for the stages that it attaches.
    NoRoom,
    /// The stage has no function that could be tried again, or composes.
    NoTry,
    /// The stage is settled already. It may be as was asked, where it is cancelled.
    Settled { is_as_asked: bool },
    /// The function of the stage runs.
    Runs,
}

/// The words of an act, or why it puts nothing. The graph takes them behind all that was seen, and they do there what was
/// asked.
pub fn act_on(view: &Replica, notes: &[Noted], act: Act) -> Result<Acting, NoAct>
    requires { IsFitting act }
    ensures words { IfOk result (λ a. IsActing view.now notes.now act a) }
    ensures none { IfErr result (λ why. IsNoAct view.now notes.now act why) }
{
    match act {
        Act::Complete { stage } => complete(view, stage),
        Act::Fail { stage } => fail(view, stage),
        Act::Cancel { stage, only_idle } => cancel(view, stage, only_idle),
        Act::Limit {
            stage,
            moment,
            gives,
        } => limit(view, stage, moment, gives),
        Act::Attach { form, of, function } => attach(view, form, of, function),
        Act::Again { stage } => try_again(view, notes, stage),
    }
}

/// The word that completes a stage.
fn complete(view: &Replica, stage: u16) -> Result<Acting, NoAct>
    ensures words { IfOk result (λ a. IsActing view.now [] (Act.Complete stage) a) }
    ensures none { IfErr result (λ why. IsNotOpen view.now stage false why) }
{
    check_open(view, stage, false)?;
    let value = Value::Int(place_of(view).cast_signed());
    Ok(settle_alone(view, stage, Outcome::Value(value), Source::Given))
}

/// The word that fails a stage.
fn fail(view: &Replica, stage: u16) -> Result<Acting, NoAct>
    ensures words { IfOk result (λ a. IsActing view.now [] (Act.Fail stage) a) }
    ensures none { IfErr result (λ why. IsNotOpen view.now stage false why) }
{
    check_open(view, stage, false)?;
    let fault = Outcome::Fault {
        cause: Cause::Thrown(place_of(view)),
        wrapped: false,
    };
    Ok(settle_alone(view, stage, fault, Source::Given))
}

/// The word that cancels a stage.
fn cancel(view: &Replica, stage: u16, only_idle: bool) -> Result<Acting, NoAct>
    ensures words { IfOk result (λ a. CancelsAlone view.now stage only_idle a) }
    ensures none { IfErr result (λ why. IsNoCancel view.now stage only_idle why) }
{
    check_open(view, stage, true)?;
    if only_idle && view.ledger().claimant(stage).is_some() {
        return Err(NoAct::Runs);
    }
    let cancelled = Outcome::Fault {
        cause: Cause::Cancelled,
        wrapped: false,
    };
    Ok(settle_alone(view, stage, cancelled, Source::Nothing))
}

/// The word beside which a timer of a stage stands.
fn limit(view: &Replica, stage: u16, moment: u64, gives: bool) -> Result<Acting, NoAct>
    ensures words { IfOk result (λ a. TimesAlone view.now stage moment gives a) }
    ensures none { IfErr result (λ why. IsNotOpen view.now stage false why) }
{
    check_open(view, stage, false)?;
    Ok(Acting {
        first: Want {
            word: tick_word(view),
            note: Note::Timer {
                stage,
                moment,
                gives,
            },
            source: if gives {
                Source::Given
            } else {
                Source::Nothing
            },
        },
        second: None,
    })
}

/// Whether a stage is open. Where it is settled, that may be as was asked, if it was to be cancelled.
fn check_open(view: &Replica, stage: u16, cancels: bool) -> Result<(), NoAct>
    ensures open { OnOk result (IsOpen view.now stage) }
    ensures none { IfErr result (λ why. IsNotOpen view.now stage cancels why) }
{
    let ledger = view.ledger();
    if stage >= ledger.stages() {
        return Err(NoAct::NoStage);
    }
    match ledger.outcome(stage) {
        None => Ok(()),
        Some(outcome) => Err(NoAct::Settled {
            is_as_asked: cancels && is_cancelled(outcome),
        }),
    }
}

/// The word that settles an open stage so, alone.
fn settle_alone(view: &Replica, stage: u16, outcome: Outcome, source: Source) -> Acting
    requires { IsOpen view.now stage }
    ensures { SettlesAlone view.now stage outcome source result }
{
    Acting {
        first: Want {
            word: settle_word(view, stage, outcome),
            note: Note::Nothing,
            source,
        },
        second: None,
    }
}
