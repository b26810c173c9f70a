//! What a closed desk shows, and what the rule of its row says. Each function does nothing, and its contract is the
//! statement.
ghost use Rattle.cf_desk.specs.Keepings.{IsFit};
ghost use Rattle.cf_desk.specs.Laws.{ClaimsStayOpen, OneHistoryShows};
ghost use Rattle.cf_desk.specs.Rows.{RowsHold};
ghost use Rattle.cf_desk.specs.Time.{CallsComeAfterWhatWasSeen, CallsComeLast, LogsOnlyGrow};
ghost use Rattle.cf_desk.specs.WaitFree.{CallsTakeFewSteps, EachIsOneStep, PassesAreWaitFree};

use crate::pass::Pass;

/// In one history, as `Desk::close` hands it out, each call stands once, a settled stage keeps its outcome, a stage is
/// claimed once, and a quiet plain graph holds its expressions' outcomes.
pub fn one_history_shows()
    ensures { OneHistoryShows }
{}

/// Of the events that a pass has seen, those of its caller are just the ones that it was answered for, each with the reply
/// that the sequential graph gives there.
pub fn passes_fit_what_they_saw(p: &Pass)
    ensures { IsFit p.now }
{
    let _ = &p.seat;
}

/// What the rule of the row says of its words and seats between any two steps.
pub fn rows_hold()
    ensures { RowsHold }
{}

/// A claim that a caller has open stays open, whatever events of other callers come: only its own finish closes it.
pub fn claims_stay_open()
    ensures { ClaimsStayOpen }
{}

/// The log only grows: an exchange that finds its word empty leaves the log as it was, or goes on behind it.
pub fn logs_only_grow()
    ensures { LogsOnlyGrow }
{}

/// Each event is added at the end of the log as it stands at that exchange: if a pass adds its event by an exchange that
/// finds the word empty, it has seen all of the log by then. The exchange lies within the call. It isn't proved that a call
/// which had returned before another began stands before it in the log: that is an argument from this and `logs_only_grow`,
/// since no clause speaks of instants.
pub fn calls_come_last()
    ensures { CallsComeLast }
{}

/// A call stands behind all that its pass had seen, and so behind what another had, once it has heeded its notice
/// (`Desk::heed`).
pub fn calls_come_after_what_was_seen()
    ensures { CallsComeAfterWhatWasSeen }
{}

/// A step is a load or an exchange of the next word. Each shows the pass one event more, or is a look that meets an empty
/// word.
pub fn each_is_one_step()
    ensures { EachIsOneStep }
{}

/// A call takes a step for each further event that its pass sees, and some steps that are looks: `act` none, `read` and
/// `ready` one, `join` as many as it may, and each but `ready` one more if its pass doesn't know the stage. `meet` and `heed`
/// load the words of the events that they show, and the first word four times more.
pub fn calls_take_few_steps()
    ensures { CallsTakeFewSteps }
{}

/// Calls are wait-free: whatever other callers do, those of one pass take together at most a step for each word of the log
/// that it hadn't seen, and one for each look. It is no bound of time: a step takes as long as the machine lets it, and how
/// long the graph takes to do an event is another count, of turns.
pub fn passes_are_wait_free()
    ensures { PassesAreWaitFree }
{}
