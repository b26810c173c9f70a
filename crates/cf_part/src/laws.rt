//! Laws of parts: the contract of each function is the statement, and its body calls another law or nothing. Each says
//! what holds after any row of calls, whatever a store answers.
ghost use Rattle.cf_part.specs.Rows.{AllCallOnce, CallsOnce, KeepsOwed, StopsOnce};

use cf_row::laws::claims_are_one_sessions;

/// The stages whose functions `next` tells to call are all different. Each one's claim was granted to the session.
pub fn each_function_is_called_once()
    ensures { CallsOnce }
{}

/// The stages whose functions may end, as `next` tells, are all different. The function of each was called.
pub fn each_stop_is_told_once()
    ensures { StopsOnce }
{}

/// What a function came to is kept, whatever is refused or unanswered: a stage that is owed is so while its claim is
/// open.
pub fn what_is_owed_is_kept()
    ensures { KeepsOwed }
{}

/// Of all sessions that work on a request, one at most is told to call a stage's function, and that once.
pub fn one_process_calls_each_function()
    ensures { AllCallOnce }
{
    claims_are_one_sessions();
}
