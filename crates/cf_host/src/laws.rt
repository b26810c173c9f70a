//! Laws of a process: the contract of each function is the statement, and its body is empty.
ghost use Rattle.cf_host.specs.Clocks.{LimitsComeInTime, TimersComeByThen, WhatComesHasCome};
ghost use Rattle.cf_host.specs.Keeping.{AsksBehindSeen, NoValueIsLost, SeesByAnswers, ShowsBeforeSleep, StaysAsked, StaysWanted, TellsOnce};
ghost use Rattle.cf_host.specs.Laws.{CallsOnce, SleepsInTime};
ghost use Rattle.cf_host.specs.News.{NothingIsMissed};
ghost use Rattle.cf_host.specs.Processes.{AllCallOnce};
ghost use Rattle.cf_host.specs.Tickets.{EachIsAnsweredOnce};

use cf_part::laws::{each_function_is_called_once, what_is_owed_is_kept};
use cf_turn::laws::{one_work_calls_each_function, works_are_calls_of_parts};

/// Whatever the store's clock shows, if it goes no faster than this process's, and an answer told it truly: a timer that is
/// set by `moment_after` comes no earlier than its span from now on.
pub fn limits_come_in_time()
    ensures { LimitsComeInTime }
{}

/// If the store's clock goes no slower than this process's, it has come to a moment once this process's has come to
/// `due_at`. So one look from then on is enough.
pub fn timers_are_come_by_then()
    ensures { TimersComeByThen }
{}

/// What has come by an answer has come, at each later moment.
pub fn come_timers_stay_come()
    ensures { WhatComesHasCome }
{}

/// Behind any calls, each ticket has a number of its own, each that was closed was opened just so, and none was closed
/// twice. So each question and each call is answered once at most, for whom it was opened.
pub fn each_is_answered_once()
    ensures { EachIsAnsweredOnce }
{}

/// Whatever changed up to the last mark was told by an answer to a whole look, or to a look that began before it. Looks
/// without an answer leave no gap.
pub fn nothing_is_missed()
    ensures { NothingIsMissed }
{}

/// Where a process sleeps, it wakes no later than for its next beat or look, for the first request that is to be asked
/// again, and for the first user who has waited long enough.
pub fn it_wakes_in_time()
    ensures { SleepsInTime }
{}

/// Whatever a store answers, no function of a request is called twice: what a process does to a request is a row of calls
/// of its work.
pub fn each_function_of_a_request_is_called_once()
    ensures { CallsOnce }
{
    works_are_calls_of_parts();
    each_function_is_called_once();
}

/// Of all processes that work on a request, one at most is ordered to call a stage's function, and that once: whatever
/// stands in its row, if each has a session of its own and was told the truth of the request.
pub fn one_process_calls_each_function_of_a_request()
    ensures { AllCallOnce }
{
    works_are_calls_of_parts();
    one_work_calls_each_function();
}

/// By each call a stage for which somebody waits stays so, unless it is shown, or nobody waits for it any more.
pub fn what_is_wanted_stays_so()
    ensures { StaysWanted }
{}

/// Where a process sleeps, no stage for which somebody waits is settled, as the session has seen.
pub fn what_is_settled_is_shown_before_sleep()
    ensures { ShowsBeforeSleep }
{}

/// By each call an act of a user stays asked, and so does an end, unless its user is told.
pub fn what_is_asked_stays_so()
    ensures { StaysAsked }
{}

/// What a function came to is kept, behind any calls and whatever a store answers, and the claim of its stage is this
/// session's. So its finish is due as long as that claim is open, as far as the session has seen.
pub fn no_value_is_lost()
    ensures { NoValueIsLost }
{
    works_are_calls_of_parts();
    what_is_owed_is_kept();
}

/// No user is told twice what became of one act, or of the end of a request.
pub fn each_user_is_told_once()
    ensures { TellsOnce }
{}

/// What a session has seen of a request's row stays as it was by each call but an answer to a question about that row. So
/// whoever answers truly keeps the premise of `one_process_calls_each_function_of_a_request`.
pub fn what_is_seen_comes_by_answers()
    ensures { SeesByAnswers }
{}

/// A question about a row is asked behind all that the session has seen of it, and its ticket is of that request.
pub fn questions_are_behind_all_that_is_seen()
    ensures { AsksBehindSeen }
{}
