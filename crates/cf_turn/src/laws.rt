//! Laws of works: the contract of each function is the statement, and its body calls another law or nothing. Each says
//! what holds after any row of calls, whatever a store answers.
ghost use Rattle.cf_turn.specs.Rows.{AllCallOnceInWorks, WorksArePartsCalls};
ghost use Rattle.cf_turn.specs.Truth.{ActsAreToldTruly, OnlyOverIsClosed, PutsFit};

use cf_part::laws::one_process_calls_each_function;

/// Any calls of a work are calls of its part, with the same functions called and the same ones stopped.
pub fn works_are_calls_of_parts()
    ensures { WorksArePartsCalls }
{}

/// Of all sessions that work on a request, one at most is told to call a stage's function, and that once.
pub fn one_work_calls_each_function()
    ensures { AllCallOnceInWorks }
{
    one_process_calls_each_function();
}

/// A close is asked for only where nothing is due, and a user ended the request, or it is a flow's, all its stages are
/// settled, and no claim is open but of sessions that are gone.
pub fn only_what_is_over_is_closed()
    ensures { OnlyOverIsClosed }
{}

/// What is asked to be put was under way, or fits behind all that was seen.
pub fn puts_fit()
    ensures { PutsFit }
{}

/// What the user of an act is told is so: of an act that stands its words stand in each row of which all is true that the
/// session was told, and in which each of its puts stands once or never; and one of which nothing was put couldn't be by
/// what was seen.
pub fn acts_are_told_truly()
    ensures { ActsAreToldTruly }
{}
