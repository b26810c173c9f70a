//! Laws of machines: the contract of each function is the statement, and its body is empty. Each says what holds after
//! any row of calls, by any callers, in any order.
ghost use Rattle.cf_request.specs.Endings.{EndsNothingElse, JoinsAreExact, StopsOnce};
ghost use Rattle.cf_request.specs.Gathering.{GathersAsOne, GathersAtOnce};
ghost use Rattle.cf_request.specs.Linked.{LinksEndAlike};
ghost use Rattle.cf_request.specs.Rows.{AddsBehind, BeginsAnew, ComesToAnEnd, RunsOnce, TellsOnce, WordsTellAll};
ghost use Rattle.cf_request.specs.Scopes.{RunsNoneWithin};

/// All that was taken, one taking behind the other, and then what is told and not yet taken, are each settled stage
/// once, in the order of the events.
pub fn each_settled_stage_is_told_once()
    ensures { TellsOnce }
{}

/// The stages that `next` told are all different. The claim of each stands among the words, and was granted there to
/// the caller that was told it, with the arguments that it was told.
pub fn each_stage_is_run_once()
    ensures { RunsOnce }
{}

/// Each stage that `next` tells leaves fewer that may be claimed, now or later. No call makes them more but `grow`, and
/// that by no more than the room that it gives. So a host that goes on asking comes to an end.
pub fn running_comes_to_an_end()
    ensures { ComesToAnEnd }
{}

/// There are more events behind those of before, each of which is taken as those before it leave the graph; and what
/// was taken stands behind what was taken before. More room changes no earlier state but for that.
pub fn calls_add_behind()
    ensures { AddsBehind }
{}

/// From its opening on, a machine's words give its events, and a ledger of the same plan does them all again, unless
/// memory is wanting. So that ledger is in the machine's states.
pub fn words_tell_all()
    ensures { WordsTellAll }
{}

/// A machine that starts again after any row of calls is as it was opened, with the same plan and lanes, and with the
/// room that it has by then. So a row begins anew, of which all laws hold.
pub fn a_row_begins_anew()
    ensures { BeginsAnew }
{}

/// If each of the stages that gather sources has what its two sources give, the root has what one stage of the form
/// over all of them would have.
pub fn stages_gather_as_one()
    ensures { GathersAsOne }
{}

/// Where stages are gathered, the root has at once what one stage of the form over all of them would have.
pub fn roots_have_it_at_once()
    ensures { GathersAtOnce }
{}

/// Behind the end of a scope, `next` tells no stage within it, over any row of calls.
pub fn ended_scopes_run_nothing()
    ensures { RunsNoneWithin }
{}

/// After any row of calls, each join is open and undecided, or its stage was settled by a word in between: one that came
/// while it was undecided, or one by which the machine settled the first of the joins that were due. If that is a join of
/// the stage, the stage has what such a join ends with.
pub fn joins_are_exact()
    ensures { JoinsAreExact }
{}

/// What the end of a scope adds to the words is the caller's cancel of the scope's stage, and then what the machine
/// settles in its own name: joins, each where it is the first that is due. So each stage that it settles is the scope's,
/// or has a source, a link or a join whose stage is reached from that.
pub fn scopes_end_nothing_else()
    ensures { EndsNothingElse }
{}

/// A host that looks, for each stage that it takes as told, whether its claim is open, hears of no claim twice, and of
/// each that it could hear of: what is open still was open as its stage was told.
pub fn each_stop_is_told_once()
    ensures { StopsOnce }
{}

/// A compose that was linked in time ends as its relay, and that follows the stage, after any row of calls. Once the stage
/// is settled, the compose is. It has the relay's outcome, wrapped, unless it was settled first: by a word that left the
/// relay open, or by a tick. The relay has the stage's outcome, raw, unless it was settled otherwise: while the stage was
/// open, or where it was the turn of a join that was set before.
pub fn linked_composes_end_alike()
    ensures { LinksEndAlike }
{}
