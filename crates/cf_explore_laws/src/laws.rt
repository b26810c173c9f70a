//! The contract of each function is the statement, and its body is empty.
ghost use Rattle.cf_explore_laws.specs.Laws.{HistoriesAreOrders, ProgramsAreThere, ReadsMayBeLeftOut, SearchesCoverHistories, SearchesJudgeHistories};

/// There is a program whose callers make the calls that callers were told of: that of their own records, where they stand in
/// the order of their numbers.
pub fn programs_are_there()
    ensures { ProgramsAreThere }
{}

/// What callers were told, where it is one history, is one without some of their reads, too: so a program needn't have each
/// read that a caller of the desk made.
pub fn reads_may_be_left_out()
    ensures { ReadsMayBeLeftOut }
{}

/// What callers were told, where it is one history, is an order of each program whose callers make the same calls, with
/// a worker for each other caller, which worked until nothing was ready. In it each is told what it was told, and it ends with
/// the state that the history leaves.
pub fn histories_are_orders()
    ensures { HistoriesAreOrders }
{}

/// The outcomes that it leaves are those of an end that a search tells which saw all orders.
pub fn searches_cover_histories()
    ensures { SearchesCoverHistories }
{}

/// Where such a search finds no order that decides a condition, no situation of that order does, from its start to its end.
pub fn searches_judge_histories()
    ensures { SearchesJudgeHistories }
{}
