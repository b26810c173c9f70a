//! Laws of what is due: the contract of each function is the statement, and its body is empty.
ghost use Rattle.cf_due.specs.Laws.{FittingWordsArePlanned};

/// The words of what is due are planned by `Row::plan` unless tokens or memory are wanting, where no session has two
/// numbers in the row. By `all_follow_the_rule` of `cf_row`, none has.
pub fn fitting_words_are_planned()
    ensures { FittingWordsArePlanned }
{}
