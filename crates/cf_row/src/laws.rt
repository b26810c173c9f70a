//! Laws of rows: the contract of each function is the statement, and its body is empty. A host uses a law by calling it
//! before it concludes something.
ghost use Rattle.cf_row.specs.Grants.{ClaimsAreOnes};
ghost use Rattle.cf_row.specs.Next.{NextClaimsAreGranted};
ghost use Rattle.cf_row.specs.Laws.{AllFollowTheRule, LandedPutsStandOnce, NumbersAreRuled, PutsKeepOnceOrNever, PutsStandOnceOrNever, RowsAreOneHistory, RowsOnlyGrow, ToldIsTrue, TokensAreApart};

/// A row of which a session's view is true, and in which more entries stand behind it, has the longer view, too.
pub fn told_is_true()
    ensures { ToldIsTrue }
{}

/// What stands in a row stays, whatever an engine is asked for. So no word is missing that a session was told stands.
pub fn rows_only_grow()
    ensures { RowsOnlyGrow }
{}

/// No token is given to two puts: those of two sessions differ, and a session never gives one again.
pub fn tokens_are_apart()
    ensures { TokensAreApart }
{}

/// A put that lands stands once, also if it was asked for before.
pub fn landed_puts_stand_once()
    ensures { LandedPutsStandOnce }
{}

/// Whatever put an engine does, a put whose tokens are its own stands once at its place or never anywhere, if it did so
/// before.
pub fn puts_keep_once_or_never()
    ensures { PutsKeepOnceOrNever }
{}

/// A put that an engine is asked for, once or often, in time or late, stands once at its place or never anywhere,
/// whether it was answered or not.
pub fn puts_stand_once_or_never()
    ensures { PutsStandOnceOrNever }
{}

/// Where each session takes its number by the rule, no session has two, no number is two sessions' before all 64 are
/// taken, and below a number that is taken all are.
pub fn numbers_are_ruled()
    ensures { NumbersAreRuled }
{}

/// Whichever puts an engine was asked for, each session takes its number by the rule. So no session of a row has two, and
/// none is two sessions' before all 64 are taken.
pub fn all_follow_the_rule()
    ensures { AllFollowTheRule }
{}

/// Whatever a row is, no stage's claim was granted to two sessions in it, also where they share a number. So a view tells
/// of each open claim the one session to which it was granted.
pub fn claims_are_one_sessions()
    ensures { ClaimsAreOnes }
{}

/// The claim of a stage that a view gave by `next_claim` is granted, where it stands next behind the word that the view
/// gave by `finish`, or alone where nothing has ended.
pub fn next_claims_are_granted()
    ensures { NextClaimsAreGranted }
{}

/// Whatever puts an engine was asked for, how often and how late, and whatever it answered: the accounts of all
/// sessions and the row's words are one history of one graph. Replies that nobody was there for, as of a session that
/// died, are the graph's. Of all claims of a stage one at most is granted, over all sessions.
pub fn rows_are_one_history()
    ensures { RowsAreOneHistory }
{}
