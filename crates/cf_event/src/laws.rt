//! Laws of events and their words: the contract of each function is the statement, and its body is empty.
ghost use Rattle.cf_event.specs.Laws.{WordsAreOneToOne};

/// Two events with one word are one event.
pub fn words_are_one_to_one()
    ensures { WordsAreOneToOne }
{}
