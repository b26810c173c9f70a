//! Laws of texts: the contract of each function is the statement, and its body is empty.
ghost use Rattle.cf_telling.specs.Laws.{TextsAreShown};

/// A text of others has no line feed where it is written, and no other character that isn't shown.
pub fn texts_are_shown()
    ensures { TextsAreShown }
{}
