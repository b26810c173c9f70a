//! What every history that fits shows, and that there is one verdict. The contract of each function is the statement, and its body is empty.
ghost use Rattle.cf_history.specs.Laws.{OneHistoriesFit, OneSharedVerdict, OneVerdict};

/// A history that says what `IsOneHistory` of `cf_event` holds of, as it holds of each closed desk, is one that `check`
/// answers `Fits`.
pub fn one_histories_fit()
    ensures { OneHistoriesFit }
{}

/// `check` tells one verdict, of which each says that no earlier reason holds: no two hold of one history.
pub fn one_verdict()
    ensures { OneVerdict }
{}

/// `check_shared` tells one verdict on what sessions tell.
pub fn one_shared_verdict()
    ensures { OneSharedVerdict }
{}
