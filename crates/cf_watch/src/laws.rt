//! Laws of watches: the contract of each function is the statement, and its body is empty.
ghost use Rattle.cf_watch.specs.Laws.{SparesWhoBeats, TellsWhoIsSilent};

/// Behind any calls, a watch tells just those sessions gone that were silent for more than a lease: since an answer by
/// which they were known the store was never without an answer, no answer told another count of them, and what counts of
/// the time is more than the lease.
pub fn the_gone_were_silent()
    ensures { TellsWhoIsSilent }
{}

/// Nobody who beats is told gone: behind an answer that tells a session's first count or another one, more than a lease of
/// time has to count, whatever else is called meanwhile.
pub fn who_beats_is_spared()
    ensures { SparesWhoBeats }
{}
