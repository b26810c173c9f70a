//! Counts of beats, as an answer of the store tells them.
ghost use Rattle.std.specs.Prelude.{◌≡◌};
ghost use Rattle.cf_watch.specs.Calls.{count_in};

/// How often a session has beaten, by the store.
#[derive(Clone, Copy, Debug, PartialEq, Eq)]
pub struct Beat {
    pub session: u64,
    pub count: u64,
}

/// The count of a session in an answer, if the answer tells one. Of two the first counts.
pub(crate) fn count_in(beats: &[Beat], session: u64) -> Option<u64>
    ensures { result ≡ count_in session beats.now }
{
    for beat in beats {
        if beat.session == session {
            return Some(beat.count);
        }
    }
    None
}
