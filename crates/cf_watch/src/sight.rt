//! What is known of one session.
ghost use Rattle.std.specs.Prelude.{◌≡◌};
ghost use Rattle.cf_watch.specs.Watches.{is_gone_by, is_news, left_of, sight_after, sight_of, span_from};

/// What is known of a session: it was noticed, and no answer came since; or an answer came behind which it had this count,
/// if any, and so much of its lease is left, `None` if it is gone.
#[derive(Clone, Copy, Debug, PartialEq, Eq)]
pub enum Sight {
    Noticed,
    Seen {
        count: Option<u64>,
        left: Option<u64>,
    },
}

/// A session of which something is known.
#[derive(Clone, Copy, Debug, PartialEq, Eq)]
pub struct Known {
    pub session: u64,
    pub sight: Sight,
}

/// What is known of a session among these.
pub(crate) fn sight_of(known: &[Known], session: u64) -> Option<Sight>
    ensures { result ≡ sight_of session known.now }
{
    for one in known {
        if one.session == session {
            return Some(one.sight);
        }
    }
    None
}

/// Whether a session of which this is known is gone.
pub(crate) fn is_gone_by(sight: Option<Sight>) -> bool
    ensures { result ≡ is_gone_by sight }
{
    match sight {
        Some(Sight::Seen { left: None, .. }) => true,
        _ => false,
    }
}

/// What counts of the time up to a question: that since the last answer, half a lease at most.
pub(crate) fn span_from(lease: u64, last: Option<u64>, asked: u64) -> u64
    ensures { result ≡ span_from lease last asked }
{
    match last {
        Some(last) => asked.saturating_sub(last).min(lease / 2),
        None => 0,
    }
}

/// What is left of a lease behind some time, `None` if that is more.
fn left_of(left: Option<u64>, time: u64) -> Option<u64>
    ensures { result ≡ left_of left time }
{
    match left {
        Some(left) if time <= left => Some(left - time),
        _ => None,
    }
}

/// Whether an answer tells another count than the one before.
fn is_news(count: Option<u64>, told: Option<u64>) -> bool
    ensures { result ≡ is_news count told }
{
    match (count, told) {
        (_, None) => false,
        (None, Some(_)) => true,
        (Some(before), Some(now)) => before != now,
    }
}

/// What is known of a session behind an answer that tells this count of it, and before which so much time counts.
pub(crate) fn sight_after(lease: u64, time: u64, told: Option<u64>, sight: Sight) -> Sight
    ensures { result ≡ sight_after lease time told sight }
{
    match sight {
        Sight::Seen { count, left } if !is_news(count, told) => Sight::Seen {
            count,
            left: left_of(left, time),
        },
        _ => Sight::Seen {
            count: told,
            left: Some(lease),
        },
    }
}
