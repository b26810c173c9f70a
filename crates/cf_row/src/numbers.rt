//! Callers' numbers: a session takes the lowest that no entry has, and keeps it. Where all are taken it shares one.
ghost use Rattle.std.specs.Prelude.{◌≡◌, ◌≢◌, ◌%◌, ◌<◌, ◌≤◌, ℕ, All, Contains, IfNone, IfSome};
ghost use Rattle.std.specs.Bool.{OnFalse, OnTrue};
ghost use Rattle.cf_row.specs.Numbers.{AreAllTaken, FollowsRule, numbers_in};
ghost use Rattle.cf_row.specs.Rows.{session_of};
ghost use Rattle.cf_row.specs.Puts.{pairs_of, who_at};

use crate::entry::Entry;
use cf_event::decode;

/// How many callers' numbers there are.
const CALLERS: u8 = 64;

/// The caller of a word, or 0 where it is no event's.
fn who_at(word: u64) -> u8
    ensures { result ≡ who_at word }
{
    match decode(word) {
        Some(event) => event.who(),
        None => 0,
    }
}

/// A session's number in a row: that of its first entry; or the lowest that no entry has; or where all are taken, the
/// one that it shares.
pub(crate) fn number_in(seen: &[Entry], session: u64) -> u8
    ensures { FollowsRule (pairs_of seen.now) (session, result) }
{
    match number_of(seen, session) {
        Some(who) => who,
        None => new_number(seen, session),
    }
}

/// The number of a session's first entry, if it has one.
pub(crate) fn number_of(seen: &[Entry], session: u64) -> Option<u8>
    ensures there { IfSome result (λ who. Contains (pairs_of seen.now) (session, who)) }
    ensures none { IfNone result (All (λ x. session_of x.token ≢ session) seen.now) }
{
    for entry in seen {
        if entry.is_of(session) {
            return Some(who_at(entry.word));
        }
    }
    None
}

/// The number of a session that has put none.
fn new_number(seen: &[Entry], session: u64) -> u8
    requires { All (λ x. session_of x.token ≢ session) seen.now }
    ensures { FollowsRule (pairs_of seen.now) (session, result) }
{
    for who in 0..CALLERS {
        if is_free(seen, who) {
            return who;
        }
    }
    (session % CALLERS as u64) as u8
}

/// Whether no entry has this number.
fn is_free(seen: &[Entry], who: u8) -> bool
    ensures free { OnTrue result (All (λ x. who_at x.word ≢ who) seen.now) }
    ensures taken { OnFalse result (Contains (numbers_in (pairs_of seen.now)) who) }
{
    for entry in seen {
        if who_at(entry.word) == who {
            return false;
        }
    }
    true
}
