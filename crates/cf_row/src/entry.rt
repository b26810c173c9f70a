//! What stands in a row.
ghost use Rattle.std.specs.Prelude.{◌≡◌, eqb};
ghost use Rattle.cf_row.specs.Rows.{session_of};

/// How many tokens a session has.
pub const TOKENS: u64 = 1 << 23;

/// How many sessions there may be.
pub const SESSIONS: u64 = 1 << 39;

/// A word, and the token that names who put it: the session, times 2^23, and a count.
#[derive(Clone, Copy, Debug, PartialEq, Eq)]
pub struct Entry {
    pub word: u64,
    pub token: u64,
}

impl Entry {
    /// The session that put it.
    pub fn session(&self) -> u64
        ensures { result ≡ session_of self.now.token }
    {
        self.token / TOKENS
    }

    /// Whether a session put it.
    pub fn is_of(&self, session: u64) -> bool
        ensures { result ≡ eqb (session_of self.now.token) session }
    {
        self.session() == session
    }
}
