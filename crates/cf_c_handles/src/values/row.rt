//! What a view of a row is given, as C has it.
ghost use Rattle.std.specs.Prelude.{◌≡◌};
ghost use Rattle.cf_c_handles.specs.Rows.{as_claim, entry_of};

use cf_row::{Claim, Entry};

/// An entry of a row: a word, and the token that says who put it.
#[repr(C)]
#[derive(Clone, Copy)]
pub struct CfEntry {
    pub word: u64,
    pub token: u64,
}

/// What a view of a row is opened with: how many stages may be attached later, the session's number, and where its
/// tokens begin to count.
#[repr(C)]
#[derive(Clone, Copy)]
pub struct CfRowOpening {
    pub room: u16,
    pub first: u32,
    pub session: u64,
}

/// A claim that was granted: the session that put it, and its stage.
#[repr(C)]
#[derive(Clone, Copy)]
pub struct CfRowClaim {
    pub session: u64,
    pub stage: u16,
}

/// A claim as C has it.
pub(crate) fn as_claim(claim: Claim) -> CfRowClaim
    ensures { result ≡ as_claim claim }
{
    CfRowClaim {
        session: claim.session,
        stage: claim.stage,
    }
}

/// The entry that C means.
pub fn entry_of(entry: &CfEntry) -> Entry
    ensures { result ≡ entry_of entry.now }
{
    Entry {
        word: entry.word,
        token: entry.token,
    }
}
