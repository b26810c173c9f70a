//! Whether others take this session for gone: they fail stages whose claims are its own.
ghost use Rattle.std.specs.Prelude.{◌≡◌, length};
ghost use Rattle.std.specs.Bool.{OnFalse, OnTrue};
ghost use Rattle.cf_host.specs.Lost.{HasLost, HasLostIn, HasOpenClaim, IsLost, NoneLost, NoneLostIn, is_fail, stage_in};

use crate::request::Request;
use cf_part::{Entry, Replica};
use cf_row::laws::claims_are_one_sessions;

impl Request {
    /// Whether one of these entries fails a stage whose claim is this session's and open, and another session put it.
    pub(crate) fn has_lost(&self, entries: &[Entry]) -> bool
        ensures lost { OnTrue result (HasLostIn self.now.work entries.now) }
        ensures none { OnFalse result (NoneLostIn self.now.work entries.now) }
    {
        match self.part() {
            Some(part) => has_lost(part.view(), entries),
            None => false,
        }
    }
}

/// The same of a view.
fn has_lost(view: &Replica, entries: &[Entry]) -> bool
    ensures lost { OnTrue result (HasLost view.now entries.now) }
    ensures none { OnFalse result (NoneLost view.now (length entries.now) entries.now) }
{
    for place in 0..entries.len() {
        if is_lost(view, entries[place]) {
            return true;
        }
    }
    false
}

/// The same of one entry.
fn is_lost(view: &Replica, entry: Entry) -> bool
    ensures lost { OnTrue result (IsLost view.now entry) }
    ensures none { OnFalse result (¬ IsLost view.now entry) }
{
    if !is_fail(entry.word) || entry.is_of(view.session()) {
        return false;
    }
    has_open_claim(view, stage_in(entry.word))
}

/// Whether the claim of a stage is this session's and open.
fn has_open_claim(view: &Replica, stage: u16) -> bool
    ensures has { OnTrue result (HasOpenClaim view.now stage) }
    ensures none { OnFalse result (¬ HasOpenClaim view.now stage) }
{
    claims_are_one_sessions();
    match view.open_claim(stage) {
        Some(claim) => claim.stage == stage && claim.session == view.session(),
        None => false,
    }
}

/// Whether a word fails a stage.
fn is_fail(word: u64) -> bool
    ensures { result ≡ is_fail word }
{
    word >> 56 == 2
}

/// The stage of a word.
fn stage_in(word: u64) -> u16
    ensures { result ≡ stage_in word }
{
    ((word >> 36) % 4096) as u16
}
