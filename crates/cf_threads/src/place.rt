//! As whom threads claim.

/// As whom a thread claims, and of which lane.
#[derive(Clone, Copy)]
pub struct Place {
    pub who: u8,
    pub lane: u8,
}
