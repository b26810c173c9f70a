//! What is said for people alone.
use cf_model::Reply;
use std::alloc::Global;

/// What a host, an account or a script says for people alone. Each list may be shorter than what it is of, or empty.
#[derive(Drop)]
pub struct People {
    /// What the account is of.
    pub name: String,
    /// The verdict on it, in words.
    pub verdict: String,
    /// Whether the verdict is that it fits.
    pub fits: bool,
    /// A name for each stage. An empty one counts as none.
    pub names: Vec<String>,
    /// When each event was done, in nanoseconds from any moment on.
    pub times: Vec<u64>,
    /// A name for each caller.
    pub lanes: Vec<String>,
    /// What the value n stands for.
    pub values: Vec<String>,
    /// What the code n of a fault stands for.
    pub errors: Vec<String>,
    /// A stage, and the higher one for which it stands in.
    pub relays: Vec<(u16, u16)>,
    /// What the account says that each event was answered.
    pub replies: Vec<Option<Reply>>,
}

impl People {
    /// Of one who says nothing.
    pub fn new(alloc: Global) -> People {
        People {
            name: String::new(alloc),
            verdict: String::new(alloc),
            fits: true,
            names: Vec::new(alloc),
            times: Vec::new(alloc),
            lanes: Vec::new(alloc),
            values: Vec::new(alloc),
            errors: Vec::new(alloc),
            relays: Vec::new(alloc),
            replies: Vec::new(alloc),
        }
    }

    /// The name of a stage, if it has one.
    pub(crate) fn name_of(&self, stage: u16) -> Option<&str> {
        match self.names.get(stage as usize) {
            Some(name) if !name.is_empty() => Some(name.as_str()),
            _ => None,
        }
    }

    /// How long after the first event the one behind `k` others was done, in nanoseconds, if each has a time.
    pub fn since(&self, count: usize, k: usize) -> Option<u64> {
        if self.times.len() != count {
            return None;
        }
        let first = *self.times.first()?;
        Some(self.times.get(k)?.saturating_sub(first))
    }
}
