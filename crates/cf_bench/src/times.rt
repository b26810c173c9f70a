//! The times of many rounds of the same work.
use std::alloc::Global;
use std::fmt;
use std::io::Result;
use std::time::{Clock, Duration, Instant};

/// Work that is done in rounds.
pub(crate) trait Work<R> {
    /// Does one more round, and adds what it took.
    fn round(&mut self, rt: &R, times: &mut Times) -> Result<()>;
}

/// What so many rounds took, each of which does so many parts of work.
pub(crate) fn measured<R, W: Work<R>>(
    rt: &R,
    alloc: Global,
    rounds: u32,
    parts: u16,
    work: &mut W,
) -> Result<Shown> {
    let mut times = Times::new(alloc);
    measure(rt, &mut times, rounds, parts, work)
}

/// Adds to the times what so many rounds took, and answers their best and their median.
fn measure<R, W: Work<R>>(
    rt: &R,
    times: &mut Times,
    rounds: u32,
    parts: u16,
    work: &mut W,
) -> Result<Shown> {
    times.reserve(rounds)?;
    for _ in 0..rounds {
        work.round(rt, times)?;
    }
    Ok(times.a_part(parts))
}

/// How long each round took, in nanoseconds.
#[derive(Drop)]
pub(crate) struct Times {
    rounds: Vec<u64>,
}

impl Times {
    /// No times yet.
    pub(crate) fn new(alloc: Global) -> Times {
        Times {
            rounds: Vec::new(alloc),
        }
    }

    /// Makes room for the times of so many rounds.
    pub(crate) fn reserve(&mut self, rounds: u32) -> Result<()> {
        Ok(self.rounds.reserve(rounds as usize)?)
    }

    /// One more round.
    pub(crate) fn add(&mut self, took: Duration) -> Result<()> {
        let nanos = u64::try_from(took.as_nanos()).unwrap_or(u64::MAX);
        Ok(self.rounds.push(nanos)?)
    }

    /// One more round, from when it began until now.
    pub(crate) fn add_since<R: Clock>(&mut self, rt: &R, start: Instant) -> Result<()> {
        let took = start.elapsed(rt)?;
        self.add(took)
    }

    /// The best and the median of the rounds, each of which did so many parts of work.
    pub(crate) fn a_part(&mut self, parts: u16) -> Shown {
        self.rounds.sort_unstable();
        let rounds = self.rounds.len();
        Shown {
            best: self.picos(0, parts),
            median: self.picos(rounds / 2, parts),
            rounds,
        }
    }

    /// The picoseconds a part of the round at this place, 0 where there is none.
    fn picos(&self, place: usize, parts: u16) -> u64 {
        let nanos = self.rounds.get(place).copied().unwrap_or(0);
        nanos.saturating_mul(1000) / u64::from(parts).max(1)
    }
}

/// What is shown of the times of some rounds, in picoseconds.
#[derive(Clone, Copy)]
pub(crate) struct Shown {
    best: u64,
    median: u64,
    rounds: usize,
}

impl fmt::Display for Shown {
    fn fmt<W: fmt::Write>(&self, f: &mut fmt::Formatter<W>) -> fmt::Result {
        let Shown {
            best,
            median,
            rounds,
        } = self;
        write!(f, "best {best} ps, median {median} ps, {rounds} rounds")
    }
}
