//! A gate at which threads wait until all of them are there, so that they begin together.
use std::io;
use std::io::Result;
use std::sync::atomic::{AtomicU64, Ordering};
use std::time::{Clock, Duration, Instant};

/// How often a thread looks whether the others are there before it goes on without them.
const PATIENCE: u32 = 100_000_000;

/// It opens as the last of its threads comes, and notes when it opened and when the last of them had ended.
#[derive(Drop)]
pub(crate) struct Gate {
    threads: u64,
    since: Instant,
    came: AtomicU64,
    went: AtomicU64,
    opened: AtomicU64,
    ended: AtomicU64,
}

impl Gate {
    /// A closed gate for so many threads.
    pub(crate) fn new<R: Clock>(rt: &R, threads: u8) -> Result<Gate> {
        Ok(Gate {
            threads: u64::from(threads),
            since: Instant::now(rt)?,
            came: AtomicU64::new(0),
            went: AtomicU64::new(0),
            opened: AtomicU64::new(0),
            ended: AtomicU64::new(0),
        })
    }

    /// Waits until all threads are there.
    pub(crate) fn pass<R: Clock>(&self, rt: &R) {
        let before = self.came.fetch_add(1, Ordering::SeqCst);
        if before.wrapping_add(1) == self.threads {
            self.opened.store(self.moment(rt), Ordering::SeqCst);
            return;
        }
        for _ in 0..PATIENCE {
            if self.opened.load(Ordering::SeqCst) > 0 {
                break;
            }
        }
    }

    /// A thread has done its work.
    pub(crate) fn leave<R: Clock>(&self, rt: &R) {
        let before = self.went.fetch_add(1, Ordering::SeqCst);
        if before.wrapping_add(1) == self.threads {
            self.ended.store(self.moment(rt), Ordering::SeqCst);
        }
    }

    /// The nanoseconds since the gate was made. They are never 0, which is the moment of a gate that is closed.
    fn moment<R: Clock>(&self, rt: &R) -> u64 {
        match self.since.elapsed(rt) {
            Ok(passed) => u64::try_from(passed.as_nanos()).unwrap_or(u64::MAX).max(1),
            Err(_) => 1,
        }
    }

    /// How long it took from the opening to the end of the last thread.
    pub(crate) fn took(&self) -> Result<Duration> {
        let opened = self.opened.load(Ordering::SeqCst);
        let ended = self.ended.load(Ordering::SeqCst);
        if opened == 0 || ended < opened {
            return Err(io::Error::other("the threads didn't run together"));
        }
        Ok(Duration::from_nanos(ended - opened))
    }
}
