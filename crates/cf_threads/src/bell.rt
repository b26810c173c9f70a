//! Where threads rest.
ghost use Rattle.std.specs.Sync.Mutex.{mutex_guard_value};
ghost use Rattle.cf_request.specs.Lanes.{NothingIsReady};

use crate::desk::Desk;
use crate::news::News;
use crate::room::Room;
use std::sync::{Condvar, MutexGuard, Wait};

/// Wakes the threads that rest. Nobody can wait for it but by `rest`.
#[derive(Drop)]
pub struct Bell {
    more: Condvar,
}

impl Bell {
    /// One for which nobody waits.
    pub fn new() -> Bell {
        Bell {
            more: Condvar::new(),
        }
    }

    /// Wakes all that rest, if there is news.
    pub fn ring(&self, news: Option<News>) {
        if let Some(news) = news {
            news.told();
            self.more.notify_all();
        }
    }

    /// Leaves the lock, and waits for the next news. Whoever rests has just seen, under the lock, that no stage of its
    /// lane is ready.
    pub fn rest<'a, B: Room, R: Wait>(
        &self,
        rt: &R,
        seen: MutexGuard<'a, Desk<B>>,
        lane: u8,
    ) -> MutexGuard<'a, Desk<B>>
        requires { NothingIsReady (mutex_guard_value seen).machine.teller lane }
    {
        let _lane = lane;
        self.more.wait(rt, seen)
    }
}
