//! How many threads a process has left.
ghost use Rattle.cf_host.specs.Busy.{Leaves, LeavesIn};

use crate::request::Request;

/// How many of so many threads are free: one is taken by each function that runs, by each stage that the session has and
/// whose function wasn't called, and by each claim that is under way.
pub(crate) fn free_threads(requests: &[Request], threads: usize) -> usize
    ensures { Leaves threads requests.now result }
{
    let mut free = threads;
    for request in requests {
        free = free_of(request, free);
    }
    free
}

/// How many are left of so many threads behind what a request takes.
fn free_of(request: &Request, threads: usize) -> usize
    ensures { LeavesIn threads request.now.work result }
{
    match &request.work {
        Some(work) => threads.saturating_sub(work.busy()),
        None => threads,
    }
}
