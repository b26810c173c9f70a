//! How much a race needs.
ghost use Rattle.std.specs.Prelude.{◌<◌, ◌≤◌, MatchOption};
ghost use Rattle.cf_pool.specs.Races.{AreRaceSizes, log_words};

use cf_desk::DeskSizes;

/// The sizes of the desk of a race, with so many steps, stages and workers: a caller for each worker beside caller 0, and
/// one word and one record more than the race can need. There are none if the log would have more than 65,535 words.
pub(crate) fn sizes(steps: usize, stages: u16, workers: u8) -> Option<DeskSizes>
    requires workers { (0 < workers) × (workers ≤ 32) }
    ensures { MatchOption result (65535 < log_words steps stages workers) (AreRaceSizes steps stages workers) }
{
    if steps > 65_535 {
        return None;
    }
    let steps = steps as u32;
    let stages = u32::from(stages);
    let words = steps + stages * (u32::from(workers) + 2) + 1;
    if words > 65_535 {
        return None;
    }
    let calls = steps + 2 * stages + 1;
    Some(DeskSizes {
        callers: workers + 1,
        log: words as u16,
        calls: calls as u16,
    })
}
