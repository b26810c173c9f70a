//! What the notes say of a stage, if it is there.
ghost use Rattle.std.specs.Prelude.{◌≡◌};
ghost use Rattle.cf_notes.specs.Noting.{function_of, given_of, promise_of, timer_of};

use crate::noted::{Noted, Timer};

/// The function of a stage: 0 where the process doesn't know it, and none where the stage has no function.
pub fn function_of(stages: &[Noted], stage: u16) -> Option<u32>
    ensures { result ≡ function_of stages.now stage }
{
    match stages.get(stage as usize) {
        None => None,
        Some(noted) => noted.function,
    }
}

/// The promise that a stage composes.
pub fn promise_of(stages: &[Noted], stage: u16) -> Option<u16>
    ensures { result ≡ promise_of stages.now stage }
{
    match stages.get(stage as usize) {
        None => None,
        Some(noted) => noted.promise,
    }
}

/// The stage that a promise was given.
pub fn given_of(stages: &[Noted], stage: u16) -> Option<u16>
    ensures { result ≡ given_of stages.now stage }
{
    match stages.get(stage as usize) {
        None => None,
        Some(noted) => noted.given,
    }
}

/// The timer of a stage.
pub fn timer_of(stages: &[Noted], stage: u16) -> Option<Timer>
    ensures { result ≡ timer_of stages.now stage }
{
    match stages.get(stage as usize) {
        None => None,
        Some(noted) => noted.timer,
    }
}
