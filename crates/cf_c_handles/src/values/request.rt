//! What a request is given and what it tells, as C has it.
ghost use Rattle.std.specs.Prelude.{◌≡◌, Some};
ghost use Rattle.cf_c_handles.specs.Requests.{as_deadline, stop_of, told_as};

use crate::values::{CfOutcome, CfValue, as_outcome, as_value};
use cf_forms::LimitKind;
use cf_outcome::{Outcome, Value};
use cf_request::Deadline;

/// What a request is opened with: how many stages may be attached later, how many lanes there are, and the caller in whose name it
/// settles stages itself.
#[repr(C)]
#[derive(Clone, Copy)]
pub struct CfRequestSizes {
    pub room: u16,
    pub lanes: u8,
    pub own: u8,
}

/// A stage that is told as settled, 1 and the caller whose claim of it is open then (0 if none is), and its outcome.
#[repr(C)]
#[derive(Clone, Copy)]
pub struct CfTold {
    pub stage: u16,
    pub stop: u16,
    pub outcome: CfOutcome,
}

/// What the host of a request has to do next: how many stages there were to tell, when time has to pass next, whether any of
/// that is new, and of each lane how many stages are ready beyond the jobs that are on their way. The host writes the jobs.
#[repr(C)]
#[derive(Clone, Copy)]
pub struct CfTodo {
    pub told: usize,
    pub moment: u64,
    pub news: u32,
    pub jobs: [u16; 16],
    pub ready: [u16; 16],
}

/// A gathering of a caller of a request. C says who gathers, and by which form. It is told the number of the root.
#[repr(C)]
#[derive(Clone, Copy)]
pub struct CfRequestGathering {
    pub who: u8,
    pub form: u32,
    pub root: u16,
}

/// A compose that a caller of a request attaches. C says who attaches it, its lane, by which form, over which source, and
/// its function's number. It is told the numbers of the relay and of the compose.
#[repr(C)]
#[derive(Clone, Copy)]
pub struct CfRequestComposing {
    pub who: u8,
    pub lane: u8,
    pub form: u32,
    pub source: u16,
    pub function: u16,
    pub relay: u16,
    pub stage: u16,
}

/// A compose of a request that its caller finishes with any stage. C says who finishes it, its relay, and the stage.
#[repr(C)]
#[derive(Clone, Copy)]
pub struct CfRequestLinking {
    pub who: u8,
    pub relay: u16,
    pub stage: u16,
}

/// A join of a request: the stage, how many of its sources have to have values, and whether it is cancelled then (not 0).
#[repr(C)]
#[derive(Clone, Copy)]
pub struct CfRequestJoining {
    pub stage: u16,
    pub wanted: u16,
    pub cancels: u32,
}

/// A moment by which a stage has to be settled, and whether it times out (kind 0), with which code, or gets a value then.
#[repr(C)]
#[derive(Clone, Copy)]
pub struct CfDeadline {
    pub stage: u16,
    pub moment: u64,
    pub kind: u32,
    pub code: u32,
    pub value: CfValue,
}

/// A deadline for C.
pub(crate) fn as_deadline(deadline: Deadline) -> CfDeadline
    ensures { result ≡ as_deadline deadline }
{
    let (kind, code, value) = match deadline.kind {
        LimitKind::Timeout(code) => (0, code, Value::Nil),
        LimitKind::Give(value) => (1, 0, value),
    };
    CfDeadline {
        stage: deadline.stage,
        moment: deadline.moment,
        kind,
        code,
        value: as_value(value),
    }
}

/// Writes a stage that is told, whose claim is open, and its outcome.
#[inline(always)]
pub(crate) fn put_told(
    told: &mut CfTold,
    stage: u16,
    claimant: Option<u8>,
    outcome: Option<Outcome>,
)
    ensures { told.new ≡ told_as stage claimant outcome }
{
    told.stage = stage;
    told.stop = stop_of(claimant);
    told.outcome = as_outcome(outcome);
}

/// 1 and the caller whose claim is open, or 0.
#[inline(always)]
fn stop_of(claimant: Option<u8>) -> u16
    ensures { result ≡ stop_of claimant }
{
    match claimant {
        None => 0,
        Some(who) => 1 + u16::from(who),
    }
}
