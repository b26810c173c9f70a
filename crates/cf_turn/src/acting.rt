//! What becomes of an act.
ghost use Rattle.std.specs.Prelude.{◌≡◌, ◌≤◌};
ghost use Rattle.cf_turn.specs.Works.{end_told, stage_of, wish_told};

use crate::wish::{End, Told, Wish};
use cf_due::Act;
use cf_forms::composes;
use cf_part::Fault;

/// The stage of an act that stands behind so many stages: the one that it names, or that it attached. One that composes
/// comes behind its promise.
pub(crate) fn stage_of(act: Act, stages: u16) -> u16
    requires { stages ≤ 4096 }
    ensures { result ≡ stage_of stages act }
{
    match act {
        Act::Complete { stage }
        | Act::Fail { stage }
        | Act::Cancel { stage, .. }
        | Act::Limit { stage, .. } => stage,
        Act::Attach { form, .. } if composes(form) => stages + 1,
        Act::Attach { .. } | Act::Again { .. } => stages,
    }
}

/// What the user of an act is to be told by now, if anything.
pub(crate) fn wish_told(wish: Wish, fault: Option<Fault>, now: u64) -> Option<Told>
    ensures { result ≡ wish_told fault now wish }
{
    if wish.answer.is_some() {
        return wish.answer;
    }
    match fault {
        Some(fault) => Some(Told::Ended(fault)),
        None if wish.until <= now => Some(Told::Unknown),
        None => None,
    }
}

/// What a user is to be told by now who ends the request, if anything.
pub(crate) fn end_told(end: End, fault: Option<Fault>, is_closed: bool, now: u64) -> Option<Told>
    ensures { result ≡ end_told fault is_closed now end }
{
    match fault {
        Some(fault) => Some(Told::Ended(fault)),
        None if is_closed => Some(Told::Closed),
        None if end.until <= now => Some(Told::Unknown),
        None => None,
    }
}
