//! A caller that heeds, on a thread of its own, what another one has seen.
ghost use Rattle.std.specs.Prelude.{◌≡◌, IfSome};

use crate::desk::desks::act_all;
use cf_desk::{Call, Desk, Notice, Pass};
use std::thread;
use std::thread::Threads;

/// Heeds the notice, if it is still there.
fn heed_kept(desk: &Desk, p: &mut Pass, kept: &mut Option<Notice>)
    requires pass { p.old.table ≡ desk.now.table }
    requires notice { IfSome kept.old (λ notice. notice.table ≡ desk.now.table) }
    ensures { p.new.table ≡ p.old.table }
{
    if let Some(notice) = kept.take() {
        desk.heed(p, notice);
    }
}

/// One caller tells what it has seen, and makes calls while the other one heeds that.
pub(crate) fn heed_beside<R: Threads + Sync>(
    rt: &R,
    desk: &Desk,
    tells: &mut Pass,
    heeds: &mut Pass,
    calls: &[Call],
)
    requires { (tells.old.table ≡ desk.now.table) × (heeds.old.table ≡ desk.now.table) }
    ensures { (tells.new.table ≡ tells.old.table) × (heeds.new.table ≡ heeds.old.table) }
{
    let mut kept = Some(desk.notice(tells));
    thread::join_mut(
        rt,
        &mut || heed_kept(desk, heeds, &mut kept),
        &mut || act_all(desk, tells, calls),
    );
}
