//! A caller that joins a stage while another one works, each on a thread of its own.
ghost use Rattle.std.specs.Prelude.{◌≡◌};

use crate::desk::desks::act_all;
use cf_desk::{Call, Desk, Pass};
use std::sync::atomic::{AtomicBool, Ordering};
use std::thread;
use std::thread::Threads;

/// What one caller does while the other one joins a stage.
#[derive(Clone, Copy)]
pub(crate) struct Work {
    /// The calls before the other one starts to join.
    pub(crate) before: &'static [Call],
    /// The calls a while after that.
    pub(crate) after: &'static [Call],
    /// The stage that is joined.
    pub(crate) stage: u16,
}

/// What each caller has come to.
#[derive(Drop)]
struct Flags {
    has_begun: AtomicBool,
    joins: AtomicBool,
}

/// Waits until the flag is set, at most 1,000,000,000 looks.
fn wait_for(flag: &AtomicBool) {
    for _ in 0..1_000_000_000u32 {
        if flag.load(Ordering::SeqCst) {
            return;
        }
    }
}

/// Looks at a flag that is set 10,000,000 times.
fn pass_time(flag: &AtomicBool) {
    for _ in 0..10_000_000u32 {
        if !flag.load(Ordering::SeqCst) {
            return;
        }
    }
}

/// Does the first calls, and the others a while after the other caller has come to its join.
fn do_work(desk: &Desk, p: &mut Pass, work: Work, flags: &Flags)
    requires { p.old.table ≡ desk.now.table }
    ensures { p.new.table ≡ p.old.table }
{
    act_all(desk, p, work.before);
    flags.has_begun.store(true, Ordering::SeqCst);
    wait_for(&flags.joins);
    pass_time(&flags.joins);
    act_all(desk, p, work.after);
}

/// Joins the stage, once the other caller has done its first calls.
fn join_stage(desk: &Desk, p: &mut Pass, stage: u16, flags: &Flags)
    requires { p.old.table ≡ desk.now.table }
    ensures { p.new.table ≡ p.old.table }
{
    wait_for(&flags.has_begun);
    flags.joins.store(true, Ordering::SeqCst);
    let _ = desk.join(p, stage, 1_000_000_000);
}

/// One caller works, and the other one joins.
pub(crate) fn join_beside<R: Threads + Sync>(
    rt: &R,
    desk: &Desk,
    works: &mut Pass,
    joins: &mut Pass,
    work: Work,
)
    requires { (works.old.table ≡ desk.now.table) × (joins.old.table ≡ desk.now.table) }
    ensures { (works.new.table ≡ works.old.table) × (joins.new.table ≡ joins.old.table) }
{
    let flags = Flags {
        has_begun: AtomicBool::new(false),
        joins: AtomicBool::new(false),
    };
    thread::join_mut(
        rt,
        &mut || do_work(desk, works, work, &flags),
        &mut || join_stage(desk, joins, work.stage, &flags),
    );
}
