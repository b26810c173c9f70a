//! Desks of each size up to the greatest, and those that are refused.
ghost use Rattle.std.specs.Prelude.{◌≡◌, ◌+◌, ◌∷◌, ◌++◌, [], All, vec_len};

use crate::checks::{holds, must, same};
use crate::desk::desks::{last_of, open_desk};
use crate::plans::{SOURCE_AND_SUPPLY, plan_of};
use cf_desk::{Call, Closed, Desk, DeskFault, DeskSizes, OpenFault, Pass};
use cf_forms::Form;
use cf_model::Event;
use cf_outcome::Value;
use cf_plan::{Plan, PlanBuilder};
use std::alloc::Global;
use std::process::Abort;

/// A plan of so many stages. Each but the first has four sources, and the last of 4,096 has eight, so that there are
/// 16,384 edges.
fn plan_of_stages(rt: &impl Abort, alloc: Global, stages: u16) -> Plan {
    let mut builder = PlanBuilder::new(alloc);
    must(rt, builder.stage(Form::Source, &[], None));
    for i in 1..stages {
        let of = [i - 1, i / 2, 0, i - 1, 3, 1, 2, 0];
        let count = if i == 4_095 { 8 } else { 4 };
        must(rt, builder.stage(Form::AllOf, &of[..count], None));
    }
    must(rt, builder.build())
}

/// Completes a stage, and then ticks until a call is refused.
fn fill(desk: &Desk, p: &mut Pass, stage: u16) -> Option<DeskFault>
    requires { p.old.table ≡ desk.now.table }
    ensures { p.new.table ≡ p.old.table }
{
    let mut call = Call::Complete(stage, Value::Nil);
    for now in 0..65_536u32 {
        if let Err(fault) = desk.act(p, call) {
            return Some(fault);
        }
        call = Call::Tick(now);
    }
    None
}

/// Puts a pass back behind the others.
fn put_back(rt: &impl Abort, passes: &mut Vec<Pass>, pass: Pass)
    ensures items { passes.new.items ≡ passes.old.items ++ pass ∷ [] }
    ensures len { vec_len passes.new ≡ vec_len passes.old + 1 }
{
    must(rt, passes.push(pass));
}

/// The same by the last of these passes.
fn fill_by_last(
    rt: &impl Abort,
    desk: &Desk,
    passes: &mut Vec<Pass>,
    stage: u16,
) -> Option<DeskFault>
    requires { All (λ p. p.table ≡ desk.now.table) passes.old.items }
    ensures table { All (λ p. p.table ≡ desk.now.table) passes.new.items }
    ensures count { vec_len passes.new ≡ vec_len passes.old }
{
    let mut pass = last_of(rt, desk, passes);
    let fault = fill(desk, &mut pass, stage);
    put_back(rt, passes, pass);
    fault
}

/// Opens a desk of these sizes, fills it by its last caller, which completes the last stage, and closes it.
fn filled(
    rt: &impl Abort,
    alloc: Global,
    stages: u16,
    callers: u8,
    log: u16,
    calls: u16,
) -> (Option<DeskFault>, Closed) {
    let plan = plan_of_stages(rt, alloc, stages);
    let sizes = DeskSizes {
        callers,
        log,
        calls,
    };
    let (desk, mut passes) = open_desk(rt, alloc, plan, sizes);
    let fault = fill_by_last(rt, &desk, &mut passes, stages.wrapping_sub(1));
    (fault, must(rt, desk.close(passes)))
}

/// Whether a history has so many events, of which this is the first.
fn begins_with(history: &[Event], count: usize, first: &Event) -> bool {
    history.len() == count && history.first() == Some(first)
}

/// Opens and fills a desk of these sizes: by as many events as the log and the last pass have room for, the first a
/// completion of the last stage by the last caller.
fn check_size(rt: &impl Abort, alloc: Global, stages: u16, callers: u8, log: u16, calls: u16) {
    let (fault, closed) = filled(rt, alloc, stages, callers, log, calls);
    let full = if calls <= log {
        DeskFault::PassFull
    } else {
        DeskFault::LogFull
    };
    let first = Event::Complete {
        who: callers.wrapping_sub(1),
        stage: stages.wrapping_sub(1),
        value: Value::Nil,
    };
    let has_all = begins_with(&closed.history, log.min(calls) as usize, &first);
    drop(closed);
    holds(
        rt,
        fault == Some(full) && has_all,
        (stages, callers, log, calls),
    );
}

#[test]
fn opens_for_each_number_of_callers(rt: HostRuntime) {
    for callers in 1..=64u8 {
        check_size(&rt, rt.alloc(), 1, callers, 1, 2);
    }
}

/// A log of so many words, passes of so many records, and as many stages as there may be of so many.
fn check_each(rt: &impl Abort, alloc: Global, size: u32) {
    let size = size.clamp(1, 65_535) as u16;
    check_size(rt, alloc, 1, 1, size, 2);
    check_size(rt, alloc, 1, 1, 2, size);
    check_size(rt, alloc, size.min(4_096), 1, 2, 2);
}

#[test]
fn opens_at_each_kind_of_size(rt: HostRuntime) {
    for bits in 0..=16u32 {
        let power = 1u32 << bits;
        check_each(&rt, rt.alloc(), power - 1);
        check_each(&rt, rt.alloc(), power);
        check_each(&rt, rt.alloc(), power + 1);
    }
}

#[test]
fn opens_for_the_most_records(rt: HostRuntime) {
    check_size(&rt, rt.alloc(), 4_096, 64, 65_535, 1_000);
    check_size(&rt, rt.alloc(), 1, 2, 65_535, 65_535);
    check_size(&rt, rt.alloc(), 1, 64, 1, 65_535);
}

/// Callers, words and records, and why a desk of so many can't be opened.
static REFUSED: [(u8, u16, u16, OpenFault); 4] = [
    (0, 0, 0, OpenFault::Callers),
    (65, 1, 1, OpenFault::Callers),
    (1, 0, 0, OpenFault::Log),
    (64, 1, 0, OpenFault::Calls),
];

/// Why a desk of these sizes can't be opened, if it can't.
fn refused(rt: &impl Abort, alloc: Global, callers: u8, log: u16, calls: u16) -> Option<OpenFault> {
    let plan = plan_of(rt, alloc, &SOURCE_AND_SUPPLY);
    let sizes = DeskSizes {
        callers,
        log,
        calls,
    };
    Desk::open(alloc, plan, sizes).err()
}

#[test]
fn refuses_to_open(rt: HostRuntime) {
    for (callers, log, calls, fault) in &REFUSED {
        let told = refused(&rt, rt.alloc(), *callers, *log, *calls);
        same(&rt, told, Some(*fault));
    }
}
