//! How desks are opened.
ghost use Rattle.std.specs.Prelude.{◌≡◌, ◌↔◌, All, IfErr, IfOk, IsTrue, length, vec_len};
ghost use Rattle.std.specs.Arc.{arc_value};
ghost use Rattle.cf_desk.specs.Faults.{AreCounts};
ghost use Rattle.cf_c_handles.specs.declared.code.Code.TheVariants.{NoMemory};
ghost use Rattle.cf_c_handles.specs.Opening.{AreBehind, AreBoxed, AreEmpty, AreGrowingCounts, ArePut, DeskOf, GrowingDeskOf, IsCallerOf, IsNewDesk, growing_of, is_due, is_due_to_grow, setting_of, sizes_of};

use crate::code::{Code, open_code};
use crate::handle::object::{Caller, Object};
use crate::handle::{CfHandle, box_of};
use cf_desk::{Desk, DeskGrowth, DeskSizes, OpenFault, Pass};
use cf_plan::Plan;
use std::alloc::{AllocError, Global};
use std::sync::Arc;

/// How much a desk is to hold: events, records of each caller, stages that callers attach later, and functions.
#[repr(C)]
#[derive(Clone, Copy)]
pub struct CfDeskSizes {
    pub log: u16,
    pub calls: u16,
    pub room: u16,
    pub functions: u32,
}

/// Opens a desk of a plan, and seats its callers behind these handles, if they are empty.
pub fn open(
    alloc: Global,
    held: &Object,
    callers: &mut [CfHandle],
    log: u16,
    calls: u16,
) -> Result<(), Code>
    ensures { DeskOf setting_of (is_due log calls) log calls held.now callers.old result callers.new }
{
    let Object::Plan(plan) = held else {
        return Err(Code::WrongKind);
    };
    if !are_empty(callers) {
        return Err(Code::Full);
    }
    match desk_of(alloc, plan, callers.len(), log, calls) {
        Ok((desk, passes)) => seat_all(alloc, desk, passes, callers),
        Err(fault) => Err(open_code(fault)),
    }
}

/// The same with room.
pub fn open_growing(
    alloc: Global,
    held: &Object,
    callers: &mut [CfHandle],
    sizes: CfDeskSizes,
) -> Result<(), Code>
    ensures { GrowingDeskOf sizes held.now callers.old result callers.new }
{
    let Object::Plan(plan) = held else {
        return Err(Code::WrongKind);
    };
    if !are_empty(callers) {
        return Err(Code::Full);
    }
    let CfDeskSizes {
        log,
        calls,
        room,
        functions,
    } = sizes;
    match growing_desk_of(alloc, plan, callers.len(), log, calls, room, functions) {
        Ok((desk, passes)) => seat_all(alloc, desk, passes, callers),
        Err(fault) => Err(open_code(fault)),
    }
}

/// A desk of a plan with so many callers, and its passes.
fn desk_of(
    alloc: Global,
    plan: &Plan,
    callers: usize,
    log: u16,
    calls: u16,
) -> Result<(Desk, Vec<Pass>), OpenFault>
    ensures opened { IfOk result (λ r. IsNewDesk (setting_of plan.now callers) log calls r.0 r.1.items) }
    ensures table { IfOk result (λ r. All (λ p. p.table ≡ r.0.table) r.1.items × (vec_len r.1 ≡ callers)) }
    ensures counts { IfOk result (λ r. AreCounts (sizes_of callers log calls)) }
    ensures fault { IfErr result (is_due log calls plan.now callers) }
{
    match u8::try_from(callers) {
        Ok(callers) => {
            let sizes = DeskSizes {
                callers,
                log,
                calls,
            };
            Desk::open_of(alloc, plan, sizes)
        }
        Err(_) => Err(OpenFault::Callers),
    }
}

/// The same with room.
fn growing_desk_of(
    alloc: Global,
    plan: &Plan,
    callers: usize,
    log: u16,
    calls: u16,
    room: u16,
    functions: u32,
) -> Result<(Desk, Vec<Pass>), OpenFault>
    ensures opened { IfOk result (λ r. IsNewDesk (growing_of room functions plan.now callers) log calls r.0 r.1.items) }
    ensures table { IfOk result (λ r. All (λ p. p.table ≡ r.0.table) r.1.items × (vec_len r.1 ≡ callers)) }
    ensures counts { IfOk result (λ r. AreGrowingCounts plan.now callers log calls room functions) }
    ensures fault { IfErr result (is_due_to_grow log calls room functions plan.now callers) }
{
    match u8::try_from(callers) {
        Ok(callers) => {
            let sizes = DeskSizes {
                callers,
                log,
                calls,
            };
            Desk::open_growing_of(alloc, plan, sizes, DeskGrowth { room, functions })
        }
        Err(_) => Err(OpenFault::Callers),
    }
}

/// Whether nothing stands behind any of these handles.
fn are_empty(callers: &[CfHandle]) -> bool
    ensures { IsTrue result ↔ AreEmpty callers.now }
{
    'each: for h in callers {
        if h.is_full() {
            return false;
        }
    }
    true
}

/// Seats the callers of a new desk behind these handles, as many as it has passes. Where memory is refused they stay.
#[tactic(auto, using(crate::proofs::Seats::boxed_count, crate::proofs::Seats::behind_of))]
fn seat_all(
    alloc: Global,
    desk: Desk,
    passes: Vec<Pass>,
    callers: &mut [CfHandle],
) -> Result<(), Code>
    requires table { All (λ p. p.table ≡ desk.table) passes.items }
    requires count { vec_len passes ≡ length callers.old }
    ensures seated { IfOk result (λ done. AreBehind desk passes.items callers.new) }
    ensures refused { IfErr result (λ code. (code ≡ NoMemory) × (callers.new ≡ callers.old)) }
{
    put_all(callers, boxed(alloc, desk, passes)?);
    Ok(())
}

/// The callers of a new desk, as they are put behind handles.
fn boxed(alloc: Global, desk: Desk, passes: Vec<Pass>) -> Result<Vec<Box<Object>>, AllocError>
    requires { All (λ p. p.table ≡ desk.table) passes.items }
    ensures { IfOk result (λ held. AreBoxed desk passes.items held.items) }
{
    let shared = Arc::new(alloc, desk)?;
    let mut held = Vec::with_capacity(alloc, passes.len())?;
    let mut rest = passes.into_iter();
    'next: while let Some(pass) = rest.next() {
        let caller = seat(alloc, &shared, pass)?;
        held.push_reserved(caller);
    }
    Ok(held)
}

/// The caller with this pass.
fn seat(alloc: Global, desk: &Arc<Desk, Global>, pass: Pass) -> Result<Box<Object>, AllocError>
    requires { pass.table ≡ (arc_value desk.now).table }
    ensures { IfOk result (λ held. IsCallerOf (arc_value desk.now) pass held.value) }
{
    match Arc::try_clone(desk) {
        Ok(desk) => box_of(alloc, Object::Caller(Caller { desk, pass })),
        Err(refused) => {
            drop(pass);
            Err(refused)
        }
    }
}

/// Puts these behind as many handles.
fn put_all(handles: &mut [CfHandle], held: Vec<Box<Object>>)
    requires { vec_len held ≡ length handles.old }
    ensures { ArePut held.items handles.new }
{
    let mut rest = held.into_iter();
    'next: for i in 0..handles.len() {
        if let Some(held) = rest.next() {
            handles[i].put(held);
        }
    }
}
