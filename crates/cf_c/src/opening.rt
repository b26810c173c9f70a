//! How desks are opened.
ghost use Rattle.cf_c_handles.specs.Handles.{HandleOpensDesk};
ghost use Rattle.cf_c_handles.specs.Opening.{FixedDeskOf, GrowingDeskOf};

use crate::handle::code_of;
use cf_c_handles::code::Code;
use cf_c_handles::desk::opening::{CfDeskSizes, open, open_growing};
use cf_c_handles::handle::CfHandle;
use std::alloc::Global;

/// Opens a desk of the plan behind a handle, with a caller for each of the other handles, which are empty.
#[unsafe(no_mangle)]
pub extern "C" fn cf_desk_open(
    alloc: Global,
    plan: &mut CfHandle,
    callers: &mut [CfHandle],
    log: u16,
    calls: u16,
) -> u32
    ensures { HandleOpensDesk (FixedDeskOf log calls) plan.old plan.new result callers.old callers.new }
{
    match plan.take(alloc) {
        None => Code::Empty.number(),
        Some(held) => {
            let done = open(alloc, &held, callers, log, calls);
            plan.put(held);
            code_of(done)
        }
    }
}

/// The same with room for stages that callers attach later, and with a number of functions.
#[unsafe(no_mangle)]
pub extern "C" fn cf_desk_open_with(
    alloc: Global,
    plan: &mut CfHandle,
    callers: &mut [CfHandle],
    sizes: &CfDeskSizes,
) -> u32
    ensures { HandleOpensDesk (GrowingDeskOf sizes.now) plan.old plan.new result callers.old callers.new }
{
    match plan.take(alloc) {
        None => Code::Empty.number(),
        Some(held) => {
            let done = open_growing(alloc, &held, callers, *sizes);
            plan.put(held);
            code_of(done)
        }
    }
}
