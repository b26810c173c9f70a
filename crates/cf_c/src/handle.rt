//! How a call looks behind its handle, and what it gives C.
ghost use Rattle.std.specs.Prelude.{◌≡◌, None};
ghost use Rattle.cf_c_handles.specs.Answers.{Codes, HandleGives};

use cf_c_handles::code::Code;
use cf_c_handles::handle::{CfHandle, free};
use std::alloc::Global;

/// Asks what stands behind a handle, and gives C the code, and where that is 0 the answer.
macro_rules! tell {
    ($alloc:expr, $h:expr, $out:expr, $held:ident => $ask:expr) => {
        match $h.take($alloc) {
            None => cf_c_handles::code::Code::Empty.number(),
            Some(mut $held) => {
                let told = $ask;
                $h.put($held);
                $crate::handle::give(told, $out)
            }
        }
    };
}

/// The same where a code is all that C gets.
macro_rules! ask {
    ($alloc:expr, $h:expr, $held:ident => $ask:expr) => {
        match $h.take($alloc) {
            None => cf_c_handles::code::Code::Empty.number(),
            Some(mut $held) => {
                let done = $ask;
                $h.put($held);
                $crate::handle::code_of(done)
            }
        }
    };
}

pub(crate) use ask;
pub(crate) use tell;

/// Gives C what it is told: the code, and where that is 0 the answer.
#[inline(always)]
pub(crate) fn give<X: Drop>(told: Result<X, Code>, out: &mut X) -> u32
    ensures { HandleGives told result out.old out.new }
{
    match told {
        Ok(answer) => {
            *out = answer;
            0
        }
        Err(code) => code.number(),
    }
}

/// The code of what was done or not.
#[inline(always)]
pub(crate) fn code_of(done: Result<(), Code>) -> u32
    ensures { Codes done result }
{
    match done {
        Ok(()) => 0,
        Err(code) => code.number(),
    }
}

/// Frees what stands behind a handle, and leaves the handle empty.
#[unsafe(no_mangle)]
pub extern "C" fn cf_free(alloc: Global, h: &mut CfHandle)
    ensures { h.new.inner.held ≡ None }
{
    free(alloc, h)
}
