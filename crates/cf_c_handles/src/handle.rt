//! What C keeps: a pointer that it never looks at, and whether something stands behind it.
ghost use Rattle.std.specs.Prelude.{◌≡◌, IfOk, MatchOption, None, Ok, Some};
ghost use Rattle.cf_c_handles.specs.Building.{Fills};
ghost use Rattle.cf_c_handles.specs.Seals.{is_full};

pub mod object;
pub mod raw_box;

use crate::code::Code;
use crate::handle::object::{Object, assert_send};
use crate::handle::raw_box::{BoxParts, RawBox};
use std::alloc::{AllocError, Global};
use std::mem;

/// A handle. If all its bytes are 0 it is empty.
#[repr(C)]
#[derive(Drop)]
pub struct CfHandle {
    pub inner: RawBox,
    full: bool,
    ghost kept: { full ≡ is_full inner.held },
}

impl CfHandle {
    #[inline(always)]
    fn empty(alloc: Global) -> CfHandle
        ensures { result.inner.held ≡ None }
    {
        CfHandle {
            inner: RawBox::empty(alloc),
            full: false,
        }
    }

    /// Takes out what stands behind it.
    #[inline(always)]
    pub fn take(&mut self, alloc: Global) -> Option<Box<Object>>
        ensures was { MatchOption result (self.old.inner.held ≡ None) (λ held. self.old.inner.held ≡ Some held.value) }
        ensures empty { self.new.inner.held ≡ None }
    {
        if !self.full {
            return None;
        }
        let CfHandle { inner, full: _ } = mem::replace(self, CfHandle::empty(alloc));
        Some(inner.into_parts().into_box())
    }

    /// Whether something stands behind it.
    #[inline(always)]
    pub fn is_full(&self) -> bool
        ensures { result ≡ is_full self.now.inner.held }
    {
        self.full
    }

    /// Puts something behind it. If something stands there already, that is never freed.
    #[inline(always)]
    pub fn put(&mut self, held: Box<Object>)
        ensures { self.new.inner.held ≡ Some held.value }
    {
        self.inner = RawBox::of_parts(BoxParts::of(assert_send(held)));
        self.full = true;
    }
}

/// Puts what was made behind a handle, if that is empty. It answers 0, or the code that says why not.
pub fn fill(alloc: Global, h: &mut CfHandle, made: Result<Object, Code>) -> u32
    ensures { Fills made h.old.inner.held result h.new.inner.held }
{
    if h.is_full() {
        drop(made);
        return Code::Full.number();
    }
    match made {
        Err(code) => code.number(),
        Ok(held) => put_new(alloc, h, held),
    }
}

/// Puts this behind an empty handle: 0, or that there is no memory.
fn put_new(alloc: Global, h: &mut CfHandle, held: Object) -> u32
    requires { h.old.inner.held ≡ None }
    ensures { Fills (Ok held) None result h.new.inner.held }
{
    match box_of(alloc, held) {
        Ok(held) => {
            h.put(held);
            0
        }
        Err(_) => Code::NoMemory.number(),
    }
}

/// A box of what is to be put behind a handle. Where memory is refused, it is freed.
pub(crate) fn box_of(alloc: Global, held: Object) -> Result<Box<Object>, AllocError>
    ensures { IfOk result (λ made. made.value ≡ held) }
{
    Ok(Box::new(alloc, held)?)
}

/// Frees what stands behind a handle, and leaves the handle empty.
pub fn free(alloc: Global, h: &mut CfHandle)
    ensures { h.new.inner.held ≡ None }
{
    drop(h.take(alloc))
}
