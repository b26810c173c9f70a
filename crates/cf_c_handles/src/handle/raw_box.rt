//! A box as a pointer that C may keep.
ghost use Rattle.std.specs.Prelude.{◌≡◌, None, Some};
ghost use Rattle.std.specs.Box.Ownership.{box_owns};
ghost use Rattle.std.specs.declared.option.Option.{Option};
ghost use Rattle.cf_c_handles.specs.declared.handle.object.Object.{Object};
ghost use Rattle.cf_c_handles.specs.Seals.{seal_owns, IsFull};

use crate::handle::object::Object;
use std::alloc::{Allocator, Global};
use std::marker::Model;

/// A box with its pointer and its allocator in sight.
pub struct BoxParts<T, A: Allocator> {
    pub(crate) ptr: *mut T,
    pub(crate) alloc: A,
    pub ghost value: { T },
}

impl<T, A: Allocator> Model for BoxParts<T, A> {
    ghost also_owns = { λ p. box_owns (A.dealloc_token p.alloc) T.row p.ptr p.value };
}

impl<T, A: Allocator> BoxParts<T, A> {
    #[inline(always)]
    pub fn of(b: Box<T, A>) -> BoxParts<T, A>
    where
        T: Drop,
        ensures { result.value ≡ b.value }
    {
        let (ptr, alloc) = Box::into_raw_with_allocator(b);
        BoxParts { ptr, alloc }
    }

    #[inline(always)]
    pub fn into_box(self) -> Box<T, A>
        ensures { result.value ≡ self.value }
    {
        let BoxParts { ptr, alloc } = self;
        unsafe { Box::from_raw(alloc, ptr) }
    }
}

/// The same as C keeps it: what was in the box, or nothing.
#[repr(C)]
#[derive(Drop)]
pub struct RawBox {
    at: *mut u8,
    alloc: Global,
    pub ghost held: { Option Object },
}

impl Model for RawBox {
    ghost use Rattle.cf_c_handles.specs.Seals.{seal_owns};

    ghost also_owns = { λ s. seal_owns s.alloc s.at s.held };
}

impl RawBox {
    #[inline(always)]
    pub fn of_parts(parts: BoxParts<Object, Global>) -> RawBox
        ensures { result.held ≡ Some parts.value }
    {
        let BoxParts { ptr, alloc } = parts;
        RawBox {
            at: ptr as *mut u8,
            alloc,
        }
    }

    #[inline(always)]
    pub fn into_parts(self) -> BoxParts<Object, Global>
        requires { IsFull self.held }
        ensures { Some result.value ≡ self.held }
    {
        let RawBox { at, alloc } = self;
        BoxParts {
            ptr: at as *mut Object,
            alloc,
        }
    }

    #[inline(always)]
    pub fn empty(alloc: Global) -> RawBox
        ensures { result.held ≡ None }
    {
        RawBox {
            at: std::ptr::null_mut(),
            alloc,
        }
    }
}
