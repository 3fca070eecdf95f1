//! A value by the pointer to it, with the memory that it lies in.

ghost use Rattle.std.specs.Prelude.{◌≡◌, Option, Some, None};
ghost use Rattle.std.specs.Ptr.{null_ptr};
ghost use Rattle.trdp_node.specs.Owning.{owns_if};
ghost use Rattle.std_alloc.specs.Box.Ownership.{box_owns};

use std::alloc::Allocator;
use std::marker::Model;
use std::ptr::null_mut;

/// What lies at a pointer, with its memory: what a box owns, without the box.
pub struct Owned<T, A: Allocator> {
    /// Where it lies.
    pub at: *mut T,
    /// What frees its memory.
    pub alloc: A,
    pub ghost value: { T },
}

impl<T, A: Allocator> Model for Owned<T, A> {
    ghost also_owns = { λ it. box_owns (A.dealloc_token it.alloc) T.row it.at it.value };
}

impl<T: Drop, A: Allocator> Owned<T, A> {
    /// The same as a box.
    pub fn into_box(self) -> Box<T, A>
        ensures { result.value ≡ self.value }
    {
        let Owned { at, alloc } = self;
        unsafe { Box::from_raw(alloc, at) }
    }
}

/// A value by the pointer to it, with the memory that it lies in; or null, and no value.
pub struct OwnedOrNull<T, A: Allocator> {
    /// Where it lies, or null.
    pub at: *mut T,
    /// What frees its memory.
    pub alloc: A,
    pub ghost value: { Option T },
}

impl<T, A: Allocator> Model for OwnedOrNull<T, A> {
    ghost also_owns = { λ it. owns_if (A.dealloc_token it.alloc) T.row it.at it.value };
}

impl<T: Drop, A: Allocator> OwnedOrNull<T, A> {
    /// What a box owns.
    pub fn of(value: Box<T, A>) -> OwnedOrNull<T, A>
        ensures { result.value ≡ Some value.value }
    {
        let (at, alloc) = Box::into_raw_with_allocator(value);
        OwnedOrNull { at, alloc }
    }

    /// Null, and no value.
    pub fn none(alloc: A) -> OwnedOrNull<T, A>
        ensures value { result.value ≡ None }
        ensures at { result.at ≡ null_ptr }
    {
        OwnedOrNull {
            at: null_mut(),
            alloc,
        }
    }
}
