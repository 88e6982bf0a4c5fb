//! One raw block as a row of places, each empty or holding a value of 64 bytes. Every raw pointer of frames and of mini
//! pages is here.
//!
//! The C library hands out a great block 16 bytes behind the beginning of a page of the system. So the places begin 48
//! bytes behind the beginning of the block, and each is then a line of the cache: 64 bytes of the block stand beside them.
ghost use Rattle.std.specs.Prelude.{◌≡◌, ℕ, ◌+◌, ◌<◌, ◌≤◌, List, Option, Some, None, length, replicate, get_or, slice_set, IfOk, ⊤};
ghost use Rattle.std.specs.Vec.Ownership.{FitsInBlock};
ghost use base.Fml.{ftrue};
ghost use denote.RawPtr.{Ptr, InBlock, ◌+ₚ◌};
ghost use Rattle.page_frame.specs.Places.{IsFilled, emptied};
ghost use Rattle.page_frame.specs.Ownership.{IsCacheLine, front, owns_places, lends_places, may_free};

use std::alloc::{AllocError, Allocator};
use std::marker::{Model, PhantomData};
use std::mem::{align_of, size_of};

/// The bytes before the first place.
const FRONT: usize = 48;

/// Where a block, or its first place, begins. It owns nothing.
pub struct Base<T> {
    ptr: *mut T,
}

impl<T> Clone for Base<T> {
    ghost is_clone = { λ old new. new ≡ old };

    ghost is_infallible = { λ _. ⊤ };

    fn clone(&self) -> Result<Base<T>, AllocError> {
        Ok(*self)
    }
}

impl<T> Copy for Base<T> {}

impl<T> Base<T> {
    /// Where the first place of the block that begins here is.
    pub(crate) fn first_place(self) -> Base<T>
        requires { InBlock self.ptr }
        ensures { result.ptr ≡ self.ptr +ₚ front }
    {
        Base {
            ptr: unsafe { self.ptr.byte_add(FRONT) },
        }
    }
}

/// The places of a block, of which the first is at `at`, with what stands in them. It takes no space.
pub struct Cells<T> {
    mark: PhantomData<*const T>,
    ghost at: { Ptr },
    ghost slots: { List (Option T) },
}

impl<T> Model for Cells<T> {
    ghost also_owns = { λ cells. owns_places T.row cells.at cells.slots };

    ghost also_shares = { λ cells _ κ. lends_places T.row cells.at cells.slots κ };
}

/// The right to give the block of `len` places that begins at `at` back to `alloc`, and its bytes beside the places. It
/// takes no space.
pub struct Deed<A: Allocator> {
    mark: PhantomData<*const A>,
    ghost at: { Ptr },
    ghost len: { ℕ },
    ghost alloc: { A },
}

impl<A: Allocator> Model for Deed<A> {
    ghost also_owns = { λ deed. may_free (A.dealloc_token deed.alloc) deed.at deed.len };

    ghost also_shares = { λ _ _ _. ftrue };
}

impl<T> Cells<T> {
    ghost use Rattle.page_frame.specs.Parts.{IsBlock, IsNewBlock};

    /// A block of `len` empty places, of which no byte is touched: where it begins, its places, and the right to free it.
    pub(crate) fn allocate<A: Allocator>(
        alloc: &A,
        len: usize,
    ) -> Result<(Base<T>, Cells<T>, Deed<A>), AllocError>
        requires { IsCacheLine T.row × FitsInBlock T.row (len + 1) }
        ensures { IfOk result (IsNewBlock len alloc.now) }
    {
        match alloc.allocate((len + 1) * size_of::<T>(), align_of::<T>()) {
            Ok(block) => {
                let start = Base {
                    ptr: block as *mut T,
                };
                Ok((
                    start,
                    Cells { mark: PhantomData },
                    Deed { mark: PhantomData },
                ))
            }
            Err(error) => Err(error),
        }
    }

    /// Gives a block back, whatever stands in its places.
    pub(crate) fn deallocate<A: Allocator>(
        alloc: &A,
        start: Base<T>,
        len: usize,
        cells: Cells<T>,
        deed: Deed<A>,
    )
        requires { IsCacheLine T.row × IsBlock len alloc.now start cells deed }
    {
        let Cells { mark: _ } = cells;
        let Deed { mark: _ } = deed;
        unsafe {
            alloc.deallocate(
                start.ptr as *mut u8,
                (len + 1) * size_of::<T>(),
                align_of::<T>(),
            );
        }
    }

    /// Lends the value of a place that holds one.
    pub(crate) fn get(&self, base: Base<T>, place: usize) -> &T
        requires { (base.ptr ≡ self.now.at) × IsFilled self.now.slots place }
        ensures { get_or self.now.slots place None ≡ Some result.now }
    {
        unsafe { &*base.ptr.add(place) }
    }

    /// Puts a value into a place, over what stands there.
    pub(crate) fn put(&mut self, base: Base<T>, place: usize, value: T)
        requires { (base.ptr ≡ self.old.at) × (place < length self.old.slots) }
        ensures { let slots = slice_set self.old.slots place (Some value) in
            (self.new.at ≡ self.old.at) × (self.new.slots ≡ slots) }
    {
        unsafe { base.ptr.add(place).write(value) }
    }

    /// Makes the `len` places from `from` on empty: a step of the proof alone.
    pub(crate) fn forget(&mut self, from: usize, len: usize)
        requires { from + len ≤ length self.old.slots }
        ensures { (self.new.at ≡ self.old.at) × (self.new.slots ≡ emptied from len self.old.slots) }
    {}
}
