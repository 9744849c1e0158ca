//! 64 places of raw memory. The first of them hold values. All that touches a pointer is here.
ghost use Rattle.std.specs.Prelude.{◌≡◌, ◌+◌, ◌<◌, ◌≤◌, List, [], ◌∷◌, ◌++◌, length, IfOk, ⊤};
ghost use Rattle.std.specs.Vec.Ownership.{FitsInBlock};
ghost use base.Fml.{ftrue};
ghost use denote.RawPtr.{Ptr};
ghost use Rattle.metrics_storage.specs.Ownership.{places_own, places_lent, allocation_owns};

use std::alloc::{AllocError, Allocator};
use std::marker::{Model, PhantomData, Send, Sync};
use std::mem::{align_of, size_of};
use std::slice;

/// The number of places of a block.
pub const BLOCK_SIZE: usize = 64;

/// The address of the first place. It owns nothing.
pub struct BlockPtr<T> {
    ptr: *mut T,
}

impl<T> Clone for BlockPtr<T> {
    ghost is_clone = { λ x y. y ≡ x };

    ghost is_infallible = { λ _. ⊤ };

    fn clone(&self) -> Result<BlockPtr<T>, AllocError> {
        Ok(*self)
    }
}

impl<T> Copy for BlockPtr<T> {}

unsafe impl<T> Send for BlockPtr<T> {}

unsafe impl<T> Sync for BlockPtr<T> {}

/// The owner of the 64 places from `at` on, of size zero. The first of them hold `values`.
pub struct Places<T> {
    mark: PhantomData<*const T>,
    ghost at: { Ptr },
    ghost values: { List T },
}

impl<T> Model for Places<T> {
    ghost also_owns = { λ p. places_own T.row p.at p.values };

    ghost also_shares = { λ p _ κ. places_lent T.row p.at p.values κ };
}

unsafe impl<T: Send> Send for Places<T> {}

unsafe impl<T: Sync> Sync for Places<T> {}

/// The right to return the memory at `at` to `alloc`. Its size is zero.
pub struct Allocation<T, A: Allocator> {
    mark: PhantomData<*const (T, A)>,
    ghost at: { Ptr },
    ghost alloc: { A },
}

impl<T, A: Allocator> Model for Allocation<T, A> {
    ghost also_owns = { λ a. allocation_owns T.row (A.dealloc_token a.alloc) a.at };

    ghost also_shares = { λ _ _ _. ftrue };
}

unsafe impl<T, A: Allocator + Send> Send for Allocation<T, A> {}

// A `&` to it holds nothing.
unsafe impl<T, A: Allocator> Sync for Allocation<T, A> {}

/// Memory for 64 values, without any value.
pub(crate) fn allocate<T, A: Allocator>(
    alloc: &A,
) -> Result<(BlockPtr<T>, Places<T>, Allocation<T, A>), AllocError>
    requires { FitsInBlock T.row 64 }
    ensures { IfOk result (λ r. (r.1.at ≡ r.0.ptr) × (r.1.values ≡ []) × (r.2.at ≡ r.0.ptr)
        × (r.2.alloc ≡ alloc.now)) }
{
    match alloc.allocate(BLOCK_SIZE * size_of::<T>(), align_of::<T>()) {
        Ok(block) => {
            let start = BlockPtr {
                ptr: block as *mut T,
            };
            Ok((
                start,
                Places { mark: PhantomData },
                Allocation { mark: PhantomData },
            ))
        }
        Err(error) => Err(error),
    }
}

/// Returns the memory, if no value is left in it.
pub(crate) fn deallocate<T, A: Allocator>(
    alloc: &A,
    start: BlockPtr<T>,
    places: Places<T>,
    allocation: Allocation<T, A>,
)
    requires { (places.at ≡ start.ptr) × (places.values ≡ []) × (allocation.at ≡ start.ptr)
        × (allocation.alloc ≡ alloc.now) }
{
    let Places { mark: _ } = places;
    let Allocation { mark: _ } = allocation;
    unsafe {
        alloc.deallocate(
            start.ptr as *mut u8,
            BLOCK_SIZE * size_of::<T>(),
            align_of::<T>(),
        );
    }
}

impl<T> Places<T> {
    /// Writes a value to the first free place, whose index is `len`.
    pub(crate) fn push(&mut self, start: BlockPtr<T>, len: usize, value: T)
        requires { (start.ptr ≡ self.old.at) × (len ≡ length self.old.values) × (len < 64) }
        ensures { (self.new.at ≡ self.old.at) × (self.new.values ≡ self.old.values ++ value ∷ []) }
    {
        unsafe { start.ptr.add(len).write(value) }
    }

    /// Moves the last value out, whose index is `last`.
    pub(crate) fn take_last(&mut self, start: BlockPtr<T>, last: usize) -> T
        requires { (start.ptr ≡ self.old.at) × (last + 1 ≡ length self.old.values) × (last < 64) }
        ensures { (self.new.at ≡ self.old.at) × (self.old.values ≡ self.new.values ++ result ∷ []) }
    {
        unsafe { start.ptr.add(last).read() }
    }

    /// Borrows the values, of which there are `len`.
    pub(crate) fn lend(&self, start: BlockPtr<T>, len: usize) -> &[T]
        requires { (start.ptr ≡ self.now.at) × (len ≡ length self.now.values) × (len ≤ 64) }
        ensures { result.now ≡ self.now.values }
    {
        unsafe { slice::from_raw_parts(start.ptr, len) }
    }
}
