//! A block of memory, and the five functions that touch its pointer. Each is proved by hand.
//!
//! Cells are written from the first on, so what is written is a list: cell `i` holds its item `i`,
//! and nothing is known of what lies behind.

ghost use Rattle.std.specs.Prelude.{◌≡◌, ℕ, ◌+◌, ◌<◌, ◌≤◌, List, [], ◌∷◌, ◌++◌, length, take, drop, IfOk, OnErr, ⊤};
ghost use Rattle.std.specs.Vec.Ownership.{FitsInBlock};
ghost use denote.RawPtr.{Ptr};
ghost use Rattle.change_ring.specs.inner.Ownership.{cells_own, cells_lent};

use std::alloc::{AllocError, Allocator};
use std::marker::{Model, PhantomData, Send, Sync};
use std::mem::{align_of, size_of};
use std::slice;

/// Where a block begins. It owns nothing.
pub struct Base<T> {
    ptr: *mut T,
}

impl<T> Clone for Base<T> {
    ghost is_clone = { λ x y. y ≡ x };

    ghost is_infallible = { λ _. ⊤ };

    fn clone(&self) -> Result<Base<T>, AllocError> {
        Ok(*self)
    }
}

impl<T> Copy for Base<T> {}

unsafe impl<T> Send for Base<T> {}

unsafe impl<T> Sync for Base<T> {}

/// The owner of a block of `capacity` cells at `at`, of which the first hold `written`, with the right
/// to give the block back to `alloc`. It takes no space.
pub struct Cells<T, A: Allocator> {
    mark: PhantomData<*const (T, A)>,
    ghost at: { Ptr },
    ghost capacity: { ℕ },
    ghost written: { List T },
    ghost alloc: { A },
}

impl<T, A: Allocator> Model for Cells<T, A> {
    ghost also_owns = { λ c. cells_own (A.dealloc_token c.alloc) T.row c.at c.capacity c.written };

    ghost also_shares = { λ c _ κ. cells_lent T.row c.at c.capacity c.written κ };
}

unsafe impl<T: Send, A: Allocator + Send> Send for Cells<T, A> {}

// A `&` to it has the items, and nothing of the allocator.
unsafe impl<T: Sync, A: Allocator> Sync for Cells<T, A> {}

/// A block of so many cells. None is written.
pub(crate) fn allocate<T, A: Allocator>(
    alloc: &A,
    capacity: usize,
) -> Result<(Base<T>, Cells<T, A>), AllocError>
    requires { FitsInBlock T.row capacity }
    ensures { IfOk result (λ r. (r.1.at ≡ r.0.ptr) × (r.1.capacity ≡ capacity) × (r.1.written ≡ [])
        × (r.1.alloc ≡ alloc.now)) }
{
    match alloc.allocate(capacity * size_of::<T>(), align_of::<T>()) {
        Ok(block) => {
            let base = Base {
                ptr: block as *mut T,
            };
            Ok((base, Cells { mark: PhantomData }))
        }
        Err(error) => Err(error),
    }
}

/// Gives the block back, whatever its cells hold.
pub(crate) fn deallocate<T, A: Allocator>(
    alloc: &A,
    base: Base<T>,
    capacity: usize,
    cells: Cells<T, A>,
)
    requires { (cells.at ≡ base.ptr) × (cells.capacity ≡ capacity) × (cells.alloc ≡ alloc.now)
        × (length cells.written ≤ capacity) }
{
    let Cells { mark: _ } = cells;
    unsafe {
        alloc.deallocate(
            base.ptr as *mut u8,
            capacity * size_of::<T>(),
            align_of::<T>(),
        );
    }
}

/// Makes the block, of which `used` cells are written, one of `more` cells. It keeps what was
/// written, and may move. Where memory is refused it is as it was.
pub(crate) fn grow<T, A: Allocator>(
    alloc: &A,
    base: Base<T>,
    used: usize,
    capacity: usize,
    more: usize,
    cells: &mut Cells<T, A>,
) -> Result<Base<T>, AllocError>
    requires { (cells.old.at ≡ base.ptr) × (cells.old.capacity ≡ capacity)
        × (cells.old.alloc ≡ alloc.now) × (length cells.old.written ≡ used)
        × (used ≤ capacity) × (capacity ≤ more) × FitsInBlock T.row more }
    ensures ok { IfOk result (λ b. cells.new ≡ record cells.old { at = b.ptr; capacity = more }) }
    ensures err { OnErr result (cells.new ≡ cells.old) }
{
    match unsafe { alloc.grow(base.ptr, used, capacity, more) } {
        Ok(ptr) => Ok(Base { ptr }),
        Err(error) => Err(error),
    }
}

impl<T, A: Allocator> Cells<T, A> {
    /// Writes the first cell that isn't written, or one that is. What was there is forgotten, so
    /// this is for plain data.
    pub(crate) fn write(&mut self, base: Base<T>, index: usize, item: T)
        requires { (base.ptr ≡ self.old.at) × (index ≤ length self.old.written)
            × (index < self.old.capacity) }
        ensures { self.new ≡ record self.old {
          written = take index self.old.written ++ item
              ∷ drop (index + 1) self.old.written;
        } }
    {
        unsafe { base.ptr.add(index).write(item) }
    }

    /// What is written from the cell `from` on, and what is written before it.
    pub(crate) fn slices(&self, base: Base<T>, used: usize, from: usize) -> (&[T], &[T])
        requires { (base.ptr ≡ self.now.at) × (length self.now.written ≡ used)
            × (used ≤ self.now.capacity) × (from ≤ used) }
        ensures { (result.0.now ≡ drop from self.now.written)
            × (result.1.now ≡ take from self.now.written) }
    {
        unsafe {
            (
                slice::from_raw_parts(base.ptr.add(from), used - from),
                slice::from_raw_parts(base.ptr, from),
            )
        }
    }
}
