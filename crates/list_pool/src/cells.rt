//! The block of a chunk: a row of places for numbers, of which the first hold one each.
ghost use Rattle.std.specs.Prelude.{◌≡◌, ℕ, ◌+◌, ◌*◌, ◌^◌, ◌<◌, ◌≤◌, List, [], ◌∷◌, ◌++◌, length, slice_range, IfOk};
ghost use base.Fml.{ftrue};
ghost use denote.RawPtr.{Ptr};
ghost use Rattle.list_pool.specs.inner.Ownership.{places_own, places_lent, deed_owns};

use std::alloc::{AllocError, Allocator};
use std::marker::{Model, PhantomData};
use std::mem::{align_of, size_of};
use std::slice;

/// Where a block begins. It owns nothing.
#[derive(Clone, Copy)]
pub struct Base {
    ptr: *mut u64,
}

/// The owner of the places. It takes no space: the chunk holds the pointer and the numbers.
pub struct Places {
    ghost at: { Ptr },
    ghost room: { ℕ },
    ghost items: { List ℕ },
    ghost within: { length items ≤ room },
}

impl Model for Places {
    ghost also_owns = { λ p. places_own p.at p.room p.items };

    ghost also_shares = { λ p _ κ. places_lent p.at p.room p.items κ };
}

/// The right to give a block of `room` places at `at` back to `alloc`. It takes no space.
pub struct Deed<A: Allocator> {
    mark: PhantomData<A>,
    ghost at: { Ptr },
    ghost room: { ℕ },
    ghost alloc: { A },
}

impl<A: Allocator> Model for Deed<A> {
    ghost also_owns = { λ d. deed_owns (A.dealloc_token d.alloc) d.at d.room };

    ghost also_shares = { λ _ _ _. ftrue };
}

/// A block of `room` empty places.
pub(crate) fn allocate<A: Allocator>(
    alloc: &A,
    room: usize,
) -> Result<(Base, Places, Deed<A>), AllocError>
    requires { room * 8 < 2 ^ 63 }
    ensures { IfOk result (λ r. (r.1.at ≡ r.0.ptr) × (r.1.room ≡ room) × (r.1.items ≡ [])
        × (r.2.at ≡ r.0.ptr) × (r.2.room ≡ room) × (r.2.alloc ≡ alloc.now)) }
{
    match alloc.allocate(room * size_of::<u64>(), align_of::<u64>()) {
        Ok(block) => {
            let base = Base {
                ptr: block as *mut u64,
            };
            Ok((base, Places {}, Deed { mark: PhantomData }))
        }
        Err(error) => Err(error),
    }
}

/// Gives a block back, whatever its places hold.
pub(crate) fn deallocate<A: Allocator>(
    alloc: &A,
    base: Base,
    room: usize,
    places: Places,
    deed: Deed<A>,
)
    requires { (places.at ≡ base.ptr) × (places.room ≡ room) × (deed.at ≡ base.ptr)
        × (deed.room ≡ room) × (deed.alloc ≡ alloc.now) }
{
    let Places {} = places;
    let Deed { mark: _ } = deed;
    unsafe {
        alloc.deallocate(
            base.ptr as *mut u8,
            room * size_of::<u64>(),
            align_of::<u64>(),
        );
    }
}

impl Places {
    /// Fills the first empty place, which is the one at `index`.
    pub(crate) fn write(&mut self, base: Base, index: usize, item: u64)
        requires { (base.ptr ≡ self.old.at) × (index ≡ length self.old.items)
            × (index < self.old.room) }
        ensures { (self.new.at ≡ self.old.at) × (self.new.room ≡ self.old.room)
            × (self.new.items ≡ self.old.items ++ item ∷ []) }
    {
        unsafe { base.ptr.add(index).write(item) }
    }

    /// The `len` numbers from `from` on.
    pub(crate) fn slice(&self, base: Base, from: usize, len: usize) -> &[u64]
        requires { (base.ptr ≡ self.now.at) × (from + len ≤ length self.now.items) }
        ensures { result.now ≡ slice_range self.now.items from (from + len) }
    {
        unsafe { slice::from_raw_parts(base.ptr.add(from), len) }
    }
}
