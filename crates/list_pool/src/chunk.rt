//! Chunks: rows of numbers that never move.
ghost use Rattle.std.specs.Prelude.{◌≡◌, ◌+◌, ◌≤◌, ◌<◌, [], ◌∷◌, ◌++◌, length, slice_range, IfOk};
ghost use Rattle.list_pool.specs.Chunk.{Row};

use crate::cells::{Base, Deed, Places, allocate, deallocate};
use std::alloc::{AllocError, Global};
use std::marker::Model;

/// The most numbers that one block can hold.
const MOST_ITEMS: usize = usize::MAX / 16;

/// A block whose first places hold numbers. It has its room from the start and never grows.
pub struct Chunk {
    base: Base,
    places: Places,
    deed: Deed<Global>,
    room: usize,
    used: usize,
    alloc: Global,
}

impl Model for Chunk {
    ghost use Rattle.std.specs.Prelude.{◌≡◌, length};
    ghost use Rattle.list_pool.specs.Chunk.{Row};

    ghost Value = { Row };

    ghost view = { λ c. record { items = c.places.items; room = c.room } };

    ghost invariant = { λ c. (c.places.at ≡ c.base.ptr) × (c.places.room ≡ c.room)
        × (c.deed.at ≡ c.base.ptr) × (c.deed.room ≡ c.room) × (c.deed.alloc ≡ c.alloc)
        × (c.used ≡ length c.places.items) };
}

impl Chunk {
    /// An empty chunk with room for `room` numbers.
    pub(crate) fn with_room(alloc: Global, room: usize) -> Result<Chunk, AllocError>
        ensures { IfOk result (λ c. c ≡ record { items = []; room = room }) }
    {
        if room > MOST_ITEMS {
            return Err(AllocError);
        }
        let (base, places, deed) = allocate(&alloc, room)?;
        Ok(Chunk {
            base,
            places,
            deed,
            room,
            used: 0,
            alloc,
        })
    }

    /// How many numbers it holds.
    pub(crate) fn used(&self) -> usize
        ensures { result ≡ length self.now.items }
    {
        self.used
    }

    /// For how many more numbers it has room.
    pub(crate) fn spare(&self) -> usize
        ensures { result + length self.now.items ≡ self.now.room }
    {
        self.room - self.used
    }

    /// Appends a number.
    pub(crate) fn push(&mut self, item: u64)
        requires { length self.old.items < self.old.room }
        ensures { self.new ≡ record { items = self.old.items ++ item ∷ []; room = self.old.room } }
    {
        self.places.write(self.base, self.used, item);
        self.used += 1;
    }

    /// Appends the numbers.
    #[tactic(auto, using(std::proofs::Common::append_assoc, std::proofs::lemmas::List::take_more, std::proofs::lemmas::List::take_all))]
    pub(crate) fn append(&mut self, items: &[u64])
        requires { length self.old.items + length items.now ≤ self.old.room }
        ensures { self.new ≡ record { items = self.old.items ++ items.now; room = self.old.room } }
    {
        for item in items {
            self.push(*item);
        }
    }

    /// The `len` numbers from `from` on.
    pub(crate) fn slice(&self, from: usize, len: usize) -> &[u64]
        requires { from + len ≤ length self.now.items }
        ensures { result.now ≡ slice_range self.now.items from (from + len) }
    {
        self.places.slice(self.base, from, len)
    }
}

impl Drop for Chunk {
    fn drop(self) {
        let Chunk {
            base,
            places,
            deed,
            room,
            used: _,
            alloc,
        } = self;
        deallocate(&alloc, base, room, places, deed);
    }
}
