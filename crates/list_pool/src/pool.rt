//! The pool.
ghost use Rattle.std.specs.Prelude.{◌≡◌, ◌+◌, ◌-◌, ◌<◌, ◌≤◌, ◌≤ℤ◌, pos, negsuc, [], ◌∷◌, ◌++◌, length, map, slice_index_or, IfOk, OnOk, OnErr, IsTrue};
ghost use Rattle.list_pool.specs.inner.Pool.{left_over};

use crate::chunk::Chunk;
use crate::place::Place;
use std::alloc::{AllocError, Global};
use std::fmt;
use std::marker::Model;

/// For how many numbers a chunk has room, unless one list needs more.
const CHUNK_ROOM: usize = 4096;

/// Lists of 64-bit numbers, each under its place. Contracts see the lists, and `spare`: how many numbers one more list may
/// have without a request for memory, or -1 where not even an empty list has room.
#[derive(Drop)]
pub struct ListPool {
    chunks: Vec<Chunk>,
    table: Vec<Place>,
    alloc: Global,
}

impl Model for ListPool {
    ghost use Rattle.std.specs.Prelude.{map};
    ghost use Rattle.std.specs.Vec.{vec_len, vec_capacity};
    ghost use Rattle.list_pool.specs.Pool.{Pool};
    ghost use Rattle.list_pool.specs.inner.Pool.{list_in, AllLie, spare_in};

    ghost Value = { Pool };

    ghost view = { λ p. record {
      lists = map (list_in p.chunks.items) p.table.items;
      spare = spare_in p.chunks.items (vec_len p.table) (vec_capacity p.table);
    } };

    ghost invariant = { λ p. AllLie p.chunks.items p.table.items };
}

/// Whether the last chunk has room for that many numbers.
fn has_room(chunks: &[Chunk], items: usize) -> bool
    ensures { IsTrue result → pos items ≤ℤ left_over chunks.now }
{
    match chunks.last() {
        Some(last) => items <= last.spare(),
        None => false,
    }
}

impl ListPool {
    /// A pool without a list. It takes no memory.
    pub fn new(alloc: Global) -> ListPool
        ensures empty { result ≡ record { lists = []; spare = negsuc 0 } }
    {
        ListPool {
            chunks: Vec::new(alloc),
            table: Vec::new(alloc),
            alloc,
        }
    }

    /// The number of lists.
    pub fn len(&self) -> usize
        ensures count { result ≡ length self.now.lists }
        ensures spare { negsuc 0 ≤ℤ self.now.spare }
    {
        self.table.len()
    }

    /// The list at a place.
    pub fn get(&self, place: usize) -> &[u64]
        requires place { place < length self.now.lists }
        ensures list { result.now ≡ slice_index_or self.now.lists place [] }
    {
        let at = self.table[place];
        self.chunks[at.chunk].slice(at.start, at.len)
    }

    /// Takes memory for one more list of at most `items` numbers. The lists stay, whatever the answer.
    pub fn reserve(&mut self, items: usize) -> Result<(), AllocError>
        ensures lists { self.new.lists ≡ self.old.lists }
        ensures room { OnOk result (pos items ≤ℤ self.new.spare) }
    {
        self.table.reserve(1)?;
        if has_room(&self.chunks, items) {
            return Ok(());
        }
        let chunk = Chunk::with_room(self.alloc, items.max(CHUNK_ROOM))?;
        self.chunks.push(chunk)?;
        Ok(())
    }

    /// Appends a list for which there is room. The answer is its place.
    pub fn push_reserved(&mut self, items: &[u64]) -> usize
        requires room { pos (length items.now) ≤ℤ self.old.spare }
        ensures lists { self.new.lists ≡ self.old.lists ++ items.now ∷ [] }
        ensures place { result ≡ length self.old.lists }
    {
        let place = self.table.len();
        let chunk = self.chunks.len() - 1;
        let start = self.chunks[chunk].used();
        self.chunks[chunk].append(items);
        self.table.push_reserved(Place {
            chunk,
            start,
            len: items.len(),
        });
        place
    }

    /// Appends a list. The answer is its place.
    pub fn push(&mut self, items: &[u64]) -> Result<usize, AllocError>
        ensures place { IfOk result (λ place. place ≡ length self.old.lists) }
        ensures lists { OnOk result (self.new.lists ≡ self.old.lists ++ items.now ∷ []) }
        ensures refusal { OnErr result (self.new.lists ≡ self.old.lists) }
    {
        self.reserve(items.len())?;
        Ok(self.push_reserved(items))
    }
}

impl fmt::Debug for ListPool {
    fn fmt<W: fmt::Write>(&self, f: &mut fmt::Formatter<W>) -> fmt::Result {
        f.debug_struct("ListPool")
            .field("len", &self.len())
            .finish()
    }
}
