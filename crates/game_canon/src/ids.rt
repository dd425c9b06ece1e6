//! Short lists of ids.

ghost use Rattle.std.specs.Prelude.{◌≡◌, ◌<◌, ◌↔◌, [], length, slice_index, IfOk, IsTrue, OnOk};
ghost use Rattle.game_store.specs.Meaning.{IsAscending};
ghost use Rattle.game_canon.specs.inner.Ids.{IsInOrder, IsPlaceOf, IsWith};

use game_store::GameId;
use indexmap::IndexSet;
use smallvec::SmallVec;
use std::alloc::{AllocError, Global};

/// Ids of options, of which a form seldom has more than eight a side.
pub(crate) type Ids = SmallVec<GameId, 8>;

/// Whether each of the ids is greater than the one before it.
fn ascends(ids: &[GameId]) -> bool
    ensures { IsTrue result → IsAscending ids.now }
{
    let mut place = 1;
    'places: while place < ids.len() {
        if ids[place] <= ids[place - 1] {
            return false;
        }
        place += 1;
    }
    true
}

/// Puts ids in ascending order, each once.
pub(crate) fn arrange(ids: &mut Ids)
    ensures { IsInOrder ids.old.items ids.new.items }
{
    if ascends(ids) {
        return;
    }
    ids.sort_unstable();
    ids.dedup();
}

/// How many of ascending ids are below an id.
pub(crate) fn place_of(ids: &[GameId], id: GameId) -> usize
    requires { IsAscending ids.now }
    ensures { IsPlaceOf ids.now id result }
{
    let mut low = 0;
    let mut high = ids.len();
    'halving: while low < high {
        let middle = low + (high - low) / 2;
        if ids[middle] < id {
            low = middle + 1;
        } else {
            high = middle;
        }
    }
    low
}

/// Whether the id stands at the place.
pub(crate) fn is_at(ids: &[GameId], place: usize, id: GameId) -> bool
    ensures { IsTrue result ↔ ((place < length ids.now) × (slice_index ids.now place ≡ id)) }
{
    place < ids.len() && ids[place] == id
}

/// Puts an id among ascending ids, unless it is there.
pub(crate) fn put_in(ids: &mut Ids, id: GameId) -> Result<(), AllocError>
    requires { IsAscending ids.old.items }
    ensures { OnOk result (IsWith ids.old.items id ids.new.items) }
{
    let place = place_of(ids, id);
    if is_at(ids, place, id) {
        return Ok(());
    }
    ids.insert(place, id)?;
    Ok(())
}

/// Puts other ids in the place of a list's.
pub(crate) fn put(place: &mut Ids, found: Ids)
    ensures { place.new.items ≡ found.items }
{
    *place = found;
}

/// Ids that were found, each once, in the order in which they were.
#[derive(Drop)]
pub(crate) struct Found {
    pub(crate) ids: IndexSet<GameId>,
}

/// Nothing is found yet.
pub(crate) fn nothing_found(alloc: Global) -> Found
    ensures { result.ids.keys ≡ [] }
{
    Found {
        ids: IndexSet::new(alloc),
    }
}
