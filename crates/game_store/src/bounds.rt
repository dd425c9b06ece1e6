//! The bounds that options set.

ghost use Rattle.std.specs.Prelude.{◌≡◌, ◌<◌, length};
ghost use Rattle.game_store.specs.Meaning.{AreBelow};
ghost use Rattle.game_store.specs.inner.Places.{floor_at, ceiling_at, IsGreatestFloor, IsLeastCeiling};

use crate::Slot;
use crate::bound::Bound;
use crate::lookup::read_slot;

/// The ceiling of the form of an id.
pub(crate) fn read_ceiling(slots: &[Slot], id: u64) -> Bound
    requires { id < length slots.now }
    ensures { result ≡ ceiling_at slots.now id }
{
    read_slot(slots, id as usize).ceiling
}

/// The floor of the form of an id.
pub(crate) fn read_floor(slots: &[Slot], id: u64) -> Bound
    requires { id < length slots.now }
    ensures { result ≡ floor_at slots.now id }
{
    read_slot(slots, id as usize).floor
}

/// The least ceiling of the forms of these ids.
pub(crate) fn least_ceiling(slots: &[Slot], ids: &[u64]) -> Bound
    requires some { 0 < length ids.now }
    requires ids { AreBelow (length slots.now) ids.now }
    ensures { IsLeastCeiling slots.now ids.now result }
{
    let mut least = read_ceiling(slots, ids[0]);
    for id in ids {
        least = least.min(read_ceiling(slots, *id));
    }
    least
}

/// The greatest floor of the forms of these ids.
pub(crate) fn greatest_floor(slots: &[Slot], ids: &[u64]) -> Bound
    requires some { 0 < length ids.now }
    requires ids { AreBelow (length slots.now) ids.now }
    ensures { IsGreatestFloor slots.now ids.now result }
{
    let mut greatest = read_floor(slots, ids[0]);
    for id in ids {
        greatest = greatest.max(read_floor(slots, *id));
    }
    greatest
}
