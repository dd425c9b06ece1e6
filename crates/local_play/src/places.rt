//! Sets of places, as bits.

ghost use Rattle.std.specs.Prelude.{◌≡◌, ℕ, ◌<◌, ◌^◌, ◌↔◌, ◌⊎◌};
ghost use Rattle.local_play.specs.Places.{Has};
ghost use Rattle.local_play.specs.inner.Places.{IsAlone, IsFirst, TellsEmpty, TellsTwo, IsCountOf};

use go_grid::Cell;

/// The number of places of the largest region that is solved.
pub const MOST_PLACES: usize = 32;

/// What the places hold. Those past the region's are empty.
pub type Cells = [Cell; MOST_PLACES];

/// The bits of all places.
const ALL: u64 = 0x5555_5555_5555_5555;

/// A set of places: place `i` is the bit `2i`, which in a position's number says that a black stone stands there. The
/// bits between say nothing.
#[derive(Clone, Copy)]
pub(crate) struct Places(pub(crate) u64);

impl Places {
    /// No place.
    pub(crate) fn none() -> Places
        ensures { (q : ℕ) → Has result q → ⊥ }
    {
        Places(0)
    }

    /// One place.
    pub(crate) fn of(place: usize) -> Places
        requires { place < MOST_PLACES }
        ensures { (q : ℕ) → Has result q ↔ (q ≡ place) }
    {
        Places(1 << (2 * place))
    }

    /// The places of either set.
    pub(crate) fn union(self, other: Places) -> Places
        ensures either { (q : ℕ) → Has result q ↔ (Has self q ⊎ Has other q) }
        ensures more { (q : ℕ) → Has other q → ¬ Has self q → self.0 < result.0 }
    {
        Places(self.0 | other.0)
    }

    /// The places of both sets.
    pub(crate) fn intersection(self, other: Places) -> Places
        ensures { (q : ℕ) → Has result q ↔ (Has self q × Has other q) }
    {
        Places(self.0 & other.0)
    }

    /// The places of the first set that aren't of the second.
    pub(crate) fn without(self, other: Places) -> Places
        ensures rest { (q : ℕ) → Has result q ↔ (Has self q × ¬ Has other q) }
        ensures less { (q : ℕ) → Has self q → Has other q → result.0 < self.0 }
    {
        Places(self.0 & !other.0)
    }

    /// The set with no bits between.
    pub(crate) fn alone(self) -> u64
        ensures is { IsAlone self result }
        ensures small { result < 2 ^ 63 }
    {
        self.0 & ALL
    }

    /// Whether there is no place.
    pub(crate) fn is_empty(self) -> bool
        ensures { TellsEmpty self result }
    {
        match self.first() {
            None => true,
            Some(_place) => false,
        }
    }

    /// The lowest place.
    pub(crate) fn first(self) -> Option<usize>
        ensures { IsFirst self result }
    {
        let bits = self.alone();
        if bits == 0 {
            return None;
        }
        Some(bits.trailing_zeros() as usize / 2)
    }

    /// Whether there are two places or more.
    pub(crate) fn has_two(self) -> bool
        ensures { TellsTwo self result }
    {
        let Some(lowest) = self.first() else {
            return false;
        };
        match self.without(Places::of(lowest)).first() {
            None => false,
            Some(_other) => true,
        }
    }

    /// The number of places.
    pub(crate) fn count(self) -> u8
        ensures { IsCountOf self result }
    {
        self.alone().count_ones() as u8
    }
}
