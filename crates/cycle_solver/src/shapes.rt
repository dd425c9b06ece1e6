//! Regions of one shape, and how the places of the first of them are those of another.

ghost use Rattle.std.specs.Prelude.{◌≡◌, ◌≢◌, ℕ, ◌<◌, ◌≤◌, ◌↔◌, IfOk, IsTrue, MatchOption, Contains, length, replicate, slice_index, slice_index_or};
ghost use Rattle.region_book.specs.Image.{IsShape};
ghost use Rattle.region_book.specs.Law.{differ};
ghost use Rattle.endgame_solver.specs.inner.Sharing.{PairsWith};
ghost use Rattle.cycle_solver.specs.declared.shapes.Kind.{Kind};

use go_grid::Region;
use local_play::start;
use region_book::{Shape, Turn, shape};
use std::alloc::{AllocError, Global};

/// A shape, and how the opening of the first region that has it is turned into it. That region's game stands at the place of
/// the kind.
#[derive(Drop)]
pub(crate) struct Kind {
    pub shape: Shape,
    pub turn: Turn,
}

/// Whether the two are the same.
fn is_same(a: &Shape, b: &Shape) -> bool
    ensures { IsTrue result ↔ (a.now.spots.items ≡ b.now.spots.items) }
{
    a == b
}

/// The kind of a region that is the first of its shape.
pub(crate) fn first_kind(alloc: Global, region: &Region) -> Result<Kind, AllocError>
    requires { length region.now.points ≤ 32 }
    ensures { IfOk result (λ kind. IsShape region.now region.now.cells
        kind.shape.spots.items kind.turn) }
{
    let (image, turn) = shape(alloc, region, start(region))?;
    Ok(Kind { shape: image, turn })
}

/// The kind that has the shape.
pub(crate) fn kind_of(kinds: &[Kind], shape: &Shape) -> Option<usize>
    ensures { MatchOption result ((kind : Kind) → Contains kinds.now kind
        → kind.shape.spots.items ≢ shape.now.spots.items)
        (λ j. (j < length kinds.now) × ((kind : Kind) → slice_index_or kinds.now j kind ≡ kind
        → kind.shape.spots.items ≡ shape.now.spots.items)) }
{
    'kinds: for place in 0..kinds.len() {
        if is_same(&kinds[place].shape, shape) {
            return Some(place);
        }
    }
    None
}

/// Whether exactly one of the two is true.
pub(crate) fn differ(a: bool, b: bool) -> bool
    ensures { result ≡ differ a b }
{
    if a { !b } else { b }
}

/// The place that the turn brings to a place of the shape.
fn place_before(count: usize, turn: &Turn, place: u8) -> u8
    requires few { count ≤ 32 }
    requires some { (i : ℕ) × (i < count) × (slice_index turn.now.places i ≡ place) }
    ensures { (result < count) × (slice_index turn.now.places result ≡ place) }
{
    'places: for candidate in 0..count {
        if turn.places[candidate] == place {
            return candidate as u8;
        }
    }
    0
}

/// Place 0 for each place.
fn no_places() -> [u8; 32]
    ensures { result ≡ replicate 32 0 }
{
    [0; 32]
}

/// For each place of the first region that has a shape, the place of another that goes where it goes.
pub(crate) fn pairing(count: usize, turn: &Turn, first: &Turn) -> [u8; 32]
    requires few { count ≤ 32 }
    requires some { (j : ℕ) → j < count → (i : ℕ) × (i < count)
        × (slice_index turn.now.places i ≡ slice_index first.now.places j) }
    ensures pairs { PairsWith count turn.now first.now result }
    ensures long { length result ≡ 32 }
{
    let mut places = no_places();
    'places: for place in 0..count {
        places[place] = place_before(count, turn, first.places[place]);
    }
    places
}
