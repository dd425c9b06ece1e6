//! Orders of positions with ends first, where the returning captures of a colour are left out.

ghost use Rattle.std.specs.Prelude.{◌≡◌, ◌+◌, ◌*◌, ◌<◌, List, length, map, IfOk, Some};
ghost use Rattle.local_graph.specs.declared.graph.Edge.{Edge};
ghost use Rattle.local_graph.specs.ReturnGraph.{IsOrderBetweenCaptures};
ghost use Rattle.local_graph.specs.inner.Ranks.{IsRank, AreRanks, AllFallOrRise};

use crate::narrow::narrow;
use go_grid::Colour;
use local_play::{Local, MOST_PLACES};
use std::alloc::{AllocError, Global};

/// The most that a position may weigh.
pub(crate) const MOST_WEIGHT: usize = MOST_PLACES * (MOST_PLACES + 2);

/// What a position is sorted by: its component, and in it the one that weighs most comes first.
#[derive(Clone, Copy, PartialEq, Eq, PartialOrd, Ord)]
pub(crate) struct Rank {
    component: u32,
    /// How much less it weighs than the most.
    lack: u32,
    place: usize,
}

/// The rank of the position at a place.
fn rank_of(position: u64, component: u32, place: usize, colour: Colour) -> Rank
    ensures { IsRank colour position component place result }
{
    let others = usize::from(Local(position).count_of(colour.other()));
    let own = usize::from(Local(position).count_of(colour));
    let weight = (MOST_PLACES + 1) * others + own;
    Rank {
        component,
        lack: MOST_WEIGHT.saturating_sub(weight) as u32,
        place,
    }
}

/// The ranks of all positions.
fn ranks(
    alloc: Global,
    positions: &[u64],
    components: &[u32],
    colour: Colour,
) -> Result<Vec<Rank>, AllocError>
    requires { length components.now ≡ length positions.now }
    ensures { IfOk result (λ ranks. AreRanks colour positions.now components.now ranks.items) }
{
    let mut ranks = Vec::with_capacity(alloc, positions.len())?;
    for (place, position) in positions.iter().enumerate() {
        ranks.push(rank_of(*position, components[place], place, colour))?;
    }
    Ok(ranks)
}

/// The places of the ranks.
fn places_of(alloc: Global, ranks: &[Rank]) -> Result<Vec<u32>, AllocError>
    ensures { IfOk result (λ places. places.items ≡ map (λ r. r.place) ranks.now) }
{
    let mut places = Vec::with_capacity(alloc, ranks.len())?;
    for rank in ranks {
        places.push(narrow(rank.place)?)?;
    }
    Ok(places)
}

/// The places in an order in which each move but the returning captures of a colour leads to an earlier one: each such move
/// leads to a lower component, or to a position of its own that weighs more.
pub(crate) fn order_between_captures(
    alloc: Global,
    positions: &[u64],
    components: &[u32],
    colour: Colour,
) -> Result<Vec<u32>, AllocError>
    requires { length components.now ≡ length positions.now }
    ensures { IfOk result (λ order. (edges : List (List Edge))
        → AllFallOrRise colour positions.now components.now edges
        → IsOrderBetweenCaptures colour edges (Some components.now) order.items) }
{
    let mut ranks = ranks(alloc, positions, components, colour)?;
    ranks.sort_unstable();
    places_of(alloc, &ranks)
}
