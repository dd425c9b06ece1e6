//! What each colour has in a position.

ghost use Rattle.std.specs.Prelude.{◌≡◌, ℕ, ◌↔◌, List, true, length};
ghost use Rattle.go_grid.specs.declared.grid.Cell.{Cell};
ghost use Rattle.go_grid.specs.declared.grid.Colour.{Colour};
ghost use Rattle.go_grid.specs.declared.region.Touch.{Touch};
ghost use Rattle.local_play.specs.Packed.{pack};
ghost use Rattle.local_play.specs.Links.{IsTable};
ghost use Rattle.local_play.specs.inner.Lasting.{IsSide, AreSidePlaces, IsLasting, AreEmpty, HasSupport};

use crate::links::{Links, Reached};
use crate::local::Local;
use crate::places::Places;
use go_grid::Colour;

/// What a colour has in a position.
#[derive(Clone, Copy)]
pub(crate) struct Side {
    pub(crate) stones: Places,
    /// The stones whose chains stand next to an alive stone of the colour, or have two liberties: no one stone takes them.
    pub(crate) lasting: Places,
    /// The places next to an alive stone of the colour.
    pub(crate) beside: Places,
}

/// Whether a chain lasts.
fn lasts(chain: &Reached, beside: Places, empty: Places) -> bool
    ensures { (result ≡ true) ↔ HasSupport chain.now beside empty }
{
    if !chain.places.intersection(beside).is_empty() {
        return true;
    }
    chain.near.intersection(empty).has_two()
}

/// The stones whose chains last. One next to an alive stone does for itself, and each other's chain is judged.
fn lasting(links: &Links, stones: Places, beside: Places, empty: Places) -> Places
    ensures { (touch : List Touch) (cells : List Cell) (c : Colour) → IsTable touch links.now
        → AreSidePlaces touch cells c stones beside empty → IsLasting touch cells c result }
{
    let mut lasting = stones.intersection(beside);
    let mut rest = stones.without(beside);
    'judging: while let Some(place) = rest.first() {
        let chain = links.flood(Places::of(place), stones);
        if lasts(&chain, beside, empty) {
            lasting = lasting.union(chain.places);
        }
        rest = rest.without(chain.places);
    }
    lasting
}

impl Side {
    /// What the colour has in a position with the empty places.
    pub(crate) fn of(links: &Links, position: Local, colour: Colour, empty: Places) -> Side
        ensures { (touch : List Touch) (cells : List Cell) → IsTable touch links.now
            → length cells ≡ length touch → position ≡ pack cells → AreEmpty touch cells empty
            → IsSide touch cells colour result }
    {
        let stones = position.stones(colour);
        let beside = links.beside(colour);
        Side {
            stones,
            lasting: lasting(links, stones, beside, empty),
            beside,
        }
    }
}
