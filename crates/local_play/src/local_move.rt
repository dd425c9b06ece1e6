//! One local move.

ghost use Rattle.std.specs.Prelude.{◌≡◌, ℕ, ◌<◌, ◌⊎◌, ◌↔◌, List, length, true};
ghost use Rattle.go_grid.specs.declared.grid.Cell.{Cell};
ghost use Rattle.go_grid.specs.declared.region.Touch.{Touch};
ghost use Rattle.go_grid.specs.declared.grid.Colour.TheVariants.{Black};
ghost use Rattle.go_grid.specs.Board.{other};
ghost use Rattle.local_play.specs.Packed.{pack};
ghost use Rattle.local_play.specs.Places.{Has};
ghost use Rattle.local_play.specs.Links.{IsTable};
ghost use Rattle.local_play.specs.inner.Lasting.{CanStand, IsTurn, IsTried};

use crate::links::Links;
use crate::local::Local;
use crate::places::{MOST_PLACES, Places};
use crate::sides::Side;
use go_grid::Colour;

/// A legal local move: the position after it, whose it is, its place in the region, and the number of stones taken.
#[derive(Clone, Copy, Debug)]
pub struct LocalMove {
    pub next: Local,
    pub colour: Colour,
    pub place: u8,
    pub taken: u8,
}

/// The position that a stone is placed in, as its colour sees it.
#[derive(Clone, Copy)]
pub(crate) struct Turn {
    pub(crate) from: Local,
    pub(crate) colour: Colour,
    pub(crate) empty: Places,
    pub(crate) own: Side,
    pub(crate) foe: Side,
}

impl Turn {
    /// Black's turn in a position.
    pub(crate) fn of(links: &Links, from: Local) -> Turn
        ensures black { result.colour ≡ Black }
        ensures turn { (touch : List Touch) (cells : List Cell) → IsTable touch links.now
            → length cells ≡ length touch → from ≡ pack cells → IsTurn touch cells result }
    {
        let black = from.stones(Colour::Black);
        let white = from.stones(Colour::White);
        let empty = links.all().without(black.union(white));
        Turn {
            from,
            colour: Colour::Black,
            empty,
            own: Side::of(links, from, Colour::Black, empty),
            foe: Side::of(links, from, Colour::White, empty),
        }
    }

    /// The other colour's turn in the same position.
    #[inline(always)]
    pub(crate) fn other(&self) -> Turn
        ensures colour { result.colour ≡ other self.now.colour }
        ensures turn { (touch : List Touch) (cells : List Cell) → IsTurn touch cells self.now
            → IsTurn touch cells result }
    {
        Turn {
            from: self.from,
            colour: self.colour.other(),
            empty: self.empty,
            own: self.foe,
            foe: self.own,
        }
    }

    /// Whether a stone at an empty place that takes nothing has a liberty, or joins a chain that lasts.
    fn stands(&self, near: Places, place: usize) -> bool
        requires { place < MOST_PLACES }
        ensures { (result ≡ true) ↔ CanStand self.now near place }
    {
        let support = self.empty.union(self.own.lasting);
        if !near.intersection(support).is_empty() {
            return true;
        }
        !self.own.beside.intersection(Places::of(place)).is_empty()
    }

    /// The move at an empty place, where it is legal.
    #[inline(always)]
    pub(crate) fn try_stone(&self, links: &Links, place: usize) -> Option<LocalMove>
        requires small { place < MOST_PLACES }
        ensures { (touch : List Touch) (cells : List Cell) → IsTable touch links.now
            → IsTurn touch cells self.now → Has self.now.empty place
            → IsTried touch cells place self.now.colour result }
    {
        let near = links.near(place);
        let taken = near.intersection(self.foe.stones.without(self.foe.lasting));
        let next = self.from.with_stone(place, self.colour);
        if taken.is_empty() {
            if !self.stands(near, place) {
                return None;
            }
            return Some(LocalMove {
                colour: self.colour,
                place: place as u8,
                next,
                taken: 0,
            });
        }
        let gone = links.flood(taken, self.foe.stones).places;
        Some(LocalMove {
            colour: self.colour,
            place: place as u8,
            next: next.without(self.colour.other(), gone),
            taken: gone.count(),
        })
    }
}
