//! The points of a board that are declared for a colour.

ghost use Rattle.std.specs.Prelude.{◌≡◌, ◌<◌, ◌↔◌, ◌⊎◌, true, length};

use crate::boards::Board;
use crate::grid::{Cell, Colour, Point};
use crate::near_points::NearPoints;
use crate::points::Points;

impl Board {
    ghost use Rattle.go_grid.specs.declared.grid.Colour.{Colour};
    ghost use Rattle.std.specs.Bool.{OnTrue, OnFalse};
    ghost use Rattle.go_grid.specs.Board.{HasStone, IsClosedOffAt, IsDeclared};
    ghost use Rattle.go_grid.specs.Chain.{IsBroken};
    ghost use Rattle.go_grid.specs.Marks.{Marks};

    /// The points that are declared for the colour.
    pub fn declared(&self, colour: Colour) -> Points
        ensures { Marks result (IsDeclared self.now colour) }
    {
        Points::chosen(
            self.size().area(),
            |point| self.is_declared_for(point, colour),
        )
    }

    /// Whether a point of the board is declared for the colour.
    fn is_declared_for(&self, point: Point, colour: Colour) -> bool
        requires { point < length self.now.cells }
        ensures { (result ≡ true) ↔ IsDeclared self.now colour point }
    {
        self.declared_for(point) == Some(colour)
    }

    /// Whether a point next to one that is declared for the colour is declared for it too or holds a stone of it.
    fn closes(&self, colour: Colour, point: Point) -> bool
        requires { point < length self.now.cells }
        ensures { (result ≡ true)
            ↔ (IsDeclared self.now colour point ⊎ HasStone self.now colour point) }
    {
        self.is_declared_for(point, colour) || self.colour_at(point) == Some(colour)
    }

    /// Whether a point that is declared for the colour is closed off.
    fn is_closed_off_at(&self, colour: Colour, point: Point) -> bool
        requires { point < length self.now.cells }
        ensures { (result ≡ true) ↔ IsClosedOffAt self.now colour point }
    {
        let mut around = NearPoints::new();
        around.look_around(self.size(), point);
        for near in around.as_slice() {
            if !self.closes(colour, *near) {
                return false;
            }
        }
        self.get(point).is(Cell::Empty)
    }

    /// Whether a point is declared for nobody, or closed off.
    pub(crate) fn is_closed_off(&self, point: Point) -> bool
        requires { point < length self.now.cells }
        ensures closed { OnTrue result ((c : Colour) → IsDeclared self.now c point
            → IsClosedOffAt self.now c point) }
        ensures broken { OnFalse result (IsBroken self.now point) }
    {
        match self.declared_for(point) {
            None => true,
            Some(colour) => self.is_closed_off_at(colour, point),
        }
    }
}
