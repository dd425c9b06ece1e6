//! Chains and liberties of a board.

ghost use Rattle.std.specs.Prelude.{◌<◌, length, IfOk, MatchOption};

use crate::boards::Board;
use crate::fills::{fill, fill_all};
use crate::grid::{Cell, Colour, Point};
use crate::points::Points;
use crate::sets::{edge, holding};
use std::alloc::AllocError;

impl Board {
    ghost use Rattle.go_grid.specs.declared.grid.Colour.{Colour};
    ghost use Rattle.go_grid.specs.declared.grid.Colour.TheVariants.{Black, White};
    ghost use Rattle.std.specs.Bool.{OnTrue, OnFalse};
    ghost use Rattle.go_grid.specs.Board.{HasStone, IsEmpty, Lacks, stone};
    ghost use Rattle.go_grid.specs.inner.Settled.{IsSettledAt};
    ghost use Rattle.go_grid.specs.Chain.{InChain, IsLiberty, HasLiberty, IsSettled, StoneAt, IsChoked, IsUnsettled, IsFirstUnsettled};
    ghost use Rattle.go_grid.specs.Marks.{Marks, Lists};

    /// The stones of the colour.
    pub fn stones(&self, colour: Colour) -> Points
        ensures { Marks result (HasStone self.now colour) }
    {
        match colour {
            Colour::Black => holding(self, Cell::Black),
            Colour::White => holding(self, Cell::White),
        }
    }

    /// The points that hold no stone of the colour.
    pub fn lacking(&self, colour: Colour) -> Points
        ensures { Marks result (Lacks self.now colour) }
    {
        self.stones(colour).complement(self.size())
    }

    /// The empty points.
    pub fn empties(&self) -> Points
        ensures { Marks result (IsEmpty self.now) }
    {
        holding(self, Cell::Empty)
    }

    /// The chain of a stone of the colour.
    pub fn chain(&self, colour: Colour, stone: Point) -> Points
        requires { HasStone self.now colour stone }
        ensures { Marks result (InChain self.now colour stone) }
    {
        fill(self.size(), &self.stones(colour), stone)
    }

    /// The liberties of the chain of a stone of the colour.
    pub fn liberties(&self, colour: Colour, stone: Point) -> Points
        requires { HasStone self.now colour stone }
        ensures { Marks result (IsLiberty self.now colour stone) }
    {
        edge(self.size(), &self.empties(), &self.chain(colour, stone))
    }

    /// The colour of the stone at a point.
    pub fn colour_at(&self, point: Point) -> Option<Colour>
        requires { point < length self.now.cells }
        ensures { MatchOption result (IsEmpty self.now point) (λ c. HasStone self.now c point) }
    {
        match self.get(point) {
            Cell::Empty => None,
            Cell::Black => Some(Colour::Black),
            Cell::White => Some(Colour::White),
        }
    }

    /// The stones of the colour whose chains have a liberty.
    pub fn breathing(&self, colour: Colour) -> Points
        ensures { Marks result (λ p. HasStone self.now colour p × HasLiberty self.now colour p) }
    {
        let size = self.size();
        let stones = self.stones(colour);
        fill_all(size, &stones, &edge(size, &stones, &self.empties()))
    }

    /// The stones of the chain of the stone at a point.
    pub fn chain_of(&self, point: Point) -> Result<Vec<Point>, AllocError>
        requires { StoneAt self.now point }
        ensures { IfOk result (λ points. (c : Colour) → HasStone self.now c point
            → Lists points.items (InChain self.now c point)) }
    {
        match self.colour_at(point) {
            Some(colour) => self.chain(colour, point).to_list(self.allocator()),
            // The caller asks of a stone only.
            None => unreachable!(),
        }
    }

    /// The liberties of the chain of the stone at a point.
    pub fn liberties_of(&self, point: Point) -> Result<Vec<Point>, AllocError>
        requires { StoneAt self.now point }
        ensures { IfOk result (λ points. (c : Colour) → HasStone self.now c point
            → Lists points.items (IsLiberty self.now c point)) }
    {
        match self.colour_at(point) {
            Some(colour) => self.liberties(colour, point).to_list(self.allocator()),
            // The caller asks of a stone only.
            None => unreachable!(),
        }
    }

    /// Whether a point is empty or its stone is among the given ones with a liberty.
    fn is_free(&self, black: &Points, white: &Points, point: Point) -> bool
        requires point { point < length self.now.cells }
        requires black { Marks black.now (λ p. HasStone self.now Black p
            × HasLiberty self.now Black p) }
        requires white { Marks white.now (λ p. HasStone self.now White p
            × HasLiberty self.now White p) }
        ensures free { OnTrue result ((c : Colour) → HasStone self.now c point
            → HasLiberty self.now c point) }
        ensures choked { OnFalse result (IsChoked self.now point) }
    {
        match self.colour_at(point) {
            None => true,
            Some(Colour::Black) => black.contains(point),
            Some(Colour::White) => white.contains(point),
        }
    }

    /// Whether a point is free, and closed off where it is declared.
    fn is_settled_at(&self, black: &Points, white: &Points, point: Point) -> bool
        requires point { point < length self.now.cells }
        requires black { Marks black.now (λ p. HasStone self.now Black p
            × HasLiberty self.now Black p) }
        requires white { Marks white.now (λ p. HasStone self.now White p
            × HasLiberty self.now White p) }
        ensures settled { OnTrue result (IsSettledAt self.now point) }
        ensures unsettled { OnFalse result (IsUnsettled self.now point) }
    {
        self.is_free(black, white, point) && self.is_closed_off(point)
    }

    /// The lowest stone whose chain has no liberty or declared point that isn't closed off, or `None` where the board
    /// is settled.
    pub fn unsettled(&self) -> Result<Option<Point>, AllocError>
        ensures { IfOk result
            (λ r. MatchOption r (IsSettled self.now) (IsFirstUnsettled self.now)) }
    {
        let black = self.breathing(Colour::Black);
        let white = self.breathing(Colour::White);
        for number in 0..self.size().area() {
            if !self.is_settled_at(&black, &white, Point(number)) {
                return Ok(Some(Point(number)));
            }
        }
        Ok(None)
    }
}
