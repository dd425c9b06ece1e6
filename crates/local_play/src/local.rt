//! Local positions as numbers.

ghost use Rattle.std.specs.Prelude.{◌≡◌, ℕ, ◌+◌, ◌*◌, ◌<◌, ◌≤◌, ◌↔◌, List, length, count_by};
ghost use Rattle.go_grid.specs.Stones.{is_of};
ghost use Rattle.go_grid.specs.declared.grid.Cell.{Cell};
ghost use Rattle.go_grid.specs.declared.grid.Cell.TheVariants.{Empty};
ghost use Rattle.local_play.specs.LocalPlay.{Holds, held_at, with_stone};
ghost use Rattle.local_play.specs.Packed.{code, pack, IsUnpacked};
ghost use Rattle.local_play.specs.inner.Packed.{cleared};
ghost use Rattle.local_play.specs.Places.{Has};

use crate::places::{Cells, MOST_PLACES, Places};
use go_grid::{Cell, Colour, Region};
use std::hash::Hash;
use std::marker::Model;

/// A local position: two bits for each place of a region, those of place `i` being the bits `2i` and `2i + 1`, with 0 for
/// empty, 1 for black and 2 for white.
#[derive(Clone, Copy, Debug, PartialEq, Eq, Hash)]
pub struct Local(pub u64);

impl Model for Local {
    ghost Value = { ℕ };

    ghost view = { λ l. l.0 };

    ghost inverse = { λ n. record { 0 = n } };
}

/// The code of a cell.
fn code(cell: Cell) -> u64
    ensures value { result ≡ code cell }
    ensures small { result < 3 }
{
    match cell {
        Cell::Empty => 0,
        Cell::Black => 1,
        Cell::White => 2,
    }
}

/// The cell with a code.
fn decoded(digit: u64) -> Cell
    ensures { (c : Cell) → digit ≡ code c → result ≡ c }
{
    match digit {
        0 => Cell::Empty,
        1 => Cell::Black,
        _ => Cell::White,
    }
}

/// The number of the position that a list of cells is.
fn pack(cells: &[Cell]) -> u64
    requires { length cells.now ≤ MOST_PLACES }
    ensures { result ≡ pack cells.now }
{
    let mut number = 0;
    for place in (0..cells.len()).rev() {
        number = 4 * number + code(cells[place]);
    }
    number
}

impl Local {
    /// The position that holds the listed cells.
    pub fn of(cells: &[Cell]) -> Local
        requires { length cells.now ≤ MOST_PLACES }
        ensures { result ≡ pack cells.now }
    {
        Local(pack(cells))
    }

    /// How many stones of a colour there are.
    pub fn count_of(self, colour: Colour) -> u8
        ensures { (cells : List Cell) → self ≡ pack cells
            → result ≡ count_by (is_of colour) cells }
    {
        self.stones(colour).count()
    }

    /// The stones of a colour. What the set says of places past the region's is that they hold none.
    pub(crate) fn stones(self, colour: Colour) -> Places
        ensures { (cells : List Cell) → self ≡ pack cells → (q : ℕ)
            → Has result q ↔ Holds cells colour q }
    {
        match colour {
            Colour::Black => Places(self.0),
            Colour::White => Places(self.0 >> 1),
        }
    }

    /// The position with a stone more.
    pub(crate) fn with_stone(self, place: usize, colour: Colour) -> Local
        requires { place < MOST_PLACES }
        ensures { (cells : List Cell) → self ≡ pack cells → place < length cells
            → held_at cells place ≡ Empty → result ≡ pack (with_stone cells place colour) }
    {
        match colour {
            Colour::Black => Local(self.0 | 1 << (2 * place)),
            Colour::White => Local(self.0 | 2 << (2 * place)),
        }
    }

    /// The position without the stones of a colour on the places of a set.
    pub(crate) fn without(self, colour: Colour, gone: Places) -> Local
        ensures { (cells : List Cell) → self ≡ pack cells
            → ((q : ℕ) → Has gone q → Holds cells colour q) → result ≡ pack (cleared gone.0 cells) }
    {
        match colour {
            Colour::Black => Local(self.0 & !gone.alone()),
            Colour::White => Local(self.0 & !(gone.alone() << 1)),
        }
    }

    /// What each place holds. Places past the region's are empty.
    pub fn cells(self) -> Cells
        ensures { (cells : List Cell) → length cells ≤ MOST_PLACES → self ≡ pack cells
            → IsUnpacked cells result }
    {
        let mut cells = [Cell::Empty; MOST_PLACES];
        let mut rest = self.0;
        for place in 0..MOST_PLACES {
            cells[place] = decoded(rest % 4);
            rest /= 4;
        }
        cells
    }
}

/// The position in which each point of the region, which has at most 32, holds what the region says.
pub fn start(region: &Region) -> Local
    requires { length region.now.points ≤ MOST_PLACES }
    ensures packed { result ≡ pack region.now.cells }
    ensures full { length region.now.cells ≡ length region.now.points }
{
    let shape = region;
    Local::of(&shape.cells)
}
