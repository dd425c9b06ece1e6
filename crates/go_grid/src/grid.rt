//! Sizes, points, colours and cells.

ghost use Rattle.std.specs.Prelude.{◌≡◌, ℕ, ◌-◌, ◌*◌, ◌<◌, ◌≤◌, ◌↔◌, ◌⊎◌, true, IfSome, IfNone};

use std::marker::Model;

/// The number of points of the largest board.
pub const MOST_POINTS: usize = 625;

/// A point of a board, by its number: `row * columns + column`, both from 0 at the top left.
#[derive(Clone, Copy, PartialEq, Eq, Debug)]
pub struct Point(pub u16);

impl Model for Point {
    ghost Value = { ℕ };

    ghost view = { λ p. p.0 };

    ghost inverse = { λ n. record { 0 = n } };
}

/// A player's colour.
#[derive(Clone, Copy, PartialEq, Eq, Debug)]
pub enum Colour {
    Black,
    White,
}

/// What a point holds.
#[derive(Clone, Copy, PartialEq, Eq, Debug)]
pub enum Cell {
    Empty,
    Black,
    White,
}

/// A number of columns and a number of rows, each from 1 to 25.
#[derive(Clone, Copy, PartialEq, Eq, Debug)]
pub struct Size {
    pub columns: u8,
    pub rows: u8,
    ghost columns_in: { (1 ≤ columns) × (columns ≤ 25) },
    ghost rows_in: { (1 ≤ rows) × (rows ≤ 25) },
}

impl Size {
    /// A size, or `None` where a number is out of range.
    pub fn new(columns: u8, rows: u8) -> Option<Size>
        ensures some { IfSome result (λ s. (s.columns ≡ columns) × (s.rows ≡ rows)) }
        ensures none { IfNone result ((columns < 1)
            ⊎ ((25 < columns) ⊎ ((rows < 1) ⊎ (25 < rows)))) }
    {
        if columns < 1 || columns > 25 || rows < 1 || rows > 25 {
            return None;
        }
        Some(Size { columns, rows })
    }

    /// The number of points.
    pub fn area(self) -> u16
        ensures value { result ≡ self.columns * self.rows }
        ensures least { 0 < result }
        ensures most { result ≤ MOST_POINTS }
    {
        u16::from(self.columns) * u16::from(self.rows)
    }
}

impl Point {
    /// Whether the two points are the same.
    pub fn is(self, other: Point) -> bool
        ensures { (result ≡ true) ↔ (self ≡ other) }
    {
        self == other
    }
}

impl Colour {
    ghost use Rattle.go_grid.specs.Board.{other};

    /// The opponent's colour.
    pub fn other(self) -> Colour
        ensures { result ≡ other self }
    {
        match self {
            Colour::Black => Colour::White,
            Colour::White => Colour::Black,
        }
    }

    /// Whether the two colours are the same.
    pub fn is(self, other: Colour) -> bool
        ensures { (result ≡ true) ↔ (self ≡ other) }
    {
        self == other
    }
}

impl Cell {
    /// Whether the two cells are the same.
    pub fn is(self, other: Cell) -> bool
        ensures { (result ≡ true) ↔ (self ≡ other) }
    {
        self == other
    }
}
