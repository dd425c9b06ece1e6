//! Boards.

ghost use Rattle.std.specs.Prelude.{◌≡◌, ◌-◌, ◌*◌, ◌<◌, ◌≤◌, length, IfOk, [], slice_set, replicate};

use crate::grid::{Cell, Colour, MOST_POINTS, Point, Size};
use std::alloc::{AllocError, Global};
use std::marker::Model;

/// A board: its size, a cell for each of its points, and the colours for which points are declared.
#[derive(Drop)]
pub struct Board {
    size: Size,
    cells: Vec<Cell>,
    /// The colour of each point, without an item where nothing is declared.
    declared: Vec<Option<Colour>>,
}

impl Model for Board {
    ghost use Rattle.go_grid.specs.Board.{Board, IsBoard};
    ghost use Rattle.std.specs.Prelude.{◌≡◌, ◌*◌, length};

    ghost Value = { Board };

    ghost view = { λ b. record {
      columns = b.size.columns;
      rows = b.size.rows;
      cells = b.cells.items;
      declared = b.declared.items;
    } };

    ghost invariant = { λ b. length b.cells.items ≡ b.size.columns * b.size.rows };
}

impl Board {
    ghost use Rattle.go_grid.specs.Board.{Board, DeclaresNothing, IsBoard, cell_at, declared_at};
    ghost use Rattle.std.specs.Bool.{OnTrue};
    ghost use Rattle.go_grid.specs.declared.grid.Cell.TheVariants.{Empty};

    /// A board of the size without stones, and with no point declared.
    pub fn empty(alloc: Global, size: Size) -> Result<Board, AllocError>
        ensures { IfOk result (λ b. b ≡ record {
          columns = size.columns;
          rows = size.rows;
          cells = replicate (size.columns * size.rows) Empty;
          declared = [];
        }) }
    {
        let cells = vec![in alloc; Cell::Empty; usize::from(size.area())]?;
        Ok(Board {
            size,
            cells,
            declared: Vec::new(alloc),
        })
    }

    /// The same board once more.
    pub fn copy(&self) -> Result<Board, AllocError>
        ensures { IfOk result (λ b. b ≡ self.now) }
    {
        Ok(Board {
            size: self.size,
            cells: self.cells.clone()?,
            declared: self.declared.clone()?,
        })
    }

    /// The board's size.
    #[tactic(auto, using(crate::proofs::BoardLemmas::area_most))]
    pub fn size(&self) -> Size
        ensures columns { result.columns ≡ self.now.columns }
        ensures rows { result.rows ≡ self.now.rows }
        ensures grid { IsBoard self.now }
        ensures area { result.columns * result.rows ≡ length self.now.cells }
        ensures most { length self.now.cells ≤ MOST_POINTS }
    {
        self.size
    }

    /// What a point of the board holds.
    pub fn get(&self, point: Point) -> Cell
        requires { point < length self.now.cells }
        ensures { result ≡ cell_at self.now point }
    {
        self.cells[usize::from(point.0)]
    }

    /// Makes a point of the board hold the cell, and changes no other point.
    pub fn set(&mut self, point: Point, cell: Cell)
        requires { point < length self.old.cells }
        ensures { self.new ≡ record self.old { cells = slice_set self.old.cells point cell } }
    {
        self.cells[usize::from(point.0)] = cell;
    }

    /// The colour for which a point is declared, if it is.
    pub fn declared_for(&self, point: Point) -> Option<Colour>
        ensures { result ≡ declared_at self.now point }
    {
        let place = usize::from(point.0);
        if place < self.declared.len() {
            self.declared[place]
        } else {
            None
        }
    }

    /// Whether no point has a colour for which it could be declared.
    pub fn declares_nothing(&self) -> bool
        ensures { OnTrue result (DeclaresNothing self.now) }
    {
        self.declared.is_empty()
    }

    /// Makes the declared points those for which the list has a colour, and changes no cell.
    pub fn declare(&mut self, declared: Vec<Option<Colour>>)
        ensures { self.new ≡ record self.old { declared = declared.items } }
    {
        self.declared = declared;
    }

    /// Where the board's memory comes from.
    pub fn allocator(&self) -> Global {
        *self.cells.allocator()
    }
}
