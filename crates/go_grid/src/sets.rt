//! Sets of points of a board.

ghost use Rattle.std.specs.Prelude.{◌≡◌, ◌*◌, ◌<◌, length};
ghost use Rattle.go_grid.specs.Board.{cell_at};
ghost use Rattle.go_grid.specs.Marks.{IsMarked, Touches, IsWithin, Marks};

use crate::boards::Board;
use crate::fills::touches;
use crate::grid::{Cell, Size};
use crate::points::Points;

/// The points whose cell is the given one.
pub(crate) fn holding(board: &Board, cell: Cell) -> Points
    ensures { Marks result (λ p. (p < length board.now.cells) × (cell_at board.now p ≡ cell)) }
{
    let size = board.size();
    Points::chosen(size.area(), |point| board.get(point).is(cell))
}

/// The points of `within` that are next to a point of the set.
pub fn edge(size: Size, within: &Points, points: &Points) -> Points
    requires within { IsWithin (size.columns * size.rows) within.now }
    requires inside { IsWithin (size.columns * size.rows) points.now }
    ensures { Marks result (λ p. IsMarked within.now p × Touches size.columns points.now p) }
{
    Points::chosen(size.area(), |point| {
        within.contains(point) && touches(size, points, point)
    })
}
