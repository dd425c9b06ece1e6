//! Regions from drawings: all points of a small board.

ghost use Rattle.std.specs.Prelude.{◌≡◌, ℕ, ◌*◌, ◌<◌, ◌≤◌, IfOk, length, slice_index};
ghost use Rattle.go_grid.specs.Board.{AreNear};
ghost use Rattle.go_grid.specs.Region.{touch_at};

use crate::boards::cell_of;
use go_grid::{Cell, Point, Region, Size, Touch, neighbours};
use std::alloc::{AllocError, Global};

/// A region: what its points hold, and next to which of them an alive stone of each colour stands. X is black, O is
/// white, and a mark is an X too.
#[derive(Clone, Copy, Debug)]
pub struct Drawing {
    pub columns: u8,
    pub rows: u8,
    pub cells: &'static [u8],
    pub black: &'static [u8],
    pub white: &'static [u8],
}

/// All points of a board.
fn points_of(alloc: Global, size: Size) -> Result<Vec<Point>, AllocError>
    ensures some { 0 < size.columns * size.rows }
    ensures long { IfOk result (λ points. length points.items ≡ size.columns * size.rows) }
    ensures each { IfOk result (λ points. (k : ℕ) → k < size.columns * size.rows
        → slice_index points.items k ≡ k) }
{
    let mut points = Vec::new(alloc);
    for number in 0..size.area() {
        points.push(Point(number))?;
    }
    Ok(points)
}

/// What they hold.
fn cells_of(alloc: Global, size: Size, cells: &[u8]) -> Result<Vec<Cell>, AllocError>
    ensures { IfOk result (λ cells. length cells.items ≡ size.columns * size.rows) }
{
    let mut held = Vec::new(alloc);
    for number in 0..size.area() {
        held.push(cell_of(cells.get(usize::from(number))))?;
    }
    Ok(held)
}

/// The place of a point.
fn place(point: Option<Point>) -> Option<u16>
    ensures { result ≡ point }
{
    match point {
        Some(point) => Some(point.0),
        None => None,
    }
}

/// Whether there is a mark at a number.
fn is_marked(marks: &[u8], number: u16) -> bool {
    cell_of(marks.get(usize::from(number))).is(Cell::Black)
}

/// What is next to a point.
fn touch_of(size: Size, number: u16, drawn: Drawing) -> Touch
    requires { number < size.columns * size.rows }
    ensures { AreNear size.columns (size.columns * size.rows) number
        result.up result.left result.right result.down }
{
    let near = neighbours(size, Point(number));
    Touch {
        black: is_marked(drawn.black, number),
        white: is_marked(drawn.white, number),
        up: place(near.up),
        left: place(near.left),
        right: place(near.right),
        down: place(near.down),
    }
}

/// What is next to all points.
fn touches_of(alloc: Global, size: Size, drawn: Drawing) -> Result<Vec<Touch>, AllocError>
    ensures long { IfOk result (λ touch. length touch.items ≡ size.columns * size.rows) }
    ensures near { IfOk result (λ touch. (k : ℕ) → k < size.columns * size.rows
        → AreNear size.columns (size.columns * size.rows) k
        (touch_at touch.items k).up (touch_at touch.items k).left
        (touch_at touch.items k).right (touch_at touch.items k).down) }
{
    let mut touch = Vec::new(alloc);
    for number in 0..size.area() {
        touch.push(touch_of(size, number, drawn))?;
    }
    Ok(touch)
}

/// The region that is drawn, and one of a single point where no board has the size.
pub fn region(alloc: Global, drawn: Drawing) -> Result<Region, AllocError> {
    let size = Size::new(drawn.columns, drawn.rows).unwrap_or(Size {
        columns: 1,
        rows: 1,
    });
    let points = points_of(alloc, size)?;
    let cells = cells_of(alloc, size, drawn.cells)?;
    let touch = touches_of(alloc, size, drawn)?;
    Ok(Region {
        size,
        points,
        cells,
        touch,
    })
}
