//! Regions from drawings: points of a small board that walks join.

ghost use Rattle.std.specs.Prelude.{◌≡◌, ℕ, ◌*◌, ◌<◌, ◌≤◌, Contains, IfNone, IfOk, IfSome, Some, length, slice_index};
ghost use Rattle.go_grid.specs.Marks.{IsMarked, IsWithin, Lists};
ghost use Rattle.go_grid.specs.Region.{AreLinks, touch_at};
ghost use Rattle.go_grid.specs.Walk.{Joined};

use crate::boards::cell_of;
use go_grid::{Cell, MOST_POINTS, Point, Points, Region, Size, Touch, fill, neighbours};
use std::alloc::{AllocError, Global};

/// A region on a board of four columns and rows: its points in ascending order, what they hold, and next to which of them
/// an alive stone of each colour stands. X is black, O is white, and a mark is an X too.
#[derive(Clone, Copy, Debug)]
pub struct JoinedDrawing<'a> {
    pub points: &'a [u16],
    pub cells: &'a [u8],
    pub black: &'a [u8],
    pub white: &'a [u8],
}

/// Whether there is a mark at a place.
fn is_marked(marks: &[u8], place: usize) -> bool {
    cell_of(marks.get(place)).is(Cell::Black)
}

/// Those of the points that are on the board.
fn points_of(size: Size, points: &[u16]) -> Points
    ensures { IsWithin (size.columns * size.rows) result }
{
    let mut found = Points::new();
    'marking: for number in points {
        if *number < size.area() {
            found.insert(Point(*number));
        }
    }
    found
}

/// The marked points that walks over marked points join to a point.
fn part_of(
    alloc: Global,
    size: Size,
    within: &Points,
    start: Point,
) -> Result<Vec<Point>, AllocError>
    requires within { IsWithin (size.columns * size.rows) within.now }
    requires starts { IsMarked within.now start }
    ensures { IfOk result (λ ps. Lists ps.items (Joined size.columns (IsMarked within.now) start)) }
{
    let points = fill(size, within, start).to_list(alloc)?;
    Ok(points)
}

/// What so many places hold.
fn cells_of(alloc: Global, count: usize, drawn: JoinedDrawing<'_>) -> Result<Vec<Cell>, AllocError>
    ensures { IfOk result (λ cells. length cells.items ≡ count) }
{
    let mut cells = Vec::new(alloc);
    for place in 0..count {
        cells.push(cell_of(drawn.cells.get(place)))?;
    }
    Ok(cells)
}

/// The place of a point in a list, if there is a point and the list has it.
fn place_of(points: &[Point], point: Option<Point>) -> Option<u16>
    requires { length points.now ≤ MOST_POINTS }
    ensures some { IfSome result (λ j. (j < length points.now)
        × (point ≡ Some (slice_index points.now j))) }
    ensures none { IfNone result ((p : ℕ) → point ≡ Some p → ¬ Contains points.now p) }
{
    let wanted = point?;
    let mut place = 0u16;
    'seeking: for candidate in points {
        if *candidate == wanted {
            return Some(place);
        }
        place += 1;
    }
    None
}

/// What is next to a place.
fn touch_of(size: Size, points: &[Point], place: usize, drawn: JoinedDrawing<'_>) -> Touch
    requires short { length points.now ≤ MOST_POINTS }
    requires place { place < length points.now }
    requires inside { (p : ℕ) → Contains points.now p → p < size.columns * size.rows }
    ensures { AreLinks size.columns points.now (slice_index points.now place) result }
{
    let near = neighbours(size, points[place]);
    Touch {
        black: is_marked(drawn.black, place),
        white: is_marked(drawn.white, place),
        up: place_of(points, near.up),
        left: place_of(points, near.left),
        right: place_of(points, near.right),
        down: place_of(points, near.down),
    }
}

/// What is next to each place.
fn touches_of(
    alloc: Global,
    size: Size,
    points: &[Point],
    drawn: JoinedDrawing<'_>,
) -> Result<Vec<Touch>, AllocError>
    requires short { length points.now ≤ MOST_POINTS }
    requires inside { (p : ℕ) → Contains points.now p → p < size.columns * size.rows }
    ensures long { IfOk result (λ ts. length ts.items ≡ length points.now) }
    ensures links { IfOk result (λ ts. (i : ℕ) → i < length points.now
        → AreLinks size.columns points.now (slice_index points.now i) (touch_at ts.items i)) }
{
    let mut touch = Vec::new(alloc);
    for place in 0..points.len() {
        touch.push(touch_of(size, points, place, drawn))?;
    }
    Ok(touch)
}

/// The region of the points that walks join to the first. There has to be one on the board.
pub fn joined_region(alloc: Global, drawn: JoinedDrawing<'_>) -> Result<Region, AllocError> {
    let size = Size {
        columns: 4,
        rows: 4,
    };
    let within = points_of(size, drawn.points);
    let Some(first) = drawn.points.first() else {
        return Err(AllocError);
    };
    let start = Point(*first);
    if !within.contains(start) {
        return Err(AllocError);
    }
    let points = part_of(alloc, size, &within, start)?;
    if points.len() > 32 {
        return Err(AllocError);
    }
    let cells = cells_of(alloc, points.len(), drawn)?;
    let touch = touches_of(alloc, size, &points, drawn)?;
    Ok(Region {
        size,
        points,
        cells,
        touch,
    })
}
