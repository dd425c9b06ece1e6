//! What is next to the points of a region.

ghost use Rattle.std.specs.Prelude.{◌≡◌, ℕ, ◌*◌, ◌<◌, ◌≤◌, All, IfOk, length, slice_index};
ghost use Rattle.go_grid.specs.Marks.{IsWithin};
ghost use Rattle.go_grid.specs.Region.{touch_at};
ghost use Rattle.region_cut.specs.inner.Places.{IsPlace, IsTouch};

use go_grid::{MOST_POINTS, Point, Points, Size, Touch, neighbours, touches};
use std::alloc::{AllocError, Global};

/// The place of a point in a list, if there is a point and the list has it.
fn place_of(points: &[Point], point: Option<Point>) -> Option<u16>
    requires { length points.now ≤ MOST_POINTS }
    ensures { IsPlace points.now point result }
{
    let wanted = point?;
    let mut place = 0u16;
    'seeking: for candidate in points {
        if *candidate == wanted {
            return Some(place);
        }
        place += 1;
    }
    None
}

/// What is next to a point: whether marked stones of each colour are, and which places of the list.
fn touch_of(size: Size, points: &[Point], black: &Points, white: &Points, point: Point) -> Touch
    requires short { length points.now ≤ MOST_POINTS }
    requires points { All (λ p. p < size.columns * size.rows) points.now }
    requires black { IsWithin (size.columns * size.rows) black.now }
    requires white { IsWithin (size.columns * size.rows) white.now }
    requires point { point < size.columns * size.rows }
    ensures { IsTouch size.columns points.now black.now white.now point result }
{
    let near = neighbours(size, point);
    Touch {
        black: touches(size, black, point),
        white: touches(size, white, point),
        up: place_of(points, near.up),
        left: place_of(points, near.left),
        right: place_of(points, near.right),
        down: place_of(points, near.down),
    }
}

/// What is next to each point of a list.
pub(crate) fn touches_of(
    alloc: Global,
    size: Size,
    points: &[Point],
    black: &Points,
    white: &Points,
) -> Result<Vec<Touch>, AllocError>
    requires short { length points.now ≤ MOST_POINTS }
    requires points { All (λ p. p < size.columns * size.rows) points.now }
    requires black { IsWithin (size.columns * size.rows) black.now }
    requires white { IsWithin (size.columns * size.rows) white.now }
    ensures long { IfOk result (λ ts. length ts.items ≡ length points.now) }
    ensures each { IfOk result (λ ts. (i : ℕ) → i < length points.now
        → IsTouch size.columns points.now black.now white.now
        (slice_index points.now i) (touch_at ts.items i)) }
{
    let mut found = Vec::new(alloc);
    'touching: for point in points {
        found.push(touch_of(size, points, black, white, *point))?;
    }
    Ok(found)
}
