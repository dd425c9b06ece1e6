//! The parts of a set of points.

ghost use Rattle.std.specs.Prelude.{◌≡◌, ℕ, ◌*◌, ◌<◌, ◌≤◌, slice_index};
ghost use Rattle.go_grid.specs.Marks.{IsMarked, IsWithin};
ghost use Rattle.go_grid.specs.inner.Work.{IsListed};
ghost use Rattle.go_grid.specs.Parts.{ArePartLabels, label};

use crate::fills::{Work, idle, spread, zeroes};
use crate::grid::{MOST_POINTS, Point, Size};
use crate::points::Points;

/// A label for each point of the largest board.
pub type Labels = [Point; MOST_POINTS];

/// The label of a point.
pub fn label_of(labels: &Labels, point: Point) -> Point
    requires { point < MOST_POINTS }
    ensures { result ≡ label labels.now point }
{
    labels[usize::from(point.0)]
}

/// The parts of a set that walks over it join: for each of its points the lowest point of its part.
pub fn components(size: Size, within: &Points) -> Labels
    requires { IsWithin (size.columns * size.rows) within.now }
    ensures { ArePartLabels size.columns (IsMarked within.now) result }
{
    let mut labels = zeroes();
    let mut work = idle();
    for number in 0..size.area() {
        let point = Point(number);
        if within.contains(point) && !work.marks.contains(point) {
            let from = work.count;
            spread(size, within, &mut work, point);
            put_label(&work, from, point, &mut labels);
        }
    }
    labels
}

/// Labels the points that a fill has met from a place of its list on.
fn put_label(work: &Work, from: u16, part: Point, labels: &mut Labels)
    requires most { work.now.count ≤ MOST_POINTS }
    requires inside { (i : ℕ) → i < work.now.count → slice_index work.now.points i < MOST_POINTS }
    ensures put { (p : ℕ) → IsListed from work.now p → label labels.new p ≡ part }
    ensures other { (p : ℕ) → ¬ IsListed from work.now p → label labels.new p ≡ label labels.old p }
{
    for index in from..work.count {
        let point = work.points[usize::from(index)];
        labels[usize::from(point.0)] = part;
    }
}
