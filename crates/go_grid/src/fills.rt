//! Walks over a set of points, by marks.

ghost use Rattle.std.specs.Prelude.{◌≡◌, ℕ, ◌+◌, ◌-◌, ◌*◌, ◌<◌, ◌≤◌, ◌↔◌, ◌⊎◌, Bool, true, false, IfSome, Some, count_by, replicate, List, slice_index};
ghost use Rattle.go_grid.specs.Walk.{Joined};
ghost use Rattle.go_grid.specs.Marks.{IsMarked, Touches, IsWithin, Marks};
ghost use Rattle.go_grid.specs.inner.Work.{IsListed, IsFilled, IsFilling, IsNear};

use crate::grid::{MOST_POINTS, Point, Size};
use crate::near_points::{Near, neighbours};
use crate::points::Points;

/// Point 0 for each point of the largest board.
pub(crate) fn zeroes() -> [Point; MOST_POINTS]
    ensures { result ≡ replicate MOST_POINTS 0 }
{
    [Point(0); MOST_POINTS]
}

/// Whether the point is there, and in the set.
fn has(points: &Points, point: Option<Point>) -> bool
    requires { IfSome point (λ p. p < MOST_POINTS) }
    ensures { (result ≡ true) ↔ ((p : ℕ) × (point ≡ Some p) × IsMarked points.now p) }
{
    match point {
        Some(p) => points.contains(p),
        None => false,
    }
}

/// Whether some neighbour of the point is in the set.
#[tactic(auto, using(crate::proofs::BoardLemmas::area_most))]
pub fn touches(size: Size, points: &Points, point: Point) -> bool
    requires on_board { point < size.columns * size.rows }
    requires inside { IsWithin (size.columns * size.rows) points.now }
    ensures { (result ≡ true) ↔ Touches size.columns points.now point }
{
    let near = neighbours(size, point);
    has(points, near.up)
        || has(points, near.left)
        || has(points, near.right)
        || has(points, near.down)
}

/// The points that a fill has met, by marks and in the order in which it met them.
#[derive(Drop)]
pub(crate) struct Work {
    pub marks: Points,
    pub points: [Point; MOST_POINTS],
    pub count: u16,
}

/// A fill that has met no point.
pub(crate) fn idle() -> Work
    ensures empty { Marks result.marks (λ _. ⊥) }
    ensures none { result.count ≡ 0 }
    ensures filled { (columns : ℕ) (within : List Bool) → IsFilled columns within result }
{
    Work {
        marks: Points::new(),
        points: zeroes(),
        count: 0,
    }
}

/// Meets a point, if the set has it and it wasn't met.
fn enter(within: &Points, work: &mut Work, point: Point)
    requires inside { point < MOST_POINTS }
    requires counted { count_by (λ m. m) work.old.marks ≡ work.old.count }
    ensures met { IsMarked within.now point → IsMarked work.new.marks point }
    ensures kept { (p : ℕ) → IsMarked work.old.marks p → IsMarked work.new.marks p }
    ensures same { (i : ℕ) → i < work.old.count
        → slice_index work.new.points i ≡ slice_index work.old.points i }
    ensures more { work.old.count ≤ work.new.count }
    ensures counted { count_by (λ m. m) work.new.marks ≡ work.new.count }
    ensures under_way { (columns start from done : ℕ) (before : List Bool)
        → (IsMarked within.now point → Joined columns (IsMarked within.now) start point)
        → from ≤ work.old.count → done ≤ work.old.count
        → IsFilling columns within.now before start from done work.old
        → IsFilling columns within.now before start from done work.new }
{
    if within.contains(point) && !work.marks.contains(point) {
        work.marks.insert(point);
        work.points[usize::from(work.count)] = point;
        work.count += 1;
    }
}

/// Meets the point, if it is there, the set has it and it wasn't met.
fn meet(within: &Points, work: &mut Work, point: Option<Point>)
    requires inside { IfSome point (λ p. p < MOST_POINTS) }
    requires counted { count_by (λ m. m) work.old.marks ≡ work.old.count }
    ensures met { (p : ℕ) → point ≡ Some p → IsMarked within.now p → IsMarked work.new.marks p }
    ensures kept { (p : ℕ) → IsMarked work.old.marks p → IsMarked work.new.marks p }
    ensures same { (i : ℕ) → i < work.old.count
        → slice_index work.new.points i ≡ slice_index work.old.points i }
    ensures more { work.old.count ≤ work.new.count }
    ensures counted { count_by (λ m. m) work.new.marks ≡ work.new.count }
    ensures under_way { (columns start from done : ℕ) (before : List Bool)
        → ((p : ℕ) → point ≡ Some p → IsMarked within.now p
        → Joined columns (IsMarked within.now) start p)
        → from ≤ work.old.count → done ≤ work.old.count
        → IsFilling columns within.now before start from done work.old
        → IsFilling columns within.now before start from done work.new }
{
    if let Some(p) = point {
        enter(within, work, p);
    }
}

/// Meets the points next to a point.
fn meet_around(within: &Points, work: &mut Work, near: Near)
    requires inside { (q : ℕ) → IsNear near q → q < MOST_POINTS }
    requires counted { count_by (λ m. m) work.old.marks ≡ work.old.count }
    ensures met { (p : ℕ) → IsNear near p → IsMarked within.now p → IsMarked work.new.marks p }
    ensures kept { (p : ℕ) → IsMarked work.old.marks p → IsMarked work.new.marks p }
    ensures same { (i : ℕ) → i < work.old.count
        → slice_index work.new.points i ≡ slice_index work.old.points i }
    ensures more { work.old.count ≤ work.new.count }
    ensures under_way { (columns start from done : ℕ) (before : List Bool)
        → ((p : ℕ) → IsNear near p → IsMarked within.now p
        → Joined columns (IsMarked within.now) start p)
        → from ≤ work.old.count → done ≤ work.old.count
        → IsFilling columns within.now before start from done work.old
        → IsFilling columns within.now before start from done work.new }
{
    meet(within, work, near.up);
    meet(within, work, near.left);
    meet(within, work, near.right);
    meet(within, work, near.down);
}

/// Meets all points that walks over `within` join to `start`, each of them once.
#[tactic(auto, using(crate::proofs::BoardLemmas::area_most))]
pub(crate) fn spread(size: Size, within: &Points, work: &mut Work, start: Point)
    requires within { IsWithin (size.columns * size.rows) within.now }
    requires starts { IsMarked within.now start }
    requires fresh { ¬ IsMarked work.old.marks start }
    requires filled { IsFilled size.columns within.now work.old }
    ensures filled { IsFilled size.columns within.now work.new }
    ensures met { Marks work.new.marks (λ p. IsMarked work.old.marks p
        ⊎ Joined size.columns (IsMarked within.now) start p) }
    ensures listed { (p : ℕ) → Joined size.columns
        (IsMarked within.now) start p ↔ IsListed work.old.count work.new p }
{
    let mut done = work.count;
    enter(within, work, start);
    'spreading: while done < work.count {
        let near = neighbours(size, work.points[usize::from(done)]);
        meet_around(within, work, near);
        done += 1;
    }
}

/// The points that walks over `within` join to `start`.
pub fn fill(size: Size, within: &Points, start: Point) -> Points
    requires within { IsWithin (size.columns * size.rows) within.now }
    requires starts { IsMarked within.now start }
    ensures { Marks result (Joined size.columns (IsMarked within.now) start) }
{
    let mut work = idle();
    spread(size, within, &mut work, start);
    work.marks
}

/// Whether some point of the one set is next to a point of the other.
pub fn adjoin(size: Size, points: &Points, marks: &Points) -> bool
    requires points { IsWithin (size.columns * size.rows) points.now }
    requires inside { IsWithin (size.columns * size.rows) marks.now }
    ensures { (result ≡ true) ↔ ((p : ℕ) × IsMarked points.now p
        × Touches size.columns marks.now p) }
{
    for number in 0..size.area() {
        if marks.contains(Point(number)) && touches(size, points, Point(number)) {
            return true;
        }
    }
    false
}

/// Whether some point that walks over `within` join to `start` is next to a marked point.
pub fn part_touches(size: Size, within: &Points, start: Point, marks: &Points) -> bool
    requires within { IsWithin (size.columns * size.rows) within.now }
    requires starts { IsMarked within.now start }
    requires inside { IsWithin (size.columns * size.rows) marks.now }
    ensures { (result ≡ true) ↔ ((p : ℕ) × Joined size.columns (IsMarked within.now) start p
        × Touches size.columns marks.now p) }
{
    touches(size, marks, start) || adjoin(size, &fill(size, within, start), marks)
}

/// The points that walks over `within` join to some point of `starts`.
pub fn fill_all(size: Size, within: &Points, starts: &Points) -> Points
    requires within { IsWithin (size.columns * size.rows) within.now }
    requires starts { (p : ℕ) → IsMarked starts.now p → IsMarked within.now p }
    ensures { Marks result (λ p. (s : ℕ) × IsMarked starts.now s
        × Joined size.columns (IsMarked within.now) s p) }
{
    let mut work = idle();
    for number in 0..size.area() {
        let point = Point(number);
        if starts.contains(point) && !work.marks.contains(point) {
            spread(size, within, &mut work, point);
        }
    }
    work.marks
}
