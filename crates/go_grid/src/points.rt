//! Sets of points.

ghost use Rattle.std.specs.Prelude.{◌≡◌, ℕ, ◌*◌, ◌<◌, ◌≤◌, ◌↔◌, ◌⊎◌, true, All, Contains, IfOk, count_by, replicate, false, ◌+◌};
ghost use Rattle.std.specs.Bool.{OnFalse, OnTrue};
ghost use Rattle.go_grid.specs.Marks.{AreChosen, IsMarked, Lists, Marks};

use crate::grid::{MOST_POINTS, Point, Size};
use std::alloc::{AllocError, Global};
use std::marker::Model;

/// A set of points: a mark for each point of the largest board.
#[derive(Clone, Copy, Debug)]
pub struct Points {
    marks: [bool; MOST_POINTS],
}

impl Model for Points {
    ghost use Rattle.std.specs.Prelude.{List, Bool};

    ghost Value = { List Bool };

    ghost view = { λ s. s.marks };

    ghost inverse = { λ marks. record { marks = marks } };
}

impl Points {
    /// No point.
    pub fn new() -> Points
        ensures { Marks result (λ _. ⊥) }
    {
        Points { marks: blank() }
    }

    /// The points of a list.
    pub fn of(list: &[Point]) -> Points
        requires { All (λ p. p < MOST_POINTS) list.now }
        ensures { Marks result (Contains list.now) }
    {
        let mut points = Points::new();
        for point in list {
            points.insert(*point);
        }
        points
    }

    /// Whether the point is in the set.
    pub fn contains(&self, point: Point) -> bool
        ensures { (result ≡ true) ↔ IsMarked self.now point }
    {
        let place = usize::from(point.0);
        place < MOST_POINTS && self.marks[place]
    }

    /// Adds a point.
    pub fn insert(&mut self, point: Point)
        requires { point < MOST_POINTS }
        ensures marks { Marks self.new (λ q. IsMarked self.old q ⊎ (q ≡ point)) }
        ensures number { ¬ IsMarked self.old point
            → count_by (λ m. m) self.new ≡ count_by (λ m. m) self.old + 1 }
        ensures most { count_by (λ m. m) self.new ≤ MOST_POINTS }
    {
        self.marks[usize::from(point.0)] = true;
    }

    /// Takes a point out.
    pub fn remove(&mut self, point: Point)
        requires { point < MOST_POINTS }
        ensures { Marks self.new (λ q. IsMarked self.old q × (q ≡ point → ⊥)) }
    {
        self.marks[usize::from(point.0)] = false;
    }

    /// Puts a point in where it is to be marked, else takes it out.
    fn put(&mut self, point: Point, marked: bool)
        requires { point < MOST_POINTS }
        ensures { Marks self.new (λ q. (IsMarked self.old q × (q ≡ point → ⊥))
            ⊎ ((marked ≡ true) × (q ≡ point))) }
    {
        self.marks[usize::from(point.0)] = marked;
    }

    /// The points below a number for which the test holds. Each is written, which runs several at a time where the test allows.
    pub fn chosen<F: Fn(Point) -> bool>(number: u16, test: F) -> Points
        requires number { number ≤ MOST_POINTS }
        requires test { (p : ℕ) → p < number → F.pre test p }
        ensures { AreChosen number (F.post test) result }
    {
        let mut points = Points::new();
        for at in 0..number {
            points.put(Point(at), test(Point(at)));
        }
        points
    }

    /// The points of either set.
    pub fn union(&self, other: &Points) -> Points
        ensures { Marks result (λ q. IsMarked self.now q ⊎ IsMarked other.now q) }
    {
        let (mine, theirs) = (&self.marks, &other.marks);
        Points::chosen(MOST_POINTS as u16, |point| {
            let place = usize::from(point.0);
            mine[place] || theirs[place]
        })
    }

    /// The points of this set that are not in the other.
    pub fn difference(&self, other: &Points) -> Points
        ensures { Marks result (λ q. IsMarked self.now q × ¬ IsMarked other.now q) }
    {
        let (mine, theirs) = (&self.marks, &other.marks);
        Points::chosen(MOST_POINTS as u16, |point| {
            let place = usize::from(point.0);
            mine[place] && !theirs[place]
        })
    }

    /// The points of a board that are not in the set.
    pub fn complement(&self, size: Size) -> Points
        ensures { Marks result (λ p. (p < size.columns * size.rows) × ¬ IsMarked self.now p) }
    {
        Points::chosen(size.area(), |point| !self.contains(point))
    }

    /// The points of the set, lowest first.
    pub fn to_list(&self, alloc: Global) -> Result<Vec<Point>, AllocError>
        ensures { IfOk result (λ points. Lists points.items (IsMarked self.now)) }
    {
        let mut points = Vec::new(alloc);
        for number in 0..MOST_POINTS as u16 {
            if self.marks[usize::from(number)] {
                points.push(Point(number))?;
            }
        }
        Ok(points)
    }

    /// Whether the set has no point.
    pub fn is_empty(&self) -> bool
        ensures none { OnTrue result ((p : ℕ) → ¬ IsMarked self.now p) }
        ensures some { OnFalse result ((p : ℕ) × IsMarked self.now p) }
    {
        for mark in &self.marks {
            if *mark {
                return false;
            }
        }
        true
    }

    /// How many points the set has.
    pub fn len(&self) -> u16
        ensures { result ≡ count_by (λ m. m) self.now }
    {
        self.marks.iter().filter(|mark| **mark).count() as u16
    }
}

/// No mark.
fn blank() -> [bool; MOST_POINTS]
    ensures { result ≡ replicate MOST_POINTS false }
{
    [false; MOST_POINTS]
}
