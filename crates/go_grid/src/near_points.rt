//! The neighbours of a point.

ghost use Rattle.std.specs.Prelude.{◌≡◌, ◌+◌, ◌-◌, ◌*◌, ◌%◌, ◌<◌, ◌≤◌, ◌↔◌, All, IfSome};
ghost use Rattle.go_grid.specs.Board.{AreAround, AreNear};
ghost use Rattle.std.specs.Option.{SomeIff};

use crate::grid::{MOST_POINTS, Point, Size};
use std::marker::Model;

/// The points directly above, left, right and below a point, where the board has them.
#[derive(Clone, Copy, Debug)]
pub struct Near {
    pub up: Option<Point>,
    pub left: Option<Point>,
    pub right: Option<Point>,
    pub down: Option<Point>,
}

/// The neighbours of a point of a board of the size.
#[tactic(auto, using(crate::proofs::NearLemmas::right_inside))]
pub fn neighbours(size: Size, point: Point) -> Near
    requires { point < size.columns * size.rows }
    ensures up { SomeIff result.up (size.columns ≤ point) (point - size.columns) }
    ensures left { SomeIff result.left (0 < point % size.columns) (point - 1) }
    ensures right { SomeIff result.right (point % size.columns + 1 < size.columns) (point + 1) }
    ensures down { SomeIff result.down (point + size.columns < size.columns * size.rows)
        (point + size.columns) }
    ensures near { AreNear size.columns
        (size.columns * size.rows) point result.up result.left result.right result.down }
    ensures inside { IfSome result.right (λ q. q < size.columns * size.rows) }
{
    let columns = u16::from(size.columns);
    let number = point.0;
    let column = number % columns;
    let up = if columns <= number {
        Some(Point(number - columns))
    } else {
        None
    };
    let left = if column > 0 {
        Some(Point(number - 1))
    } else {
        None
    };
    let right = if column + 1 < columns {
        Some(Point(number + 1))
    } else {
        None
    };
    let down = if number + columns < size.area() {
        Some(Point(number + columns))
    } else {
        None
    };
    Near {
        up,
        left,
        right,
        down,
    }
}

/// The points next to a point, at most four.
#[derive(Drop)]
pub struct NearPoints {
    points: [Point; 4],
    number: usize,
}

impl Model for NearPoints {
    ghost use Rattle.std.specs.Prelude.{◌≡◌, ℕ, List, length, take, ◌≤◌};

    ghost Value = { List ℕ };

    ghost view = { λ a. take a.number a.points };

    ghost invariant = { λ a. (length a.points ≡ 4) × (a.number ≤ 4) };
}

impl NearPoints {
    ghost use Rattle.std.specs.Prelude.{[], Contains, Some, length, ◌⊎◌, ℕ};

    /// No point.
    pub fn new() -> NearPoints
        ensures { result ≡ [] }
    {
        NearPoints {
            points: [Point(0); 4],
            number: 0,
        }
    }

    /// Drops all points.
    fn clear(&mut self)
        ensures { self.new ≡ [] }
    {
        self.number = 0;
    }

    /// Takes the points next to a point of a board of the size in place of those that it had. Filled in place, since a
    /// copy of the few points costs more than the rest.
    pub fn look_around(&mut self, size: Size, point: Point)
        requires { point < size.columns * size.rows }
        ensures around { AreAround size.columns (size.columns * size.rows) point self.new }
        ensures on_board { All (λ q. q < size.columns * size.rows) self.new }
        ensures inside { All (λ q. q < MOST_POINTS) self.new }
    {
        let near = neighbours(size, point);
        self.clear();
        self.add(near.up);
        self.add(near.left);
        self.add(near.right);
        self.add(near.down);
    }

    fn add(&mut self, point: Option<Point>)
        requires { length self.old < 4 }
        ensures more { length self.new ≤ length self.old + 1 }
        ensures points { (q : ℕ) → Contains self.new q ↔ (Contains self.old q ⊎ (point ≡ Some q)) }
    {
        if let Some(near) = point {
            self.points[self.number] = near;
            self.number += 1;
        }
    }

    /// The points.
    pub fn as_slice(&self) -> &[Point]
        ensures { result.now ≡ self.now }
    {
        &self.points[..self.number]
    }
}
