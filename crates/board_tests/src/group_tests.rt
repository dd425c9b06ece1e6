//! Groups of worked boards, beside a plain closure under links.

use crate::asserts::none_wrong;
use benson_life::{alive, counted, groups};
use drawings::board;
use go_grid::{Board, Colour, NearPoints, Point, Points, Size, fill};
use std::alloc::{AllocError, Global};

/// Whether a point of the set is next to the point.
fn is_beside(size: Size, points: &Points, point: Point) -> bool {
    if point.0 >= size.area() {
        return false;
    }
    let mut around = NearPoints::new();
    around.look_around(size, point);
    around.as_slice().iter().any(|near| points.contains(*near))
}

/// Whether two stones are of one chain.
fn are_chained(board: &Board, a: Point, b: Point) -> Result<bool, AllocError> {
    if a.0 >= board.size().area() || board.colour_at(a).is_none() {
        return Ok(false);
    }
    let chain = board.chain_of(a)?;
    Ok(chain.iter().any(|stone| stone.is(b)))
}

/// Whether two stones are next to one region of counted points.
fn share_a_region(board: &Board, colour: Colour, counted: &[Point], a: Point, b: Point) -> bool {
    let size = board.size();
    let lacking = board.lacking(colour);
    for point in counted {
        if lacking.contains(*point) {
            let region = fill(size, &lacking, *point);
            if is_beside(size, &region, a) && is_beside(size, &region, b) {
                return true;
            }
        }
    }
    false
}

/// Whether two stones are of one chain, or next to one region of counted points.
fn linked(
    board: &Board,
    colour: Colour,
    counted: &[Point],
    a: Point,
    b: Point,
) -> Result<bool, AllocError> {
    Ok(are_chained(board, a, b)? || share_a_region(board, colour, counted, a, b))
}

/// The stones that links join to the stones of a set: once round for each stone, since each round that goes on adds one.
fn closed(
    board: &Board,
    colour: Colour,
    alive: &[Point],
    counted: &[Point],
    from: Points,
) -> Result<Points, AllocError> {
    let mut met = from;
    for _round in alive {
        for a in alive {
            for b in alive {
                if b.0 < 625
                    && met.contains(*a)
                    && !met.contains(*b)
                    && linked(board, colour, counted, *a, *b)?
                {
                    met.insert(*b);
                }
            }
        }
    }
    Ok(met)
}

/// The number of groups of alive stones with counted points, by closing one after the other under links.
fn plain_groups(
    board: &Board,
    colour: Colour,
    stones: &[Point],
    points: &[Point],
) -> Result<u32, AllocError> {
    let mut met = Points::new();
    let mut number = 0u32;
    for stone in stones {
        if stone.0 < 625 && !met.contains(*stone) {
            number = number.saturating_add(1);
            met.insert(*stone);
            met = closed(board, colour, stones, points, met)?;
        }
    }
    Ok(number)
}

/// Whether both ways to count the colour's groups give this number.
fn has_groups(alloc: Global, board: &Board, colour: Colour, want: u32) -> Result<bool, AllocError> {
    if board.unsettled()?.is_some() {
        return Ok(false);
    }
    let stones = alive(alloc, board, colour)?;
    let points = counted(alloc, board, colour, &stones)?;
    Ok(
        groups(alloc, board, colour, &stones, &points) == Ok(want)
            && plain_groups(board, colour, &stones, &points) == Ok(want),
    )
}

/// A board of so many columns and rows, and the numbers of groups of Black and White on it.
type Grouped = (u8, u8, &'static [u8], u32, u32);

static GROUPED: [Grouped; 7] = [
    (4, 1, b".X..", 0, 0),
    (5, 1, b".X.X.", 1, 0),
    (9, 1, b".O.O.O.O.", 0, 1),
    (9, 2, b".OX.XO.O.XXXXXOOOO", 1, 1),
    (12, 2, b".X.X....X.X.XXXX....XXXX", 2, 0),
    (13, 2, b".X.XO.O.OX.X.XXXXOOOOOXXXX", 2, 1),
    (3, 5, b".X.X.X.X.X.X.X.", 1, 0),
];

/// Whether both ways to count give these numbers.
fn is_grouped(alloc: Global, row: &Grouped) -> Result<bool, AllocError> {
    let board = board(alloc, row.0, row.1, row.2)?;
    Ok(
        has_groups(alloc, &board, Colour::Black, row.3) == Ok(true)
            && has_groups(alloc, &board, Colour::White, row.4) == Ok(true),
    )
}

/// The first row that isn't so.
fn wrong_row(alloc: Global) -> Option<usize> {
    for (at, row) in GROUPED.iter().enumerate() {
        if is_grouped(alloc, row) != Ok(true) {
            return Some(at);
        }
    }
    None
}

#[test]
fn groups_are_counted(rt: HostRuntime) {
    none_wrong(&rt, wrong_row(rt.alloc()));
}
