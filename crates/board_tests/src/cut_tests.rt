//! Worked boards, drawn row by row with X for black and O for white.

ghost use Rattle.go_grid.specs.Chain.{IsSettled};

use crate::asserts::none_wrong;
use benson_life::{alive, counted};
use drawings::board;
use go_grid::{Board, Colour, Point, Region, Touch};
use region_cut::cut;
use std::alloc::{AllocError, Global};

/// The regions of play of a settled board.
fn settled_regions(alloc: Global, board: &Board) -> Result<Vec<Region>, AllocError>
    requires { IsSettled board.now }
{
    let black = alive(alloc, board, Colour::Black)?;
    let white = alive(alloc, board, Colour::White)?;
    let black_counted = counted(alloc, board, Colour::Black, &black)?;
    let white_counted = counted(alloc, board, Colour::White, &white)?;
    cut(alloc, board, &black, &white, &black_counted, &white_counted)
}

/// The regions of play of a board, and none where it isn't settled.
fn regions_of(alloc: Global, board: &Board) -> Result<Vec<Region>, AllocError> {
    if board.unsettled()?.is_some() {
        return Ok(Vec::new(alloc));
    }
    settled_regions(alloc, board)
}

/// Columns and rows of a board and its drawing, the number of its regions of play, and of the first of them the points and
/// what is next to each. That is six letters: X and O for alive stones, then the places above, left, right and below.
type Worked = (
    u8,
    u8,
    &'static [u8],
    usize,
    &'static [u16],
    &'static [&'static [u8; 6]],
);

/// Whether the list has just these points, in this order.
fn same(points: &[Point], want: &[u16]) -> bool {
    points.iter().map(|point| point.0).eq(want.iter().copied())
}

/// The place that a letter names.
fn link(letter: u8) -> Option<u16> {
    match letter {
        b'0' => Some(0),
        b'1' => Some(1),
        _ => None,
    }
}

/// Whether the letters say what is next to a point.
fn is_touch(touch: &Touch, letters: &[u8; 6]) -> bool {
    touch.black == (letters[0] == b'X')
        && touch.white == (letters[1] == b'O')
        && touch.up == link(letters[2])
        && touch.left == link(letters[3])
        && touch.right == link(letters[4])
        && touch.down == link(letters[5])
}

/// Whether the letters say what is next to each point.
fn same_touch(touch: &[Touch], want: &[&[u8; 6]]) -> bool {
    touch.len() == want.len()
        && touch
            .iter()
            .zip(want.iter())
            .all(|(near, letters)| is_touch(near, letters))
}

/// Whether there are so many regions, and such a first one.
fn are_cut(regions: &[Region], row: &Worked) -> bool {
    let first = match regions.first() {
        Some(region) => same(&region.points, row.4) && same_touch(&region.touch, row.5),
        None => row.4.is_empty(),
    };
    regions.len() == row.3 && first
}

/// Whether the board has so many regions, and such a first one.
fn is_cut(alloc: Global, row: &Worked) -> Result<bool, AllocError> {
    let board = board(alloc, row.0, row.1, row.2)?;
    let regions = regions_of(alloc, &board)?;
    Ok(are_cut(&regions, row))
}

static WORKED: [Worked; 5] = [
    (
        9,
        2,
        b".X.X.O.O.XXXX.OOOO",
        1,
        &[4, 13],
        &[b"XO...1", b"XO0..."],
    ),
    (8, 2, b".X.XO.O.XXXXOOOO", 0, &[], &[]),
    (10, 2, b".X.XX.O.O.XXXX.OOOOO", 2, &[5], &[b"XO...."]),
    (
        10,
        3,
        b".X.XXXO.O.XXXX..OOOOXXXXXXOOOO",
        1,
        &[14, 15],
        &[b"X...1.", b"XO.0.."],
    ),
    (1, 1, b".", 1, &[0], &[b"......"]),
];

/// The first row that isn't so.
fn wrong_row(alloc: Global) -> Option<usize> {
    for (at, row) in WORKED.iter().enumerate() {
        if is_cut(alloc, row) != Ok(true) {
            return Some(at);
        }
    }
    None
}

#[test]
fn cuts(rt: HostRuntime) {
    none_wrong(&rt, wrong_row(rt.alloc()));
}

/// The numbers of a whole empty board's regions and of the first one's points.
fn whole_regions(alloc: Global) -> Result<(usize, usize), AllocError> {
    let board = board(alloc, 25, 25, b"")?;
    let regions = regions_of(alloc, &board)?;
    let points = match regions.first() {
        Some(region) => region.points.len(),
        None => 0,
    };
    Ok((regions.len(), points))
}

/// The largest board without stones is one region.
#[test]
fn a_whole_board(rt: HostRuntime) {
    assert!(rt; whole_regions(rt.alloc()) == Ok((1, 625)));
}
