//! Worked boards, drawn row by row with X for black and O for white.

use crate::asserts::none_wrong;
use benson_life::{alive, counted, groups, held};
use drawings::{board, cell_of};
use go_grid::{Board, Colour, Point};
use go_play::{PlaceError, allowed, place};
use std::alloc::{AllocError, Global};

/// Whether the board is what the drawing shows.
fn shows(board: &Board, drawing: &[u8]) -> bool {
    for number in 0..board.size().area() {
        if !board
            .get(Point(number))
            .is(cell_of(drawing.get(usize::from(number))))
        {
            return false;
        }
    }
    usize::from(board.size().area()) == drawing.len()
}

/// Whether the list has just these points, in this order.
fn same(points: &[Point], want: &[u16]) -> bool {
    points.iter().map(|point| point.0).eq(want.iter().copied())
}

/// Whether a stone's chain and its liberties are as given.
fn has_chain(
    board: &Board,
    stone: Point,
    chain: &[u16],
    liberties: &[u16],
) -> Result<bool, AllocError> {
    if stone.0 >= board.size().area() || board.colour_at(stone).is_none() {
        return Ok(false);
    }
    Ok(same(&board.chain_of(stone)?, chain) && same(&board.liberties_of(stone)?, liberties))
}

/// Whether an empty board and its copy show no stones.
fn is_empty(alloc: Global) -> Result<bool, AllocError> {
    let empty = board(alloc, 3, 1, b"")?;
    let copy = empty.copy()?;
    Ok(shows(&empty, b"...") && shows(&copy, b"..."))
}

/// Whether a board is settled, and the chain of its stone at 1 is this, with these liberties.
fn is_settled_with(board: &Board, chain: &[u16], liberties: &[u16]) -> Result<bool, AllocError> {
    Ok(has_chain(board, Point(1), chain, liberties)? && board.unsettled()?.is_none())
}

#[test]
fn boards_and_chains(rt: HostRuntime) -> Result<(), AllocError> {
    let alloc = rt.alloc();
    assert!(rt; is_empty(alloc)?);
    let corridor = board(alloc, 9, 2, b".X.X.O.O.XXXX.OOOO")?;
    assert!(rt; is_settled_with(&corridor, &[1, 3, 9, 10, 11, 12], &[0, 2, 4, 13]) == Ok(true));
    let choked = board(alloc, 2, 1, b"XO")?.unsettled()?;
    assert!(rt; choked == Some(Point(0)));
    Ok(())
}

/// A white stone placed on a point of a board of two columns: what that answers, and the board after it.
type Placing = (&'static [u8], u16, Result<u16, PlaceError>, &'static [u8]);

static PLACINGS: [Placing; 3] = [
    (b".XX.", 0, Err(PlaceError::Suicide), b".XX."),
    (b"X.", 1, Ok(1), b".O"),
    (b"X.", 0, Err(PlaceError::Occupied), b"X."),
];

/// Whether `place` and `allowed` answer so, and leave these boards.
fn is_placed(alloc: Global, row: &Placing) -> Result<bool, AllocError> {
    let rows = if row.0.len() == 4 { 2 } else { 1 };
    let mut board = board(alloc, 2, rows, row.0)?;
    if row.1 >= board.size().area() {
        return Ok(false);
    }
    let asked = allowed(&board, Point(row.1), Colour::White);
    let untouched = shows(&board, row.0);
    let answer = place(&mut board, Point(row.1), Colour::White);
    Ok(asked == row.2 && untouched && answer == row.2 && shows(&board, row.3))
}

/// The first of the placings that isn't so.
fn wrong_placing(alloc: Global) -> Option<usize> {
    for (at, row) in PLACINGS.iter().enumerate() {
        if is_placed(alloc, row) != Ok(true) {
            return Some(at);
        }
    }
    None
}

#[test]
fn placings(rt: HostRuntime) {
    none_wrong(&rt, wrong_placing(rt.alloc()));
}

/// Columns and rows of a board, its drawing, Black's alive stones and counted points on it, and what Black holds.
type Life = (u8, u8, &'static [u8], &'static [u16], &'static [u16], u32);

/// Whether Black's stones live, count and hold so.
fn lives(alloc: Global, board: &Board, row: &Life) -> Result<bool, AllocError> {
    if board.unsettled()?.is_some() {
        return Ok(false);
    }
    let stones = alive(alloc, board, Colour::Black)?;
    let points = counted(alloc, board, Colour::Black, &stones)?;
    let worth = held(board, Colour::Black, &points);
    Ok(same(&stones, row.3) && same(&points, row.4) && worth == row.5)
}

/// Whether the board is settled, and Black's stones live, count and hold so.
fn is_life(alloc: Global, row: &Life) -> Result<bool, AllocError> {
    let board = board(alloc, row.0, row.1, row.2)?;
    lives(alloc, &board, row)
}

static LIVES: [Life; 14] = [
    (3, 2, b".X.XXX", &[1, 3, 4, 5], &[0, 2], 2),
    (3, 2, b".XXXXX", &[], &[], 0),
    (8, 2, b".X.XO.O.XXXXOOOO", &[1, 3, 8, 9, 10, 11], &[0, 2], 2),
    (
        9,
        2,
        b".X.X.O.O.XXXX.OOOO",
        &[1, 3, 9, 10, 11, 12],
        &[0, 2],
        2,
    ),
    (
        9,
        2,
        b".X.X.O.O.XXXXXOOOO",
        &[1, 3, 9, 10, 11, 12, 13],
        &[0, 2],
        2,
    ),
    (
        10,
        3,
        b".X.XXXO.O.XXXX..OOOOXXXXXXOOOO",
        &[1, 3, 4, 5, 10, 11, 12, 13, 20, 21, 22, 23, 24, 25],
        &[0, 2],
        2,
    ),
    (
        10,
        3,
        b".X.XXOO.O.XXXX..OOOOXXXXXOOOOO",
        &[1, 3, 4, 10, 11, 12, 13, 20, 21, 22, 23, 24],
        &[0, 2],
        2,
    ),
    (
        11,
        3,
        b".X.XXXXO.O.XXXX...OOOOXXXXXXXOOOO",
        &[1, 3, 4, 5, 6, 11, 12, 13, 14, 22, 23, 24, 25, 26, 27, 28],
        &[0, 2],
        2,
    ),
    (
        9,
        2,
        b".OX.XO.O.XXXXXOOOO",
        &[2, 4, 9, 10, 11, 12, 13],
        &[0, 1, 3],
        4,
    ),
    // a false eye, a seki, a bent room, a captive between two empty points, a room with an inner point
    (4, 4, b".XO.XOO.XXO..XO.", &[], &[], 0),
    (3, 2, b"X.OX.O", &[], &[], 0),
    (5, 3, b"...XO.XXXOXXOO.", &[], &[], 0),
    (5, 3, b"XXXXXX.O.XXXX.X", &[], &[], 0),
    (7, 5, b"XXXXXXXX...X.XX...XXXX...XXXXXXXXXX", &[], &[], 0),
];

/// The first of the boards that isn't so.
fn wrong_life(alloc: Global) -> Option<usize> {
    for (at, row) in LIVES.iter().enumerate() {
        if is_life(alloc, row) != Ok(true) {
            return Some(at);
        }
    }
    None
}

#[test]
fn lives_and_counts(rt: HostRuntime) {
    none_wrong(&rt, wrong_life(rt.alloc()));
}

/// The numbers of Black's alive stones and counted points, what Black holds, and its groups, where the board is settled.
fn black_has(alloc: Global, board: &Board) -> Result<Option<(usize, usize, u32, u32)>, AllocError> {
    if board.unsettled()?.is_some() {
        return Ok(None);
    }
    let stones = alive(alloc, board, Colour::Black)?;
    let points = counted(alloc, board, Colour::Black, &stones)?;
    let worth = held(board, Colour::Black, &points);
    let number = groups(alloc, board, Colour::Black, &stones, &points)?;
    Ok(Some((stones.len(), points.len(), worth, number)))
}

/// The largest board with a black stone on every second point.
fn chequered(alloc: Global) -> Result<Board, AllocError> {
    let mut drawing = [b'.'; 625];
    for place in 0..625usize {
        if place % 2 == 0 {
            drawing[place] = b'X';
        }
    }
    board(alloc, 25, 25, &drawing)
}

/// Each of the black stones on every second point has its eyes beside it.
#[test]
fn a_whole_board(rt: HostRuntime) -> Result<(), AllocError> {
    let board = chequered(rt.alloc())?;
    assert!(rt; black_has(rt.alloc(), &board) == Ok(Some((313, 312, 312, 1))));
    Ok(())
}
