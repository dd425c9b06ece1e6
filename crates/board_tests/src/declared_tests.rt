//! Boards with declared points, drawn row by row: X and O are stones, b and w points declared for Black and for White.

use crate::asserts::none_wrong;
use benson_attack::{AttackError, attack};
use benson_life::{Life, Territory};
use drawings::declared_board;
use go_grid::{Board, Colour, Point, Points};
use std::alloc::{AllocError, Global};

/// A board, the alive stones of Black and of White, the points counted for each, those that are contested, and the numbers of
/// groups.
#[derive(Drop)]
struct Row {
    columns: u8,
    rows: u8,
    drawing: &'static [u8],
    alive: [&'static [u16]; 2],
    counted: [&'static [u16]; 2],
    contested: &'static [u16],
    groups: [u32; 2],
}

static ROWS: [Row; 8] = [
    // A board that is one colour's, without a stone.
    Row {
        columns: 3,
        rows: 1,
        drawing: b"www",
        alive: [&[], &[]],
        counted: [&[], &[0, 1, 2]],
        contested: &[],
        groups: [0, 0],
    },
    Row {
        columns: 4,
        rows: 1,
        drawing: b"Xbbb",
        alive: [&[0], &[]],
        counted: [&[1, 2, 3], &[]],
        contested: &[],
        groups: [1, 0],
    },
    // An alive wall makes the stone behind it a captive.
    Row {
        columns: 5,
        rows: 1,
        drawing: b"XbX.O",
        alive: [&[0, 2], &[]],
        counted: [&[1, 3, 4], &[]],
        contested: &[],
        groups: [1, 0],
    },
    Row {
        columns: 5,
        rows: 1,
        drawing: b"XbX..",
        alive: [&[0, 2], &[]],
        counted: [&[1], &[]],
        contested: &[3, 4],
        groups: [1, 0],
    },
    // The same without the declared point.
    Row {
        columns: 5,
        rows: 1,
        drawing: b"X.X..",
        alive: [&[], &[]],
        counted: [&[], &[]],
        contested: &[0, 1, 2, 3, 4],
        groups: [0, 0],
    },
    Row {
        columns: 6,
        rows: 3,
        drawing: b"bbXOwwbbXOwwbbXOww",
        alive: [&[2, 8, 14], &[3, 9, 15]],
        counted: [&[0, 1, 6, 7, 12, 13], &[4, 5, 10, 11, 16, 17]],
        contested: &[],
        groups: [1, 1],
    },
    // Chains of two groups, each with a declared point of its own.
    Row {
        columns: 7,
        rows: 1,
        drawing: b"bX...Xb",
        alive: [&[1, 5], &[]],
        counted: [&[0, 6], &[]],
        contested: &[2, 3, 4],
        groups: [2, 0],
    },
    Row {
        columns: 5,
        rows: 1,
        drawing: b"bX..O",
        alive: [&[1], &[]],
        counted: [&[0], &[]],
        contested: &[2, 3, 4],
        groups: [1, 0],
    },
];

/// Whether the set has just these points.
fn same(alloc: Global, points: &Points, want: &[u16]) -> bool {
    match points.to_list(alloc) {
        Ok(list) => list.iter().map(|point| point.0).eq(want.iter().copied()),
        Err(_error) => false,
    }
}

/// Whether what lives of one colour has these alive stones and counted points.
fn is_life(alloc: Global, life: &Life, alive: &[u16], counted: &[u16]) -> bool {
    same(alloc, &life.alive, alive) && same(alloc, &life.counted, counted)
}

/// Whether the board is settled, and lives and counts so.
fn is_so(alloc: Global, board: &Board, row: &Row) -> Result<bool, AllocError> {
    if board.unsettled()?.is_some() {
        return Ok(false);
    }
    let territory = Territory::of(alloc, board)?;
    Ok(
        is_life(alloc, &territory.black, row.alive[0], row.counted[0])
            && is_life(alloc, &territory.white, row.alive[1], row.counted[1])
            && same(alloc, &territory.contested(board), row.contested)
            && territory.black.groups(alloc, board, Colour::Black) == Ok(row.groups[0])
            && territory.white.groups(alloc, board, Colour::White) == Ok(row.groups[1]),
    )
}

/// Whether a row is so.
fn is_row(alloc: Global, row: &Row) -> Result<bool, AllocError> {
    let board = declared_board(alloc, row.columns, row.rows, row.drawing)?;
    is_so(alloc, &board, row)
}

/// The first row that isn't so.
fn wrong_row(alloc: Global) -> Option<usize> {
    for (at, row) in ROWS.iter().enumerate() {
        if is_row(alloc, row) != Ok(true) {
            return Some(at);
        }
    }
    None
}

#[test]
fn declared_points_count(rt: HostRuntime) {
    none_wrong(&rt, wrong_row(rt.alloc()));
}

/// A board by its columns and its cells, and the lowest point that isn't settled.
static UNSETTLED: [(u8, &[u8], Option<u16>); 6] = [
    (3, b"bbb", None),
    (2, b"bX", None),
    (2, b"bO", Some(0)),
    (2, b"b.", Some(0)),
    (4, b"XbbO", Some(2)),
    (3, b"wbX", Some(0)),
];

/// The lowest point of a board of one row that isn't settled.
fn unsettled(alloc: Global, columns: u8, drawing: &[u8]) -> Result<Option<u16>, AllocError> {
    let board = declared_board(alloc, columns, 1, drawing)?;
    Ok(board.unsettled()?.map(|point| point.0))
}

/// The first row of the table of unsettled boards that isn't so.
fn wrong_unsettled(alloc: Global) -> Option<usize> {
    for (at, row) in UNSETTLED.iter().enumerate() {
        if unsettled(alloc, row.0, row.1) != Ok(row.2) {
            return Some(at);
        }
    }
    None
}

#[test]
fn declared_points_are_closed_off(rt: HostRuntime) {
    none_wrong(&rt, wrong_unsettled(rt.alloc()));
}

/// The attack on the stone at a point of a settled board: its placings, or none where the stone is alive or there is none.
fn attack_on(alloc: Global, board: &Board, stone: Point) -> Result<Vec<Point>, AllocError> {
    if stone.0 >= board.size().area()
        || board.colour_at(stone).is_none()
        || board.unsettled()?.is_some()
    {
        return Ok(Vec::new(alloc));
    }
    match attack(alloc, board, stone) {
        Ok(placings) => Ok(placings),
        Err(AttackError::Alive) => Ok(Vec::new(alloc)),
        Err(AttackError::Memory(cause)) => Err(cause),
    }
}

/// A board by its columns and its cells, a stone, and the placings that take it.
static ATTACKS: [(u8, &[u8], u16, &[u16]); 4] = [
    (5, b"XbX.O", 0, &[]),
    (5, b"XbX.O", 4, &[3]),
    (5, b"X.X.O", 0, &[1]),
    (5, b"bX..O", 4, &[3]),
];

/// Whether just these placings take the stone at a point of a board of one row.
fn is_attacked(
    alloc: Global,
    columns: u8,
    drawing: &[u8],
    stone: Point,
    want: &[u16],
) -> Result<bool, AllocError> {
    let board = declared_board(alloc, columns, 1, drawing)?;
    let placings = attack_on(alloc, &board, stone)?;
    Ok(
        placings
            .iter()
            .map(|point| point.0)
            .eq(want.iter().copied()),
    )
}

/// The first row of the table of attacks that isn't so.
fn wrong_attack(alloc: Global) -> Option<usize> {
    for (at, row) in ATTACKS.iter().enumerate() {
        if is_attacked(alloc, row.0, row.1, Point(row.2), row.3) != Ok(true) {
            return Some(at);
        }
    }
    None
}

#[test]
fn attacks_pass_declared_points_by(rt: HostRuntime) {
    none_wrong(&rt, wrong_attack(rt.alloc()));
}
