//! Attacks on worked boards, drawn row by row with X for black and O for white, replayed placing by
//! placing.

ghost use Rattle.std.specs.Prelude.{◌<◌, length};
ghost use Rattle.go_grid.specs.Chain.{IsSettled};
ghost use Rattle.benson_attack.specs.Attacks.{AreAttacks};

use crate::asserts::none_wrong;
use benson_attack::{AttackError, Attacks, attack};
use benson_life::Territory;
use drawings::board;
use go_grid::{Board, Cell, Colour, Point, Size};
use go_play::place;
use std::alloc::{AllocError, Global};

/// What an attack on the black stone at a point of a settled board comes to.
#[derive(Clone, Copy, PartialEq, Eq, Debug)]
enum Outcome {
    /// The board isn't settled, or the point holds no black stone.
    NoStone,
    /// The stone is alive.
    Alive,
    /// Each placing is legal, and the stone is gone after so many.
    Taken(usize),
    /// A placing isn't legal, or the stone stands.
    Wrong,
}

/// Replays an attack on a board.
fn replayed(board: &mut Board, stone: Point, placings: &[Point]) -> Outcome {
    for point in placings {
        if point.0 >= board.size().area() || place(board, *point, Colour::White).is_err() {
            return Outcome::Wrong;
        }
    }
    if stone.0 < board.size().area() && board.get(stone).is(Cell::Black) {
        return Outcome::Wrong;
    }
    Outcome::Taken(placings.len())
}

/// The outcome of the attack on the black stone at a point.
fn attacked(board: &mut Board, stone: Point) -> Result<Outcome, AllocError> {
    if stone.0 >= board.size().area()
        || !board.get(stone).is(Cell::Black)
        || board.unsettled()?.is_some()
    {
        return Ok(Outcome::NoStone);
    }
    let alloc = board.allocator();
    match attack(alloc, board, stone) {
        Ok(placings) => Ok(replayed(board, stone, &placings)),
        Err(AttackError::Alive) => Ok(Outcome::Alive),
        Err(AttackError::Memory(cause)) => Err(cause),
    }
}

/// A board by its columns and rows, its cells, a stone, and what comes of the attack on it.
static ATTACKS: [(u8, u8, &[u8], u16, Outcome); 8] = [
    (3, 2, b".X.XXX", 1, Outcome::Alive),
    (3, 2, b".XXXXX", 1, Outcome::Taken(1)),
    (4, 1, b".X..", 1, Outcome::Taken(2)),
    (4, 1, b"..X.", 2, Outcome::Taken(2)),
    (5, 1, b".X.X.", 1, Outcome::Alive),
    // Both regions of the first chain are vital to it, and the wall of one of them falls first.
    (4, 1, b".X.X", 1, Outcome::Taken(2)),
    (4, 1, b"....", 1, Outcome::NoStone),
    // Twelve chains, each of which waits for the one on its right.
    (24, 1, b".X.X.X.X.X.X.X.X.X.X.X.X", 1, Outcome::Taken(12)),
];

/// The outcome of the attack on the black stone at a point of a drawn board.
fn attacked_on(
    alloc: Global,
    columns: u8,
    rows: u8,
    drawing: &[u8],
    stone: Point,
) -> Result<Outcome, AllocError> {
    let mut board = board(alloc, columns, rows, drawing)?;
    attacked(&mut board, stone)
}

/// The first row that isn't so.
fn wrong_attack(alloc: Global) -> Option<usize> {
    for (at, row) in ATTACKS.iter().enumerate() {
        if attacked_on(alloc, row.0, row.1, row.2, Point(row.3)) != Ok(row.4) {
            return Some(at);
        }
    }
    None
}

#[test]
fn attacks(rt: HostRuntime) {
    none_wrong(&rt, wrong_attack(rt.alloc()));
}

/// Whether a stone of the colour is gone from a copy of the board after the placings, which are all legal.
fn is_taken(
    board: &Board,
    stone: Point,
    colour: Colour,
    placings: &[Point],
) -> Result<bool, AllocError> {
    let mut left = board.copy()?;
    Ok(takes(&mut left, stone, colour, placings))
}

/// Whether a stone of the colour is gone from the board after the placings, which are all legal.
fn takes(board: &mut Board, stone: Point, colour: Colour, placings: &[Point]) -> bool {
    for point in placings {
        if point.0 >= board.size().area() || place(board, *point, colour.other()).is_err() {
            return false;
        }
    }
    stone.0 < board.size().area() && board.colour_at(stone) != Some(colour)
}

/// Whether the stone at a point is alive, or is taken by placings that are all legal.
fn is_answered(
    alloc: Global,
    board: &Board,
    attacks: &Attacks,
    alive: bool,
    stone: Point,
) -> Result<bool, AllocError>
    requires settled { IsSettled board.now }
    requires attacks { AreAttacks board.now attacks.now }
    requires stone { stone < length board.now.cells }
{
    let Some(colour) = board.colour_at(stone) else {
        return Ok(!alive);
    };
    match attacks.on(alloc, board, stone) {
        Ok(placings) => Ok(!alive && is_taken(board, stone, colour, &placings)?),
        Err(AttackError::Alive) => Ok(alive),
        Err(AttackError::Memory(cause)) => Err(cause),
    }
}

/// Whether each stone of a settled board is answered. Of another board none is.
fn answered(alloc: Global, board: &Board) -> Result<bool, AllocError> {
    if board.unsettled()?.is_some() {
        return Ok(false);
    }
    let territory = Territory::of(alloc, board)?;
    let attacks = Attacks::of(alloc, board, &territory)?;
    let alive = territory.black.alive.union(&territory.white.alive);
    for number in 0..board.size().area() {
        let point = Point(number);
        if !is_answered(alloc, board, &attacks, alive.contains(point), point)? {
            return Ok(false);
        }
    }
    Ok(true)
}

/// The next number of a row that looks like chance.
fn next(seed: u64) -> u64 {
    (seed % 65_537 * 75 + 74) % 65_537
}

/// Puts a cell on a point of the board.
fn put(board: &mut Board, point: Point, cell: Cell) {
    if point.0 < board.size().area() {
        board.set(point, cell);
    }
}

/// A settled board whose points hold a stone where such a number allows it.
fn scattered(alloc: Global, columns: u8, rows: u8, seed: u64) -> Result<Board, AllocError> {
    let size = Size::new(columns, rows).unwrap_or(Size {
        columns: 1,
        rows: 1,
    });
    let mut board = Board::empty(alloc, size)?;
    let mut number = seed;
    for at in 0..size.area() {
        number = next(number);
        let cell = match number % 5 {
            0 | 1 => Cell::Black,
            2 => Cell::White,
            _ => Cell::Empty,
        };
        put(&mut board, Point(at), cell);
    }
    for _stone in 0..size.area() {
        match board.unsettled()? {
            Some(choked) => put(&mut board, choked, Cell::Empty),
            None => return Ok(board),
        }
    }
    Ok(board)
}

/// Columns and rows, and how many boards of the size are scattered.
static SCATTERED: [(u8, u8, u64); 4] = [(3, 3, 3000), (4, 4, 2000), (5, 3, 2000), (25, 25, 6)];

/// Whether each stone of a scattered board is answered.
fn is_right(alloc: Global, columns: u8, rows: u8, seed: u64) -> Result<bool, AllocError> {
    let board = scattered(alloc, columns, rows, seed)?;
    answered(alloc, &board)
}

/// The first of so many scattered boards of a size with a stone that isn't answered.
fn wrong_seed(alloc: Global, row: &(u8, u8, u64)) -> Option<u64> {
    for seed in 0..row.2 {
        if is_right(alloc, row.0, row.1, seed) != Ok(true) {
            return Some(seed);
        }
    }
    None
}

#[test]
fn scattered_boards(rt: HostRuntime) {
    for row in &SCATTERED {
        assert_eq!(rt; wrong_seed(rt.alloc(), row), None);
    }
}
