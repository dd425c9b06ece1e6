//! Whole boards, drawn row by row with X for black and O for white.

use board_gen::make;
use go_grid::{Board, Cell, Colour, Point};
use std::alloc::{AllocError, Global};

/// The board of 7.
const SEVEN: &[&[u8]] = &[
    b"XXXXXXXXOOOOOOOOXXXXXXXXX",
    b"XXXXXXXX...OO...XXXXXXXXX",
    b"XXXXXXXXOOOOOOOOXXXXXXXXX",
    b"XXXXXXXXOOOOOOOOXXXXXXXXX",
    b"XXXXXXXXOOOOOOOO.XXXXXXXX",
    b"XXXXXXXXOOOOOOOOXXXXXXXXX",
    b"XXXXXXXXOOOOOOOOXXXXXXXXX",
    b"XXXXXXXX.OOOOO..XXXXXXXXX",
    b"XXXXXXXXOOOOOOOOXXXXXXXXX",
    b"XXXXXXXXOOOOOOOOXXXXXXXXX",
    b"XXXXXXXX..OOOO..XXXXXXXXX",
    b"XXXXXXXXOOOOOOOOXXXXXXXXX",
    b"XXXXXXXXOOOOOOOOXXXXXXXXX",
    b"XXXXXX..OOOOO...XXXXXXXXX",
    b"XXXXXXXXOOOOOOOOXXXXXXXXX",
    b"XXXXXXXXOOOOOOOOXXXXXXXXX",
    b"XXXXXX..OOOOOOOOXXXXXXXXX",
    b"XXXXXXXXOOOOOOOOXXXXXXXXX",
    b"XXXXXXXXOOOOOOOOXXXXXXXXX",
    b"XXXXX...OOOOOOOO...XXXXXX",
    b"XXXXXXXXOOOOOOOOXXXXXXXXX",
    b"XXXXXXXXOOOOOOOOXXXXXXXXX",
    b"XXXXXXX.OOOOOOOO...XXXXXX",
    b"XXXXXXXXOOOOOOOOXXXXXXXXX",
    b".X.XXXXXO..O.O.OX.X.XXXXX",
];

/// The board of 0, and of each multiple of 65537.
const NOUGHT: &[&[u8]] = &[
    b"XXXXXXXXOOOOOOOOXXXXXXXXX",
    b"XXXXXX..OOOOOOOOXXXXXXXXX",
    b"XXXXXXXXOOOOOOOOXXXXXXXXX",
    b"XXXXXXXXOOOOOOOOXXXXXXXXX",
    b"XXXXXXXXOOOOOO..XXXXXXXXX",
    b"XXXXXXXXOOOOOOOOXXXXXXXXX",
    b"XXXXXXXXOOOOOOOOXXXXXXXXX",
    b"XXXXXXX.OOOOOOOO.XXXXXXXX",
    b"XXXXXXXXOOOOOOOOXXXXXXXXX",
    b"XXXXXXXXOOOOOOOOXXXXXXXXX",
    b"XXXXXXXX...OOOOOXXXXXXXXX",
    b"XXXXXXXXOOOOOOOOXXXXXXXXX",
    b"XXXXXXXXOOOOOOOOXXXXXXXXX",
    b"XXXXXXXXOOOOOO..XXXXXXXXX",
    b"XXXXXXXXOOOOOOOOXXXXXXXXX",
    b"XXXXXXXXOOOOOOOOXXXXXXXXX",
    b"XXXXXXXX...OOO..XXXXXXXXX",
    b"XXXXXXXXOOOOOOOOXXXXXXXXX",
    b"XXXXXXXXOOOOOOOOXXXXXXXXX",
    b"XXXXXXXX..OOOOOOXXXXXXXXX",
    b"XXXXXXXXOOOOOOOOXXXXXXXXX",
    b"XXXXXXXXOOOOOOOOXXXXXXXXX",
    b"XXXXXXX.OOOOOOOOXXXXXXXXX",
    b"XXXXXXXXOOOOOOOOXXXXXXXXX",
    b".X.XXXXXO..O.O.OX.X.XXXXX",
];

/// The letter that draws a cell.
fn letter(cell: Cell) -> u8 {
    match cell {
        Cell::Empty => b'.',
        Cell::Black => b'X',
        Cell::White => b'O',
    }
}

/// Whether the board has 25 columns and rows and holds what the drawing shows.
fn shows(board: &Board, drawing: &[&[u8]]) -> bool {
    let size = board.size();
    for number in 0..size.area() {
        let row = usize::from(number) / usize::from(size.columns);
        let column = usize::from(number) % usize::from(size.columns);
        let shown = match drawing.get(row) {
            Some(letters) => letters.get(column).copied(),
            None => None,
        };
        if shown != Some(letter(board.get(Point(number)))) {
            return false;
        }
    }
    size.columns == 25 && size.rows == 25
}

/// Whether the number draws the board, Black to move without prisoners or komi.
fn draws(alloc: Global, number: u32, drawing: &[&[u8]]) -> Result<bool, AllocError> {
    let setup = make(alloc, number)?;
    Ok(
        shows(setup.board(), drawing)
            && setup.side() == Colour::Black
            && setup.komi_halves() == 0
            && setup.black_prisoners() == 0
            && setup.white_prisoners() == 0,
    )
}

/// Numbers and the boards that they draw.
static BOARDS: [(u32, &[&[u8]]); 4] = [
    (7, SEVEN),
    (0, NOUGHT),
    (65537, NOUGHT),
    (4294967295, NOUGHT),
];

/// The first of the numbers that draws another board.
fn wrong_number(alloc: Global) -> Option<u32> {
    for row in &BOARDS {
        if draws(alloc, row.0, row.1) != Ok(true) {
            return Some(row.0);
        }
    }
    None
}

#[test]
fn boards(rt: HostRuntime) {
    assert_eq!(rt; wrong_number(rt.alloc()), None);
}
