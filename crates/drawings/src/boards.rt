//! Boards from drawings.

ghost use Rattle.std.specs.Prelude.{◌≡◌, [], IfOk};

use go_grid::{Board, Cell, Colour, Point, Size};
use std::alloc::{AllocError, Global};

/// The cell that a letter draws.
pub fn cell_of(letter: Option<&u8>) -> Cell {
    match letter {
        Some(b'X') => Cell::Black,
        Some(b'O') => Cell::White,
        _ => Cell::Empty,
    }
}

/// The board of a size that a drawing shows, and one of an empty point where no board has the size.
pub fn board(alloc: Global, columns: u8, rows: u8, drawing: &[u8]) -> Result<Board, AllocError>
    ensures { IfOk result (λ b. b.declared ≡ []) }
{
    let size = Size::new(columns, rows).unwrap_or(Size {
        columns: 1,
        rows: 1,
    });
    let mut board = Board::empty(alloc, size)?;
    for number in 0..size.area() {
        board.set(Point(number), cell_of(drawing.get(usize::from(number))));
    }
    Ok(board)
}

/// The colour for which a letter declares a point.
fn owner_of(letter: Option<&u8>) -> Option<Colour> {
    match letter {
        Some(b'b') => Some(Colour::Black),
        Some(b'w') => Some(Colour::White),
        _ => None,
    }
}

/// For each point of a board of the size the colour for which the drawing declares it.
fn owners(alloc: Global, size: Size, drawing: &[u8]) -> Result<Vec<Option<Colour>>, AllocError> {
    let mut declared = Vec::new(alloc);
    for number in 0..size.area() {
        declared.push(owner_of(drawing.get(usize::from(number))))?;
    }
    Ok(declared)
}

/// The board that a drawing shows, with points declared for Black where it has `b`, and for White where it has `w`.
pub fn declared_board(
    alloc: Global,
    columns: u8,
    rows: u8,
    drawing: &[u8],
) -> Result<Board, AllocError> {
    let mut board = board(alloc, columns, rows, drawing)?;
    let declared = owners(alloc, board.size(), drawing)?;
    board.declare(declared);
    Ok(board)
}
