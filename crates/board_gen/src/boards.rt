//! The boards.

ghost use Rattle.std.specs.Prelude.{◌≡◌, ℕ, ◌<◌, IfOk, pos};
ghost use Rattle.go_grid.specs.declared.grid.Colour.{Colour};
ghost use Rattle.go_grid.specs.declared.grid.Colour.TheVariants.{Black};
ghost use Rattle.go_grid.specs.Chain.{IsSettled};
ghost use Rattle.go_grid.specs.Board.{Board, stone};
ghost use Rattle.board_gen.specs.inner.Corridor.{AreCorridors};
ghost use Rattle.board_gen.specs.Short.{HasShortRegions};
ghost use Rattle.board_gen.specs.Trial.{IsDrawnBy, IsOwner, IsTrialBoard, IsTrialCell};

use crate::corridors::{COLUMNS, Corridor, corridors_of, is_in_corridor};
use go_grid::{Board, Cell, Colour, MOST_POINTS, Point, Size};
use go_play::Setup;
use std::alloc::{AllocError, Global};

/// The last row of each board, with X for black and O for white.
const LAST_ROW: &[u8; 25] = b".X.XXXXXO..O.O.OX.X.XXXXX";

/// The cell that a letter draws.
fn drawn(letter: u8) -> Cell
    ensures { IsDrawnBy letter result }
{
    match letter {
        b'X' => Cell::Black,
        b'O' => Cell::White,
        _ => Cell::Empty,
    }
}

/// A stone of the column's owner.
fn wall(column: u16) -> Cell
    ensures { (c : Colour) → IsOwner column c → result ≡ stone c }
{
    if (8..16).contains(&column) {
        return Cell::White;
    }
    Cell::Black
}

/// What a point of the board holds.
fn cell_of(corridors: &[Corridor], point: u16) -> Cell
    requires { point < MOST_POINTS }
    ensures { (number : ℕ) → AreCorridors number 16 corridors.now
        → IsTrialCell number point result }
{
    let column = point % COLUMNS;
    if point / COLUMNS == 24 {
        return drawn(LAST_ROW[usize::from(column)]);
    }
    if is_in_corridor(corridors, point) {
        return Cell::Empty;
    }
    wall(column)
}

/// The board that the number draws.
fn board_of(alloc: Global, number: u32) -> Result<Board, AllocError>
    ensures { IfOk result (λ board. IsTrialBoard number board) }
{
    let corridors = corridors_of(alloc, number)?;
    let size = Size {
        columns: 25,
        rows: 25,
    };
    let mut board = Board::empty(alloc, size)?;
    'filling: for point in 0..size.area() {
        board.set(Point(point), cell_of(&corridors, point));
    }
    Ok(board)
}

/// The position that the number draws: Black moves first, without prisoners or komi. Each region of play is a short
/// corridor.
pub fn make(alloc: Global, number: u32) -> Result<Setup, AllocError>
    ensures board { IfOk result (λ setup. IsTrialBoard number setup.board) }
    ensures only { IfOk result (λ setup. (g : Board) → IsTrialBoard number g → g ≡ setup.board) }
    ensures settled { IfOk result (λ setup. IsSettled setup.board) }
    ensures short { IfOk result (λ setup. HasShortRegions setup.board) }
    ensures plain { IfOk result (λ setup. (setup.side ≡ Black) × (setup.komi_halves ≡ pos 0)
        × (setup.black_prisoners ≡ 0) × (setup.white_prisoners ≡ 0)) }
{
    let board = board_of(alloc, number)?;
    match Setup::new(board, 0, 0, 0, Colour::Black) {
        Ok(setup) => Ok(setup),
        Err(error) => match error.of_board() {
            // Each stone of the board has a liberty.
            Ok(_) => unreachable!(),
            Err(cause) => Err(cause),
        },
    }
}
