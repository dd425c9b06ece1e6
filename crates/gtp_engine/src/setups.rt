//! Setups that aren't loaded.

ghost use Rattle.std.specs.Prelude.{◌≡◌, ◌≤◌, IfOk, pos, unsigned_abs};
ghost use Rattle.go_grid.specs.Chain.{IsSettled};
ghost use Rattle.gtp_engine.specs.Session.{fresh};

use go_grid::{Board, Colour, Size};
use go_play::Setup;
use std::alloc::{AllocError, Global};

/// An empty board of the size.
fn bare(alloc: Global, size: Size) -> Result<Board, AllocError>
    ensures board { IfOk result
        (λ board. board ≡ (fresh size.columns size.rows (pos 0)).setup.board) }
    ensures settled { IfOk result IsSettled }
{
    let board = Board::empty(alloc, size)?;
    Ok(board)
}

/// An empty board of the size: no prisoners, and Black to move.
pub(crate) fn fresh(alloc: Global, size: Size, komi_halves: i64) -> Result<Setup, AllocError>
    requires { unsigned_abs komi_halves ≤ 2000000 }
    ensures { IfOk result (λ setup. setup ≡
        (fresh size.columns size.rows komi_halves).setup) }
{
    let board = bare(alloc, size)?;
    match Setup::new(board, 0, 0, komi_halves, Colour::Black) {
        Ok(setup) => Ok(setup),
        Err(error) => match error.of_board() {
            // The board has no stone.
            Ok(_) => unreachable!(),
            Err(cause) => Err(cause),
        },
    }
}
