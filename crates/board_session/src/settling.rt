//! What a kept board comes to where it is to be solved.

ghost use Rattle.std.specs.Prelude.{◌<◌, ◌^◌, IfOk};
ghost use Rattle.board_orders.specs.Kept.{IsModest};
ghost use Rattle.board_session.specs.inner.Settling.{SettlesAs};

use crate::advice::unsettled_words;
use go_grid::{Board, Colour};
use go_play::Setup;
use std::alloc::{AllocError, Global};

/// What a board comes to: a position, or the words on a board that isn't settled.
#[derive(Drop)]
pub(crate) enum Settling {
    Position(Setup),
    Unsettled(String),
}

/// What the board comes to with these prisoners, this komi and this side to move.
pub(crate) fn settle(
    alloc: Global,
    board: &Board,
    black_prisoners: u64,
    white_prisoners: u64,
    komi_halves: i64,
    side: Colour,
) -> Result<Settling, AllocError>
    requires black { black_prisoners < 2 ^ 40 }
    requires white { white_prisoners < 2 ^ 40 }
    requires komi { IsModest komi_halves }
    ensures { IfOk result (SettlesAs (record {
      board = board.now;
      black_prisoners = black_prisoners;
      white_prisoners = white_prisoners;
      komi_halves = komi_halves;
      side = side;
    })) }
{
    match Setup::new(
        board.copy()?,
        black_prisoners,
        white_prisoners,
        komi_halves,
        side,
    ) {
        Ok(setup) => Ok(Settling::Position(setup)),
        Err(error) => {
            let words = unsettled_words(alloc, board, error.of_board()?)?;
            Ok(Settling::Unsettled(words))
        }
    }
}
