//! Positions and moves.

ghost use Rattle.std.specs.Prelude.{◌≡◌, ◌+◌, ◌<◌, ◌^◌, length, IfOk, IfSome};
ghost use Rattle.go_grid.specs.declared.grid.Colour.{Colour};
ghost use Rattle.board_orders.specs.Kept.{IsOnBoard};
ghost use Rattle.board_orders.specs.States.{bare, taken_up, unplayed};
ghost use Rattle.board_orders.specs.Tallies.{grown, number_of};
ghost use Rattle.board_orders.specs.inner.Doing.{GrowsTo, HasRoom, IsOutcome};

use go_grid::{Board, Colour, Point, Size};
use go_play::place;
use std::alloc::{AllocError, Global};
use std::marker::Model;

/// A number for each colour.
#[derive(Clone, Copy)]
pub struct Tally {
    black: u64,
    white: u64,
}

impl Model for Tally {
    ghost use Rattle.board_orders.specs.Tallies.{Tally};

    ghost Value = { Tally };

    ghost view = { λ t. record { black = t.black; white = t.white } };

    ghost inverse = { λ t. record { black = t.black; white = t.white } };
}

/// A move of a board session.
#[derive(Clone, Copy)]
pub enum BoardMove {
    Stone(Point),
    Pass,
    /// The engine's move on the half-point of the komi.
    Half,
}

/// A board, and the stones that each colour has taken and the passes that it has made.
#[derive(Drop)]
pub struct Position {
    pub board: Board,
    pub prisoners: Tally,
    pub passes: Tally,
}

/// A move that was made, the komi in half-points before it, and the position after it.
#[derive(Drop)]
pub struct MadeMove {
    pub after: Position,
    pub komi_before: i64,
    pub chosen: BoardMove,
    pub colour: Colour,
}

impl Tally {
    /// The number of a colour.
    pub fn of(self, colour: Colour) -> u64
        ensures { result ≡ number_of colour self }
    {
        match colour {
            Colour::Black => self.black,
            Colour::White => self.white,
        }
    }

    /// The numbers, of which that of the colour has grown.
    fn grow(self, colour: Colour, more: u64) -> Tally
        requires { number_of colour self + more < 2 ^ 64 }
        ensures { result ≡ grown colour more self }
    {
        match colour {
            Colour::Black => Tally {
                black: self.black + more,
                white: self.white,
            },
            Colour::White => Tally {
                black: self.black,
                white: self.white + more,
            },
        }
    }
}

impl Position {
    /// The empty board of a size.
    pub(crate) fn bare(alloc: Global, size: Size) -> Result<Position, AllocError>
        ensures { IfOk result (λ a. a ≡ bare size.columns size.rows) }
    {
        Ok(Position::unplayed(Board::empty(alloc, size)?))
    }

    /// A board before any move.
    pub(crate) fn unplayed(board: Board) -> Position
        ensures { result ≡ unplayed board }
    {
        Position::with_prisoners(board, 0, 0)
    }

    /// A board with these prisoners, before any move.
    pub(crate) fn with_prisoners(board: Board, black: u64, white: u64) -> Position
        ensures { result ≡ taken_up board black white }
    {
        Position {
            board,
            prisoners: Tally { black, white },
            passes: Tally { black: 0, white: 0 },
        }
    }

    /// The same position once more.
    fn copy(&self) -> Result<Position, AllocError>
        ensures { IfOk result (λ a. a ≡ self.now) }
    {
        Ok(Position {
            board: self.board.copy()?,
            prisoners: self.prisoners,
            passes: self.passes,
        })
    }

    /// The position after a stone, where it may be placed.
    fn after_stone(&self, colour: Colour, point: Point) -> Result<Option<Position>, AllocError>
        requires point { point < length self.now.board.cells }
        requires room { HasRoom self.now }
        ensures outcome { IfOk result (IsOutcome colour (BoardMove.Stone point) self.now) }
        ensures grows { IfOk result (λ after. IfSome after (GrowsTo self.now)) }
    {
        let mut board = self.board.copy()?;
        match place(&mut board, point, colour) {
            Ok(number) => Ok(Some(Position {
                board,
                prisoners: self.prisoners.grow(colour, u64::from(number)),
                passes: self.passes,
            })),
            Err(_) => Ok(None),
        }
    }

    /// The position after a pass.
    fn after_pass(&self, colour: Colour) -> Result<Option<Position>, AllocError>
        requires { HasRoom self.now }
        ensures outcome { IfOk result (IsOutcome colour BoardMove.Pass self.now) }
        ensures grows { IfOk result (λ after. IfSome after (GrowsTo self.now)) }
    {
        Ok(Some(Position {
            board: self.board.copy()?,
            prisoners: self.prisoners,
            passes: self.passes.grow(colour, 1),
        }))
    }

    /// The position after a move, where it may be made.
    pub(crate) fn after(
        &self,
        colour: Colour,
        chosen: &BoardMove,
    ) -> Result<Option<Position>, AllocError>
        requires on_board { IsOnBoard self.now.board.columns self.now.board.rows chosen.now }
        requires room { HasRoom self.now }
        ensures outcome { IfOk result (IsOutcome colour chosen.now self.now) }
        ensures grows { IfOk result (λ after. IfSome after (GrowsTo self.now)) }
    {
        match *chosen {
            BoardMove::Stone(point) => {
                let _size = self.board.size();
                self.after_stone(colour, point)
            }
            BoardMove::Pass => self.after_pass(colour),
            BoardMove::Half => Ok(Some(self.copy()?)),
        }
    }
}
