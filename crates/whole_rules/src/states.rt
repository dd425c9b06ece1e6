//! States of the whole game and their moves.

ghost use Rattle.std.specs.Prelude.{◌≡◌, ◌^◌, ◌<◌, ◌≤◌, ◌↔◌, true, length, IfOk};
ghost use Rattle.whole_rules.specs.Purses.{purse, taken_out};
ghost use Rattle.whole_rules.specs.WholeGame.{Applies, IsContestedPoint, IsLegal, ListsMoves, IsFirstMove};
ghost use Rattle.whole_rules.specs.inner.WholeGame.{MovesBelow};

use crate::money::{Purses, Token};
use go_grid::{Board, Colour, MOST_POINTS, Point, Points};
use go_play::{PlaceError, allowed, place};
use std::alloc::{AllocError, Global};
use std::fmt;
use std::marker::Model;
use thiserror::Error;

/// What a player may do in their turn.
#[derive(Clone, Copy, PartialEq, Eq)]
pub enum Move {
    /// Places a stone on a contested point. Each stone that it takes adds a point to the mover's purse.
    Stone(Point),
    /// Gives back a point of the mover's purse.
    Spend,
    /// Removes the token. Where the mover isn't its owner, the owner's purse gains a point.
    Half,
}

/// Why a move is refused.
#[derive(Clone, Copy, PartialEq, Eq, Error)]
pub enum MoveError {
    /// The point isn't a contested point of the board.
    #[error("not contested")]
    NotContested,
    /// The contested point isn't empty.
    #[error("occupied")]
    Occupied,
    /// The point is contested and empty, and the new stone's chain would have no liberty.
    #[error("suicide")]
    Suicide,
    /// The mover has no point to spend.
    #[error("empty purse")]
    EmptyPurse,
    /// Nobody owns a token.
    #[error("no half")]
    NoHalf,
}

// As the message: what a derive writes is dearer to prove.
impl fmt::Debug for MoveError {
    fn fmt<W: fmt::Write>(&self, f: &mut fmt::Formatter<W>) -> fmt::Result {
        fmt::Display::fmt(self, f)
    }
}

/// A state of the whole game: a board, the points that were contested at the opening, two purses in points, the token
/// of a half-point and the side to move. The players move in turn, and one who has no move loses.
#[derive(Drop)]
pub struct Whole {
    board: Board,
    contested: Points,
    purses: Purses,
    side: Colour,
}

impl Model for Whole {
    ghost use Rattle.whole_rules.specs.WholeGame.{Whole};

    ghost Value = { Whole };

    ghost view = { λ w. record {
      board = w.board;
      contested = w.contested;
      purses = w.purses;
      side = w.side;
    } };
}

impl Whole {
    ghost use Rattle.go_grid.specs.Marks.{IsMarked};
    ghost use Rattle.whole_rules.specs.declared.states.Move.{Move};
    ghost use Rattle.whole_rules.specs.declared.states.Move.TheVariants.{Stone, Spend, Half};

    /// A state of these parts.
    pub(crate) fn new(board: Board, contested: Points, purses: Purses, side: Colour) -> Whole
        ensures { result ≡ record {
          board = board;
          contested = contested;
          purses = purses;
          side =
              side;
        } }
    {
        Whole {
            board,
            contested,
            purses,
            side,
        }
    }

    /// The same state once more.
    pub(crate) fn copy(&self) -> Result<Whole, AllocError>
        ensures { IfOk result (λ w. w ≡ self.now) }
    {
        Ok(Whole::new(self.board.copy()?, self.contested, self.purses, self.side))
    }

    /// The board.
    pub fn board(&self) -> &Board
        ensures { result.now ≡ self.now.board }
    {
        &self.board
    }

    /// The purse of a player, in points.
    pub fn purse(&self, colour: Colour) -> u64
        ensures { result ≡ purse colour self.now.purses }
    {
        self.purses.of(colour)
    }

    /// Who owns the token of a half-point.
    pub fn token(&self) -> Token
        ensures { result ≡ self.now.purses.token }
    {
        self.purses.token
    }

    /// Both purses and the token.
    pub fn purses(&self) -> Purses
        ensures { result ≡ self.now.purses }
    {
        self.purses
    }

    /// The side to move.
    pub fn side(&self) -> Colour
        ensures { result ≡ self.now.side }
    {
        self.side
    }

    /// Whether a point is contested. A point off the board isn't.
    pub fn contested(&self, point: Point) -> bool
        ensures { (result ≡ true) ↔ IsMarked self.now.contested point }
    {
        self.contested.contains(point)
    }

    /// Whether a stone of the side to move may be placed.
    fn may_place(&self, point: Point) -> bool
        requires { point < length self.now.board.cells }
        ensures { (result ≡ true) ↔ IsLegal self.now (Stone point) }
    {
        if !self.contested(point) {
            return false;
        }
        match allowed(&self.board, point, self.side) {
            Ok(_) => true,
            Err(_) => false,
        }
    }

    /// Whether the side to move has a point to spend.
    fn may_spend(&self) -> bool
        ensures { (result ≡ true) ↔ IsLegal self.now Spend }
    {
        self.purses.of(self.side) > 0
    }

    /// Whether there is a token to move on.
    fn may_halve(&self) -> bool
        ensures { (result ≡ true) ↔ IsLegal self.now Half }
    {
        !self.purses.token.is_nobody()
    }

    /// The legal placings, by point.
    fn placings(&self, alloc: Global) -> Result<Vec<Move>, AllocError>
        ensures { IfOk result (λ moves. MovesBelow self.now MOST_POINTS moves.items) }
    {
        let mut moves = Vec::new(alloc);
        for number in 0..self.board.size().area() {
            if self.may_place(Point(number)) {
                moves.push(Move::Stone(Point(number)))?;
            }
        }
        Ok(moves)
    }

    /// All legal moves, in a list of this allocator.
    pub(crate) fn moves_in(&self, alloc: Global) -> Result<Vec<Move>, AllocError>
        ensures { IfOk result (λ moves. ListsMoves self.now moves.items) }
    {
        let _size = self.board.size();
        let mut moves = self.placings(alloc)?;
        if self.may_spend() {
            moves.push(Move::Spend)?;
        }
        if self.may_halve() {
            moves.push(Move::Half)?;
        }
        Ok(moves)
    }

    /// All legal moves of the side to move: stones by point, then `Spend`, then `Half`.
    pub fn moves(&self) -> Result<Vec<Move>, AllocError>
        ensures { IfOk result (λ moves. ListsMoves self.now moves.items) }
    {
        self.moves_in(self.board.allocator())
    }

    /// The first of the legal moves in the order of `moves`, or `None` where the side to move has none.
    pub fn first_move(&self) -> Option<Move>
        ensures { IsFirstMove self.now result }
    {
        for number in 0..self.board.size().area() {
            if self.may_place(Point(number)) {
                return Some(Move::Stone(Point(number)));
            }
        }
        if self.may_spend() {
            return Some(Move::Spend);
        }
        if self.may_halve() {
            return Some(Move::Half);
        }
        None
    }

    /// Whether a point of the board is contested.
    fn is_contested_point(&self, point: Point) -> bool
        ensures { (result ≡ true) ↔ IsContestedPoint self.now point }
    {
        point.0 < self.board.size().area() && self.contested(point)
    }

    /// Puts a stone of the side to move.
    fn put(&mut self, point: Point) -> Result<(), MoveError>
        requires black { self.old.purses.black < 2 ^ 62 }
        requires white { self.old.purses.white < 2 ^ 62 }
        ensures { Applies self.old (Stone point) self.new result }
    {
        if !self.is_contested_point(point) {
            return Err(MoveError::NotContested);
        }
        match place(&mut self.board, point, self.side) {
            Ok(taken) => {
                self.purses = self.purses.paid_in(self.side, u64::from(taken));
                self.side = self.side.other();
                Ok(())
            }
            Err(PlaceError::Occupied) => Err(MoveError::Occupied),
            Err(PlaceError::Suicide) => Err(MoveError::Suicide),
        }
    }

    /// Takes points out of a player's purse, which is no move: the side to move stays.
    pub fn take_out(&mut self, colour: Colour, points: u64)
        requires { points ≤ purse colour self.old.purses }
        ensures { self.new ≡ record self.old {
          purses = taken_out colour points self.old.purses;
        } }
    {
        self.purses = self.purses.taken_out(colour, points);
    }

    /// Makes a move of the side to move, or leaves the state as it was where the move is illegal: for a stone
    /// `NotContested`, else `Occupied`, else `Suicide`; for `Spend` `EmptyPurse`; for `Half` `NoHalf`.
    pub fn apply(&mut self, chosen: Move) -> Result<(), MoveError>
        requires black { self.old.purses.black < 2 ^ 62 }
        requires white { self.old.purses.white < 2 ^ 62 }
        ensures { Applies self.old chosen self.new result }
    {
        match chosen {
            Move::Stone(point) => self.put(point),
            Move::Spend => {
                if self.purses.of(self.side) == 0 {
                    return Err(MoveError::EmptyPurse);
                }
                self.purses = self.purses.paid_out(self.side);
                self.side = self.side.other();
                Ok(())
            }
            Move::Half => {
                if self.purses.token.is_nobody() {
                    return Err(MoveError::NoHalf);
                }
                self.purses = self.purses.halved(self.side);
                self.side = self.side.other();
                Ok(())
            }
        }
    }
}
