//! Positions from which a game opens.

ghost use Rattle.std.specs.Prelude.{◌≡◌, ◌≤◌, ◌<◌, ◌^◌, IfOk, unsigned_abs};
ghost use Rattle.go_play.specs.Setup.{IsFit, IsOfBoard, MakesSetup};
ghost use Rattle.go_play.specs.declared.setup.PositionError.TheVariants.{Memory, Unsettled};

use go_grid::{Board, Colour, Point};
use std::alloc::AllocError;
use std::fmt;
use std::marker::Model;
use thiserror::Error;

/// A side has fewer prisoners than so many, 2^40.
const PRISONERS_END: u64 = 1 << 40;

/// The most half-points of a komi, whoever gets it.
const MOST_KOMI_HALVES: u64 = 2_000_000;

/// Why parts make no position.
#[derive(Clone, Copy, PartialEq, Eq, Error)]
pub enum PositionError {
    /// The lowest stone whose chain has no liberty or declared point that isn't closed off.
    #[error(fmt = unsettled)]
    Unsettled(Point),
    /// The side has 2^40 prisoners or more.
    #[error(fmt = many_prisoners)]
    Prisoners(Colour),
    /// The komi is of more than 2,000,000 half-points.
    #[error("komi out of range")]
    Komi,
    /// Memory is refused.
    #[error(transparent)]
    Memory(AllocError),
}

// As the message: what a derive writes is dearer to prove.
impl fmt::Debug for PositionError {
    fn fmt<W: fmt::Write>(&self, f: &mut fmt::Formatter<W>) -> fmt::Result {
        fmt::Display::fmt(self, f)
    }
}

impl PositionError {
    /// The point that isn't settled, or the want of memory: of parts of which no number is out of range there is no other
    /// error.
    pub fn of_board(self) -> Result<Point, AllocError>
        requires { IsOfBoard self }
        ensures point { IfOk result (λ p. self ≡ Unsettled p) }
    {
        match self {
            PositionError::Unsettled(point) => Ok(point),
            PositionError::Memory(cause) => Err(cause),
            // These are of numbers.
            PositionError::Prisoners(_) => unreachable!(),
            PositionError::Komi => unreachable!(),
        }
    }
}

fn unsettled<W: fmt::Write>(point: &Point, f: &mut fmt::Formatter<W>) -> fmt::Result {
    let number = point.0;
    write!(f, "not settled at point {number}")
}

fn many_prisoners<W: fmt::Write>(colour: &Colour, f: &mut fmt::Formatter<W>) -> fmt::Result {
    match colour {
        Colour::Black => f.write_str("too many prisoners of Black"),
        Colour::White => f.write_str("too many prisoners of White"),
    }
}

impl From<AllocError> for PositionError {
    ghost from_gives = { λ cause e. e ≡ Memory cause };

    fn from(cause: AllocError) -> Self {
        PositionError::Memory(cause)
    }
}

/// A position: its board, the stones that each side has taken, the komi in half-points, White's where it is positive,
/// and the side to move. Each position is fit to be opened.
#[derive(Drop)]
pub struct Setup {
    board: Board,
    black_prisoners: u64,
    white_prisoners: u64,
    komi_halves: i64,
    side: Colour,
}

impl Model for Setup {
    ghost use Rattle.go_play.specs.Setup.{IsFit, Setup};

    ghost Value = { Setup };

    ghost view = { λ s. record {
      board = s.board;
      black_prisoners = s.black_prisoners;
      white_prisoners = s.white_prisoners;
      komi_halves = s.komi_halves;
      side = s.side;
    } };

    ghost invariant = { λ s. IsFit (record {
      board = s.board;
      black_prisoners = s.black_prisoners;
      white_prisoners = s.white_prisoners;
      komi_halves = s.komi_halves;
      side = s.side;
    }) };
}

impl Setup {
    /// The position of these parts. What doesn't fit is named in this order: the board's first point that isn't settled,
    /// Black's prisoners, White's prisoners, the komi.
    pub fn new(
        board: Board,
        black_prisoners: u64,
        white_prisoners: u64,
        komi_halves: i64,
        side: Colour,
    ) -> Result<Setup, PositionError>
        ensures { MakesSetup (record {
          board = board;
          black_prisoners = black_prisoners;
          white_prisoners = white_prisoners;
          komi_halves = komi_halves;
          side = side;
        }) result }
    {
        if let Some(point) = board.unsettled()? {
            return Err(PositionError::Unsettled(point));
        }
        if black_prisoners >= PRISONERS_END {
            return Err(PositionError::Prisoners(Colour::Black));
        }
        if white_prisoners >= PRISONERS_END {
            return Err(PositionError::Prisoners(Colour::White));
        }
        if komi_halves.unsigned_abs() > MOST_KOMI_HALVES {
            return Err(PositionError::Komi);
        }
        Ok(Setup {
            board,
            black_prisoners,
            white_prisoners,
            komi_halves,
            side,
        })
    }

    /// The board.
    pub fn board(&self) -> &Board
        ensures board { result.now ≡ self.now.board }
        ensures fit { IsFit self.now }
    {
        &self.board
    }

    /// The stones that Black has taken.
    pub fn black_prisoners(&self) -> u64
        ensures value { result ≡ self.now.black_prisoners }
        ensures most { result < 2 ^ 40 }
    {
        self.black_prisoners
    }

    /// The stones that White has taken.
    pub fn white_prisoners(&self) -> u64
        ensures value { result ≡ self.now.white_prisoners }
        ensures most { result < 2 ^ 40 }
    {
        self.white_prisoners
    }

    /// The komi in half-points, White's where it is positive.
    pub fn komi_halves(&self) -> i64
        ensures value { result ≡ self.now.komi_halves }
        ensures most { unsigned_abs result ≤ MOST_KOMI_HALVES }
    {
        self.komi_halves
    }

    /// The side to move.
    pub fn side(&self) -> Colour
        ensures { result ≡ self.now.side }
    {
        self.side
    }

    /// The same position once more, with the colour to move.
    pub fn with_side(&self, colour: Colour) -> Result<Setup, AllocError>
        ensures { IfOk result (λ other. other ≡ record self.now { side = colour }) }
    {
        Ok(Setup {
            board: self.board.copy()?,
            black_prisoners: self.black_prisoners,
            white_prisoners: self.white_prisoners,
            komi_halves: self.komi_halves,
            side: colour,
        })
    }

    /// Gives the turn to the colour.
    pub fn turn_to(&mut self, colour: Colour)
        ensures { self.new ≡ record self.old { side = colour } }
    {
        self.side = colour;
    }

    /// Puts a komi in the place of the present one.
    pub fn set_komi(&mut self, komi_halves: i64)
        requires { unsigned_abs komi_halves ≤ MOST_KOMI_HALVES }
        ensures { self.new ≡ record self.old { komi_halves = komi_halves } }
    {
        self.komi_halves = komi_halves;
    }

    /// The board alone.
    pub fn into_board(self) -> Board
        ensures { result ≡ self.board }
    {
        let Setup {
            board,
            black_prisoners: _,
            white_prisoners: _,
            komi_halves: _,
            side: _,
        } = self;
        board
    }
}
