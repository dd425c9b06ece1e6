//! Worked games, on boards drawn row by row with X for black and O for white.

ghost use Rattle.std.specs.Prelude.{◌≡◌, ◌<◌};

use drawings::board;
use endgame_solver::{Limits, SolveError, Solved};
use go_grid::Colour;
use local_play::Steps;
use sgf_go::Setup;
use std::alloc::{AllocError, Global};
use std::marker::Brand;
use std::sync::ledger::{Blank, Ledger};

/// A board, a komi in half-points and the side to move.
#[derive(Clone, Copy)]
pub(crate) struct Game {
    pub columns: u8,
    pub rows: u8,
    pub drawing: &'static [u8],
    pub komi: i64,
    pub side: Colour,
}

/// One open point between the players.
pub(crate) const ONE_OPEN: Game = Game {
    columns: 9,
    rows: 2,
    drawing: b".X.X.O.O.XXXXXOOOO",
    komi: 0,
    side: Colour::Black,
};

/// Two open points that belong together.
pub(crate) const TWO_OPEN: Game = Game {
    drawing: b".X.X.O.O.XXXX.OOOO",
    ..ONE_OPEN
};

/// Two open points apart from each other.
pub(crate) const TWO_APART: Game = Game {
    rows: 3,
    drawing: b".X.X.O.O.XXXXXOOOOXXXX.OOOO",
    ..ONE_OPEN
};

/// A corridor of two points, in Black's stones.
pub(crate) const CORRIDOR: Game = Game {
    columns: 10,
    rows: 3,
    drawing: b".X.XXXO.O.XXXX..OOOOXXXXXXOOOO",
    ..ONE_OPEN
};

/// The same with a white stone in it.
pub(crate) const WITH_STONE: Game = Game {
    drawing: b".X.XXXO.O.XXXXO.OOOOXXXXXXOOOO",
    ..CORRIDOR
};

/// Two points at which stones take each other for ever.
pub(crate) const ENDLESS: Game = Game {
    drawing: b".X.XXOO.O.XXXX..OOOOXXXXXOOOOO",
    ..CORRIDOR
};

/// A board of one point.
pub(crate) const ONE_POINT: Game = Game {
    columns: 1,
    rows: 1,
    drawing: b".",
    ..ONE_OPEN
};

/// A board without stones.
pub(crate) const EMPTY: Game = Game {
    columns: 6,
    rows: 6,
    drawing: b"",
    ..ONE_OPEN
};

/// The numbers of limits: the most positions of a region, and the most parts of a form.
#[derive(Clone, Copy)]
pub(crate) struct Most {
    pub positions: u32,
    pub parts: u32,
}

pub(crate) const MOST: Most = Most {
    positions: 100_000,
    parts: 500,
};

/// The position of a game, or `None` where its board isn't settled or its komi is too great.
pub(crate) fn setup(alloc: Global, game: Game) -> Option<Setup> {
    match board(alloc, game.columns, game.rows, game.drawing) {
        Ok(board) => match Setup::new(board, 0, 0, game.komi, game.side) {
            Ok(setup) => Some(setup),
            Err(_error) => None,
        },
        Err(_error) => None,
    }
}

/// The solved game, or want of memory where there are no such limits or no position.
fn begin<L: Ledger>(
    alloc: Global,
    blank: Blank,
    game: Game,
    most: Most,
) -> Result<Solved, SolveError>
    requires name { blank.name ≡ L.name }
    requires parts { blank.parts ≡ L.parts }
    requires some { 0 < blank.parts }
{
    let Some(limits) = Limits::new(most.positions, most.parts) else {
        return Err(SolveError::Memory(AllocError));
    };
    match setup(alloc, game) {
        Some(setup) => Solved::begin(alloc, &setup, false, &limits, &mut Steps::<L>::new(blank)),
        None => Err(SolveError::Memory(AllocError)),
    }
}

/// What a game is begun as: solved, or refused.
#[derive(Drop)]
pub(crate) struct Opened {
    pub result: Result<Solved, SolveError>,
}

/// The same, whose steps a new ledger counts.
pub(crate) fn begun(alloc: Global, game: Game, most: Most) -> Opened {
    Opened {
        result: begin::<Brand>(alloc, Blank::new(1), game, most),
    }
}
