//! Regions whose openings have one shape.

use crate::asserts::none_wrong;
use crate::solved_tests::answers_of;
use crate::worked_games::{CORRIDOR, Game, ONE_OPEN, ONE_POINT, TWO_APART};
use go_grid::Colour;
use std::alloc::Global;

/// A corridor of two points for each player: the second is the first, turned and with the colours exchanged.
const OPPOSITE: Game = Game {
    rows: 6,
    drawing: b".X.XXXO.O.XXXX..OOOOXXXXXXOOOOXXXXOOOOOOXXXX..OOOOXXXXOOOOOO",
    ..CORRIDOR
};

/// A corridor of two points, and one open point.
const DIFFERENT: Game = Game {
    rows: 4,
    drawing: b".X.XXXO.O.XXXX..OOOOXXXXXXOOOOXXXXX.OOOO",
    ..CORRIDOR
};

/// A game with the number of its regions and that of the shapes of these.
type Shaped = (Game, usize, usize);

static SHAPES: [Shaped; 5] = [
    (ONE_OPEN, 1, 1),
    (ONE_POINT, 1, 1),
    (TWO_APART, 2, 1),
    (OPPOSITE, 2, 1),
    (DIFFERENT, 2, 2),
];

/// Whether a game has these numbers.
fn has_shapes(alloc: Global, row: &Shaped) -> bool {
    match answers_of(alloc, row.0) {
        Some(answers) => answers.regions == row.1 && answers.shapes == row.2,
        None => false,
    }
}

/// The first of the games with other numbers.
fn wrong_shapes(alloc: Global) -> Option<usize> {
    for (at, row) in SHAPES.iter().enumerate() {
        if !has_shapes(alloc, row) {
            return Some(at);
        }
    }
    None
}

#[test]
fn numbers_of_shapes(rt: HostRuntime) {
    none_wrong(&rt, wrong_shapes(rt.alloc()));
}

/// Whether a player who moves first in the game of opposite corridors loses, as their values add up to 0.
fn loses_first(alloc: Global, side: Colour) -> bool {
    let game = Game { side, ..OPPOSITE };
    match answers_of(alloc, game) {
        Some(answers) => answers.winner == side.other(),
        None => false,
    }
}

#[test]
fn opposite_values(rt: HostRuntime) {
    assert!(rt; loses_first(rt.alloc(), Colour::Black));
    assert!(rt; loses_first(rt.alloc(), Colour::White));
}
