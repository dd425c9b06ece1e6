//! Games in which kos can arise, on boards drawn row by row with X for black and O for white.

ghost use Rattle.std.specs.Prelude.{◌≡◌, ◌<◌};

use crate::asserts::none_wrong;
use crate::solved_tests::stone_at;
use crate::worked_games::{ENDLESS, Game, MOST, Most, setup};
use cycle_solver::{CycleError, CycleGame, Thresholds};
use endgame_solver::Limits;
use go_grid::{Colour, Point};
use local_play::Steps;
use std::alloc::{AllocError, Global};
use std::marker::Brand;
use std::sync::ledger::{Blank, Ledger};
use whole_rules::Move;

/// Two stones that take each other for ever, and a komi that makes Black win.
const WON: Game = Game {
    drawing: b"X.XXO.OO.OXXXXXOOOOO.XXXXOOOO.",
    komi: -6,
    ..ENDLESS
};

/// The game, with at most so many captures that return in a region, or want of memory where there are no such limits or no
/// position.
fn begin<L: Ledger>(
    alloc: Global,
    blank: Blank,
    game: Game,
    most: Most,
    captures: u8,
) -> Result<CycleGame, CycleError>
    requires name { blank.name ≡ L.name }
    requires parts { blank.parts ≡ L.parts }
    requires some { 0 < blank.parts }
{
    let Some(limits) = Limits::new(most.positions, most.parts) else {
        return Err(CycleError::Memory(AllocError));
    };
    match setup(alloc, game) {
        Some(setup) => CycleGame::begin(
            alloc,
            &setup,
            false,
            &limits,
            captures,
            &mut Steps::<L>::new(blank),
        ),
        None => Err(CycleError::Memory(AllocError)),
    }
}

/// What a game is begun as: solved, or refused.
#[derive(Drop)]
pub(crate) struct CycleOpened {
    pub result: Result<CycleGame, CycleError>,
}

/// The game with at most 32 captures that return in a region.
pub(crate) fn begun(alloc: Global, game: Game, most: Most) -> CycleOpened {
    CycleOpened {
        result: begin::<Brand>(alloc, Blank::new(1), game, most, 32),
    }
}

/// A game with its komi in half-points, its winner, the winner's captures, and the point of the first winning move.
type Won = (Game, i64, Option<Colour>, Option<usize>, Option<u16>);

static GAMES: [Won; 4] = [
    (ENDLESS, 0, None, None, None),
    (ENDLESS, 3, Some(Colour::White), Some(0), None),
    (ENDLESS, -1, Some(Colour::Black), Some(0), Some(14)),
    (WON, -6, Some(Colour::Black), Some(0), Some(5)),
];

/// Whether the winner, the winner's captures and the first winning move are these.
fn answers(solved: &mut CycleGame, row: &Won) -> bool {
    solved.winner() == row.2
        && solved.captures() == row.3
        && solved.winning_move() == stone_at(row.4)
}

/// Whether a game that was begun has these answers.
fn has_answers(opened: &mut CycleOpened, row: &Won) -> bool {
    match &mut opened.result {
        Ok(solved) => answers(solved, row),
        Err(_) => false,
    }
}

/// Whether a game has these answers.
fn is_won(alloc: Global, row: &Won) -> bool {
    let game = Game {
        komi: row.1,
        ..row.0
    };
    let mut opened = begun(alloc, game, MOST);
    let right = has_answers(&mut opened, row);
    // A solved game is large: as a call its drop is one step of the proof.
    drop(opened);
    right
}

/// The first of the games with other answers.
fn wrong_game(alloc: Global) -> Option<usize> {
    for (at, row) in GAMES.iter().enumerate() {
        if !is_won(alloc, row) {
            return Some(at);
        }
    }
    None
}

#[test]
fn games_with_cycles(rt: HostRuntime) {
    none_wrong(&rt, wrong_game(rt.alloc()));
}

/// Whether the thresholds are these, in half-points.
fn are(both: Thresholds, black: i64, white: i64) -> bool {
    both.black == black && both.white == white
}

/// Whether there are thresholds behind a stone, and they are these.
fn are_after(both: Option<Thresholds>, black: i64, white: i64) -> bool {
    match both {
        Some(both) => are(both, black, white),
        None => false,
    }
}

/// Whether the thresholds of the game with stones that take each other for ever are right.
fn has_thresholds(solved: &mut CycleGame) -> bool {
    are(solved.thresholds(0, Colour::Black), -1, 2)
        && are(solved.thresholds(0, Colour::White), -3, 0)
}

/// Whether those behind its stones are.
fn has_stone_thresholds(solved: &mut CycleGame) -> bool {
    are_after(solved.stone_thresholds(0, Point(14)), -1, -1)
        && are_after(solved.stone_thresholds(0, Point(15)), -5, 2)
        && solved.stone_thresholds(0, Point(0)).is_none()
}

/// Whether its winners behind moves are.
fn has_winners(solved: &mut CycleGame) -> bool {
    let white = Some(Some(Colour::White));
    solved.winner_after(Move::Stone(Point(14))) == white
        && solved.winner_after(Move::Stone(Point(15))) == Some(None)
        && solved.winner_after(Move::Spend) == white
        && solved.winner_after(Move::Half).is_none()
}

/// Whether all of these are, in the game as it was begun.
fn has_right_moves(opened: &mut CycleOpened) -> bool {
    match &mut opened.result {
        Ok(solved) => has_thresholds(solved) && has_stone_thresholds(solved) && has_winners(solved),
        Err(_) => false,
    }
}

/// Whether all of these are.
fn are_moves_right(alloc: Global) -> bool {
    let mut opened = begun(alloc, ENDLESS, MOST);
    let right = has_right_moves(&mut opened);
    drop(opened);
    right
}

#[test]
fn moves_with_cycles(rt: HostRuntime) {
    assert!(rt; are_moves_right(rt.alloc()));
}

/// Whether a game wasn't solved, for the positions of the region of this point.
fn has_too_many(opened: &CycleOpened, point: u16) -> bool {
    match &opened.result {
        Ok(_) => false,
        Err(fault) => *fault == CycleError::Positions(Point(point)),
    }
}

/// Whether the game has more than seven.
fn has_more_than_seven(alloc: Global) -> bool {
    let most = Most {
        positions: 7,
        ..MOST
    };
    let opened = begun(alloc, ENDLESS, most);
    let right = has_too_many(&opened, 14);
    drop(opened);
    right
}

#[test]
fn too_many_positions(rt: HostRuntime) {
    assert!(rt; has_more_than_seven(rt.alloc()));
}
