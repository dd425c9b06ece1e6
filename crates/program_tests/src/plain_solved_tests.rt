//! Solved games beside plain recursion.

ghost use Rattle.std.specs.Prelude.{◌≡◌, ◌<◌, ◌^◌, true};

use crate::asserts::nowhere_wrong;
use crate::solved_tests::{Answers, answers_of};
use crate::worked_games::{
    CORRIDOR, Game, ONE_OPEN, ONE_POINT, TWO_APART, TWO_OPEN, WITH_STONE, setup,
};
use go_grid::Colour;
use sgf_go::Setup;
use std::alloc::{AllocError, Global};
use whole_rules::{Move, Whole, plain_winner};

/// Whether both purses have room for any play.
pub(crate) fn has_room(state: &Whole) -> bool
    ensures black { result ≡ true → state.now.purses.black < 2 ^ 60 }
    ensures white { result ≡ true → state.now.purses.white < 2 ^ 60 }
{
    state.purse(Colour::Black) < 1 << 60 && state.purse(Colour::White) < 1 << 60
}

/// The state in which a position opens.
fn opening(alloc: Global, setup: &Setup) -> Result<Whole, AllocError> {
    Whole::opening(
        alloc,
        setup.board(),
        0,
        0,
        setup.komi_halves(),
        setup.side(),
        false,
    )
}

/// The state in which a game opens, if its position is one.
fn opened(alloc: Global, game: Game) -> Option<Whole> {
    let setup = setup(alloc, game)?;
    match opening(alloc, &setup) {
        Ok(state) => Some(state),
        Err(_error) => None,
    }
}

/// The winner by plain recursion, where both purses have room.
fn winner_of(alloc: Global, state: &Whole, depth: u32) -> Result<Option<Colour>, AllocError> {
    if !has_room(state) {
        return Ok(None);
    }
    plain_winner(alloc, state, depth)
}

/// Whether a move wins for a side by plain recursion.
fn wins_in(
    alloc: Global,
    state: &mut Whole,
    side: Colour,
    chosen: Move,
) -> Result<bool, AllocError> {
    if !has_room(state) || state.apply(chosen) != Ok(()) {
        return Ok(false);
    }
    Ok(winner_of(alloc, state, 13)? == Some(side))
}

/// Whether a move wins by plain recursion, or want of memory where there is no position.
fn wins_plainly(alloc: Global, game: Game, chosen: Move) -> Result<bool, AllocError> {
    match opened(alloc, game) {
        Some(mut state) => wins_in(alloc, &mut state, game.side, chosen),
        None => Err(AllocError),
    }
}

/// The first of the moves that wins by plain recursion.
fn first_of(alloc: Global, game: Game, moves: &[Move]) -> Result<Option<Move>, AllocError> {
    for chosen in moves {
        if wins_plainly(alloc, game, *chosen)? {
            return Ok(Some(*chosen));
        }
    }
    Ok(None)
}

/// Whether the winner and the first winning move of a state are those of the solved game.
fn agrees_with(alloc: Global, game: Game, state: &Whole, answers: &Answers) -> bool {
    if winner_of(alloc, state, 14) != Ok(Some(answers.winner)) {
        return false;
    }
    match state.moves() {
        Ok(moves) => first_of(alloc, game, &moves) == Ok(answers.chosen),
        Err(_error) => false,
    }
}

/// Whether the solved game agrees with plain recursion.
fn agrees(alloc: Global, game: Game, answers: &Answers) -> bool {
    match opened(alloc, game) {
        Some(state) => agrees_with(alloc, game, &state, answers),
        None => false,
    }
}

/// Whether a game is solved, and agrees with plain recursion.
fn is_agreed(alloc: Global, game: Game) -> bool {
    match answers_of(alloc, game) {
        Some(answers) => agrees(alloc, game, &answers),
        None => false,
    }
}

/// Games with few moves.
static GAMES: [Game; 6] = [
    ONE_OPEN, TWO_OPEN, TWO_APART, CORRIDOR, WITH_STONE, ONE_POINT,
];

/// The first of the games in which they don't agree, with a komi and a side to move.
fn wrong_game(alloc: Global, komi: i64, side: Colour) -> Option<usize> {
    for (at, game) in GAMES.iter().enumerate() {
        if !is_agreed(
            alloc,
            Game {
                komi,
                side,
                ..*game
            },
        ) {
            return Some(at);
        }
    }
    None
}

static KOMIS: [i64; 5] = [-3, -1, 0, 1, 2];

/// The first komi with which they don't agree in some game, and the game.
fn wrong_komi(alloc: Global, side: Colour) -> Option<(usize, usize)> {
    for (at, komi) in KOMIS.iter().enumerate() {
        if let Some(game) = wrong_game(alloc, *komi, side) {
            return Some((at, game));
        }
    }
    None
}

#[test]
fn plain_recursion(rt: HostRuntime) {
    nowhere_wrong(&rt, wrong_komi(rt.alloc(), Colour::Black));
    nowhere_wrong(&rt, wrong_komi(rt.alloc(), Colour::White));
}
