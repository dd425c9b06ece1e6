//! Worked games, on boards drawn row by row with X for black and O for white.

ghost use Rattle.std.specs.Prelude.{◌≡◌, ◌^◌, ◌<◌, true};

use crate::asserts::none_wrong;
use drawings::board;
use go_grid::{Colour, Point};
use std::alloc::{AllocError, Global};
use whole_rules::{Move, MoveError, Token, Whole, plain_winner};

/// A board, a komi in half-points, the side to move, and whether there is a tax.
#[derive(Clone, Copy)]
struct Game {
    columns: u8,
    drawing: &'static [u8],
    komi: i64,
    side: Colour,
    tax: bool,
}

/// All points are counted; Black moves, without komi or tax.
const ALL_COUNTED: Game = Game {
    columns: 8,
    drawing: b".X.XO.O.XXXXOOOO",
    komi: 0,
    side: Colour::Black,
    tax: false,
};

const ONE_OPEN: Game = Game {
    columns: 9,
    drawing: b".X.X.O.O.XXXXXOOOO",
    ..ALL_COUNTED
};

const TWO_OPEN: Game = Game {
    drawing: b".X.X.O.O.XXXX.OOOO",
    ..ONE_OPEN
};

const WITH_CAPTIVE: Game = Game {
    drawing: b".OX.XO.O.XXXXXOOOO",
    ..ONE_OPEN
};

const IN_ATARI: Game = Game {
    drawing: b".XOX.O.O.XX.XXOOOO",
    ..ONE_OPEN
};

const ONE_POINT: Game = Game {
    columns: 1,
    drawing: b".",
    ..ALL_COUNTED
};

const TWO_GROUPS: Game = Game {
    columns: 13,
    drawing: b".X.XO.O.OX.X.XXXXOOOOOXXXX",
    ..ALL_COUNTED
};

/// The state in which a game opens, without prisoners, or `None` where its board isn't settled.
#[tactic(auto, using(go_grid::proofs::DeclaredLemmas::none_declared))]
fn opened(alloc: Global, game: Game) -> Result<Option<Whole>, AllocError> {
    let rows = if game.drawing.len() == 1 { 1 } else { 2 };
    let board = board(alloc, game.columns, rows, game.drawing)?;
    if board.unsettled()?.is_some() {
        return Ok(None);
    }
    let state = Whole::opening(alloc, &board, 0, 0, game.komi, game.side, game.tax)?;
    Ok(Some(state))
}

/// Whether both purses have room for any play.
fn has_room(state: &Whole) -> bool
    ensures black { result ≡ true → state.now.purses.black < 2 ^ 60 }
    ensures white { result ≡ true → state.now.purses.white < 2 ^ 60 }
{
    state.purse(Colour::Black) < 1 << 60 && state.purse(Colour::White) < 1 << 60
}

/// A move, its point by its number.
#[derive(Clone, Copy)]
enum Played {
    Stone(u16),
    Spend,
    Half,
}

/// The move by its own name.
fn move_of(played: Played) -> Move {
    match played {
        Played::Stone(number) => Move::Stone(Point(number)),
        Played::Spend => Move::Spend,
        Played::Half => Move::Half,
    }
}

/// Whether the purses of Black and of White, and the token, are these.
fn has_purses(state: &Whole, purses: (u64, u64), token: Token) -> bool {
    (state.purse(Colour::Black), state.purse(Colour::White)) == purses && state.token() == token
}

/// A game, its purses in points, Black's first, and token, its contested points, and the moves of the side to move.
type Opening = (Game, (u64, u64), Token, &'static [u16], &'static [Played]);

static OPENINGS: [Opening; 6] = [
    (
        ONE_OPEN,
        (2, 2),
        Token::Nobody,
        &[4],
        &[Played::Stone(4), Played::Spend],
    ),
    (
        Game {
            komi: 13,
            ..ONE_OPEN
        },
        (2, 8),
        Token::White,
        &[4],
        &[Played::Stone(4), Played::Spend, Played::Half],
    ),
    (
        Game {
            komi: -5,
            side: Colour::White,
            ..TWO_OPEN
        },
        (4, 2),
        Token::Black,
        &[4, 13],
        &[
            Played::Stone(4),
            Played::Stone(13),
            Played::Spend,
            Played::Half,
        ],
    ),
    (ONE_POINT, (0, 0), Token::Nobody, &[0], &[]),
    (
        Game {
            tax: true,
            ..WITH_CAPTIVE
        },
        (2, 0),
        Token::Nobody,
        &[],
        &[Played::Spend],
    ),
    (
        Game {
            tax: true,
            ..TWO_GROUPS
        },
        (0, 0),
        Token::Nobody,
        &[],
        &[],
    ),
];

/// Whether the moves are these, in this order.
fn are_moves(moves: &[Move], want: &[Played]) -> bool {
    for (at, played) in want.iter().enumerate() {
        if moves.get(at) != Some(&move_of(*played)) {
            return false;
        }
    }
    moves.len() == want.len()
}

/// Whether the side to move has these moves, the first of them first.
fn has_moves(state: &Whole, want: &[Played]) -> bool {
    let first = match want.first() {
        Some(played) => state.first_move() == Some(move_of(*played)),
        None => state.first_move() == None,
    };
    match state.moves() {
        Ok(moves) => first && are_moves(&moves, want),
        Err(_error) => false,
    }
}

/// Whether these are the state's contested points.
fn has_contested(state: &Whole, want: &[u16]) -> bool {
    (0..625u16)
        .filter(|number| state.contested(Point(*number)))
        .eq(want.iter().copied())
}

/// Whether the game opens so.
fn opens(alloc: Global, row: &Opening) -> bool {
    match opened(alloc, row.0) {
        Ok(Some(state)) => {
            has_purses(&state, row.1, row.2)
                && state.side() == row.0.side
                && has_contested(&state, row.3)
                && has_moves(&state, row.4)
        }
        _ => false,
    }
}

/// The first of the openings that isn't so.
fn wrong_opening(alloc: Global) -> Option<usize> {
    for (at, row) in OPENINGS.iter().enumerate() {
        if !opens(alloc, row) {
            return Some(at);
        }
    }
    None
}

#[test]
fn openings(rt: HostRuntime) {
    none_wrong(&rt, wrong_opening(rt.alloc()));
}

/// Moves one after the other in a game with what each answers, and the purses and the token after all of them.
type Play = (
    Game,
    &'static [(Played, Result<(), MoveError>)],
    (u64, u64),
    Token,
);

static PLAYS: [Play; 5] = [
    (
        ONE_OPEN,
        &[
            (Played::Stone(0), Err(MoveError::NotContested)),
            (Played::Stone(18), Err(MoveError::NotContested)),
            (Played::Half, Err(MoveError::NoHalf)),
            (Played::Stone(4), Ok(())),
            (Played::Stone(4), Err(MoveError::Occupied)),
            (Played::Spend, Ok(())),
            (Played::Spend, Ok(())),
            (Played::Spend, Ok(())),
            (Played::Spend, Ok(())),
            (Played::Spend, Err(MoveError::EmptyPurse)),
        ],
        (0, 0),
        Token::Nobody,
    ),
    (
        ONE_POINT,
        &[
            (Played::Spend, Err(MoveError::EmptyPurse)),
            (Played::Stone(0), Err(MoveError::Suicide)),
        ],
        (0, 0),
        Token::Nobody,
    ),
    (
        IN_ATARI,
        &[(Played::Stone(11), Ok(()))],
        (1, 2),
        Token::Nobody,
    ),
    (
        Game {
            komi: 1,
            side: Colour::White,
            ..ALL_COUNTED
        },
        &[(Played::Half, Ok(()))],
        (2, 2),
        Token::Nobody,
    ),
    (
        Game {
            komi: 1,
            ..ALL_COUNTED
        },
        &[(Played::Half, Ok(()))],
        (2, 3),
        Token::Nobody,
    ),
];

/// Whether the moves have these answers.
fn answers(state: &mut Whole, moves: &[(Played, Result<(), MoveError>)]) -> bool {
    for row in moves {
        if !has_room(state) || state.apply(move_of(row.0)) != row.1 {
            return false;
        }
    }
    true
}

/// Whether the play goes so.
fn goes(alloc: Global, row: &Play) -> bool {
    match opened(alloc, row.0) {
        Ok(Some(mut state)) => answers(&mut state, row.1) && has_purses(&state, row.2, row.3),
        _ => false,
    }
}

/// The first of the plays that goes another way.
fn wrong_play(alloc: Global) -> Option<usize> {
    for (at, row) in PLAYS.iter().enumerate() {
        if !goes(alloc, row) {
            return Some(at);
        }
    }
    None
}

#[test]
fn plays(rt: HostRuntime) {
    none_wrong(&rt, wrong_play(rt.alloc()));
}

/// A game, a number of plies, and the winner within so many by plain recursion.
static WINNERS: [(Game, u32, Option<Colour>); 11] = [
    (ONE_OPEN, 5, Some(Colour::Black)),
    (ONE_OPEN, 4, None),
    (
        Game {
            side: Colour::White,
            ..ONE_OPEN
        },
        8,
        Some(Colour::White),
    ),
    (ONE_POINT, 0, Some(Colour::White)),
    (ALL_COUNTED, 8, Some(Colour::White)),
    (
        Game {
            side: Colour::White,
            ..ALL_COUNTED
        },
        8,
        Some(Colour::Black),
    ),
    (
        Game {
            komi: 1,
            side: Colour::White,
            ..ALL_COUNTED
        },
        8,
        Some(Colour::White),
    ),
    (TWO_OPEN, 8, Some(Colour::White)),
    (WITH_CAPTIVE, 8, Some(Colour::Black)),
    (TWO_GROUPS, 8, Some(Colour::Black)),
    (
        Game {
            tax: true,
            ..TWO_GROUPS
        },
        8,
        Some(Colour::White),
    ),
];

/// Whether plain recursion gives a game this winner within so many plies.
fn is_won(alloc: Global, game: Game, depth: u32, winner: Option<Colour>) -> bool {
    match opened(alloc, game) {
        Ok(Some(state)) => { has_room(&state) && plain_winner(alloc, &state, depth) == Ok(winner) }
        _ => false,
    }
}

/// The first row of the table of winners that isn't so.
fn wrong_winner(alloc: Global) -> Option<usize> {
    for (at, row) in WINNERS.iter().enumerate() {
        if !is_won(alloc, row.0, row.1, row.2) {
            return Some(at);
        }
    }
    None
}

#[test]
fn winners(rt: HostRuntime) {
    none_wrong(&rt, wrong_winner(rt.alloc()));
}
