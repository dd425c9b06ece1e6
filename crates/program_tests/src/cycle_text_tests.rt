//! The texts of games in which kos can arise.

use crate::asserts::none_wrong;
use crate::cycle_game_tests::{CycleOpened, begun};
use crate::worked_games::{ENDLESS, Game, MOST, ONE_OPEN};
use cycle_report::{cycle_margin_text, cycle_moves_text, cycle_values_text};
use cycle_solver::CycleGame;
use fault_words::Naming;
use go_grid::Colour;
use std::alloc::Global;

/// A game that is settled but for a half point.
const TIE: Game = Game {
    columns: 8,
    drawing: b".X.XO.O.XXXXOOOO",
    ..ONE_OPEN
};

/// Two values of stones that take each other for ever.
const ENDLESS_VALUES: &str =
    "regions 1\nregion eb points 2 positions 8\nlow {*|-1}\nstops 0 -1\nmean -1/2\n\
    temperature 1/2\nleft 0:0 1/2:-1/2\nright 0:-1 1/2:-1/2\nhigh {1|*}\nstops 1 0\nmean 1/2\n\
    temperature 1/2\nleft 0:1 1/2:1/2\nright 0:0 1/2:1/2\n";

/// One value where no ko can arise.
const OPEN_VALUES: &str =
    "regions 1\nregion ea points 1 positions 3\nvalue *\nstops 0 0\nmean 0\ntemperature 0\n\
    left 0:0\nright 0:0\n";

const ENDLESS_MARGIN: &str =
    "side black\nkomi 0\nwinner none\nblack first -0.5 1\nwhite first -1.5 0\n";

const WHITE_MARGIN: &str =
    "side white\nkomi 2\nwinner white\nblack first -0.5 1\nwhite first -1.5 0\n";

const OPEN_MARGIN: &str =
    "side black\nkomi 0\nwinner black\nblack first 0 0\nwhite first -0.5 -0.5\n";

const TIE_MARGIN: &str =
    "side white\nkomi 0.5\nwinner white\nblack first -0.5 -0.5\nwhite first 0 0\n";

const ENDLESS_MOVES: &str = "side black\nkomi 0\nwinner none\nstone eb loses -0.5 -0.5\n\
    stone fb none -2.5 1\nspend loses\n";

const WHITE_MOVES: &str = "side white\nkomi 2\nwinner white\nstone eb none -1.5 2\n\
    stone fb wins 0 0\nspend none\n";

const OPEN_MOVES: &str = "side black\nkomi 0\nwinner black\nstone ea wins 0 0\nspend loses\n";

const TIE_MOVES: &str = "side white\nkomi 0.5\nwinner white\nspend loses\nhalf wins\n";

/// A game with the komi in half-points and the side to move, and its texts of `values`, `margin` and `moves`.
type Texts = (Game, i64, Colour, &'static str, &'static str, &'static str);

static TEXTS: [Texts; 4] = [
    (
        ENDLESS,
        0,
        Colour::Black,
        ENDLESS_VALUES,
        ENDLESS_MARGIN,
        ENDLESS_MOVES,
    ),
    (
        ENDLESS,
        4,
        Colour::White,
        ENDLESS_VALUES,
        WHITE_MARGIN,
        WHITE_MOVES,
    ),
    (
        ONE_OPEN,
        0,
        Colour::Black,
        OPEN_VALUES,
        OPEN_MARGIN,
        OPEN_MOVES,
    ),
    (TIE, 1, Colour::White, "regions 0\n", TIE_MARGIN, TIE_MOVES),
];

/// Whether the text of `values` is this.
fn has_values(alloc: Global, game: &CycleGame, wanted: &str) -> bool {
    match cycle_values_text(alloc, game) {
        Ok(text) => text.as_slice() == wanted.as_bytes(),
        Err(_fault) => false,
    }
}

/// Whether the text of `margin` is this.
fn has_margin(alloc: Global, game: &mut CycleGame, komi: i64, wanted: &str) -> bool {
    match cycle_margin_text(alloc, game, komi) {
        Ok(text) => text.as_slice() == wanted.as_bytes(),
        Err(_fault) => false,
    }
}

/// Whether the text of `moves` is this.
fn has_moves(alloc: Global, game: &mut CycleGame, komi: i64, wanted: &str) -> bool {
    match cycle_moves_text(alloc, Naming::Letters, game, komi) {
        Ok(text) => text.as_slice() == wanted.as_bytes(),
        Err(_fault) => false,
    }
}

/// Whether the three texts of a game are those of a row.
fn has_texts(alloc: Global, game: &mut CycleGame, row: &Texts) -> bool {
    has_values(alloc, game, row.3)
        && has_margin(alloc, game, row.1, row.4)
        && has_moves(alloc, game, row.1, row.5)
}

/// Whether the three texts of a game that was begun are.
fn are_told(alloc: Global, opened: &mut CycleOpened, row: &Texts) -> bool {
    match &mut opened.result {
        Ok(solved) => has_texts(alloc, solved, row),
        Err(_) => false,
    }
}

/// Whether a row is so.
fn is_told(alloc: Global, row: &Texts) -> bool {
    let game = Game {
        komi: row.1,
        side: row.2,
        ..row.0
    };
    let mut opened = begun(alloc, game, MOST);
    let right = are_told(alloc, &mut opened, row);
    drop(opened);
    right
}

/// The first row that isn't so.
fn wrong_texts(alloc: Global) -> Option<usize> {
    for (at, row) in TEXTS.iter().enumerate() {
        if !is_told(alloc, row) {
            return Some(at);
        }
    }
    None
}

#[test]
fn texts_with_cycles(rt: HostRuntime) {
    none_wrong(&rt, wrong_texts(rt.alloc()));
}
