//! Answers of worked games.

use crate::asserts::none_wrong;
use crate::worked_games::{
    CORRIDOR, EMPTY, ENDLESS, Game, MOST, Most, ONE_OPEN, ONE_POINT, Opened, TWO_OPEN, WITH_STONE,
    begun,
};
use endgame_solver::{Limits, SolveError, Solved};
use game_store::{Form, GameId, Store};
use go_grid::{Colour, Point};
use std::alloc::Global;
use whole_rules::{Move, MoveError};

/// The lowest point of the first region and how many points and positions it has, where there is one.
fn first_region(solved: &Solved) -> Option<(u16, u16, u64)> {
    if solved.regions() == 0 {
        return None;
    }
    let report = solved.region_report(0);
    Some((report.lowest.0, report.points, report.positions))
}

/// Whether the game is 0.
fn is_zero(store: &Store, id: GameId) -> bool {
    if id >= store.len() {
        return false;
    }
    match store.node(id) {
        Form::Number(x) => x.units() == 0,
        Form::Options { .. } => false,
    }
}

/// Whether the value of the first region's present position is 0.
fn is_nought(solved: &Solved) -> bool {
    solved.regions() > 0 && is_zero(solved.store(), solved.present(0))
}

/// Whether the value of the first region's present position is `{0|0}`.
fn is_star(solved: &Solved) -> bool {
    if solved.regions() == 0 {
        return false;
    }
    let store = solved.store();
    match store.node(solved.present(0)) {
        Form::Options {
            left: [left],
            right: [right],
        } => is_zero(store, *left) && is_zero(store, *right),
        _ => false,
    }
}

/// What a solved game answers: how many regions it has and how many shapes these have, the first region by its lowest point
/// and the numbers of its points and positions, the winner and the first winning move.
#[derive(Clone, Copy)]
pub(crate) struct Answers {
    pub regions: usize,
    pub shapes: usize,
    pub first: Option<(u16, u16, u64)>,
    pub winner: Colour,
    pub chosen: Option<Move>,
}

/// The answers of a solved game.
fn ask_all(solved: &mut Solved) -> Answers {
    Answers {
        regions: solved.regions(),
        shapes: solved.shapes(),
        first: first_region(solved),
        winner: solved.winner(),
        chosen: solved.winning_move(),
    }
}

/// The answers of what a game was begun as, if it is solved.
fn answers_in(opened: &mut Opened) -> Option<Answers> {
    match &mut opened.result {
        Ok(solved) => Some(ask_all(solved)),
        Err(_) => None,
    }
}

/// The answers of a game, if it is solved.
pub(crate) fn answers_of(alloc: Global, game: Game) -> Option<Answers> {
    let mut opened = begun(alloc, game, MOST);
    let answers = answers_in(&mut opened);
    // A solved game is large: as a call its drop is one step of the proof.
    drop(opened);
    answers
}

/// A stone at the point of this number.
pub(crate) fn stone_at(number: Option<u16>) -> Option<Move> {
    match number {
        Some(number) => Some(Move::Stone(Point(number))),
        None => None,
    }
}

/// A game, the side to move, its one region (its lowest point, its points, its positions), the winner and the point of
/// the first winning move.
type Known = (Game, Colour, (u16, u16, u64), Colour, Option<u16>);

static SOLVED: [Known; 8] = [
    (ONE_OPEN, Colour::Black, (4, 1, 3), Colour::Black, Some(4)),
    (ONE_OPEN, Colour::White, (4, 1, 3), Colour::White, Some(4)),
    (TWO_OPEN, Colour::Black, (4, 2, 9), Colour::White, None),
    (CORRIDOR, Colour::Black, (14, 2, 8), Colour::Black, Some(15)),
    (CORRIDOR, Colour::White, (14, 2, 8), Colour::Black, None),
    (
        WITH_STONE,
        Colour::Black,
        (14, 2, 4),
        Colour::Black,
        Some(15),
    ),
    (
        WITH_STONE,
        Colour::White,
        (14, 2, 4),
        Colour::White,
        Some(15),
    ),
    (ONE_POINT, Colour::Black, (0, 1, 1), Colour::White, None),
];

/// Whether the answers are those of a row.
fn are_answers(answers: &Answers, row: &Known) -> bool {
    answers.regions == 1
        && answers.first == Some(row.2)
        && answers.winner == row.3
        && answers.chosen == stone_at(row.4)
}

/// Whether a game has the answers of its row.
fn is_known(alloc: Global, row: &Known) -> bool {
    let game = Game {
        side: row.1,
        ..row.0
    };
    match answers_of(alloc, game) {
        Some(answers) => are_answers(&answers, row),
        None => false,
    }
}

/// The first of the games with other answers.
fn wrong_game(alloc: Global) -> Option<usize> {
    for (at, row) in SOLVED.iter().enumerate() {
        if !is_known(alloc, row) {
            return Some(at);
        }
    }
    None
}

#[test]
fn games(rt: HostRuntime) {
    none_wrong(&rt, wrong_game(rt.alloc()));
}

/// How a game is refused.
#[derive(Clone, Copy)]
enum Refused {
    Not,
    Points(u16),
    Positions,
    /// For a cycle of two moves behind the first position that comes again.
    ShortCycle,
    Form,
}

/// Whether a game with so many points in a region is refused for them.
fn has_points(refused: Refused, points: u16) -> bool {
    match refused {
        Refused::Points(wanted) => points == wanted,
        _ => false,
    }
}

/// Whether a game is refused so for this.
fn is_refused_for(fault: &SolveError, refused: Refused) -> bool {
    match fault {
        SolveError::Points(_, points) => has_points(refused, *points),
        SolveError::Positions(_) => matches!(refused, Refused::Positions),
        SolveError::Cycle(_, names, back) => {
            matches!(refused, Refused::ShortCycle)
                && names.as_slice().len() == back.saturating_add(2)
        }
        SolveError::Form(_) => matches!(refused, Refused::Form),
        _ => false,
    }
}

/// A game, the most positions of a region and the most parts of a form, and how it is refused.
type Refusal = (Game, u32, u32, Refused);

static REFUSALS: [Refusal; 6] = [
    (TWO_OPEN, 8, 500, Refused::Positions),
    (TWO_OPEN, 9, 500, Refused::Not),
    (CORRIDOR, 100_000, 1, Refused::Form),
    (CORRIDOR, 100_000, 2, Refused::Not),
    (ENDLESS, 100_000, 500, Refused::ShortCycle),
    (EMPTY, 100_000, 500, Refused::Points(36)),
];

/// Whether a game was refused so.
fn is_refused_so(opened: &Opened, refused: Refused) -> bool {
    match &opened.result {
        Ok(_) => matches!(refused, Refused::Not),
        Err(fault) => is_refused_for(fault, refused),
    }
}

/// Whether a row is so.
fn is_refused(alloc: Global, row: &Refusal) -> bool {
    let most = Most {
        positions: row.1,
        parts: row.2,
    };
    let opened = begun(alloc, row.0, most);
    let right = is_refused_so(&opened, row.3);
    drop(opened);
    right
}

/// The first row that isn't so.
fn wrong_refusal(alloc: Global) -> Option<usize> {
    for (at, row) in REFUSALS.iter().enumerate() {
        if !is_refused(alloc, row) {
            return Some(at);
        }
    }
    None
}

#[test]
fn refusals(rt: HostRuntime) {
    none_wrong(&rt, wrong_refusal(rt.alloc()));
}

/// The most positions of a region and the most parts of a form, and whether there are such limits.
type Made = (u32, u32, bool);

static MADE: [Made; 7] = [
    (0, 500, false),
    (1, 1, true),
    (1_000_000, 4_000, true),
    (1_000_001, 4_000, false),
    (100_000, 0, false),
    (100_000, 4_000, true),
    (100_000, 4_001, false),
];

/// Whether limits are made of the numbers, with which they say what they were made of.
fn are_made(positions: u32, parts: u32) -> bool {
    match Limits::new(positions, parts) {
        Some(limits) => limits.positions() == positions && limits.parts() == parts,
        None => false,
    }
}

/// The first row that isn't so.
fn wrong_limits() -> Option<usize> {
    for (at, row) in MADE.iter().enumerate() {
        if are_made(row.0, row.1) != row.2 {
            return Some(at);
        }
    }
    None
}

#[test]
fn limits(rt: HostRuntime) {
    none_wrong(&rt, wrong_limits());
}

/// Whether a game with one open point refuses two moves.
fn refuses(solved: &mut Solved) -> bool {
    solved.play(Move::Stone(Point(0))) == Err(MoveError::NotContested)
        && solved.play(Move::Half) == Err(MoveError::NoHalf)
}

/// Whether it goes on as it must: nothing is left where a stone was put at the point.
fn goes_on(solved: &mut Solved) -> bool {
    is_star(solved)
        && solved.balance().units() == 0
        && solved.play(Move::Stone(Point(4))) == Ok(())
        && is_nought(solved)
        && solved.balance().units() == 0
}

/// Whether Black has won the game, and the open point is taken.
fn is_over(solved: &mut Solved) -> bool {
    solved.winner() == Colour::Black
        && solved.winning_move().is_none()
        && solved.play(Move::Stone(Point(4))) == Err(MoveError::Occupied)
}

/// Whether a game that was begun is played so.
fn goes_so(opened: &mut Opened) -> bool {
    match &mut opened.result {
        Ok(solved) => refuses(solved) && goes_on(solved) && is_over(solved),
        Err(_) => false,
    }
}

/// Whether the game with one open point is.
fn is_played(alloc: Global) -> bool {
    let mut opened = begun(alloc, ONE_OPEN, MOST);
    let right = goes_so(&mut opened);
    drop(opened);
    right
}

#[test]
fn played(rt: HostRuntime) {
    assert!(rt; is_played(rt.alloc()));
}
