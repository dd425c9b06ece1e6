//! The score of a finished game.

ghost use Rattle.std.specs.Prelude.{◌≡◌, ◌≤◌, ◌^◌, ◌↔◌, pos, ◌+ℤ◌, ◌-ℤ◌, unsigned_abs, length, IfOk, IsTrue};
ghost use Rattle.report.specs.Score.{CanBeTold, IsScore};

use endgame_solver::Solved;
use go_grid::{Colour, Point};
use std::alloc::{AllocError, Global};

/// What there is to say of the score: so many half-points to Black's good, or the best stone where moves are left that
/// gain, or that half-points don't tell it.
#[derive(Clone, Copy)]
pub enum Score {
    Halves(i64),
    Stone(Point),
    Fraction,
}

/// Whether White's threshold is a half-point above Black's.
fn is_half_above(white: i64, black: i64) -> bool
    requires black { unsigned_abs black ≤ 2 ^ 47 }
    ensures { IsTrue result ↔ (white ≡ black +ℤ pos 1) }
{
    white == black + 1
}

/// How far a threshold is above the komi.
fn above(threshold: i64, komi_halves: i64) -> i64
    requires threshold { unsigned_abs threshold ≤ 2 ^ 47 }
    requires komi { unsigned_abs komi_halves ≤ 2 ^ 24 }
    ensures { result ≡ threshold -ℤ komi_halves }
{
    threshold - komi_halves
}

/// The score of a solved game that opens with this komi in half-points. The stones of its line of play are played.
pub fn score_of(alloc: Global, solved: &mut Solved, komi_halves: i64) -> Result<Score, AllocError>
    requires komi { unsigned_abs komi_halves ≤ 2 ^ 24 }
    ensures score { IfOk result (IsScore solved.old.regions solved.old.state komi_halves) }
    ensures told { IfOk result (CanBeTold (length solved.old.state.board.cells)) }
{
    let black = solved.threshold(komi_halves, Colour::Black);
    let white = solved.threshold(komi_halves, Colour::White);
    let line = solved.line(alloc)?;
    if !line.is_empty() {
        return Ok(Score::Stone(line[0]));
    }
    if is_half_above(white, black) {
        return Ok(Score::Halves(above(white, komi_halves)));
    }
    Ok(Score::Fraction)
}
