//! What a line asks for.

ghost use Rattle.std.specs.Prelude.{◌≡◌, ◌↔◌, true, ℕ, MatchOption};
ghost use Rattle.go_grid.specs.Name.{IsName};
ghost use Rattle.play_session.specs.Words.{NamesMove, IsNamed};

use go_grid::{Board, Point, Size, point_of};
use sgf_go::trim;
use whole_rules::Move;

/// The point of the board that a word names, if it names one.
fn named_point(size: Size, word: &[u8]) -> Option<Point>
    ensures { MatchOption result ((p : ℕ) → ¬ IsName size.columns size.rows word.now p)
        (λ p. IsName size.columns size.rows word.now p) }
{
    let [column, row] = word else {
        return None;
    };
    point_of(size, [*column, *row])
}

/// Whether the two are the same.
fn is_same(word: &[u8], other: &[u8]) -> bool
    ensures { (result ≡ true) ↔ (word.now ≡ other.now) }
{
    word == other
}

/// The move whose word it is, if there is one.
fn named_move(size: Size, word: &[u8]) -> Option<Move>
    ensures { IsNamed size.columns size.rows word.now result }
{
    if is_same(word, b"spend") {
        return Some(Move::Spend);
    }
    if is_same(word, b"half") {
        return Some(Move::Half);
    }
    match named_point(size, word) {
        Some(point) => Some(Move::Stone(point)),
        None => None,
    }
}

/// The move that a line asks for on the board, if it names one.
pub(crate) fn asked_move(board: &Board, line: &[u8]) -> Option<Move>
    ensures { NamesMove board.now line.now result }
{
    named_move(board.size(), trim(line))
}
