//! Moves as words.

ghost use Rattle.std.specs.Prelude.{◌≡◌, IfOk, IfSome, IfNone};
ghost use Rattle.gtp_engine.specs.Moves.{IsWanted, move_for, move_text};
ghost use Rattle.whole_rules.specs.Moves.{IsMoveOnBoard};

use game_text::Text;
use go_grid::Size;
use gtp_words::{Vertex, is_word, point_at, point_text, read_vertex};
use std::alloc::{AllocError, Global};
use whole_rules::Move;

/// What a move's word says.
#[derive(Clone, Copy)]
pub(crate) enum Wanted {
    At(Vertex),
    Pass,
    Half,
}

/// What a move's word says.
pub(crate) fn read_wanted(word: &[u8]) -> Option<Wanted>
    ensures some { IfSome result (IsWanted word.now) }
    ensures none { IfNone result ((wanted : Wanted) → ¬ IsWanted word.now wanted) }
{
    if is_word(word, b"pass") {
        return Some(Wanted::Pass);
    }
    if is_word(word, b"half") {
        return Some(Wanted::Half);
    }
    match read_vertex(word) {
        Some(vertex) => Some(Wanted::At(vertex)),
        None => None,
    }
}

/// The move on a board of the size, or none for a point off the board.
pub(crate) fn find_move(size: Size, wanted: Wanted) -> Option<Move>
    ensures { result ≡ move_for size.columns size.rows wanted }
{
    match wanted {
        Wanted::At(vertex) => {
            if vertex.column >= size.columns || vertex.row > size.rows {
                return None;
            }
            Some(Move::Stone(point_at(size, vertex)))
        }
        Wanted::Pass => Some(Move::Spend),
        Wanted::Half => Some(Move::Half),
    }
}

/// The text of a move of the engine.
pub(crate) fn write_move(alloc: Global, size: Size, chosen: &Move) -> Result<Text, AllocError>
    requires { IsMoveOnBoard size.columns size.rows chosen.now }
    ensures { IfOk result (λ text. text ≡ move_text size.columns size.rows chosen.now) }
{
    match *chosen {
        Move::Stone(point) => Ok(Text::from(point_text(alloc, size, point)?)),
        Move::Spend => Text::from_slice(alloc, b"pass"),
        Move::Half => Text::from_slice(alloc, b"half"),
    }
}
