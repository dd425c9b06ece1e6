//! Moves as words name them.

ghost use Rattle.std.specs.Prelude.{◌≡◌, ◌<◌, ◌*◌, IfSome, IfNone};
ghost use Rattle.board_orders.specs.Kept.{IsOnBoard};
ghost use Rattle.board_orders.specs.Positions.{IsWanted, move_for, point_for};

use crate::position::BoardMove;
use go_grid::{Point, Size};
use gtp_words::{Vertex, is_word, point_at, read_vertex};

/// What a move's word says.
#[derive(Clone, Copy)]
pub enum Wanted {
    At(Vertex),
    Pass,
}

/// What a move's word says.
pub(crate) fn read_wanted(word: &[u8]) -> Option<Wanted>
    ensures some { IfSome result (IsWanted word.now) }
    ensures none { IfNone result ((w : Wanted) → ¬ IsWanted word.now w) }
{
    if is_word(word, b"pass") {
        return Some(Wanted::Pass);
    }
    match read_vertex(word) {
        Some(vertex) => Some(Wanted::At(vertex)),
        None => None,
    }
}

/// The number of a point, or none where it is off the board.
pub(crate) fn find_point(size: Size, vertex: Vertex) -> Option<Point>
    ensures value { result ≡ point_for size.columns size.rows vertex }
    ensures on_board { IfSome result (λ p. p < size.columns * size.rows) }
{
    if vertex.column >= size.columns || vertex.row < 1 || vertex.row > size.rows {
        return None;
    }
    Some(point_at(size, vertex))
}

/// The move on a board of the size, or none for a point off the board.
pub(crate) fn find_move(size: Size, wanted: Wanted) -> Option<BoardMove>
    ensures value { result ≡ move_for size.columns size.rows wanted }
    ensures on_board { IfSome result (IsOnBoard size.columns size.rows) }
{
    match wanted {
        Wanted::At(vertex) => match find_point(size, vertex) {
            Some(point) => Some(BoardMove::Stone(point)),
            None => None,
        },
        Wanted::Pass => Some(BoardMove::Pass),
    }
}
