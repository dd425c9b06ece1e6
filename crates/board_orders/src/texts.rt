//! Stones and moves as texts.

ghost use Rattle.std.specs.Prelude.{true, ◌≡◌, ◌↔◌, ◌<◌, ◌≤◌, ◌+◌, ◌*◌, ◌++◌, All, codes, length, IfOk, OnOk, string_bytes};
ghost use Rattle.board_words.specs.Words.{colour_word};
ghost use Rattle.board_orders.specs.Kept.{IsOnBoard};
ghost use Rattle.board_orders.specs.Texts.{has_colour, history_text, joined, move_text, stones_below, vertices_text};

use crate::position::{BoardMove, MadeMove};
use board_words::colour_word;
use go_grid::{Board, Cell, Colour, Point, Size};
use gtp_words::point_text;
use std::alloc::{AllocError, Global};

/// Whether a cell has a stone of the colour.
fn has_colour(colour: Colour, cell: Cell) -> bool
    ensures { result ≡ has_colour colour cell }
{
    match (colour, cell) {
        (Colour::Black, Cell::Black) => true,
        (Colour::White, Cell::White) => true,
        _ => false,
    }
}

/// Whether a text is empty.
fn is_bare(text: &str) -> bool
    ensures { (result ≡ true) ↔ (length text.now ≡ 0) }
{
    text.is_empty()
}

/// Appends a part to a text, behind the separator where the text isn't empty.
fn join(text: &mut String, separator: &str, part: &str) -> Result<(), AllocError>
    ensures { OnOk result (string_bytes text.new
        ≡ joined separator.now (string_bytes text.old) part.now) }
{
    if is_bare(text) {
        return text.push_str(part);
    }
    text.push_str(separator)?;
    text.push_str(part)
}

/// Appends the point, where it has a stone of the colour.
fn join_stone(
    alloc: Global,
    text: &mut String,
    board: &Board,
    colour: Colour,
    point: Point,
) -> Result<(), AllocError>
    requires { point < length board.now.cells }
    ensures { OnOk result (string_bytes text.old ≡ stones_below board.now colour point
        → string_bytes text.new ≡ stones_below board.now colour (point + 1)) }
{
    let size = board.size();
    if has_colour(colour, board.get(point)) {
        let vertex = point_text(alloc, size, point)?;
        return join(text, " ", &vertex);
    }
    Ok(())
}

/// The points with a stone of the colour.
#[tactic(auto, unfolding(crate::specs::Texts::stones_below))]
pub(crate) fn stones_text(
    alloc: Global,
    board: &Board,
    colour: Colour,
) -> Result<String, AllocError>
    ensures { IfOk result (λ text. string_bytes text
        ≡ stones_below board.now colour (length board.now.cells)) }
{
    let mut text = String::new(alloc);
    'stones: for number in 0..board.size().area() {
        join_stone(alloc, &mut text, board, colour, Point(number))?;
    }
    Ok(text)
}

/// Points with blanks between them.
pub fn vertices_text(alloc: Global, size: Size, points: &[Point]) -> Result<String, AllocError>
    requires { All (λ p. p < size.columns * size.rows) points.now }
    ensures { IfOk result (λ text. string_bytes text
        ≡ vertices_text size.columns size.rows points.now) }
{
    let mut text = String::new(alloc);
    'points: for at in 0..points.len() {
        let vertex = point_text(alloc, size, points[at])?;
        join(&mut text, " ", &vertex)?;
    }
    Ok(text)
}

/// The text of a move.
pub fn move_text(alloc: Global, size: Size, chosen: BoardMove) -> Result<String, AllocError>
    requires { IsOnBoard size.columns size.rows chosen }
    ensures { IfOk result (λ text. string_bytes text ≡ move_text size.columns size.rows chosen) }
{
    match chosen {
        BoardMove::Stone(point) => point_text(alloc, size, point),
        BoardMove::Pass => String::from_str(alloc, "PASS"),
        BoardMove::Half => String::from_str(alloc, "PASS"),
    }
}

/// The line of a move that was made.
fn made_line(alloc: Global, size: Size, made: &MadeMove) -> Result<String, AllocError>
    requires { IsOnBoard size.columns size.rows made.now.chosen }
    ensures { IfOk result (λ text. string_bytes text ≡ colour_word made.now.colour ++
        (codes " " ++ move_text size.columns size.rows made.now.chosen)) }
{
    let word = colour_word(made.colour);
    let chosen = move_text(alloc, size, made.chosen)?;
    format!(in alloc; "{word} {chosen}")
}

/// The moves, the last one first, each on a line.
pub(crate) fn history_text(
    alloc: Global,
    size: Size,
    moves: &[MadeMove],
) -> Result<String, AllocError>
    requires { All (λ m. IsOnBoard size.columns size.rows m.chosen) moves.now }
    ensures { IfOk result (λ text. string_bytes text
        ≡ history_text size.columns size.rows moves.now) }
{
    let mut text = String::new(alloc);
    let mut left = moves.len();
    'moves: while left > 0 {
        left -= 1;
        let line = made_line(alloc, size, &moves[left])?;
        join(&mut text, "\n", &line)?;
    }
    Ok(text)
}
