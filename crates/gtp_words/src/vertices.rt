//! Colours and points as words.

ghost use Rattle.std.specs.Prelude.{◌≡◌, ◌↔◌, ◌≤◌, ◌<◌, ◌+◌, ◌-◌, ◌*◌, ◌/◌, ◌%◌, true, IfOk, IfSome, IfNone, ℕ, string_bytes};
ghost use Rattle.std.specs.Char.{to_ascii_lowercase};
ghost use Rattle.std.specs.Fmt.{decimal};
ghost use Rattle.go_grid.specs.declared.grid.Colour.{Colour};
ghost use Rattle.gtp_words.specs.Vertices.{IsColour, IsVertex, capital, column_letter, vertex_text};
ghost use Rattle.gtp_words.specs.Words.{lowered};

use board_words::read_number;
use go_grid::{Colour, Point, Size};
use std::alloc::{AllocError, Global};

/// A point by its column from 0 and its row from the bottom, from 1. It may be off the board.
#[derive(Clone, Copy)]
pub struct Vertex {
    pub column: u8,
    pub row: u8,
}

/// Whether a word is the other one, which is in small letters, in either case.
pub fn is_word(word: &[u8], small: &[u8]) -> bool
    requires { lowered small.now ≡ small.now }
    ensures { (result ≡ true) ↔ (lowered word.now ≡ small.now) }
{
    word.eq_ignore_ascii_case(small)
}

/// The colour that a word names.
pub fn read_colour(word: &[u8]) -> Option<Colour>
    ensures some { IfSome result (IsColour word.now) }
    ensures none { IfNone result ((c : Colour) → ¬ IsColour word.now c) }
{
    if is_word(word, b"b") || is_word(word, b"black") {
        return Some(Colour::Black);
    }
    if is_word(word, b"w") || is_word(word, b"white") {
        return Some(Colour::White);
    }
    None
}

/// The number of a column's letter, in either case.
fn read_column(letter: u8) -> Option<u8>
    ensures some { IfSome result (λ column. (column < 25)
        × (to_ascii_lowercase letter ≡ column_letter column)) }
    ensures none { IfNone result ((column : ℕ) → column < 25
        → ¬ (to_ascii_lowercase letter ≡ column_letter column)) }
{
    let number = letter.to_ascii_lowercase().checked_sub(b'a')?;
    if number < 8 {
        return Some(number);
    }
    if number > 8 && number < 26 {
        return Some(number - 1);
    }
    None
}

/// The row from 1 to 25 that digits without a leading zero write.
#[tactic(auto, using(board_words::proofs::DigitLemmas::row_is, board_words::proofs::DigitLemmas::row_read))]
fn read_row(digits: &[u8]) -> Option<u8>
    ensures some { IfSome result (λ row. (1 ≤ row) × (row ≤ 25)
        × (digits.now ≡ decimal row)) }
    ensures none { IfNone result ((row : ℕ) → 1 ≤ row → row ≤ 25
        → ¬ (digits.now ≡ decimal row)) }
{
    let row = match read_number(digits) {
        Some(row) => row,
        None => return None,
    };
    if digits[0] == b'0' || row < 1 || row > 25 {
        return None;
    }
    Some(row as u8)
}

/// The point that a word names, which may be off the board.
pub fn read_vertex(word: &[u8]) -> Option<Vertex>
    ensures some { IfSome result (IsVertex word.now) }
    ensures none { IfNone result ((v : Vertex) → ¬ IsVertex word.now v) }
{
    let [letter, digits @ ..] = word else {
        return None;
    };
    let column = match read_column(*letter) {
        Some(column) => column,
        None => return None,
    };
    match read_row(digits) {
        Some(row) => Some(Vertex { column, row }),
        None => None,
    }
}

/// The number of a point of a board of the size.
pub fn point_at(size: Size, vertex: Vertex) -> Point
    requires column { vertex.column < size.columns }
    requires row { vertex.row ≤ size.rows }
    ensures { result ≡ (size.rows - vertex.row) * size.columns + vertex.column }
{
    let row = u16::from(size.rows - vertex.row);
    Point(row * u16::from(size.columns) + u16::from(vertex.column))
}

/// The capital letter of a column.
pub fn letter_of(column: u16) -> u8
    requires { column < 25 }
    ensures { result ≡ capital column }
{
    if column < 8 {
        return b'A' + column as u8;
    }
    b'B' + column as u8
}

/// The text of a point of a board of the size.
pub fn point_text(alloc: Global, size: Size, point: Point) -> Result<String, AllocError>
    requires { point < size.columns * size.rows }
    ensures { IfOk result (λ text.
        string_bytes text ≡ vertex_text size.columns size.rows point) }
{
    let columns = u16::from(size.columns);
    let letter = char::from(letter_of(point.0 % columns));
    let row = u16::from(size.rows) - point.0 / columns;
    format!(in alloc; "{letter}{row}")
}
