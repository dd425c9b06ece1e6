//! Boards as texts.

ghost use Rattle.std.specs.Prelude.{◌≡◌, ◌<◌, ◌≤◌, ◌+◌, ◌*◌, ◌++◌, length, codes, IfOk, OnOk, string_bytes};
ghost use Rattle.board_orders.specs.Texts.{board_text, letters_below, letters_line, mark, marks_below, position_text, row_line, row_pad, rows_above, score_lines};

use crate::position::{Position, Tally};
use board_words::write_komi_word;
use go_grid::{Board, Cell, Colour, Point};
use gtp_words::letter_of;
use std::alloc::{AllocError, Global};

/// The mark of a cell.
fn mark(cell: Cell) -> &'static str
    ensures { result.now ≡ mark cell }
{
    match cell {
        Cell::Empty => " .",
        Cell::Black => " X",
        Cell::White => " O",
    }
}

/// The letters of so many columns.
#[tactic(auto, using(crate::proofs::TextLemmas::letter_more), unfolding(crate::specs::Texts::letters_below))]
fn letters(alloc: Global, columns: u8) -> Result<String, AllocError>
    requires { columns ≤ 25 }
    ensures { IfOk result (λ text. string_bytes text ≡ letters_below columns) }
{
    let mut text = String::new(alloc);
    'letters: for column in 0..columns {
        let letter = char::from(letter_of(u16::from(column)));
        write!(text, " {letter}")?;
    }
    Ok(text)
}

/// The line of the columns' letters.
fn letters_line(alloc: Global, columns: u8) -> Result<String, AllocError>
    requires { columns ≤ 25 }
    ensures { IfOk result (λ text. string_bytes text ≡ letters_line columns) }
{
    let letters = letters(alloc, columns)?;
    format!(in alloc; "  {letters}\n")
}

/// The marks of a row, counted from the top.
#[tactic(auto, using(crate::proofs::TextLemmas::mark_more), unfolding(crate::specs::Texts::marks_below))]
fn marks(alloc: Global, board: &Board, row: u8) -> Result<String, AllocError>
    requires { row < board.now.rows }
    ensures { IfOk result (λ text. string_bytes text
        ≡ marks_below board.now row board.now.columns) }
{
    let mut text = String::new(alloc);
    let columns = board.size().columns;
    'marks: for column in 0..columns {
        let number = u16::from(row) * u16::from(columns) + u16::from(column);
        text.push_str(mark(board.get(Point(number))))?;
    }
    Ok(text)
}

/// What a row's number lacks to two places.
fn row_pad(number: u8) -> &'static str
    ensures { result.now ≡ row_pad number }
{
    if number < 10 { " " } else { "" }
}

/// The line of a row, counted from the top.
#[tactic(auto, using(std::proofs::Common::append_assoc))]
fn row_line(alloc: Global, board: &Board, row: u8) -> Result<String, AllocError>
    requires { row < board.now.rows }
    ensures { IfOk result (λ text. string_bytes text ≡ row_line board.now row) }
{
    let number = board.size().rows - row;
    let pad = row_pad(number);
    let marks = marks(alloc, board, row)?;
    format!(in alloc; "{pad}{number}{marks} {number}\n")
}

/// The lines of all rows.
#[tactic(auto, using(crate::proofs::TextLemmas::row_more), unfolding(crate::specs::Texts::rows_above))]
fn rows(alloc: Global, board: &Board) -> Result<String, AllocError>
    ensures { IfOk result (λ text. string_bytes text ≡ rows_above board.now board.now.rows) }
{
    let mut text = String::new(alloc);
    'rows: for row in 0..board.size().rows {
        let line = row_line(alloc, board, row)?;
        text.push_str(&line)?;
    }
    Ok(text)
}

/// A board, with the names of its columns and rows.
#[tactic(auto, using(std::proofs::Common::append_assoc))]
fn board_text(alloc: Global, board: &Board) -> Result<String, AllocError>
    ensures { IfOk result (λ text. string_bytes text ≡ board_text board.now) }
{
    let line = letters_line(alloc, board.size().columns)?;
    let rows = rows(alloc, board)?;
    format!(in alloc; "{line}{rows}{line}")
}

/// The prisoners and the komi.
#[tactic(auto, unfolding(crate::specs::Texts::score_lines))]
fn score_lines(alloc: Global, prisoners: Tally, halves: i64) -> Result<String, AllocError>
    ensures { IfOk result (λ text. string_bytes text ≡ score_lines prisoners halves) }
{
    let black = prisoners.of(Colour::Black);
    let white = prisoners.of(Colour::White);
    let mut komi = String::new(alloc);
    write_komi_word(&mut komi, halves)?;
    format!(in alloc; "black prisoners {black}\nwhite prisoners {white}\nkomi {komi}")
}

/// The board, the prisoners and the komi.
pub(crate) fn position_text(
    alloc: Global,
    position: &Position,
    halves: i64,
) -> Result<String, AllocError>
    ensures { IfOk result (λ text. string_bytes text ≡ position_text position.now halves) }
{
    let board = board_text(alloc, &position.board)?;
    let score = score_lines(alloc, position.prisoners, halves)?;
    format!(in alloc; "\n{board}{score}")
}
