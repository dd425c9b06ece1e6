//! The text of `board`.

ghost use Rattle.std.specs.Prelude.{◌≡◌, ◌<◌, ◌+◌, ◌*◌, ◌++◌, OnOk, IfOk, string_bytes};
ghost use Rattle.report.specs.BoardText.{board_text, cell_word, cells_text, head_lines, prisoners_line, row_line, rows_text, size_line};

use crate::komi::write_komi;
use board_words::{colour_word, write_words};
use game_text::Text;
use go_grid::{Board, Cell, Colour, Point, Size};
use std::alloc::{AllocError, Global};

/// What a position has beside its board: the side to move, the komi in half-points, and the stones that each side has taken.
#[derive(Clone, Copy)]
pub struct Terms {
    pub side: Colour,
    pub komi_halves: i64,
    pub black_prisoners: u64,
    pub white_prisoners: u64,
}

/// The letter of a cell of a point that is declared for a colour, or for nobody.
fn cell_word(cell: Cell, declared: Option<Colour>) -> &'static str
    ensures { result.now ≡ cell_word cell declared }
{
    match (cell, declared) {
        (Cell::Black, _) => "X",
        (Cell::White, _) => "O",
        (Cell::Empty, None) => ".",
        (Cell::Empty, Some(Colour::Black)) => "b",
        (Cell::Empty, Some(Colour::White)) => "w",
    }
}

/// Appends the line of the size.
#[tactic(auto, unfolding(crate::specs::BoardText::size_line))]
fn write_size(text: &mut String, size: Size) -> Result<(), AllocError>
    ensures { OnOk result (string_bytes text.new
        ≡ string_bytes text.old ++ size_line size.columns size.rows) }
{
    let columns = size.columns;
    let rows = size.rows;
    writeln!(text, "size {columns} {rows}")
}

/// Appends the line of a player's prisoners.
#[tactic(auto, unfolding(crate::specs::BoardText::prisoners_line))]
fn write_prisoners(text: &mut String, colour: Colour, prisoners: u64) -> Result<(), AllocError>
    ensures { OnOk result (string_bytes text.new
        ≡ string_bytes text.old ++ prisoners_line colour prisoners) }
{
    let owner = colour_word(colour);
    writeln!(text, "prisoners {owner} {prisoners}")
}

/// The point of a row and a column, both counted from 0.
fn point_at(size: Size, row: u8, column: u8) -> Point
    requires row { row < size.rows }
    requires column { column < size.columns }
    ensures value { result ≡ row * size.columns + column }
    ensures inside { result < size.columns * size.rows }
{
    Point(u16::from(row) * u16::from(size.columns) + u16::from(column))
}

/// Appends the letters of a row's cells.
#[tactic(auto, using(std::proofs::Common::append_assoc), unfolding(crate::specs::BoardText::cells_text))]
fn write_cells(text: &mut String, board: &Board, row: u8) -> Result<(), AllocError>
    requires { row < board.now.rows }
    ensures { OnOk result (string_bytes text.new
        ≡ string_bytes text.old ++ cells_text board.now row board.now.columns) }
{
    let size = board.size();
    for column in 0..size.columns {
        let point = point_at(size, row, column);
        text.push_str(cell_word(board.get(point), board.declared_for(point)))?;
    }
    Ok(())
}

/// Appends the line of a row.
#[tactic(auto, using(std::proofs::Common::append_assoc))]
fn write_row(text: &mut String, board: &Board, row: u8) -> Result<(), AllocError>
    requires { row < board.now.rows }
    ensures { OnOk result (string_bytes text.new
        ≡ string_bytes text.old ++ row_line board.now row) }
{
    text.push_str("row ")?;
    write_cells(text, board, row)?;
    text.push_str("\n")
}

/// Appends the lines of all rows, from the top.
#[tactic(auto, using(std::proofs::Common::append_assoc), unfolding(crate::specs::BoardText::rows_text))]
fn write_rows(text: &mut String, board: &Board) -> Result<(), AllocError>
    ensures { OnOk result (string_bytes text.new
        ≡ string_bytes text.old ++ rows_text board.now board.now.rows) }
{
    let size = board.size();
    for row in 0..size.rows {
        write_row(text, board, row)?;
    }
    Ok(())
}

/// Appends the lines above the rows.
#[tactic(auto, using(std::proofs::Common::append_assoc))]
fn write_head(text: &mut String, board: &Board, terms: Terms) -> Result<(), AllocError>
    ensures { OnOk result (string_bytes text.new ≡ string_bytes text.old
        ++ head_lines board.now terms.side terms.komi_halves terms.black_prisoners
        terms.white_prisoners) }
{
    write_size(text, board.size())?;
    write_words(text, "side", colour_word(terms.side))?;
    write_komi(text, "komi", terms.komi_halves)?;
    write_prisoners(text, Colour::Black, terms.black_prisoners)?;
    write_prisoners(text, Colour::White, terms.white_prisoners)
}

/// The text of `board` for a position: its size, the side to move, the komi in points, the prisoners of each player, and a line for each row
/// from the top, with `X`, `O` and `.` for the cells, and `b` and `w` for the empty ones that are declared for a player.
#[tactic(auto, using(std::proofs::Common::append_assoc))]
pub fn board_text(alloc: Global, board: &Board, terms: Terms) -> Result<Text, AllocError>
    ensures { IfOk result (λ text. text ≡ board_text board.now terms.side terms.komi_halves
        terms.black_prisoners terms.white_prisoners) }
{
    let mut text = String::new(alloc);
    write_head(&mut text, board, terms)?;
    write_rows(&mut text, board)?;
    Ok(Text::from(text))
}
