//! Words and lines.

ghost use Rattle.std.specs.Prelude.{◌≡◌, ◌<◌, ◌*◌, ◌++◌, OnOk, string_bytes};
ghost use Rattle.go_grid.specs.Name.{point_name};
ghost use Rattle.board_words.specs.Words.{colour_word, word_line};

use go_grid::{Colour, Point, Size, name};
use std::alloc::AllocError;

/// The word of a colour.
pub fn colour_word(colour: Colour) -> &'static str
    ensures { result.now ≡ colour_word colour }
{
    match colour {
        Colour::Black => "black",
        Colour::White => "white",
    }
}

/// Appends the name of a point of a board of the size, two letters.
#[tactic(auto, using(std::proofs::Common::append_assoc))]
pub fn write_name(text: &mut String, size: Size, point: Point) -> Result<(), AllocError>
    requires { point < size.columns * size.rows }
    ensures { OnOk result
        (string_bytes text.new ≡ string_bytes text.old ++ point_name size.columns point) }
{
    let [column, row] = name(size, point);
    text.push(char::from(column))?;
    text.push(char::from(row))
}

/// Appends a line of two words.
#[tactic(auto, unfolding(crate::specs::Words::word_line))]
pub fn write_words(text: &mut String, label: &str, word: &str) -> Result<(), AllocError>
    ensures { OnOk result
        (string_bytes text.new ≡ string_bytes text.old ++ word_line label.now word.now) }
{
    writeln!(text, "{label} {word}")
}

/// Appends a line that ends in a point of a board of the size.
#[tactic(auto, using(std::proofs::Common::append_assoc), unfolding(crate::specs::Words::word_line))]
pub fn write_point(
    text: &mut String,
    label: &str,
    size: Size,
    point: Point,
) -> Result<(), AllocError>
    requires { point < size.columns * size.rows }
    ensures { OnOk result (string_bytes text.new ≡ string_bytes text.old ++ word_line label.now
        (point_name size.columns point)) }
{
    text.push_str(label)?;
    text.push_str(" ")?;
    write_name(text, size, point)?;
    text.push_str("\n")
}
