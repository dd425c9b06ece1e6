//! The lines of faults of regions.

ghost use Rattle.std.specs.Prelude.{◌≡◌, ◌<◌, ◌*◌, All, IfOk, codes, string_bytes};
ghost use Rattle.board_words.specs.Words.{word_line};
ghost use Rattle.endgame_questions.specs.Refusal.{cycle_line, points_line, positions_line};

use board_words::write_words;
use fault_words::{Naming, cycle_words, points_words, positions_words};
use go_grid::{Colour, Point, Size};
use std::alloc::{AllocError, Global};

/// The line of a fault, by its words.
fn fault_line(alloc: Global, words: &str) -> Result<String, AllocError>
    ensures { IfOk result (λ text. string_bytes text ≡ word_line (codes "fault") words.now) }
{
    let mut text = String::new(alloc);
    write_words(&mut text, "fault", words)?;
    Ok(text)
}

/// The line of a region of too many points.
pub(crate) fn points_text(
    alloc: Global,
    size: Size,
    lowest: Point,
    points: u16,
) -> Result<String, AllocError>
    requires { lowest < size.columns * size.rows }
    ensures { IfOk result (λ text. string_bytes text ≡ points_line size.columns lowest points) }
{
    let words = points_words(alloc, Naming::Letters, size, lowest, points)?;
    fault_line(alloc, &words)
}

/// The line of a region of more positions than the limit.
pub(crate) fn positions_text(
    alloc: Global,
    size: Size,
    lowest: Point,
    limit: u32,
) -> Result<String, AllocError>
    requires { lowest < size.columns * size.rows }
    ensures { IfOk result (λ text. string_bytes text ≡ positions_line size.columns lowest limit) }
{
    let words = positions_words(alloc, Naming::Letters, size, lowest, limit)?;
    fault_line(alloc, &words)
}

/// The line of a cycle of moves that comes back to the position after `back` of them.
pub(crate) fn cycle_text(
    alloc: Global,
    size: Size,
    lowest: Point,
    back: usize,
    moves: &[(Colour, Point)],
) -> Result<String, AllocError>
    requires lowest { lowest < size.columns * size.rows }
    requires moves { All (λ m. m.1 < size.columns * size.rows) moves.now }
    ensures { IfOk result
        (λ text. string_bytes text ≡ cycle_line size.columns lowest back moves.now) }
{
    let words = cycle_words(alloc, Naming::Letters, size, lowest, back, moves)?;
    fault_line(alloc, &words)
}
