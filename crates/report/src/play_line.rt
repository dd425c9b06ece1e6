//! The text of `line`.

ghost use Rattle.std.specs.Prelude.{◌≡◌, ◌<◌, ◌*◌, ◌++◌, All, OnOk, IfOk, string_bytes};
ghost use Rattle.fault_words.specs.Naming.{name_by};
ghost use Rattle.report.specs.Analysis.{IsLineText, all_played, name_on, played, stones_line};
ghost use Rattle.report.specs.inner.Analysis.{HasLine, HasThreshold};

use crate::analysis::write_winner;
use crate::komi::write_komi;
use board_words::colour_word;
use endgame_solver::Solved;
use fault_words::{Naming, write_point_name};
use game_text::Text;
use go_grid::{Colour, Point, Size};
use std::alloc::{AllocError, Global};

/// Appends the line on the threshold of the side to move.
fn write_threshold(
    text: &mut String,
    solved: &mut Solved,
    komi_halves: i64,
) -> Result<(), AllocError>
    ensures threshold { OnOk result (HasThreshold solved.old.state komi_halves
        (string_bytes text.old) (string_bytes text.new)) }
    ensures same { solved.new ≡ solved.old }
{
    let side = solved.whole().side();
    let threshold = solved.threshold(komi_halves, side);
    write_komi(text, "threshold", threshold)?;
    Ok(())
}

/// Appends a stone of a line, behind a blank.
#[tactic(auto, using(std::proofs::Common::append_assoc), unfolding(crate::specs::Analysis::played))]
fn write_played(
    alloc: Global,
    text: &mut String,
    naming: Naming,
    size: Size,
    colour: Colour,
    point: Point,
) -> Result<(), AllocError>
    requires { point < size.columns * size.rows }
    ensures { OnOk result (string_bytes text.new
        ≡ string_bytes text.old ++ played
        (name_by naming size.columns size.rows) colour point) }
{
    text.push_str(" ")?;
    text.push_str(colour_word(colour))?;
    text.push_str(":")?;
    write_point_name(alloc, text, naming, size, point)
}

/// Appends the stones of a line, of which this player has the first.
fn write_all_played(
    alloc: Global,
    text: &mut String,
    naming: Naming,
    size: Size,
    first: Colour,
    stones: &[Point],
) -> Result<(), AllocError>
    requires { All (λ p. p < size.columns * size.rows) stones.now }
    ensures { OnOk result (string_bytes text.new
        ≡ string_bytes text.old ++ all_played
        (name_by naming size.columns size.rows) first stones.now) }
{
    let mut colour = first;
    'writing: for point in stones {
        write_played(alloc, text, naming, size, colour, *point)?;
        colour = colour.other();
    }
    Ok(())
}

/// Appends the line of stones.
#[tactic(auto, using(std::proofs::Common::append_assoc), unfolding(crate::specs::Analysis::stones_line))]
fn write_stones_line(
    alloc: Global,
    text: &mut String,
    naming: Naming,
    size: Size,
    first: Colour,
    stones: &[Point],
) -> Result<(), AllocError>
    requires { All (λ p. p < size.columns * size.rows) stones.now }
    ensures { OnOk result (string_bytes text.new
        ≡ string_bytes text.old ++ stones_line
        (name_by naming size.columns size.rows) first stones.now) }
{
    let count = stones.len();
    write!(text, "line {count}")?;
    write_all_played(alloc, text, naming, size, first, stones)?;
    text.push_str("\n")
}

/// Appends the line of play of a solved game, and plays its stones.
fn write_line(
    alloc: Global,
    text: &mut String,
    naming: Naming,
    solved: &mut Solved,
) -> Result<(), AllocError>
    ensures { OnOk result (HasLine (name_on naming solved.old.state.board) solved.old.regions
        solved.old.state (string_bytes text.old) (string_bytes text.new)) }
{
    let first = solved.whole().side();
    let size = solved.whole().board().size();
    let stones = solved.line(alloc)?;
    write_stones_line(alloc, text, naming, size, first, &stones)?;
    Ok(())
}

/// The text of `line` for a solved game that opens with this komi in half-points. The stones of the line are played.
pub fn line_text(
    alloc: Global,
    naming: Naming,
    solved: &mut Solved,
    komi_halves: i64,
) -> Result<Text, AllocError>
    ensures { IfOk result (λ text. IsLineText (name_on naming solved.old.state.board)
        solved.old.regions solved.old.state komi_halves text) }
{
    let mut text = String::new(alloc);
    write_winner(&mut text, solved, komi_halves)?;
    write_threshold(&mut text, solved, komi_halves)?;
    write_line(alloc, &mut text, naming, solved)?;
    Ok(Text::from(text))
}
