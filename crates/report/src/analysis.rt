//! The texts of `margin` and `moves`.

ghost use Rattle.std.specs.Prelude.{◌≡◌, ◌<◌, ◌*◌, ◌++◌, OnOk, IfOk, length, string_bytes};
ghost use Rattle.fault_words.specs.Naming.{name_by};
ghost use Rattle.report.specs.Analysis.{IsMarginText, IsMovesText, name_on, opening_lines, outcome_word, stone_line};
ghost use Rattle.report.specs.inner.Analysis.{HasMove, HasOpening, HasStone, HasStones, HasThresholds};

use crate::komi::write_komi;
use board_words::{colour_word, write_words};
use endgame_solver::Solved;
use fault_words::{Naming, write_point_name};
use game_text::Text;
use go_grid::{Colour, Point, Size};
use std::alloc::{AllocError, Global};
use whole_rules::Move;

/// Appends the lines on the side to move, the komi and the winner.
#[tactic(auto, using(std::proofs::Common::append_assoc))]
fn write_opening(
    text: &mut String,
    side: Colour,
    komi_halves: i64,
    winner: Colour,
) -> Result<(), AllocError>
    ensures { OnOk result (string_bytes text.new
        ≡ string_bytes text.old ++ opening_lines side komi_halves winner) }
{
    write_words(text, "side", colour_word(side))?;
    write_komi(text, "komi", komi_halves)?;
    write_words(text, "winner", colour_word(winner))
}

/// Appends the lines on the side to move, the komi and the winner of a solved game.
pub(crate) fn write_winner(
    text: &mut String,
    solved: &mut Solved,
    komi_halves: i64,
) -> Result<(), AllocError>
    ensures opening { OnOk result (HasOpening solved.old.state komi_halves (string_bytes text.old)
        (string_bytes text.new)) }
    ensures same { solved.new ≡ solved.old }
{
    let side = solved.whole().side();
    let winner = solved.winner();
    write_opening(text, side, komi_halves, winner)?;
    Ok(())
}

/// Appends the lines on the thresholds of Black and of White moving first.
fn write_thresholds(
    text: &mut String,
    solved: &mut Solved,
    komi_halves: i64,
) -> Result<(), AllocError>
    ensures thresholds { OnOk result (HasThresholds solved.old.state komi_halves
        (string_bytes text.old) (string_bytes text.new)) }
    ensures same { solved.new ≡ solved.old }
{
    let black = solved.threshold(komi_halves, Colour::Black);
    let white = solved.threshold(komi_halves, Colour::White);
    write_komi(text, "black first", black)?;
    write_komi(text, "white first", white)?;
    Ok(())
}

/// The word for a move that wins or doesn't.
fn outcome_word(wins: bool) -> &'static str
    ensures { result.now ≡ outcome_word wins }
{
    if wins { "wins" } else { "loses" }
}

/// Appends the line of a stone.
#[tactic(auto, using(std::proofs::Common::append_assoc), unfolding(crate::specs::Analysis::stone_line))]
fn write_stone_line(
    alloc: Global,
    text: &mut String,
    naming: Naming,
    size: Size,
    point: Point,
    wins: bool,
    threshold: i64,
) -> Result<(), AllocError>
    requires { point < size.columns * size.rows }
    ensures { OnOk result (string_bytes text.new
        ≡ string_bytes text.old ++ stone_line
        (name_by naming size.columns size.rows) point wins threshold) }
{
    text.push_str("stone ")?;
    write_point_name(alloc, text, naming, size, point)?;
    text.push_str(" ")?;
    write_komi(text, outcome_word(wins), threshold)
}

/// Appends the line of a stone of the side to move, or nothing where the stone is illegal.
fn write_stone(
    alloc: Global,
    text: &mut String,
    naming: Naming,
    solved: &mut Solved,
    komi_halves: i64,
    point: Point,
) -> Result<(), AllocError>
    requires { point < length solved.old.state.board.cells }
    ensures stone { OnOk result (HasStone (name_on naming solved.old.state.board)
        solved.old.state komi_halves point (string_bytes text.old) (string_bytes text.new)) }
    ensures same { solved.new ≡ solved.old }
{
    let size = solved.whole().board().size();
    let Some(threshold) = solved.stone_threshold(komi_halves, point) else {
        return Ok(());
    };
    let Some(wins) = solved.wins(Move::Stone(point)) else {
        return Ok(());
    };
    write_stone_line(alloc, text, naming, size, point, wins, threshold)?;
    Ok(())
}

/// Appends the lines of the legal stones, by point.
fn write_stones(
    alloc: Global,
    text: &mut String,
    naming: Naming,
    solved: &mut Solved,
    komi_halves: i64,
) -> Result<(), AllocError>
    ensures stones { OnOk result (HasStones (name_on naming solved.old.state.board)
        solved.old.state komi_halves (length solved.old.state.board.cells)
        (string_bytes text.old) (string_bytes text.new)) }
    ensures same { solved.new ≡ solved.old }
{
    'writing: for number in 0..solved.whole().board().size().area() {
        write_stone(alloc, text, naming, solved, komi_halves, Point(number))?;
    }
    Ok(())
}

/// Appends the line of a move that is no stone, or nothing where the move is illegal.
fn write_other(
    text: &mut String,
    solved: &mut Solved,
    chosen: Move,
    label: &str,
) -> Result<(), AllocError>
    ensures other { OnOk result (HasMove solved.old.state chosen label.now
        (string_bytes text.old) (string_bytes text.new)) }
    ensures same { solved.new ≡ solved.old }
{
    let Some(wins) = solved.wins(chosen) else {
        return Ok(());
    };
    write_words(text, label, outcome_word(wins))?;
    Ok(())
}

/// The text of `margin` for a solved game that opens with this komi in half-points.
pub fn margin_text(alloc: Global, solved: &mut Solved, komi_halves: i64) -> Result<Text, AllocError>
    ensures text { IfOk result (λ text. IsMarginText solved.old.state komi_halves text) }
    ensures same { solved.new ≡ solved.old }
{
    let mut text = String::new(alloc);
    write_winner(&mut text, solved, komi_halves)?;
    write_thresholds(&mut text, solved, komi_halves)?;
    Ok(Text::from(text))
}

/// The text of `moves` for a solved game that opens with this komi in half-points.
pub fn moves_text(
    alloc: Global,
    naming: Naming,
    solved: &mut Solved,
    komi_halves: i64,
) -> Result<Text, AllocError>
    ensures text { IfOk result (λ text. IsMovesText
        (name_on naming solved.old.state.board) solved.old.state komi_halves text) }
    ensures same { solved.new ≡ solved.old }
{
    let mut text = String::new(alloc);
    write_winner(&mut text, solved, komi_halves)?;
    write_stones(alloc, &mut text, naming, solved, komi_halves)?;
    write_other(&mut text, solved, Move::Spend, "spend")?;
    write_other(&mut text, solved, Move::Half, "half")?;
    Ok(Text::from(text))
}
