//! The texts of `margin` and `moves` where kos can arise.

ghost use Rattle.std.specs.Prelude.{◌≡◌, ◌<◌, ◌*◌, ◌++◌, OnOk, IfOk, length, string_bytes};
ghost use Rattle.fault_words.specs.Naming.{name_by};
ghost use Rattle.report.specs.Analysis.{name_on};
ghost use Rattle.cycle_report.specs.CycleAnalysis.{IsCycleMarginText, IsCycleMovesText, cycle_opening_lines, cycle_outcome_word, cycle_stone_line, thresholds_line};
ghost use Rattle.cycle_report.specs.inner.CycleAnalysis.{HasCycleMove, HasCycleOpening, HasCycleStone, HasCycleStones, HasCycleThresholds};

use crate::cycle_solution::write_winner;
use board_words::{colour_word, write_words};
use cycle_solver::{CycleGame, Thresholds};
use fault_words::{Naming, write_point_name};
use game_text::Text;
use go_grid::{Colour, Point, Size};
use report::{write_komi, write_komi_pair};
use std::alloc::{AllocError, Global};
use whole_rules::Move;

/// Appends the lines on the side to move, the komi and the winner.
#[tactic(auto, using(std::proofs::Common::append_assoc))]
fn write_opening(
    text: &mut String,
    side: Colour,
    komi_halves: i64,
    winner: Option<Colour>,
) -> Result<(), AllocError>
    ensures { OnOk result (string_bytes text.new
        ≡ string_bytes text.old ++ cycle_opening_lines side komi_halves winner) }
{
    write_words(text, "side", colour_word(side))?;
    write_komi(text, "komi", komi_halves)?;
    write_winner(text, winner)
}

/// Appends the lines on the side to move, the komi and the winner of a game with cycles.
fn write_game_opening(
    text: &mut String,
    game: &mut CycleGame,
    komi_halves: i64,
) -> Result<(), AllocError>
    ensures opening { OnOk result (HasCycleOpening game.old.state komi_halves
        (string_bytes text.old) (string_bytes text.new)) }
    ensures same { game.new ≡ game.old }
{
    let side = game.whole().side();
    let winner = game.winner();
    write_opening(text, side, komi_halves, winner)?;
    Ok(())
}

/// Appends the line of both players' thresholds behind a label.
fn write_both(text: &mut String, label: &str, both: Thresholds) -> Result<(), AllocError>
    ensures { OnOk result (string_bytes text.new
        ≡ string_bytes text.old ++ thresholds_line label.now both) }
{
    write_komi_pair(text, label, both.black, both.white)
}

/// Appends the lines on the thresholds of Black and of White moving first.
fn write_thresholds(
    text: &mut String,
    game: &mut CycleGame,
    komi_halves: i64,
) -> Result<(), AllocError>
    ensures thresholds { OnOk result (HasCycleThresholds game.old.state komi_halves
        (string_bytes text.old) (string_bytes text.new)) }
    ensures same { game.new ≡ game.old }
{
    let black = game.thresholds(komi_halves, Colour::Black);
    let white = game.thresholds(komi_halves, Colour::White);
    write_both(text, "black first", black)?;
    write_both(text, "white first", white)?;
    Ok(())
}

/// The word for a move of this side behind which this player wins, or nobody.
fn outcome_word(side: Colour, winner: Option<Colour>) -> &'static str
    ensures { result.now ≡ cycle_outcome_word side winner }
{
    match (side, winner) {
        (_, None) => "none",
        (Colour::Black, Some(Colour::Black)) => "wins",
        (Colour::White, Some(Colour::White)) => "wins",
        (Colour::Black, Some(Colour::White)) => "loses",
        (Colour::White, Some(Colour::Black)) => "loses",
    }
}

/// Appends the line of a stone.
#[tactic(auto, using(std::proofs::Common::append_assoc), unfolding(crate::specs::CycleAnalysis::cycle_stone_line))]
fn write_stone_line(
    alloc: Global,
    text: &mut String,
    naming: Naming,
    size: Size,
    point: Point,
    word: &str,
    both: Thresholds,
) -> Result<(), AllocError>
    requires { point < size.columns * size.rows }
    ensures { OnOk result (string_bytes text.new
        ≡ string_bytes text.old ++ cycle_stone_line
        (name_by naming size.columns size.rows) point word.now both) }
{
    text.push_str("stone ")?;
    write_point_name(alloc, text, naming, size, point)?;
    text.push_str(" ")?;
    write_both(text, word, both)
}

/// Appends the line of a stone of the side to move, or nothing where the stone is illegal.
fn write_stone(
    alloc: Global,
    text: &mut String,
    naming: Naming,
    game: &mut CycleGame,
    komi_halves: i64,
    point: Point,
) -> Result<(), AllocError>
    requires { point < length game.old.state.board.cells }
    ensures stone { OnOk result (HasCycleStone (name_on naming game.old.state.board)
        game.old.state komi_halves point (string_bytes text.old) (string_bytes text.new)) }
    ensures same { game.new ≡ game.old }
{
    let size = game.whole().board().size();
    let side = game.whole().side();
    let Some(both) = game.stone_thresholds(komi_halves, point) else {
        return Ok(());
    };
    let Some(winner) = game.winner_after(Move::Stone(point)) else {
        return Ok(());
    };
    let word = outcome_word(side, winner);
    write_stone_line(alloc, text, naming, size, point, word, both)?;
    Ok(())
}

/// Appends the lines of the legal stones, by point.
fn write_stones(
    alloc: Global,
    text: &mut String,
    naming: Naming,
    game: &mut CycleGame,
    komi_halves: i64,
) -> Result<(), AllocError>
    ensures stones { OnOk result (HasCycleStones (name_on naming game.old.state.board)
        game.old.state komi_halves (length game.old.state.board.cells)
        (string_bytes text.old) (string_bytes text.new)) }
    ensures same { game.new ≡ game.old }
{
    'writing: for number in 0..game.whole().board().size().area() {
        write_stone(alloc, text, naming, game, komi_halves, Point(number))?;
    }
    Ok(())
}

/// Appends the line of a move that is no stone, or nothing where the move is illegal.
fn write_other(
    text: &mut String,
    game: &mut CycleGame,
    chosen: Move,
    label: &str,
) -> Result<(), AllocError>
    ensures other { OnOk result (HasCycleMove game.old.state chosen label.now
        (string_bytes text.old) (string_bytes text.new)) }
    ensures same { game.new ≡ game.old }
{
    let side = game.whole().side();
    let Some(winner) = game.winner_after(chosen) else {
        return Ok(());
    };
    write_words(text, label, outcome_word(side, winner))?;
    Ok(())
}

/// The text of `margin` for a game with cycles that opens with this komi in half-points.
pub fn cycle_margin_text(
    alloc: Global,
    game: &mut CycleGame,
    komi_halves: i64,
) -> Result<Text, AllocError>
    ensures text { IfOk result (λ text. IsCycleMarginText game.old.state komi_halves text) }
    ensures same { game.new ≡ game.old }
{
    let mut text = String::new(alloc);
    write_game_opening(&mut text, game, komi_halves)?;
    write_thresholds(&mut text, game, komi_halves)?;
    Ok(Text::from(text))
}

/// The text of `moves` for a game with cycles that opens with this komi in half-points.
pub fn cycle_moves_text(
    alloc: Global,
    naming: Naming,
    game: &mut CycleGame,
    komi_halves: i64,
) -> Result<Text, AllocError>
    ensures text { IfOk result (λ text. IsCycleMovesText
        (name_on naming game.old.state.board) game.old.state komi_halves text) }
    ensures same { game.new ≡ game.old }
{
    let mut text = String::new(alloc);
    write_game_opening(&mut text, game, komi_halves)?;
    write_stones(alloc, &mut text, naming, game, komi_halves)?;
    write_other(&mut text, game, Move::Spend, "spend")?;
    write_other(&mut text, game, Move::Half, "half")?;
    Ok(Text::from(text))
}
