//! The text of `solve` where kos can arise.

ghost use Rattle.std.specs.Prelude.{◌≡◌, ◌*◌, ◌++◌, OnOk, IfOk, IfSome, string_bytes};
ghost use Rattle.whole_rules.specs.Moves.{IsMoveOnBoard};
ghost use Rattle.cycle_report.specs.CycleSolution.{IsCycleSolveText, captures_line, cycle_outcome_text, winner_or_none};
ghost use Rattle.cycle_report.specs.inner.CycleSolution.{HasCycleOutcome};
ghost use Rattle.report.specs.Solution.{HasLines, HasRegions};

use board_words::{colour_word, write_words};
use cycle_solver::CycleGame;
use game_text::Text;
use go_grid::{Colour, Size};
use report::{write_chosen, write_count, write_region, write_state};
use std::alloc::{AllocError, Global};
use whole_rules::Move;

/// Appends the line of the winner, if there is one.
pub(crate) fn write_winner(text: &mut String, winner: Option<Colour>) -> Result<(), AllocError>
    ensures { OnOk result
        (string_bytes text.new ≡ string_bytes text.old ++ winner_or_none winner) }
{
    match winner {
        Some(winner) => write_words(text, "winner", colour_word(winner)),
        None => write_words(text, "winner", "none"),
    }
}

/// Appends the line of the winner's captures, if there is a winner.
fn write_captures(text: &mut String, captures: Option<usize>) -> Result<(), AllocError>
    ensures { OnOk result
        (string_bytes text.new ≡ string_bytes text.old ++ captures_line captures) }
{
    match captures {
        Some(captures) => write_count(text, "captures", captures as u128),
        None => write_words(text, "captures", "none"),
    }
}

/// Appends the lines on the winner, the captures and the move.
#[tactic(auto, using(std::proofs::Common::append_assoc))]
fn write_cycle_outcome(
    text: &mut String,
    size: Size,
    winner: Option<Colour>,
    captures: Option<usize>,
    chosen: Option<Move>,
) -> Result<(), AllocError>
    requires { IfSome chosen (IsMoveOnBoard size.columns size.rows) }
    ensures { OnOk result (string_bytes text.new ≡ string_bytes text.old ++
        cycle_outcome_text size.columns winner captures chosen) }
{
    write_winner(text, winner)?;
    write_captures(text, captures)?;
    write_chosen(text, size, chosen)
}

/// Appends the lines on the winner, the winner's captures and the first winning move of the present state.
fn write_cycle_solution(text: &mut String, game: &mut CycleGame) -> Result<(), AllocError>
    ensures outcome { OnOk result (HasCycleOutcome game.old (string_bytes text.old)
        (string_bytes text.new)) }
    ensures same { game.new ≡ game.old }
{
    let size = game.whole().board().size();
    let winner = game.winner();
    let captures = game.captures();
    let chosen = game.winning_move();
    write_cycle_outcome(text, size, winner, captures, chosen)?;
    Ok(())
}

/// Appends a line for each region of play, and answers how many positions they have together.
fn write_lines(text: &mut String, game: &CycleGame) -> Result<u128, AllocError>
    ensures { IfOk result (λ total. HasLines game.now.state.board.columns game.now.regions
        (string_bytes text.old) (string_bytes text.new) total) }
{
    let size = game.whole().board().size();
    let mut total = 0;
    'writing: for number in 0..game.regions() {
        let report = game.region_report(number);
        write_region(text, size, report.lowest, report.points, report.positions)?;
        total += u128::from(report.positions);
    }
    Ok(total)
}

/// Appends the lines on the regions of play.
fn write_regions(text: &mut String, game: &CycleGame) -> Result<(), AllocError>
    ensures { OnOk result (HasRegions game.now.state.board.columns game.now.regions
        (string_bytes text.old) (string_bytes text.new)) }
{
    write_count(text, "regions", game.regions() as u128)?;
    let total = write_lines(text, game)?;
    write_count(text, "positions", total)?;
    Ok(())
}

/// The text of a game with cycles: its state, its regions of play, its winner with the captures that it needs, and its first
/// winning move.
pub fn cycle_solve_text(alloc: Global, game: &mut CycleGame) -> Result<Text, AllocError>
    ensures text { IfOk result (λ text. IsCycleSolveText game.old text) }
    ensures same { game.new ≡ game.old }
{
    let mut text = String::new(alloc);
    write_state(&mut text, game.whole())?;
    write_regions(&mut text, game)?;
    write_cycle_solution(&mut text, game)?;
    Ok(Text::from(text))
}
