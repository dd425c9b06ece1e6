//! The text of `trial`.

ghost use Rattle.std.specs.Prelude.{◌≡◌, ◌++◌, IfOk, OnOk, string_bytes};
ghost use Rattle.report.specs.Trial.{IsTrialText};
ghost use Rattle.report.specs.inner.Trial.{AreTogether, HasCounts};

use crate::solution::{write_count, write_solution};
use endgame_solver::Solved;
use game_text::Text;
use std::alloc::{AllocError, Global};

/// How many positions the regions of play have together.
fn positions(solved: &Solved) -> u128
    ensures { AreTogether solved.now.regions result }
{
    let mut total = 0;
    'adding: for number in 0..solved.regions() {
        total += u128::from(solved.region_report(number).positions);
    }
    total
}

/// Appends the lines on the number, the regions, their positions and their shapes.
fn write_counts(text: &mut String, number: u32, solved: &Solved) -> Result<(), AllocError>
    ensures { OnOk result (HasCounts number solved.now.regions (string_bytes text.old)
        (string_bytes text.new)) }
{
    write_count(text, "trial", u128::from(number))?;
    write_count(text, "regions", solved.regions() as u128)?;
    write_count(text, "positions", positions(solved))?;
    write_count(text, "shapes", solved.shapes() as u128)?;
    Ok(())
}

/// The text of the solved game of a number's board: its regions of play, their positions and shapes, its winner and its first
/// winning move.
pub fn trial_text(alloc: Global, number: u32, solved: &mut Solved) -> Result<Text, AllocError>
    ensures text { IfOk result (λ text. IsTrialText number solved.old text) }
    ensures same { solved.new ≡ solved.old }
{
    let mut text = String::new(alloc);
    write_counts(&mut text, number, solved)?;
    write_solution(&mut text, solved)?;
    Ok(Text::from(text))
}
