//! The text of `values` where kos can arise.

ghost use Rattle.std.specs.Prelude.{◌≡◌, ◌↔◌, ◌<◌, ◌*◌, length, IfOk, IfErr, OnOk, IsTrue};
ghost use Rattle.short_games.specs.Tree.{tree_at};
ghost use Rattle.game_lines.specs.Showings.{IsUnshown};
ghost use Rattle.cycle_report.specs.CycleValues.{IsCycleValuesText, IsFirstCycleUnshown};
ghost use Rattle.report.specs.Values.{IsRefusal};
ghost use Rattle.cycle_report.specs.inner.CycleValues.{AreUnshown, HasLinesOf, HasLinesOfBoth, HasLinesOfEach, HasReport};

use cycle_solver::{CycleGame, CycleReport};
use game_lines::write_labelled;
use game_store::{GameId, Store};
use game_text::Text;
use go_grid::{Point, Size};
use report::{ValuesError, add_region, show_value, write_count};
use std::alloc::Global;

/// Whether two games of a store are one: then they have one id.
fn is_same(store: &Store, first: GameId, second: GameId) -> bool
    requires first { first < length store.now }
    requires second { second < length store.now }
    ensures { IsTrue result ↔ (tree_at store.now first ≡ tree_at store.now second) }
{
    let _count = store.len();
    first == second
}

/// Appends the lines on a value behind a label, or refuses it with the point.
fn write_value(
    alloc: Global,
    text: &mut Text,
    label: &str,
    store: &Store,
    value: GameId,
    point: Point,
) -> Result<(), ValuesError>
    requires { value < length store.now }
    ensures lines { OnOk result (HasLinesOf label.now (tree_at store.now value) text.old text.new) }
    ensures refusal { IfErr result (IsRefusal (λ p. (p ≡ point)
        × IsUnshown (tree_at store.now value))) }
{
    let showing = show_value(alloc, store, value, point)?;
    write_labelled(alloc, text, label, &showing)?;
    Ok(())
}

/// Appends the lines on the values of a region's opening: one `value`, or `low` and then `high` where they differ.
fn write_values(
    alloc: Global,
    text: &mut Text,
    store: &Store,
    report: CycleReport,
) -> Result<(), ValuesError>
    requires low { report.low < length store.now }
    requires high { report.high < length store.now }
    ensures lines { OnOk result (HasLinesOfBoth (tree_at store.now report.low)
        (tree_at store.now report.high) text.old text.new) }
    ensures refusal { IfErr result (IsRefusal (λ p. (p ≡ report.lowest)
        × AreUnshown store.now report)) }
{
    let point = report.lowest;
    if is_same(store, report.low, report.high) {
        write_value(alloc, text, "value", store, report.low, point)?;
        return Ok(());
    }
    write_value(alloc, text, "low", store, report.low, point)?;
    write_value(alloc, text, "high", store, report.high, point)?;
    Ok(())
}

/// Appends the lines of a region and of the values of its opening.
fn write_entry(
    alloc: Global,
    text: &mut Text,
    size: Size,
    store: &Store,
    report: CycleReport,
) -> Result<(), ValuesError>
    requires low { report.low < length store.now }
    requires high { report.high < length store.now }
    requires point { report.lowest < size.columns * size.rows }
    ensures entry { OnOk result (HasReport size.columns store.now report text.old text.new) }
    ensures refusal { IfErr result (IsRefusal (λ p. (p ≡ report.lowest)
        × AreUnshown store.now report)) }
{
    add_region(
        alloc,
        text,
        size,
        report.lowest,
        report.points,
        report.positions,
    )?;
    write_values(alloc, text, store, report)?;
    Ok(())
}

/// Appends the lines of each region of play and of the values of its opening.
fn write_entries(alloc: Global, text: &mut Text, game: &CycleGame) -> Result<(), ValuesError>
    ensures entries { OnOk result
        (HasLinesOfEach game.now.state.board.columns game.now.regions text.old text.new) }
    ensures refusal { IfErr result (IsRefusal (IsFirstCycleUnshown game.now.regions)) }
    ensures on_board { IfErr result (IsRefusal (λ p. p < length game.now.state.board.cells)) }
{
    let size = game.whole().board().size();
    'writing: for number in 0..game.regions() {
        write_entry(alloc, text, size, game.store(), game.region_report(number))?;
    }
    Ok(())
}

/// The text of `values` for a game with cycles: for each region of play its points and positions, the value of its opening,
/// or the lower and the upper one where they differ, and the stops and the thermograph of each. `Form` with the first region
/// one of whose values isn't shown.
pub fn cycle_values_text(alloc: Global, game: &CycleGame) -> Result<Text, ValuesError>
    ensures text { IfOk result (IsCycleValuesText game.now.state.board.columns game.now.regions) }
    ensures refusal { IfErr result (IsRefusal (IsFirstCycleUnshown game.now.regions)) }
    ensures on_board { IfErr result (IsRefusal (λ p. p < length game.now.state.board.cells)) }
{
    let mut front = String::new(alloc);
    write_count(&mut front, "regions", game.regions() as u128)?;
    let mut text = Text::from(front);
    write_entries(alloc, &mut text, game)?;
    Ok(text)
}
