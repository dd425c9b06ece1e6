//! The text of `values`.

ghost use Rattle.std.specs.Prelude.{◌≡◌, ◌<◌, ◌*◌, ◌++◌, length, IfOk, IfErr, OnOk};
ghost use Rattle.short_games.specs.Tree.{tree_at};
ghost use Rattle.game_lines.specs.Showings.{IsShowing, IsUnshown};
ghost use Rattle.report.specs.Solution.{solved_line};
ghost use Rattle.report.specs.Values.{IsFirstUnshown, IsRefusal, IsValuesText};
ghost use Rattle.report.specs.inner.Values.{HasEntries, HasEntry};
ghost use Rattle.report.specs.declared.values.ValuesError.TheVariants as the_error;

use crate::solution::{write_count, write_region};
use endgame_solver::{RegionReport, Solved};
use game_lines::{ShowError, Showing, show, write_showing};
use game_store::{GameId, Store};
use game_text::Text;
use go_grid::{Point, Size};
use std::alloc::{AllocError, Global};
use std::fmt;
use thiserror::Error;

/// Why values aren't shown: the value of the region with this lowest point has a named text of more than 65,536 bytes,
/// braces in it that nest more than 1,000 deep, or a break point past the bounds of a `Dyadic`; or memory is wanting.
#[derive(Clone, Copy, Error)]
pub enum ValuesError {
    #[error("a value that isn't shown")]
    Form(Point),
    #[error("out of memory")]
    Memory(AllocError),
}

// As the message: what a derive writes is dearer to prove.
impl fmt::Debug for ValuesError {
    fn fmt<W: fmt::Write>(&self, f: &mut fmt::Formatter<W>) -> fmt::Result {
        fmt::Display::fmt(self, f)
    }
}

impl From<AllocError> for ValuesError {
    ghost from_gives = { λ cause e. e ≡ the_error.Memory cause };

    fn from(cause: AllocError) -> Self {
        ValuesError::Memory(cause)
    }
}

/// What is shown of a value, or a refusal with the point.
pub fn show_value(
    alloc: Global,
    store: &Store,
    value: GameId,
    point: Point,
) -> Result<Showing, ValuesError>
    requires { value < length store.now }
    ensures shown { IfOk result (IsShowing (tree_at store.now value)) }
    ensures refusal { IfErr result (IsRefusal (λ p. (p ≡ point)
        × IsUnshown (tree_at store.now value))) }
{
    match show(alloc, store, value) {
        Ok(showing) => Ok(showing),
        Err(ShowError::Form) => Err(ValuesError::Form(point)),
        Err(ShowError::Memory(cause)) => Err(ValuesError::Memory(cause)),
    }
}

/// Appends the line of a region by its lowest point, the number of its points and that of its positions.
pub fn add_region(
    alloc: Global,
    text: &mut Text,
    size: Size,
    lowest: Point,
    points: u16,
    positions: u64,
) -> Result<(), AllocError>
    requires { lowest < size.columns * size.rows }
    ensures { OnOk result
        (text.new ≡ text.old ++ solved_line size.columns lowest points positions) }
{
    let mut line = String::new(alloc);
    write_region(&mut line, size, lowest, points, positions)?;
    text.extend_from_slice(line.as_bytes())
}

/// Appends the lines of a region and of its value.
fn write_entry(
    alloc: Global,
    text: &mut Text,
    size: Size,
    store: &Store,
    report: RegionReport,
) -> Result<(), ValuesError>
    requires value { report.value < length store.now }
    requires point { report.lowest < size.columns * size.rows }
    ensures entry { OnOk result (HasEntry size.columns store.now report text.old text.new) }
    ensures refusal { IfErr result (IsRefusal (λ p. (p ≡ report.lowest)
        × IsUnshown (tree_at store.now report.value))) }
{
    let showing = show_value(alloc, store, report.value, report.lowest)?;
    add_region(
        alloc,
        text,
        size,
        report.lowest,
        report.points,
        report.positions,
    )?;
    write_showing(alloc, text, &showing)?;
    Ok(())
}

/// Appends the lines of each region of play and of its value.
fn write_entries(alloc: Global, text: &mut Text, solved: &Solved) -> Result<(), ValuesError>
    ensures entries { OnOk result
        (HasEntries solved.now.state.board.columns solved.now.regions text.old text.new) }
    ensures refusal { IfErr result (IsRefusal (IsFirstUnshown solved.now.regions)) }
    ensures on_board { IfErr result (IsRefusal (λ p. p < length solved.now.state.board.cells)) }
{
    let size = solved.whole().board().size();
    'writing: for number in 0..solved.regions() {
        write_entry(
            alloc,
            text,
            size,
            solved.store(),
            solved.region_report(number),
        )?;
    }
    Ok(())
}

/// The text of `values`: for each region of play its points and positions, the value of its opening, and the stops and
/// the thermograph of the value. `Form` with the first region whose value isn't shown.
pub fn values_text(alloc: Global, solved: &Solved) -> Result<Text, ValuesError>
    ensures text { IfOk result (IsValuesText solved.now.state.board.columns solved.now.regions) }
    ensures refusal { IfErr result (IsRefusal (IsFirstUnshown solved.now.regions)) }
    ensures on_board { IfErr result (IsRefusal (λ p. p < length solved.now.state.board.cells)) }
{
    let mut front = String::new(alloc);
    write_count(&mut front, "regions", solved.regions() as u128)?;
    let mut text = Text::from(front);
    write_entries(alloc, &mut text, solved)?;
    Ok(text)
}
