//! The text of `safe`.

ghost use Rattle.std.specs.Prelude.{◌≡◌, ◌↔◌, ◌++◌, ◌+◌, ◌*◌, ◌<◌, ℕ, false, true, All, OnOk, IfOk, flat_map, length, slice_index, string_bytes};
ghost use Rattle.go_grid.specs.Chain.{IsSettled};
ghost use Rattle.go_grid.specs.Marks.{Lists, Marks};
ghost use Rattle.benson_life.specs.Groups.{IsNumberOfGroups};
ghost use Rattle.benson_life.specs.Life.{InRegion, IsCounted};
ghost use Rattle.benson_life.specs.Territory.{IsTerritory};
ghost use Rattle.go_grid.specs.declared.grid.Colour.{Colour};
ghost use Rattle.go_grid.specs.declared.grid.Colour.TheVariants.{Black, White};
ghost use Rattle.region_cut.specs.Cut.{AreRegionsOfPlay, lowest};
ghost use Rattle.report.specs.Chains.{AreChainLines};
ghost use Rattle.report.specs.Safety.{AreCountedBelow, AreCountedLines, IsSafeText, counted_line, groups_line, sized_line, region_line, turn};

use crate::chains::{ChainLine, chain_lines, write_chains};
use benson_attack::Attacks;
use benson_life::{Territory, held};
use board_words::{colour_word, write_name};
use game_text::Text;
use go_grid::{Board, Colour, Point, Points, Region, Size, fill};
use region_cut::cut_territory;
use std::alloc::{AllocError, Global};

/// A counted region by its lowest point.
#[derive(Clone, Copy)]
pub(crate) struct CountedLine {
    pub lowest: Point,
    pub colour: Colour,
    pub points: usize,
    /// What its points are worth to the colour.
    pub held: u32,
}

/// Whether a point stands first in a list.
pub(crate) fn stands_first(points: &[Point], point: Point) -> bool
    requires { 0 < length points.now }
    ensures { (result ≡ true) ↔ (slice_index points.now 0 ≡ point) }
{
    points[0] == point
}

/// The region of a counted point.
fn region_of(
    alloc: Global,
    board: &Board,
    colour: Colour,
    point: Point,
) -> Result<Vec<Point>, AllocError>
    requires settled { IsSettled board.now }
    requires counted { IsCounted board.now colour point }
    ensures { IfOk result (λ points. Lists points.items (InRegion board.now colour point)) }
{
    let size = board.size();
    let region = fill(size, &board.lacking(colour), point).to_list(alloc)?;
    Ok(region)
}

/// Adds the line of the counted region of the colour whose lowest point this is, if it is one. The marks are
/// the counted points of the colour.
fn add_counted(
    alloc: Global,
    lines: &mut Vec<CountedLine>,
    board: &Board,
    colour: Colour,
    counted: &Points,
    point: Point,
) -> Result<(), AllocError>
    requires settled { IsSettled board.now }
    requires on_board { point < length board.now.cells }
    requires counted { Marks counted.now (IsCounted board.now colour) }
    requires below { AreCountedBelow board.now (2 * point + turn colour) lines.old.items }
    ensures { OnOk result (AreCountedBelow board.now
        (2 * point + turn colour + 1) lines.new.items) }
{
    let _size = board.size();
    if !counted.contains(point) {
        return Ok(());
    }
    let region = region_of(alloc, board, colour, point)?;
    if !stands_first(&region, point) {
        return Ok(());
    }
    lines.push(CountedLine {
        lowest: point,
        colour,
        points: region.len(),
        held: held(board, colour, &region),
    })?;
    Ok(())
}

/// A line for each counted region, by its lowest point. The marks are the counted points of the two colours.
fn counted_lines(
    alloc: Global,
    board: &Board,
    black: &Points,
    white: &Points,
) -> Result<Vec<CountedLine>, AllocError>
    requires settled { IsSettled board.now }
    requires black { Marks black.now (IsCounted board.now Black) }
    requires white { Marks white.now (IsCounted board.now White) }
    ensures { IfOk result (λ lines. AreCountedLines board.now lines.items) }
{
    let mut lines = Vec::new(alloc);
    'counting: for number in 0..board.size().area() {
        add_counted(
            alloc,
            &mut lines,
            board,
            Colour::Black,
            black,
            Point(number),
        )?;
        add_counted(
            alloc,
            &mut lines,
            board,
            Colour::White,
            white,
            Point(number),
        )?;
    }
    Ok(lines)
}

/// Appends the line of a counted region.
#[tactic(auto, using(std::proofs::Common::append_assoc), unfolding(crate::specs::Safety::counted_line))]
fn write_counted(text: &mut String, size: Size, line: &CountedLine) -> Result<(), AllocError>
    requires { line.now.lowest < size.columns * size.rows }
    ensures { OnOk result
        (string_bytes text.new ≡ string_bytes text.old ++ counted_line size.columns line.now) }
{
    text.push_str("counted ")?;
    write_name(text, size, line.lowest)?;
    let colour = colour_word(line.colour);
    let points = line.points;
    let held = line.held;
    writeln!(text, " {colour} points {points} held {held}")
}

/// Appends the lines of counted regions.
#[tactic(auto, using(std::proofs::Common::append_assoc))]
fn write_all_counted(text: &mut String, size: Size, lines: &[CountedLine]) -> Result<(), AllocError>
    requires { All (λ l. l.lowest < size.columns * size.rows) lines.now }
    ensures { OnOk result (string_bytes text.new ≡ string_bytes text.old ++ flat_map
        (counted_line size.columns) lines.now) }
{
    'writing: for line in lines {
        write_counted(text, size, line)?;
    }
    Ok(())
}

/// Appends the line of the number of groups of a colour.
#[tactic(auto, using(std::proofs::Common::append_assoc), unfolding(crate::specs::Safety::groups_line))]
fn write_groups(text: &mut String, colour: Colour, groups: u32) -> Result<(), AllocError>
    ensures { OnOk result
        (string_bytes text.new ≡ string_bytes text.old ++ groups_line colour groups) }
{
    let colour = colour_word(colour);
    writeln!(text, "groups {colour} {groups}")
}

/// The lowest point of a region.
fn lowest_of(region: &Region) -> Point
    ensures lowest { result ≡ lowest region.now }
    ensures on_board { result < region.now.columns * region.now.rows }
{
    region.points[0]
}

/// How many points a region has.
fn count_of(region: &Region) -> usize
    ensures { result ≡ length region.now.points }
{
    region.points.len()
}

/// Appends the line of a region of play by its lowest point and the number of its points.
fn write_region(
    text: &mut String,
    size: Size,
    lowest: Point,
    points: usize,
) -> Result<(), AllocError>
    requires { lowest < size.columns * size.rows }
    ensures { OnOk result
        (string_bytes text.new ≡ string_bytes text.old ++ sized_line size.columns lowest points) }
{
    text.push_str("region ")?;
    write_name(text, size, lowest)?;
    writeln!(text, " points {points}")?;
    Ok(())
}

/// Appends the lines of regions of play.
#[tactic(auto, using(std::proofs::Common::append_assoc))]
fn write_regions(text: &mut String, size: Size, regions: &[Region]) -> Result<(), AllocError>
    requires { All (λ r. (r.columns ≡ size.columns) × (r.rows ≡ size.rows)) regions.now }
    ensures { OnOk result (string_bytes text.new ≡ string_bytes text.old ++ flat_map
        (region_line size.columns) regions.now) }
{
    'writing: for region in regions {
        write_region(text, size, lowest_of(region), count_of(region))?;
    }
    Ok(())
}

/// The text of the lines of a board.
fn lines_text(
    alloc: Global,
    board: &Board,
    chains: &[ChainLine],
    counted: &[CountedLine],
    black_groups: u32,
    white_groups: u32,
    regions: &[Region],
) -> Result<Text, AllocError>
    requires chains { AreChainLines board.now chains.now }
    requires counted { AreCountedLines board.now counted.now }
    requires black_groups { IsNumberOfGroups board.now Black black_groups }
    requires white_groups { IsNumberOfGroups board.now White white_groups }
    requires regions { AreRegionsOfPlay board.now regions.now }
    ensures { IfOk result (λ text. IsSafeText board.now text) }
{
    let size = board.size();
    let mut text = String::new(alloc);
    write_chains(&mut text, size, chains)?;
    write_all_counted(&mut text, size, counted)?;
    write_groups(&mut text, Colour::Black, black_groups)?;
    write_groups(&mut text, Colour::White, white_groups)?;
    write_regions(&mut text, size, regions)?;
    Ok(Text::from(text))
}

/// The lines of the chains of a settled board with this territory.
fn chains_beside(
    alloc: Global,
    board: &Board,
    territory: &Territory,
) -> Result<Vec<ChainLine>, AllocError>
    requires settled { IsSettled board.now }
    requires territory { IsTerritory board.now territory.now }
    ensures { IfOk result (λ chains. AreChainLines board.now chains.items) }
{
    let attacks = Attacks::of(alloc, board, territory)?;
    chain_lines(alloc, board, &attacks)
}

/// The text of `safe` for a settled board with this territory. What is large is made late, so that few calls can fail
/// beside it.
fn territory_text(alloc: Global, board: &Board, territory: &Territory) -> Result<Text, AllocError>
    requires settled { IsSettled board.now }
    requires territory { IsTerritory board.now territory.now }
    ensures { IfOk result (λ text. IsSafeText board.now text) }
{
    let (black, white) = (&territory.black, &territory.white);
    let black_groups = black.groups(alloc, board, Colour::Black)?;
    let white_groups = white.groups(alloc, board, Colour::White)?;
    let counted = counted_lines(alloc, board, &black.counted, &white.counted)?;
    let chains = chains_beside(alloc, board, territory)?;
    let regions = cut_territory(alloc, board, territory)?;
    lines_text(
        alloc,
        board,
        &chains,
        &counted,
        black_groups,
        white_groups,
        &regions,
    )
}

/// The text of `safe` for a settled board: a line for each chain, alive or open (Benson 1976), behind each open one
/// a line with placings that take it, one for each counted region, one for the number of groups of each colour, and
/// one for each region of play.
pub fn safe_text(alloc: Global, board: &Board) -> Result<Text, AllocError>
    requires { IsSettled board.now }
    ensures { IfOk result (λ text. IsSafeText board.now text) }
{
    let territory = Territory::of(alloc, board)?;
    territory_text(alloc, board, &territory)
}
