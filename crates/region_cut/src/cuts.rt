//! The regions of play.

ghost use Rattle.std.specs.Prelude.{◌≡◌, ℕ, ◌*◌, ◌<◌, ◌≤◌, All, Contains, IfOk, length, slice_index, slice_index_or};
ghost use Rattle.go_grid.specs.declared.grid.Cell.TheVariants.{Empty};
ghost use Rattle.go_grid.specs.declared.grid.Colour.TheVariants.{Black, White};
ghost use Rattle.go_grid.specs.Chain.{IsSettled};
ghost use Rattle.go_grid.specs.Board.{cell_at};
ghost use Rattle.go_grid.specs.Marks.{Lists, Marks};
ghost use Rattle.go_grid.specs.Region.{Region};
ghost use Rattle.benson_life.specs.Life.{IsAlive, IsCounted, IsLargestHealthy};
ghost use Rattle.benson_life.specs.Territory.{IsTerritory};
ghost use Rattle.benson_life.specs.Region.{IsContested, InRegionOfPlay};
ghost use Rattle.region_cut.specs.Cut.{AreRegionsOfPlay, IsRegionOfPlay, IsWalledIn, lowest};
ghost use Rattle.region_cut.specs.LocalBoard.{PlaysLocally};

use crate::region_touches::touches_of;
use benson_life::{Territory, alive_set, contested};
use go_grid::{Board, Cell, Colour, Point, Points, Region, components, fill, label_of};
use std::alloc::{AllocError, Global};

/// What the points of a list hold.
fn cells_of(alloc: Global, board: &Board, points: &[Point]) -> Result<Vec<Cell>, AllocError>
    requires { All (λ p. p < length board.now.cells) points.now }
    ensures long { IfOk result (λ cells. length cells.items ≡ length points.now) }
    ensures each { IfOk result (λ cells. (i : ℕ) → i < length points.now
        → slice_index_or cells.items i Empty ≡ cell_at board.now (slice_index points.now i)) }
{
    let mut cells = Vec::new(alloc);
    'reading: for point in points {
        cells.push(board.get(*point))?;
    }
    Ok(cells)
}

/// The region of play of a contested point, which is its lowest. The marks are the contested points and
/// the alive stones of each colour.
fn region_of(
    alloc: Global,
    board: &Board,
    within: &Points,
    black: &Points,
    white: &Points,
    start: Point,
) -> Result<Region, AllocError>
    requires settled { IsSettled board.now }
    requires within { Marks within.now (IsContested board.now) }
    requires black { Marks black.now (IsAlive board.now Black) }
    requires white { Marks white.now (IsAlive board.now White) }
    requires contested { IsContested board.now start }
    requires lowest { (p : ℕ) → InRegionOfPlay board.now start p → start ≤ p }
    ensures region { IfOk result (λ r. IsRegionOfPlay board.now r) }
    ensures walled { IfOk result (λ r. IsWalledIn board.now r) }
    ensures named { IfOk result (λ r. lowest r ≡ start) }
{
    let size = board.size();
    let points = fill(size, within, start).to_list(alloc)?;
    let cells = cells_of(alloc, board, &points)?;
    let touch = touches_of(alloc, size, &points, black, white)?;
    Ok(Region {
        size,
        points,
        cells,
        touch,
    })
}

/// The regions of play, by lowest point. The sets are the contested points and the alive stones of each colour.
fn cut_sets(
    alloc: Global,
    board: &Board,
    within: &Points,
    black: &Points,
    white: &Points,
) -> Result<Vec<Region>, AllocError>
    requires settled { IsSettled board.now }
    requires within { Marks within.now (IsContested board.now) }
    requires black { Marks black.now (IsAlive board.now Black) }
    requires white { Marks white.now (IsAlive board.now White) }
    ensures regions { IfOk result (λ regions. AreRegionsOfPlay board.now regions.items) }
    ensures walled { IfOk result (λ regions. (r : Region) → Contains regions.items r
        → IsWalledIn board.now r) }
    ensures local { IfOk result (λ regions. (r : Region) → Contains regions.items r
        → PlaysLocally board.now r) }
{
    let size = board.size();
    let parts = components(size, within);
    let mut regions = Vec::new(alloc);
    'cutting: for number in 0..size.area() {
        let point = Point(number);
        if within.contains(point) && label_of(&parts, point).is(point) {
            regions.push(region_of(alloc, board, within, black, white, point)?)?;
        }
    }
    Ok(regions)
}

/// The regions of play, by lowest point. The board is settled, and the lists are those that `alive` and
/// `counted` give for the two colours. In each region local play is play on every board that keeps the
/// alive stones and the counted points.
pub fn cut(
    alloc: Global,
    board: &Board,
    black_alive: &[Point],
    white_alive: &[Point],
    black_counted: &[Point],
    white_counted: &[Point],
) -> Result<Vec<Region>, AllocError>
    requires settled { IsSettled board.now }
    requires black_alive { IsLargestHealthy board.now Black black_alive.now }
    requires white_alive { IsLargestHealthy board.now White white_alive.now }
    requires black_counted { Lists black_counted.now (IsCounted board.now Black) }
    requires white_counted { Lists white_counted.now (IsCounted board.now White) }
    ensures regions { IfOk result (λ regions. AreRegionsOfPlay board.now regions.items) }
    ensures walled { IfOk result (λ regions. (r : Region) → Contains regions.items r
        → IsWalledIn board.now r) }
    ensures local { IfOk result (λ regions. (r : Region) → Contains regions.items r
        → PlaysLocally board.now r) }
{
    let within = contested(
        board,
        black_alive,
        white_alive,
        black_counted,
        white_counted,
    );
    let black = alive_set(board, Colour::Black, black_alive);
    let white = alive_set(board, Colour::White, white_alive);
    cut_sets(alloc, board, &within, &black, &white)
}

/// What `cut` gives, from the territory of the board.
pub fn cut_territory(
    alloc: Global,
    board: &Board,
    territory: &Territory,
) -> Result<Vec<Region>, AllocError>
    requires settled { IsSettled board.now }
    requires territory { IsTerritory board.now territory.now }
    ensures regions { IfOk result (λ regions. AreRegionsOfPlay board.now regions.items) }
    ensures walled { IfOk result (λ regions. (r : Region) → Contains regions.items r
        → IsWalledIn board.now r) }
    ensures local { IfOk result (λ regions. (r : Region) → Contains regions.items r
        → PlaysLocally board.now r) }
{
    let within = territory.contested(board);
    cut_sets(
        alloc,
        board,
        &within,
        &territory.black.alive,
        &territory.white.alive,
    )
}
