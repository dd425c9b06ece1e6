//! The regions of play of a board, and where they stand at the opening.

ghost use Rattle.std.specs.Prelude.{◌≡◌, ℕ, ◌<◌, ◌≤◌, Contains, IfOk, length, replicate, slice_index};
ghost use Rattle.go_grid.specs.Region.{Region};
ghost use Rattle.region_cut.specs.LocalBoard.{PlaysLocally};
ghost use Rattle.region_cut.specs.Cut.{AreRegionsOfPlay};
ghost use Rattle.go_play.specs.Setup.{IsFit};
ghost use Rattle.whole_rules.specs.Opening.{MayTax};
ghost use Rattle.endgame_solver.specs.Solved.{OpensAs};
ghost use Rattle.endgame_solver.specs.Faults.{FindsLarge};
ghost use Rattle.endgame_solver.specs.inner.Views.{HasValue, seen_ids};

use crate::view_book::Book;
use crate::winning_moves::value_seen;
use benson_life::Territory;
use game_store::GameId;
use go_grid::{MOST_POINTS, Point, Region};
use go_play::Setup;
use local_play::MOST_PLACES;
use region_cut::cut_territory;
use std::alloc::{AllocError, Global};
use whole_rules::Whole;

/// The state in which a position opens, and its regions of play, by lowest point.
#[derive(Drop)]
pub struct Opening {
    pub whole: Whole,
    pub regions: Vec<Region>,
}

/// The opening of a position, with or without a tax, which there is only where nothing is declared.
pub fn opening_of(alloc: Global, setup: &Setup, tax: bool) -> Result<Opening, AllocError>
    requires taxed { MayTax tax setup.now.board }
    ensures opens { IfOk result (λ opening. OpensAs setup.now tax opening.whole) }
    ensures regions { IfOk result
        (λ opening. AreRegionsOfPlay setup.now.board opening.regions.items) }
    ensures local { IfOk result (λ opening. (r : Region) → Contains opening.regions.items r
        → PlaysLocally setup.now.board r) }
    ensures fit { IsFit setup.now }
    ensures few { length setup.now.board.cells ≤ MOST_POINTS }
{
    let board = setup.board();
    let _size = board.size();
    let territory = Territory::of(alloc, board)?;
    let whole = Whole::opening_with(alloc, setup, &territory, tax)?;
    let regions = cut_territory(alloc, board, &territory)?;
    Ok(Opening { whole, regions })
}

/// The lowest point of the first region with more than 32 points, and the number of its points.
pub fn first_large(regions: &[Region]) -> Option<(Point, u16)>
    ensures { FindsLarge regions.now result }
{
    'regions: for region in regions {
        let points = &region.points;
        if points.len() > MOST_PLACES {
            return Some((points[0], points.len() as u16));
        }
    }
    None
}

/// The values of the openings.
fn opening_values(alloc: Global, book: &Book) -> Result<Vec<GameId>, AllocError>
    requires { (k : ℕ) → k < length book.now.views.items → HasValue book.now k 0 }
    ensures long { IfOk result (λ sum. length sum.items ≡ length book.now.views.items) }
    ensures each { IfOk result (λ sum. (k : ℕ) → k < length book.now.views.items
        → slice_index sum.items k ≡ slice_index (seen_ids book.now k) 0) }
{
    let mut sum = Vec::new(alloc);
    'regions: for region in 0..book.views.len() {
        sum.push(value_seen(book, region, 0))?;
    }
    Ok(sum)
}

/// Where the regions stand in their graphs at the opening, and their values there.
#[derive(Drop)]
pub(crate) struct Start {
    pub(crate) places: Vec<usize>,
    pub(crate) sum: Vec<GameId>,
}

/// The openings of the regions, each of which stands first in its graph.
pub(crate) fn start_of(alloc: Global, book: &Book) -> Result<Start, AllocError>
    requires { (k : ℕ) → k < length book.now.views.items → HasValue book.now k 0 }
    ensures places { IfOk result
        (λ start. start.places.items ≡ replicate (length book.now.views.items) 0) }
    ensures long { IfOk result (λ start. length start.sum.items ≡ length book.now.views.items) }
    ensures each { IfOk result (λ start. (k : ℕ) → k < length book.now.views.items
        → slice_index start.sum.items k ≡ slice_index (seen_ids book.now k) 0) }
{
    let places = vec![in alloc; 0; book.views.len()]?;
    let sum = opening_values(alloc, book)?;
    Ok(Start { places, sum })
}
