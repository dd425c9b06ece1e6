//! The games of regions, one after the other. Regions of one shape have one in common.

ghost use Rattle.std.specs.Prelude.{◌≡◌, ◌+◌, ◌^◌, ◌<◌, ◌≤◌, ◌++◌, IfErr, IfOk, List, OnOk, length, min};
ghost use Rattle.game_store.specs.Meaning.{Extends};
ghost use Rattle.region_book.specs.Image.{IsShape};
ghost use Rattle.endgame_solver.specs.Faults.{AreSmallRegions, most_steps};
ghost use Rattle.endgame_solver.specs.Regions.{region_at};
ghost use Rattle.cycle_solver.specs.CycleFaults.{AreRefused};
ghost use Rattle.cycle_solver.specs.declared.region_game.RegionGame.{RegionGame};
ghost use Rattle.cycle_solver.specs.declared.shapes.Kind.{Kind};
ghost use Rattle.cycle_solver.specs.Games.{AreSolvedBelow, IsRefusalOf};
ghost use Rattle.cycle_solver.specs.inner.Shared.{AreKinds, HasShapeAt, SharesBelow};

use crate::book::{Book, add_view};
use crate::faults::CycleError;
use crate::region_game::{RegionGame, region_game};
use crate::shapes::{Kind, first_kind, kind_of};
use crate::shared_games::RegionGames;
use endgame_solver::Limits;
use game_store::Store;
use go_grid::Region;
use local_play::Steps;
use std::alloc::Global;
use std::sync::ledger::Ledger;

/// The place of the game of a region's shape, which is added where none is there yet.
fn game_of_shape<L: Ledger>(
    alloc: Global,
    region: &Region,
    kind: Kind,
    limits: &Limits,
    most: u8,
    kinds: &mut Vec<Kind>,
    games: &mut Vec<RegionGame>,
    store: &mut Store,
    steps: &mut Steps<L>,
) -> Result<usize, CycleError>
    requires points { length region.now.points ≤ 32 }
    requires shape { IsShape region.now region.now.cells kind.shape.spots.items kind.turn }
    requires kinds { AreKinds limits.now most games.old.items kinds.old.items store.old }
    ensures kinds { OnOk result
        (AreKinds limits.now most games.new.items kinds.new.items store.new) }
    ensures place { IfOk result (λ j. HasShapeAt kinds.new.items kind.shape.spots.items j) }
    ensures games { OnOk result ((more : List RegionGame)
        × (games.new.items ≡ games.old.items ++ more)) }
    ensures refusal { IfErr result (λ e. IsRefusalOf limits.now most region.now e) }
    ensures kept { Extends store.old store.new }
    ensures steps { steps.new ≤ steps.old + min limits.now.positions
        (3 ^ length region.now.points) }
{
    let _count = store.len();
    if let Some(place) = kind_of(kinds, &kind.shape) {
        return Ok(place);
    }
    let game = region_game(alloc, region, limits, most, store, steps)?;
    let place = games.len();
    games.push(game)?;
    kinds.push(kind)?;
    Ok(place)
}

/// Adds the next region, with the game of its shape.
fn add_game<L: Ledger>(
    alloc: Global,
    regions: &[Region],
    number: usize,
    limits: &Limits,
    most: u8,
    kinds: &mut Vec<Kind>,
    book: &mut Book,
    store: &mut Store,
    steps: &mut Steps<L>,
) -> Result<(), CycleError>
    requires number { number < length regions.now }
    requires points { length (region_at regions.now number).points ≤ 32 }
    requires shares { SharesBelow limits.now most regions.now book.old kinds.old.items store.old
        number }
    ensures shares { OnOk result (SharesBelow limits.now most regions.now book.new kinds.new.items
        store.new (number + 1)) }
    ensures refusal { IfErr result
        (λ e. IsRefusalOf limits.now most (region_at regions.now number) e) }
    ensures kept { Extends store.old store.new }
    ensures steps { steps.new ≤ steps.old + min limits.now.positions
        (3 ^ length (region_at regions.now number).points) }
{
    let region = &regions[number];
    let kind = first_kind(alloc, region)?;
    let turn = kind.turn;
    let place = game_of_shape(
        alloc,
        region,
        kind,
        limits,
        most,
        kinds,
        &mut book.games,
        store,
        steps,
    )?;
    add_view(alloc, region, &turn, place, &kinds[place].turn, book, store)?;
    Ok(())
}

/// The graphs and the values of all regions of at most 32 points, or why the first that has none has none: too many positions,
/// a value without a form, or more captures that return than `most` before it is steady. It takes at most one step for each
/// position of each region. The values that it makes are of the store.
pub fn region_games<L: Ledger>(
    alloc: Global,
    regions: &[Region],
    limits: &Limits,
    most: u8,
    store: &mut Store,
    steps: &mut Steps<L>,
) -> Result<RegionGames, CycleError>
    requires small { AreSmallRegions regions.now }
    ensures solved { IfOk result (λ games. AreSolvedBelow limits.now most regions.now games
        store.new (length regions.now)) }
    ensures refusal { IfErr result (λ e. AreRefused limits.now most regions.now e) }
    ensures kept { IfOk result (λ games. Extends store.old store.new) }
    ensures steps { steps.new ≤ steps.old + most_steps limits.now regions.now }
{
    let mut book = Book {
        games: Vec::new(alloc),
        views: Vec::new(alloc),
        negatives: Vec::new(alloc),
    };
    let mut kinds = Vec::new(alloc);
    'regions: for number in 0..regions.len() {
        add_game(
            alloc, regions, number, limits, most, &mut kinds, &mut book, store, steps,
        )?;
    }
    Ok(RegionGames { book })
}
