//! The regions of play of an opening, solved.

ghost use Rattle.std.specs.Prelude.{◌≡◌, ◌+◌, ◌≤◌, IfErr, IfOk, length, replicate};
ghost use Rattle.go_grid.specs.declared.grid.Colour.TheVariants.{Black, White};
ghost use Rattle.game_store.specs.Meaning.{Extends};
ghost use Rattle.sum_outcome.specs.Memo.{Fits};
ghost use Rattle.endgame_solver.specs.Faults.{AreSmallRegions, most_steps};
ghost use Rattle.cycle_solver.specs.CycleFaults.{AreRefused};
ghost use Rattle.cycle_solver.specs.Games.{AreSolvedBelow};
ghost use Rattle.cycle_solver.specs.Held.{AreSummed, enough};

use crate::asking::{Start, start_of};
use crate::faults::CycleError;
use crate::shape_games::region_games;
use crate::shared_games::RegionGames;
use endgame_solver::{Known, Limits, first_known, first_large};
use game_store::Store;
use go_grid::Region;
use local_play::Steps;
use std::alloc::Global;
use std::sync::ledger::Ledger;

/// The games of the regions, and where these stand at the opening.
#[derive(Drop)]
struct Held {
    games: RegionGames,
    start: Start,
}

/// The same, with the store of the values and a search that fits it.
#[derive(Drop)]
pub(crate) struct SolvedRegions {
    pub(crate) known: Known,
    pub(crate) games: RegionGames,
    pub(crate) start: Start,
}

/// The games of regions of at most 32 points, or why the first that has none has none.
fn hold_regions<L: Ledger>(
    alloc: Global,
    regions: &[Region],
    limits: &Limits,
    most: u8,
    store: &mut Store,
    steps: &mut Steps<L>,
) -> Result<Held, CycleError>
    requires small { AreSmallRegions regions.now }
    ensures solved { IfOk result (λ x. AreSolvedBelow limits.now most regions.now x.games
        store.new (length regions.now)) }
    ensures places { IfOk result (λ x. x.start.places.items ≡ replicate (length x.games) 0) }
    ensures low { IfOk result
        (λ x. AreSummed x.games x.start.places.items Black enough x.start.low.items) }
    ensures high { IfOk result
        (λ x. AreSummed x.games x.start.places.items White enough x.start.high.items) }
    ensures refusal { IfErr result (λ e. AreRefused limits.now most regions.now e) }
    ensures kept { IfOk result (λ x. Extends store.old store.new) }
    ensures steps { steps.new ≤ steps.old + most_steps limits.now regions.now }
{
    let games = region_games(alloc, regions, limits, most, store, steps)?;
    let start = start_of(alloc, &games)?;
    Ok(Held { games, start })
}

/// The games of all regions, or the first region of more than 32 points, or else why the first that has none has none.
pub(crate) fn solve_openings<L: Ledger>(
    alloc: Global,
    regions: &[Region],
    limits: &Limits,
    most: u8,
    steps: &mut Steps<L>,
) -> Result<SolvedRegions, CycleError>
    ensures solved { IfOk result (λ x. AreSolvedBelow limits.now most regions.now x.games
        x.known.store (length regions.now)) }
    ensures fits { IfOk result (λ x. Fits x.known.store x.known.search) }
    ensures places { IfOk result (λ x. x.start.places.items ≡ replicate (length x.games) 0) }
    ensures low { IfOk result
        (λ x. AreSummed x.games x.start.places.items Black enough x.start.low.items) }
    ensures high { IfOk result
        (λ x. AreSummed x.games x.start.places.items White enough x.start.high.items) }
    ensures refusal { IfErr result (λ e. AreRefused limits.now most regions.now e) }
    ensures steps { steps.new ≤ steps.old + most_steps limits.now regions.now }
{
    if let Some((lowest, points)) = first_large(regions) {
        return Err(CycleError::Points(lowest, points));
    }
    let mut known = first_known(alloc)?;
    match hold_regions(alloc, regions, limits, most, &mut known.store, steps) {
        Ok(held) => Ok(SolvedRegions {
            known,
            games: held.games,
            start: held.start,
        }),
        Err(fault) => {
            drop(known);
            Err(fault)
        }
    }
}
