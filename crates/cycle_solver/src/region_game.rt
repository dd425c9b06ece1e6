//! A region's graph, and the values of its positions by budget.

ghost use Rattle.std.specs.Prelude.{◌≡◌, ℕ, ◌+◌, ◌^◌, ◌<◌, ◌≤◌, ◌⊎◌, IfErr, IfOk, OnOk, MatchOption, Ok, Err, Some, None, ◌≢◌, length, min};
ghost use Rattle.cycle_solver.specs.declared.faults.CycleError.TheVariants.{Captures};
ghost use Rattle.game_store.specs.Meaning.{Extends};
ghost use Rattle.local_graph.specs.LocalGraph.{MoreThan};
ghost use Rattle.local_value.specs.BudgetValues.{IsReturnGraphOf};
ghost use Rattle.local_value.specs.Remembered.{IsRememberedRight};
ghost use Rattle.cycle_solver.specs.GameLists.{layers_for};
ghost use Rattle.cycle_solver.specs.Held.{IsGameOf};
ghost use Rattle.cycle_solver.specs.Games.{IsGraphWithin, IsRefusalOf, IsSolvedBy, MayBeSteady};

use crate::faults::CycleError;
use endgame_solver::Limits;
use game_canon::FormError;
use game_store::Store;
use go_grid::{Colour, Point, Region};
use local_graph::{GraphError, ReturnGraph, build_with_returns};
use local_play::Steps;
use local_value::{BudgetError, SteadyValues, ValueMemo, value_steady_with};
use std::alloc::Global;
use std::sync::ledger::Ledger;

/// A region's graph, and the values of its positions for each budget of Black's and of White's.
#[derive(Drop)]
pub struct RegionGame {
    pub graph: ReturnGraph,
    pub black: SteadyValues,
    /// None where the graph has no cycle: Black's serve White too.
    pub white: Option<SteadyValues>,
}

/// The values of a colour.
pub fn values_for(game: &RegionGame, colour: Colour) -> &SteadyValues
    ensures { result.now ≡ layers_for game.now colour }
{
    match (colour, &game.white) {
        (Colour::White, Some(white)) => white,
        _ => &game.black,
    }
}

/// The graph of a region of at most 32 points.
fn graph_of<L: Ledger>(
    alloc: Global,
    region: &Region,
    limits: &Limits,
    steps: &mut Steps<L>,
) -> Result<ReturnGraph, CycleError>
    requires { length region.now.points ≤ 32 }
    ensures graph { IfOk result (λ g. IsGraphWithin limits.now.positions region.now g) }
    ensures refusal { IfErr result
        (λ e. (most : ℕ) → IsRefusalOf limits.now most region.now e) }
    ensures steps { steps.new ≤ steps.old + min limits.now.positions
        (3 ^ length region.now.points) }
{
    let lowest = region.points[0];
    match build_with_returns(alloc, region, limits.positions(), steps) {
        Ok(graph) => Ok(graph),
        Err(GraphError::Points(points)) => Err(CycleError::Points(lowest, points)),
        Err(GraphError::Positions) => Err(CycleError::Positions(lowest)),
        Err(GraphError::Cycle(_moves, _back)) => unreachable!(),
        Err(GraphError::Memory(error)) => Err(CycleError::Memory(error)),
    }
}

/// The values of a colour, if the region is steady for it.
fn values_of(
    alloc: Global,
    region: &Region,
    graph: &ReturnGraph,
    colour: Colour,
    limits: &Limits,
    most: u8,
    store: &mut Store,
    memo: &mut ValueMemo,
) -> Result<Option<SteadyValues>, CycleError>
    requires points { length region.now.points ≤ 32 }
    requires graph { IsGraphWithin limits.now.positions region.now graph.now }
    requires memo { IsRememberedRight store.old limits.now.parts memo.old }
    ensures values { IfOk result
        (λ x. MayBeSteady limits.now most region.now graph.now colour store.new x) }
    ensures refusal { IfErr result (λ e. IsRefusalOf limits.now most region.now e) }
    ensures memo { OnOk result (IsRememberedRight store.new limits.now.parts memo.new) }
    ensures kept { Extends store.old store.new }
{
    let lowest = region.points[0];
    match value_steady_with(alloc, graph, colour, store, memo, most, limits.parts()) {
        Ok(values) => Ok(Some(values)),
        Err(BudgetError::Captures) => Ok(None),
        Err(BudgetError::Form(FormError::Parts)) => Err(CycleError::Form(lowest)),
        Err(BudgetError::Form(FormError::Bounds)) => Err(CycleError::Form(lowest)),
        Err(BudgetError::Form(FormError::Memory(error))) => Err(CycleError::Memory(error)),
    }
}

/// The values of a region's graph for each colour, White's where there is a cycle.
#[derive(Drop)]
pub(crate) struct BothValues {
    black: SteadyValues,
    white: Option<SteadyValues>,
}

/// The values where there is no cycle, or that the region isn't steady.
fn alone(black: Option<SteadyValues>, lowest: Point) -> Result<BothValues, CycleError>
    ensures values { IfOk result (λ both. (black ≡ Some both.black) × (both.white ≡ None)) }
    ensures refusal { IfErr result (λ e. (e ≡ Captures lowest) × (black ≡ None)) }
{
    match black {
        None => Err(CycleError::Captures(lowest)),
        Some(black) => Ok(BothValues { black, white: None }),
    }
}

/// The values where there is a cycle, or that the region isn't steady for one of the colours.
fn together(
    black: Option<SteadyValues>,
    white: Option<SteadyValues>,
    lowest: Point,
) -> Result<BothValues, CycleError>
    ensures values { IfOk result (λ both. (black ≡ Some both.black) × (both.white ≡ white)
        × (white ≢ None)) }
    ensures refusal { IfErr result (λ e. (e ≡ Captures lowest)
        × ((black ≡ None) ⊎ (white ≡ None))) }
{
    match black {
        None => Err(CycleError::Captures(lowest)),
        Some(black) => match white {
            None => {
                drop(black);
                Err(CycleError::Captures(lowest))
            }
            Some(white) => Ok(BothValues {
                black,
                white: Some(white),
            }),
        },
    }
}

/// The values of a region with its graph. What Black's needed is remembered for White's.
fn values_of_both(
    alloc: Global,
    region: &Region,
    graph: &ReturnGraph,
    limits: &Limits,
    most: u8,
    store: &mut Store,
    memo: &mut ValueMemo,
) -> Result<BothValues, CycleError>
    requires points { length region.now.points ≤ 32 }
    requires graph { IsGraphWithin limits.now.positions region.now graph.now }
    requires memo { IsRememberedRight store.old limits.now.parts memo.old }
    ensures solved { IfOk result (λ both. IsSolvedBy limits.now most region.now store.new
        (record { graph = graph.now; black = both.black; white = both.white })) }
    ensures refusal { IfErr result (λ e. IsRefusalOf limits.now most region.now e) }
    ensures kept { Extends store.old store.new }
{
    let lowest = region.points[0];
    let _most = limits.positions();
    let black = values_of(
        alloc,
        region,
        graph,
        Colour::Black,
        limits,
        most,
        store,
        memo,
    )?;
    if !graph.has_cycle() {
        return alone(black, lowest);
    }
    match values_of(
        alloc,
        region,
        graph,
        Colour::White,
        limits,
        most,
        store,
        memo,
    ) {
        Ok(white) => together(black, white, lowest),
        Err(fault) => {
            drop(black);
            Err(fault)
        }
    }
}

/// The values of a region with its graph, with nothing remembered before or behind.
fn values_of_region(
    alloc: Global,
    region: &Region,
    graph: &ReturnGraph,
    limits: &Limits,
    most: u8,
    store: &mut Store,
) -> Result<BothValues, CycleError>
    requires points { length region.now.points ≤ 32 }
    requires graph { IsGraphWithin limits.now.positions region.now graph.now }
    ensures solved { IfOk result (λ both. IsSolvedBy limits.now most region.now store.new
        (record { graph = graph.now; black = both.black; white = both.white })) }
    ensures refusal { IfErr result (λ e. IsRefusalOf limits.now most region.now e) }
    ensures kept { Extends store.old store.new }
{
    let mut memo = ValueMemo::new(alloc);
    let both = values_of_both(alloc, region, graph, limits, most, store, &mut memo);
    drop(memo);
    both
}

/// The graph and the values of a region.
pub(crate) fn region_game<L: Ledger>(
    alloc: Global,
    region: &Region,
    limits: &Limits,
    most: u8,
    store: &mut Store,
    steps: &mut Steps<L>,
) -> Result<RegionGame, CycleError>
    requires points { length region.now.points ≤ 32 }
    ensures solved { IfOk result (λ game. IsSolvedBy limits.now most region.now store.new game) }
    ensures refusal { IfErr result (λ e. IsRefusalOf limits.now most region.now e) }
    ensures kept { Extends store.old store.new }
    ensures steps { steps.new ≤ steps.old + min limits.now.positions
        (3 ^ length region.now.points) }
{
    let graph = graph_of(alloc, region, limits, steps)?;
    match values_of_region(alloc, region, &graph, limits, most, store) {
        Ok(both) => Ok(RegionGame {
            graph,
            black: both.black,
            white: both.white,
        }),
        Err(fault) => {
            drop(graph);
            Err(fault)
        }
    }
}
