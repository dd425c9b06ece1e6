//! The values of all positions of a graph in which one colour has a budget of captures that return.

ghost use Rattle.std.specs.Prelude.{◌≤◌, length};
ghost use Rattle.go_grid.specs.Region.{Region};
ghost use Rattle.game_store.specs.Meaning.{Extends};
ghost use Rattle.local_value.specs.BudgetValues.{IsReturnGraphOf, Valued};
ghost use Rattle.local_value.specs.Remembered.{IsRememberedRight, IsRightAfter};

use crate::budgets::{BudgetError, add_layers};
use crate::steady_values::SteadyValues;
use crate::value_memo::ValueMemo;
use game_store::Store;
use go_grid::Colour;
use local_graph::{MOST_POSITIONS, ReturnGraph};
use std::alloc::Global;

/// The values as `value_steady` gives them, with what earlier graphs of the store needed at hand, or the same graph for the other
/// colour. What this one needed is remembered too. After `Form` nothing is known of what is remembered.
pub fn value_steady_with(
    alloc: Global,
    graph: &ReturnGraph,
    owner: Colour,
    store: &mut Store,
    memo: &mut ValueMemo,
    most: u8,
    parts_limit: u32,
) -> Result<SteadyValues, BudgetError>
    requires graph { (r : Region) × IsReturnGraphOf r graph.now }
    requires few { length graph.now.positions ≤ MOST_POSITIONS }
    requires memo { IsRememberedRight store.old parts_limit memo.old }
    ensures valued { (r : Region) → IsReturnGraphOf r graph.now
        → Valued r graph.now owner most parts_limit store.new result }
    ensures memo { IsRightAfter store.new parts_limit result memo.new }
    ensures kept { Extends store.old store.new }
{
    let mut layers = Vec::new(alloc);
    let known = &mut memo.known;
    add_layers(
        alloc,
        graph,
        owner,
        store,
        known,
        &mut layers,
        most,
        parts_limit,
    )?;
    Ok(SteadyValues::new(layers))
}

/// The values of all positions of a graph with each budget of returning captures for a colour up to the least at which one more
/// changes nothing. That is at most `most`. `Form` where a value that is needed to tell has more than `parts_limit` parts, or a
/// number past the bounds of a `Dyadic`; else `Captures` where there is no such budget. Every id of the store keeps its form,
/// whatever the answer.
pub fn value_steady(
    alloc: Global,
    graph: &ReturnGraph,
    owner: Colour,
    store: &mut Store,
    most: u8,
    parts_limit: u32,
) -> Result<SteadyValues, BudgetError>
    requires graph { (r : Region) × IsReturnGraphOf r graph.now }
    requires few { length graph.now.positions ≤ MOST_POSITIONS }
    ensures valued { (r : Region) → IsReturnGraphOf r graph.now
        → Valued r graph.now owner most parts_limit store.new result }
    ensures kept { Extends store.old store.new }
{
    let mut memo = ValueMemo::new(alloc);
    let valued = value_steady_with(alloc, graph, owner, store, &mut memo, most, parts_limit);
    drop(memo);
    valued
}
