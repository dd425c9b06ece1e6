//! Regions, one after the other: the graph of each, and the values of its positions.

ghost use Rattle.std.specs.Prelude.{◌≡◌, ℕ, ◌+◌, ◌^◌, ◌<◌, ◌≤◌, All, IfErr, IfOk, OnOk, length, map, min};
ghost use Rattle.game_store.specs.Meaning.{Extends};
ghost use Rattle.endgame_solver.specs.Faults.{named, AreRefused, AreSmallRegions, most_steps};
ghost use Rattle.endgame_solver.specs.Regions.{region_at};
ghost use Rattle.endgame_solver.specs.inner.Sharing.{AreSharedBy, SharesBelow};
ghost use Rattle.endgame_solver.specs.inner.Solving.{IsGraphWithin, IsRefusalOf, IsSolvedBy};

use crate::cycle_names::CycleNames;
use crate::faults::SolveError;
use crate::limits::Limits;
use crate::view_book::{Book, Kind, add_own, add_view, first_kind, kind_of};
use game_canon::FormError;
use game_store::Store;
use go_grid::Region;
use local_graph::{CompactGraph, CycleMove, GraphError, build_compact};
use local_play::Steps;
use local_value::{Values, value_compact};
use std::alloc::{AllocError, Global};
use std::sync::ledger::Ledger;

/// The moves of a region with the points of the board.
fn named_cycle(
    alloc: Global,
    region: &Region,
    moves: &[CycleMove],
) -> Result<CycleNames, AllocError>
    requires { All (λ m. m.place < length region.now.points) moves.now }
    ensures { IfOk result (λ names. names ≡ map (named region.now) moves.now) }
{
    let points = &region.points;
    let mut names = CycleNames::new(alloc);
    'moves: for step in moves {
        names.push((step.colour, points[usize::from(step.place)]))?;
    }
    Ok(names)
}

/// The graph of a region of at most 32 points.
fn graph_of<L: Ledger>(
    alloc: Global,
    region: &Region,
    limits: &Limits,
    steps: &mut Steps<L>,
) -> Result<CompactGraph, SolveError>
    requires { length region.now.points ≤ 32 }
    ensures graph { IfOk result (λ g. IsGraphWithin limits.now.positions region.now g) }
    ensures refusal { IfErr result (λ e. IsRefusalOf limits.now region.now e) }
    ensures steps { steps.new ≤ steps.old + min limits.now.positions
        (3 ^ length region.now.points) }
{
    let lowest = region.points[0];
    match build_compact(alloc, region, limits.positions(), steps) {
        Ok(graph) => Ok(graph),
        Err(GraphError::Points(points)) => Err(SolveError::Points(lowest, points)),
        Err(GraphError::Positions) => Err(SolveError::Positions(lowest)),
        Err(GraphError::Cycle(moves, back)) => {
            let names = named_cycle(alloc, region, moves.as_slice())?;
            Err(SolveError::Cycle(lowest, names, back))
        }
        Err(GraphError::Memory(error)) => Err(SolveError::Memory(error)),
    }
}

/// The values of the positions of a region's graph.
fn values_of(
    alloc: Global,
    region: &Region,
    graph: &CompactGraph,
    limits: &Limits,
    store: &mut Store,
) -> Result<Values, SolveError>
    requires points { length region.now.points ≤ 32 }
    requires graph { IsGraphWithin limits.now.positions region.now graph.now }
    ensures solved { IfOk result (λ ids. IsSolvedBy limits.now region.now graph.now store.new ids) }
    ensures refusal { IfErr result (λ e. IsRefusalOf limits.now region.now e) }
    ensures kept { Extends store.old store.new }
{
    let lowest = region.points[0];
    match value_compact(alloc, graph, store, limits.parts()) {
        Ok(values) => Ok(values),
        Err(FormError::Parts) => Err(SolveError::Form(lowest)),
        Err(FormError::Bounds) => Err(SolveError::Form(lowest)),
        Err(FormError::Memory(error)) => Err(SolveError::Memory(error)),
    }
}

/// The graph and the values of a region.
fn solve_region<L: Ledger>(
    alloc: Global,
    region: &Region,
    limits: &Limits,
    store: &mut Store,
    steps: &mut Steps<L>,
) -> Result<(CompactGraph, Values), SolveError>
    requires points { length region.now.points ≤ 32 }
    ensures solved { IfOk result (λ x. IsSolvedBy limits.now region.now x.0 store.new x.1) }
    ensures refusal { IfErr result (λ e. IsRefusalOf limits.now region.now e) }
    ensures kept { Extends store.old store.new }
    ensures steps { steps.new ≤ steps.old + min limits.now.positions
        (3 ^ length region.now.points) }
{
    let graph = graph_of(alloc, region, limits, steps)?;
    let values = values_of(alloc, region, &graph, limits, store)?;
    Ok((graph, values))
}

/// Adds the graph and the values of the next region. They are those of an earlier one where the openings have one shape.
fn solve_next<L: Ledger>(
    alloc: Global,
    regions: &[Region],
    number: usize,
    limits: &Limits,
    kinds: &mut Vec<Kind>,
    book: &mut Book,
    store: &mut Store,
    steps: &mut Steps<L>,
) -> Result<(), SolveError>
    requires number { number < length regions.now }
    requires small { AreSmallRegions regions.now }
    requires before { SharesBelow limits.now regions.now book.old.graphs.items
        book.old.values.items book.old.views.items
        kinds.old.items store.old number }
    ensures next { OnOk result
        (SharesBelow limits.now regions.now book.new.graphs.items book.new.values.items
        book.new.views.items kinds.new.items store.new (number + 1)) }
    ensures refusal { IfErr result (λ e. AreRefused limits.now regions.now e) }
    ensures kept { Extends store.old store.new }
    ensures steps { steps.new ≤ steps.old
        + min limits.now.positions (3 ^ length (region_at regions.now number).points) }
{
    let region = &regions[number];
    let kind = first_kind(alloc, region, book.values.len())?;
    if let Some(place) = kind_of(kinds, &kind.shape) {
        let known = &kinds[place];
        add_view(alloc, region, &kind.turn, place, known, book, store)?;
        return Ok(());
    }
    let (graph, ids) = solve_region(alloc, region, limits, store, steps)?;
    add_own(book, graph, ids)?;
    kinds.push(kind)?;
    Ok(())
}

/// The graphs and the values of all regions, or why the first that has none has none.
pub(crate) fn solve_regions<L: Ledger>(
    alloc: Global,
    regions: &[Region],
    limits: &Limits,
    store: &mut Store,
    steps: &mut Steps<L>,
) -> Result<Book, SolveError>
    requires small { AreSmallRegions regions.now }
    ensures solved { IfOk result (λ book. AreSharedBy limits.now regions.now book store.new) }
    ensures refusal { IfErr result (λ e. AreRefused limits.now regions.now e) }
    ensures kept { IfOk result (λ x. Extends store.old store.new) }
    ensures steps { steps.new ≤ steps.old + most_steps limits.now regions.now }
{
    let mut book = Book {
        graphs: Vec::new(alloc),
        values: Vec::new(alloc),
        views: Vec::new(alloc),
    };
    let mut kinds = Vec::new(alloc);
    'regions: for number in 0..regions.len() {
        solve_next(
            alloc, regions, number, limits, &mut kinds, &mut book, store, steps,
        )?;
    }
    Ok(book)
}
