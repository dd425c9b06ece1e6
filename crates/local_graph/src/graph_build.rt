//! Building a graph: a walk finds the positions, their moves and, unless it meets a cycle, an order of them.

ghost use Rattle.std.specs.Prelude.{ℕ, ◌≡◌, ◌≢◌, ◌+◌, ◌^◌, ◌<◌, ◌≤◌, List, [], length, drop, Contains, slice_index, count_by, IfOk, OnOk, IfSome, IfNone, alloc_error};
ghost use Rattle.local_graph.specs.declared.graph.Edge.{Edge};
ghost use Rattle.local_graph.specs.declared.graph_build.GraphError.TheVariants.{Memory};
ghost use Rattle.std.specs.List.{AllPairs};
ghost use Rattle.go_grid.specs.declared.grid.Cell.{Cell};
ghost use Rattle.go_grid.specs.declared.region.Touch.{Touch};
ghost use Rattle.local_play.specs.Links.{IsTable};
ghost use Rattle.local_play.specs.Packed.{pack};
ghost use Rattle.local_graph.specs.Built.{Built};
ghost use Rattle.local_graph.specs.inner.Built.{IsRooted};
ghost use Rattle.local_graph.specs.inner.SearchedFor.{IsOrdered};
ghost use Rattle.local_graph.specs.inner.Searching.{is_new};
ghost use Rattle.local_graph.specs.LocalGraph.{IsOrderOfPlaces};
ghost use Rattle.local_graph.specs.inner.Exploring.{IsExploring, Begun, Ended, IsPositionOn, EdgesFrom, IsNoted, AreNoted};
ghost use Rattle.local_graph.specs.inner.Graph.{lists_of, AreWithin};
ghost use Rattle.local_graph.specs.inner.Found.{Placed, edge_of, Explored, AreAwaited};
ghost use Rattle.local_graph.specs.inner.PlaceTable.{threes, IsPlaceTable, IsNumbered, ArePowers};

use crate::compact_graph::CompactGraph;
use crate::cycle::CycleList;
use crate::edge_lists::{EdgeLists, Span};
use crate::edges::EdgeList;
use crate::graph::{Edge, Graph};
use crate::numbers::{number_after, powers};
use crate::place_table::{PlaceTable, threes};
use crate::search::{Searched, Visit, search_from_opening};
use crate::walk::Walk;
use go_grid::Region;
use local_play::{Links, Local, LocalMove, LocalMoves, MOST_PLACES, Steps, start};
use std::alloc::{AllocError, AllocFailed, Global};
use std::fmt;
use std::sync::ledger::Ledger;

/// Why a region has no graph.
#[derive(Drop, thiserror::Error)]
pub enum GraphError {
    /// The region has more than 32 points. Their number.
    #[error("{0} points in a region")]
    Points(u16),
    /// More positions are reachable than the limit.
    #[error("too many positions in a region")]
    Positions,
    /// Legal moves from the opening that lead to the position after so many of them. The positions before it are all
    /// different.
    #[error("a cycle of moves in a region")]
    Cycle(CycleList, usize),
    #[error("out of memory")]
    Memory(AllocError),
}

impl fmt::Debug for GraphError {
    fn fmt<W: fmt::Write>(&self, f: &mut fmt::Formatter<W>) -> fmt::Result {
        fmt::Display::fmt(self, f)
    }
}

impl From<AllocError> for GraphError {
    ghost from_gives = { λ cause e. e ≡ Memory cause };

    fn from(error: AllocError) -> GraphError {
        GraphError::Memory(error)
    }
}

impl<T: Drop> From<AllocFailed<T>> for GraphError {
    ghost from_gives = { λ _ e. e ≡ Memory alloc_error };

    fn from(_: AllocFailed<T>) -> GraphError {
        GraphError::Memory(AllocError)
    }
}

/// The place of a position that wasn't found before: it stands behind the others. So does one that is too many.
#[inline(never)]
fn new_place(
    alloc: Global,
    table: &mut PlaceTable,
    position: Local,
    number: u64,
    limit: u32,
) -> Result<usize, GraphError>
    requires table { IsPlaceTable table.old }
    requires number { number ≡ threes position }
    requires new { ¬ Contains table.old.positions.items position }
    requires numbered { IsNumbered table.old.numbers position }
    requires few { length table.old.positions.items ≤ limit }
    ensures placed { Placed table.old.positions.items position limit
        table.new.positions.items result }
    ensures table { OnOk result (IsPlaceTable table.new) }
    ensures numbers { OnOk result (table.new.numbers ≡ table.old.numbers) }
{
    let place = table.positions.len();
    if place < limit as usize {
        table.add(alloc, position.0, number)?;
        return Ok(place);
    }
    table.positions.push(position.0)?;
    Err(GraphError::Positions)
}

/// The place of a position with a number in base 3, if it was found.
#[inline(always)]
fn place_of(table: &PlaceTable, position: Local, number: u64) -> Option<usize>
    requires table { IsPlaceTable table.now }
    requires number { number ≡ threes position }
    requires numbered { IsNumbered table.now.numbers position }
    ensures found { IfSome result (λ place. (place < length table.now.positions.items)
        × (slice_index table.now.positions.items place ≡ position)) }
    ensures absent { IfNone result (¬ Contains table.now.positions.items position) }
{
    table.find(position.0, number)
}

/// The edge of a move that leads to the position at a place.
fn edge_of(step: &LocalMove, next: usize) -> Edge
    ensures { result ≡ edge_of step.now next }
{
    Edge {
        next,
        colour: step.colour,
        place: step.place,
        taken: step.taken,
    }
}

/// Makes the places from the number of spans on new, with an empty span for each.
fn await_new(spans: &mut Vec<Span>, visits: &mut Vec<Visit>, count: usize) -> Result<(), AllocError>
    requires { length spans.old.items ≤ count }
    ensures awaited { OnOk result ((edges : List Edge)
        → AreAwaited (lists_of edges spans.old.items) visits.old.items count
        (lists_of edges spans.new.items) visits.new.items) }
    ensures within { OnOk result ((edges : ℕ) → AreWithin edges spans.old.items
        → AreWithin edges spans.new.items) }
{
    'awaiting: while spans.len() < count {
        visits.reserve(1)?;
        visits.push_reserved(Visit::New);
        spans.reserve(1)?;
        spans.push_reserved(Span { start: 0, end: 0 });
    }
    Ok(())
}

/// The edges that were found, the span of them that is each position's, and the walk that lists them.
#[derive(Drop)]
pub(crate) struct Exploration {
    edges: EdgeList,
    spans: Vec<Span>,
    walk: Walk,
}

impl Exploration {
    /// Puts an edge behind the others, and the entering of the place that it leads to behind the tasks, unless it is in the order.
    #[inline(always)]
    fn note(&mut self, edge: &Edge) -> Result<(), AllocError>
        requires next { edge.now.next < length self.old.walk.visits.items }
        requires few { length self.old.walk.visits.items ≤ 2 ^ 32 }
        ensures { OnOk result (IsNoted edge.now self.old self.new) }
    {
        self.walk.aim(edge.next)?;
        self.edges.push(edge)
    }
}

/// Puts the edges of a position's moves behind those that are there, a place for each new position that they lead to behind the
/// others, and the entering of each place that isn't in the order behind the tasks.
#[inline(always)]
fn list_position<L: Ledger>(
    alloc: Global,
    table: &mut PlaceTable,
    links: &Links,
    powers: &[u64; MOST_PLACES],
    position: u64,
    limit: u32,
    steps: &mut Steps<L>,
    found: &mut Exploration,
) -> Result<(), GraphError>
    requires table { IsPlaceTable table.old }
    requires once { AllPairs (λ a b. a ≢ b) table.old.positions.items }
    requires position { IsPositionOn links.now table.old.numbers position }
    requires powers { ArePowers powers.now }
    requires few { length table.old.positions.items ≤ limit }
    requires spans { length found.old.spans.items ≡ length table.old.positions.items }
    requires visits { length found.old.walk.visits.items ≡ length table.old.positions.items }
    ensures edges { (touch : List Touch) (cells : List Cell) → IsTable touch links.now
        → length cells ≡ length touch → position ≡ pack cells
        → EdgesFrom touch cells table.old.positions.items limit table.new.positions.items
        (drop (length found.old.edges) found.new.edges) result }
    ensures table { OnOk result (IsPlaceTable table.new) }
    ensures numbers { OnOk result (table.new.numbers ≡ table.old.numbers) }
    ensures noted { OnOk result (AreNoted (length table.new.positions.items)
        (drop (length found.old.edges) found.new.edges) found.old found.new) }
    ensures step { steps.new ≡ steps.old + 1 }
{
    let number = threes(position);
    let mut moves = LocalMoves::of(links, Local(position), steps);
    'turns: loop {
        'linking: while let Some(step) = moves.next(links) {
            let after = number_after(powers, number, &step);
            if let Some(place) = place_of(table, step.next, after) {
                found.note(&edge_of(&step, place))?;
                continue;
            }
            let place = new_place(alloc, table, step.next, after, limit)?;
            await_new(
                &mut found.spans,
                &mut found.walk.visits,
                table.positions.len(),
            )?;
            found.note(&edge_of(&step, place))?;
        }
        if !moves.pass_on() {
            return Ok(());
        }
    }
}

/// The opening alone, which is still to be entered.
fn begin(
    alloc: Global,
    region: &Region,
    limit: u32,
    table: &mut PlaceTable,
) -> Result<Exploration, GraphError>
    requires points { length region.now.points ≤ 32 }
    requires table { IsPlaceTable table.old }
    requires none { table.old.positions.items ≡ [] }
    requires numbers { table.old.numbers ≡ 3 ^ length region.now.points }
    ensures { Begun region.now.touch region.now.cells limit (length region.now.points) table.new
        result }
{
    let opening = start(region);
    new_place(alloc, table, opening, threes(opening.0), limit)?;
    let walk = Walk::new(alloc)?;
    let mut found = Exploration {
        edges: EdgeList::new(alloc),
        spans: Vec::new(alloc),
        walk,
    };
    await_new(
        &mut found.spans,
        &mut found.walk.visits,
        table.positions.len(),
    )?;
    Ok(found)
}

/// Explores the new positions, and all that moves lead to from there, depth first, so that what stands side by side is used one
/// after the other by the passes to come.
fn explore_new<L: Ledger>(
    alloc: Global,
    region: &Region,
    limit: u32,
    table: &mut PlaceTable,
    steps: &mut Steps<L>,
    found: &mut Exploration,
) -> Result<(), GraphError>
    requires points { length region.now.points ≤ 32 }
    requires under_way { IsExploring region.now.touch region.now.cells limit
        (length region.now.points) table.old found.old }
    requires all { count_by is_new found.old.walk.visits.items
        ≡ length table.old.positions.items }
    ensures ended { Ended region.now.touch region.now.cells limit table.new.positions.items
        found.new result }
    ensures limited { steps.new ≤ steps.old + limit }
    ensures finite { steps.new ≤ steps.old + 3 ^ length region.now.points }
    ensures exact { OnOk result (steps.new ≡ steps.old + length table.new.positions.items) }
{
    let links = Links::of(region);
    let weights = powers();
    'exploring: loop {
        let next = found.walk.next()?;
        let Some(place) = next else {
            return Ok(());
        };
        let position = table.positions[place as usize];
        let first = found.edges.len();
        found.walk.open(place)?;
        list_position(
            alloc, table, &links, &weights, position, limit, steps, found,
        )?;
        let end = found.edges.len();
        let span = Span::between(first, end)?;
        found.spans[place as usize] = span;
        found.walk.visits[place as usize] = Visit::OnPath;
    }
}

/// What exploring gives: the edges of each position, and an order of all with ends first unless the walk met a cycle.
#[derive(Drop)]
pub(crate) struct Walked {
    pub(crate) edges: EdgeLists,
    pub(crate) order: Option<Vec<u32>>,
}

/// All positions that are reachable, and their moves.
pub(crate) fn explore<L: Ledger>(
    alloc: Global,
    region: &Region,
    limit: u32,
    table: &mut PlaceTable,
    steps: &mut Steps<L>,
) -> Result<Walked, GraphError>
    requires points { length region.now.points ≤ 32 }
    requires table { IsPlaceTable table.old }
    requires none { table.old.positions.items ≡ [] }
    requires numbers { table.old.numbers ≡ 3 ^ length region.now.points }
    ensures graph { Explored region.now.touch region.now.cells limit
        table.new.positions.items result }
    ensures limited { steps.new ≤ steps.old + limit }
    ensures finite { steps.new ≤ steps.old + 3 ^ length region.now.points }
    ensures exact { IfOk result
        (λ _. steps.new ≡ steps.old + length table.new.positions.items) }
{
    let mut found = begin(alloc, region, limit, table)?;
    explore_new(alloc, region, limit, table, steps, &mut found)?;
    Ok(Walked {
        edges: EdgeLists::of(found.edges, found.spans),
        order: found.walk.into_order(),
    })
}

/// The positions found, as a list alone: what finds their places is given back.
pub(crate) fn positions_of(table: PlaceTable) -> Vec<u64>
    ensures { result.items ≡ table.positions.items }
{
    table.positions
}

/// The graph of the positions and their edges, or a cycle. Where no order is given, a search finds which.
fn order_graph(
    alloc: Global,
    positions: Vec<u64>,
    edges: EdgeLists,
    order: Option<Vec<u32>>,
) -> Result<CompactGraph, GraphError>
    requires rooted { IsRooted edges }
    requires beside { length edges ≡ length positions.items }
    requires ordered { IfSome order (λ o. IsOrderOfPlaces edges o.items) }
    ensures { IsOrdered positions.items edges result }
{
    if let Some(order) = order {
        return Ok(CompactGraph::new(positions, edges, order));
    }
    match search_from_opening(alloc, &edges)? {
        Searched::Order(order) => Ok(CompactGraph::new(positions, edges, order)),
        Searched::Cycle(moves, start) => Err(GraphError::Cycle(moves, start)),
    }
}

/// The graph of exactly the positions that local play reaches from the region's cells, each with exactly its moves. It takes
/// exactly one step for each of them, and where there is no graph at most one.
pub fn build_compact<L: Ledger>(
    alloc: Global,
    region: &Region,
    limit: u32,
    steps: &mut Steps<L>,
) -> Result<CompactGraph, GraphError>
    ensures built { Built region.now limit result }
    ensures limited { steps.new ≤ steps.old + limit }
    ensures finite { steps.new ≤ steps.old + 3 ^ length region.now.points }
    ensures exact { IfOk result (λ graph. steps.new ≡ steps.old + length graph.positions) }
{
    let shape = region;
    let points = shape.points.len();
    if points > 32 {
        return Err(GraphError::Points(points as u16));
    }
    let mut found = PlaceTable::new(alloc, points);
    let walked = explore(alloc, region, limit, &mut found, steps)?;
    order_graph(alloc, positions_of(found), walked.edges, walked.order)
}

/// What `build_compact` builds, with edges at full length.
pub fn build<L: Ledger>(
    alloc: Global,
    region: &Region,
    limit: u32,
    steps: &mut Steps<L>,
) -> Result<Graph, GraphError>
    ensures built { Built region.now limit result }
    ensures limited { steps.new ≤ steps.old + limit }
    ensures finite { steps.new ≤ steps.old + 3 ^ length region.now.points }
    ensures exact { IfOk result (λ graph. steps.new ≡ steps.old + length graph.positions) }
{
    let compact = build_compact(alloc, region, limit, steps)?;
    Ok(Graph::of(alloc, compact)?)
}
