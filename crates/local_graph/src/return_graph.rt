//! Graphs of regions in which moves may return: which of them do, and for each colour an order with ends first in which its
//! returning captures are left out.

ghost use Rattle.std.specs.Prelude.{◌≡◌, ◌+◌, ◌^◌, ◌<◌, ◌≤◌, ◌↔◌, length, false, None, IsTrue, IfOk, IfSome};
ghost use Rattle.local_graph.specs.BuiltWithReturns.{BuiltWithReturns};
ghost use Rattle.local_graph.specs.LocalGraph.{IsOrderOfPlaces};
ghost use Rattle.local_graph.specs.ReturnGraph.{StaysIn, IsReturningCaptureAt, order_for};
ghost use Rattle.local_graph.specs.inner.Built.{IsRooted};
ghost use Rattle.local_graph.specs.inner.MadeWithReturns.{IsMadeOf, AreReturning};

use crate::compact_graph::CompactGraph;
use crate::edge_lists::EdgeLists;
use crate::graph::Edge;
use crate::graph_build::{GraphError, explore, positions_of};
use crate::place_table::PlaceTable;
use crate::return_orders::order_between_captures;
use crate::search::order_or_search;
use crate::strong_components::strong_components;
use go_grid::{Colour, Region};
use local_play::Steps;
use std::alloc::{AllocError, Global};
use std::marker::Model;
use std::sync::ledger::Ledger;

/// What tells which moves return, where there is a cycle.
#[derive(Drop)]
pub(crate) struct Returning {
    /// By position the number of its component.
    components: Vec<u32>,
    white_order: Vec<u32>,
}

/// All positions that local moves reach from an opening, their moves, and which of these return.
#[derive(Drop)]
pub struct ReturnGraph {
    /// With the order for Black, which is one for White too where no move returns.
    graph: CompactGraph,
    returning: Option<Returning>,
}

impl Model for ReturnGraph {
    ghost use Rattle.local_graph.specs.ReturnGraph.{ReturnGraph};
    ghost use Rattle.local_graph.specs.inner.MadeWithReturns.{components_in, white_order_in, AreBeside};

    ghost Value = { ReturnGraph };

    ghost view = { λ g. record {
      positions = g.graph.positions;
      edges = g.graph.edges;
      components = components_in g.returning;
      black_order = g.graph.order;
      white_order = white_order_in g.graph.order g.returning;
    } };

    ghost invariant = { λ g. AreBeside g.returning g.graph.positions };
}

impl ReturnGraph {
    /// The graph with its order for Black. Where there is no cycle, each move leads to an earlier place of that order.
    pub fn graph(&self) -> &CompactGraph
        ensures positions { result.now.positions ≡ self.now.positions }
        ensures edges { result.now.edges ≡ self.now.edges }
        ensures order { result.now.order ≡ self.now.black_order }
    {
        &self.graph
    }

    /// Whether there is a cycle.
    pub fn has_cycle(&self) -> bool
        ensures { (result ≡ false) ↔ (self.now.components ≡ None) }
    {
        self.returning.is_some()
    }

    /// Whether a move of the position at a place returns: whether local moves lead back from where it leads to.
    pub fn returns(&self, place: usize, edge: &Edge) -> bool
        requires place { place < length self.now.positions }
        requires next { edge.now.next < length self.now.positions }
        ensures { IsTrue result ↔ StaysIn self.now.components place edge.now }
    {
        match &self.returning {
            Some(returning) => returning.components[edge.next] == returning.components[place],
            None => false,
        }
    }

    /// Whether a move of the position at a place is a capture by the colour that returns.
    pub fn is_returning_capture(&self, place: usize, edge: &Edge, colour: Colour) -> bool
        requires place { place < length self.now.positions }
        requires next { edge.now.next < length self.now.positions }
        ensures { IsTrue result ↔ IsReturningCaptureAt colour self.now.components place edge.now }
    {
        edge.colour == colour && edge.taken > 0 && self.returns(place, edge)
    }

    /// The places of all positions, each after those that its moves lead to, but for returning captures by the colour.
    pub fn order(&self, colour: Colour) -> &[u32]
        ensures { result.now ≡ order_for self.now colour }
    {
        match (colour, &self.returning) {
            (Colour::White, Some(returning)) => &returning.white_order,
            _ => self.graph.order(),
        }
    }
}

/// What tells which moves return, and the order for Black.
fn what_returns(
    alloc: Global,
    positions: &[u64],
    edges: &EdgeLists,
) -> Result<(Returning, Vec<u32>), AllocError>
    requires rooted { IsRooted edges.now }
    requires beside { length edges.now ≡ length positions.now }
    ensures { IfOk result (λ told. AreReturning positions.now edges.now told.0 told.1.items) }
{
    let components = strong_components(alloc, edges)?;
    let black_order = order_between_captures(alloc, positions, &components, Colour::Black)?;
    let white_order = order_between_captures(alloc, positions, &components, Colour::White)?;
    let told = Returning {
        components,
        white_order,
    };
    Ok((told, black_order))
}

/// The graph of positions and their moves.
fn tell_returns(
    alloc: Global,
    positions: Vec<u64>,
    edges: EdgeLists,
    order: Option<Vec<u32>>,
) -> Result<ReturnGraph, AllocError>
    requires rooted { IsRooted edges }
    requires beside { length edges ≡ length positions.items }
    requires ordered { IfSome order (λ o. IsOrderOfPlaces edges o.items) }
    ensures { IfOk result (IsMadeOf positions.items edges) }
{
    if let Some(order) = order_or_search(alloc, &edges, order)? {
        return Ok(ReturnGraph {
            graph: CompactGraph::new(positions, edges, order),
            returning: None,
        });
    }
    let (told, black_order) = what_returns(alloc, &positions, &edges)?;
    Ok(ReturnGraph {
        graph: CompactGraph::new(positions, edges, black_order),
        returning: Some(told),
    })
}

/// The graph of exactly the positions that local play reaches from the region's cells, each with exactly its moves, also where
/// moves return. It takes exactly one step for each of them, and where there is no graph at most one. It never answers `Cycle`.
pub fn build_with_returns<L: Ledger>(
    alloc: Global,
    region: &Region,
    limit: u32,
    steps: &mut Steps<L>,
) -> Result<ReturnGraph, GraphError>
    ensures built { BuiltWithReturns region.now limit result }
    ensures limited { steps.new ≤ steps.old + limit }
    ensures finite { steps.new ≤ steps.old + 3 ^ length region.now.points }
    ensures exact { IfOk result (λ graph. steps.new ≡ steps.old + length graph.positions) }
{
    let shape = region;
    let points = shape.points.len();
    if points > 32 {
        return Err(GraphError::Points(points as u16));
    }
    let mut found = PlaceTable::new(alloc, points);
    let walked = explore(alloc, region, limit, &mut found, steps)?;
    let graph = tell_returns(alloc, positions_of(found), walked.edges, walked.order)?;
    Ok(graph)
}
