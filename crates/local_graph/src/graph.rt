//! Graphs: positions in the order in which they were found, their moves, and an order with ends first.

ghost use Rattle.std.specs.Prelude.{◌≡◌, ◌<◌, length, slice_index, slice_index_or, [], IfOk};

use crate::compact_graph::CompactGraph;
use crate::edge_lists::EdgeLists;
use crate::edges::Edges;
use go_grid::Colour;
use item_list::ItemList;
use local_play::Local;
use std::alloc::{AllocError, Global};
use std::marker::Model;

/// The most positions that a region may have.
pub const MOST_POSITIONS: u32 = 1_000_000;

/// A legal move of a position, and the place in the graph of the position that it leads to.
#[derive(Clone, Copy, Debug)]
pub struct Edge {
    pub next: usize,
    pub colour: Colour,
    pub place: u8,
    pub taken: u8,
}

/// All positions that local moves reach from an opening, and their moves.
#[derive(Drop)]
pub struct Graph {
    compact: CompactGraph,
    /// By position its edges at full length.
    edges: Vec<ItemList<Edge>>,
    order: Vec<usize>,
}

impl Model for Graph {
    ghost use Rattle.std.specs.Prelude.{◌≡◌, length};
    ghost use Rattle.local_graph.specs.Graph.{Graph};

    ghost Value = { Graph };

    ghost view = { λ g. g.compact };

    ghost invariant = { λ g. (g.edges.items ≡ g.compact.edges)
        × (length g.compact.edges ≡ length g.compact.positions)
        × (g.order.items ≡ g.compact.order) };
}

/// The edges at full length.
fn at_length(alloc: Global, edges: &Edges<'_>) -> Result<ItemList<Edge>, AllocError>
    ensures { IfOk result (λ long. long ≡ edges.now) }
{
    let mut long = ItemList::new(alloc);
    'listing: for number in 0..edges.len() {
        long.push(edges.get(number))?;
    }
    Ok(long)
}

/// The lists of edges at full length.
fn all_at_length(alloc: Global, edges: &EdgeLists) -> Result<Vec<ItemList<Edge>>, AllocError>
    ensures { IfOk result (λ long. long.items ≡ edges.now) }
{
    let mut long = Vec::with_capacity(alloc, edges.len())?;
    'lists: for place in 0..edges.len() {
        long.push(at_length(alloc, &edges.at(place))?)?;
    }
    Ok(long)
}

/// The places at full length.
fn places_at_length(alloc: Global, places: &[u32]) -> Result<Vec<usize>, AllocError>
    ensures { IfOk result (λ long. long.items ≡ places.now) }
{
    let mut long = Vec::with_capacity(alloc, places.len())?;
    for place in places {
        long.push(*place as usize)?;
    }
    Ok(long)
}

impl Graph {
    /// A graph with its edges at full length.
    pub(crate) fn of(alloc: Global, compact: CompactGraph) -> Result<Graph, AllocError>
        ensures { IfOk result (λ graph. graph ≡ compact) }
    {
        let edges = all_at_length(alloc, compact.edge_lists())?;
        let order = places_at_length(alloc, compact.order())?;
        Ok(Graph {
            compact,
            edges,
            order,
        })
    }

    /// The graph with edges of a quarter of their length.
    pub fn compact(&self) -> &CompactGraph
        ensures { result.now ≡ self.now }
    {
        &self.compact
    }

    /// The number of positions.
    pub fn len(&self) -> usize
        ensures { result ≡ length self.now.positions }
    {
        self.compact.len()
    }

    /// The position at a place. The opening stands at 0.
    pub fn position(&self, place: usize) -> Local
        requires { place < length self.now.positions }
        ensures { result ≡ slice_index self.now.positions place }
    {
        self.compact.position(place)
    }

    /// The moves of the position at a place, Black's by place and then White's.
    pub fn edges(&self, place: usize) -> &[Edge]
        requires { place < length self.now.positions }
        ensures { result.now ≡ slice_index_or self.now.edges place [] }
    {
        self.edges[place].as_slice()
    }

    /// The places of all positions, each after those that its moves lead to.
    pub fn order(&self) -> &[usize]
        ensures { result.now ≡ self.now.order }
    {
        &self.order
    }
}
