//! Graphs with edges of a quarter of their length.

ghost use Rattle.std.specs.Prelude.{◌≡◌, ◌<◌, length, slice_index, slice_index_or, []};

use crate::edge_lists::EdgeLists;
use crate::edges::Edges;
use local_play::Local;
use std::marker::Model;

/// All positions that local moves reach from an opening, and their moves. Contracts see what they see of a `Graph`.
#[derive(Drop)]
pub struct CompactGraph {
    positions: Vec<u64>,
    edges: EdgeLists,
    order: Vec<u32>,
}

impl Model for CompactGraph {
    ghost use Rattle.std.specs.Prelude.{◌≡◌, length};
    ghost use Rattle.local_graph.specs.Graph.{Graph};

    ghost Value = { Graph };

    ghost view = { λ g. record {
      positions = g.positions.items;
      edges = g.edges;
      order = g.order.items;
    } };

    ghost invariant = { λ g. length g.edges ≡ length g.positions.items };
}

impl CompactGraph {
    ghost use Rattle.local_graph.specs.Graph.{Graph};

    /// A graph of positions, their edges and an order of them.
    pub(crate) fn new(positions: Vec<u64>, edges: EdgeLists, order: Vec<u32>) -> CompactGraph
        requires { length edges ≡ length positions.items }
        ensures { result
            ≡ record { positions = positions.items; edges = edges; order = order.items } }
    {
        CompactGraph {
            positions,
            edges,
            order,
        }
    }

    /// The number of positions.
    pub fn len(&self) -> usize
        ensures { result ≡ length self.now.positions }
    {
        self.positions.len()
    }

    /// The position at a place. The opening stands at 0.
    pub fn position(&self, place: usize) -> Local
        requires { place < length self.now.positions }
        ensures { result ≡ slice_index self.now.positions place }
    {
        Local(self.positions[place])
    }

    /// The moves of the position at a place, Black's by place and then White's.
    pub fn edges(&self, place: usize) -> Edges<'_>
        requires { place < length self.now.positions }
        ensures { result ≡ slice_index_or self.now.edges place [] }
    {
        self.edges.at(place)
    }

    /// The places of all positions, each after those that its moves lead to.
    pub fn order(&self) -> &[u32]
        ensures { result.now ≡ self.now.order }
    {
        &self.order
    }

    /// The edges of each position.
    pub(crate) fn edge_lists(&self) -> &EdgeLists
        ensures value { result.now ≡ self.now.edges }
        ensures beside { length self.now.edges ≡ length self.now.positions }
    {
        &self.edges
    }
}
