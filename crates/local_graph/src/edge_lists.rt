//! Lists of edges, one behind another in one vector.

ghost use Rattle.std.specs.Prelude.{◌≡◌, ◌<◌, length, IfOk};
ghost use Rattle.local_graph.specs.inner.Graph.{lists_of, AreWithin, edges_at, edge_at};

use crate::edges::{EdgeList, Edges};
use crate::graph::Edge;
use crate::narrow::narrow;
use std::alloc::AllocError;
use std::marker::Model;

/// Where a list stands: from `start` on, and before `end`.
#[derive(Clone, Copy)]
pub(crate) struct Span {
    pub(crate) start: u32,
    pub(crate) end: u32,
}

impl Span {
    /// Where a list stands from one place on and before another. Want of memory where these don't fit in four bytes.
    pub(crate) fn between(start: usize, end: usize) -> Result<Span, AllocError>
        ensures { IfOk result (λ span. span ≡ record { start = start; end = end }) }
    {
        Ok(Span {
            start: narrow(start)?,
            end: narrow(end)?,
        })
    }
}

/// The edges of each position.
#[derive(Drop)]
pub(crate) struct EdgeLists {
    edges: EdgeList,
    spans: Vec<Span>,
}

impl Model for EdgeLists {
    ghost use Rattle.std.specs.Prelude.{List, length};
    ghost use Rattle.local_graph.specs.declared.graph.Edge.{Edge};
    ghost use Rattle.local_graph.specs.inner.Graph.{lists_of, AreWithin};

    ghost Value = { List (List Edge) };

    ghost view = { λ l. lists_of l.edges l.spans.items };

    ghost invariant = { λ l. AreWithin (length l.edges) l.spans.items };
}

impl EdgeLists {
    /// The lists that spans name, one for each.
    pub(crate) fn of(edges: EdgeList, spans: Vec<Span>) -> EdgeLists
        requires { AreWithin (length edges) spans.items }
        ensures { result ≡ lists_of edges spans.items }
    {
        EdgeLists { edges, spans }
    }

    /// The number of lists.
    pub(crate) fn len(&self) -> usize
        ensures { result ≡ length self.now }
    {
        self.spans.len()
    }

    /// The list at a place.
    pub(crate) fn at(&self, place: usize) -> Edges<'_>
        requires { place < length self.now }
        ensures { result ≡ edges_at self.now place }
    {
        let span = self.spans[place];
        self.edges.part(span.start as usize, span.end as usize)
    }

    /// The list at a place, or none past the last.
    pub(crate) fn any_at(&self, place: usize) -> Edges<'_> {
        if place < self.len() {
            return self.at(place);
        }
        Edges::none()
    }

    /// The edge with a number in the list at a place.
    pub(crate) fn edge(&self, place: usize, number: usize) -> Edge
        requires { number < length (edges_at self.now place) }
        ensures { result ≡ edge_at self.now place number }
    {
        self.at(place).get(number)
    }
}
