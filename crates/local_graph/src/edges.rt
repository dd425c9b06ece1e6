//! Lists of edges that take 4 bytes each, as long as the edges fit.

ghost use Rattle.std.specs.Prelude.{◌≡◌, ◌<◌, ◌≤◌, ◌-◌, [], ◌∷◌, ◌++◌, length, take, drop, slice_index_or, OnOk, OnErr};
ghost use Rattle.local_graph.specs.inner.Graph.{no_edge};

use crate::graph::Edge;
use crate::short_edge::ShortEdge;
use std::alloc::{AllocError, Global};
use std::marker::Model;

/// Edges that grow in number. Contracts see the list of them. The first that doesn't fit in 4 bytes and those behind it
/// stand at full length.
#[derive(Drop)]
pub struct EdgeList {
    short: Vec<ShortEdge>,
    long: Vec<Edge>,
}

impl Model for EdgeList {
    ghost use Rattle.std.specs.Prelude.{List, ◌++◌};
    ghost use Rattle.local_graph.specs.declared.graph.Edge.{Edge};

    ghost Value = { List Edge };

    ghost view = { λ l. l.short.items ++ l.long.items };
}

/// A part of a list of edges, lent. Contracts see the list of them.
#[derive(Drop)]
pub struct Edges<'a> {
    short: &'a [ShortEdge],
    long: &'a [Edge],
}

impl<'a> Model for Edges<'a> {
    ghost use Rattle.std.specs.Prelude.{List, ◌++◌};
    ghost use Rattle.local_graph.specs.declared.graph.Edge.{Edge};

    ghost Value = { List Edge };

    ghost view = { λ l. l.short.now ++ l.long.now };
}

impl EdgeList {
    /// No edges.
    pub fn new(alloc: Global) -> EdgeList
        ensures { result ≡ [] }
    {
        EdgeList {
            short: Vec::new(alloc),
            long: Vec::new(alloc),
        }
    }

    /// The number of edges.
    pub fn len(&self) -> usize
        ensures { result ≡ length self.now }
    {
        self.short.len() + self.long.len()
    }

    /// Puts an edge behind the others.
    #[inline(always)]
    pub fn push(&mut self, edge: &Edge) -> Result<(), AllocError>
        ensures behind { OnOk result (self.new ≡ self.old ++ edge.now ∷ []) }
        ensures same { OnErr result (self.new ≡ self.old) }
    {
        if self.long.is_empty() {
            if let Some(short) = ShortEdge::new(edge) {
                return Ok(self.short.push(short)?);
            }
        }
        Ok(self.long.push(*edge)?)
    }

    /// Takes all edges out.
    pub fn clear(&mut self)
        ensures { self.new ≡ [] }
    {
        self.short.clear();
        self.long.clear();
    }

    /// All edges.
    pub fn all(&self) -> Edges<'_>
        ensures { result ≡ self.now }
    {
        Edges {
            short: &self.short,
            long: &self.long,
        }
    }

    /// The edges from one place on and before another.
    pub(crate) fn part(&self, start: usize, end: usize) -> Edges<'_>
        requires rising { start ≤ end }
        requires within { end ≤ length self.now }
        ensures { result ≡ take (end - start) (drop start self.now) }
    {
        let short = self.short.len();
        if end <= short {
            return Edges {
                short: &self.short[start..end],
                long: &[],
            };
        }
        if start >= short {
            return Edges {
                short: &[],
                long: &self.long[start - short..end - short],
            };
        }
        Edges {
            short: &self.short[start..],
            long: &self.long[..end - short],
        }
    }
}

impl<'a> Edges<'a> {
    /// No edges.
    pub(crate) fn none() -> Edges<'a>
        ensures { result ≡ [] }
    {
        Edges {
            short: &[],
            long: &[],
        }
    }

    /// The number of edges.
    pub fn len(&self) -> usize
        ensures { result ≡ length self.now }
    {
        self.short.len() + self.long.len()
    }

    /// The edge with a number, from 0 on.
    #[inline(always)]
    pub fn get(&self, number: usize) -> Edge
        requires { number < length self.now }
        ensures { result ≡ slice_index_or self.now number no_edge }
    {
        if number < self.short.len() {
            return self.short[number].edge();
        }
        self.long[number - self.short.len()]
    }
}
