//! Depth-first search: an order with ends first, or a cycle.

ghost use Rattle.std.specs.Prelude.{◌≡◌, ℕ, ◌^◌, ◌<◌, ◌≤◌, [], ◌∷◌, ◌++◌, length, map, slice_set, slice_index, slice_index_or, IfOk, IfSome, OnOk, Contains, MatchOption};
ghost use Rattle.local_graph.specs.inner.Built.{IsRooted, move_of};
ghost use Rattle.local_graph.specs.LocalGraph.{IsOrderOfPlaces};
ghost use Rattle.local_graph.specs.inner.MadeWithReturns.{HasWayBack};
ghost use Rattle.local_graph.specs.inner.SearchedFor.{IsSearched};
ghost use Rattle.local_graph.specs.inner.Searching.{Searching, Returns, Stepped, Trail, EndsIn, GoesOn, visit_at, work_left, nodes_of};
ghost use Rattle.local_graph.specs.inner.Graph.{edges_at, edge_at, no_edge};
ghost use Rattle.local_graph.specs.declared.search.Visit.TheVariants.{OnPath, Placed};

use crate::cycle::{CycleList, CycleMove};
use crate::edge_lists::EdgeLists;
use crate::edges::Edges;
use crate::graph::Edge;
use crate::narrow::narrow;
use crate::soonest_cycles::soonest_cycle;
use std::alloc::{AllocError, Global};

/// What a depth-first search knows of a position.
#[derive(Clone, Copy)]
pub(crate) enum Visit {
    /// It was not entered.
    New,
    /// It is on the path from the opening.
    OnPath,
    /// It is in the order.
    Placed,
}

/// A position on the path, and how many of its moves are left to follow. Moves are followed from the last on.
#[derive(Clone, Copy)]
pub(crate) struct Frame {
    pub(crate) node: usize,
    pub(crate) left: usize,
}

/// The state of a depth-first search from the opening.
#[derive(Drop)]
struct Search {
    path: Vec<Frame>,
    visits: Vec<Visit>,
    order: Vec<u32>,
}

/// What a step of the search comes to.
#[derive(Clone, Copy)]
pub(crate) enum Progress {
    /// The search goes on.
    Forward,
    /// A move from the last position of the path to one that is on the path.
    Back(usize),
    /// All is placed.
    Done,
}

/// The number of the last of the first so many edges that doesn't lead to a placed position, or 0 where there is none.
fn last_unplaced(edges: &Edges<'_>, visits: &[Visit], left: usize) -> usize
    requires some { 0 < left }
    requires within { left ≤ length edges.now }
    requires inside { (k : ℕ) → k < left
        → (slice_index_or edges.now k no_edge).next < length visits.now }
    ensures fewer { result < left }
    ensures over { (k : ℕ) → result < k → k < left
        → visit_at visits.now (slice_index_or edges.now k no_edge).next ≡ Placed }
{
    let mut at = left - 1;
    'skipping: while at > 0 {
        match visits[edges.get(at).next] {
            Visit::Placed => at -= 1,
            Visit::OnPath => return at,
            Visit::New => return at,
        }
    }
    at
}

impl Search {
    /// Puts a position that was not met at the end of the path.
    fn enter(&mut self, edges: &EdgeLists, node: usize) -> Result<(), AllocError>
        requires inside { node < length edges.now }
        requires long { length self.old.visits.items ≡ length edges.now }
        ensures visits { self.new.visits.items ≡ slice_set self.old.visits.items node OnPath }
        ensures path { OnOk result (self.new.path.items ≡ self.old.path.items
            ++ record { node = node; left = length (edges_at edges.now node) } ∷ []) }
        ensures order { self.new.order.items ≡ self.old.order.items }
        ensures fits { length (edges_at edges.now node) < 2 ^ 64 }
    {
        self.visits[node] = Visit::OnPath;
        let left = edges.at(node).len();
        self.path.reserve(1)?;
        self.path.push_reserved(Frame { node, left });
        Ok(())
    }

    /// Puts a position at the end of the order.
    fn place(&mut self, node: usize) -> Result<(), AllocError>
        requires { node < length self.old.visits.items }
        ensures visits { self.new.visits.items ≡ slice_set self.old.visits.items node Placed }
        ensures path { self.new.path.items ≡ self.old.path.items }
        ensures order { OnOk result (self.new.order.items ≡ self.old.order.items ++ node ∷ []) }
    {
        self.visits[node] = Visit::Placed;
        self.order.reserve(1)?;
        self.order.push_reserved(narrow(node)?);
        Ok(())
    }

    /// A search with the opening on its path.
    fn begin(alloc: Global, edges: &EdgeLists) -> Result<Search, AllocError>
        requires { IsRooted edges.now }
        ensures { IfOk result (λ s. Searching edges.now s.path.items s.visits.items s.order.items) }
    {
        let mut search = Search {
            path: Vec::new(alloc),
            visits: vec![in alloc; Visit::New; edges.len()]?,
            order: Vec::new(alloc),
        };
        search.enter(edges, 0)?;
        Ok(search)
    }

    /// The path's last position with the next of its moves to follow, and that move: the last that doesn't lead to a placed
    /// position, or its first.
    fn next_frame(&self, edges: &EdgeLists, last: Frame) -> (Frame, Edge)
        requires rooted { IsRooted edges.now }
        requires under_way { Searching edges.now self.now.path.items
            self.now.visits.items self.now.order.items }
        requires ends { EndsIn self.now.path.items last }
        requires more { 0 < last.left }
        ensures frame { GoesOn edges.now self.now.visits.items last result.0 }
        ensures edge { result.1 ≡ edge_at edges.now result.0.node result.0.left }
    {
        let node = last.node;
        let moves = edges.at(node);
        let left = last_unplaced(&moves, &self.visits, last.left);
        (Frame { node, left }, moves.get(left))
    }

    /// Follows the next move of the path's last position.
    fn follow(&mut self, edges: &EdgeLists, last: Frame) -> Result<Progress, AllocError>
        requires rooted { IsRooted edges.now }
        requires under_way { Searching edges.now self.old.path.items
            self.old.visits.items self.old.order.items }
        requires ends { EndsIn self.old.path.items last }
        requires more { 0 < last.left }
        ensures { IfOk result (Stepped edges.now
            (work_left self.old.path.items self.old.visits.items)
            self.new.path.items self.new.visits.items self.new.order.items) }
    {
        let (frame, edge) = self.next_frame(edges, last);
        let next = edge.next;
        let at = self.path.len() - 1;
        self.path[at] = frame;
        match self.visits[next] {
            Visit::Placed => Ok(Progress::Forward),
            Visit::OnPath => Ok(Progress::Back(next)),
            Visit::New => {
                self.enter(edges, next)?;
                Ok(Progress::Forward)
            }
        }
    }

    /// Places the last position of the path, or follows its next move.
    fn step(&mut self, edges: &EdgeLists) -> Result<Progress, AllocError>
        requires rooted { IsRooted edges.now }
        requires under_way { Searching edges.now self.old.path.items
            self.old.visits.items self.old.order.items }
        ensures { IfOk result (Stepped edges.now
            (work_left self.old.path.items self.old.visits.items)
            self.new.path.items self.new.visits.items self.new.order.items) }
    {
        let Some(last) = self.path.last().copied() else {
            return Ok(Progress::Done);
        };
        if last.left > 0 {
            return self.follow(edges, last);
        }
        self.path.pop();
        self.place(last.node)?;
        Ok(Progress::Forward)
    }
}

/// What a search gives: an order, or a cycle and where it returns to.
#[derive(Drop)]
pub(crate) enum Searched {
    Order(Vec<u32>),
    Cycle(CycleList, usize),
}

/// The place of a position on a path.
fn place_on(path: &[Frame], node: usize) -> usize
    requires { Contains (nodes_of path.now) node }
    ensures inside { result < length path.now }
    ensures there { slice_index (nodes_of path.now) result ≡ node }
{
    let mut place = 0;
    'looking: while path[place].node != node {
        place += 1;
    }
    place
}

/// The moves along a path, with one from its last position.
fn moves_along(
    alloc: Global,
    edges: &EdgeLists,
    path: &[Frame],
    last: usize,
) -> Result<CycleList, AllocError>
    requires { Trail edges.now 0 path.now last }
    ensures { IfOk result (λ moves. moves
        ≡ map (λ f. move_of (edge_at edges.now f.node f.left)) path.now) }
{
    let mut moves = CycleList::new(alloc);
    for frame in path {
        let edge = edges.edge(frame.node, frame.left);
        moves.push(CycleMove {
            colour: edge.colour,
            place: edge.place,
        })?;
    }
    Ok(moves)
}

/// The cycle of a path that returns to a position on it.
pub(crate) fn cycle_of(
    alloc: Global,
    edges: &EdgeLists,
    path: &[Frame],
    last: usize,
) -> Result<Searched, AllocError>
    requires { Returns edges.now path.now last }
    ensures { IfOk result (IsSearched edges.now) }
{
    let start = place_on(path, last);
    let moves = moves_along(alloc, edges, path, last)?;
    Ok(Searched::Cycle(moves, start))
}

/// An order of all positions in which each edge leads to an earlier one, or a cycle.
pub(crate) fn search_from_opening(alloc: Global, edges: &EdgeLists) -> Result<Searched, AllocError>
    requires { IsRooted edges.now }
    ensures { IfOk result (IsSearched edges.now) }
{
    let mut search = Search::begin(alloc, edges)?;
    'searching: loop {
        match search.step(edges)? {
            Progress::Forward => {}
            Progress::Back(node) => return soonest_cycle(alloc, edges, &search.path, node),
            Progress::Done => return Ok(Searched::Order(search.order)),
        }
    }
}

/// An order of all positions in which each edge leads to an earlier one, if there is no cycle.
fn order_from_opening(alloc: Global, edges: &EdgeLists) -> Result<Option<Vec<u32>>, AllocError>
    requires { IsRooted edges.now }
    ensures { IfOk result (λ found. MatchOption found (HasWayBack edges.now)
        (λ order. IsOrderOfPlaces edges.now order.items)) }
{
    let mut search = Search::begin(alloc, edges)?;
    'searching: loop {
        match search.step(edges)? {
            Progress::Forward => {}
            Progress::Back(_node) => return Ok(None),
            Progress::Done => return Ok(Some(search.order)),
        }
    }
}

/// The order that was found, or one that a search finds, if there is no cycle.
pub(crate) fn order_or_search(
    alloc: Global,
    edges: &EdgeLists,
    order: Option<Vec<u32>>,
) -> Result<Option<Vec<u32>>, AllocError>
    requires rooted { IsRooted edges.now }
    requires ordered { IfSome order (λ o. IsOrderOfPlaces edges.now o.items) }
    ensures { IfOk result (λ found. MatchOption found (HasWayBack edges.now)
        (λ o. IsOrderOfPlaces edges.now o.items)) }
{
    match order {
        Some(order) => Ok(Some(order)),
        None => order_from_opening(alloc, edges),
    }
}
