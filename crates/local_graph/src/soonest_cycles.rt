//! The cycle that is shown.

ghost use Rattle.std.specs.Prelude.{◌≢◌, ◌↔◌, IfOk, IsTrue, Contains};
ghost use Rattle.std.specs.List.{AllPairs};
ghost use Rattle.local_graph.specs.inner.Built.{IsRooted};
ghost use Rattle.local_graph.specs.inner.SearchedFor.{IsSearched};
ghost use Rattle.local_graph.specs.inner.Searching.{Returns, Trail, nodes_of};

use crate::breadth::soonest_return;
use crate::edge_lists::EdgeLists;
use crate::search::{Frame, Searched, cycle_of};
use std::alloc::{AllocError, Global};

/// Whether the frames lead from the opening to a position.
fn leads_to(edges: &EdgeLists, path: &[Frame], node: usize) -> bool
    requires { IsRooted edges.now }
    ensures { IsTrue result → Trail edges.now 0 path.now node }
{
    let mut at = 0;
    'going: for frame in path {
        if frame.node != at || frame.left >= edges.at(at).len() {
            return false;
        }
        at = edges.edge(at, frame.left).next;
    }
    at == node
}

/// Whether a position is on a path.
fn is_on(path: &[Frame], node: usize) -> bool
    ensures { IsTrue result ↔ Contains (nodes_of path.now) node }
{
    'looking: for frame in path {
        if frame.node == node {
            return true;
        }
    }
    false
}

/// Whether the positions of a path are all different.
fn are_apart(path: &[Frame]) -> bool
    ensures { IsTrue result → AllPairs (λ a b. a ≢ b) (nodes_of path.now) }
{
    'comparing: for (place, frame) in path.iter().enumerate() {
        if is_on(&path[..place], frame.node) {
            return false;
        }
    }
    true
}

/// Whether the frames lead from the opening to a position that is on their path, by different positions.
fn returns_to(edges: &EdgeLists, path: &[Frame], node: usize) -> bool
    requires { IsRooted edges.now }
    ensures { IsTrue result → Returns edges.now path.now node }
{
    leads_to(edges, path, node) && is_on(path, node) && are_apart(path)
}

/// The cycle that comes soonest, where a path returns. What the search by breadth found is checked, and the path's own
/// cycle stands for it where it is none.
pub(crate) fn soonest_cycle(
    alloc: Global,
    edges: &EdgeLists,
    path: &[Frame],
    last: usize,
) -> Result<Searched, AllocError>
    requires rooted { IsRooted edges.now }
    requires returns { Returns edges.now path.now last }
    ensures { IfOk result (IsSearched edges.now) }
{
    let soonest = soonest_return(alloc, edges)?;
    if returns_to(edges, &soonest.path, soonest.node) {
        return cycle_of(alloc, edges, &soonest.path, soonest.node);
    }
    cycle_of(alloc, edges, path, last)
}
