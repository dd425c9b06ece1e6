//! Edges as they are followed in a layer of values, in which one colour has a budget of captures that return.

ghost use Rattle.std.specs.Prelude.{◌≡◌, ◌<◌, ◌≤◌, true, false, length, slice_index_or, [], IfOk, OnOk, Contains};
ghost use Rattle.go_grid.specs.Region.{Region};
ghost use Rattle.local_graph.specs.ReturnGraph.{IsReturningCaptureAt};
ghost use Rattle.local_value.specs.BudgetValues.{IsReturnGraphOf};
ghost use Rattle.local_value.specs.inner.Layers.{AreMarked, IsFollowed, AreFollowed};

use go_grid::Colour;
use local_graph::{Edge, EdgeList, Edges, MOST_POSITIONS, ReturnGraph};
use std::alloc::{AllocError, Global};

/// The edge of a place as it is followed in a layer, if it may be.
fn followed(
    graph: &ReturnGraph,
    owner: Colour,
    place: usize,
    has_budget: bool,
    edge: &Edge,
) -> Option<Edge>
    requires few { length graph.now.positions ≤ MOST_POSITIONS }
    requires place { place < length graph.now.positions }
    requires next { edge.now.next < length graph.now.positions }
    ensures { IsFollowed owner graph.now.components place (length graph.now.positions) has_budget
        edge.now result }
{
    if !graph.is_returning_capture(place, edge, owner) {
        return Some(*edge);
    }
    if !has_budget {
        return None;
    }
    let next = edge.next + graph.graph().len();
    Some(Edge { next, ..*edge })
}

/// Whether a move of the position at a place is a capture by the owner that returns.
fn has_returning_capture(graph: &ReturnGraph, owner: Colour, place: usize) -> bool
    requires place { place < length graph.now.positions }
    requires next { (e : Edge) → Contains (slice_index_or graph.now.edges place []) e
        → e.next < length graph.now.positions }
    ensures { result ≡ false → (e : Edge)
        → Contains (slice_index_or graph.now.edges place []) e
        → ¬ IsReturningCaptureAt owner graph.now.components place e }
{
    if !graph.has_cycle() {
        return false;
    }
    let edges = graph.graph().edges(place);
    'looking: for number in 0..edges.len() {
        if graph.is_returning_capture(place, &edges.get(number), owner) {
            return true;
        }
    }
    false
}

/// Puts the edges of a place into `followed_edges`, as they are followed in a layer.
fn list_followed(
    graph: &ReturnGraph,
    owner: Colour,
    place: usize,
    has_budget: bool,
    followed_edges: &mut EdgeList,
) -> Result<(), AllocError>
    requires few { length graph.now.positions ≤ MOST_POSITIONS }
    requires place { place < length graph.now.positions }
    requires next { (e : Edge) → Contains (slice_index_or graph.now.edges place []) e
        → e.next < length graph.now.positions }
    ensures { OnOk result (AreFollowed owner graph.now.components place
        (length graph.now.positions) has_budget (slice_index_or graph.now.edges place [])
        followed_edges.new) }
{
    followed_edges.clear();
    let edges = graph.graph().edges(place);
    'listing: for number in 0..edges.len() {
        match followed(graph, owner, place, has_budget, &edges.get(number)) {
            Some(edge) => followed_edges.push(&edge)?,
            None => {}
        }
    }
    Ok(())
}

/// By place whether a move of the position is a capture by the owner that returns.
pub(crate) fn returning_places(
    alloc: Global,
    graph: &ReturnGraph,
    owner: Colour,
) -> Result<Vec<bool>, AllocError>
    requires { (r : Region) × IsReturnGraphOf r graph.now }
    ensures { IfOk result (λ marks. AreMarked owner graph.now marks.items) }
{
    let count = graph.graph().len();
    let mut marks = Vec::with_capacity(alloc, count)?;
    'marking: for place in 0..count {
        marks.reserve(1)?;
        marks.push_reserved(has_returning_capture(graph, owner, place));
    }
    Ok(marks)
}

/// Whether a place has a mark that says no.
fn is_unmarked(marks: &[bool], place: usize) -> bool
    ensures { result ≡ true → slice_index_or marks.now place true ≡ false }
{
    marks.get(place) == Some(&false)
}

/// The edges of a place as they are followed in a layer: the graph's own, where none of them is a returning capture by the owner,
/// and else in the room that is lent.
pub(crate) fn followed_edges<'a>(
    graph: &'a ReturnGraph,
    owner: Colour,
    returning: &[bool],
    place: usize,
    has_budget: bool,
    room: &'a mut EdgeList,
) -> Result<Edges<'a>, AllocError>
    requires returning { AreMarked owner graph.now returning.now }
    requires few { length graph.now.positions ≤ MOST_POSITIONS }
    requires place { place < length graph.now.positions }
    requires next { (e : Edge) → Contains (slice_index_or graph.now.edges place []) e
        → e.next < length graph.now.positions }
    ensures { IfOk result (λ edges. AreFollowed owner graph.now.components place
        (length graph.now.positions) has_budget (slice_index_or graph.now.edges place [])
        edges) }
{
    if is_unmarked(returning, place) {
        return Ok(graph.graph().edges(place));
    }
    list_followed(graph, owner, place, has_budget, room)?;
    Ok(room.all())
}
