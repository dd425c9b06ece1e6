//! Who wins the present state, and by which moves: each is asked of the sum of the values that the move leaves.

ghost use Rattle.std.specs.Prelude.{◌≡◌, ℕ, ◌<◌, ◌↔◌, Contains, IfSome, IsTrue, List, MatchOption, length, slice_index, slice_set};
ghost use Rattle.go_grid.specs.declared.grid.Colour.{Colour};
ghost use Rattle.local_graph.specs.declared.graph.Edge.{Edge};
ghost use Rattle.whole_rules.specs.declared.states.Move.TheVariants.{Stone, Spend};
ghost use Rattle.whole_rules.specs.FirstWinningMove.{IsFirstWinning, IsLosing, IsWinning};
ghost use Rattle.game_store.specs.Meaning.{AreIds, pick};
ghost use Rattle.sum_outcome.specs.Memo.{Fits};
ghost use Rattle.game_players.specs.Players.{LosesGame};
ghost use Rattle.sum_outcome.specs.Sums.{IsBounded, sum_tree};
ghost use Rattle.endgame_solver.specs.Regions.{IsStoneAt};
ghost use Rattle.endgame_solver.specs.inner.Held.{IsStoneEdge, IsFirstStone};
ghost use Rattle.endgame_solver.specs.inner.Views.{HasGraph, HasValue, IsSeen, ShowsAll, ShowsPlaces, own, seen_graph, seen_ids, view_at};
ghost use Rattle.local_graph.specs.Graph.{Graph};
ghost use Rattle.local_graph.specs.inner.Graph.{edges_at};

use crate::balance::balance_of;
use crate::view_book::Book;
use crate::views::View;
use dyadic_num::Dyadic;
use game_store::{GameId, Store};
use go_grid::{Colour, Point, Region};
use local_graph::{Edge, Edges};
use local_value::Values;
use sum_outcome::Search;
use whole_rules::{Move, Whole};

/// The present state, and what is known of its regions.
#[derive(Clone, Copy)]
pub(crate) struct Present<'a> {
    pub whole: &'a Whole,
    pub regions: &'a [Region],
    pub book: &'a Book,
    pub places: &'a [usize],
    pub store: &'a Store,
}

/// Whether the point stands at the place.
fn is_at(points: &[Point], place: usize, point: Point) -> bool
    ensures { IsTrue result ↔ ((place < length points.now)
        × (slice_index points.now place ≡ point)) }
{
    match points.get(place) {
        Some(other) => other.0 == point.0,
        None => false,
    }
}

/// Whether the edge is that of a stone of the player at the point.
pub fn is_stone_at(region: &Region, edge: Edge, point: Point, colour: Colour) -> bool
    ensures { IsTrue result ↔ IsStoneAt region.now colour point edge }
{
    if !edge.colour.is(colour) {
        return false;
    }
    is_at(&region.points, usize::from(edge.place), point)
}

/// The move of a stone of the player at a point of a region, among those that the edges stand for.
fn edge_in(
    region: &Region,
    view: View,
    edges: &Edges<'_>,
    point: Point,
    colour: Colour,
) -> Option<Edge>
    requires { (f : Edge) → Contains edges.now f → f.place < 32 }
    ensures { MatchOption result ((f : Edge) → Contains edges.now f
        → ¬ IsStoneAt region.now colour point (own view f))
        (λ e. (f : Edge) × Contains edges.now f × (e ≡ own view f)
        × IsStoneAt region.now colour point e) }
{
    'edges: for number in 0..edges.len() {
        let own = view.own(edges.get(number));
        if is_stone_at(region, own, point, colour) {
            return Some(own);
        }
    }
    None
}

/// The edges of the graph that a region sees, of the position at a place.
fn edges_seen(book: &Book, region: usize, place: usize) -> Edges<'_>
    requires view { region < length book.now.views.items }
    requires graph { (view_at book.now.views.items region).graph < length book.now.graphs.items }
    requires place { place < length (seen_graph book.now region).positions }
    ensures { result ≡ edges_at (seen_graph book.now region).edges place }
{
    let view = view_of(book, region);
    book.graphs[view.graph].edges(place)
}

/// How a region sees the book.
fn view_of(book: &Book, region: usize) -> View
    requires { region < length book.now.views.items }
    ensures { result ≡ view_at book.now.views.items region }
{
    book.views[region]
}

/// The region and the edge of a stone at a point.
pub(crate) fn stone_edge(
    regions: &[Region],
    book: &Book,
    places: &[usize],
    point: Point,
    colour: Colour,
) -> Option<(usize, Edge)>
    requires { ShowsPlaces regions.now book.now places.now }
    ensures known { IfSome result (λ x. x.0 < length regions.now) }
    ensures edges { (graphs : List Graph) (values : List (List ℕ))
        → ShowsAll book.now graphs values (length regions.now)
        → MatchOption result ((k : ℕ) (e : Edge)
        → ¬ IsStoneEdge regions.now graphs places.now colour point k e)
        (λ x. IsStoneEdge regions.now graphs places.now colour point x.0 x.1) }
{
    'regions: for k in 0..regions.len() {
        let region = &regions[k];
        let view = view_of(book, k);
        let edges = edges_seen(book, k, places[k]);
        if let Some(edge) = edge_in(region, view, &edges, point, colour) {
            return Some((k, edge));
        }
    }
    None
}

/// The value of the position at a place.
pub(crate) fn value_at(values: &Values, place: usize) -> GameId
    requires { place < length values.now }
    ensures { result ≡ slice_index values.now place }
{
    values.as_slice()[place]
}

/// The value of a region's position at a place.
pub(crate) fn value_seen(book: &Book, region: usize, place: usize) -> GameId
    requires { HasValue book.now region place }
    ensures { result ≡ slice_index (seen_ids book.now region) place }
{
    let view = view_of(book, region);
    value_at(&book.values[view.values], place)
}

/// The number of a region's positions.
pub(crate) fn positions_seen(book: &Book, region: usize) -> usize
    requires { HasGraph book.now region }
    ensures { result ≡ length (seen_graph book.now region).positions }
{
    let view = view_of(book, region);
    book.graphs[view.graph].len()
}

/// Whether the player who moves first loses the sum with this game at the place, beside a number. The sum is as before at the
/// end.
pub(crate) fn loses_with(
    store: &Store,
    search: &mut Search,
    sum: &mut [GameId],
    place: usize,
    after: GameId,
    number: Dyadic,
    first: Colour,
) -> bool
    requires place { place < length sum.old }
    requires ids { AreIds store.now (slice_set sum.old place after) }
    requires bounds { IsBounded (pick store.now (slice_set sum.old place after)) number }
    requires fits { Fits store.now search.old }
    ensures answer { IsTrue result
        ↔ LosesGame first (sum_tree store.now (slice_set sum.old place after) number) }
    ensures same { sum.new ≡ sum.old }
    ensures fits { Fits store.now search.new }
{
    let before = sum[place];
    sum[place] = after;
    let lost = search.loses(store, sum, number, first);
    sum[place] = before;
    lost
}

/// Whether a stone of the side to move at the point wins. The sum is as before at the end.
pub(crate) fn stone_wins(
    present: &Present<'_>,
    search: &mut Search,
    sum: &mut [GameId],
    point: Point,
) -> bool
    requires seen { IsSeen present.now sum.old }
    requires fits { Fits present.now.store.now search.old }
    ensures wins { IsTrue result ↔ IsWinning present.now.whole.now (Stone point) }
    ensures same { sum.new ≡ sum.old }
    ensures fits { Fits present.now.store.now search.new }
{
    if !present.whole.contested(point) {
        return false;
    }
    let side = present.whole.side();
    let Some((k, edge)) = stone_edge(present.regions, present.book, present.places, point, side)
    else {
        return false;
    };
    let purses = present.whole.purses().paid_in(side, u64::from(edge.taken));
    loses_with(
        present.store,
        search,
        sum,
        k,
        value_seen(present.book, k, edge.next),
        balance_of(purses),
        side.other(),
    )
}

/// Whether it wins to give back a point.
pub(crate) fn spend_wins(present: &Present<'_>, search: &mut Search, sum: &mut [GameId]) -> bool
    requires seen { IsSeen present.now sum.old }
    requires fits { Fits present.now.store.now search.old }
    ensures wins { IsTrue result ↔ IsWinning present.now.whole.now Spend }
    ensures same { sum.new ≡ sum.old }
    ensures fits { Fits present.now.store.now search.new }
{
    let side = present.whole.side();
    if present.whole.purse(side) == 0 {
        return false;
    }
    let purses = present.whole.purses().paid_out(side);
    search.loses(present.store, sum, balance_of(purses), side.other())
}

/// Whether the side to move loses.
pub(crate) fn mover_loses(present: &Present<'_>, search: &mut Search, sum: &mut [GameId]) -> bool
    requires seen { IsSeen present.now sum.old }
    requires fits { Fits present.now.store.now search.old }
    ensures loses { IsTrue result ↔ IsLosing present.now.whole.now }
    ensures same { sum.new ≡ sum.old }
    ensures fits { Fits present.now.store.now search.new }
{
    let side = present.whole.side();
    let balance = balance_of(present.whole.purses());
    search.loses(present.store, sum, balance, side)
}

/// The lowest point at which a stone wins.
pub(crate) fn winning_stone(
    present: &Present<'_>,
    search: &mut Search,
    sum: &mut [GameId],
) -> Option<Point>
    requires seen { IsSeen present.now sum.old }
    requires fits { Fits present.now.store.now search.old }
    ensures first { IsFirstStone present.now.whole.now result }
    ensures same { sum.new ≡ sum.old }
    ensures fits { Fits present.now.store.now search.new }
{
    'points: for number in 0..present.whole.board().size().area() {
        if stone_wins(present, search, sum, Point(number)) {
            return Some(Point(number));
        }
    }
    None
}

/// The first move that wins: a stone, else a point given back, else the half, which needs no question where the side to
/// move wins by no other move.
pub(crate) fn first_winning_move(
    present: &Present<'_>,
    search: &mut Search,
    sum: &mut [GameId],
) -> Option<Move>
    requires seen { IsSeen present.now sum.old }
    requires fits { Fits present.now.store.now search.old }
    ensures first { IsFirstWinning present.now.whole.now result }
    ensures same { sum.new ≡ sum.old }
    ensures fits { Fits present.now.store.now search.new }
{
    if mover_loses(present, search, sum) {
        return None;
    }
    if let Some(point) = winning_stone(present, search, sum) {
        return Some(Move::Stone(point));
    }
    if spend_wins(present, search, sum) {
        return Some(Move::Spend);
    }
    Some(Move::Half)
}
