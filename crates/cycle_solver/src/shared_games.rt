//! What is asked of the games of regions. Regions of one shape have one in common, which each sees in its own way.

ghost use Rattle.std.specs.Prelude.{◌≡◌, ◌+◌, ◌<◌, ◌↔◌, IsTrue, MatchOption, Contains, length, slice_index};
ghost use Rattle.local_graph.specs.declared.graph.Edge.{Edge};
ghost use Rattle.local_graph.specs.inner.Graph.{edges_at};
ghost use Rattle.local_graph.specs.ReturnGraph.{IsReturningCaptureAt};
ghost use Rattle.endgame_solver.specs.Regions.{IsStoneAt};
ghost use Rattle.cycle_solver.specs.GameLists.{game_at, layers_for};
ghost use Rattle.cycle_solver.specs.Held.{ids_with};
ghost use Rattle.cycle_solver.specs.Turned.{id_after, own};

use crate::book::Book;
use crate::negatives::negative_in;
use crate::region_game::values_for;
use crate::views::{View, colour_after};
use endgame_solver::is_stone_at;
use game_store::GameId;
use go_grid::{Colour, Point, Region};
use local_graph::{Edge, Edges};
use std::marker::Model;

/// A game for each region, by its number. Contracts see the list of them.
#[derive(Drop)]
pub struct RegionGames {
    pub(crate) book: Book,
}

impl Model for RegionGames {
    ghost use Rattle.std.specs.Prelude.{◌<◌, All, List, length};
    ghost use Rattle.cycle_solver.specs.declared.region_game.RegionGame.{RegionGame};
    ghost use Rattle.cycle_solver.specs.Turned.{shown};

    ghost Value = { List RegionGame };

    ghost view = { λ s. shown s.book };

    ghost invariant = { λ s. All (λ v. v.game < length s.book.games.items) s.book.views.items };
}

/// The move of a stone of the player at a point of a region, among those that the edges stand for.
fn edge_in(
    region: &Region,
    view: &View,
    edges: &Edges<'_>,
    point: Point,
    colour: Colour,
) -> Option<Edge>
    ensures { MatchOption result ((f : Edge) → Contains edges.now f
        → ¬ IsStoneAt region.now colour point (own view.now f))
        (λ e. (f : Edge) × Contains edges.now f × (e ≡ own view.now f)
        × IsStoneAt region.now colour point e) }
{
    'edges: for number in 0..edges.len() {
        let own = view.own(edges.get(number));
        if is_stone_at(region, own, point, colour) {
            return Some(own);
        }
    }
    None
}

/// The id, or that of the negative where colours are exchanged.
fn id_after(colours: bool, known: &[Option<GameId>], id: GameId) -> GameId
    ensures { result ≡ id_after colours known.now id }
{
    if colours { negative_in(known, id) } else { id }
}

impl RegionGames {
    /// The number of regions.
    pub fn len(&self) -> usize
        ensures { result ≡ length self.now }
    {
        self.book.views.len()
    }

    /// The number of positions of a region.
    pub fn positions(&self, number: usize) -> usize
        requires { number < length self.now }
        ensures { result ≡ length (game_at self.now number).graph.positions }
    {
        let view = &self.book.views[number];
        self.book.games[view.game].graph.graph().len()
    }

    /// The value of a region's position at a place, with a budget.
    pub fn value_with(&self, number: usize, player: Colour, budget: usize, place: usize) -> GameId
        requires number { number < length self.now }
        requires place { place < length (ids_with (game_at self.now number) player budget) }
        ensures { result ≡ slice_index (ids_with (game_at self.now number) player budget) place }
    {
        let view = &self.book.views[number];
        let game = &self.book.games[view.game];
        let values = values_for(game, colour_after(view.colours, player));
        id_after(
            view.colours,
            &self.book.negatives,
            GameId::from(values.with(budget).as_slice()[place]),
        )
    }

    /// The budget beyond which a region's values don't change.
    pub fn steady_budget(&self, number: usize, player: Colour) -> usize
        requires { number < length self.now }
        ensures { result + 1 ≡ length (layers_for (game_at self.now number) player) }
    {
        let view = &self.book.views[number];
        let game = &self.book.games[view.game];
        values_for(game, colour_after(view.colours, player)).budget()
    }

    /// The move of a stone of the player at a point, in a region's position at a place.
    pub fn stone(
        &self,
        number: usize,
        place: usize,
        region: &Region,
        point: Point,
        colour: Colour,
    ) -> Option<Edge>
        requires number { number < length self.now }
        requires place { place < length (game_at self.now number).graph.positions }
        ensures { MatchOption result
            ((e : Edge) → Contains (edges_at (game_at self.now number).graph.edges place) e
            → ¬ IsStoneAt region.now colour point e)
            (λ e. Contains (edges_at (game_at self.now number).graph.edges place) e
            × IsStoneAt region.now colour point e) }
    {
        let view = &self.book.views[number];
        let edges = self.book.games[view.game].graph.graph().edges(place);
        edge_in(region, view, &edges, point, colour)
    }

    /// Whether a move of a region's position at a place is a capture that returns.
    pub fn is_returning(&self, number: usize, place: usize, edge: Edge) -> bool
        requires number { number < length self.now }
        requires place { place < length (game_at self.now number).graph.positions }
        requires next { edge.next < length (game_at self.now number).graph.positions }
        ensures { IsTrue result ↔ IsReturningCaptureAt edge.colour
            (game_at self.now number).graph.components place edge }
    {
        let view = &self.book.views[number];
        let graph = &self.book.games[view.game].graph;
        graph.is_returning_capture(place, &edge, edge.colour)
    }
}
