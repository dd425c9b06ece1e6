//! What a move changes of the present state, and who wins behind it.

ghost use Rattle.std.specs.Prelude.{◌≡◌, ◌↔◌, ◌<◌, ℕ, IfSome, IsTrue, MatchOption, length, slice_set};
ghost use Rattle.local_graph.specs.declared.graph.Edge.{Edge};
ghost use Rattle.sum_outcome.specs.Memo.{Fits};
ghost use Rattle.whole_rules.specs.declared.states.Move.{Move};
ghost use Rattle.whole_rules.specs.declared.states.Move.TheVariants.{Stone};
ghost use Rattle.whole_rules.specs.FirstWinningMove.{IsWinner};
ghost use Rattle.whole_rules.specs.WholeGame.{IsLegal, IsMove, Whole};
ghost use Rattle.cycle_solver.specs.Held.{AreSummedBy, HaveEdges, IsSeen, IsSeenFor, IsStoneEdge, enough};
ghost use Rattle.cycle_solver.specs.Changes.{AreBehind, IsChange, IsSomeChange, places_after};

use crate::asking::{ENOUGH, Present, wins_sum};
use crate::shared_games::RegionGames;
use game_store::GameId;
use go_grid::{Colour, Point, Region};
use local_graph::Edge;
use sum_outcome::Search;
use whole_rules::{Move, Purses};

/// What a move changes: for a stone the region in which it is placed and the place of the position that it leads to, and
/// whether it is a capture that returns; and the purses.
#[derive(Clone, Copy)]
pub struct Change {
    pub stone: Option<(usize, usize)>,
    pub uses: bool,
    pub purses: Purses,
}

/// The region and the edge of a stone at a point.
fn stone_edge(
    regions: &[Region],
    games: &RegionGames,
    places: &[usize],
    point: Point,
    colour: Colour,
) -> Option<(usize, Edge)>
    requires { HaveEdges regions.now games.now places.now }
    ensures { MatchOption result ((k : ℕ) (e : Edge)
        → ¬ IsStoneEdge regions.now games.now places.now colour point k e)
        (λ x. IsStoneEdge regions.now games.now places.now colour point x.0 x.1) }
{
    'regions: for k in 0..regions.len() {
        if let Some(edge) = games.stone(k, places[k], &regions[k], point, colour) {
            return Some((k, edge));
        }
    }
    None
}

/// What a stone of the side to move changes. None exactly where the stone is illegal.
fn stone_change(present: &Present<'_>, point: Point) -> Option<Change>
    requires { IsSeen present.now }
    ensures { MatchOption result (¬ IsLegal present.now.whole.now (Stone point))
        (λ x. IsChange present.now (Stone point) x) }
{
    if !present.whole.contested(point) {
        return None;
    }
    let side = present.whole.side();
    let Some((k, edge)) = stone_edge(present.regions, present.games, present.places, point, side)
    else {
        return None;
    };
    Some(Change {
        stone: Some((k, edge.next)),
        uses: present.games.is_returning(k, present.places[k], edge),
        purses: present.whole.purses().paid_in(side, u64::from(edge.taken)),
    })
}

/// What a move of the side to move changes. None exactly where the move is illegal.
pub(crate) fn change_of(present: &Present<'_>, chosen: Move) -> Option<Change>
    requires { IsSeen present.now }
    ensures { MatchOption result (¬ IsLegal present.now.whole.now chosen)
        (λ x. IsChange present.now chosen x) }
{
    let side = present.whole.side();
    match chosen {
        Move::Stone(point) => stone_change(present, point),
        Move::Spend => {
            if present.whole.purse(side) == 0 {
                return None;
            }
            Some(Change {
                stone: None,
                uses: false,
                purses: present.whole.purses().paid_out(side),
            })
        }
        Move::Half => {
            if present.whole.token().is_nobody() {
                return None;
            }
            Some(Change {
                stone: None,
                uses: false,
                purses: present.whole.purses().halved(side),
            })
        }
    }
}

/// Puts a player's value behind a move into the sum, with this budget in the region of the stone. What stood there before
/// comes back, if anything changes.
pub(crate) fn put_change(
    present: &Present<'_>,
    sum: &mut [GameId],
    change: Change,
    player: Colour,
    budget: usize,
) -> Option<(usize, GameId)>
    requires seen { IsSeen present.now }
    requires many { length sum.old ≡ length present.now.games.now }
    requires change { IsSomeChange present.now change }
    ensures put { (before behind : ℕ → ℕ) → AreBehind change.stone budget before behind
        → AreSummedBy present.now.games.now present.now.places.now player before sum.old
        → AreSummedBy present.now.games.now
        (places_after present.now.places.now change.stone) player behind sum.new }
    ensures back { MatchOption result (sum.new ≡ sum.old)
        (λ x. slice_set sum.new x.0 x.1 ≡ sum.old) }
    ensures inside { IfSome result (λ x. x.0 < length sum.new) }
{
    match change.stone {
        None => None,
        Some((k, place)) => {
            let before = sum[k];
            sum[k] = present.games.value_with(k, player, budget, place);
            Some((k, before))
        }
    }
}

/// Puts back what stood in the sum before.
pub(crate) fn put_back(sum: &mut [GameId], before: Option<(usize, GameId)>)
    requires { IfSome before (λ x. x.0 < length sum.old) }
    ensures { MatchOption before (sum.new ≡ sum.old) (λ x. sum.new ≡ slice_set sum.old x.0 x.1) }
{
    if let Some((k, value)) = before {
        sum[k] = value;
    }
}

/// Whether a player wins behind a move. The sum is as before at the end.
pub(crate) fn wins_after(
    present: &Present<'_>,
    search: &mut Search,
    sum: &mut [GameId],
    change: Change,
    player: Colour,
) -> bool
    requires seen { IsSeenFor present.now player enough sum.old }
    requires change { IsSomeChange present.now change }
    requires fits { Fits present.now.store.now search.old }
    ensures wins { (m : Move) (t : Whole) → IsChange present.now m change
        → IsMove present.now.whole.now m t → IsTrue result ↔ IsWinner t player }
    ensures same { sum.new ≡ sum.old }
    ensures fits { Fits present.now.store.now search.new }
{
    let next = present.whole.side().other();
    let before = put_change(present, sum, change, player, ENOUGH);
    let wins = wins_sum(present.store, search, sum, change.purses, next, player);
    put_back(sum, before);
    wins
}
