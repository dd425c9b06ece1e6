//! The first move behind which the other side isn't the winner.

ghost use Rattle.std.specs.Prelude.{◌≡◌, ◌↔◌, IsTrue};
ghost use Rattle.go_grid.specs.Board.{other};
ghost use Rattle.sum_outcome.specs.Memo.{Fits};
ghost use Rattle.whole_budgets.specs.EnginePlay.{HoldsOff};
ghost use Rattle.cycle_solver.specs.Held.{IsSeenFor, enough};
ghost use Rattle.cycle_solver.specs.Keeping.{IsFirstOf, IsFirstStoneOf};

use crate::asking::{Present, is_not};
use crate::changes::{change_of, wins_after};
use game_store::GameId;
use go_grid::Point;
use sum_outcome::Search;
use whole_rules::Move;

/// Whether the other side isn't the winner behind a move. The sum has the other side's values.
fn move_holds(present: &Present<'_>, search: &mut Search, sum: &mut [GameId], chosen: Move) -> bool
    requires seen { IsSeenFor present.now (other present.now.whole.now.side) enough sum.old }
    requires fits { Fits present.now.store.now search.old }
    ensures holds { IsTrue result ↔ HoldsOff present.now.whole.now chosen }
    ensures same { sum.new ≡ sum.old }
    ensures fits { Fits present.now.store.now search.new }
{
    let theirs = present.whole.side().other();
    match change_of(present, chosen) {
        None => false,
        Some(change) => is_not(wins_after(present, search, sum, change, theirs)),
    }
}

/// The lowest point at which a stone holds off. The sum has the other side's values.
fn holding_stone(present: &Present<'_>, search: &mut Search, sum: &mut [GameId]) -> Option<Point>
    requires seen { IsSeenFor present.now (other present.now.whole.now.side) enough sum.old }
    requires fits { Fits present.now.store.now search.old }
    ensures first { IsFirstStoneOf (HoldsOff present.now.whole.now) result }
    ensures same { sum.new ≡ sum.old }
    ensures fits { Fits present.now.store.now search.new }
{
    'points: for number in 0..present.whole.board().size().area() {
        let chosen = Move::Stone(Point(number));
        if move_holds(present, search, sum, chosen) {
            return Some(Point(number));
        }
    }
    None
}

/// The first move behind which the other side isn't the winner: a stone, else a point given back, else the half. The sum has
/// the other side's values.
pub(crate) fn first_holding(
    present: &Present<'_>,
    search: &mut Search,
    sum: &mut [GameId],
) -> Option<Move>
    requires seen { IsSeenFor present.now (other present.now.whole.now.side) enough sum.old }
    requires fits { Fits present.now.store.now search.old }
    ensures first { IsFirstOf (HoldsOff present.now.whole.now) result }
    ensures same { sum.new ≡ sum.old }
    ensures fits { Fits present.now.store.now search.new }
{
    if let Some(point) = holding_stone(present, search, sum) {
        return Some(Move::Stone(point));
    }
    if move_holds(present, search, sum, Move::Spend) {
        return Some(Move::Spend);
    }
    if move_holds(present, search, sum, Move::Half) {
        return Some(Move::Half);
    }
    None
}
