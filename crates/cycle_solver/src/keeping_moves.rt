//! The first move that keeps winning with the budgets that it leaves, and what a move uses up of them.

ghost use Rattle.std.specs.Prelude.{◌≡◌, ◌<◌, ◌↔◌, IfSome, IsTrue, length};
ghost use Rattle.whole_rules.specs.declared.states.Move.{Move};
ghost use Rattle.whole_rules.specs.WholeGame.{IsMove, Whole};
ghost use Rattle.sum_outcome.specs.Memo.{Fits};
ghost use Rattle.whole_budgets.specs.EnginePlay.{AreListedAfter};
ghost use Rattle.cycle_solver.specs.Changes.{IsChange, IsLeft, IsSomeChange, budgets_after};
ghost use Rattle.cycle_solver.specs.Held.{AreSummedWith, IsSeen, IsSeenFor, enough};
ghost use Rattle.cycle_solver.specs.Keeping.{IsFirstOf, IsFirstStoneOf, Keeps};

use crate::asking::{ENOUGH, Present, fill, wins_sum};
use crate::changes::{Change, change_of, put_back, put_change};
use crate::least_budgets::fill_with;
use game_store::GameId;
use go_grid::Point;
use sum_outcome::Search;
use whole_rules::Move;

/// What a change leaves of the budget of the stone's region, if it can be paid for.
fn left_behind(budgets: &[usize], change: Change) -> Option<usize>
    requires known { IfSome change.stone (λ x. x.0 < length budgets.now) }
    ensures { IsLeft change.stone change.uses budgets.now result }
{
    match change.stone {
        None => Some(0),
        Some((k, _place)) => {
            if change.uses {
                budgets[k].checked_sub(1)
            } else {
                Some(budgets[k])
            }
        }
    }
}

/// Puts what is left of its budget into the region of the stone, if there is one.
fn put_left(budgets: &mut [usize], stone: Option<(usize, usize)>, left: usize)
    requires known { IfSome stone (λ x. x.0 < length budgets.old) }
    ensures { budgets.new ≡ budgets_after budgets.old stone left }
{
    if let Some((k, _place)) = stone {
        budgets[k] = left;
    }
}

/// Pays for a move with budgets that it leaves the side to move winning with.
pub(crate) fn pay(present: &Present<'_>, chosen: Move, budgets: &mut [usize])
    requires seen { IsSeen present.now }
    requires many { length budgets.old ≡ length present.now.regions.now }
    requires keeps { Keeps present.now.regions.now present.now.whole.now budgets.old chosen }
    ensures { (t : Whole) → IsMove present.now.whole.now chosen t
        → AreListedAfter present.now.regions.now present.now.whole.now chosen t
        budgets.old budgets.new }
{
    let Some(change) = change_of(present, chosen) else {
        return;
    };
    if let Some(left) = left_behind(budgets, change) {
        put_left(budgets, change.stone, left);
    }
}

/// Whether a change keeps the side to move winning. The sum has that side's values with the budgets.
fn change_keeps(
    present: &Present<'_>,
    search: &mut Search,
    sum: &mut [GameId],
    budgets: &[usize],
    change: Change,
) -> bool
    requires seen { IsSeen present.now }
    requires many { length budgets.now ≡ length present.now.regions.now }
    requires summed { AreSummedWith present.now.games.now present.now.places.now
        present.now.whole.now.side budgets.now sum.old }
    requires change { IsSomeChange present.now change }
    requires fits { Fits present.now.store.now search.old }
    ensures keeps { (m : Move) → IsChange present.now m change → IsTrue result
        ↔ Keeps present.now.regions.now present.now.whole.now budgets.now m }
    ensures same { sum.new ≡ sum.old }
    ensures fits { Fits present.now.store.now search.new }
{
    let Some(left) = left_behind(budgets, change) else {
        return false;
    };
    let side = present.whole.side();
    let before = put_change(present, sum, change, side, left);
    let next = side.other();
    let wins = wins_sum(present.store, search, sum, change.purses, next, side);
    put_back(sum, before);
    wins
}

/// Whether a move keeps the side to move winning. The sum has that side's values with the budgets.
fn move_keeps(
    present: &Present<'_>,
    search: &mut Search,
    sum: &mut [GameId],
    budgets: &[usize],
    chosen: Move,
) -> bool
    requires seen { IsSeen present.now }
    requires many { length budgets.now ≡ length present.now.regions.now }
    requires summed { AreSummedWith present.now.games.now present.now.places.now
        present.now.whole.now.side budgets.now sum.old }
    requires fits { Fits present.now.store.now search.old }
    ensures keeps { IsTrue result
        ↔ Keeps present.now.regions.now present.now.whole.now budgets.now chosen }
    ensures same { sum.new ≡ sum.old }
    ensures fits { Fits present.now.store.now search.new }
{
    match change_of(present, chosen) {
        None => false,
        Some(change) => change_keeps(present, search, sum, budgets, change),
    }
}

/// The lowest point at which a stone keeps the side to move winning. The sum has that side's values with the budgets.
fn keeping_stone(
    present: &Present<'_>,
    search: &mut Search,
    sum: &mut [GameId],
    budgets: &[usize],
) -> Option<Point>
    requires seen { IsSeen present.now }
    requires many { length budgets.now ≡ length present.now.regions.now }
    requires summed { AreSummedWith present.now.games.now present.now.places.now
        present.now.whole.now.side budgets.now sum.old }
    requires fits { Fits present.now.store.now search.old }
    ensures first { IsFirstStoneOf
        (Keeps present.now.regions.now present.now.whole.now budgets.now) result }
    ensures same { sum.new ≡ sum.old }
    ensures fits { Fits present.now.store.now search.new }
{
    'points: for number in 0..present.whole.board().size().area() {
        let chosen = Move::Stone(Point(number));
        if move_keeps(present, search, sum, budgets, chosen) {
            return Some(Point(number));
        }
    }
    None
}

/// The first move that keeps the side to move winning. The sum has that side's values with the budgets.
fn first_of_sum(
    present: &Present<'_>,
    search: &mut Search,
    sum: &mut [GameId],
    budgets: &[usize],
) -> Option<Move>
    requires seen { IsSeen present.now }
    requires many { length budgets.now ≡ length present.now.regions.now }
    requires summed { AreSummedWith present.now.games.now present.now.places.now
        present.now.whole.now.side budgets.now sum.old }
    requires fits { Fits present.now.store.now search.old }
    ensures first { IsFirstOf
        (Keeps present.now.regions.now present.now.whole.now budgets.now) result }
    ensures same { sum.new ≡ sum.old }
    ensures fits { Fits present.now.store.now search.new }
{
    if let Some(point) = keeping_stone(present, search, sum, budgets) {
        return Some(Move::Stone(point));
    }
    if move_keeps(present, search, sum, budgets, Move::Spend) {
        return Some(Move::Spend);
    }
    if move_keeps(present, search, sum, budgets, Move::Half) {
        return Some(Move::Half);
    }
    None
}

/// The first move that keeps the side to move winning with the budgets: a stone, else a point given back, else the half. The
/// sum has that side's values with a budget that is enough at the beginning and at the end.
pub(crate) fn first_keeping(
    present: &Present<'_>,
    search: &mut Search,
    sum: &mut [GameId],
    budgets: &[usize],
) -> Option<Move>
    requires seen { IsSeenFor present.now present.now.whole.now.side enough sum.old }
    requires many { length budgets.now ≡ length present.now.regions.now }
    requires fits { Fits present.now.store.now search.old }
    ensures first { IsFirstOf
        (Keeps present.now.regions.now present.now.whole.now budgets.now) result }
    ensures same { sum.new ≡ sum.old }
    ensures fits { Fits present.now.store.now search.new }
{
    let side = present.whole.side();
    fill_with(present.games, present.places, side, budgets, sum);
    let first = first_of_sum(present, search, sum, budgets);
    fill(present.games, present.places, side, ENOUGH, sum);
    first
}
