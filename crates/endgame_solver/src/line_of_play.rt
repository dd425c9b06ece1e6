//! The next stone of the line of play. The best stone in a region that is no number has the threshold of the state, and no
//! stone has a better one: so the first such stone that keeps the threshold is looked for, by one question a stone.

ghost use Rattle.std.specs.Prelude.{◌≡◌, ◌+◌, ◌<◌, ◌≤◌, ◌^◌, ◌-ℤ◌, ◌*ℤ◌, pos, unsigned_abs, ◌↔◌, IfSome, IsTrue, length};
ghost use Rattle.whole_rules.specs.declared.states.Move.TheVariants.{Stone};
ghost use Rattle.whole_rules.specs.WholeGame.{IsLegal};
ghost use Rattle.short_games.specs.Tree.{tree_at};
ghost use Rattle.short_games.specs.Number.{IsNumberTree};
ghost use Rattle.sum_outcome.specs.Memo.{Fits};
ghost use Rattle.endgame_solver.specs.SumGame.{AreModest, balance};
ghost use Rattle.endgame_solver.specs.inner.Line.{TellsKeeping, TellsNext, last_won};
ghost use Rattle.endgame_solver.specs.inner.Views.{IsSeen};

use crate::balance::{balance_halves, of_halves};
use crate::winning_moves::{Present, loses_with, stone_edge, value_seen};
use dyadic_num::Dyadic;
use game_store::{Form, GameId, Store};
use go_grid::{Colour, Point};
use sum_outcome::Search;
use whole_rules::Purses;

/// Whether a form is a number.
fn is_number(store: &Store, id: GameId) -> bool
    requires { id < length store.now }
    ensures { IsTrue result ↔ IsNumberTree (tree_at store.now id) }
{
    match store.node(id) {
        Form::Number(_) => true,
        Form::Options { .. } => false,
    }
}

/// How many halves of a point the last komi with which this player wins, to move first, is above the komi, where the
/// threshold is so many above it.
fn last_above(side: Colour, beyond: i64) -> i64
    requires { unsigned_abs beyond ≤ 2 ^ 46 }
    ensures last { result ≡ last_won side beyond }
    ensures small { unsigned_abs result ≤ 2 ^ 46 + 1 }
{
    match side {
        Colour::Black => beyond,
        Colour::White => beyond + 1,
    }
}

/// What is left of a balance in halves of a point.
fn rest_of(balance: i128, above: i64) -> i128
    requires balance { unsigned_abs balance ≤ 2 ^ 45 }
    requires above { unsigned_abs above ≤ 2 ^ 46 + 1 }
    ensures left { result ≡ balance -ℤ above }
    ensures small { unsigned_abs result ≤ 2 ^ 47 }
{
    balance - i128::from(above)
}

/// The balance of the purses with the last komi with which this player wins.
fn last_balance(purses: Purses, side: Colour, beyond: i64) -> Dyadic
    requires modest { AreModest purses }
    requires small { unsigned_abs beyond ≤ 2 ^ 46 }
    ensures { result ≡ (balance purses -ℤ last_won side beyond) *ℤ pos (2 ^ 59) }
{
    let above = last_above(side, beyond);
    of_halves(rest_of(balance_halves(purses), above))
}

/// Whether a stone of the side to move at the point is in a region that is no number, and leaves the threshold as it is,
/// which is so many halves of a point above the komi.
fn keeps_threshold(
    present: &Present<'_>,
    search: &mut Search,
    sum: &mut [GameId],
    point: Point,
    beyond: i64,
) -> bool
    requires seen { IsSeen present.now sum.old }
    requires fits { Fits present.now.store.now search.old }
    requires small { unsigned_abs beyond ≤ 2 ^ 46 }
    ensures keeps { TellsKeeping present.now.regions.now present.now.whole.now beyond point result }
    ensures legal { IsTrue result → IsLegal present.now.whole.now (Stone point) }
    ensures same { sum.new ≡ sum.old }
    ensures fits { Fits present.now.store.now search.new }
{
    if !present.whole.contested(point) {
        return false;
    }
    let side = present.whole.side();
    let Some((k, edge)) = stone_edge(present.regions, present.book, present.places, point, side)
    else {
        return false;
    };
    let cold = is_number(present.store, sum[k]);
    if cold {
        return false;
    }
    let purses = present.whole.purses().paid_in(side, u64::from(edge.taken));
    loses_with(
        present.store,
        search,
        sum,
        k,
        value_seen(present.book, k, edge.next),
        last_balance(purses, side, beyond),
        side.other(),
    )
}

/// The next stone of the line of play, where the threshold is so many halves of a point above the komi: of the best stones
/// in regions that are no numbers the first by point. None where each region is a number.
pub(crate) fn next_stone(
    present: &Present<'_>,
    search: &mut Search,
    sum: &mut [GameId],
    beyond: i64,
) -> Option<Point>
    requires seen { IsSeen present.now sum.old }
    requires fits { Fits present.now.store.now search.old }
    requires small { unsigned_abs beyond ≤ 2 ^ 46 }
    ensures next { TellsNext present.now.regions.now present.now.whole.now beyond result }
    ensures legal { IfSome result (λ p. IsLegal present.now.whole.now (Stone p)) }
    ensures same { sum.new ≡ sum.old }
    ensures fits { Fits present.now.store.now search.new }
{
    let area = present.whole.board().size().area();
    'points: for number in 0..area {
        let point = Point(number);
        if keeps_threshold(present, search, sum, point, beyond) {
            return Some(point);
        }
    }
    None
}
