//! By how much a state is won: the least number beside the sum of the present values with which Black wins.

ghost use Rattle.std.specs.Prelude.{◌≡◌, ◌+◌, ◌*◌, ◌<◌, ◌≤◌, ◌^◌, ℤ, pos, ◌+ℤ◌, ◌-ℤ◌, ◌*ℤ◌, ◌<ℤ◌, unsigned_abs, ◌↔◌, [], IsTrue, length};
ghost use Rattle.go_grid.specs.declared.grid.TheConstants.{MOST_POINTS};
ghost use Rattle.short_games.specs.Tree.{Tree, tree_at};
ghost use Rattle.short_games.specs.Number.{num};
ghost use Rattle.short_games.specs.Sum.{◌+ᵍ◌, total};
ghost use Rattle.game_store.specs.Meaning.{pick};
ghost use Rattle.game_canon.specs.Outcomes.{AreWithin};
ghost use Rattle.sum_outcome.specs.Memo.{Fits};
ghost use Rattle.game_players.specs.Players.{LosesGame};
ghost use Rattle.endgame_solver.specs.ModestGames.{AreModestGames, most_value};
ghost use Rattle.endgame_solver.specs.SumGame.{AreModest, balance};
ghost use Rattle.endgame_solver.specs.Thresholds.{BlackWins, IsLeastWin};
ghost use Rattle.endgame_solver.specs.inner.Thresholds.{IsMargin, LiesBetween};
ghost use Rattle.endgame_solver.specs.inner.Views.{IsSeen};

use crate::balance::{balance_halves, of_halves};
use crate::winning_moves::Present;
use dyadic_num::Dyadic;
use game_stops::{left_stop, right_stop};
use game_store::{GameId, Store};
use go_grid::Colour;
use sum_outcome::Search;
use whole_rules::Purses;

/// What the right stops of games add up to, and their left stops, in the parts of a `Dyadic`. The sum of the games is at
/// least each number below the first, and at most each number above the second.
#[derive(Clone, Copy)]
pub(crate) struct StopSums {
    pub right: i128,
    pub left: i128,
}

/// The sum of two numbers.
fn sum_of(one: i128, other: i128) -> i128
    requires { unsigned_abs one + unsigned_abs other < 2 ^ 122 }
    ensures { result ≡ one +ℤ other }
{
    one + other
}

impl StopSums {
    /// Of no games.
    fn nothing() -> StopSums
        ensures { result ≡ record { right = pos 0; left = pos 0 } }
    {
        StopSums { right: 0, left: 0 }
    }

    /// Of the games of both.
    fn plus(self, other: StopSums) -> StopSums
        requires right { unsigned_abs self.right + unsigned_abs other.right < 2 ^ 120 }
        requires left { unsigned_abs self.left + unsigned_abs other.left < 2 ^ 120 }
        ensures { result ≡ record {
          right = self.right +ℤ other.right;
          left = self.left +ℤ other.left;
        } }
    {
        StopSums {
            right: sum_of(self.right, other.right),
            left: sum_of(self.left, other.left),
        }
    }

    /// Whether the right stops and the number add up to more than 0.
    fn is_above(self, number: Dyadic) -> bool
        requires { unsigned_abs self.right < 2 ^ 120 }
        ensures { IsTrue result ↔ (pos 0 <ℤ (self.right +ℤ number)) }
    {
        sum_of(self.right, number.units()) > 0
    }

    /// Whether the left stops and the number add up to less than 0.
    fn is_below(self, number: Dyadic) -> bool
        requires { unsigned_abs self.left < 2 ^ 120 }
        ensures { IsTrue result ↔ ((self.left +ℤ number) <ℤ pos 0) }
    {
        sum_of(self.left, number.units()) < 0
    }
}

/// The stops of a game.
fn stops_at(store: &Store, id: GameId) -> StopSums
    requires known { id < length store.now }
    requires within { AreWithin most_value (tree_at store.now id) }
    ensures { LiesBetween (tree_at store.now id) most_value result }
{
    let _canonical = store.node(id);
    StopSums {
        right: right_stop(store, id).units(),
        left: left_stop(store, id).units(),
    }
}

/// The stops of the games of a sum, added up.
fn stops_of(store: &Store, sum: &[GameId]) -> StopSums
    requires { AreModestGames store.now sum.now }
    ensures { LiesBetween (total (pick store.now sum.now)) (MOST_POINTS * most_value) result }
{
    let mut stops = StopSums::nothing();
    'adding: for id in sum {
        stops = stops.plus(stops_at(store, *id));
    }
    stops
}

/// Whether Black wins a game that the player who moves first loses or not.
fn wins_where(first: Colour, lost: bool) -> bool
    ensures { (G : Tree) → IsTrue lost ↔ LosesGame first G → IsTrue result ↔ BlackWins first G }
{
    match first {
        Colour::Black => !lost,
        Colour::White => lost,
    }
}

/// So many halves of a point.
fn number_of(halves: i64) -> Dyadic
    requires { unsigned_abs halves ≤ 2 ^ 45 }
    ensures { result ≡ halves *ℤ pos (2 ^ 59) }
{
    of_halves(i128::from(halves))
}

/// Whether Black wins the sum beside so many halves of a point, where this player moves first. Where the stops don't tell
/// it, the search does.
fn black_wins(
    store: &Store,
    search: &mut Search,
    sum: &mut [GameId],
    stops: StopSums,
    first: Colour,
    halves: i64,
) -> bool
    requires games { AreModestGames store.now sum.old }
    requires stops { LiesBetween (total (pick store.now sum.old)) (MOST_POINTS * most_value) stops }
    requires halves { unsigned_abs halves ≤ 2 ^ 45 }
    requires fits { Fits store.now search.old }
    ensures wins { IsTrue result
        ↔ BlackWins first (total (pick store.now sum.old) +ᵍ num 1 halves) }
    ensures same { sum.new ≡ sum.old }
    ensures fits { Fits store.now search.new }
{
    let number = number_of(halves);
    if stops.is_above(number) {
        return true;
    }
    if stops.is_below(number) {
        return false;
    }
    let lost = search.loses(store, sum, number, first);
    wins_where(first, lost)
}

/// So many halves of a point more than -2^45, below which no sum lies.
fn above_least(steps: u64) -> i64
    requires { steps ≤ 2 ^ 46 }
    ensures { result ≡ pos steps -ℤ pos (2 ^ 45) }
{
    steps as i64 - (1 << 45)
}

/// The least number of halves of a point beside which Black wins the sum, where this player moves first.
pub(crate) fn least_win(
    store: &Store,
    search: &mut Search,
    sum: &mut [GameId],
    first: Colour,
) -> i64
    requires games { AreModestGames store.now sum.old }
    requires fits { Fits store.now search.old }
    ensures least { IsLeastWin first (total (pick store.now sum.old)) result }
    ensures small { unsigned_abs result ≤ 2 ^ 45 }
    ensures same { sum.new ≡ sum.old }
    ensures fits { Fits store.now search.new }
{
    let stops = stops_of(store, sum);
    let mut lost: u64 = 0;
    let mut won: u64 = 1 << 46;
    'halving: while won - lost > 1 {
        let middle = lost + (won - lost) / 2;
        if black_wins(store, search, sum, stops, first, above_least(middle)) {
            won = middle;
        } else {
            lost = middle;
        }
    }
    above_least(won)
}

/// What the first number is more than the second.
fn difference_of(one: i128, other: i128) -> i128
    requires { unsigned_abs one + unsigned_abs other < 2 ^ 122 }
    ensures { result ≡ one -ℤ other }
{
    one - other
}

/// A small number in 64 bits.
fn narrowed(number: i128) -> i64
    requires { unsigned_abs number ≤ 2 ^ 46 }
    ensures { result ≡ number }
{
    number as i64
}

/// What is left of a balance in halves of a point.
fn left_of(balance: i128, halves: i64) -> i64
    requires balance { unsigned_abs balance ≤ 2 ^ 45 }
    requires halves { unsigned_abs halves ≤ 2 ^ 45 }
    ensures left { result ≡ balance -ℤ halves }
    ensures small { unsigned_abs result ≤ 2 ^ 46 }
{
    narrowed(difference_of(balance, i128::from(halves)))
}

/// How many halves of a point can be taken from the purses so that this least number, beside which Black wins, is left.
pub(crate) fn margin_from(purses: Purses, least: i64) -> i64
    requires purses { AreModest purses }
    requires least { unsigned_abs least ≤ 2 ^ 45 }
    ensures margin { result ≡ balance purses -ℤ least }
    ensures small { unsigned_abs result ≤ 2 ^ 46 }
{
    left_of(balance_halves(purses), least)
}

/// How many halves of a point can be taken from the purses so that Black still wins the sum beside them, where this player moves
/// first.
pub fn margin_of(
    store: &Store,
    search: &mut Search,
    sum: &mut [GameId],
    purses: Purses,
    first: Colour,
) -> i64
    requires games { AreModestGames store.now sum.old }
    requires purses { AreModest purses }
    requires fits { Fits store.now search.old }
    ensures margin { IsLeastWin first (total (pick store.now sum.old))
        (balance purses -ℤ result) }
    ensures small { unsigned_abs result ≤ 2 ^ 46 }
    ensures same { sum.new ≡ sum.old }
    ensures fits { Fits store.now search.new }
{
    margin_from(purses, least_win(store, search, sum, first))
}

/// How many halves of a point the threshold is above the komi, where this player moves first.
pub(crate) fn margin(
    present: &Present<'_>,
    search: &mut Search,
    sum: &mut [GameId],
    first: Colour,
) -> i64
    requires seen { IsSeen present.now sum.old }
    requires fits { Fits present.now.store.now search.old }
    ensures margin { IsMargin present.now.whole.now first [] result }
    ensures small { unsigned_abs result ≤ 2 ^ 46 }
    ensures same { sum.new ≡ sum.old }
    ensures fits { Fits present.now.store.now search.new }
{
    margin_of(present.store, search, sum, present.whole.purses(), first)
}

/// The komi and so many halves more, where 64 bits hold them.
pub fn raised(komi: i64, halves: i64) -> i64
    ensures { unsigned_abs (komi +ℤ halves) < 2 ^ 63 → result ≡ komi +ℤ halves }
{
    komi.checked_add(halves).unwrap_or(komi)
}
