//! Who wins with a budget for each region, and the least budgets with which the side to move wins.

ghost use Rattle.std.specs.Prelude.{◌≡◌, ◌<◌, ◌↔◌, ℕ, IsTrue, length, slice_set};
ghost use Rattle.sum_outcome.specs.Memo.{Fits};
ghost use Rattle.whole_budgets.specs.EnginePlay.{AreReducedBelow, IsLeastAt, WinsWithList};
ghost use Rattle.cycle_solver.specs.Held.{AreSummedWith, HavePlaces, IsSeen, IsSeenFor, enough};

use crate::asking::{ENOUGH, Present, fill, wins_sum};
use crate::shared_games::RegionGames;
use game_store::GameId;
use go_grid::Colour;
use sum_outcome::Search;

/// Puts the values of the present positions with listed budgets into a sum.
pub(crate) fn fill_with(
    games: &RegionGames,
    places: &[usize],
    player: Colour,
    budgets: &[usize],
    sum: &mut [GameId],
)
    requires many { length sum.old ≡ length games.now }
    requires listed { length budgets.now ≡ length games.now }
    requires places { (budget : ℕ) → HavePlaces games.now places.now player budget }
    ensures { AreSummedWith games.now places.now player budgets.now sum.new }
{
    'regions: for k in 0..games.len() {
        sum[k] = games.value_with(k, player, budgets[k], places[k]);
    }
}

/// Whether a player wins with listed budgets. The sum has the values with a budget that is enough at the beginning and at the
/// end.
pub(crate) fn wins_listed(
    present: &Present<'_>,
    search: &mut Search,
    sum: &mut [GameId],
    player: Colour,
    budgets: &[usize],
) -> bool
    requires seen { IsSeenFor present.now player enough sum.old }
    requires many { length budgets.now ≡ length present.now.regions.now }
    requires fits { Fits present.now.store.now search.old }
    ensures wins { IsTrue result
        ↔ WinsWithList present.now.regions.now player present.now.whole.now budgets.now }
    ensures same { sum.new ≡ sum.old }
    ensures fits { Fits present.now.store.now search.new }
{
    fill_with(present.games, present.places, player, budgets, sum);
    let side = present.whole.side();
    let purses = present.whole.purses();
    let wins = wins_sum(present.store, search, sum, purses, side, player);
    fill(present.games, present.places, player, ENOUGH, sum);
    wins
}

/// Puts the value of a region's present position for the side to move, with a budget, into a sum.
fn put_budget(present: &Present<'_>, sum: &mut [GameId], budgets: &[usize], k: usize, budget: usize)
    requires seen { IsSeen present.now }
    requires known { k < length present.now.regions.now }
    requires many { length budgets.now ≡ length present.now.regions.now }
    requires but { (n : ℕ) × AreSummedWith present.now.games.now present.now.places.now
        present.now.whole.now.side (slice_set budgets.now k n) sum.old }
    ensures { AreSummedWith present.now.games.now present.now.places.now
        present.now.whole.now.side (slice_set budgets.now k budget) sum.new }
{
    let side = present.whole.side();
    sum[k] = present.games.value_with(k, side, budget, present.places[k]);
}

/// Whether the side to move wins with a budget in one region and the listed ones elsewhere.
fn wins_at(
    present: &Present<'_>,
    search: &mut Search,
    sum: &mut [GameId],
    budgets: &[usize],
    k: usize,
    budget: usize,
) -> bool
    requires seen { IsSeen present.now }
    requires known { k < length present.now.regions.now }
    requires many { length budgets.now ≡ length present.now.regions.now }
    requires but { (n : ℕ) × AreSummedWith present.now.games.now present.now.places.now
        present.now.whole.now.side (slice_set budgets.now k n) sum.old }
    requires fits { Fits present.now.store.now search.old }
    ensures wins { IsTrue result ↔ WinsWithList present.now.regions.now
        present.now.whole.now.side present.now.whole.now (slice_set budgets.now k budget) }
    ensures summed { AreSummedWith present.now.games.now present.now.places.now
        present.now.whole.now.side (slice_set budgets.now k budget) sum.new }
    ensures fits { Fits present.now.store.now search.new }
{
    put_budget(present, sum, budgets, k, budget);
    let side = present.whole.side();
    let purses = present.whole.purses();
    wins_sum(present.store, search, sum, purses, side, side)
}

/// The least budget of a region with which the side to move wins, where the other budgets are as listed.
fn least_at(
    present: &Present<'_>,
    search: &mut Search,
    sum: &mut [GameId],
    budgets: &[usize],
    k: usize,
) -> usize
    requires seen { IsSeen present.now }
    requires known { k < length present.now.regions.now }
    requires many { length budgets.now ≡ length present.now.regions.now }
    requires wins { WinsWithList present.now.regions.now present.now.whole.now.side
        present.now.whole.now budgets.now }
    requires summed { AreSummedWith present.now.games.now present.now.places.now
        present.now.whole.now.side budgets.now sum.old }
    requires fits { Fits present.now.store.now search.old }
    ensures least { IsLeastAt present.now.regions.now present.now.whole.now budgets.now k result }
    ensures summed { AreSummedWith present.now.games.now present.now.places.now
        present.now.whole.now.side (slice_set budgets.now k result) sum.new }
    ensures fits { Fits present.now.store.now search.new }
{
    let steady = present.games.steady_budget(k, present.whole.side());
    let most = budgets[k].min(steady);
    'rising: for budget in 0..most {
        if wins_at(present, search, sum, budgets, k, budget) {
            return budget;
        }
    }
    put_budget(present, sum, budgets, k, most);
    most
}

/// Reduces budgets with which the side to move wins to the least that serve, one region after the other. The sum has the
/// values of the side to move with a budget that is enough at the beginning and at the end.
pub(crate) fn reduce(
    present: &Present<'_>,
    search: &mut Search,
    sum: &mut [GameId],
    budgets: &mut [usize],
)
    requires seen { IsSeenFor present.now present.now.whole.now.side enough sum.old }
    requires many { length budgets.old ≡ length present.now.regions.now }
    requires wins { WinsWithList present.now.regions.now present.now.whole.now.side
        present.now.whole.now budgets.old }
    requires fits { Fits present.now.store.now search.old }
    ensures reduced { AreReducedBelow present.now.regions.now present.now.whole.now
        (length present.now.regions.now) budgets.old budgets.new }
    ensures many { length budgets.new ≡ length present.now.regions.now }
    ensures wins { WinsWithList present.now.regions.now present.now.whole.now.side
        present.now.whole.now budgets.new }
    ensures same { sum.new ≡ sum.old }
    ensures fits { Fits present.now.store.now search.new }
{
    let side = present.whole.side();
    fill_with(present.games, present.places, side, budgets, sum);
    'regions: for k in 0..present.regions.len() {
        budgets[k] = least_at(present, search, sum, budgets, k);
    }
    fill(present.games, present.places, side, ENOUGH, sum);
}
