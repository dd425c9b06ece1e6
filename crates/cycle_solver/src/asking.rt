//! Who wins the present state: each player is asked of the sum of that player's values.

ghost use Rattle.std.specs.Prelude.{◌≡◌, ◌<◌, ◌↔◌, IfOk, IsTrue, MatchOption, length, replicate};
ghost use Rattle.go_grid.specs.declared.grid.Colour.TheVariants.{Black, White};
ghost use Rattle.short_games.specs.Number.{num};
ghost use Rattle.short_games.specs.Sum.{◌+ᵍ◌, total};
ghost use Rattle.game_store.specs.Meaning.{pick};
ghost use Rattle.whole_rules.specs.FirstWinningMove.{IsWinner};
ghost use Rattle.sum_outcome.specs.Memo.{Fits};
ghost use Rattle.endgame_solver.specs.ModestGames.{AreModestGames};
ghost use Rattle.endgame_solver.specs.SumGame.{AreModest, balance};
ghost use Rattle.whole_budgets.specs.BudgetPlay.{WinsWithCaptures};
ghost use Rattle.whole_budgets.specs.BudgetSums.{WinsGame};
ghost use Rattle.whole_budgets.specs.EnginePlay.{AreLeastCaptures};
ghost use Rattle.cycle_solver.specs.Winner.{TellsCaptures, TellsWinner};
ghost use Rattle.cycle_solver.specs.Held.{AreSummed, HaveOpenings, HavePlaces, IsSeen, IsSeenFor, enough};

use crate::one_sum::{are_same_ids, is_same_id};
use crate::shared_games::RegionGames;
use endgame_solver::balance_of;
use game_store::{GameId, Store};
use go_grid::{Colour, Region};
use std::alloc::{AllocError, Global};
use sum_outcome::Search;
use whole_rules::{Purses, Whole};

/// The present state, and what is known of its regions.
#[derive(Clone, Copy)]
pub struct Present<'a> {
    pub whole: &'a Whole,
    pub regions: &'a [Region],
    pub games: &'a RegionGames,
    pub places: &'a [usize],
    pub store: &'a Store,
}

/// Whether it isn't so.
pub(crate) fn is_not(lost: bool) -> bool
    ensures { IsTrue result ↔ (¬ IsTrue lost) }
{
    !lost
}

/// Whether a player wins the sum of games and what the purses are worth, where one of the players is to move.
pub(crate) fn wins_sum(
    store: &Store,
    search: &mut Search,
    sum: &mut [GameId],
    purses: Purses,
    side: Colour,
    player: Colour,
) -> bool
    requires games { AreModestGames store.now sum.old }
    requires purses { AreModest purses }
    requires fits { Fits store.now search.old }
    ensures wins { IsTrue result
        ↔ WinsGame player side (total (pick store.now sum.old) +ᵍ num 1 (balance purses)) }
    ensures same { sum.new ≡ sum.old }
    ensures fits { Fits store.now search.new }
{
    let lost = search.loses(store, sum, balance_of(purses), side);
    if side.is(player) {
        return is_not(lost);
    }
    lost
}

/// Puts the values of the present positions with a budget into a sum.
pub(crate) fn fill(
    games: &RegionGames,
    places: &[usize],
    player: Colour,
    budget: usize,
    sum: &mut [GameId],
)
    requires many { length sum.old ≡ length games.now }
    requires places { HavePlaces games.now places.now player budget }
    ensures { AreSummed games.now places.now player budget sum.new }
{
    'regions: for k in 0..games.len() {
        sum[k] = games.value_with(k, player, budget, places[k]);
    }
}

/// Whether a sum has the values of the present positions with a budget.
fn is_filled(
    games: &RegionGames,
    places: &[usize],
    player: Colour,
    budget: usize,
    sum: &[GameId],
) -> bool
    requires many { length sum.now ≡ length games.now }
    requires places { HavePlaces games.now places.now player budget }
    ensures { IsTrue result → AreSummed games.now places.now player budget sum.now }
{
    'regions: for k in 0..games.len() {
        if !is_same_id(sum[k], games.value_with(k, player, budget, places[k])) {
            return false;
        }
    }
    true
}

/// No region needs a greater budget.
pub(crate) const ENOUGH: usize = 255;

/// Whether a player wins.
pub(crate) fn wins(
    present: &Present<'_>,
    search: &mut Search,
    sum: &mut [GameId],
    player: Colour,
) -> bool
    requires seen { IsSeenFor present.now player enough sum.old }
    requires fits { Fits present.now.store.now search.old }
    ensures wins { IsTrue result ↔ IsWinner present.now.whole.now player }
    ensures same { sum.new ≡ sum.old }
    ensures fits { Fits present.now.store.now search.new }
{
    let side = present.whole.side();
    wins_sum(
        present.store,
        search,
        sum,
        present.whole.purses(),
        side,
        player,
    )
}

/// Whether a player wins with so many captures that return in each region. The sum has the values with them at the end.
fn wins_with(
    present: &Present<'_>,
    search: &mut Search,
    sum: &mut [GameId],
    player: Colour,
    captures: usize,
) -> bool
    requires seen { IsSeen present.now }
    requires many { length sum.old ≡ length present.now.games.now }
    requires fits { Fits present.now.store.now search.old }
    ensures wins { IsTrue result
        ↔ WinsWithCaptures present.now.regions.now player present.now.whole.now captures }
    ensures sum { AreSummed present.now.games.now present.now.places.now player captures sum.new }
    ensures fits { Fits present.now.store.now search.new }
{
    fill(present.games, present.places, player, captures, sum);
    let side = present.whole.side();
    wins_sum(
        present.store,
        search,
        sum,
        present.whole.purses(),
        side,
        player,
    )
}

/// The least number of captures that return in each region with which the winner wins. The sum has the values with it at the
/// end.
fn first_that_wins(
    present: &Present<'_>,
    search: &mut Search,
    sum: &mut [GameId],
    player: Colour,
) -> usize
    requires seen { IsSeenFor present.now player enough sum.old }
    requires winner { IsWinner present.now.whole.now player }
    requires fits { Fits present.now.store.now search.old }
    ensures least { AreLeastCaptures present.now.regions.now present.now.whole.now player result }
    ensures many { length sum.new ≡ length present.now.games.now }
    ensures fits { Fits present.now.store.now search.new }
{
    'rising: for captures in 0..ENOUGH {
        if wins_with(present, search, sum, player, captures) {
            return captures;
        }
    }
    ENOUGH
}

/// With how many captures that return in each region the winner wins, which needs no question where no value of the sum needs
/// one. The sum has the values with a budget that is enough at the beginning and at the end.
fn least_captures(
    present: &Present<'_>,
    search: &mut Search,
    sum: &mut [GameId],
    player: Colour,
) -> usize
    requires seen { IsSeenFor present.now player enough sum.old }
    requires winner { IsWinner present.now.whole.now player }
    requires fits { Fits present.now.store.now search.old }
    ensures least { AreLeastCaptures present.now.regions.now present.now.whole.now player result }
    ensures same { sum.new ≡ sum.old }
    ensures fits { Fits present.now.store.now search.new }
{
    if is_filled(present.games, present.places, player, 0, sum) {
        return 0;
    }
    let captures = first_that_wins(present, search, sum, player);
    fill(present.games, present.places, player, ENOUGH, sum);
    captures
}

/// With how many captures that return in each region the side to move wins at least. None exactly where it isn't the winner.
/// The sum has its values with a budget that is enough at the beginning and at the end.
pub(crate) fn mover_captures(
    present: &Present<'_>,
    search: &mut Search,
    sum: &mut [GameId],
) -> Option<usize>
    requires seen { IsSeenFor present.now present.now.whole.now.side enough sum.old }
    requires fits { Fits present.now.store.now search.old }
    ensures captures { MatchOption result
        (¬ IsWinner present.now.whole.now present.now.whole.now.side)
        (λ n. AreLeastCaptures present.now.regions.now present.now.whole.now
        present.now.whole.now.side n) }
    ensures same { sum.new ≡ sum.old }
    ensures fits { Fits present.now.store.now search.new }
{
    let side = present.whole.side();
    if !wins(present, search, sum, side) {
        return None;
    }
    Some(least_captures(present, search, sum, side))
}

/// The winner of the present state by plain recursion, by both players' values of the present positions. None exactly where
/// there is none.
pub fn winner_of(
    present: &Present<'_>,
    search: &mut Search,
    low: &mut [GameId],
    high: &mut [GameId],
) -> Option<Colour>
    requires low { IsSeenFor present.now Black enough low.old }
    requires high { IsSeenFor present.now White enough high.old }
    requires fits { Fits present.now.store.now search.old }
    ensures winner { TellsWinner present.now.whole.now result }
    ensures low { low.new ≡ low.old }
    ensures high { high.new ≡ high.old }
    ensures fits { Fits present.now.store.now search.new }
{
    if wins(present, search, low, Colour::Black) {
        return Some(Colour::Black);
    }
    if are_same_ids(low, high) {
        return Some(Colour::White);
    }
    if wins(present, search, high, Colour::White) {
        return Some(Colour::White);
    }
    None
}

/// With how many captures that return in each region the winner of the present state wins at least. None exactly where there
/// is no winner.
pub fn captures_of(
    present: &Present<'_>,
    search: &mut Search,
    low: &mut [GameId],
    high: &mut [GameId],
) -> Option<usize>
    requires low { IsSeenFor present.now Black enough low.old }
    requires high { IsSeenFor present.now White enough high.old }
    requires fits { Fits present.now.store.now search.old }
    ensures captures { TellsCaptures present.now.regions.now present.now.whole.now result }
    ensures low { low.new ≡ low.old }
    ensures high { high.new ≡ high.old }
    ensures fits { Fits present.now.store.now search.new }
{
    match winner_of(present, search, low, high) {
        Some(Colour::Black) => Some(least_captures(present, search, low, Colour::Black)),
        Some(Colour::White) => Some(least_captures(present, search, high, Colour::White)),
        None => None,
    }
}

/// A player's values of the positions at the places, with a budget that no region needs more than.
fn start_values(
    alloc: Global,
    games: &RegionGames,
    places: &[usize],
    player: Colour,
) -> Result<Vec<GameId>, AllocError>
    requires places { HavePlaces games.now places.now player enough }
    ensures { IfOk result (λ ids. AreSummed games.now places.now player enough ids.items) }
{
    let mut ids = vec![in alloc; 0; games.len()]?;
    fill(games, places, player, ENOUGH, &mut ids);
    Ok(ids)
}

/// The first place of each graph.
fn first_places(alloc: Global, games: &RegionGames) -> Result<Vec<usize>, AllocError>
    ensures { IfOk result (λ places. places.items ≡ replicate (length games.now) 0) }
{
    let places = vec![in alloc; 0; games.len()]?;
    Ok(places)
}

/// Where the regions stand in their graphs at the opening, and both players' values there.
#[derive(Drop)]
pub struct Start {
    pub places: Vec<usize>,
    pub low: Vec<GameId>,
    pub high: Vec<GameId>,
}

/// The openings of the regions, each of which stands first in its graph.
pub fn start_of(alloc: Global, games: &RegionGames) -> Result<Start, AllocError>
    requires { HaveOpenings games.now }
    ensures places { IfOk result (λ start. start.places.items ≡ replicate (length games.now) 0) }
    ensures low { IfOk result
        (λ start. AreSummed games.now start.places.items Black enough start.low.items) }
    ensures high { IfOk result
        (λ start. AreSummed games.now start.places.items White enough start.high.items) }
{
    let places = first_places(alloc, games)?;
    let low = start_values(alloc, games, &places, Colour::Black)?;
    let high = start_values(alloc, games, &places, Colour::White)?;
    Ok(Start { places, low, high })
}
