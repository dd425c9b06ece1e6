//! Stones that are asked for a player's threshold. A stone takes a game out of the sum of the player's present values and puts
//! another in its place. Two that take games of one id, put games of one id and leave the same purses are won by as much, so
//! only the first of them is searched.

ghost use Rattle.std.specs.Prelude.{◌≡◌, ◌⊎◌, ◌<◌, ◌≤◌, ◌^◌, ◌-ℤ◌, ◌↔◌, pos, Contains, IfSome, IsTrue, MatchOption, length, slice_set, unsigned_abs};
ghost use Rattle.go_grid.specs.Board.{other};
ghost use Rattle.short_games.specs.Sum.{total};
ghost use Rattle.game_store.specs.Meaning.{pick};
ghost use Rattle.sum_outcome.specs.Memo.{Fits};
ghost use Rattle.whole_rules.specs.FirstWinningMove.{IsWinner};
ghost use Rattle.whole_rules.specs.WholeGame.{IsMove, Whole};
ghost use Rattle.whole_rules.specs.declared.states.Move.{Move};
ghost use Rattle.endgame_solver.specs.ModestGames.{AreModestGames};
ghost use Rattle.endgame_solver.specs.SumGame.{AreModest, balance};
ghost use Rattle.endgame_solver.specs.Thresholds.{IsLeastWin};
ghost use Rattle.cycle_solver.specs.Changes.{IsChange, IsSomeChange, places_after};
ghost use Rattle.cycle_solver.specs.Held.{IsSeenFor, enough};
ghost use Rattle.cycle_solver.specs.Thresholds.{IsGoodFor};
ghost use Rattle.cycle_solver.specs.inner.Asked.{AreAnswers, IsOn, IsWonBy};

use crate::asking::{ENOUGH, Present};
use crate::changes::{Change, wins_after};
use endgame_solver::margin_of;
use game_store::{GameId, Store};
use go_grid::Colour;
use sum_outcome::Search;
use whole_rules::Purses;

/// The game that a stone takes out of the sum, the one that it puts in its place, the purses behind it, and how many halves of
/// a point the threshold then is above the komi.
#[derive(Clone, Copy)]
pub(crate) struct Answered {
    pub before: GameId,
    pub after: GameId,
    pub purses: Purses,
    pub margin: i64,
}

/// Whether the purses are the same.
fn are_same_purses(a: Purses, b: Purses) -> bool
    ensures { IsTrue result ↔ (a ≡ b) }
{
    a.black == b.black && a.white == b.white && a.token == b.token
}

/// Whether the answer is on a stone that takes and puts these games, and leaves these purses.
fn is_on(answer: Answered, before: GameId, after: GameId, purses: Purses) -> bool
    ensures { IsTrue result ↔ IsOn before after purses answer }
{
    answer.before == before && answer.after == after && are_same_purses(answer.purses, purses)
}

/// What was answered on a stone that takes and puts these games, and leaves these purses.
fn known_margin(answered: &[Answered], before: GameId, after: GameId, purses: Purses) -> Option<i64>
    ensures { MatchOption result
        ((a : Answered) → Contains answered.now a → ¬ IsOn before after purses a)
        (λ n. (a : Answered) × Contains answered.now a × IsOn before after purses a
        × (n ≡ a.margin)) }
{
    'answers: for answer in answered {
        if is_on(*answer, before, after, purses) {
            return Some(answer.margin);
        }
    }
    None
}

/// Keeps an answer, or leaves it out where memory is wanting.
fn keep(answered: &mut Vec<Answered>, answer: Answered)
    ensures { (a : Answered) → Contains answered.new.items a
        → Contains answered.old.items a ⊎ (a ≡ answer) }
{
    let _kept = answered.push(answer);
}

/// By how many halves of a point the sum with this game at the place is won beside the purses, where this player moves first.
fn changed_margin(
    store: &Store,
    search: &mut Search,
    sum: &mut [GameId],
    place: usize,
    after: GameId,
    purses: Purses,
    first: Colour,
) -> i64
    requires place { place < length sum.old }
    requires games { AreModestGames store.now (slice_set sum.old place after) }
    requires purses { AreModest purses }
    requires fits { Fits store.now search.old }
    ensures margin { IsLeastWin first (total (pick store.now (slice_set sum.old place after)))
        (balance purses -ℤ result) }
    ensures small { unsigned_abs result ≤ 2 ^ 46 }
    ensures same { sum.new ≡ sum.old }
    ensures fits { Fits store.now search.new }
{
    let before = sum[place];
    sum[place] = after;
    let margin = margin_of(store, search, sum, purses, first);
    sum[place] = before;
    margin
}

/// The same, by what was answered on the present sum where that tells it.
pub(crate) fn asked_margin(
    store: &Store,
    search: &mut Search,
    sum: &mut [GameId],
    answered: &mut Vec<Answered>,
    place: usize,
    after: GameId,
    purses: Purses,
    first: Colour,
) -> i64
    requires place { place < length sum.old }
    requires games { AreModestGames store.now (slice_set sum.old place after) }
    requires purses { AreModest purses }
    requires fits { Fits store.now search.old }
    requires right { AreAnswers store.now sum.old first answered.old.items }
    ensures margin { IsLeastWin first (total (pick store.now (slice_set sum.old place after)))
        (balance purses -ℤ result) }
    ensures small { unsigned_abs result ≤ 2 ^ 46 }
    ensures same { sum.new ≡ sum.old }
    ensures fits { Fits store.now search.new }
    ensures right { AreAnswers store.now sum.old first answered.new.items }
{
    let before = sum[place];
    if let Some(margin) = known_margin(answered, before, after, purses) {
        return margin;
    }
    let margin = changed_margin(store, search, sum, place, after, purses, first);
    keep(
        answered,
        Answered {
            before,
            after,
            purses,
            margin,
        },
    );
    margin
}

/// By how many halves of a point a stone is won, where that was answered.
fn known_behind(
    present: &Present<'_>,
    sum: &[GameId],
    answered: &[Answered],
    change: Change,
    player: Colour,
) -> Option<i64>
    requires seen { IsSeenFor present.now player enough sum.now }
    requires change { IsSomeChange present.now change }
    requires right { AreAnswers present.now.store.now sum.now (other present.now.whole.now.side)
        answered.now }
    ensures { IfSome result (λ n. IsWonBy present.now change player n) }
{
    match change.stone {
        None => None,
        Some((k, place)) => {
            let after = present.games.value_with(k, player, ENOUGH, place);
            known_margin(answered, sum[k], after, change.purses)
        }
    }
}

/// Whether the player wins who has this margin, which is Black's.
fn is_margin_good(player: Colour, margin: i64) -> bool
    ensures { IsTrue result ↔ IsGoodFor player margin (pos 0) }
{
    match player {
        Colour::Black => margin >= 0,
        Colour::White => margin < 0,
    }
}

/// Whether a player wins behind a move, by what was answered on the present sum where that tells it.
pub(crate) fn wins_behind(
    present: &Present<'_>,
    search: &mut Search,
    sum: &mut [GameId],
    answered: &[Answered],
    change: Change,
    player: Colour,
) -> bool
    requires seen { IsSeenFor present.now player enough sum.old }
    requires change { IsSomeChange present.now change }
    requires fits { Fits present.now.store.now search.old }
    requires right { AreAnswers present.now.store.now sum.old (other present.now.whole.now.side)
        answered.now }
    ensures wins { (m : Move) (t : Whole) → IsChange present.now m change
        → IsMove present.now.whole.now m t → IsTrue result ↔ IsWinner t player }
    ensures same { sum.new ≡ sum.old }
    ensures fits { Fits present.now.store.now search.new }
{
    if let Some(margin) = known_behind(present, sum, answered, change, player) {
        return is_margin_good(player, margin);
    }
    wins_after(present, search, sum, change, player)
}
