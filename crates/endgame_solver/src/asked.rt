//! Stones that are asked for their thresholds. A stone takes a game out of the sum of the present values and puts another in its
//! place. Two that take games of one id and put games of one id lead to equal sums, so only the first of them is searched.

ghost use Rattle.std.specs.Prelude.{◌≡◌, ◌⊎◌, ◌<◌, ◌≤◌, ◌≤ℤ◌, ◌^◌, ◌↔◌, Contains, [], ◌∷◌, IfSome, IsTrue, MatchOption, length, slice_set, unsigned_abs};
ghost use Rattle.go_grid.specs.Board.{other};
ghost use Rattle.whole_rules.specs.declared.states.Move.TheVariants.{Stone};
ghost use Rattle.whole_rules.specs.WholeGame.{IsLegal};
ghost use Rattle.short_games.specs.Tree.{Tree};
ghost use Rattle.short_games.specs.Number.{num};
ghost use Rattle.short_games.specs.Sum.{◌+ᵍ◌, total};
ghost use Rattle.game_store.specs.Meaning.{pick};
ghost use Rattle.sum_outcome.specs.Memo.{Fits};
ghost use Rattle.game_players.specs.Players.{LosesGame};
ghost use Rattle.endgame_solver.specs.ModestGames.{AreModestGames};
ghost use Rattle.endgame_solver.specs.SumGame.{AreModest, balance};
ghost use Rattle.endgame_solver.specs.Thresholds.{BlackWins, IsLeastWin};
ghost use Rattle.endgame_solver.specs.inner.Asked.{AreAnswers, IsOn};
ghost use Rattle.endgame_solver.specs.inner.Thresholds.{IsMargin};
ghost use Rattle.endgame_solver.specs.inner.Views.{IsSeen};

use crate::balance::{balance_halves, balance_of};
use crate::thresholds::{least_win, margin_from};
use crate::winning_moves::{Present, loses_with, stone_edge, value_seen};
use game_store::{GameId, Store};
use go_grid::{Colour, Point};
use sum_outcome::Search;
use whole_rules::Purses;

/// The game that a stone takes out of the sum, the one that it puts in its place, and the least number of halves of a point
/// beside which Black then wins.
#[derive(Clone, Copy)]
pub(crate) struct Answered {
    pub before: GameId,
    pub after: GameId,
    pub least: i64,
}

/// Whether the answer is on a stone that takes and puts these games.
fn is_on(answer: Answered, before: GameId, after: GameId) -> bool
    ensures { IsTrue result ↔ IsOn before after answer }
{
    answer.before == before && answer.after == after
}

/// What was answered on a stone that takes and puts these games.
fn known_least(answered: &[Answered], before: GameId, after: GameId) -> Option<i64>
    ensures { MatchOption result
        ((a : Answered) → Contains answered.now a → ¬ IsOn before after a)
        (λ n. (a : Answered) × Contains answered.now a × IsOn before after a × (n ≡ a.least)) }
{
    'answers: for answer in answered {
        if is_on(*answer, before, after) {
            return Some(answer.least);
        }
    }
    None
}

/// Keeps an answer, or leaves it out where memory is wanting.
fn keep(answered: &mut Vec<Answered>, answer: Answered)
    ensures { (a : Answered) → Contains answered.new.items a
        → Contains answered.old.items a ⊎ (a ≡ answer) }
{
    let _kept = answered.push(answer);
}

/// The least number of halves of a point beside which Black wins the sum with this game at the place, where this player moves
/// first.
fn changed_least(
    store: &Store,
    search: &mut Search,
    sum: &mut [GameId],
    place: usize,
    after: GameId,
    first: Colour,
) -> i64
    requires place { place < length sum.old }
    requires games { AreModestGames store.now (slice_set sum.old place after) }
    requires fits { Fits store.now search.old }
    ensures least { IsLeastWin first
        (total (pick store.now (slice_set sum.old place after))) result }
    ensures small { unsigned_abs result ≤ 2 ^ 45 }
    ensures same { sum.new ≡ sum.old }
    ensures fits { Fits store.now search.new }
{
    let before = sum[place];
    sum[place] = after;
    let least = least_win(store, search, sum, first);
    sum[place] = before;
    least
}

/// The same, by what was answered on the present sum where that tells it.
fn least_after(
    store: &Store,
    search: &mut Search,
    sum: &mut [GameId],
    answered: &mut Vec<Answered>,
    place: usize,
    after: GameId,
    first: Colour,
) -> i64
    requires place { place < length sum.old }
    requires games { AreModestGames store.now (slice_set sum.old place after) }
    requires fits { Fits store.now search.old }
    requires right { AreAnswers store.now sum.old first answered.old.items }
    ensures least { IsLeastWin first
        (total (pick store.now (slice_set sum.old place after))) result }
    ensures small { unsigned_abs result ≤ 2 ^ 45 }
    ensures same { sum.new ≡ sum.old }
    ensures fits { Fits store.now search.new }
    ensures right { AreAnswers store.now sum.old first answered.new.items }
{
    let before = sum[place];
    if let Some(least) = known_least(answered, before, after) {
        return least;
    }
    let least = changed_least(store, search, sum, place, after, first);
    keep(
        answered,
        Answered {
            before,
            after,
            least,
        },
    );
    least
}

/// How many halves of a point the threshold of a stone of the side to move is above the komi. None where the stone is
/// illegal.
pub(crate) fn stone_margin(
    present: &Present<'_>,
    search: &mut Search,
    sum: &mut [GameId],
    answered: &mut Vec<Answered>,
    point: Point,
) -> Option<i64>
    requires seen { IsSeen present.now sum.old }
    requires fits { Fits present.now.store.now search.old }
    requires right { AreAnswers present.now.store.now sum.old (other present.now.whole.now.side)
        answered.old.items }
    ensures margin { MatchOption result (¬ IsLegal present.now.whole.now (Stone point))
        (λ n. IsLegal present.now.whole.now (Stone point)
        × IsMargin present.now.whole.now present.now.whole.now.side (point ∷ []) n) }
    ensures small { IfSome result (λ n. unsigned_abs n ≤ 2 ^ 46) }
    ensures same { sum.new ≡ sum.old }
    ensures fits { Fits present.now.store.now search.new }
    ensures right { AreAnswers present.now.store.now sum.old (other present.now.whole.now.side)
        answered.new.items }
{
    if !present.whole.contested(point) {
        return None;
    }
    let side = present.whole.side();
    let Some((k, edge)) = stone_edge(present.regions, present.book, present.places, point, side)
    else {
        return None;
    };
    let purses = present.whole.purses().paid_in(side, u64::from(edge.taken));
    let after = value_seen(present.book, k, edge.next);
    let first = side.other();
    let least = least_after(present.store, search, sum, answered, k, after, first);
    Some(margin_from(purses, least))
}

/// Whether a number that wins is at most the balance.
fn is_reached(least: i64, balance: i128) -> bool
    ensures { IsTrue result ↔ (least ≤ℤ balance) }
{
    i128::from(least) <= balance
}

/// Whether the player who moves first loses a game that Black wins or not.
fn loses_where(first: Colour, won: bool) -> bool
    ensures { (G : Tree) → IsTrue won ↔ BlackWins first G
        → IsTrue result ↔ LosesGame first G }
{
    match first {
        Colour::Black => !won,
        Colour::White => won,
    }
}

/// Whether the player who moves first loses the sum with this game at the place, beside what the purses are worth, by what was
/// answered on the present sum where that tells it.
pub(crate) fn loses_after(
    store: &Store,
    search: &mut Search,
    sum: &mut [GameId],
    answered: &[Answered],
    place: usize,
    after: GameId,
    purses: Purses,
    first: Colour,
) -> bool
    requires place { place < length sum.old }
    requires games { AreModestGames store.now (slice_set sum.old place after) }
    requires purses { AreModest purses }
    requires fits { Fits store.now search.old }
    requires right { AreAnswers store.now sum.old first answered.now }
    ensures answer { IsTrue result ↔ LosesGame first
        (total (pick store.now (slice_set sum.old place after)) +ᵍ num 1 (balance purses)) }
    ensures same { sum.new ≡ sum.old }
    ensures fits { Fits store.now search.new }
{
    let before = sum[place];
    if let Some(least) = known_least(answered, before, after) {
        return loses_where(first, is_reached(least, balance_halves(purses)));
    }
    loses_with(store, search, sum, place, after, balance_of(purses), first)
}
