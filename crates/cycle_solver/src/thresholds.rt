//! Both players' thresholds: up to which komi Black wins, and above which White does.

ghost use Rattle.std.specs.Prelude.{◌≡◌, ◌≤◌, ◌^◌, ℕ, [], ◌∷◌, unsigned_abs};
ghost use Rattle.go_grid.specs.Board.{other};
ghost use Rattle.go_grid.specs.declared.grid.Colour.TheVariants.{Black, White};
ghost use Rattle.sum_outcome.specs.Memo.{Fits};
ghost use Rattle.whole_rules.specs.declared.states.Move.TheVariants.{Stone};
ghost use Rattle.cycle_solver.specs.Changes.{IsChange, IsSomeChange, places_after};
ghost use Rattle.cycle_solver.specs.Held.{IsSeenFor, enough};
ghost use Rattle.cycle_solver.specs.Thresholds.{AreThresholdsFrom, IsMarginFor};
ghost use Rattle.cycle_solver.specs.inner.Asked.{AreAnswers};
ghost use Rattle.cycle_solver.specs.inner.OneSum.{AreValuesOf};

use crate::asked::{Answered, asked_margin};
use crate::asking::{ENOUGH, Present};
use crate::changes::Change;
use crate::one_sum::{are_same_ids, is_one_behind};
use endgame_solver::{margin_of, raised};
use game_store::GameId;
use go_grid::Colour;
use sum_outcome::Search;

/// Both players' thresholds, in half-points of komi: Black wins up to the first, White above the second, and between them
/// nobody does.
#[derive(Clone, Copy)]
pub struct Thresholds {
    pub black: i64,
    pub white: i64,
}

/// How many halves of a point a player's threshold is above the komi, where this one moves first.
fn margin_for(
    present: &Present<'_>,
    search: &mut Search,
    sum: &mut [GameId],
    player: Colour,
    first: Colour,
) -> i64
    requires seen { IsSeenFor present.now player enough sum.old }
    requires fits { Fits present.now.store.now search.old }
    ensures margin { (d : Colour)
        → AreValuesOf present.now.games.now present.now.places.now player d
        → IsMarginFor d present.now.whole.now first [] result }
    ensures small { unsigned_abs result ≤ 2 ^ 46 }
    ensures same { sum.new ≡ sum.old }
    ensures fits { Fits present.now.store.now search.new }
{
    margin_of(present.store, search, sum, present.whole.purses(), first)
}

/// How many halves of a point a player's threshold behind a move is above the komi.
fn margin_after(
    present: &Present<'_>,
    search: &mut Search,
    sum: &mut [GameId],
    answered: &mut Vec<Answered>,
    change: Change,
    player: Colour,
) -> i64
    requires seen { IsSeenFor present.now player enough sum.old }
    requires change { IsSomeChange present.now change }
    requires fits { Fits present.now.store.now search.old }
    requires right { AreAnswers present.now.store.now sum.old (other present.now.whole.now.side)
        answered.old.items }
    ensures margin { (d : Colour) → AreValuesOf present.now.games.now
        (places_after present.now.places.now change.stone) player d
        → (p : ℕ) → IsChange present.now (Stone p) change
        → IsMarginFor d present.now.whole.now present.now.whole.now.side (p ∷ []) result }
    ensures small { unsigned_abs result ≤ 2 ^ 46 }
    ensures same { sum.new ≡ sum.old }
    ensures fits { Fits present.now.store.now search.new }
    ensures right { AreAnswers present.now.store.now sum.old (other present.now.whole.now.side)
        answered.new.items }
{
    let next = present.whole.side().other();
    match change.stone {
        None => margin_of(present.store, search, sum, change.purses, next),
        Some((k, place)) => {
            let after = present.games.value_with(k, player, ENOUGH, place);
            asked_margin(
                present.store,
                search,
                sum,
                answered,
                k,
                after,
                change.purses,
                next,
            )
        }
    }
}

/// How many halves of a point White's threshold is above the komi, where this player moves first, and Black's is so many.
fn margin_for_white(
    present: &Present<'_>,
    search: &mut Search,
    low: &[GameId],
    high: &mut [GameId],
    black: i64,
    first: Colour,
) -> i64
    requires low { IsSeenFor present.now Black enough low.now }
    requires high { IsSeenFor present.now White enough high.old }
    requires fits { Fits present.now.store.now search.old }
    requires margin { (d : Colour)
        → AreValuesOf present.now.games.now present.now.places.now Black d
        → IsMarginFor d present.now.whole.now first [] black }
    requires small { unsigned_abs black ≤ 2 ^ 46 }
    ensures margin { IsMarginFor White present.now.whole.now first [] result }
    ensures small { unsigned_abs result ≤ 2 ^ 46 }
    ensures same { high.new ≡ high.old }
    ensures fits { Fits present.now.store.now search.new }
{
    if are_same_ids(low, high) {
        return black;
    }
    margin_for(present, search, high, Colour::White, first)
}

/// How many halves of a point White's threshold behind a move is above the komi, where Black's is so many.
fn margin_after_for_white(
    present: &Present<'_>,
    search: &mut Search,
    low: &[GameId],
    high: &mut [GameId],
    answered: &mut Vec<Answered>,
    change: Change,
    black: i64,
) -> i64
    requires low { IsSeenFor present.now Black enough low.now }
    requires high { IsSeenFor present.now White enough high.old }
    requires change { IsSomeChange present.now change }
    requires fits { Fits present.now.store.now search.old }
    requires margin { (d : Colour) → AreValuesOf present.now.games.now
        (places_after present.now.places.now change.stone) Black d
        → (p : ℕ) → IsChange present.now (Stone p) change
        → IsMarginFor d present.now.whole.now present.now.whole.now.side (p ∷ []) black }
    requires small { unsigned_abs black ≤ 2 ^ 46 }
    requires right { AreAnswers present.now.store.now high.old (other present.now.whole.now.side)
        answered.old.items }
    ensures margin { (p : ℕ) → IsChange present.now (Stone p) change
        → IsMarginFor White present.now.whole.now present.now.whole.now.side (p ∷ []) result }
    ensures small { unsigned_abs result ≤ 2 ^ 46 }
    ensures same { high.new ≡ high.old }
    ensures fits { Fits present.now.store.now search.new }
    ensures right { AreAnswers present.now.store.now high.old (other present.now.whole.now.side)
        answered.new.items }
{
    if is_one_behind(present, low, high, change) {
        return black;
    }
    margin_after(present, search, high, answered, change, Colour::White)
}

/// Both thresholds of a state that opens with this komi, where this player moves first.
pub(crate) fn thresholds_of(
    present: &Present<'_>,
    search: &mut Search,
    low: &mut [GameId],
    high: &mut [GameId],
    komi_halves: i64,
    first: Colour,
) -> Thresholds
    requires low { IsSeenFor present.now Black enough low.old }
    requires high { IsSeenFor present.now White enough high.old }
    requires fits { Fits present.now.store.now search.old }
    ensures thresholds { AreThresholdsFrom present.now.whole.now komi_halves first [] result }
    ensures low { low.new ≡ low.old }
    ensures high { high.new ≡ high.old }
    ensures fits { Fits present.now.store.now search.new }
{
    let black = margin_for(present, search, low, Colour::Black, first);
    let white = margin_for_white(present, search, low, high, black, first);
    Thresholds {
        black: raised(komi_halves, black),
        white: raised(komi_halves, white),
    }
}

/// Both thresholds behind a stone that changes this, where the state opens with this komi.
pub(crate) fn thresholds_after(
    present: &Present<'_>,
    search: &mut Search,
    low: &mut [GameId],
    high: &mut [GameId],
    low_asked: &mut Vec<Answered>,
    high_asked: &mut Vec<Answered>,
    komi_halves: i64,
    change: Change,
) -> Thresholds
    requires low { IsSeenFor present.now Black enough low.old }
    requires high { IsSeenFor present.now White enough high.old }
    requires change { IsSomeChange present.now change }
    requires fits { Fits present.now.store.now search.old }
    requires low_right { AreAnswers present.now.store.now low.old
        (other present.now.whole.now.side) low_asked.old.items }
    requires high_right { AreAnswers present.now.store.now high.old
        (other present.now.whole.now.side) high_asked.old.items }
    ensures thresholds { (p : ℕ) → IsChange present.now (Stone p) change
        → AreThresholdsFrom present.now.whole.now komi_halves present.now.whole.now.side
        (p ∷ []) result }
    ensures low { low.new ≡ low.old }
    ensures high { high.new ≡ high.old }
    ensures fits { Fits present.now.store.now search.new }
    ensures low_right { AreAnswers present.now.store.now low.old
        (other present.now.whole.now.side) low_asked.new.items }
    ensures high_right { AreAnswers present.now.store.now high.old
        (other present.now.whole.now.side) high_asked.new.items }
{
    let black = margin_after(present, search, low, low_asked, change, Colour::Black);
    let white = margin_after_for_white(present, search, low, high, high_asked, change, black);
    Thresholds {
        black: raised(komi_halves, black),
        white: raised(komi_halves, white),
    }
}
