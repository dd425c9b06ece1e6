//! Comparisons of sums of two games: which rest on which, and what is remembered of them.

ghost use Rattle.std.specs.Prelude.{◌≡◌, ◌<◌, suc, List, length, OnOk, MatchOption};
ghost use Rattle.short_games.specs.Tree.{Tree, left, right};
ghost use Rattle.game_canon.specs.SumComparisons.{Tells, AreSumsRight, AreStored};
ghost use Rattle.game_canon.specs.inner.SumComparisons.{recalled_sums, with_sums, AreMoves, game_at, options_at, rank, counter_by, IsCancelled};
ghost use Rattle.game_canon.specs.declared.sums.SumPair.{SumPair};

use game_store::{Form, GameId, Store};
use indexmap::IndexMap;
use std::alloc::AllocError;

/// Two sums of two games each: of the first two, and of the last two.
#[derive(Clone, Copy, PartialEq, Eq, Hash)]
pub(crate) struct SumPair {
    pub(crate) first: GameId,
    pub(crate) second: GameId,
    pub(crate) third: GameId,
    pub(crate) fourth: GameId,
}

/// The place of a game in a pair of sums.
#[derive(Clone, Copy)]
pub(crate) enum Place {
    First,
    Second,
    Third,
    Fourth,
}

/// The place after another, where there is one.
pub(crate) fn next_place(place: Place) -> Option<Place>
    ensures { MatchOption result (rank place ≡ 3) (λ next. rank next ≡ suc (rank place)) }
{
    match place {
        Place::First => Some(Place::Second),
        Place::Second => Some(Place::Third),
        Place::Third => Some(Place::Fourth),
        Place::Fourth => None,
    }
}

/// For pairs of sums, whether the first is at most the second.
pub(crate) type SumAnswers = IndexMap<SumPair, bool>;

/// The answer for a pair, if it is remembered.
pub(crate) fn recall_sums(memo: &SumAnswers, pair: SumPair) -> Option<bool>
    ensures { result ≡ recalled_sums memo.now pair }
{
    memo.get(&pair).copied()
}

/// Remembers the answer for a pair.
pub(crate) fn remember_sums(
    memo: &mut SumAnswers,
    pair: SumPair,
    answer: bool,
) -> Result<(), AllocError>
    ensures noted { OnOk result ((p : SumPair)
        → recalled_sums memo.new p ≡ with_sums (recalled_sums memo.old) pair answer p) }
    ensures right { (Ts : List Tree) → AreStored Ts pair → Tells Ts pair answer
        → AreSumsRight Ts (recalled_sums memo.old) → AreSumsRight Ts (recalled_sums memo.new) }
{
    memo.insert(pair, answer)?;
    Ok(())
}

/// How many comparisons may be remembered when the next question comes.
const MOST_COMPARISONS: usize = 100_000;

/// Forgets all comparisons where they are too many.
pub(crate) fn make_room(memo: &mut SumAnswers)
    ensures room { length memo.new.entries < 100000 }
    ensures right { (Ts : List Tree) → AreSumsRight Ts (recalled_sums memo.old)
        → AreSumsRight Ts (recalled_sums memo.new) }
{
    if memo.len() >= MOST_COMPARISONS {
        memo.clear();
    }
}

/// The Left options of a form, and none of a number.
fn left_moves(store: &Store, id: GameId) -> &[GameId]
    requires { id < length store.now }
    ensures { AreMoves store.now left id result.now }
{
    match store.node(id) {
        Form::Number(_) => &[],
        Form::Options { left, .. } => left,
    }
}

/// The Right options of a form, and none of a number.
fn right_moves(store: &Store, id: GameId) -> &[GameId]
    requires { id < length store.now }
    ensures { AreMoves store.now right id result.now }
{
    match store.node(id) {
        Form::Number(_) => &[],
        Form::Options { right, .. } => right,
    }
}

/// The options of the game at a place with which the comparison may be countered: Left's in the first sum, and Right's
/// in the second. A number has none, since beside a game that is none no move in it is needed (number avoidance,
/// Conway).
pub(crate) fn moves(store: &Store, pair: SumPair, place: Place) -> &[GameId]
    requires { AreStored store.now pair }
    ensures { AreMoves store.now (options_at place) (game_at pair place) result.now }
{
    match place {
        Place::First => left_moves(store, pair.first),
        Place::Second => left_moves(store, pair.second),
        Place::Third => right_moves(store, pair.third),
        Place::Fourth => right_moves(store, pair.fourth),
    }
}

/// The comparison that counters, after a move in the game at a place.
pub(crate) fn counter_by(pair: SumPair, place: Place, option: GameId) -> SumPair
    ensures { result ≡ counter_by pair place option }
{
    let turned = SumPair {
        first: pair.third,
        second: pair.fourth,
        third: pair.first,
        fourth: pair.second,
    };
    match place {
        Place::First => SumPair {
            third: option,
            ..turned
        },
        Place::Second => SumPair {
            fourth: option,
            ..turned
        },
        Place::Third => SumPair {
            first: option,
            ..turned
        },
        Place::Fourth => SumPair {
            second: option,
            ..turned
        },
    }
}

/// The same comparison without a game that stands in both sums. In its place stands the first form of the store, which is
/// a number, since options are earlier forms.
pub(crate) fn cancelled(pair: SumPair) -> SumPair
    ensures { IsCancelled pair result }
{
    if pair.first == pair.third {
        return SumPair {
            first: 0,
            third: 0,
            ..pair
        };
    }
    if pair.first == pair.fourth {
        return SumPair {
            first: 0,
            fourth: 0,
            ..pair
        };
    }
    if pair.second == pair.third {
        return SumPair {
            second: 0,
            third: 0,
            ..pair
        };
    }
    if pair.second == pair.fourth {
        return SumPair {
            second: 0,
            fourth: 0,
            ..pair
        };
    }
    pair
}
